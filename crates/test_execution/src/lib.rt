//! Tests of the engine, by tables, beside a plain program that runs calls one by one.
#![tactic(auto)]

#[cfg(test)]
mod choices;
#[cfg(test)]
mod gates;
#[cfg(test)]
mod plain;
#[cfg(test)]
mod plain_comparison;
#[cfg(test)]
mod pools;
#[cfg(test)]
mod splits;
