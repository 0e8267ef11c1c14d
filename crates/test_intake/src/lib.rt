//! Tests of the intake on one thread, by a table of steps.
#![tactic(auto)]

#[cfg(test)]
mod steps;
#[cfg(test)]
mod threads;
#[cfg(test)]
mod turns;
