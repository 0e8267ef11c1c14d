//! Tests of the server in small, and of an engine's watchers: what they read before, while and after it runs.
#![tactic(auto)]

#[cfg(test)]
mod answers;
#[cfg(test)]
mod logs;
#[cfg(test)]
mod servers;
#[cfg(test)]
mod tried_again;
#[cfg(test)]
mod watching;
