//! Tests of a session that is handed its calls line by line, and whose replies and rows are taken as values.
#![tactic(auto)]

#[cfg(test)]
mod replies;
#[cfg(test)]
mod rows;
#[cfg(test)]
mod sessions;
#[cfg(test)]
mod shops;
#[cfg(test)]
mod steps;
