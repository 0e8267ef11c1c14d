//! The bank that tests run: its setup, batches of calls of its procedures, engines on it, what comes of the calls as a
//! text, and gates that count jobs.
#![tactic(auto)]

mod bank_setup;
mod calls;
mod engines;
mod gates;
mod outcomes;

pub use bank_setup::{Bodies, bank};
pub use calls::{Call, CallsFault, TWO_PAYS, batch, batch_over, request};
pub use engines::{batch_of, engine, execute, replies};
pub use gates::{CountingGate, HANDED_OVER, Meeting};
pub use outcomes::push_outcome;
