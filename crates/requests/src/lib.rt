//! What a run starts from, and requests: calls of its procedures by their names, with values that fit.
//!
//! Proved, by `Request::new`: a call is refused exactly where its name is unknown or its values don't fit.
//! `Procs::push`: the procedures with one more, over the same tables. `Request::over`, `Procs::rebuild`: the same over
//! a catalogue that differs in splits alone.
//!
//! Tested only: fault texts.
#![tactic(auto)]

mod procs;
mod request;
mod setup;

pub use procs::Procs;
pub use request::{Request, RequestFault};
pub use setup::Setup;
