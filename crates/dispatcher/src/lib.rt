//! The dispatcher: runs the transactions of one scheduler on worker threads and on the thread that calls, and tells a
//! listener of each that is settled.
//!
//! Proved, by `WorkerPool::run` and, on the thread that calls and by any choices of events, `run_left`: the scheduler
//! has the same transactions; what was settled stays settled; no job is out; after `Ok` all is done; a refused thread
//! has changed nothing; the listener has heard of each settled transaction, and of nothing else. `Settings::new` is
//! exact. Laws: `tallies_add_up`, `settled_transactions_are_counted`. Not proved: that they return, since a job may not
//! come back; else each step of the scheduler's thread brings the run further, or leaves no transaction ready while a
//! lane is free and none to admit while no job is out. Nor that a pool keeps its threads, how many jobs are out, how
//! many transactions wait, which calls are brief, whether it pays to hand calls over, and how often a thread looks
//! again before it parks. The tests are those of `engine`.
#![tactic(auto)]

mod advancing;
mod alone;
mod brief;
mod dispatcher;
mod dispatching;
mod gate;
mod laws;
mod listener;
mod overlap;
mod parking;
mod pool;
mod refusal;
mod settings;
mod worker;
mod workplace;

pub use alone::run_left;
pub use gate::{Gate, OpenGate};
pub use laws::{settled_transactions_are_counted, tallies_add_up};
pub use listener::{Listener, Silence};
pub use pool::WorkerPool;
pub use refusal::Refusal;
pub use settings::{BadSetting, Settings};
pub use workplace::{HeadSeat, Workplace};
