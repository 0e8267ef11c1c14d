//! How far a run is: a tally that one writer publishes and any number of watchers read, whole and never back.
//!
//! Proved: what a watcher reads is one published tally, whole, whose parts add up, and at no place below anything that
//! its pass saw or was told. `Publisher::tell`: what a watcher at the publisher's place has seen is a beginning of the
//! publisher's list. That a cell of four words keeps its rule is believed of `crossbeam_utils`.
//!
//! Tested only, through the engine: a watch reads what was settled before it in the same thread, and each settled
//! transaction is told of before the next is run.
#![tactic(auto)]

mod passes;
mod progress;
mod publisher;
mod rule;
mod tally;
mod view;
mod watcher;

pub use passes::{WatchPass, WriterPass};
pub use progress::Progress;
pub use publisher::Publisher;
pub use tally::Tally;
pub use watcher::Watcher;
