//! A hand-off of jobs from one scheduler to many workers, and of what came of them back, generic in job and result. It
//! is a table of lanes. Each lane is a word, which changes in single steps, and a slot, which one seat at a time has.
//! No call waits, and none but `new` takes memory.
//!
//! Proved: every step keeps one rule over the lanes' words, their slots and what each seat knows; each compare-exchange
//! is a single try. A call tells of moments between two steps at which the rule held and its seat had the view that it
//! had then: what each lane that it tried was doing, and one with its new view. Laws of every such moment: a job is
//! claimed by one worker at most for each put, and what is claimed is what was put.
//!
//! Tested only: two lanes and two workers, by the jobs of `lanes`. Not proved: that threads get on.
#![tactic(auto)]

mod first_finished;
mod first_free;
mod first_waiting;
mod laws;
mod plays;
mod state;
mod tries;
mod view;

pub use laws::claims_are_single;
pub use state::{LaneState, Note};
pub use view::{Claim, Known, LaneSeat, LaneTable, Lanes, Load, View, Work};
