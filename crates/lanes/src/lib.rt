//! Lanes that hand a scheduler's jobs to workers, and what comes of them back.
//! The scheduler puts and collects by its seat, and each worker claims and delivers by its own. No call but `new` and
//! `worker_seat` takes memory, and none waits: each try at a lane is one step.
//!
//! Proved, by `put`: the job is in the lowest free lane, or comes back exactly where each lane has one that isn't
//! collected. `claim`: the job that waits in a lane, by one try for each lane at most; `None` only where each lane was
//! found without one, and the seat's notes say what each was doing then. `claims_are_single`: at the moment that
//! `claim` tells of no other seat has a claim of that put, and the job is the one that was put into that lane.
//! `deliver`: what came of any job that the seat claimed, in any order. `collect`: what came of the very job that was
//! put into that lane, once for each put; `None` only where each lane was found without a result. None of the four can
//! run out of memory, or waits.
//!
//! Tested only: two lanes and two workers; deliveries of two jobs. Not proved: that threads get on; how many tries a
//! call makes, except where it answers `None`.
#![tactic(auto)]

mod holding;
mod laws;
mod runs;
mod scheduling;
mod seats;
mod table;
mod working;

pub use laws::claims_are_single;
pub use seats::{LaneNo, SchedulerSeat, WorkerSeat};
pub use table::Lanes;
