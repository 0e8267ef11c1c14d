//! The scheduler: admits the entries of a log in its order, lends each its rows, and
//! settles it, in whatever order jobs come back.
//!
//! Proved of `Scheduler`, over any entries, plans of any threshold and room, in whatever order it is called, by
//! `admit`, `lend`, `settle`, `step`, `play`, `choose`, `next_event` and `settle_held`: each event is made exactly
//! where it is enabled, and changes what its step says; a `step` that makes nothing changes nothing. `lend`: the least
//! transaction whose rows may be lent; its job shows the rows of the serial run on what its plan locks, and no plan
//! that is out is in conflict with it. `settle`: a transaction whose job is given back is ready and not out.
//! `run_next`: exactly where the next transaction would be ready as soon as it is admitted, it is settled at once, with
//! no lock and no loan, and with the outcome of the serial run. `reply`, `into_finished`: those of the serial run, in
//! log order. `observe`: jobs that are here show the serial rows, and no two plans that are out are in conflict.
//! `run_job`: the entry's outcome on every database that agrees with the loan on what its plan locks, and the rows that
//! the loan then shows; if allocation fails the job comes back as it was lent. `settle`, `settle_held`, `next_event`,
//! `is_done`, `reply` and `into_finished` can't run out of memory.
//!
//! Not proved: that allocation failed where an answer says so, or where a job comes back.
#![tactic(auto)]

mod choosing;
mod finished;
mod job;
mod laws;
mod lending;
mod parts;
mod planning;
mod playing;
mod scheduler;
mod settling;
mod slot;
mod straight;

pub use finished::{Finished, Outcomes};
pub use job::{Done, Job, run_job};
pub use laws::lent_jobs_come_back;
pub use planning::plan_of;
pub use scheduler::{AdmitFault, Scheduler, Unmade};
pub use scheduler_core::{Event, StepAnswer};
