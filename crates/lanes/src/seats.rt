//! The seats of lanes. Each may move into a thread.

use hand_off::LaneSeat;
use scheduler::{Done, Job};
use std::collections::VecDeque;
use std::marker::Model;

/// A lane, from 0.
pub type LaneNo = usize;

/// The scheduler's seat. It knows which job is in each lane, from its put until it is collected, all puts, and what it
/// found at each lane that it tried for a result.
#[derive(Drop)]
pub struct SchedulerSeat {
    pub(crate) seat: LaneSeat<Job, Done>,
}

impl Model for SchedulerSeat {
    ghost use Rattle.lanes.specs.Seats.{SchedulerSeatOf, scheduler_seat_code};

    ghost Value = { SchedulerSeatOf };

    ghost coded = { scheduler_seat_code };

    ghost use Rattle.lanes.specs.Kept.{scheduler_seat, IsAtRest};

    ghost view = { scheduler_seat };

    ghost invariant = { IsAtRest };
}

/// A worker's seat. It knows the jobs that it claimed and hasn't delivered, by lane, all claims, and what it found at
/// each lane that it tried for a job.
#[derive(Drop)]
pub struct WorkerSeat {
    pub(crate) seat: LaneSeat<Job, Done>,
    // the lanes whose slots are with the seat, the one in front first
    pub(crate) held: VecDeque<LaneNo>,
}

impl Model for WorkerSeat {
    ghost use Rattle.lanes.specs.Seats.{WorkerSeatOf, worker_seat_code};

    ghost Value = { WorkerSeatOf };

    ghost coded = { worker_seat_code };

    ghost use Rattle.lanes.specs.Kept.{worker_seat, IsAtWork};

    ghost view = { worker_seat };

    ghost invariant = { IsAtWork };
}
