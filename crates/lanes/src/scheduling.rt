//! What the scheduler's thread does with lanes.

ghost use Rattle.std.specs.Prelude.{◌≡◌, ◌+◌, ◌<◌, ◌≤◌, ◌↔◌, IfOk, IfErr, IfSome, IfNone, IsErr};
ghost use Rattle.lanes.specs.Seats.{jobs_in, opened, newcomer, puts_in};
ghost use Rattle.lanes.specs.Calls.{IsLowestFree, Collects, CollectsNothing};
ghost use Rattle.lanes.specs.Stands.{SchedulerStands};

use crate::seats::{LaneNo, SchedulerSeat, WorkerSeat};
use crate::table::Lanes;
use scheduler::{Done, Job};
use std::alloc::Global;
use std::collections::VecDeque;
use values::NoMemory;

impl Lanes {
    /// `count` lanes, 1 to 64, numbered from 0 and without a job, and the scheduler's seat. The only error is that
    /// allocation failed.
    pub fn new(alloc: Global, count: usize) -> Result<(Lanes, SchedulerSeat), NoMemory>
        requires { (0 < count) × (count ≤ 64) }
        ensures count { IfOk result (λ made. made.0.count ≡ count) }
        ensures seat { IfOk result (λ made. made.1 ≡ opened made.0) }
        ensures no_jobs { IfOk result (λ made. jobs_in made.1.jobs ≡ 0) }
    {
        let (table, seat) = hand_off::Lanes::new(alloc, count)?;
        Ok((Lanes { alloc, table }, SchedulerSeat { seat }))
    }

    /// A seat for one more worker. `NoMemory` comes only if allocation fails. The scheduler's seat stays as it is.
    pub fn worker_seat(&self, seat: &mut SchedulerSeat) -> Result<WorkerSeat, NoMemory>
        requires { seat.old.lanes ≡ self.now }
        ensures seat { seat.new ≡ seat.old }
        ensures worker { IfOk result (λ worker. worker ≡ newcomer self.now) }
    {
        let held = VecDeque::with_capacity(self.alloc, self.table.count)?;
        let seat = self.table.worker_seat(&mut seat.seat);
        Ok(WorkerSeat { seat, held })
    }

    /// Puts a job into the lowest lane without one. It comes back exactly where each lane has a job that isn't
    /// collected, and then nothing has changed.
    pub fn put(&self, seat: &mut SchedulerSeat, job: Job) -> Result<LaneNo, Job>
        requires { seat.old.lanes ≡ self.now }
        ensures ok { IfOk result (λ lane. IsLowestFree seat.old.jobs lane × (seat.new ≡ puts_in seat.old lane job)) }
        ensures near { IfOk result (λ lane. lane < self.now.count) }
        ensures more { IfOk result (λ _. jobs_in seat.new.jobs ≡ jobs_in seat.old.jobs + 1) }
        ensures err { IfErr result (λ back. (back ≡ job) × (seat.new ≡ seat.old)) }
        ensures full { IsErr result ↔ (jobs_in seat.old.jobs ≡ self.now.count) }
        ensures stands { IfOk result (λ _. SchedulerStands seat.new) }
    {
        self.table.put(&mut seat.seat, job)
    }

    /// What a worker delivered, from the lowest lane where a result was found. It comes of the job that was put into
    /// that lane, which has no job afterwards. It tries one lane after another, from 0; `None` comes only where each
    /// lane was found without a result when it was tried. The seat's notes say what each lane that it tried was doing
    /// at a moment of the try.
    pub fn collect(&self, seat: &mut SchedulerSeat) -> Option<(LaneNo, Done)>
        requires { seat.old.lanes ≡ self.now }
        ensures some { IfSome result (λ r. Collects seat.old r.0 r.1 seat.new) }
        ensures none { IfNone result (CollectsNothing seat.old seat.new) }
    {
        self.table.collect(&mut seat.seat)
    }
}
