//! What a worker's thread does with lanes.

ghost use Rattle.std.specs.Prelude.{◌≡◌, IfSome, IfNone};
ghost use Rattle.lanes.specs.Seats.{delivers_from};
ghost use Rattle.lanes.specs.Calls.{Claims, ClaimsNothing, IsDoneAt};
ghost use Rattle.lanes.specs.Stands.{WorkerStands};

use crate::holding::bring_up;
use crate::seats::{LaneNo, WorkerSeat};
use crate::table::Lanes;
use scheduler::{Done, Job};

impl Lanes {
    /// A job that waits, from the lowest lane where one was found. From now on this seat has it. It tries one lane
    /// after another, from 0, each by one compare-exchange; `None` comes only where each lane was found without a
    /// waiting job when it was tried. The seat's notes say what each lane that it tried was doing at a moment of the
    /// try. A claim tells of a moment at which this seat has it. That no other seat there has claimed that put, and
    /// that the job is the one that the scheduler put into that lane, is the law `claims_are_single`.
    pub fn claim(&self, seat: &mut WorkerSeat) -> Option<(LaneNo, Job)>
        requires { seat.old.lanes ≡ self.now }
        ensures some { IfSome result (λ r. Claims seat.old r.0 r.1 seat.new) }
        ensures none { IfNone result (ClaimsNothing seat.old seat.new) }
    {
        let (lane, job) = self.table.claim(&mut seat.seat)?;
        seat.held.push_front_reserved(lane);
        Some((lane, job))
    }

    /// Delivers what came of a job that this seat claimed and hasn't delivered. The jobs may be delivered in any order.
    pub fn deliver(&self, seat: &mut WorkerSeat, lane: LaneNo, done: Done)
        requires lanes { seat.old.lanes ≡ self.now }
        requires done { IsDoneAt seat.old.jobs lane done }
        ensures seat { seat.new ≡ delivers_from seat.old lane }
        ensures stands { WorkerStands seat.new }
    {
        bring_up(&mut seat.seat, &mut seat.held, lane);
        seat.held.pop_front();
        self.table.deliver_to(&mut seat.seat, lane, done);
    }
}
