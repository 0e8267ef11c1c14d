//! The scheduler's thread at a workplace.

ghost use Rattle.std.specs.Prelude.{◌≡◌, ◌<◌, true};
ghost use Rattle.lanes.specs.Seats.{jobs_in};

use crate::gate::Gate;
use crate::overlap::Overlap;
use crate::parking::Patience;
use crate::refusal::Refusal;
use crate::worker::{Worker, start};
use crate::workplace::Workplace;
use lanes::{SchedulerSeat, WorkerSeat};
use std::marker::Model;
use std::sync::Wait;
use std::thread::Scope;

/// What the scheduler's thread has at a workplace: the scheduler's seat, which contracts see, and a worker's seat, from
/// which it runs a job itself. The one has as many jobs as are out, and the other none.
pub(crate) struct Dispatcher<'s, R, G> {
    pub(crate) rt: &'s R,
    pub(crate) gate: &'s G,
    pub(crate) place: &'s Workplace,
    pub(crate) seat: SchedulerSeat,
    pub(crate) own: WorkerSeat,
    /// How many jobs are out.
    pub(crate) out: usize,
    /// How many transactions are admitted and neither out nor settled. No proof counts them.
    pub(crate) waiting: usize,
    /// Whether it pays to hand calls over.
    pub(crate) overlap: Overlap,
    /// Whether a worker was started.
    pub(crate) has_workers: bool,
    /// How many processors there are, 1 where that is not known.
    pub(crate) processors: usize,
}

impl<'s, R, G> Model for Dispatcher<'s, R, G> {
    ghost use Rattle.std.specs.Prelude.{◌≡◌, ◌<◌};
    ghost use Rattle.lanes.specs.Seats.{SchedulerSeatOf, scheduler_seat_code, jobs_in};
    ghost use Rattle.dispatcher.specs.Workers.{HoldsNoJob};

    ghost Value = { SchedulerSeatOf };

    ghost coded = { scheduler_seat_code };

    ghost view = { λ d. d.seat };

    ghost invariant = { λ d. (d.seat.lanes ≡ d.place.now) × (0 < d.place.now.count) × (d.own.lanes ≡ d.place.now) ×
        HoldsNoJob d.own × (d.out ≡ jobs_in d.seat.jobs) };
}

impl<'s, R, G> Drop for Dispatcher<'s, R, G> {
    /// Ends its workers.
    fn drop(self) {
        let Self {
            rt: _,
            gate: _,
            place,
            seat: _,
            own: _,
            out: _,
            waiting: _,
            overlap: _,
            has_workers: _,
            processors: _,
        } = self;
        place.parking.end();
    }
}

impl<'s, R, G> Dispatcher<'s, R, G> {
    /// How many jobs are out. There is a lane.
    #[inline]
    pub(crate) fn jobs_out(&self) -> usize
        ensures out { result ≡ jobs_in self.now.jobs }
        ensures lanes { 0 < self.now.lanes.count }
    {
        self.out
    }
}

impl<'s, R: Wait + Sync, G: Gate> Dispatcher<'s, R, G> {
    /// Starts one more worker, with the place to park of that number; `false` where there is no such place.
    pub(crate) fn start_worker<E>(
        &mut self,
        scope: &Scope<'s, E>,
        number: usize,
    ) -> Result<bool, Refusal>
        ensures { self.new ≡ self.old }
    {
        let place = self.place;
        let Some(spot) = place.parking.workers.get(number) else {
            return Ok(false);
        };
        let seat = place.lanes.worker_seat(&mut self.seat)?;
        // Beside it are the scheduler's thread and the workers before it.
        let patience = Patience::beside(number.saturating_add(1), self.processors);
        let worker = Worker {
            lanes: &place.lanes,
            seat,
            parking: &place.parking,
            spot,
            patience,
        };
        if !start(self.rt, scope, self.gate, worker) {
            return Err(Refusal::Thread);
        }
        self.has_workers = true;
        Ok(true)
    }
}
