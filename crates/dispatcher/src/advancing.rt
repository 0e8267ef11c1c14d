//! What the scheduler's thread does with the transactions that come next: it runs, admits and hands out.

ghost use Rattle.std.specs.Prelude.{◌≡◌, ◌<◌, true, false, None, IfOk};
ghost use Rattle.scheduler_core.specs.declared.event.Event.{Event as AnyEvent};
ghost use Rattle.scheduler.specs.Schedules.{phases_of};
ghost use Rattle.scheduler.specs.Moments.{can_make, IsLeastLendAt};
ghost use Rattle.lanes.specs.Seats.{SchedulerSeatOf, jobs_in};
ghost use Rattle.dispatcher.specs.Runs.{StaysSettled};
ghost use Rattle.dispatcher.specs.Dispatched.{AreInLanes, AreStillInLanes, RunsOn, GetsFurther};
ghost use Rattle.dispatcher.specs.Listeners.{AreCounted, settled_in};

use crate::alone::run_next;
use crate::brief::{is_better_awaiting, is_brief};
use crate::dispatcher::Dispatcher;
use crate::gate::Gate;
use crate::listener::{Listener, tell};
use interp::Entry;
use row_store::RowStore;
use scheduler::{AdmitFault, Scheduler, lent_jobs_come_back, run_job};
use std::sync::Wait;
use values::NoMemory;

/// How many transactions at most are admitted and neither out nor settled: workers find jobs among them that don't wait
/// for one another, and their requests stay in the cache. Measured on two and four workers, with calls that wait for
/// one another on ten rows, one long call in ten and long calls alone, where the noise was up to a third: limits of 16
/// and of 4,096 show no difference beyond it.
const AHEAD: usize = 256;

/// What becomes of a call.
#[derive(Clone, Copy, Debug, PartialEq, Eq)]
enum Handling {
    /// The scheduler's thread runs it, since the call is brief and the gate is open.
    Brief,
    /// The scheduler's thread runs it, since the gate is open, no job is out and handing calls over doesn't pay.
    Kept,
    /// It becomes a job.
    HandedOver,
}

/// Whether the next transaction is a brief call that is rather run once the jobs that are out have come back than lent
/// its rows.
fn is_next_awaiting(scheduler: &Scheduler) -> bool {
    scheduler
        .next_entry()
        .is_some_and(|entry| is_better_awaiting(entry, scheduler.rows()))
}

/// Admits the next transaction. `false` exactly where all are admitted, or there is no room for its requests.
pub(crate) fn admit_next(scheduler: &mut Scheduler) -> Result<bool, NoMemory>
    ensures work { scheduler.new.work ≡ scheduler.old.work }
    ensures lanes { (seat : SchedulerSeatOf) → AreInLanes scheduler.old seat → AreInLanes scheduler.new seat }
    ensures settled { StaysSettled (phases_of scheduler.old) (phases_of scheduler.new) }
    ensures none_settled { settled_in scheduler.new ≡ settled_in scheduler.old }
    ensures further { IfOk result (λ more. more ≡ true → GetsFurther scheduler.old scheduler.new) }
    ensures none { IfOk result (λ more. more ≡ false →
        (scheduler.new ≡ scheduler.old) × (can_make scheduler.new AnyEvent.Admit ≡ false)) }
{
    match scheduler.admit() {
        Ok(_) => Ok(true),
        Err(AdmitFault::AllAdmitted | AdmitFault::Full) => Ok(false),
        Err(AdmitFault::NoMemory) => Err(NoMemory),
    }
}

impl<'s, R: Wait, G: Gate> Dispatcher<'s, R, G> {
    /// Whether no more needs to be admitted: each lane has a job, or a job is out and many transactions wait, or the
    /// gate is open and the next one is rather run here once these jobs have come back.
    pub(crate) fn has_enough(&self, scheduler: &Scheduler) -> bool
        ensures { result ≡ true → 0 < jobs_in self.now.jobs }
    {
        let place = self.place;
        if self.out == 0 {
            return false;
        }
        self.out >= place.count
            || self.waiting >= AHEAD
            || (self.gate.is_open() && is_next_awaiting(scheduler))
    }

    /// What is to become of a call.
    fn handling_of(&self, entry: &Entry, rows: &RowStore) -> Handling {
        if !self.gate.is_open() {
            Handling::HandedOver
        } else if is_brief(entry, rows) {
            Handling::Brief
        } else if self.out == 0 && !self.overlap.pays() {
            Handling::Kept
        } else {
            Handling::HandedOver
        }
    }

    /// Notes that a call is run here, and wakes a worker for a job that still waits, since this thread has something
    /// else to do.
    fn note_run(&mut self, handling: Handling)
        ensures { self.new ≡ self.old }
    {
        match handling {
            Handling::Kept => self.overlap.note_kept(),
            Handling::Brief => self.overlap.note_brief(),
            Handling::HandedOver => {}
        }
        let place = self.place;
        place.parking.wake_worker();
    }

    /// Runs the next transaction here, where it isn't to be handed over, and is ready as soon as it is admitted:
    /// whatever jobs are out have nothing to do with it. A job that still waits gets a worker then. Whether it did so;
    /// where it did not, nothing has changed.
    pub(crate) fn run_in_place<L: Listener>(
        &mut self,
        scheduler: &mut Scheduler,
        listener: &mut L,
    ) -> Result<bool, NoMemory>
        requires lanes { AreInLanes scheduler.old self.old }
        requires told { AreCounted scheduler.old (L.account listener.old) }
        ensures runs { RunsOn scheduler.old (L.account listener.old) scheduler.new (L.account listener.new) }
        ensures kept { self.new ≡ self.old }
        ensures lanes { AreInLanes scheduler.new self.old }
        ensures further { IfOk result (λ ran. ran ≡ true → GetsFurther scheduler.old scheduler.new) }
        ensures none { IfOk result (λ ran. ran ≡ false → scheduler.new ≡ scheduler.old) }
    {
        let handling = match scheduler.next_entry() {
            Some(entry) => self.handling_of(entry, scheduler.rows()),
            None => return Ok(false),
        };
        if handling == Handling::HandedOver || !run_next(scheduler, listener)? {
            return Ok(false);
        }
        self.note_run(handling);
        Ok(true)
    }

    /// Lends its rows to the next ready transaction. Where it isn't to be handed over, it is run here and settled, and
    /// a job that waits gets a worker before that; else its job is put into a lane, and a worker is called for it where
    /// it is not the only one that is out. `false` exactly where each lane has a job, or none is ready. An error says
    /// that an allocation failed.
    pub(crate) fn hand_out_next<L: Listener>(
        &mut self,
        scheduler: &mut Scheduler,
        listener: &mut L,
    ) -> Result<bool, NoMemory>
        requires lanes { AreInLanes scheduler.old self.old }
        requires told { AreCounted scheduler.old (L.account listener.old) }
        ensures runs { RunsOn scheduler.old (L.account listener.old) scheduler.new (L.account listener.new) }
        ensures lanes { AreStillInLanes scheduler.new self.old self.new }
        ensures further { IfOk result (λ more. more ≡ true → GetsFurther scheduler.old scheduler.new) }
        ensures none { IfOk result (λ more. more ≡ false → (scheduler.new ≡ scheduler.old) ×
            (jobs_in self.new.jobs < self.new.lanes.count → IsLeastLendAt scheduler.new None)) }
    {
        // proof: what comes of a job that was lent can be settled.
        lent_jobs_come_back();
        let place = self.place;
        if self.out >= place.count {
            return Ok(false);
        }
        let Some(job) = scheduler.lend()? else {
            return Ok(false);
        };
        self.waiting = self.waiting.saturating_sub(1);
        let handling = self.handling_of(job.entry(), scheduler.rows());
        if handling != Handling::HandedOver {
            self.note_run(handling);
            let no = job.no();
            let done = run_job(job);
            let is_run = done.is_run();
            scheduler.settle(done);
            tell(scheduler, no, listener);
            return if is_run { Ok(true) } else { Err(NoMemory) };
        }
        place.parking.expect_job();
        match place.lanes.put(&mut self.seat, job) {
            Ok(_) => {
                if self.out > 0 {
                    place.parking.wake_worker();
                }
                self.overlap.note_job(self.out);
                self.out += 1;
                Ok(true)
            }
            Err(_) => unreachable!(),
        }
    }
}
