//! What the scheduler's thread does beside its workers: it takes in what they deliver, and goes on step by step.

ghost use Rattle.std.specs.Prelude.{◌≡◌, ◌≤◌, true, false, IfOk, OnOk};
ghost use Rattle.scheduler_core.specs.Phases.{is_done};
ghost use Rattle.scheduler.specs.Schedules.{log_of, phases_of};
ghost use Rattle.lanes.specs.Seats.{jobs_in};
ghost use Rattle.dispatcher.specs.Runs.{NoneIsOut};
ghost use Rattle.dispatcher.specs.Dispatched.{AreInLanes, AreStillInLanes, RunsOn, GetsFurther, MustWait};
ghost use Rattle.dispatcher.specs.Listeners.{AreCounted};

use crate::advancing::admit_next;
use crate::dispatcher::Dispatcher;
use crate::gate::Gate;
use crate::listener::{Listener, tell};
use crate::parking::{Idling, spins_of_scheduler};
use crate::worker::run_one;
use scheduler::Scheduler;
use std::sync::Wait;
use values::NoMemory;

impl<'s, R: Wait, G: Gate> Dispatcher<'s, R, G> {
    /// Settles what a worker delivered, if anything was found, and tells the listener; `false` where nothing was. An
    /// error says that a job came back without a run, since an allocation failed.
    fn take_in<L: Listener>(
        &mut self,
        scheduler: &mut Scheduler,
        listener: &mut L,
    ) -> Result<bool, NoMemory>
        requires lanes { AreInLanes scheduler.old self.old }
        requires told { AreCounted scheduler.old (L.account listener.old) }
        ensures runs { RunsOn scheduler.old (L.account listener.old) scheduler.new (L.account listener.new) }
        ensures lanes { AreStillInLanes scheduler.new self.old self.new }
        ensures further { IfOk result (λ more. more ≡ true → GetsFurther scheduler.old scheduler.new) }
        ensures none { IfOk result (λ more. more ≡ false → scheduler.new ≡ scheduler.old) }
    {
        let place = self.place;
        if !place.parking.has_results() {
            return Ok(false);
        }
        let Some((_, done)) = place.lanes.collect(&mut self.seat) else {
            return Ok(false);
        };
        self.out -= 1;
        self.overlap.note_back(self.out);
        place.parking.take_result();
        let is_run = done.is_run();
        let no = done.no();
        scheduler.settle(done);
        tell(scheduler, no, listener);
        if is_run { Ok(true) } else { Err(NoMemory) }
    }

    /// Runs a job that waits: the only one that is out, any where there is no worker, or, where the gate is open, one
    /// that the workers can spare. `false` where none was run.
    fn run_waiting_job(&mut self) -> bool
        ensures { self.new ≡ self.old }
    {
        let place = self.place;
        let is_left_to_it = self.out == 1 || !self.has_workers;
        let can_spare = self.gate.is_open() && place.parking.has_spare_jobs();
        if !is_left_to_it && !can_spare {
            return false;
        }
        run_one(&place.lanes, &mut self.own, &place.parking, self.gate)
    }

    /// Takes in what comes of jobs, until `most` at most are out and nothing more is found. Where one job alone is out
    /// and waits, no worker could do anything beside it, so it is run here; so is one that the workers can spare, and
    /// each where there is no worker. Else this parks until something is delivered. An error says that a job came back
    /// without a run, since an allocation failed.
    fn take_in_until<L: Listener>(
        &mut self,
        scheduler: &mut Scheduler,
        listener: &mut L,
        most: usize,
    ) -> Result<(), NoMemory>
        requires lanes { AreInLanes scheduler.old self.old }
        requires told { AreCounted scheduler.old (L.account listener.old) }
        ensures runs { RunsOn scheduler.old (L.account listener.old) scheduler.new (L.account listener.new) }
        ensures lanes { AreStillInLanes scheduler.new self.old self.new }
        ensures few { OnOk result (jobs_in self.new.jobs ≤ most) }
    {
        let (rt, place) = (self.rt, self.place);
        let parking = &place.parking;
        let spins = spins_of_scheduler(self.out.min(parking.workers.len()), self.processors);
        let mut idling = Idling::Busy;
        for _ in rt.forever() {
            if self.take_in(scheduler, listener)? {
                parking.end_idling(idling);
                idling = Idling::Busy;
            } else if self.jobs_out() <= most {
                return Ok(());
            } else if self.run_waiting_job() {
                parking.end_idling(idling);
                idling = Idling::Busy;
            } else {
                idling = parking.idle_scheduler(rt, idling, spins);
            }
        }
        unreachable!()
    }

    /// Does what can be done without waiting: settles what was delivered, hands out a job that is ready, runs a call
    /// that isn't to be handed over, or, while workers may want more jobs, admits one more transaction. `false` where
    /// there was nothing to do.
    fn step<L: Listener>(
        &mut self,
        scheduler: &mut Scheduler,
        listener: &mut L,
    ) -> Result<bool, NoMemory>
        requires lanes { AreInLanes scheduler.old self.old }
        requires told { AreCounted scheduler.old (L.account listener.old) }
        ensures runs { RunsOn scheduler.old (L.account listener.old) scheduler.new (L.account listener.new) }
        ensures lanes { AreStillInLanes scheduler.new self.old self.new }
        ensures further { IfOk result (λ more. more ≡ true → GetsFurther scheduler.old scheduler.new) }
        ensures rest { IfOk result (λ more. more ≡ false → MustWait scheduler.new self.new) }
    {
        if self.take_in(scheduler, listener)? {
            return Ok(true);
        }
        if self.hand_out_next(scheduler, listener)? {
            return Ok(true);
        }
        if self.run_in_place(scheduler, listener)? {
            return Ok(true);
        }
        if self.has_enough(scheduler) || !admit_next(scheduler)? {
            return Ok(false);
        }
        self.waiting = self.waiting.saturating_add(1);
        Ok(true)
    }

    /// Goes on step by step, and waits for the workers where there is nothing to do and a job is out, until all is done
    /// or allocation fails.
    fn dispatch<L: Listener>(
        &mut self,
        scheduler: &mut Scheduler,
        listener: &mut L,
    ) -> Result<(), NoMemory>
        requires lanes { AreInLanes scheduler.old self.old }
        requires told { AreCounted scheduler.old (L.account listener.old) }
        ensures runs { RunsOn scheduler.old (L.account listener.old) scheduler.new (L.account listener.new) }
        ensures lanes { AreStillInLanes scheduler.new self.old self.new }
        ensures done { OnOk result (is_done (log_of scheduler.new.work) (phases_of scheduler.new) ≡ true) }
    {
        let rt = self.rt;
        for _ in rt.forever() {
            if !self.step(scheduler, listener)? {
                let out = self.jobs_out();
                if out == 0 {
                    // proof: with no job out there is something to do, unless all is done.
                    let _none = scheduler.next_event();
                    return Ok(());
                }
                self.take_in_until(scheduler, listener, out - 1)?;
            }
        }
        unreachable!()
    }

    /// Dispatches the transactions that are left to the workers, and settles them as they come back. If allocation
    /// fails, no more are dispatched, and those that are out are taken in first. Each job that the seat has put is
    /// collected, before and after. The listener hears of each transaction as it is settled.
    pub(crate) fn run<L: Listener>(
        &mut self,
        scheduler: &mut Scheduler,
        listener: &mut L,
    ) -> Result<(), NoMemory>
        requires empty { jobs_in self.old.jobs ≡ 0 }
        requires none_out { NoneIsOut (phases_of scheduler.old) }
        requires told { AreCounted scheduler.old (L.account listener.old) }
        ensures runs { RunsOn scheduler.old (L.account listener.old) scheduler.new (L.account listener.new) }
        ensures lanes { self.new.lanes ≡ self.old.lanes }
        ensures empty { jobs_in self.new.jobs ≡ 0 }
        ensures none_out { NoneIsOut (phases_of scheduler.new) }
        ensures done { OnOk result (is_done (log_of scheduler.new.work) (phases_of scheduler.new) ≡ true) }
    {
        self.waiting = 0;
        let ended = self.dispatch(scheduler, listener);
        if ended.is_ok() {
            return ended;
        }
        let (rt, place) = (self.rt, self.place);
        place.parking.wake_worker();
        for _ in rt.forever() {
            if self.take_in_until(scheduler, listener, 0).is_ok() {
                return ended;
            }
        }
        unreachable!()
    }
}
