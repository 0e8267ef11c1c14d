//! Playing events: the jobs that are lent stay with the scheduler.

ghost use Rattle.std.specs.Prelude.{◌≡◌, ◌≢◌, ◌<◌, ◌+◌, ℕ, Some, None, Ok, Err, IfOk, IfSome, OnErr, length};
ghost use Rattle.scheduler_core.specs.declared.event.Event.{Event as AnyEvent};
ghost use Rattle.scheduler_core.specs.declared.event.StepAnswer.{StepAnswer as AnyAnswer};
ghost use Rattle.scheduler_core.specs.Phases.{phase_of};
ghost use Rattle.scheduler.specs.Schedules.{phases_of, KeepsItsJobs};
ghost use Rattle.scheduler.specs.Moments.{AnswersAt, PlaysAt, SettlesTakeNoMemory};

use crate::job::run_job;
use crate::lending::{give_back, is_ready, lend_to};
use crate::scheduler::{AdmitFault, Scheduler};
use crate::slot::{Slot, count_settled, is_idle, put, take_held, take_run};
use coarsen::clashes_are_either_way;
use scheduler_core::{
    Event, StepAnswer, admitted_and_unsettled_wait, events_by_places, rows_are_serial,
};
use values::NoMemory;

impl Scheduler {
    /// The place of an admitted transaction, `None` exactly where the number is of no such transaction.
    fn place_numbered(&self, no: u64) -> Option<usize>
        ensures some { IfSome result (λ place. (no ≡ self.now.work.first + place) ×
            (place < length self.now.slots)) }
        ensures none { result ≡ None → phase_of self.now.work.first (phases_of self.now) no ≡ None }
    {
        if no < self.first {
            return None;
        }
        let place = (no - self.first) as usize;
        if place >= self.slots.len() {
            return None;
        }
        Some(place)
    }

    fn play_admit(&mut self) -> StepAnswer
        requires { KeepsItsJobs self.old }
        ensures answer { AnswersAt self.old AnyEvent.Admit result self.new }
        ensures same { result ≢ AnyAnswer.Made → self.new ≡ self.old }
        ensures work { self.new.work ≡ self.old.work }
        ensures keeps { KeepsItsJobs self.new }
    {
        match self.admit() {
            Ok(_) => StepAnswer::Made,
            Err(AdmitFault::NoMemory) => StepAnswer::NoMemory,
            Err(AdmitFault::AllAdmitted | AdmitFault::Full) => StepAnswer::Refused,
        }
    }

    fn play_lend(&mut self, no: u64) -> StepAnswer
        requires { KeepsItsJobs self.old }
        ensures answer { AnswersAt self.old (AnyEvent.Lend no) result self.new }
        ensures same { result ≢ AnyAnswer.Made → self.new ≡ self.old }
        ensures work { self.new.work ≡ self.old.work }
        ensures keeps { KeepsItsJobs self.new }
    {
        // proof: who waits in the lock tree, and what the rows are.
        admitted_and_unsettled_wait();
        rows_are_serial();
        events_by_places();
        clashes_are_either_way();
        let Some(place) = self.place_numbered(no) else {
            return StepAnswer::Refused;
        };
        if !is_idle(&self.slots, place) {
            return StepAnswer::Refused;
        }
        if !is_ready(&self.locks, no) {
            return StepAnswer::Refused;
        }
        match lend_to(
            self.alloc,
            &mut self.store,
            &mut self.locks,
            no,
            &self.entries[place],
            self.plans.at(place),
        ) {
            Ok(job) => {
                put(&mut self.slots, place, Slot::Held(job));
                StepAnswer::Made
            }
            Err(NoMemory) => StepAnswer::NoMemory,
        }
    }

    fn play_run(&mut self, no: u64) -> StepAnswer
        requires { KeepsItsJobs self.old }
        ensures answer { AnswersAt self.old (AnyEvent.Run no) result self.new }
        ensures same { result ≢ AnyAnswer.Made → self.new ≡ self.old }
        ensures work { self.new.work ≡ self.old.work }
        ensures keeps { KeepsItsJobs self.new }
    {
        // proof: who waits in the lock tree, and what the rows are.
        admitted_and_unsettled_wait();
        rows_are_serial();
        events_by_places();
        let Some(place) = self.place_numbered(no) else {
            return StepAnswer::Refused;
        };
        let Some(job) = take_held(&mut self.slots, place) else {
            return StepAnswer::Refused;
        };
        let (job, outcome) = run_job(job).into_parts();
        match outcome {
            Some(outcome) => {
                put(&mut self.slots, place, Slot::Ran(job, outcome));
                StepAnswer::Made
            }
            None => {
                put(&mut self.slots, place, Slot::Held(job));
                StepAnswer::NoMemory
            }
        }
    }

    pub(crate) fn play_settle(&mut self, no: u64) -> StepAnswer
        requires { KeepsItsJobs self.old }
        ensures answer { AnswersAt self.old (AnyEvent.Settle no) result self.new }
        ensures same { result ≢ AnyAnswer.Made → self.new ≡ self.old }
        ensures memory { result ≢ AnyAnswer.NoMemory }
        ensures work { self.new.work ≡ self.old.work }
        ensures keeps { KeepsItsJobs self.new }
    {
        // proof: who waits in the lock tree, and what the rows are.
        admitted_and_unsettled_wait();
        rows_are_serial();
        events_by_places();
        let Some(place) = self.place_numbered(no) else {
            return StepAnswer::Refused;
        };
        let Some((job, outcome)) = take_run(&mut self.slots, place) else {
            return StepAnswer::Refused;
        };
        give_back(&mut self.store, &mut self.locks, no, job);
        put(&mut self.slots, place, Slot::Settled(outcome));
        self.settled = count_settled(&self.slots, self.settled);
        StepAnswer::Made
    }

    /// Makes an event, if it is enabled. If it isn't, or if allocation fails, nothing has changed. A Settle
    /// takes no memory. No job is with the caller.
    pub fn step(&mut self, event: Event) -> StepAnswer
        requires { KeepsItsJobs self.old }
        ensures answer { AnswersAt self.old event result self.new }
        ensures same { result ≢ AnyAnswer.Made → self.new ≡ self.old }
        ensures memory { (number : ℕ) → event ≡ AnyEvent.Settle number → result ≢ AnyAnswer.NoMemory }
        ensures work { self.new.work ≡ self.old.work }
        ensures keeps { KeepsItsJobs self.new }
    {
        match event {
            Event::Admit => self.play_admit(),
            Event::Lend(no) => self.play_lend(no),
            Event::Run(no) => self.play_run(no),
            Event::Settle(no) => self.play_settle(no),
        }
    }

    /// Makes one event after the other, each if it is enabled, and says of each what came of it. An error comes before
    /// anything is played, and a Settle takes no memory. No job is with the caller.
    pub fn play(&mut self, events: &[Event]) -> Result<Vec<StepAnswer>, NoMemory>
        requires { KeepsItsJobs self.old }
        ensures played { IfOk result (λ answers. PlaysAt self.old events.now answers.items self.new) }
        ensures memory { IfOk result (λ answers. SettlesTakeNoMemory events.now answers.items) }
        ensures work { self.new.work ≡ self.old.work }
        ensures keeps { KeepsItsJobs self.new }
        ensures err { OnErr result (self.new ≡ self.old) }
    {
        let mut answers = Vec::with_capacity(self.alloc, events.len())?;
        for event in events {
            let answer = self.step(*event);
            if answers.push(answer).is_err() {
                unreachable!()
            }
        }
        Ok(answers)
    }
}
