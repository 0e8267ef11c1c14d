//! Settling what is here.

ghost use Rattle.std.specs.Prelude.{◌≡◌, ◌<◌, Some, length, map, slice_get, slice_set};
ghost use Rattle.scheduler.specs.JobRuns.{JobOf};
ghost use Rattle.scheduler_core.specs.declared.phase.Phase.{Phase};
ghost use Rattle.scheduler.specs.Schedules.{phases_of, KeepsItsJobs};
ghost use Rattle.scheduler.specs.Settling.{after_settling, settled_at};

use crate::lending::take_back;
use crate::scheduler::Scheduler;
use crate::slot::{Slot, put, take_held};
use scheduler_core::{admitted_and_unsettled_wait, events_by_places, rows_are_serial};

impl Scheduler {
    /// Takes back the rows of a job that is here and was not run.
    fn take_back_held(&mut self, place: usize)
        requires { KeepsItsJobs self.old }
        ensures held { (job : JobOf) → slice_get self.old.slots place ≡ Some (Slot.Held job) →
            phases_of self.new ≡ slice_set (phases_of self.old) place Phase.Idle }
        ensures other { ((job : JobOf) → slice_get self.old.slots place ≡ Some (Slot.Held job) → ⊥) →
            phases_of self.new ≡ phases_of self.old }
        ensures work { self.new.work ≡ self.old.work }
        ensures keeps { KeepsItsJobs self.new }
        ensures count { length self.new.slots ≡ length self.old.slots }
    {
        // proof: who waits in the lock tree, and what the rows are.
        admitted_and_unsettled_wait();
        rows_are_serial();
        if let Some(job) = take_held(&mut self.slots, place) {
            let no = self.first + place as u64;
            take_back(&mut self.store, &mut self.locks, no, job);
            put(&mut self.slots, place, Slot::Idle);
        }
    }

    /// Settles a job that is here and was run, or takes back the rows of one that was not.
    fn settle_place(&mut self, place: usize)
        requires keeps { KeepsItsJobs self.old }
        requires within { place < length self.old.slots }
        ensures phases { phases_of self.new ≡ settled_at place (phases_of self.old) }
        ensures work { self.new.work ≡ self.old.work }
        ensures keeps { KeepsItsJobs self.new }
        ensures count { length self.new.slots ≡ length self.old.slots }
    {
        // proof: what events do, by places of the log.
        events_by_places();
        let no = self.first + place as u64;
        self.play_settle(no);
        self.take_back_held(place);
    }

    /// Settles each job that is here and was run, and takes back the rows of each that was only lent. No memory is
    /// taken. No job is with the caller.
    pub fn settle_held(&mut self)
        requires { KeepsItsJobs self.old }
        ensures phases { phases_of self.new ≡ map after_settling (phases_of self.old) }
        ensures work { self.new.work ≡ self.old.work }
        ensures keeps { KeepsItsJobs self.new }
    {
        for place in 0..self.slots.len() {
            self.settle_place(place);
        }
    }
}
