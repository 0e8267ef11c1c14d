//! Which event comes next.

ghost use Rattle.std.specs.Prelude.{◌≡◌, ◌++◌, ◌<◌, ◌+◌, ◌&&◌, not, IfOk, OnOk, length, filter, slice_get};
ghost use Rattle.scheduler_core.specs.declared.event.Event.{Event as AnyEvent};
ghost use Rattle.lock_tree.specs.Ready.{ready};
ghost use Rattle.scheduler_core.specs.Phases.{is_idle};
ghost use Rattle.scheduler_core.specs.Events.{waiting};
ghost use Rattle.scheduler_core.specs.Choices.{next_event, chosen, next_step};
ghost use Rattle.scheduler.specs.Schedules.{log_of, phases_of, phase_in, KeepsItsJobs, steps_of, next_step_at};
ghost use Rattle.scheduler.specs.Moments.{can_make, events_at, IsChoiceAt, IsNextAt};

use crate::scheduler::Scheduler;
use crate::slot::{Slot, is_idle};
use scheduler_core::{Event, enabled_events_are_listed, events_by_places, next_event_is_enabled};
use values::NoMemory;

/// The step that an admitted transaction makes next, `None` exactly where it is settled.
fn next_step(slot: &Slot, no: u64) -> Option<Event>
    ensures { steps_of result ≡ next_step no (phase_in slot.now) }
{
    match slot {
        Slot::Idle => Some(Event::Lend(no)),
        Slot::Lent | Slot::Held(_) => Some(Event::Run(no)),
        Slot::Ran(_, _) => Some(Event::Settle(no)),
        Slot::Settled(_) => None,
    }
}

/// Puts an event after the others, if there is one.
fn push(events: &mut Vec<Event>, event: Option<Event>) -> Result<(), NoMemory>
    ensures { OnOk result (events.new.items ≡ events.old.items ++ steps_of event) }
{
    if let Some(event) = event {
        events.push(event)?;
    }
    Ok(())
}

/// The event at place `n` modulo their count, `None` exactly where there is none.
fn chosen(events: &[Event], n: u64) -> Option<Event>
    ensures { result ≡ chosen n events.now }
{
    if events.is_empty() {
        return None;
    }
    let place = n % events.len() as u64;
    Some(events[place as usize])
}

impl Scheduler {
    /// The next step of the least transaction that is admitted and not settled, or to admit one more where there is
    /// none; `None` exactly where all is done. It is enabled. No job is with the caller, and no memory is taken.
    pub fn next_event(&self) -> Option<Event>
        requires { KeepsItsJobs self.now }
        ensures event { result ≡ next_event self.now.work.first (log_of self.now.work) (phases_of self.now) }
        ensures enabled { IsNextAt self.now result }
    {
        // proof: what events do, by places of the log.
        events_by_places();
        next_event_is_enabled();
        let admitted = self.slots.len();
        if self.settled < admitted {
            let no = self.first + self.settled as u64;
            return next_step(&self.slots[self.settled], no);
        }
        if admitted == self.entries.len() {
            return None;
        }
        Some(Event::Admit)
    }

    /// Whether the next transaction can be admitted: there is one, and there is room for its requests.
    pub(crate) fn can_admit(&self) -> bool
        ensures { result ≡ can_make self.now AnyEvent.Admit }
    {
        let admitted = self.slots.len();
        if admitted >= self.entries.len() {
            return false;
        }
        // Nothing waits then, and each plan fits.
        if self.settled >= admitted {
            return true;
        }
        self.locks.has_room(self.plans.at(admitted))
    }

    /// Whether an admitted transaction is neither out nor settled, and not ready.
    fn waits(&self, place: usize) -> bool
        requires { place < length self.now.slots }
        ensures { result ≡ (is_idle (slice_get (phases_of self.now) place)
            && not (ready (waiting self.now.work.first (log_of self.now.work) (phases_of self.now))
            (self.now.work.first + place))) }
    {
        is_idle(&self.slots, place) && !self.locks.is_ready(self.first + place as u64)
    }

    /// The step that a transaction makes next, if it is enabled.
    fn enabled_step(&self, place: usize) -> Option<Event>
        requires { place < length self.now.slots }
        ensures { steps_of result ≡ filter (can_make self.now) (next_step_at self.now place) }
    {
        // proof: what events do, by places of the log.
        events_by_places();
        if self.waits(place) {
            return None;
        }
        next_step(&self.slots[place], self.first + place as u64)
    }

    /// The enabled events: to admit comes first, then the others by transaction number.
    fn enabled_events(&self) -> Result<Vec<Event>, NoMemory>
        ensures { IfOk result (λ events. events.items ≡ events_at self.now) }
    {
        // proof: what events do, by places of the log.
        events_by_places();
        let mut events = Vec::new(self.alloc);
        if self.can_admit() {
            push(&mut events, Some(Event::Admit))?;
        }
        for place in 0..self.slots.len() {
            push(&mut events, self.enabled_step(place))?;
        }
        Ok(events)
    }

    /// The event at place `n` modulo their count of the enabled events, to admit first and then by transaction number;
    /// `None` exactly where all is done. No job is with the caller.
    pub fn choose(&self, n: u64) -> Result<Option<Event>, NoMemory>
        requires { KeepsItsJobs self.now }
        ensures event { IfOk result (λ event. event ≡ chosen n (events_at self.now)) }
        ensures enabled { IfOk result (IsChoiceAt self.now) }
    {
        // proof: the enabled events are listed, each once.
        enabled_events_are_listed();
        let _slots = &self.slots;
        let events = self.enabled_events()?;
        Ok(chosen(&events, n))
    }
}
