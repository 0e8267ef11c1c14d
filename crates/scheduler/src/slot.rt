//! What there is of an admitted transaction.

ghost use Rattle.std.specs.Prelude.{◌≡◌, ◌<◌, ◌≤◌, ℕ, true, false, length, map, Some, None, IfSome, is_some, slice_get, slice_set};
ghost use Rattle.scheduler_core.specs.Phases.{is_idle, was_run, is_settled};
ghost use Rattle.scheduler.specs.JobRuns.{JobOf};
ghost use Rattle.scheduler.specs.Schedules.{phase_in};

use crate::job::Job;
use meaning::Outcome;
use std::mem;

/// What there is of an admitted transaction.
#[derive(Drop)]
pub enum Slot {
    /// It is not out.
    Idle,
    /// Its job is with the caller.
    Lent,
    /// Its job is here, and was not run.
    Held(Job),
    /// Its job is here, and was run.
    Ran(Job, Outcome),
    Settled(Outcome),
}

/// Puts something else in a slot.
pub(crate) fn put(slots: &mut Vec<Slot>, place: usize, slot: Slot)
    requires { place < length slots.old.items }
    ensures { slots.new.items ≡ slice_set slots.old.items place slot }
{
    slots[place] = slot;
}

/// Whether a transaction is admitted and neither out nor settled.
pub(crate) fn is_idle(slots: &[Slot], place: usize) -> bool
    ensures idle { result ≡ is_idle (slice_get (map phase_in slots.now) place) }
    ensures slot { result ≡ true → slice_get slots.now place ≡ Some Slot.Idle }
{
    matches!(slots.get(place), Some(Slot::Idle))
}

/// Takes out a job that is here and was not run; its slot is as if the job were with the caller.
pub(crate) fn take_held(slots: &mut Vec<Slot>, place: usize) -> Option<Job>
    ensures was { IfSome result (λ job. slice_get slots.old.items place ≡ Some (Slot.Held job)) }
    ensures taken { IfSome result (λ _. slots.new.items ≡ slice_set slots.old.items place Slot.Lent) }
    ensures none { result ≡ None → (job : JobOf) → slice_get slots.old.items place ≡ Some (Slot.Held job) → ⊥ }
    ensures same { result ≡ None → slots.new.items ≡ slots.old.items }
{
    if place >= slots.len() {
        return None;
    }
    let slot = &mut slots[place];
    match mem::replace(slot, Slot::Lent) {
        Slot::Held(job) => Some(job),
        other => {
            *slot = other;
            None
        }
    }
}

/// Takes out a job that is here and was run, with its outcome; its slot is as if the job were with the caller.
pub(crate) fn take_run(slots: &mut Vec<Slot>, place: usize) -> Option<(Job, Outcome)>
    ensures was { IfSome result (λ done. slice_get slots.old.items place ≡ Some (Slot.Ran done.0 done.1)) }
    ensures taken { IfSome result (λ _. slots.new.items ≡ slice_set slots.old.items place Slot.Lent) }
    ensures none { result ≡ None → was_run (slice_get (map phase_in slots.old.items) place) ≡ false }
    ensures same { result ≡ None → slots.new.items ≡ slots.old.items }
{
    if place >= slots.len() {
        return None;
    }
    let slot = &mut slots[place];
    match mem::replace(slot, Slot::Lent) {
        Slot::Ran(job, outcome) => Some((job, outcome)),
        other => {
            *slot = other;
            None
        }
    }
}

/// The outcome that is kept of a settled transaction.
pub(crate) fn outcome_at(slots: &[Slot], place: usize) -> Option<&Outcome>
    ensures kept { IfSome result (λ outcome. slice_get slots.now place ≡ Some (Slot.Settled outcome.now)) }
    ensures which { is_some result ≡ is_settled (slice_get (map phase_in slots.now) place) }
{
    match slots.get(place) {
        Some(Slot::Settled(outcome)) => Some(outcome),
        _ => None,
    }
}

/// How many leading transactions are settled, where `known` are known to be.
pub(crate) fn count_settled(slots: &[Slot], known: usize) -> usize
    requires before { (place : ℕ) → place < known → is_settled (slice_get (map phase_in slots.now) place) ≡ true }
    requires within { known ≤ length slots.now }
    ensures before { (place : ℕ) → place < result → is_settled (slice_get (map phase_in slots.now) place) ≡ true }
    ensures next { is_settled (slice_get (map phase_in slots.now) result) ≡ false }
    ensures within { result ≤ length slots.now }
    ensures known { known ≤ result }
{
    let mut count = known;
    while outcome_at(slots, count).is_some() {
        count += 1;
    }
    count
}
