//! A transaction that is ready as soon as it is admitted, run on the store itself.

ghost use Rattle.std.specs.Prelude.{◌≡◌, ◌<◌, ◌≤◌, ◌+◌, ◌-◌, ◌++◌, ◌∷◌, [], ℕ, true, IfOk, IfSome, OnErr, is_some, length, map, Some, None, option_copied, slice_get};
ghost use Rattle.meaning.specs.declared.outcome.Outcome.{Outcome as AnyOutcome};
ghost use Rattle.meaning.specs.Entries.{meaning};
ghost use Rattle.meaning.specs.Outcomes.{as_reply};
ghost use Rattle.interp.specs.Entries.{entry_shape};
ghost use Rattle.interp.specs.Touched.{ShowsTouched};
ghost use Rattle.row_store.specs.Stock.{is_free};
ghost use Rattle.scheduler.specs.Schedules.{phase_in, KeepsItsJobs};
ghost use Rattle.scheduler.specs.Scheduled.{StandsAside};
ghost use Rattle.scheduler.specs.Moments.{is_between, is_next_ready};

use crate::planning::Plans;
use crate::scheduler::Scheduler;
use crate::slot::{Slot, count_settled};
use coarsen::{Plan, clash, clashes_are_either_way};
use interp::{Effect, Entry, run};
use lock_tree::{first_ready, ready_beside};
use meaning::{Outcome, stays_in_footprint};
use row_store::{RowStore, locked_names_are_free_where_plans_are_apart};
use scheduler_core::{admitted_and_unsettled_wait, rows_are_serial, run_on_shown_rows_is_run};
use std::alloc::Global;
use values::NoMemory;

/// Runs an entry on the rows of a store, of which each that it may read is free, and makes its writes there. On an
/// error nothing has changed.
fn run_on_store(alloc: Global, entry: &Entry, store: &mut RowStore) -> Result<Outcome, NoMemory>
    requires tables { entry.now.request.proc.tables ≡ store.old.tables }
    requires free { ShowsTouched (entry_shape entry.now) (is_free store.old.tables store.old.lent) }
    ensures tables { store.new.tables ≡ store.old.tables }
    ensures lent { store.new.lent ≡ store.old.lent }
    ensures run { IfOk result (λ outcome.
        meaning (entry_shape entry.now) store.old.rows ≡ (as_reply outcome, store.new.rows)) }
    ensures err { OnErr result (store.new ≡ store.old) }
{
    let Effect { outcome, writes } = run(alloc, store.catalogue(), entry, &*store)?;
    store.apply(writes)?;
    Ok(outcome)
}

/// The next plan is compared with others only if at most this many places begin at the first unsettled one; else the
/// lock tree is asked, so that no long walk over slots is made. Measured on two and four workers, with one long call in
/// 100, one in ten, and calls that wait for one another on ten rows, where the noise was up to a third: 0, where the
/// tree is always asked, and 999 show no difference beyond it.
const FEW_PLACES: usize = 8;

/// Whether the transaction at a place is settled, or is out with a plan that is in no conflict with this one. Its own
/// plan is made.
fn stands_aside(slot: &Slot, plans: &Plans, place: usize, plan: &Plan) -> bool
    requires begun { plans.now.from ≤ place }
    requires made { place < plans.now.from + length plans.now.made.items }
    ensures { result ≡ true → StandsAside (Some (phase_in slot.now))
        (slice_get plans.now.made.items (place - plans.now.from)) plan.now }
{
    match slot {
        Slot::Settled(_) => true,
        Slot::Idle => false,
        Slot::Lent | Slot::Held(_) | Slot::Ran(_, _) => !clash(plans.at(place), plan),
    }
}

/// Whether that is so of each transaction from a place on. Their plans are made.
fn stand_aside(slots: &[Slot], plans: &Plans, from: usize, plan: &Plan) -> bool
    requires begun { plans.now.from ≤ from }
    requires made { length slots.now ≤ plans.now.from + length plans.now.made.items }
    ensures { result ≡ true → (place : ℕ) → from ≤ place → place < length slots.now →
        StandsAside (slice_get (map phase_in slots.now) place)
        (slice_get plans.now.made.items (place - plans.now.from)) plan.now }
{
    for place in from..slots.len() {
        if !stands_aside(&slots[place], plans, place, plan) {
            return false;
        }
    }
    true
}

impl Scheduler {
    /// The entries of all transactions, in the order of the log.
    pub fn entries(&self) -> &[Entry]
        ensures { result.now ≡ self.now.work.entries }
    {
        self.entries.as_slice()
    }

    /// The entry of the next transaction, `None` exactly where all are admitted.
    pub fn next_entry(&self) -> Option<&Entry>
        ensures { option_copied result ≡ slice_get self.now.work.entries (length self.now.slots) }
    {
        self.entries.get(self.slots.len())
    }

    /// The rows as they are now, where those that are lent count as they were lent.
    pub fn rows(&self) -> &RowStore
        ensures { result.now.tables ≡ self.now.work.tables }
    {
        &self.store
    }

    /// Whether there is a next transaction, and it would be ready as soon as it is admitted. If all that are admitted
    /// are settled, no plan is looked at. Of a few, those that aren't settled are compared with the next plan; the lock
    /// tree is asked if there are more, or one of them waits or clashes.
    fn is_next_ready(&self) -> bool
        ensures { result ≡ is_next_ready self.now }
    {
        // proof: who waits in the lock tree.
        admitted_and_unsettled_wait();
        first_ready();
        ready_beside();
        let place = self.slots.len();
        if place >= self.entries.len() {
            return false;
        }
        if self.settled >= place {
            return true;
        }
        let next = self.plans.at(place);
        let few = place - self.settled <= FEW_PLACES;
        if few && stand_aside(&self.slots, &self.plans, self.settled, next) {
            return true;
        }
        self.locks.would_be_ready(next)
    }

    /// Runs the next transaction on the rows themselves and settles it at once, where it is ready as soon as it is
    /// admitted: then its plan is in conflict with none that is admitted and unsettled, and the rows that it may touch
    /// are lent to nobody. So it waits in no queue and is lent nothing, and it comes to what its four steps would. The
    /// transaction's number, `None` exactly where it isn't ready so, or all are admitted; where all that are admitted
    /// are settled it is. On an error nothing has changed.
    pub fn run_next(&mut self) -> Result<Option<u64>, NoMemory>
        ensures ran { IfOk result (λ number. IfSome number (λ no.
            (no ≡ self.old.work.first + length self.old.slots) × (outcome : AnyOutcome) ×
            (self.new ≡ record self.old { slots = self.old.slots ++ Slot.Settled outcome ∷ [] }))) }
        ensures none { IfOk result (λ number. number ≡ None → self.new ≡ self.old) }
        ensures exact { IfOk result (λ number. is_some number ≡ is_next_ready self.old) }
        ensures between { IfOk result (λ number. is_between self.old ≡ true → is_some number ≡ true) }
        ensures keeps { KeepsItsJobs self.old → KeepsItsJobs self.new }
        ensures err { OnErr result (self.new ≡ self.old) }
    {
        // proof: who waits in the lock tree, and what the rows are.
        admitted_and_unsettled_wait();
        rows_are_serial();
        run_on_shown_rows_is_run();
        stays_in_footprint();
        first_ready();
        clashes_are_either_way();
        locked_names_are_free_where_plans_are_apart();
        if !self.is_next_ready() {
            return Ok(None);
        }
        let place = self.slots.len();
        self.plans.make_beside(
            self.alloc,
            &self.entries,
            self.threshold,
            self.arena,
            self.settled,
            place,
        )?;
        self.slots.reserve(1)?;
        let outcome = run_on_store(self.alloc, &self.entries[place], &mut self.store)?;
        self.slots.push_reserved(Slot::Settled(outcome));
        self.settled = count_settled(&self.slots, self.settled);
        Ok(Some(self.first + place as u64))
    }
}
