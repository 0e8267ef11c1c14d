//! The scheduler.

ghost use Rattle.std.specs.Prelude.{◌≡◌, ◌↔◌, ◌<◌, ◌≤◌, ◌+◌, ◌-◌, ◌^◌, true, false, [], ◌∷◌, ◌++◌, length, map, None, Ok, Err, IfOk, IfErr, IfSome, OnOk, OnErr, slice_set};
ghost use Rattle.std.specs.FinMap as finite;
ghost use Rattle.scheduler_core.specs.declared.event.Event.{Event as AnyEvent};
ghost use Rattle.interp.specs.Entries.{entry_shape};
ghost use Rattle.interp.specs.Over.{AreEntriesOver};
ghost use Rattle.scheduler.specs.Logs.{ArePlansOf};
ghost use Rattle.scheduler.specs.Schedules.{work_of};
ghost use Rattle.scheduler.specs.Moments.{can_make, LacksRoom, IsLeastLendAt};
ghost use Rattle.scheduler.specs.Jobs.{LendsTo, ComesBack, number_of_job};

use crate::job::{Done, Job};
use crate::lending::{give_back, lend_to, take_back};
use crate::planning::Plans;
use crate::slot::{Slot, count_settled, put};
use catalogue::Catalogue;
use coarsen::{clashes_are_either_way, plan_is_one, plans_serve};
use interp::Entry;
use lock_tree::LockTree;
use row_store::RowStore;
use scheduler_core::{admitted_and_unsettled_wait, events_by_places, rows_are_serial};
use std::alloc::Global;
use std::marker::Model;
use std::snapshot::Snapshot;
use thiserror::Error;
use values::NoMemory;

/// Why a transaction was not admitted.
#[derive(Clone, Copy, Debug, PartialEq, Eq, Error)]
pub enum AdmitFault {
    /// All transactions are admitted.
    #[error("all transactions are admitted")]
    AllAdmitted,
    /// There is less room than the next plan has requests.
    #[error("less room than the next plan has requests")]
    Full,
    #[error("out of memory")]
    NoMemory,
}

/// The entries of a log on their way: each is admitted, lent its rows, run and settled. Whatever the order of these
/// steps, what comes of each is what the log gives run one by one.
#[derive(Drop)]
pub struct Scheduler {
    pub(crate) alloc: Global,
    pub(crate) catalogue: Catalogue,
    pub(crate) store: RowStore,
    pub(crate) locks: LockTree,
    pub(crate) threshold: usize,
    // Room for `arena` requests.
    pub(crate) arena: usize,
    pub(crate) first: u64,
    pub(crate) entries: Vec<Entry>,
    // One for each transaction that is admitted and not settled, and for the next one, while there are such.
    pub(crate) plans: Plans,
    pub(crate) slots: Vec<Slot>,
    // How many leading transactions are settled.
    pub(crate) settled: usize,
    pub(crate) start: Snapshot<RowStore>,
}

impl Model for Scheduler {
    ghost use Rattle.scheduler.specs.Schedules.{Schedule, schedule_code, work_of};
    ghost use Rattle.scheduler.specs.Logs.{plans_for};
    ghost use Rattle.scheduler.specs.Scheduled.{IsFitting, IsScheduled, AreSettledBefore, HasPlans};

    ghost Value = { Schedule };

    ghost coded = { schedule_code };

    ghost view = { λ s. record {
      work = work_of s.catalogue s.arena s.first s.entries.items (plans_for s.threshold s.arena s.entries.items)
          s.start.value.rows;
      slots = s.slots.items;
    } };

    ghost invariant = { λ s.
        IsFitting (work_of s.catalogue s.arena s.first s.entries.items
        (plans_for s.threshold s.arena s.entries.items) s.start.value.rows)
        × IsScheduled (work_of s.catalogue s.arena s.first s.entries.items
        (plans_for s.threshold s.arena s.entries.items) s.start.value.rows)
        s.slots.items s.store s.locks
        × AreSettledBefore s.slots.items s.settled
        × HasPlans (work_of s.catalogue s.arena s.first s.entries.items
        (plans_for s.threshold s.arena s.entries.items) s.start.value.rows)
        s.slots.items s.settled s.plans.from s.plans.made.items };
}

/// What a scheduler was to be made of, where allocation failed.
pub type Unmade = (Catalogue, RowStore, Vec<Entry>, NoMemory);

impl Scheduler {
    /// A scheduler of these entries on these rows, with nothing admitted. The entries are over the catalogue, nothing
    /// is lent of the rows, and the numbers, from the first one on, are below 2^48. More than `threshold` rows of a
    /// partition, or partitions of a table, are locked as one; the lock tree has room for `arena` requests, at least 1.
    /// `threshold` may be 0, and there may be no entry. If allocation fails, all comes back.
    pub fn new(
        alloc: Global,
        catalogue: Catalogue,
        store: RowStore,
        entries: Vec<Entry>,
        first: u64,
        threshold: usize,
        arena: usize,
    ) -> Result<Scheduler, Unmade>
        requires tables { store.tables ≡ catalogue }
        requires unlent { store.lent ≡ finite.empty }
        requires over { AreEntriesOver catalogue entries.items }
        requires few { first + length entries.items ≤ 2 ^ 48 }
        requires room { 0 < arena }
        ensures start { IfOk result (λ scheduler.
            scheduler ≡ record {
              work = work_of catalogue arena first entries.items scheduler.work.plans store.rows;
              slots = [];
            }) }
        ensures plans { IfOk result (λ scheduler.
            ArePlansOf threshold arena (map entry_shape entries.items) scheduler.work.plans) }
        ensures back { IfErr result (λ unmade. (unmade.0 ≡ catalogue) × (unmade.1 ≡ store) ×
            (unmade.2.items ≡ entries.items)) }
    {
        // proof: who waits in the lock tree, and what the rows are.
        admitted_and_unsettled_wait();
        rows_are_serial();
        plan_is_one();
        plans_serve();
        let _tables = catalogue.len();
        let Ok(locks) = LockTree::new(alloc, arena) else {
            return Err((catalogue, store, entries, NoMemory));
        };
        let start = Snapshot::of(&store);
        Ok(Scheduler {
            alloc,
            catalogue,
            store,
            locks,
            threshold,
            arena,
            first,
            entries,
            plans: Plans::new(alloc),
            slots: Vec::new(alloc),
            settled: 0,
            start,
        })
    }

    /// Admits the next transaction: makes its plan, its lock requests, and room for its reply; and the plan of the one
    /// after it. Transactions are admitted in the order of the log, so locks are granted in that order (Calvin, 2012).
    /// `AllAdmitted` comes exactly where there is no next one, `Full` exactly where the lock tree has less room than
    /// its plan has requests; else the error is that allocation failed. On an error nothing has changed.
    pub fn admit(&mut self) -> Result<u64, AdmitFault>
        ensures enabled { OnOk result (can_make self.old AnyEvent.Admit ≡ true) }
        ensures number { IfOk result (λ number. number ≡ self.old.work.first + length self.old.slots) }
        ensures admitted { OnOk result (self.new ≡ record self.old { slots = self.old.slots ++ Slot.Idle ∷ [] }) }
        // All are admitted exactly where it says so.
        ensures all { (result ≡ Err AdmitFault.AllAdmitted) ↔ (length self.old.work.entries ≤ length self.old.slots) }
        // Full exactly where there is a next one, and less room than its plan has requests.
        ensures full { (result ≡ Err AdmitFault.Full) ↔ LacksRoom self.old }
        ensures last { result ≡ Err AdmitFault.AllAdmitted → can_make self.old AnyEvent.Admit ≡ false }
        ensures err { OnErr result (self.new ≡ self.old) }
    {
        // proof: who waits in the lock tree, and what the rows are.
        admitted_and_unsettled_wait();
        rows_are_serial();
        let place = self.slots.len();
        if place >= self.entries.len() {
            return Err(AdmitFault::AllAdmitted);
        }
        if !self.can_admit() {
            return Err(AdmitFault::Full);
        }
        let Ok(()) = self.plans.make_next(
            self.alloc,
            &self.entries,
            self.threshold,
            self.arena,
            self.settled,
            place,
        )
        else {
            return Err(AdmitFault::NoMemory);
        };
        let no = self.first + place as u64;
        if self.slots.push(Slot::Idle).is_err() {
            return Err(AdmitFault::NoMemory);
        }
        match self.locks.enqueue(no, self.plans.at(place)) {
            Ok(()) => Ok(no),
            Err(_) => {
                self.slots.truncate(place);
                Err(AdmitFault::NoMemory)
            }
        }
    }

    /// Lends its rows to the ready transaction of the least number that is not out, if there is one. On an error
    /// nothing has changed.
    pub fn lend(&mut self) -> Result<Option<Job>, NoMemory>
        ensures least { IfOk result (λ found. IsLeastLendAt self.old (number_of_job found)) }
        // The job shows the rows of the serial run at its place, on the row names that its plan locks, and its plan is
        // in conflict with none that is out.
        ensures lent { IfOk result (λ found. LendsTo self.old found self.new) }
        ensures err { OnErr result (self.new ≡ self.old) }
    {
        // proof: who waits in the lock tree, and what the rows are.
        admitted_and_unsettled_wait();
        rows_are_serial();
        clashes_are_either_way();
        let Some(no) = self.locks.next_ready() else {
            return Ok(None);
        };
        let place = (no - self.first) as usize;
        let job = lend_to(
            self.alloc,
            &mut self.store,
            &mut self.locks,
            no,
            &self.entries[place],
            self.plans.at(place),
        )?;
        put(&mut self.slots, place, Slot::Lent);
        Ok(Some(job))
    }

    /// Settles a job that came back: its transaction is settled with its outcome, or, where it was not run, is not out
    /// any more, and is ready: it can be lent its rows again. It takes no memory.
    pub fn settle(&mut self, done: Done)
        requires { ComesBack self.old done }
        ensures settled { IfSome done.outcome (λ outcome.
            self.new ≡ record self.old {
              slots = slice_set self.old.slots (done.job.no - self.old.work.first)
                  (Slot.Settled outcome);
            }) }
        ensures back { done.outcome ≡ None →
            self.new ≡ record self.old {
              slots = slice_set self.old.slots
                  (done.job.no - self.old.work.first) Slot.Idle;
            } }
        ensures ready { done.outcome ≡ None → can_make self.new (AnyEvent.Lend done.job.no) ≡ true }
    {
        // proof: who waits in the lock tree, and what the rows are.
        admitted_and_unsettled_wait();
        rows_are_serial();
        events_by_places();
        let no = done.no();
        let place = (no - self.first) as usize;
        let (job, outcome) = done.into_parts();
        match outcome {
            Some(outcome) => {
                give_back(&mut self.store, &mut self.locks, no, job);
                put(&mut self.slots, place, Slot::Settled(outcome));
                self.settled = count_settled(&self.slots, self.settled);
            }
            None => {
                take_back(&mut self.store, &mut self.locks, no, job);
                put(&mut self.slots, place, Slot::Idle);
            }
        }
    }
}
