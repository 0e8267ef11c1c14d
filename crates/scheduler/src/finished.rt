//! Replies, and the end.

ghost use Rattle.std.specs.Prelude.{◌≡◌, ◌≢◌, ◌≤◌, ◌-◌, ℕ, true, [], ◌∷◌, Some, None, IfSome, is_some, length, map, slice_get};
ghost use Rattle.std.specs.FinMap as finite;
ghost use Rattle.coarsen.specs.Clashes.{ModesClash};
ghost use Rattle.meaning.specs.Outcomes.{as_reply};
ghost use Rattle.meaning.specs.Serial.{serial_end, serial_replies};
ghost use Rattle.interp.specs.Entries.{entry_shape};
ghost use Rattle.scheduler.specs.JobRuns.{JobOf};
ghost use Rattle.scheduler_core.specs.Transactions.{Transaction};
ghost use Rattle.scheduler_core.specs.Serial.{serial_reply};
ghost use Rattle.scheduler_core.specs.Phases.{is_done, is_out, is_settled, phase_of};
ghost use Rattle.scheduler_core.specs.Events.{OutAreReady};
ghost use Rattle.scheduler.specs.Schedules.{log_of, phases_of};
ghost use Rattle.scheduler.specs.Jobs.{IsLentAt};

use crate::scheduler::Scheduler;
use crate::slot::{Slot, outcome_at};
use catalogue::Catalogue;
use meaning::Outcome;
use row_store::RowStore;
use scheduler_core::{rows_are_serial, serial_run_by_places};
use std::marker::Model;
use std::vec::IntoIter;

/// The outcomes of a whole log, in log order.
#[derive(Drop)]
pub struct Outcomes {
    rest: IntoIter<Slot>,
}

impl Model for Outcomes {
    ghost use Rattle.std.specs.Coded.{coded_list};
    ghost use Rattle.std.specs.Prelude.{List};
    ghost use Rattle.meaning.specs.declared.outcome.Outcome.{Outcome};
    ghost use Rattle.meaning.specs.contracts.outcome.Outcome as outcomes;
    ghost use Rattle.scheduler.specs.Replies.{replies_of, AreSettled};
    ghost use Rattle.std.specs.Vec.Iter.{into_iter_items};

    ghost Value = { List Outcome };

    ghost coded = { coded_list outcomes.the_row.coded };

    ghost view = { λ o. replies_of (into_iter_items o.rest) };

    ghost invariant = { λ o. AreSettled (into_iter_items o.rest) };
}

impl Outcomes {
    /// The next outcome, `None` exactly where none is left.
    pub fn next(&mut self) -> Option<Outcome>
        ensures some { IfSome result (λ outcome. self.old ≡ outcome ∷ self.new) }
        ensures none { result ≡ None → self.old ≡ [] }
    {
        match self.rest.next() {
            Some(Slot::Settled(outcome)) => Some(outcome),
            _ => None,
        }
    }
}

/// What a log comes to: the catalogue, the rows, and the outcome of each transaction.
#[derive(Drop)]
pub struct Finished {
    pub catalogue: Catalogue,
    pub rows: RowStore,
    pub outcomes: Outcomes,
}

impl Scheduler {
    /// Whether all transactions are admitted and settled.
    pub fn is_done(&self) -> bool
        ensures { result ≡ is_done (log_of self.now.work) (phases_of self.now) }
    {
        self.settled == self.entries.len()
    }

    /// The outcome of a transaction, `None` exactly where it isn't settled. It is the one of the serial run.
    pub fn reply(&self, no: u64) -> Option<&Outcome>
        ensures settled { is_some result ≡ is_settled (phase_of self.now.work.first (phases_of self.now) no) }
        ensures serial { IfSome result (λ outcome.
            serial_reply (log_of self.now.work) self.now.work.start (no - self.now.work.first)
            ≡ Some (as_reply outcome.now)) }
    {
        if no < self.first {
            return None;
        }
        outcome_at(&self.slots, (no - self.first) as usize)
    }

    /// The rows and the outcomes, where all are settled: those of the serial run. No memory is taken.
    pub fn into_finished(self) -> Finished
        requires { is_done (log_of self.work) (phases_of self) ≡ true }
        ensures catalogue { result.catalogue ≡ self.work.tables }
        ensures tables { result.rows.tables ≡ self.work.tables }
        ensures rows { result.rows.rows ≡ serial_end (map entry_shape self.work.entries) self.work.start }
        ensures unlent { result.rows.lent ≡ finite.empty }
        ensures outcomes { map as_reply result.outcomes
            ≡ serial_replies (map entry_shape self.work.entries) self.work.start }
    {
        // proof: the rows are those of the serial run.
        rows_are_serial();
        serial_run_by_places();
        let Scheduler {
            catalogue,
            store,
            slots,
            ..
        } = self;
        let outcomes = Outcomes {
            rest: slots.into_iter(),
        };
        Finished {
            catalogue,
            rows: store,
            outcomes,
        }
    }

    /// What holds at every moment: no more are admitted than the log has; each job that is here shows, as it was lent,
    /// the rows of the serial run at its place, on the row names that its plan locks; no two plans that are out are in
    /// conflict, and each transaction that is out is ready.
    pub fn observe(&self)
        ensures within { length self.now.slots ≤ length self.now.work.entries }
        ensures jobs { (place : ℕ) (job : JobOf) → slice_get self.now.slots place ≡ Some (Slot.Held job) →
            IsLentAt self.now.work place job }
        ensures apart { (i k : ℕ) (t u : Transaction) → i ≢ k → slice_get (log_of self.now.work) i ≡ Some t →
            slice_get (log_of self.now.work) k ≡ Some u
            → is_out (slice_get (phases_of self.now) i) ≡ true → is_out (slice_get (phases_of self.now) k) ≡ true →
            ModesClash t.plan u.plan → ⊥ }
        ensures ready { OutAreReady self.now.work.first (log_of self.now.work) (phases_of self.now) }
    {
        // proof: the rows are those of the serial run.
        rows_are_serial();
        let _slots = &self.slots;
    }
}
