//! Transactions with their requests.

ghost use Rattle.std.specs.Prelude.{◌≡◌, ◌≤◌, ◌+◌, ℕ, [], ◌∷◌, ◌++◌, nat_le, false, length, IsSome, IfOk, OnOk, OnErr};
ghost use Rattle.lock_tree.specs.Locks.{used, plan_of, without, with_mark};
ghost use Rattle.lock_tree.specs.Ready.{ready, IsNextReady};
ghost use Rattle.lock_tree.specs.Enqueues.{AreBelow};

use crate::enqueued::Enqueued;
use crate::enqueueing::enqueue_transaction;
use crate::grants::admit_all;
use crate::lines::Lines;
use crate::release::leave_all;
use crate::rising_numbers::least;
use crate::transactions::Transactions;
use coarsen::Plan;
use std::alloc::Global;
use std::marker::Model;
use values::NoMemory;

/// What was requested: transactions with their plans, in the order in which they were enqueued, and a mark on some of
/// them. Contracts see the list of them.
#[derive(Drop)]
pub(crate) struct Requested {
    arena: usize,
    transactions: Transactions,
    lines: Lines,
}

impl Model for Requested {
    ghost use Rattle.std.specs.Prelude.{◌≡◌, ◌+◌};
    ghost use Rattle.lock_tree.specs.Locks.{Locks, used};

    ghost Value = { Locks };

    ghost use Rattle.lock_tree.specs.Views.{all_waiting, enqueued, locks_code};

    ghost coded = { locks_code };

    ghost view = { λ t. record { arena = t.arena; waiting = all_waiting (enqueued t.transactions) } };

    ghost use Rattle.lock_tree.specs.Sound.{IsTree};

    ghost invariant = { λ t. IsTree t.arena t.transactions t.lines };
}

impl Requested {
    /// Room for `arena` requests, and no transaction.
    pub(crate) fn new(alloc: Global, arena: usize) -> Result<Requested, NoMemory>
        ensures { IfOk result (λ requested. requested ≡ record { arena = arena; waiting = [] }) }
    {
        Ok(Requested {
            arena,
            transactions: Transactions::new(alloc),
            lines: Lines::new(alloc, arena)?,
        })
    }

    /// Whether there is room for a plan's requests beside those of the transactions that are there.
    pub(crate) fn has_room(&self, plan: &Plan) -> bool
        ensures { result ≡ nat_le (used self.now.waiting + length plan.now) self.now.arena }
    {
        plan.requests().len() <= self.lines.nodes.free()
    }

    /// Puts a transaction after all others, without a mark. On an error nothing has changed.
    pub(crate) fn enqueue(&mut self, no: u64, plan: &Plan) -> Result<(), NoMemory>
        requires below { AreBelow no self.old.waiting }
        requires room { used self.old.waiting + length plan.now ≤ self.old.arena }
        ensures enqueued { OnOk result (self.new
            ≡ record self.old {
              waiting = self.old.waiting
                  ++ record { no = no; plan = plan.now; marked = false } ∷ [];
            }) }
        ensures err { OnErr result (self.new ≡ self.old) }
    {
        self.transactions.make_place()?;
        self.lines.make_room(plan.requests().len())?;
        enqueue_transaction(
            &mut self.lines,
            &mut self.transactions,
            plan.requests(),
            Enqueued::new(no, plan),
            no,
        )?;
        Ok(())
    }

    /// Whether the transaction is there and each of its requests is granted.
    pub(crate) fn is_ready(&self, no: u64) -> bool
        ensures { result ≡ ready self.now.waiting no }
    {
        match self.transactions.get(no) {
            Some(entry) => entry.is_ready(),
            None => false,
        }
    }

    /// Whether a transaction with this plan would be ready at once, if it were put after all others.
    pub(crate) fn would_be_ready(&self, plan: &Plan) -> bool
        ensures { (number : ℕ) → AreBelow number self.now.waiting → result
            ≡ ready (self.now.waiting ++ record { no = number; plan = plan.now; marked = false } ∷ []) number }
    {
        admit_all(&self.lines, plan.requests())
    }

    /// The least number of a transaction that is ready and has no mark, `None` exactly where there is none.
    pub(crate) fn next_ready(&self) -> Option<u64>
        ensures { IsNextReady self.now.waiting result }
    {
        least(&self.transactions.open)
    }

    /// Puts a mark on a transaction, or takes it off.
    pub(crate) fn set_mark(&mut self, no: u64, mark: bool)
        ensures { self.new ≡ record self.old { waiting = with_mark no mark self.old.waiting } }
    {
        self.transactions.set_mark(no, mark);
    }

    /// Takes a transaction out of the tree.
    pub(crate) fn release(&mut self, no: u64)
        requires { IsSome (plan_of self.old.waiting no) }
        ensures { self.new ≡ record self.old { waiting = without no self.old.waiting } }
    {
        if let Some(entry) = self.transactions.remove(no) {
            leave_all(&mut self.lines, &mut self.transactions, &entry, no);
        }
    }
}
