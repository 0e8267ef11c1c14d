//! The lock tree.

ghost use Rattle.std.specs.Prelude.{◌≡◌, ◌↔◌, ◌<◌, ◌+◌, ℕ, [], ◌∷◌, ◌++◌, nat_le, true, false, length, IsSome, IfOk, OnOk, OnErr, Err};
ghost use Rattle.lock_tree.specs.Locks.{used, plan_of, without, with_mark};
ghost use Rattle.lock_tree.specs.Ready.{ready, IsNextReady};
ghost use Rattle.lock_tree.specs.Enqueues.{AreBelow};

use crate::requested::Requested;
use coarsen::Plan;
use std::alloc::Global;
use std::marker::Model;
use thiserror::Error;
use values::NoMemory;

/// Why a plan was not enqueued.
#[derive(Clone, Copy, Debug, PartialEq, Eq, Error)]
pub enum EnqueueFault {
    /// There is less room than the plan has requests.
    #[error("less room than the plan has requests")]
    Full,
    #[error("out of memory")]
    NoMemory,
}

/// Transactions with their plans, in the order in which they were enqueued, and a mark on some of them. Locks are
/// granted in that order (Calvin, 2012), in the modes of Gray and others (1975, 1976). Contracts see the list of them.
#[derive(Drop)]
pub struct LockTree {
    alloc: Global,
    arena: usize,
    // A tree takes no memory before a plan is enqueued.
    requested: Option<Requested>,
}

impl Model for LockTree {
    ghost use Rattle.lock_tree.specs.Locks.{Locks};

    ghost Value = { Locks };

    ghost use Rattle.lock_tree.specs.Views.{locks_code};
    ghost use Rattle.lock_tree.specs.Requested.{locks_of, HasArena};

    ghost coded = { locks_code };

    ghost view = { λ t. locks_of t.arena t.requested };

    ghost invariant = { λ t. HasArena t.arena t.requested };
}

impl LockTree {
    /// A tree with room for `arena` requests, and no transaction. `arena` may be 0; then only plans without a request
    /// can be enqueued. This body never fails, since it makes the block of the requests with the first of them; a
    /// caller is to expect a tree that makes it at once.
    pub fn new(alloc: Global, arena: usize) -> Result<LockTree, NoMemory>
        ensures { IfOk result (λ tree. tree ≡ record { arena = arena; waiting = [] }) }
    {
        Ok(LockTree {
            alloc,
            arena,
            requested: None,
        })
    }

    /// Whether there is room for a plan's requests beside those of the transactions that are there.
    pub fn has_room(&self, plan: &Plan) -> bool
        ensures { result ≡ nat_le (used self.now.waiting + length plan.now) self.now.arena }
    {
        match &self.requested {
            Some(requested) => requested.has_room(plan),
            None => plan.requests().len() <= self.arena,
        }
    }

    /// Puts a transaction after all others, without a mark. Full exactly where there is less room than the plan has
    /// requests. On an error nothing has changed.
    pub fn enqueue(&mut self, no: u64, plan: &Plan) -> Result<(), EnqueueFault>
        requires { AreBelow no self.old.waiting }
        ensures enqueued { OnOk result (self.new
            ≡ record self.old {
              waiting = self.old.waiting
                  ++ record { no = no; plan = plan.now; marked = false } ∷ [];
            }) }
        ensures full { (result ≡ Err EnqueueFault.Full) ↔ (self.old.arena < used self.old.waiting + length plan.now) }
        ensures err { OnErr result (self.new ≡ self.old) }
    {
        if !self.has_room(plan) {
            return Err(EnqueueFault::Full);
        }
        match &mut self.requested {
            Some(requested) => requested.enqueue(no, plan)?,
            None => {
                let mut requested = Requested::new(self.alloc, self.arena)?;
                requested.enqueue(no, plan)?;
                self.requested = Some(requested);
            }
        }
        Ok(())
    }

    /// Whether the transaction is there and each of its requests is granted.
    pub fn is_ready(&self, no: u64) -> bool
        ensures { result ≡ ready self.now.waiting no }
    {
        match &self.requested {
            Some(requested) => requested.is_ready(no),
            None => false,
        }
    }

    /// Whether a transaction with this plan would be ready at once, if it were put after all others.
    pub fn would_be_ready(&self, plan: &Plan) -> bool
        ensures { (number : ℕ) → AreBelow number self.now.waiting → result
            ≡ ready (self.now.waiting ++ record { no = number; plan = plan.now; marked = false } ∷ []) number }
    {
        match &self.requested {
            Some(requested) => requested.would_be_ready(plan),
            None => true,
        }
    }

    /// The least number of a transaction that is ready and has no mark, `None` exactly where there is none.
    pub fn next_ready(&self) -> Option<u64>
        ensures { IsNextReady self.now.waiting result }
    {
        match &self.requested {
            Some(requested) => requested.next_ready(),
            None => None,
        }
    }

    /// Marks a transaction.
    pub fn mark(&mut self, no: u64)
        requires { IsSome (plan_of self.old.waiting no) }
        ensures { self.new ≡ record self.old { waiting = with_mark no true self.old.waiting } }
    {
        self.set_mark(no, true);
    }

    /// Takes the mark off a transaction.
    pub fn unmark(&mut self, no: u64)
        requires { IsSome (plan_of self.old.waiting no) }
        ensures { self.new ≡ record self.old { waiting = with_mark no false self.old.waiting } }
    {
        self.set_mark(no, false);
    }

    fn set_mark(&mut self, no: u64, mark: bool)
        ensures { self.new ≡ record self.old { waiting = with_mark no mark self.old.waiting } }
    {
        if let Some(requested) = &mut self.requested {
            requested.set_mark(no, mark);
        }
    }

    /// Takes a transaction out of the tree.
    pub fn release(&mut self, no: u64)
        requires { IsSome (plan_of self.old.waiting no) }
        ensures { self.new ≡ record self.old { waiting = without no self.old.waiting } }
    {
        if let Some(requested) = &mut self.requested {
            requested.release(no);
        }
    }
}

impl From<NoMemory> for EnqueueFault {
    ghost use Rattle.lock_tree.specs.declared.tree.EnqueueFault.TheVariants.{NoMemory as Memory};

    ghost from_gives = { λ _ fault. fault ≡ Memory };

    fn from(_: NoMemory) -> EnqueueFault {
        EnqueueFault::NoMemory
    }
}
