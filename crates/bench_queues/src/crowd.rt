//! Transactions that all ask for one resource.

use coarsen::Plan;
use lock_tree::{EnqueueFault, LockTree};
use std::alloc::Global;
use std::marker::Model;
use values::NoMemory;

/// A lock tree, and which of the numbers from 0 on are those of transactions in it. Contracts see the latter.
#[derive(Drop)]
pub(crate) struct Crowd {
    tree: LockTree,
    there: Vec<bool>,
}

impl Model for Crowd {
    ghost use Rattle.std.specs.Prelude.{List, Bool};
    ghost use Rattle.bench_queues.specs.Crowds.{IsCrowd};

    ghost Value = { List Bool };

    ghost view = { λ c. c.there.items };

    ghost invariant = { λ c. IsCrowd c.there.items c.tree.waiting };
}

impl Crowd {
    /// No transaction, and room for `most` requests.
    pub(crate) fn new(alloc: Global, most: usize) -> Result<Crowd, NoMemory> {
        Ok(Crowd {
            tree: LockTree::new(alloc, most)?,
            there: Vec::new(alloc),
        })
    }

    /// Enqueues the next transaction.
    #[tactic(auto, using(crate::proofs::Crowds::one_more))]
    pub(crate) fn enqueue(&mut self, plan: &Plan) -> Result<(), EnqueueFault> {
        if self.there.reserve(1).is_err() {
            return Err(EnqueueFault::NoMemory);
        }
        self.tree.enqueue(self.there.len() as u64, plan)?;
        self.there.push_reserved(true);
        Ok(())
    }

    /// Releases the transaction with a number, if it is there.
    #[tactic(auto, using(crate::proofs::Crowds::one_less))]
    pub(crate) fn release(&mut self, no: usize) {
        if no < self.there.len() && self.there[no] {
            self.there[no] = false;
            self.tree.release(no as u64);
        }
    }

    /// Whether any transaction is there.
    pub(crate) fn is_left(&self) -> bool {
        self.there.iter().any(|there| *there)
    }
}
