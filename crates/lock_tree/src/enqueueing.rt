//! Transactions that come into the queues of their plans.

ghost use Rattle.std.specs.Prelude.{◌≡◌, ◌+◌, ℕ, List, [], ◌∷◌, ◌++◌, None, OnOk, OnErr};
ghost use Rattle.lock_tree.specs.Lines.{line};
ghost use Rattle.lock_tree.specs.Numbered.{IsNumbered};
ghost use Rattle.lock_tree.specs.Granted.{AreGranted};
ghost use Rattle.lock_tree.specs.Chained.{Chains, IsChained};
ghost use Rattle.lock_tree.specs.Steps.{HasRoomFor, AreEnqueued, IsEntryOf};
ghost use Rattle.lock_tree.specs.Sound.{Correspond};
ghost use Rattle.lock_tree.specs.Enqueues.{AreBelow};
ghost use Rattle.lock_tree.specs.Indexed.{HasPlace};
ghost use Rattle.lock_tree.specs.Known.{granted_in};
ghost use Rattle.lock_tree.specs.Views.{waiting_of, all_waiting, enqueued};

use crate::enqueued::Enqueued;
use crate::grants::are_granted;
use crate::lines::Lines;
use crate::queues::push;
use crate::transactions::{Transactions, push_open};
use footprint::Resource;
use modes::Mode;
use request_arena::{NodeId, Request};
use values::NoMemory;

/// Puts a transaction after the others in the queues of its plan: the first node of its chain.
fn enqueue_requests(lines: &mut Lines, plan: &[(Resource, Mode)], no: u64) -> Option<NodeId>
    requires numbered { IsNumbered lines.old None }
    requires granted { AreGranted lines.old }
    requires room { HasRoomFor lines.old no plan.now }
    ensures enqueued { AreEnqueued lines.old no plan.now lines.new }
    ensures chained { (numbers : List ℕ) × Chains lines.new no plan.now numbers result }
{
    let mut head = None;
    let mut tail = None;
    for (resource, mode) in plan {
        let request = Request { no, mode: *mode };
        let node = push(lines, resource, tail, request);
        head = head.or(Some(node));
        tail = Some(node);
    }
    head
}

/// Puts a transaction after the others in the queues of its plan, and notes where its
/// requests are and whether it is ready.
fn enqueue_entry(lines: &mut Lines, plan: &[(Resource, Mode)], entry: &mut Enqueued, no: u64)
    requires owner { entry.old.no ≡ no }
    requires plan { entry.old.plan.value ≡ plan.now }
    requires numbered { IsNumbered lines.old None }
    requires granted { AreGranted lines.old }
    requires room { HasRoomFor lines.old entry.old.no entry.old.plan.value }
    ensures enqueued { AreEnqueued lines.old entry.old.no entry.old.plan.value lines.new }
    ensures same { waiting_of entry.new ≡ waiting_of entry.old }
    ensures chained { IsChained lines.new entry.new }
    ensures ready { entry.new.ready ≡ granted_in (line lines.new) entry.new.no entry.new.plan.value }
{
    entry.set_head(enqueue_requests(lines, plan, no));
    let ready = are_granted(lines, entry, no);
    entry.set_ready(ready);
}

/// Puts a transaction with its plan, which is not ready, after all others. There is room for its requests. On an error
/// nothing has changed.
pub(crate) fn enqueue_transaction(
    lines: &mut Lines,
    transactions: &mut Transactions,
    plan: &[(Resource, Mode)],
    entry: Enqueued,
    no: u64,
) -> Result<(), NoMemory>
    requires entry { IsEntryOf no plan.now entry }
    requires room { HasRoomFor lines.old entry.no entry.plan.value }
    requires place { HasPlace transactions.old }
    requires below { AreBelow entry.no (all_waiting (enqueued transactions.old)) }
    requires agree { Correspond lines.old [] transactions.old }
    ensures agree { Correspond lines.new [] transactions.new }
    ensures enqueued { OnOk result (AreEnqueued lines.old entry.no entry.plan.value lines.new) }
    ensures waiting { OnOk result (all_waiting (enqueued transactions.new) ≡ all_waiting (enqueued transactions.old)
        ++ waiting_of entry ∷ []) }
    ensures err { OnErr result ((lines.new ≡ lines.old)
        × (enqueued transactions.new ≡ enqueued transactions.old)) }
{
    transactions.push(no, entry)?;
    let Some(entry) = transactions.entries.get_mut(&no) else {
        unreachable!()
    };
    enqueue_entry(lines, plan, entry, no);
    push_open(&mut transactions.open, entry, no);
    Ok(())
}
