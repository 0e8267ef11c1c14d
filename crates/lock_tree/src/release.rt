//! Transactions that leave their queues, and who gets ready.

ghost use Rattle.std.specs.Prelude.{◌≡◌, ◌<◌, ◌+◌, ℕ, List, drop, length, [], ◌∷◌, ◌==◌, false, None, Some, slice_get, if◌then◌else◌};
ghost use Rattle.std.specs.List.{AllByRecursion};
ghost use Rattle.footprint.specs.declared.resource.Resource.{Resource as AnyResource};
ghost use Rattle.modes.specs.declared.mode.Mode.{Mode as AnyMode};
ghost use Rattle.request_arena.specs.Lists.{free_nodes};
ghost use Rattle.lock_tree.specs.Indexed.{IsIndexed};
ghost use Rattle.lock_tree.specs.Queues.{Queue, granted, mode_on};
ghost use Rattle.lock_tree.specs.Lines.{line, nodes_of, in_order, is_same, others};
ghost use Rattle.lock_tree.specs.Numbered.{IsNumbered};
ghost use Rattle.lock_tree.specs.Granted.{AreGranted};
ghost use Rattle.lock_tree.specs.Chained.{Chains, AreChained, IsPlaced, Begins};
ghost use Rattle.lock_tree.specs.Steps.{IsShorter};
ghost use Rattle.lock_tree.specs.Sound.{Correspond};
ghost use Rattle.lock_tree.specs.Known.{AreKnown};
ghost use Rattle.lock_tree.specs.Views.{all_waiting, enqueued};

use crate::enqueued::Enqueued;
use crate::grants::are_granted;
use crate::lines::Lines;
use crate::queues::remove;
use crate::transactions::Transactions;
use footprint::Resource;
use request_arena::NodeId;
use std::snapshot::Snapshot;

/// Notes whether a transaction is ready.
fn record_ready(lines: &Lines, transactions: &mut Transactions, no: u64)
    requires numbered { IsNumbered lines.now None }
    requires granted { AreGranted lines.now }
    requires indexed { IsIndexed transactions.old }
    requires chained { AreChained lines.now (enqueued transactions.old) }
    ensures indexed { IsIndexed transactions.new }
    ensures same { all_waiting (enqueued transactions.new) ≡ all_waiting (enqueued transactions.old) }
    ensures noted { (mode : AnyMode) (lately : Queue) →
        AreKnown (line lines.now) ((no, mode) ∷ lately) (enqueued transactions.old) →
        AreKnown (line lines.now) lately (enqueued transactions.new) }
    ensures chained { AreChained lines.now (enqueued transactions.new) }
{
    if let Some(entry) = transactions.get(no) {
        let ready = are_granted(lines, entry, no);
        transactions.set_ready(no, ready);
    }
}

/// Notes which of the transactions are ready whose requests in a queue are granted, from a
/// place on, where a node is.
fn record_granted(
    lines: &Lines,
    transactions: &mut Transactions,
    number: usize,
    mut place: u32,
    mut first: Option<NodeId>,
)
    requires within { number < length lines.now.lines.items }
    requires first { first ≡ slice_get (nodes_of lines.now.nodes number) place }
    requires agree { Correspond lines.now (drop place (granted (in_order lines.now.nodes number))) transactions.old }
    ensures agree { Correspond lines.now [] transactions.new }
    ensures same { all_waiting (enqueued transactions.new) ≡ all_waiting (enqueued transactions.old) }
{
    // proof: a node is at one place of one queue.
    lines.nodes.nodes_stand_apart();
    let granted = lines.lines[number].granted;
    while place < granted {
        let Some(node) = first else { unreachable!() };
        record_ready(lines, transactions, lines.nodes.get(node).no);
        first = lines.nodes.next(node);
        place += 1;
    }
}

/// Takes the first node of a transaction's chain out of the queue of its resource, and notes who gets ready: the next
/// of the chain. The resource is there as clauses see it, which costs nothing.
fn leave_one(
    lines: &mut Lines,
    transactions: &mut Transactions,
    resource: &Snapshot<Resource>,
    number: usize,
    node: NodeId,
    no: u64,
) -> Option<NodeId>
    requires placed { IsPlaced lines.old no resource.now.value number node }
    requires begins { Begins lines.old (Some node) }
    requires others { AllByRecursion (λ waiting.
        (waiting.no == no) ≡ false) (all_waiting (enqueued transactions.old)) }
    requires agree { Correspond lines.old [] transactions.old }
    ensures agree { Correspond lines.new [] transactions.new }
    ensures free { free_nodes lines.new.nodes.held ≡ free_nodes lines.old.nodes.held + 1 }
    ensures left { (other : AnyResource) →
        line lines.new other ≡ (if is_same other resource.now.value then others no (line lines.old other)
        else line lines.old other) }
    ensures shorter { IsShorter no node result lines.old lines.new }
    ensures same { all_waiting (enqueued transactions.new) ≡ all_waiting (enqueued transactions.old) }
{
    let left = remove(lines, resource, number, node, no);
    record_granted(lines, transactions, number, left.stay, left.first);
    left.successor
}

/// Takes a transaction off the queues of its plan, node by node along its chain, and notes who gets ready.
pub(crate) fn leave_all(
    lines: &mut Lines,
    transactions: &mut Transactions,
    entry: &Enqueued,
    no: u64,
)
    requires chain { (numbers : List ℕ) × Chains lines.old no entry.now.plan.value numbers entry.now.head }
    requires others { AllByRecursion (λ waiting.
        (waiting.no == no) ≡ false) (all_waiting (enqueued transactions.old)) }
    requires agree { Correspond lines.old [] transactions.old }
    requires elsewhere { (other : AnyResource) → mode_on other entry.now.plan.value ≡ None →
        others no (line lines.old other) ≡ line lines.old other }
    ensures agree { Correspond lines.new [] transactions.new }
    ensures free { free_nodes lines.new.nodes.held ≡ free_nodes lines.old.nodes.held + length entry.now.plan.value }
    ensures left { (other : AnyResource) → line lines.new other ≡ others no (line lines.old other) }
    ensures same { all_waiting (enqueued transactions.new) ≡ all_waiting (enqueued transactions.old) }
{
    let mut head = entry.head();
    while let Some(node) = head {
        let number = lines.nodes.queue_of(node);
        let resource = Snapshot::of(&lines.resources[number]);
        head = leave_one(lines, transactions, &resource, number, node, no);
    }
}
