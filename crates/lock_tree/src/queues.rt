//! Requests that come into the queue of a resource and leave it.

ghost use Rattle.std.specs.Prelude.{◌≡◌, ◌<◌, ℕ, Some, None, IfSome, length, slice_get, []};
ghost use Rattle.request_arena.specs.Lists.{free_nodes, EndsChain};
ghost use Rattle.lock_tree.specs.Queues.{granted};
ghost use Rattle.lock_tree.specs.Lines.{line, nodes_of, in_order, request_at, HasRoom, AllUnder, numbers_of, others, number_of};
ghost use Rattle.lock_tree.specs.Numbered.{IsNumbered};
ghost use Rattle.lock_tree.specs.Granted.{AreGranted};
ghost use Rattle.lock_tree.specs.Chained.{IsPlaced, Begins};
ghost use Rattle.lock_tree.specs.Steps.{IsPushed, IsTakenOff, IsLonger, IsShorter};

use crate::granting::{Left, add, leave};
use crate::lines::Lines;
use crate::numbering::{forget_empty, number_for};
use footprint::Resource;
use request_arena::{NodeId, Request};
use std::snapshot::Snapshot;

/// Puts a request after the others on its resource, and after the tail of its transaction's
/// chain: its node. There is room for it.
pub(crate) fn push(
    lines: &mut Lines,
    resource: &Resource,
    tail: Option<NodeId>,
    request: Request,
) -> NodeId
    requires numbered { IsNumbered lines.old None }
    requires granted { AreGranted lines.old }
    requires free { 0 < free_nodes lines.old.nodes.held }
    requires room { HasRoom lines.old 1 }
    requires above { AllUnder request.no (numbers_of (line lines.old resource.now)) }
    requires tail { IfSome tail (λ t. EndsChain lines.old.nodes t
        × ((request_at lines.old.nodes.held t).0 ≡ request.no)) }
    ensures pushed { IsPushed lines.old resource.now request lines.new }
    ensures longer { (number : ℕ) × IsLonger request.no resource.now number tail result lines.old lines.new }
{
    let number = number_for(lines, resource);
    add(lines, number, tail, request)
}

/// Takes the first node of a transaction's chain out of the queue of its resource, and forgets the resource where none
/// asks for it. The resource is there as clauses see it, which costs nothing.
pub(crate) fn remove(
    lines: &mut Lines,
    resource: &Snapshot<Resource>,
    number: usize,
    node: NodeId,
    no: u64,
) -> Left
    requires numbered { IsNumbered lines.old None }
    requires granted { AreGranted lines.old }
    requires placed { IsPlaced lines.old no resource.now.value number node }
    requires begins { Begins lines.old (Some node) }
    ensures taken_off { IsTakenOff lines.old resource.now.value no lines.new }
    ensures within { number < length lines.new.lines.items }
    ensures here { in_order lines.new.nodes number ≡ others no (line lines.old resource.now.value) }
    ensures stays { (result.stay ≡ length (others no (granted (line lines.old resource.now.value))))
        × (result.first ≡ slice_get (nodes_of lines.new.nodes number) result.stay) }
    ensures unnumbered { line lines.new resource.now.value ≡ [] → number_of lines.new resource.now.value ≡ None }
    ensures shorter { IsShorter no node result.successor lines.old lines.new }
{
    let left = leave(lines, number, node, no);
    forget_empty(lines, resource, number);
    left
}
