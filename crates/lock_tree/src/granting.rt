//! Nodes that come into a queue and leave it, and what is granted then.

ghost use Rattle.std.specs.Prelude.{◌≡◌, ◌<◌, ◌+◌, ◌^◌, ℕ, true, false, Some, None, IfSome, length, slice_get};
ghost use Rattle.request_arena.specs.Lists.{free_nodes, IsLive, EndsChain, BeginsChain};
ghost use Rattle.request_arena.specs.Pushes.{Pushed};
ghost use Rattle.lock_tree.specs.declared.line.Line.{Line as AnyLine};
ghost use Rattle.lock_tree.specs.Queues.{granted, has_number};
ghost use Rattle.lock_tree.specs.Lines.{nodes_of, in_order, request_at, numbers_of, others, AllUnder};
ghost use Rattle.lock_tree.specs.Numbered.{IsNumbered};
ghost use Rattle.lock_tree.specs.Granted.{IsFront, Stays, AreGranted};
ghost use Rattle.lock_tree.specs.Steps.{AreLive, IsAdded, IsLeft};
ghost use Rattle.request_arena.specs.Removals.{IsRemoved};

use crate::line::Line;
use crate::lines::Lines;
use request_arena::{Full, NodeId, Queues, Request};

/// Goes on after what is granted of a queue, as long as each request is compatible with all before it.
fn extended(lines: &Lines, number: usize) -> Line
    requires live { AreLive lines.now.nodes }
    requires few { length (nodes_of lines.now.nodes number) < 2 ^ 32 }
    requires within { number < length lines.now.lines.items }
    requires queue { number < length lines.now.nodes.queues }
    requires front { (x : AnyLine) → slice_get lines.now.lines.items number ≡ Some x →
        IsFront (in_order lines.now.nodes number) (nodes_of lines.now.nodes number) x }
    ensures front { IsFront (in_order lines.now.nodes number) (nodes_of lines.now.nodes number) result }
    ensures all { result.granted ≡ length (granted (in_order lines.now.nodes number)) }
{
    let mut line = lines.lines[number];
    while let Some(node) = line.waiting {
        let mode = lines.nodes.get(node).mode;
        if !line.held.fits(mode) {
            return line;
        }
        line.held.add(mode);
        line.granted += 1;
        line.waiting = lines.nodes.next(node);
    }
    line
}

/// Puts a node at the back of a queue. A node is free.
fn push(nodes: &mut Queues, number: usize, tail: Option<NodeId>, request: Request) -> NodeId
    requires free { 0 < free_nodes nodes.old.held }
    requires queue { number < length nodes.old.queues }
    requires tail { IfSome tail (λ t. EndsChain nodes.old t) }
    ensures { Pushed nodes.old number tail request result nodes.new }
{
    match nodes.push_back(number, tail, request) {
        Ok(node) => node,
        Err(Full) => unreachable!(),
    }
}

/// Puts a request at the back of a queue, and after the tail of its transaction. A node is free.
pub(crate) fn add(
    lines: &mut Lines,
    number: usize,
    tail: Option<NodeId>,
    request: Request,
) -> NodeId
    requires numbered { IsNumbered lines.old (Some number) }
    requires granted { AreGranted lines.old }
    requires within { number < length lines.old.lines.items }
    requires free { 0 < free_nodes lines.old.nodes.held }
    requires tail { IfSome tail (λ t. EndsChain lines.old.nodes t) }
    requires above { AllUnder request.no (numbers_of (in_order lines.old.nodes number)) }
    ensures { IsAdded lines.old number tail request result lines.new }
{
    // proof: a node is at one place of one queue.
    lines.nodes.nodes_stand_apart();
    let node = push(&mut lines.nodes, number, tail, request);
    // proof: a node is at one place of one queue.
    lines.nodes.nodes_stand_apart();
    let waiting = lines.lines[number].waiting.or(Some(node));
    lines.lines[number].waiting = waiting;
    lines.lines[number] = extended(lines, number);
    node
}

/// Whether a transaction's request in a queue is granted.
pub(crate) fn is_granted(lines: &Lines, number: usize, no: u64) -> bool
    requires granted { AreGranted lines.now }
    requires within { number < length lines.now.lines.items }
    requires queue { number < length lines.now.nodes.queues }
    requires there { (i : ℕ) × (a : ℕ) × (slice_get (nodes_of lines.now.nodes number) i ≡ Some a)
        × ((request_at lines.now.nodes.held a).0 ≡ no) }
    ensures { result ≡ has_number no (granted (in_order lines.now.nodes number)) }
{
    // proof: a node is at one place of one queue.
    lines.nodes.nodes_stand_apart();
    match lines.lines[number].waiting {
        Some(node) => no < lines.nodes.get(node).no,
        None => true,
    }
}

/// Whether it is the first node that waits.
fn is_first(waiting: Option<NodeId>, node: NodeId) -> bool
    ensures yes { result ≡ true → waiting ≡ Some node }
    ensures no { result ≡ false → waiting ≡ Some node → ⊥ }
{
    match waiting {
        Some(first) => first == node,
        None => false,
    }
}

/// What stays granted of a queue without a transaction's node.
fn without(lines: &Lines, number: usize, node: NodeId, no: u64) -> Line
    requires granted { AreGranted lines.now }
    requires within { number < length lines.now.lines.items }
    requires queue { number < length lines.now.nodes.queues }
    requires there { (i : ℕ) × (slice_get (nodes_of lines.now.nodes number) i ≡ Some node) }
    requires owned { (request_at lines.now.nodes.held node).0 ≡ no }
    ensures { Stays lines.now.nodes.held (nodes_of lines.now.nodes number) node no result }
{
    // proof: a node is at one place of one queue.
    lines.nodes.nodes_stand_apart();
    let mut line = lines.lines[number];
    if is_granted(lines, number, no) {
        line.held.take(lines.nodes.get(node).mode);
        line.granted -= 1;
        return line;
    }
    if is_first(line.waiting, node) {
        line.waiting = lines.nodes.next(node);
    }
    line
}

/// Takes a node, which is the first of its chain, out of its queue: the next of its chain.
fn take_out(nodes: &mut Queues, node: NodeId) -> Option<NodeId>
    requires live { IsLive nodes.old node }
    requires begins { BeginsChain nodes.old node }
    ensures { IsRemoved nodes.old node result nodes.new }
{
    nodes.remove(node).1
}

/// A node that left its queue.
#[derive(Clone, Copy)]
pub(crate) struct Left {
    /// The next of its chain.
    pub(crate) successor: Option<NodeId>,
    /// How many of the others were granted before.
    pub(crate) stay: u32,
    /// The one after these in the queue.
    pub(crate) first: Option<NodeId>,
}

/// Takes a transaction's node, which is the first of its chain, out of its queue.
pub(crate) fn leave(lines: &mut Lines, number: usize, node: NodeId, no: u64) -> Left
    requires numbered { IsNumbered lines.old None }
    requires granted { AreGranted lines.old }
    requires within { number < length lines.old.lines.items }
    requires there { (i : ℕ) × (slice_get (nodes_of lines.old.nodes number) i ≡ Some node) }
    requires owned { (request_at lines.old.nodes.held node).0 ≡ no }
    requires live { IsLive lines.old.nodes node }
    requires begins { BeginsChain lines.old.nodes node }
    ensures left { IsLeft lines.old number no node result.successor lines.new }
    ensures stay { result.stay ≡ length (others no (granted (in_order lines.old.nodes number))) }
    ensures first { result.first ≡ slice_get (nodes_of lines.new.nodes number) result.stay }
{
    // proof: a node is at one place of one queue.
    lines.nodes.nodes_stand_apart();
    let line = without(lines, number, node, no);
    let successor = take_out(&mut lines.nodes, node);
    // proof: a node is at one place of one queue.
    lines.nodes.nodes_stand_apart();
    let left = Left {
        successor,
        stay: line.granted,
        first: line.waiting,
    };
    lines.lines[number] = line;
    lines.lines[number] = extended(lines, number);
    left
}
