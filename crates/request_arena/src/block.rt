//! The block of memory in which nodes and heads lie, as a row of places.

ghost use Rattle.std.specs.Prelude.{◌≡◌, ◌<◌, ◌*◌, ◌/◌, ◌^◌, ◌+◌, [], length, map, ℕ, slice_get, slice_set, slice_index_or, Some, IfOk, OnOk};
ghost use Rattle.request_arena.specs.Packed.{unpacked};
ghost use Rattle.request_arena.specs.Places.{index_of, fresh, at_place, laid};
ghost use Rattle.request_arena.specs.Small.{IsSmall};

use crate::node::Node;
use crate::packed::Packed;
use crate::row::Row;
use std::alloc::Global;
use std::marker::Model;
use values::NoMemory;

/// The most places that there can be: links are numbers of 32 bits.
const MOST_PLACES: usize = 1 << 30;

/// One block of memory with a place for each node, and for the head of each queue. Contracts see what is at each
/// place. Nothing is written to a place before it is used, so a large block costs as much as is used of it.
#[derive(Drop)]
pub(crate) struct Block {
    pub(crate) written: Row,
    pub(crate) nodes: usize,
    queues: usize,
}

impl Model for Block {
    ghost use Rattle.std.specs.Prelude.{List};
    ghost use Rattle.request_arena.specs.declared.node.Node.{Node as AnyNode};
    ghost use Rattle.request_arena.specs.Places.{laid, IsRoomy};

    ghost Value = { List AnyNode };

    ghost view = { λ b. laid b.nodes b.queues b.written.items };

    ghost invariant = { λ b. IsRoomy b.written.room b.nodes b.queues };
}

/// Where a place lies in the block.
#[inline(always)]
fn index_of(nodes: usize, place: usize) -> usize
    requires { place < 2 ^ 32 }
    ensures { result ≡ index_of nodes place }
{
    if place < nodes {
        place / 64 * 128 + place % 64
    } else {
        let queue = place - nodes;
        queue / 64 * 128 + 64 + queue % 64
    }
}

/// The place that lies there in the block.
fn place_at(nodes: usize, index: usize) -> usize
    requires nodes { nodes < 2 ^ 30 }
    requires fits { index < 2 ^ 31 }
    ensures exact { (place : ℕ) → index_of nodes place ≡ index → result ≡ place }
    ensures small { result < 2 ^ 32 }
{
    let (run, offset) = (index / 128, index % 128);
    if offset < 64 {
        run * 64 + offset
    } else {
        nodes + run * 64 + (offset - 64)
    }
}

/// What is at a place that nothing was written to.
#[inline(always)]
fn fresh(nodes: usize, place: usize) -> Node
    requires fits { place < 2 ^ 32 }
    requires nodes { nodes < 2 ^ 32 }
    ensures is { result ≡ fresh nodes place }
    ensures small { IsSmall result }
{
    let next = if place < nodes { place + 1 } else { place };
    Node {
        next,
        prev: place,
        home: 0,
        held: None,
    }
}

/// What is at an index of a row, or what would be there if nothing was written to it.
#[inline(always)]
fn read(row: &Row, index: usize, unwritten: Node) -> Node
    requires { IsSmall unwritten }
    ensures small { IsSmall result }
    ensures is { result ≡ slice_index_or (map unpacked row.now.items) index unwritten }
{
    if index < row.len() {
        row.get(index).node()
    } else {
        unwritten
    }
}

/// Writes what is there to the next place.
fn write_next(written: &mut Row, nodes: usize)
    requires nodes { nodes < 2 ^ 30 }
    requires fits { written.old.room < 2 ^ 31 }
    requires room { length written.old.items < written.old.room }
    ensures more { length written.new.items ≡ length written.old.items + 1 }
    ensures capacity { written.new.room ≡ written.old.room }
    ensures same { (place : ℕ) → at_place nodes written.new.items place ≡ at_place nodes written.old.items place }
{
    let place = place_at(nodes, written.len());
    written.push(Packed::of(fresh(nodes, place)));
}

/// Writes what is there to all places as far as one.
#[cold]
#[inline(never)]
fn write_up_to(written: &mut Row, nodes: usize, index: usize)
    requires nodes { nodes < 2 ^ 30 }
    requires fits { written.old.room < 2 ^ 31 }
    requires room { index < written.old.room }
    ensures far { index < length written.new.items }
    ensures capacity { written.new.room ≡ written.old.room }
    ensures same { (place : ℕ) → at_place nodes written.new.items place ≡ at_place nodes written.old.items place }
{
    for _ in written.len()..index + 1 {
        write_next(written, nodes);
    }
}

/// Where a place lies, to which something was written now.
#[inline(always)]
pub(crate) fn reach(written: &mut Row, nodes: usize, place: usize) -> usize
    requires small { place < 2 ^ 32 }
    requires nodes { nodes < 2 ^ 30 }
    requires fits { written.old.room < 2 ^ 31 }
    requires room { index_of nodes place < written.old.room }
    ensures is { result ≡ index_of nodes place }
    ensures far { result < length written.new.items }
    ensures capacity { written.new.room ≡ written.old.room }
    ensures same { (place : ℕ) → at_place nodes written.new.items place ≡ at_place nodes written.old.items place }
{
    let index = index_of(nodes, place);
    if index < written.len() {
        return index;
    }
    write_up_to(written, nodes, index);
    index
}

/// The room that `count` nodes, or heads, take with the runs between them.
fn room_for(count: usize) -> usize
    requires { count < 2 ^ 30 }
    ensures { result ≡ (count / 64 + 1) * 128 }
{
    (count / 64 + 1) * 128
}

impl Block {
    /// A block to which nothing was written.
    pub(crate) fn with_capacity(
        alloc: Global,
        nodes: usize,
        queues: usize,
    ) -> Result<Block, NoMemory>
        ensures fits { OnOk result (nodes + queues < 2 ^ 30) }
        ensures laid { IfOk result (λ block. block ≡ laid nodes queues []) }
    {
        match nodes.checked_add(queues) {
            Some(places) if places < MOST_PLACES - 64 => {}
            _ => return Err(NoMemory),
        }
        let room = room_for(nodes.max(queues));
        Ok(Block {
            written: Row::with_capacity(alloc, room)?,
            nodes,
            queues,
        })
    }

    /// What is at a place.
    #[inline(always)]
    pub(crate) fn get(&self, place: usize) -> Node
        requires { place < length self.now }
        ensures is { slice_get self.now place ≡ Some result }
        ensures small { IsSmall result }
    {
        read(
            &self.written,
            index_of(self.nodes, place),
            fresh(self.nodes, place),
        )
    }

    /// Writes all that is at a place.
    #[inline(always)]
    pub(crate) fn set(&mut self, place: usize, node: Node)
        requires there { place < length self.old }
        requires small { IsSmall node }
        ensures { self.new ≡ slice_set self.old place node }
    {
        let index = reach(&mut self.written, self.nodes, place);
        self.written.set(index, Packed::of(node));
    }
}
