//! Writes to one node of a block: each to the fields that change.

ghost use Rattle.std.specs.Prelude.{◌≡◌, ◌<◌, ◌^◌, length, None, IfSome};
ghost use Rattle.request_arena.specs.Nodes.{with_next, with_prev, with_held, with_successor_at, with_tail};

use crate::block::{Block, reach};
use crate::node::NodeId;
use crate::packed::Packed;

impl Block {
    #[inline(always)]
    pub(crate) fn set_next(&mut self, place: usize, next: usize)
        requires there { place < length self.old }
        requires small { next < 2 ^ 32 }
        ensures nodes { self.new ≡ with_next self.old place next }
        ensures long { length self.new ≡ length self.old }
    {
        let index = reach(&mut self.written, self.nodes, place);
        let node = self.written.get(index);
        let next = next as u32;
        self.written.set(index, Packed { next, ..node });
    }

    #[inline(always)]
    pub(crate) fn set_prev(&mut self, place: usize, prev: usize)
        requires there { place < length self.old }
        requires small { prev < 2 ^ 32 }
        ensures nodes { self.new ≡ with_prev self.old place prev }
        ensures long { length self.new ≡ length self.old }
    {
        let index = reach(&mut self.written, self.nodes, place);
        let node = self.written.get(index);
        let prev = prev as u32;
        self.written.set(index, Packed { prev, ..node });
    }

    /// Frees the node at a place, and leads it on to another.
    #[inline(always)]
    pub(crate) fn set_free(&mut self, place: usize, next: usize)
        requires there { place < length self.old }
        requires small { next < 2 ^ 32 }
        ensures nodes { self.new ≡ with_next (with_held self.old place None) place next }
        ensures long { length self.new ≡ length self.old }
    {
        let index = reach(&mut self.written, self.nodes, place);
        let node = self.written.get(index);
        let next = next as u32;
        let live = false;
        self.written.set(index, Packed { next, live, ..node });
    }

    #[inline(always)]
    fn set_successor(&mut self, tail: usize, place: usize)
        requires there { tail < length self.old }
        requires small { place < 2 ^ 32 }
        ensures nodes { self.new ≡ with_successor_at self.old tail place }
        ensures long { length self.new ≡ length self.old }
    {
        let index = reach(&mut self.written, self.nodes, tail);
        let node = self.written.get(index);
        let successor = place as u32;
        let leads = true;
        self.written.set(
            index,
            Packed {
                successor,
                leads,
                ..node
            },
        );
    }

    /// Puts the node at a place after the tail of its chain, if there is one.
    #[inline(always)]
    pub(crate) fn link_tail(&mut self, tail: Option<NodeId>, place: usize)
        requires there { IfSome tail (λ t. t < length self.old) }
        requires small { place < 2 ^ 32 }
        ensures nodes { self.new ≡ with_tail self.old tail place }
        ensures long { length self.new ≡ length self.old }
    {
        if let Some(tail) = tail {
            self.set_successor(tail.place as usize, place);
        }
    }
}
