//! The queues.

ghost use Rattle.std.specs.Prelude.{◌≡◌, ◌+◌, ◌<◌, ◌^◌, [], ◌∷◌, length, replicate, Some, None, slice_get, slice_index_or, ℕ, IfOk, IfErr, IfSome};
ghost use Rattle.request_arena.specs.Chains.{chain, chain_from};
ghost use Rattle.request_arena.specs.Lists.{IsLive, EndsChain, BeginsChain, HoldsRequest, free_nodes};
ghost use Rattle.request_arena.specs.Pushes.{Pushed};
ghost use Rattle.request_arena.specs.Removals.{IsRemoved};

use crate::block::Block;
use crate::node::{Held, Node, NodeId, Request, content};
use std::alloc::Global;
use std::marker::Model;
use thiserror::Error;
use values::NoMemory;

/// There is no free node.
#[derive(Clone, Copy, Debug, PartialEq, Eq, Error)]
#[error("no free node is left")]
pub struct Full;

/// Queues of requests, and the chains of transactions. Contracts see the nodes of each queue, and what each node holds,
/// from which the chains follow. The nodes lie in one block of memory, which is given back when the queues are dropped.
#[derive(Drop)]
pub struct Queues {
    // The nodes, and after them the heads of the queues.
    block: Block,
    nodes: usize,
    queues: usize,
    // The first free node, which leads to the next one.
    vacant: usize,
    pub(crate) free: usize,
}

impl Model for Queues {
    ghost use Rattle.std.specs.Prelude.{◌<◌, ◌^◌};
    ghost use Rattle.request_arena.specs.Lists.{Lists};
    ghost use Rattle.request_arena.specs.Linked.{lists_of, IsLinked, AreChains, AreHome, held_in};

    ghost Value = { Lists };

    ghost view = { λ q. lists_of q.block q.nodes q.queues };

    ghost invariant = { λ q. IsLinked q.block q.nodes q.queues q.vacant q.free × AreChains (held_in q.nodes q.block)
        × AreHome q.block q.nodes q.queues × (q.vacant < 2 ^ 32) };
}

impl Queues {
    /// `nodes` free nodes, and `queues` empty queues; either may be 0. The error comes if allocation fails, or if they
    /// are 2^30 - 64 or more together. No other call takes memory.
    pub fn with_capacity(alloc: Global, nodes: usize, queues: usize) -> Result<Queues, NoMemory>
        ensures { IfOk result (λ q. q ≡ record { queues = replicate queues []; held = replicate nodes None }) }
    {
        let block = Block::with_capacity(alloc, nodes, queues)?;
        Ok(Queues {
            block,
            nodes,
            queues,
            vacant: 0,
            free: nodes,
        })
    }

    /// Adds a node at the back of the queue, and after the tail in the chain of its transaction. Full exactly where no
    /// node is free; then nothing has changed.
    pub fn push_back(
        &mut self,
        queue: usize,
        tail: Option<NodeId>,
        request: Request,
    ) -> Result<NodeId, Full>
        requires queue { queue < length self.old.queues }
        requires tail { IfSome tail (λ t. EndsChain self.old t) }
        ensures pushed { IfOk result (λ id. Pushed self.old queue tail request id self.new) }
        ensures full { IfErr result (λ _. (self.new ≡ self.old) × (free_nodes self.old.held ≡ 0)) }
    {
        if self.free == 0 {
            return Err(Full);
        }
        let place = self.vacant;
        let head = self.nodes + queue;
        let held = Held {
            request,
            successor: None,
        };
        self.block.link_tail(tail, place);
        let rest = self.block.get(place).next;
        let last = self.block.get(head).prev;
        let node = Node {
            next: head,
            prev: last,
            home: queue,
            held: Some(held),
        };
        self.block.set(place, node);
        self.block.set_next(last, place);
        self.block.set_prev(head, place);
        self.vacant = rest;
        self.free -= 1;
        Ok(NodeId {
            place: place as u32,
        })
    }

    /// Takes a node, which is the first of its chain, and it alone, out of its queue and its chain: its request, and
    /// the next of its chain, which is its first then.
    pub fn remove(&mut self, id: NodeId) -> (Request, Option<NodeId>)
        requires live { IsLive self.old id }
        requires first { BeginsChain self.old id }
        ensures held { slice_get self.old.held id
            ≡ Some (Some (record { request = result.0; successor = result.1 })) }
        ensures removed { IsRemoved self.old id result.1 self.new }
    {
        let node = self.block.get(id.place as usize);
        let Held { request, successor } = content(node.held);
        self.block.set_next(node.prev, node.next);
        self.block.set_prev(node.next, node.prev);
        self.block.set_free(id.place as usize, self.vacant);
        self.vacant = id.place as usize;
        self.free += 1;
        (request, successor)
    }

    /// The first node of the queue.
    #[inline]
    pub fn first(&self, queue: usize) -> Option<NodeId>
        requires { queue < length self.now.queues }
        ensures node { result ≡ slice_get (slice_index_or self.now.queues queue []) 0 }
        ensures live { IfSome result (λ id. IsLive self.now id) }
    {
        let place = self.block.get(self.nodes + queue).next;
        if place < self.nodes {
            Some(NodeId {
                place: place as u32,
            })
        } else {
            None
        }
    }

    /// The next node of its queue.
    #[inline]
    pub fn next(&self, id: NodeId) -> Option<NodeId>
        requires { IsLive self.now id }
        ensures node { (q i : ℕ) → q < length self.now.queues →
            slice_get (slice_index_or self.now.queues q []) i ≡ Some id →
            result ≡ slice_get (slice_index_or self.now.queues q []) (i + 1) }
        ensures live { IfSome result (λ next. IsLive self.now next) }
    {
        let place = self.block.get(id.place as usize).next;
        if place < self.nodes {
            Some(NodeId {
                place: place as u32,
            })
        } else {
            None
        }
    }

    /// The queue of a node.
    #[inline]
    pub fn queue_of(&self, id: NodeId) -> usize
        requires { IsLive self.now id }
        ensures { (q i : ℕ) → slice_get (slice_index_or self.now.queues q []) i ≡ Some id → result ≡ q }
    {
        self.block.get(id.place as usize).home
    }

    /// The next node of its chain.
    #[inline]
    pub fn successor(&self, id: NodeId) -> Option<NodeId>
        requires { IsLive self.now id }
        ensures rest { chain self.now.held id ≡ id ∷ chain_from self.now.held result }
        ensures live { IfSome result (λ next. IsLive self.now next) }
    {
        content(self.block.get(id.place as usize).held).successor
    }

    /// The request of a node.
    #[inline]
    pub fn get(&self, id: NodeId) -> Request
        requires { IsLive self.now id }
        ensures { HoldsRequest self.now id result }
    {
        content(self.block.get(id.place as usize).held).request
    }

    /// A live node is in a queue, and a node of a queue is live. It is in no other queue, and at no other place of its
    /// own.
    pub fn nodes_stand_apart(&self)
        ensures stand { (a : ℕ) → IsLive self.now a → (q i : ℕ) × ((q < length self.now.queues) ×
            (slice_get (slice_index_or self.now.queues q []) i ≡ Some a)) }
        ensures live { (q i a : ℕ) → slice_get (slice_index_or self.now.queues q []) i ≡ Some a → IsLive self.now a }
        ensures apart { (q r i j a : ℕ) → slice_get (slice_index_or self.now.queues q []) i ≡ Some a →
            slice_get (slice_index_or self.now.queues r []) j ≡ Some a → (q ≡ r) × (i ≡ j) }
    {
        let _nodes = self.nodes;
    }

    /// There are fewer nodes than 2^30.
    pub fn nodes_are_few(&self)
        ensures { length self.now.held < 2 ^ 30 }
    {
        let _nodes = self.nodes;
    }
}
