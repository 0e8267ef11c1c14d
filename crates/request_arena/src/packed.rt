//! Nodes as they lie in memory.

ghost use Rattle.std.specs.Prelude.{◌≡◌, ◌<◌, ◌^◌, IfSome, Some, None};
ghost use Rattle.request_arena.specs.Packed.{unpacked, packed_successor, held_there};
ghost use Rattle.request_arena.specs.Small.{IsSmall, IsSmallHeld};

use crate::node::{Held, Node, NodeId, Request};
use modes::Mode;

/// A node, in few bytes: `no` and `mode` say nothing where it is not live, and `successor`
/// nothing where no node is after it.
#[derive(Clone, Copy)]
pub(crate) struct Packed {
    pub(crate) no: u64,
    pub(crate) next: u32,
    pub(crate) prev: u32,
    pub(crate) home: u32,
    pub(crate) successor: u32,
    pub(crate) mode: Mode,
    pub(crate) live: bool,
    pub(crate) leads: bool,
}

impl Packed {
    /// A free node, or the head of a queue.
    #[inline(always)]
    fn unheld(next: usize, prev: usize, home: usize) -> Packed
        requires next { next < 2 ^ 32 }
        requires prev { prev < 2 ^ 32 }
        requires home { home < 2 ^ 32 }
        ensures { unpacked result ≡ record { next = next; prev = prev; home = home; held = None } }
    {
        Packed {
            no: 0,
            next: next as u32,
            prev: prev as u32,
            home: home as u32,
            successor: 0,
            mode: Mode::IntentionShared,
            live: false,
            leads: false,
        }
    }

    /// The same node as a live one, which holds that.
    #[inline(always)]
    fn with(self, held: Held) -> Packed
        requires { IsSmallHeld (Some held) }
        ensures { unpacked result ≡ record (unpacked self) { held = Some held } }
    {
        let Held { request, successor } = held;
        let Request { no, mode } = request;
        let last = Packed {
            no,
            mode,
            live: true,
            leads: false,
            ..self
        };
        match successor {
            None => last,
            Some(NodeId { place }) => Packed {
                successor: place,
                leads: true,
                ..last
            },
        }
    }

    /// A node whose links lead to places below 2^32.
    #[inline(always)]
    pub(crate) fn of(node: Node) -> Packed
        requires { IsSmall node }
        ensures { unpacked result ≡ node }
    {
        let unheld = Packed::unheld(node.next, node.prev, node.home);
        match node.held {
            None => unheld,
            Some(held) => unheld.with(held),
        }
    }

    #[inline(always)]
    fn successor(&self) -> Option<NodeId>
        ensures is { result ≡ packed_successor self.now }
        ensures small { IfSome result (λ place. place < 2 ^ 32) }
    {
        if self.leads {
            let place = self.successor as usize;
            Some(NodeId {
                place: place as u32,
            })
        } else {
            None
        }
    }

    #[inline(always)]
    fn held(&self) -> Option<Held>
        ensures is { result ≡ held_there self.now }
        ensures small { IsSmallHeld result }
    {
        if self.live {
            let request = Request {
                no: self.no,
                mode: self.mode,
            };
            let successor = self.successor();
            Some(Held { request, successor })
        } else {
            None
        }
    }

    #[inline(always)]
    pub(crate) fn node(&self) -> Node
        ensures is { result ≡ unpacked self.now }
        ensures small { IsSmall result }
    {
        Node {
            next: self.next as usize,
            prev: self.prev as usize,
            home: self.home as usize,
            held: self.held(),
        }
    }
}
