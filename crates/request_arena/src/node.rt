//! Nodes: what a live one holds, and how it is linked.

ghost use Rattle.std.specs.Prelude.{◌≡◌, IsSome, Some};

use modes::Mode;
use std::marker::Model;

/// What a transaction asks of a resource.
#[derive(Clone, Copy, Debug, PartialEq, Eq)]
pub struct Request {
    /// The transaction's number.
    pub no: u64,
    pub mode: Mode,
}

/// The name of a node, which stays the same as long as the node is live. Contracts see its number.
#[derive(Clone, Copy, Debug, PartialEq, Eq)]
pub struct NodeId {
    pub(crate) place: u32,
}

impl Model for NodeId {
    ghost use Rattle.std.specs.Prelude.{ℕ};

    ghost Value = { ℕ };

    ghost view = { λ id. id.place };

    ghost inverse = { λ n. record { place = n } };
}

impl NodeId {
    ghost use Rattle.std.specs.Prelude.{◌≡◌};

    /// The name with a number.
    pub fn of(number: u32) -> NodeId
        ensures { result ≡ number }
    {
        NodeId { place: number }
    }

    /// The number of the name.
    pub fn number(self) -> u32
        ensures { result ≡ self }
    {
        self.place
    }
}

/// What a live node holds: its request, and the node after it in the chain of its transaction.
#[derive(Clone, Copy)]
pub struct Held {
    pub request: Request,
    pub successor: Option<NodeId>,
}

/// A node, or the head of a queue, which holds nothing. Its links are places of the block that it lies in: from the
/// back of a queue they go on to its head, and a free node's `next` is the next free one. A live node's `home` is its
/// queue.
#[derive(Clone, Copy)]
pub(crate) struct Node {
    pub(crate) next: usize,
    pub(crate) prev: usize,
    pub(crate) home: usize,
    pub(crate) held: Option<Held>,
}

/// What a live node holds.
pub(crate) fn content(held: Option<Held>) -> Held
    requires { IsSome held }
    ensures { held ≡ Some result }
{
    match held {
        Some(held) => held,
        None => unreachable!(),
    }
}
