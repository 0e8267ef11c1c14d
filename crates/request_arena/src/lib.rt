//! Queues of requests as linked lists in one block of memory: a request is a node, linked in its queue and in the chain
//! of its transaction.
//!
//! Proved of `Queues`, as the nodes of each queue and what each node holds: `push_back` takes a free node, which is
//! then last in its queue and in its chain, and is refused exactly where none is free, which changes nothing; `remove`
//! takes out the first node of a chain and that node alone, and the next of the chain is then its first; `first`,
//! `next`, `successor`, `queue_of`, `get` and `free` are exact. A live node is in one queue, at one place; live and
//! free nodes are all nodes, fewer than 2^30.
//!
//! `with_capacity` takes one block of raw memory, in one function, and another gives it back when the queues are
//! dropped: the right to give it back can't be dropped, and `scripts/unsafe.py` refuses what lets a value go without
//! its end.
//!
//! Not proved: that the other calls take no memory.
#![tactic(auto)]

mod block;
mod deed;
mod links;
mod memory;
mod node;
mod packed;
mod queues;
mod room;
mod row;

pub use node::{Held, NodeId, Request};
pub use queues::{Full, Queues};
