//! The lock tree: plans in the order in which they were enqueued, and which transactions have all that they ask for.
//!
//! Proved of `LockTree`, as the list of transactions with their plans and marks: `new`, `enqueue`, `is_ready`,
//! `would_be_ready`, `next_ready`, `mark`, `unmark` and `release` are exact. A plan is refused exactly where there is
//! less room than it has requests; an error changes nothing. Laws: what is granted of a queue is its longest compatible
//! front; a ready transaction clashes with none that was enqueued before it, where both plans are sound, and stays
//! ready until it is released; the first of all is ready; if all that wait are ready, one that is put last and clashes
//! with none of them is ready.
//!
//! Tested only: a comparison with a plain list. Not proved: any cost, and that only `enqueue` takes memory.
#![tactic(auto)]

mod enqueued;
mod enqueueing;
mod granting;
mod grants;
mod held;
mod laws;
mod line;
mod lines;
mod numbering;
mod queues;
mod release;
mod requested;
mod resource_key;
mod rising_numbers;
mod transactions;
mod tree;

pub use laws::{first_ready, granted_is_longest_front, ready_apart, ready_beside, ready_stays};
pub use tree::{EnqueueFault, LockTree};
