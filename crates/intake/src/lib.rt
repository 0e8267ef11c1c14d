//! An intake: clients submit requests to a bounded queue, each by a pass of its own, and one owner draws them in
//! batches. Each client's requests are drawn in the order in which it submitted them, each once. Generic in the
//! request.
//!
//! Proved, by `Intake::new`: the passes of the clients, numbered from 1, none of which has submitted, and the one that
//! draws. `submit`: exact, with numbers from 0 without gaps; a request comes back with the history as it was, and at
//! one moment the queue was full. `draw`: at most as many as were asked for and 4,096; in all that a pass ever drew,
//! each client's requests in the order in which it submitted them, each once; fewer only where a step found the queue
//! empty; if allocation fails nothing was drawn. `drain`: appends what it drew, in batches of 1 to 4,096; after `Ok`
//! all that the clients at hand, and those that have retired, ever submitted was drawn. `retire`: the owner's pass
//! knows what the client's knew. `discard`: draws all that those ever submitted, and can't run out of memory.
//!
//! What a full or an empty queue tells is what the caller's pass knows (`refused_client_knows_the_queue`); where others
//! submit and draw meanwhile, it is that it may try again. The program reads its calls from a log and has no intake.
//!
//! Tested only, by `test_intake`: orders between clients on one thread; what two clients in threads left, drained or
//! discarded. Not proved: that a call returns; other orders between clients. Believed: the queue of `crossbeam_queue`.
#![tactic(auto)]

mod draining;
mod intake;
mod laws;
mod passes;
mod rule;
mod view;

pub use batch_items::{Batched, Item};
pub use intake::{Intake, MOST_DRAWN};
pub use laws::refused_client_knows_the_queue;
pub use passes::{ClientPass, DrawPass, Full};
