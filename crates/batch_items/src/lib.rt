//! What batches are made of: requests, each with its client and its number among those of the client. Generic in the
//! request.
#![tactic(auto)]

mod batched;
mod item;

pub use batched::Batched;
pub use item::Item;
