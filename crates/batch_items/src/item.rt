//! A request with its client.

/// A request that was submitted.
#[derive(Drop)]
pub struct Item<Q> {
    /// The client, from 1 to 4; 0 where the request came with none.
    pub client: u8,
    /// The request's number among those that its client submitted, from 0.
    pub number: u64,
    pub request: Q,
}
