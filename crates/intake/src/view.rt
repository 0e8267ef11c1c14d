//! What lies in the queue, and what a pass knows of it.

use batch_items::Item;
use std::collections::LinkedList;

/// What a client has submitted, in order. No value of it is made.
pub struct History<Q> {
    pub client: u8,
    pub sent: LinkedList<Q>,
}

/// What a pass knows. No value of it is made.
pub struct View<Q> {
    /// The histories of the clients for which it alone submits.
    pub histories: LinkedList<History<Q>>,
    /// Whether it alone draws.
    pub draws: bool,
    /// What was drawn, if it draws.
    pub drawn: LinkedList<Item<Q>>,
}
