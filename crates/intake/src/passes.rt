//! The passes of an intake.

ghost use Rattle.std.specs.Prelude.{◌≡◌};
ghost use Rattle.intake.specs.Passes.{client_of, count_of};

use crate::view::View;
use batch_items::Item;
use crossbeam_queue::Pass;
use thiserror::Error;

/// The intake was full; the request comes back.
#[derive(Debug, Drop, Error)]
#[error("the intake is full")]
pub struct Full<Q>(pub Q);

/// By this a client submits, and by no other. It may move into a thread.
#[derive(Drop)]
pub struct ClientPass<Q> {
    pub(crate) pass: Pass<Item<Q>, View<Q>>,
    pub(crate) client: u8,
    pub(crate) sent: u64,
}

impl<Q> ClientPass<Q> {
    /// The client's number, from 1 to 4.
    pub fn client(&self) -> u8
        ensures { result ≡ client_of self.now }
    {
        self.client
    }

    /// How many requests of the client were accepted. It is the number that the next one gets.
    pub fn sent(&self) -> u64
        ensures { result ≡ count_of self.now }
    {
        self.sent
    }
}

/// By this the owner draws, and by no other. It may move into a thread.
#[derive(Drop)]
pub struct DrawPass<Q> {
    pub(crate) pass: Pass<Item<Q>, View<Q>>,
}
