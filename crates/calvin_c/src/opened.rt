//! What C has a pointer to.

use session::{Pieces, Session};

/// A session, and what waits of a rows document that was asked for.
#[derive(Drop)]
pub struct Opened {
    pub(crate) session: Session,
    pub(crate) document: Pieces,
}
