//! How far an engine is with a batch.

use row_store::RowStore;
use scheduler::Scheduler;
use sequencer::{Attempts, Carried};

/// The attempts of a batch, and the scheduler of their entries.
#[derive(Drop)]
pub(crate) struct Begun {
    pub attempts: Attempts,
    pub scheduler: Scheduler,
}

/// What an engine is at, and where its rows are.
#[derive(Drop)]
pub(crate) enum Stage {
    /// No batch is unfinished. The requests are carried to the next one.
    Idle(RowStore, Vec<Carried>),
    /// The attempts of a batch are held, of which nothing has begun.
    Held(Attempts, RowStore),
    /// The transactions of a batch are on their way.
    Begun(Begun),
}
