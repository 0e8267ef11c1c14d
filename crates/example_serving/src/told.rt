//! What clients are answered.

ghost use Rattle.std.specs.Prelude.{◌≡◌};

use meaning::Outcome;
use requests::RequestFault;
use std::alloc::AllocError;
use thiserror::Error;
use values::NoMemory;

/// The answer to a call: what came of its transaction, or why it is no request.
pub type Answer = Result<Outcome, RequestFault>;

/// An answer, and whom it is for. Where a stale request is tried again, each of its attempts has one.
#[derive(Drop)]
pub struct Told {
    /// The client, from 1; 0 only of a request that an engine carried before it served, and that came with no client.
    pub client: u8,
    /// The call's number among those of the client, from 0.
    pub number: u64,
    pub answer: Answer,
}

/// Why a server has stopped.
#[derive(Clone, Copy, Debug, PartialEq, Eq, Error)]
pub enum ServeFault {
    /// With what is carried and the next batch the engine's log would have more than 2^48 transactions. The engine
    /// holds no batch, and carries what it did.
    #[error("the log is full")]
    LogFull,
    /// A thread was refused. The engine holds the next batch with what was carried to it, and nothing of it has run.
    #[error("no thread")]
    Spawn,
    /// The system refused memory. The engine holds the next batch with what was carried to it; or it holds none, and
    /// carries what it did.
    #[error("out of memory")]
    NoMemory,
}

impl From<NoMemory> for ServeFault {
    ghost use Rattle.example_serving.specs.declared.told.ServeFault.TheVariants.{NoMemory};

    ghost from_gives = { λ _ fault. fault ≡ NoMemory };

    fn from(_: NoMemory) -> ServeFault {
        ServeFault::NoMemory
    }
}

impl From<AllocError> for ServeFault {
    ghost use Rattle.example_serving.specs.declared.told.ServeFault.TheVariants.{NoMemory};

    ghost from_gives = { λ _ fault. fault ≡ NoMemory };

    fn from(_: AllocError) -> ServeFault {
        ServeFault::NoMemory
    }
}
