//! Why a batch was not executed.

ghost use Rattle.std.specs.Prelude.{◌≡◌};

use dispatcher::Refusal;
use sequencer::Batch;
use std::fmt;
use thiserror::Error;

/// Why a batch was not executed.
#[derive(Drop, Error)]
pub enum ExecFault {
    /// An earlier batch is unfinished. The batch comes back.
    #[error("an earlier batch is unfinished: resume it first")]
    Busy(Batch),
    /// With what is carried and the batch the log would have more than 2^48 transactions. The batch comes back.
    #[error("the log would have more than 2^48 transactions")]
    LogFull(Batch),
    /// The system refused a thread. The engine holds the batch.
    #[error("no thread: the engine holds the batch, which can be resumed")]
    Spawn,
    /// An allocation failed. The engine holds the batch.
    #[error("out of memory: the engine holds the batch, which can be resumed")]
    NoMemory,
}

/// The variant's name alone: a batch has no such form.
impl fmt::Debug for ExecFault {
    fn fmt<W: fmt::Write>(&self, f: &mut fmt::Formatter<W>) -> fmt::Result {
        f.write_str(match self {
            ExecFault::Busy(_) => "Busy",
            ExecFault::LogFull(_) => "LogFull",
            ExecFault::Spawn => "Spawn",
            ExecFault::NoMemory => "NoMemory",
        })
    }
}

impl From<Refusal> for ExecFault {
    ghost use Rattle.engine.specs.Executions.{fault_from};

    ghost from_gives = { λ refusal given. given ≡ fault_from refusal };

    fn from(refusal: Refusal) -> ExecFault {
        match refusal {
            Refusal::Thread => ExecFault::Spawn,
            Refusal::Memory => ExecFault::NoMemory,
        }
    }
}
