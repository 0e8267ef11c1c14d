//! Why a log was not run to its end.

ghost use Rattle.std.specs.Prelude.{◌≡◌};

use batch_log::{LogFault, LogFaultKind};
use thiserror::Error;

/// What ended a run, and at which line of the log.
#[derive(Clone, Copy, Debug, PartialEq, Eq, Error)]
pub enum RunFault {
    /// A fault of a line, of a device or of memory, at its line.
    #[error(transparent)]
    Log(LogFault),
    /// A thread was refused; the line is the last one read.
    #[error("fault 38 line {line}")]
    Spawn { line: u64 },
}

impl RunFault {
    /// The fault of that kind at that line.
    pub fn at(kind: LogFaultKind, line: u64) -> RunFault
        ensures { result ≡ RunFault.Log (record { kind = kind; line = line }) }
    {
        RunFault::Log(LogFault { kind, line })
    }
}
