//! Why a log was not read on.

ghost use Rattle.std.specs.Prelude.{◌≡◌};
ghost use Rattle.batch_log.specs.Faults.{device_fault};

use devices::LineReadFault;
use thiserror::Error;

/// The rule that a line of a log breaks, or what failed while it was read. Each has the number that it is reported by.
#[derive(Clone, Copy, Debug, PartialEq, Eq, Error)]
pub enum LogFaultKind {
    /// The line is no JSON text.
    #[error("the line is no JSON text")]
    NotJson = 31,
    /// The line is neither a call nor a cut.
    #[error("the line is neither a call nor a cut")]
    Shape = 32,
    /// No procedure has the name.
    #[error("no procedure has that name")]
    UnknownProc = 33,
    /// The values are not one a parameter, of the parameter's type; a text has at most 64 bytes.
    #[error("the values are not one for each parameter, of the parameter's type")]
    Args = 34,
    /// The call is the batch's 4,097th, or there are as many before it as a log may have: 2^48, and 2^46 where stale
    /// requests are tried again.
    #[error("the batch or the log has more calls than it may have")]
    BatchTooLong = 35,
    /// A device failed.
    #[error("a device failed")]
    Io = 36,
    /// The system refused memory.
    #[error("out of memory")]
    Memory = 37,
}

/// A fault with the number of its line, from 1; 0 where none is begun.
#[derive(Clone, Copy, Debug, PartialEq, Eq, Error)]
#[error("fault {kind} line {line}", kind = *.kind as u8)]
pub struct LogFault {
    pub kind: LogFaultKind,
    pub line: u64,
}

/// The fault of a log whose lines were not read on.
pub(crate) fn device_fault(fault: LineReadFault) -> LogFault
    ensures { result ≡ device_fault fault }
{
    match fault {
        LineReadFault::Io { line } => LogFault {
            kind: LogFaultKind::Io,
            line,
        },
        LineReadFault::Memory { line } => LogFault {
            kind: LogFaultKind::Memory,
            line,
        },
    }
}
