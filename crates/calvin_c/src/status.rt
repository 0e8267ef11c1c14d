//! What a call answers, as the exit statuses of the program where there is one.

ghost use Rattle.std.specs.Prelude.{◌≡◌};
ghost use Rattle.calvin_c.specs.Openings.{setup_status};
ghost use Rattle.calvin_c.specs.Statuses.{call_status, fault_number, kind_status, line_status, rows_status, session_status, taken_status};

use batch_log::LogFaultKind;
use session::{CallFault, RowsFault, SessionFault};
use setup::SetupFault;

/// It was done.
pub(crate) const DONE: i32 = 0;
/// The setup or the log breaks a rule.
pub(crate) const REFUSED: i32 = 1;
/// A setting is outside its range, the log has ended, or a line is begun.
pub(crate) const MISUSED: i32 = 2;
/// An allocation failed.
pub(crate) const NO_MEMORY: i32 = 3;
/// There is no such reply or row.
pub(crate) const NONE: i32 = 4;
/// The setup has no such table.
pub(crate) const NO_TABLE: i32 = 5;

/// The status of a setup that was not read.
pub(crate) fn setup_status(fault: &SetupFault) -> i32
    ensures { result ≡ setup_status fault.now }
{
    if fault.is_memory() {
        NO_MEMORY
    } else {
        REFUSED
    }
}

/// The number of a fault of the log.
pub(crate) fn fault_number(kind: LogFaultKind) -> i32
    ensures { result ≡ fault_number kind }
{
    match kind {
        LogFaultKind::NotJson => 31,
        LogFaultKind::Shape => 32,
        LogFaultKind::UnknownProc => 33,
        LogFaultKind::Args => 34,
        LogFaultKind::BatchTooLong => 35,
        LogFaultKind::Io => 36,
        LogFaultKind::Memory => 37,
    }
}

/// The status of a fault of the log.
fn kind_status(kind: LogFaultKind) -> i32
    ensures { result ≡ kind_status kind }
{
    match kind {
        LogFaultKind::Memory => NO_MEMORY,
        _ => REFUSED,
    }
}

/// The status of a call that took nothing, or not all.
pub(crate) fn session_status(fault: SessionFault) -> i32
    ensures { result ≡ session_status fault }
{
    match fault {
        SessionFault::Over => MISUSED,
        SessionFault::Log(fault) => kind_status(fault.kind),
    }
}

/// The status of a line that has a fault, which is its number.
fn line_status(kind: LogFaultKind) -> i32
    ensures { result ≡ line_status kind }
{
    match kind {
        LogFaultKind::Memory => NO_MEMORY,
        _ => fault_number(kind),
    }
}

/// The status of a call or a cut that was not taken.
pub(crate) fn call_status(fault: CallFault) -> i32
    ensures { result ≡ call_status fault }
{
    match fault {
        CallFault::Stopped(fault) => session_status(fault),
        CallFault::InLine => MISUSED,
        CallFault::Line(kind) => line_status(kind),
    }
}

/// The status of a line or a cut that was taken, or was not.
pub(crate) fn taken_status(taken: Result<(), CallFault>) -> i32
    ensures { result ≡ taken_status taken }
{
    match taken {
        Ok(()) => DONE,
        Err(fault) => call_status(fault),
    }
}

/// The status where nothing is told of the rows.
pub(crate) fn rows_status(fault: RowsFault) -> i32
    ensures { result ≡ rows_status fault }
{
    match fault {
        RowsFault::Stopped(fault) => kind_status(fault.kind),
        RowsFault::NoTable => NO_TABLE,
        RowsFault::NoMemory(_) => NO_MEMORY,
    }
}
