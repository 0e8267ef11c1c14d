//! Why a call was not taken.

use crate::session::SessionFault;
use batch_log::LogFaultKind;
use thiserror::Error;

/// Why a call, or a cut that comes by itself, was not taken. Nothing has changed then, but where `Stopped` comes of a
/// cut.
#[derive(Clone, Copy, Debug, PartialEq, Eq, Error)]
pub enum CallFault {
    /// Nothing more is taken of the log.
    #[error(transparent)]
    Stopped(SessionFault),
    /// The beginning of a line was fed, and its end was not.
    #[error("a line is begun")]
    InLine,
    /// The line is no call that the setup takes (31 to 35), or allocation failed (37).
    #[error("fault {kind}", kind = *.0 as u8)]
    Line(LogFaultKind),
}
