//! How a transaction ends.

use footprint::AbortCode;
use values::Value;

/// Why a run ended before its body's end.
#[derive(Clone, Copy, Debug, PartialEq, Eq)]
pub enum Ending {
    Abort(AbortCode),
    /// An access outside a footprint that reconnaissance found.
    Stale,
}

/// A transaction's outcome. Every outcome but `Commit` leaves the database as it was.
#[derive(Debug, Drop, PartialEq, Eq)]
pub enum Outcome {
    /// The values replied, at most 64.
    Commit(Vec<Value>),
    Abort(AbortCode),
    Stale,
}
