//! How far a transaction is.

/// How far an admitted transaction is.
#[derive(Clone, Copy, Debug, PartialEq, Eq)]
pub enum Phase {
    /// It is not out.
    Idle,
    /// It is out: it has the rows that its plan locks, and was not run.
    Out,
    /// It is out, and was run.
    Ran,
    Settled,
}
