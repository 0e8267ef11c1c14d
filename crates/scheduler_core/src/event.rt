//! The core's events, and what is answered to one.

/// An event of the core, with the number of its transaction.
#[derive(Clone, Copy, Debug, PartialEq, Eq)]
pub enum Event {
    /// The next transaction of the log is admitted: its lock requests are made.
    Admit,
    /// The rows that its plan locks are lent to a transaction.
    Lend(u64),
    /// A transaction that has its rows is run on them.
    Run(u64),
    /// A transaction that was run gives its rows back, and its lock requests go.
    Settle(u64),
}

/// What is answered to an event.
#[derive(Clone, Copy, Debug, PartialEq, Eq)]
pub enum StepAnswer {
    /// The event was enabled, and is made.
    Made,
    /// The event is not enabled. Nothing has changed.
    Refused,
    /// Allocation failed. Nothing has changed.
    NoMemory,
}
