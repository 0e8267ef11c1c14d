//! The process that the program runs in.

/// What the program is told of the process that it runs in.
#[derive(Clone, Copy, Debug)]
pub struct Process {
    /// Standard error is a terminal, so a line of progress may be written over the one before it.
    pub err_is_terminal: bool,
    /// The process ends once the program has, so the memory of the rows is left to the system.
    pub ends: bool,
}
