//! What the program is asked to do.

use dispatcher::Settings;

/// Where the setup is that a command is for, and the rows in place of the setup's where others are given.
#[derive(Debug, Drop, PartialEq, Eq)]
pub struct Input {
    /// The path of the setup.
    pub setup: String,
    /// The path of a rows document.
    pub rows: Option<String>,
}

/// How a log is run.
#[derive(Clone, Copy, Debug, PartialEq, Eq)]
pub struct Running {
    /// On one thread, without workers.
    pub alone: bool,
    /// Standard error tells how far the run is.
    pub progress: bool,
    /// The log is a feed, which has no end.
    pub follow: bool,
}

/// Which rows are printed, and how.
#[derive(Debug, Drop, PartialEq, Eq)]
pub struct Listing {
    /// The name of the table whose rows these are; `None` for all tables.
    pub table: Option<String>,
    /// As a rows document, and not as row lines.
    pub document: bool,
}

/// What the program is asked to do.
#[derive(Debug, Drop, PartialEq, Eq)]
pub enum Command {
    /// Run the log and print its report.
    Run {
        input: Input,
        running: Running,
    },
    /// Run the log as `Run` does, and print the rows that it leaves.
    Rows {
        input: Input,
        running: Running,
        listing: Listing,
    },
    /// Copy the lines of the log that a run on the setup at this path would take.
    Filter {
        setup: String,
    },
    /// Print the plans of the log's first batch.
    Locks {
        input: Input,
    },
    /// Read the setup, and say how much it has.
    Check {
        input: Input,
    },
    /// Run the log, and compare the report with the file at this path. With `progress` standard error tells how far
    /// the run is.
    Replicas {
        input: Input,
        progress: bool,
        report: String,
    },
}

/// A command line that was read.
#[derive(Debug, Drop, PartialEq, Eq)]
pub struct Line {
    pub command: Command,
    pub settings: Settings,
}
