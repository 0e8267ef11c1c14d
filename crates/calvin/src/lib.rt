//! The executor: the engine that runs batches of calls, and the program over it.
//!
//! Proved, by `command` and `program`: `run` and `replicas` do what `run_text` does on the setup at the path, with the
//! rows of another file in place of its own where one is given, and end with its status, also with `--progress` and
//! with `--alone`, which never ends with 38; `replicas` writes where report and other text first differ. `run --follow`
//! writes the reports of the batches that a cut ends, and no end line, and ends with 6. `rows` writes the rows that the
//! log leaves, and of a feed those after its last cut, as row lines or as a rows document. `filter` does what
//! `filter_log` does, and ends with 0 where each line was copied, with 1 where one was not, else with the status of the
//! device or of memory. `locks`, for devices that tell their bytes, writes the plans of the log's first batch, in order
//! and numbered from 0, each for what the call declares or reconnaissance finds on the starting rows, and for nothing
//! where its declaration faults; a fault before that batch ends gives its status and no plan; if a write fails a
//! beginning was written; it reads the lines of these calls, at most one more, and at most 4,096 bytes ahead. `check`
//! writes how many tables, procedures and rows the setup has. Without a setup no log is read and nothing written. Law:
//! the entries of a batch have one text of their plans.
//!
//! Tested only: standard error; that `locks` ends once the first batch has come, on a log that stays open. Not proved:
//! that status 3 comes only if allocation fails.
#![tactic(auto)]

mod checking;
mod commands;
mod comparison;
mod feeds;
mod files;
mod filtering;
mod inputs;
mod laws;
mod listing;
mod locks;
mod process;
mod programs;
mod replicas;
mod reporting;
mod status;

pub use batch_log::{
    DeviceFailed, LogFault, LogFaultKind, LogReader, ReadSource, Sink, Source, WriteSink,
};
pub use command_line::{Command, Input, Line, LineFault, Listing, Running, read_line};
pub use commands::command;
pub use engine::{
    BadSetting, Batch, BatchDone, BatchFault, Engine, ExecFault, Gate, Item, OpenGate, RepartFault,
    Reply, Settings, Tally, Watcher,
};
pub use files::{FileFault, Files};
pub use laws::plans_have_one_text;
pub use process::Process;
pub use programs::program;
pub use running::{RunFault, run_text};
pub use setup::{DigestForm, Setup, SetupDocument, SetupFault, read_setup};
