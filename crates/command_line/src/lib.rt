//! The command line of the program: what its words ask for, and with which settings.
//!
//! Proved, by `read_line`: the command, its paths, and each option its own setting, in its range; no line that could be
//! asked for is refused.
//!
//! Tested only: the texts of `clap`.
#![tactic(auto)]

mod command;
mod help;
pub mod line;
mod parser;

pub use command::{Command, Input, Line, Listing, Running};
pub use line::{LineFault, read_line};
