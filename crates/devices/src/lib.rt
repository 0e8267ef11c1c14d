//! Byte devices: what bytes are read from, what they are written to, and the reader of lines.
//!
//! Proved: what a source gives and a sink takes; `write_all`; `LineReader`: lines, their numbers, whether the last one
//! has a newline, and where a fault is, byte by byte.
//!
//! Tested only: how often an interrupted call is tried again, and that another error is not.
#![tactic(auto)]

pub mod device;
pub mod laws;
pub mod line_reader;
pub mod read_source;
pub mod write_sink;

pub use device::{DeviceFailed, Sink, Source, write_all};
pub use laws::lines_are_cut_at_newlines;
pub use line_reader::{LineReadFault, LineReader};
pub use read_source::ReadSource;
pub use write_sink::WriteSink;
