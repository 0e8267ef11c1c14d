//! The text form of a log: what its lines say, the reader of its batches, the feed of a log that comes piece by piece,
//! and the copying of the lines that may go into a log.
//!
//! Proved, by `LogReader::next_batch`: the next of any number of batches, or the log's first fault with its line; no
//! byte is taken after the line that ends the batch or has the fault, and where a read fails no whole line with a fault
//! was taken; after a fault the same fault, and the source isn't read again. `lines_are_exact`: what is read of a line
//! is what it says, what it says is read, and its fault is the first rule that it breaks.
//!
//! `filter_log`: it writes the lines that say a call or a cut, in order and byte for byte, and tells whether these are
//! all; however it ends, a beginning of them. `filtered_has_no_fault`: a run of these has no fault 31 to 34.
//! `LogFeed::call`: a line is taken exactly where it is a call for which there is room; else the answer is the first
//! rule that it breaks, and nothing changes; `test`: what `call` would answer. `LogFeed::take` and `end`, over all
//! bytes so far: a batch comes out with the byte that ends its cut, or at the end; a fault 31 to 35 is the first of
//! each log that begins so, with its line; after the end all batches came out, and the log has no fault. Any other
//! fault is a failed allocation.
//!
//! Not proved: the line that 37 names in `LogFeed`; what `filter_log` says on standard error, and its line of 36 or 37.
#![tactic(auto)]

mod batch;
mod call;
mod fault;
mod feed;
mod filter;
mod form;
mod laws;
mod line;
mod plain_line;
mod reader;
mod saying;

pub use devices::{DeviceFailed, ReadSource, Sink, Source, WriteSink, write_all};
pub use fault::{LogFault, LogFaultKind};
pub use feed::LogFeed;
pub use filter::filter_log;
pub use laws::{
    batches_end_at_cuts, filtered_has_no_fault, lines_are_exact, whole_lines_are_the_lines,
};
pub use line::{LogLine, read_log_line};
pub use reader::LogReader;
pub use saying::say;
