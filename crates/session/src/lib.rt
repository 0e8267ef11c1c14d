//! A run of a log that is fed piece by piece, on the thread that calls it, and whose report is taken piece by piece,
//! and its replies and rows as values.
//!
//! Proved, by `Session::feed`, `end` and `drain`, whatever the pieces: each batch that ends in what was fed was
//! executed, and what was drained and what waits are together the texts of these batches and of no others; after `end`
//! they are the report of the whole log, which has no fault, and its transactions are counted. A fault 31 to 35 is the
//! first of each log that begins with what was fed, and all was reported before it; else allocation failed (37), and
//! what was reported is a beginning of the report. After a fault each call answers it again, after the end that the log
//! is over, and changes nothing; what waits to be drained waits still. `call`: a line is taken exactly where the run
//! has not stopped, no line is begun, and it is a call that the setup takes and has room for; else the answer is the
//! first of these that fails, and nothing changes. `test`: what `call` would answer. `cut`: as if the line of a cut
//! were fed, where no line is begun.
//!
//! `keep_replies`, `next_reply`: from there on the replies of each batch wait that is executed; those that were handed
//! out and those that wait are together the replies of these batches, in the order of the log, each once, and after
//! `end` those of the whole log. A fault leaves those that waited. `row`, `next_row`, `digest`, `rows_document`: rows
//! by their keys, their digest and their document are exact, over the rows that the batches which were executed have
//! left, and after `end` over those that the log leaves; `carried`: how many requests these batches carry on. After a
//! fault nothing is told of rows.
//!
//! Tested only, by `scripts/static_library.sh`: the stored cases of a log in pieces of 1, 7 and 4096 bytes, and single
//! calls. Not proved: the line that 37 names, and that it comes only if allocation fails; so too `RowsFault::NoMemory`.
#![tactic(auto)]

mod call;
mod pieces;
mod replies;
mod report;
mod rows;
mod session;
mod work;

pub use call::CallFault;
pub use pieces::Pieces;
pub use replies::Reply;
pub use rows::RowsFault;
pub use session::{Session, SessionFault};
