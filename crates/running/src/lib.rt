//! Runs a log: from its bytes to the bytes of its report, whoever executes its batches; on one thread or on worker
//! threads that live as long as the run; and tells meanwhile how far the run is.
//!
//! Proved, by `run_log`, over any call that executes batches as the engine does, for devices that tell their bytes: if
//! it ends without a fault the log has none, all of it was read, its whole report was written, also of the batches
//! that close it, and its transactions are counted. A fault 31 to 35 is the log's first, with its line, and the report
//! of the batches before it was written. Where no device had failed before, 36 comes exactly where one has failed
//! meanwhile. 38 comes only where the call answered that a thread was refused. However it ends, what was written is a
//! beginning of the report, and no batch is read before the one before it is reported.
//!
//! A read that fails names the line that it failed in; a failed write and a refused thread name the last line of the
//! batch that was read last, or of the log at its end; 37 names that line, or within a batch the line last begun, or
//! 0.
//!
//! `run_text`, and `run_setup` and `run_engine` also for a log that is a feed, promise the same, except for the call
//! that 38 comes from; alone on one thread a run never ends with 38. At the end of a feed what was written are the
//! reports of the batches that had ended. After a whole run, and at the end of a feed, the engine holds no batch, and
//! its rows are those after the batches that are reported. A line of progress is that of a tally which its watcher
//! read, or a beginning of it.
//!
//! Tested only: the line of a failed write at each byte; that lines of progress come, the last one after the run; that
//! `run_text` uses workers and each job passes its gate once. Not proved: which line 37 names within a batch;
//! that 37 comes only if allocation fails, and that a refused thread is told as 38; that a run executes batches by the
//! call it is given.
#![tactic(auto)]

mod batch;
mod closing;
mod executing;
mod laws;
mod leaving;
mod log;
mod reading;
mod run_fault;
mod setup_runs;
mod telling;
mod transcript;

pub use batch::run_batch;
pub use closing::finish;
pub use executing::{engine_on, run_text};
pub use laws::engine_goes_on_as_the_serial_run;
pub use leaving::let_go;
pub use log::run_log;
pub use reading::{Ended, Reading};
pub use run_fault::RunFault;
pub use setup_runs::{RunOptions, run_engine, run_setup};
pub use telling::{Lines, lines_of};
pub use transcript::Transcript;
