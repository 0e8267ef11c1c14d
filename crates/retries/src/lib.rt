//! The serial run of batches one after another, where stale requests are tried again. The definitions are in
//! `specs/`; here are the laws that follow from them, each as the contract of a function.
//!
//! Proved: `nothing_is_left_at_the_end`, after all batches of a log without a fault nothing is carried;
//! `attempts_are_few`, a request has at most one attempt more than it may be tried again;
//! `stale_attempts_are_tried_again`, each stale attempt that may have another one has it in the next batch, and there
//! is a next batch; `first_attempt_is_never_stale`, of any batch; `numbers_are_few` and `batches_are_short`, how many
//! transactions a log and a batch have at most; `nothing_is_tried_again_without_retries`; `serial_run_is_one_run`;
//! `report_grows_batch_by_batch`; `a_log_goes_on_from_its_rows`, replies and rows of later batches are the same where
//! the rows after a batch are what a run starts from.
#![tactic(auto)]

mod laws;

pub use laws::{
    a_log_goes_on_from_its_rows, attempts_are_few, batches_are_short, batches_follow_one_another,
    first_attempt_is_never_stale, log_is_closed_after_its_batches, nothing_is_left_at_the_end,
    nothing_is_tried_again_without_retries, numbers_are_few, report_grows_batch_by_batch,
    serial_run_is_one_run, stale_attempts_are_tried_again,
};
