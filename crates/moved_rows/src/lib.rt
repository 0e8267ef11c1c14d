//! The rows that a log's run leaves are rows of the setup's tables, and a run can go on from their document. Nothing
//! depends on this crate: a law here makes no crate be checked anew.
//!
//! Proved: `rows_of_a_run_are_of_the_tables`, from the setup that texts say, of any log, at its end and after each of
//! its batches; `a_run_goes_on_from_written_rows`, with the document of these rows the setup's text says a setup, from
//! which later batches have the same replies and leave the same rows; `a_log_goes_on_after_a_cut`, of a log's text in
//! two; `a_second_run_goes_on_with_the_log`, of any start that the setup's text and the rows document of a cut say;
//! `one_setup_has_one_run`, in whatever way the code keeps its procedures. What they rest on:
//! `calls_leave_rows_of_the_tables`, `said_setups_have_rows_of_their_tables`, `said_calls_are_of_the_tables`,
//! `documents_start_their_setups`, of what `read_setup` gives, and `one_setup_is_said_with_rows`, of two texts.
#![tactic(auto)]

mod laws;

pub use laws::{
    a_log_goes_on_after_a_cut, a_run_goes_on_from_written_rows, a_second_run_goes_on_with_the_log,
    calls_leave_rows_of_the_tables, documents_start_their_setups, one_setup_has_one_run,
    one_setup_is_said_with_rows, rows_of_a_run_are_of_the_tables, said_calls_are_of_the_tables,
    said_setups_have_rows_of_their_tables,
};
