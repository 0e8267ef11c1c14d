//! The rows of a view as a rows document, in ASCII, from which a setup can start.
//!
//! Proved, by `document_text`: the text is the rows document of the rows, byte for byte. Laws:
//! `rows_are_read_as_written`, of rows of a catalogue's tables the document is JSON and says these rows in order, which
//! make the same database; `setup_starts_from_written_rows`, so a setup's text says with it the same and these rows.
//! That the rows which a log's run leaves are such rows is a law of `moved_rows`.
#![tactic(auto)]

mod document;
mod escaped;
mod laws;
mod listing;
mod rows;

pub use document::{document_text, table_document};
pub use laws::{rows_are_read_as_written, setup_starts_from_written_rows};
