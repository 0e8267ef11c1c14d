//! Setup documents: catalogue, procedures and starting rows, how often a stale request is tried again, and of which
//! text of the rows digests are.
//!
//! Proved, by `read_setup` and `read_rows`: what is read is what the text says, and what it says is read; the fault is
//! that of the first rule that is broken, all before it being well formed; a text that is read breaks none, and one
//! that breaks none is read. `read_setup_with_rows`: the same of a setup's text and of a rows' text, whose document is
//! in place of the setup's own rows. `row_faults_are_told_apart`: each fault of a row by what is wrong with the row.
//!
//! Tested only: fault texts.
#![tactic(auto)]

mod by_tokens;
mod document;
mod fault;
mod form;
mod laws;
mod names;
mod reading;
mod rows;
mod rows_by_tokens;

pub use document::SetupDocument;
pub use fault::SetupFault;
pub use laws::{one_setup_is_said, row_faults_are_told_apart};
pub use reading::{read_setup, read_setup_with_rows};
pub use requests::Setup;
pub use row_text::DigestForm;
pub use rows::read_rows;
