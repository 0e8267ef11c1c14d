//! The text of rows: values, row lines and partition lines, and their digests; and of a view the row lines of a table
//! or of all, and the digest of all rows, in either form.
//!
//! Proved: values, row lines, partition lines and SHA-256 digests (FIPS 180-4) are exact. `rows_text`, `table_text`:
//! the row text of a view, and the row lines of one table. `rows_digest`: from any view that shows every name, the
//! digest of the row text, in the order of tables and keys, or of the partition text. Laws: the row text of a database
//! doesn't depend on how keys are split; where each row is of one of the tables, it has a line for each row, and
//! fitting calls leave such rows; `partition_line_is_of_its_rows`; `partition_text_tells_each_digest`, of two databases
//! with equal partition texts each partition has rows in both or in neither, and row lines of equal digests.
//!
//! Not proved: that the rows of a run are of the catalogue's tables is such a law, and no clause of `run_text`.
#![tactic(auto)]

mod by_form;
mod digest;
mod feed;
mod form;
mod gathered;
mod kept;
mod laws;
mod lines;
mod listing;
mod partitions;
mod room;
mod rows_in_order;
mod scratch;
mod side_by_side;
mod values_text;
mod words;

pub use by_form::{kept_rows_digest, rows_digest};
pub use digest::{digest_of, digest_text, push_table_name, row_line};
pub use form::DigestForm;
pub use gathered::rows_of_table;
pub use kept::KeptDigests;
pub use laws::{
    every_row_has_its_line, every_row_left_by_calls_has_its_line, partition_line_is_of_its_rows,
    partition_text_tells_each_digest, row_text_depends_on_no_split,
};
pub use listing::{rows_text, table_text};
pub use side_by_side::keep_digests;
pub use values_text::{push_value, push_values};
