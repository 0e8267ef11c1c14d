//! The catalogue of tables, and the reading of it and of values from documents.
//!
//! Proved, by `Catalogue::read`: a catalogue that is read is what its document says, and what the document says is
//! read; the fault is the first rule that it breaks; a document that is read breaks none, and one that breaks none is
//! read.
//!
//! `Catalogue::part_of`: key k of a table of P partitions by the remainder is in partition k mod P; in a table that is
//! split at bounds its partition is the number of bounds that are at most k. `Catalogue::has_same_schema`: whether two
//! catalogues differ in splits alone. Tables, columns, partitions and the values that documents say are exact.
//!
//! Tested only: fault texts.
#![tactic(auto)]

mod catalogue;
mod document;
mod fault;
pub mod laws;
mod reading;
mod said;
mod schema;
mod split;
mod split_form;
mod table;
mod version;

pub use catalogue::Catalogue;
pub use document::column_form;
pub use fault::CatalogueFault;
pub use laws::one_catalogue_is_said;
pub use said::{read_value, read_values};
