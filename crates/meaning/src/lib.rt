//! What an entry means: its outcome on a database, and the database that it leaves. The definitions are in `specs/`;
//! here are the types that they speak of, and the laws that follow from them, each as the contract of a function.
//!
//! Proved, by `stays_in_footprint`, the frame law: from databases that agree on what an entry may read it has one
//! outcome and one effect, and it changes no row name that it may not write. `stand_in_never_shows`: a fitting call, on
//! rows of the columns' types, means the same whatever is taken for a variable or a column that isn't there, and leaves
//! rows of the columns' types. `operands_come_first`: the parts of all statements fail in one order.
//!
//! Of reconnaissance: `footprint_has_greatest_rights` and `access_adds_its_right`, its footprint has each resource that
//! was accessed with its greatest right, and nothing else; `found_entry_is_not_stale`, on every database that agrees on
//! the found footprint with the one that was read; `each_access_is_needed`, on the database read the entry is stale
//! where its footprint leaves out one of the accesses; `found_footprint_is_of_tables`; `stand_in_is_never_found`.
#![tactic(auto)]

mod laws;
mod outcome;

pub use laws::{
    access_adds_its_right, each_access_is_needed, footprint_has_greatest_rights,
    found_entry_is_not_stale, found_footprint_is_of_tables, numbers_go_from_low_to_high,
    operands_come_first, stand_in_is_never_found, stand_in_never_shows, stays_in_footprint,
};
pub use outcome::{Ending, Outcome};
