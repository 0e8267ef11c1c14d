//! The five modes of a lock request on a resource of the tree.
//!
//! Proved: `compatible`, `join` and `of_rights` are those of the five modes as pairs of rights. Laws: `compatible` is
//! symmetric, `join` is the least upper bound, and ranks say of rights what footprints say.
//!
//! Tested only: printed modes.
#![tactic(auto)]

mod compatibility;
mod laws;
mod mode;

pub use compatibility::{compatible, join};
pub use laws::{join_is_least_upper_bound, modes_are_pairs_of_rights, rights_by_rank};
pub use mode::{Mode, of_rights};
