//! Resources and their tree, rights, and footprints: what a transaction may read and write.
//!
//! Proved: `covers`, `declared`, `iter`, `search` and `compute` are exact. Laws: a quotient is rounded towards 0; a
//! range has the keys from its least to its greatest; `stand_in_never_shows`: a procedure that fits its tables declares
//! the same whatever is taken for a parameter that isn't there.
#![tactic(auto)]

mod abort_code;
mod arithmetic;
mod declare;
mod footprint;
mod grant;
mod iter;
mod laws;
mod resource;
mod storage;
mod tree_order;

pub use abort_code::AbortCode;
pub use arithmetic::compute;
pub use declare::declared;
pub use footprint::Footprint;
pub use iter::Iter;
pub use laws::{
    keys_go_from_low_to_high, quotients_are_rounded_towards_zero, stand_in_never_shows,
    stands_in_tree_order,
};
pub use proclang_types::Right;
pub use resource::{InPart, InTable, Resource};
pub use tree_order::search;
