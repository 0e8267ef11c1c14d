//! What a run reads and what it has of its own: the rows that it is shown, under a permit, and its own writes over
//! them.
//!
//! What is proved of a run is at the head of `interp`.
//!
//! Tested only: if allocation fails in a run, rows and entry are as they were, and the next run gives what it would
//! have given.
#![tactic(auto)]

mod accesses;
mod own;
mod permit;
mod rows;
mod scanning;
mod seen;
mod shown;
mod stop;
mod view;
mod walk;
mod workspace;

pub use accesses::Accesses;
pub use permit::{Passage, Permit, part_of};
pub use rows::{access, access_part, is_there, present_row};
pub use scanning::{count_in, keys_in, total_in};
pub use shown::Shown;
pub use stop::Stop;
pub use view::RowView;
pub use workspace::Workspace;
