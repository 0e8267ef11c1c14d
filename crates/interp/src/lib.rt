//! Running an entry: its outcome and its writes, on whatever view shows what it may read. And reconnaissance, which
//! finds the footprint of an entry.
//!
//! Proved, by `run`: on every database that agrees with a view on what the entry may read, the outcome and the writes
//! are the entry's meaning; a view is asked for no other row; each write is of a name that the entry may write; without
//! a commit there is none; on rows of the columns' types nothing depends on what is taken for a variable or a column
//! that isn't there. `recon`: the footprint of all accesses of the body's run on the view, each with its greatest
//! right, and what the laws of `meaning` say of it. Both run one interpreter, and differ only in what happens at an
//! access.
//!
//! Tested only: if allocation fails in a run, rows and entry are as they were, and the next run gives what it would
//! have given.
#![tactic(auto)]

mod block;
mod body;
mod effect;
mod entry;
mod expression;
mod loop_numbers;
mod reconnaissance;
mod row_statement;
mod runs;
mod statement;
mod truth;

pub use effect::Effect;
pub use entry::{Entry, Footing};
pub use reconnaissance::recon;
pub use runs::run;
pub use workspace::RowView;
