//! The rows of a database.
//!
//! Proved of `RowStore`, as a finite map of rows and the plans that are lent, by numbers: `new`, `apply`, `lend` and
//! `give_back` are exact, and rows that are lent count as they were lent. `lend` gives a loan with the store's rows at
//! the names that the plan locks; if allocation fails nothing changes. After `give_back`, which can't run out of
//! memory, names that the plan locks to write have the loan's rows, and every other name keeps its row. A store shows
//! the names that no lent plan locks to write; a loan shows those that its plan locks. `Loan::apply` makes all writes,
//! or none if allocation fails. `RowStore::rebuild`: the same rows over a catalogue that differs in splits alone.
//! `written_rows_are_lent_alone`: what a lent plan locks to write, neither the store shows nor another lent plan locks.
//!
//! Not proved: that rows under Read are shared in memory, that partitions under Write are moved and not copied, and how
//! many steps a call takes. Rows that are lent by their names stay in the store's memory, also under Write; that nobody
//! reads these there is proved, since the store doesn't show their names.
#![tactic(auto)]

mod by_name;
mod forgetting;
mod held;
mod laws;
mod lending;
mod loan;
mod locked;
mod moving;
mod named;
mod side_by_side;
mod store;
mod view;

pub use laws::{all_is_free_with_nothing_lent, locked_names_are_free_where_plans_are_apart};
pub use loan::Loan;
pub use store::RowStore;
