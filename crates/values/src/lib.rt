//! Values, rows, and the names that rows have.
//!
//! Proved: keys, names, values and rows are exact, by the contract of each function.
#![tactic(auto)]

mod key;
mod kinds;
mod laws;
mod memory;
mod name;
mod name_rule;
mod row;
mod text;
mod value;

pub use key::Key;
pub use kinds::is_kind;
pub use laws::names_stand_in_order;
pub use memory::NoMemory;
pub use name::{RowName, TableNo};
pub use name_rule::is_name;
pub use row::Row;
pub use text::Text;
pub use value::{ColType, Value};
