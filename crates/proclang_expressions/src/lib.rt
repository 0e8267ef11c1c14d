//! Reading the expressions of procedures, and what statements name: from a JSON document to typed syntax, or the first
//! fault and where it is.
//!
//! Proved: each function gives what the definitions say, or the fault with its path. `read_procs` of `proclang` uses
//! them.
#![tactic(auto)]

mod combine;
mod expr_context;
mod expressions;
mod fault;
mod limits;
mod names;
mod node;
mod path;
mod scope;
mod targets;
mod typed;
mod value_lists;

pub use expr_context::{DEEPEST, ExprContext};
pub use expressions::{read_expr, read_statement_expr};
pub use fault::{FaultKind, Places, ProcFault, fault_at};
pub use limits::{as_many, at_most};
pub use names::{check_name, read_column, read_table};
pub use path::Path;
pub use scope::{Declaration, Found, Scope};
pub use targets::{bind, read_loop_name, read_target};
pub use typed::{as_bool, as_int, as_value, paired};
pub use value_lists::{into_row, into_values, of_type, read_exprs, value_kind};
