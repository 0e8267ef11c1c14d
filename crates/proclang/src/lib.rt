//! Reading procedures: from a JSON document to typed syntax, or the first fault and where it is.
//!
//! Proved, by `read_procs`: procedures that are read are what the document says, and what it says is read; the fault,
//! with its path, is the first rule that the document breaks; a document that is read breaks none, and one that breaks
//! none is read. Each name obeys the rule for names, and no name comes twice.
//!
//! Tested only: fault texts.
#![tactic(auto)]

pub mod laws;
mod procs;
mod read_block;
mod read_footprint;
mod read_params;
mod read_proc;
mod read_stmt;
mod typed_stmt;

pub use laws::one_list_of_procedures_is_said;
pub use proclang_expressions::{FaultKind, Places, ProcFault};
pub use proclang_types::{
    BoolExpr, Comparison, Equality, Expr, FootprintEntry, IntExpr, IntOperator, Param, Proc,
    ProcFootprint, Right, Stmt, TextExpr, ValueExpr,
};
pub use procs::read_procs;
pub use requests::{Procs, Request, RequestFault};
