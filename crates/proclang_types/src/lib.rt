//! The procedure language's typed syntax: an operand cannot have a wrong type, a variable is its place in the scope,
//! and a table and a column are their places in the catalogue.
//!
//! Proved: syntax is well typed by its types, and a `Proc` keeps its variables, tables and columns in scope.
//! `Proc::over`: what fits tables fits all tables of the same columns, however they are split. Not proved: what `Cost`
//! says.
#![tactic(auto)]

mod cost;
mod expression;
mod operator;
mod procedure;
mod right;
mod statement;

pub use cost::Cost;
pub use expression::{BoolExpr, Expr, IntExpr, TextExpr, ValueExpr};
pub use operator::{Comparison, Equality, IntOperator};
pub use procedure::{Param, Proc};
pub use right::Right;
pub use statement::{FootprintEntry, ProcFootprint, Stmt};
