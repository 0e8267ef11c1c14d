//! Expressions of the types that are asked for.

ghost use Rattle.std.specs.Prelude.{◌≡◌, Ok, Err, IfOk, IfErr};
ghost use Rattle.documents.specs.Reading.{Reads};
ghost use Rattle.proclang_types.specs.Views.{int_view, text_view, bool_view, value_view, expr_view};
ghost use Rattle.proclang_expressions.specs.Paths.{places};
ghost use Rattle.proclang_expressions.specs.Faults.{is_memory};
ghost use Rattle.proclang_expressions.specs.Expressions.{as_int, as_text, as_bool, as_value};

use crate::fault::{FaultKind, ProcFault, fault_at};
use crate::path::Path;
use proclang_types::{BoolExpr, Expr, IntExpr, TextExpr, ValueExpr};
use std::alloc::Global;

/// The expression, if it gives a number; else the fault `TypeMismatch` at the path.
pub fn as_int(alloc: Global, path: &Path<'_>, expr: Expr) -> Result<IntExpr, ProcFault>
    ensures { Reads is_memory int_view result (as_int (places path.now) (expr_view expr)) }
{
    match expr {
        Expr::Int(expr) => Ok(expr),
        _ => Err(fault_at(alloc, FaultKind::TypeMismatch, path)),
    }
}

pub(crate) fn as_text(alloc: Global, path: &Path<'_>, expr: Expr) -> Result<TextExpr, ProcFault>
    ensures { Reads is_memory text_view result (as_text (places path.now) (expr_view expr)) }
{
    match expr {
        Expr::Text(expr) => Ok(expr),
        _ => Err(fault_at(alloc, FaultKind::TypeMismatch, path)),
    }
}

/// The expression, if it gives true or false; else the fault `TypeMismatch` at the path.
pub fn as_bool(alloc: Global, path: &Path<'_>, expr: Expr) -> Result<BoolExpr, ProcFault>
    ensures { Reads is_memory bool_view result (as_bool (places path.now) (expr_view expr)) }
{
    match expr {
        Expr::Bool(expr) => Ok(expr),
        _ => Err(fault_at(alloc, FaultKind::TypeMismatch, path)),
    }
}

/// The expression, if it gives a number or a text; else the fault `TypeMismatch` at the path.
pub fn as_value(alloc: Global, path: &Path<'_>, expr: Expr) -> Result<ValueExpr, ProcFault>
    ensures { Reads is_memory value_view result (as_value (places path.now) (expr_view expr)) }
{
    match expr {
        Expr::Int(expr) => Ok(ValueExpr::Int(expr)),
        Expr::Text(expr) => Ok(ValueExpr::Text(expr)),
        Expr::Bool(_) => Err(fault_at(alloc, FaultKind::TypeMismatch, path)),
    }
}

/// What was read earlier, and what is read now. What was read earlier is let go here where this fails.
pub fn paired<T: Drop, U>(earlier: T, read: Result<U, ProcFault>) -> Result<(T, U), ProcFault>
    ensures read { IfOk result (λ p. (p.0 ≡ earlier) × (read ≡ Ok p.1)) }
    ensures fault { IfErr result (λ e. read ≡ Err e) }
{
    match read {
        Ok(later) => Ok((earlier, later)),
        Err(fault) => Err(fault),
    }
}
