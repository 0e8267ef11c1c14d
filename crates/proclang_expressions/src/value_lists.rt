//! Reading lists of expressions, and the values that they give.

ghost use Rattle.std.specs.Prelude.{◌≡◌, ◌≤◌, ◌<◌, Some, IfOk, length, map, slice_get};
ghost use Rattle.serde_json.specs.View.{view};
ghost use Rattle.documents.specs.Reading.{Reads};
ghost use Rattle.proclang_types.specs.Typing.{kind_of};
ghost use Rattle.proclang_types.specs.Views.{expr_view, value_view};
ghost use Rattle.proclang_expressions.specs.Paths.{places};
ghost use Rattle.proclang_expressions.specs.Faults.{is_memory};
ghost use Rattle.proclang_expressions.specs.Values.{of_type, exprs_at, stored_at, kinds_in, row_values_at, values_at};

use crate::expressions::read_statement_expr;
use crate::fault::{FaultKind, ProcFault, fault_at};
use crate::path::Path;
use crate::scope::Scope;
use crate::typed::as_value;
use catalogue::Catalogue;
use proclang_types::{Expr, ValueExpr};
use serde_json::Value;
use std::alloc::Global;
use values::{ColType, TableNo};

/// Expressions, the first at the place that is given, which is 0 or 1.
pub fn read_exprs(
    alloc: Global,
    catalogue: &Catalogue,
    scope: &Scope,
    path: &Path<'_>,
    first: usize,
    values: &[Value],
) -> Result<Vec<Expr>, ProcFault>
    requires { first ≤ 1 }
    ensures exact { Reads is_memory (λ v. map expr_view v.items) result
        (exprs_at catalogue.now (places path.now) first scope.now (map view values.now)) }
    ensures many { IfOk result (λ v. length v.items ≡ length values.now) }
{
    let mut exprs = Vec::new(alloc);
    for (index, value) in values.iter().enumerate() {
        let place = Path::Element(&*path, first + index);
        let expr = read_statement_expr(alloc, catalogue, scope, &place, value)?;
        exprs.push(expr)?;
    }
    Ok(exprs)
}

/// The expressions as values, which are at the places from 1 on.
pub fn into_values(
    alloc: Global,
    path: &Path<'_>,
    exprs: Vec<Expr>,
) -> Result<Vec<ValueExpr>, ProcFault>
    ensures { Reads is_memory (λ v.
        map value_view v.items) result (values_at (places path.now) (map expr_view exprs.items)) }
{
    let mut values = Vec::new(alloc);
    for (index, expr) in exprs.into_iter().enumerate() {
        let value = as_value(alloc, &Path::Element(&*path, index + 1), expr)?;
        values.push(value)?;
    }
    Ok(values)
}

/// A value of the type that is asked for.
pub fn of_type(
    alloc: Global,
    path: &Path<'_>,
    kind: ColType,
    value: ValueExpr,
) -> Result<ValueExpr, ProcFault>
    ensures { Reads is_memory value_view result (of_type (places path.now) kind (value_view value)) }
{
    if value_kind(&value) != kind {
        return Err(fault_at(alloc, FaultKind::TypeMismatch, path));
    }
    Ok(value)
}

/// The type of the value that an expression gives.
pub fn value_kind(value: &ValueExpr) -> ColType
    ensures { result ≡ kind_of (value_view value.now) }
{
    match value {
        ValueExpr::Int(_) => ColType::Int,
        ValueExpr::Text(_) => ColType::Text,
    }
}

fn as_stored(
    alloc: Global,
    path: &Path<'_>,
    kind: ColType,
    expr: Expr,
) -> Result<ValueExpr, ProcFault>
    ensures { Reads is_memory value_view result (stored_at (places path.now) kind (expr_view expr)) }
{
    let value = as_value(alloc, path, expr)?;
    of_type(alloc, path, kind, value)
}

/// The type of a table's column.
#[tactic(auto, using(crate::proofs::Columns::kind_in, crate::proofs::Columns::kind_there))]
fn column_kind(catalogue: &Catalogue, table: TableNo, column: usize) -> ColType
    requires table { table < length catalogue.now }
    requires column { column < length (kinds_in catalogue.now table) }
    ensures { slice_get (kinds_in catalogue.now table) column ≡ Some result }
{
    match catalogue.column_type(table, column) {
        Some(kind) => kind,
        None => unreachable!(),
    }
}

/// The expressions as the values of a row of the table, one for each column, which are at the places from 0 on.
#[tactic(auto, using(crate::proofs::Columns::row_goes_on, crate::proofs::Columns::row_stops))]
pub fn into_row(
    alloc: Global,
    catalogue: &Catalogue,
    table: TableNo,
    path: &Path<'_>,
    exprs: Vec<Expr>,
) -> Result<Vec<ValueExpr>, ProcFault>
    requires table { table < length catalogue.now }
    requires many { length exprs.items ≡ length (kinds_in catalogue.now table) }
    ensures { Reads is_memory (λ v. map value_view v.items) result
        (row_values_at (places path.now) (kinds_in catalogue.now table) (map expr_view exprs.items)) }
{
    let mut values = Vec::new(alloc);
    for (index, expr) in exprs.into_iter().enumerate() {
        let kind = column_kind(catalogue, table, index);
        let value = as_stored(alloc, &Path::Element(&*path, index), kind, expr)?;
        values.push(value)?;
    }
    Ok(values)
}
