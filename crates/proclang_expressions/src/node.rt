//! Expressions over smaller ones, which get memory of their own.

ghost use Rattle.std.specs.Prelude.{Ok};
ghost use Rattle.documents.specs.Reading.{Reads};
ghost use Rattle.proclang_types.specs.Syntax.{binary, count_rows, sum_column, both, either, negated, int, bool};
ghost use Rattle.proclang_types.specs.Views.{int_view, bool_view, expr_view};
ghost use Rattle.proclang_expressions.specs.Faults.{is_memory};

use crate::fault::ProcFault;
use proclang_types::{BoolExpr, Expr, IntExpr, IntOperator};
use std::alloc::Global;
use values::TableNo;

pub(crate) fn calculation(
    alloc: Global,
    operator: IntOperator,
    left: IntExpr,
    right: IntExpr,
) -> Result<Expr, ProcFault>
    ensures { Reads is_memory expr_view result (Ok (int (binary operator (int_view left) (int_view right)))) }
{
    let left = Box::new(alloc, left)?;
    let right = Box::new(alloc, right)?;
    Ok(Expr::Int(IntExpr::Binary(operator, left, right)))
}

/// The number of rows of a partition.
pub(crate) fn count(alloc: Global, table: TableNo, part: IntExpr) -> Result<Expr, ProcFault>
    ensures { Reads is_memory expr_view result (Ok (int (count_rows table (int_view part)))) }
{
    let part = Box::new(alloc, part)?;
    Ok(Expr::Int(IntExpr::Count { table, part }))
}

/// The total of a column over the rows of a partition.
pub(crate) fn sum(
    alloc: Global,
    table: TableNo,
    part: IntExpr,
    column: usize,
) -> Result<Expr, ProcFault>
    ensures { Reads is_memory expr_view result (Ok (int (sum_column table (int_view part) column))) }
{
    let part = Box::new(alloc, part)?;
    Ok(Expr::Int(IntExpr::Sum {
        table,
        part,
        column,
    }))
}

pub(crate) fn conjunction(alloc: Global, left: BoolExpr, right: BoolExpr) -> Result<Expr, ProcFault>
    ensures { Reads is_memory expr_view result (Ok (bool (both (bool_view left) (bool_view right)))) }
{
    let left = Box::new(alloc, left)?;
    let right = Box::new(alloc, right)?;
    Ok(Expr::Bool(BoolExpr::And(left, right)))
}

pub(crate) fn disjunction(alloc: Global, left: BoolExpr, right: BoolExpr) -> Result<Expr, ProcFault>
    ensures { Reads is_memory expr_view result (Ok (bool (either (bool_view left) (bool_view right)))) }
{
    let left = Box::new(alloc, left)?;
    let right = Box::new(alloc, right)?;
    Ok(Expr::Bool(BoolExpr::Or(left, right)))
}

pub(crate) fn negation(alloc: Global, part: BoolExpr) -> Result<Expr, ProcFault>
    ensures { Reads is_memory expr_view result (Ok (bool (negated (bool_view part)))) }
{
    Ok(Expr::Bool(BoolExpr::Not(Box::new(alloc, part)?)))
}
