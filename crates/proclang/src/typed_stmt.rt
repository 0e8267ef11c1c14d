//! Statements whose parts are read, each of which is to be of the type that its place asks for.

ghost use Rattle.std.specs.Prelude.{◌≡◌, ◌<◌, length, map};
ghost use Rattle.documents.specs.Reading.{Reads};
ghost use Rattle.proclang_types.specs.Views.{stmt_view, stmts_view, expr_view};
ghost use Rattle.proclang_expressions.specs.Paths.{places};
ghost use Rattle.proclang_expressions.specs.Faults.{is_memory};
ghost use Rattle.proclang_expressions.specs.Values.{kinds_in};
ghost use Rattle.proclang.specs.StatementTypes.{typed_if, typed_for, typed_each, typed_put, typed_insert};

use catalogue::Catalogue;
use proclang_expressions::{Path, ProcFault, as_bool, as_int, as_value, into_row, of_type, paired};
use proclang_types::{Expr, Stmt};
use std::alloc::Global;
use values::{ColType, TableNo};

/// The test is a Bool.
pub(crate) fn if_statement(
    alloc: Global,
    test_path: &Path<'_>,
    test: Expr,
    first: Vec<Stmt>,
    second: Vec<Stmt>,
) -> Result<Stmt, ProcFault>
    ensures { Reads is_memory stmt_view result
        (typed_if (places test_path.now) (expr_view test) (stmts_view first.items) (stmts_view second.items)) }
{
    let test = as_bool(alloc, test_path, test)?;
    Ok(Stmt::If {
        test,
        first,
        second,
    })
}

/// Both bounds are Ints.
pub(crate) fn for_statement(
    alloc: Global,
    low_path: &Path<'_>,
    low: Expr,
    high_path: &Path<'_>,
    high: Expr,
    body: Vec<Stmt>,
) -> Result<Stmt, ProcFault>
    ensures { Reads is_memory stmt_view result
        (typed_for (places low_path.now) (expr_view low) (places high_path.now) (expr_view high)
        (stmts_view body.items)) }
{
    let (high, low) = paired(high, as_int(alloc, low_path, low))?;
    let (low, high) = paired(low, as_int(alloc, high_path, high))?;
    Ok(Stmt::For { low, high, body })
}

/// The number of the partition is an Int.
pub(crate) fn each_statement(
    alloc: Global,
    table: TableNo,
    part_path: &Path<'_>,
    part: Expr,
    body: Vec<Stmt>,
) -> Result<Stmt, ProcFault>
    ensures { Reads is_memory stmt_view result
        (typed_each table (places part_path.now) (expr_view part) (stmts_view body.items)) }
{
    let part = as_int(alloc, part_path, part)?;
    Ok(Stmt::Each { table, part, body })
}

/// The key is an Int, and the value of the column's type.
pub(crate) fn put_statement(
    alloc: Global,
    table: TableNo,
    key_path: &Path<'_>,
    key: Expr,
    column: usize,
    kind: ColType,
    value_path: &Path<'_>,
    value: Expr,
) -> Result<Stmt, ProcFault>
    ensures { Reads is_memory stmt_view result
        (typed_put table (places key_path.now) (expr_view key) column kind (places value_path.now) (expr_view value)) }
{
    let (value, key) = paired(value, as_int(alloc, key_path, key))?;
    let (key, value) = paired(key, as_value(alloc, value_path, value))?;
    let (key, value) = paired(key, of_type(alloc, value_path, kind, value))?;
    Ok(Stmt::Put {
        table,
        key,
        column,
        value,
    })
}

/// The key is an Int, and each value of its column's type.
pub(crate) fn insert_statement(
    alloc: Global,
    catalogue: &Catalogue,
    table: TableNo,
    key_path: &Path<'_>,
    key: Expr,
    values_path: &Path<'_>,
    values: Vec<Expr>,
) -> Result<Stmt, ProcFault>
    requires table { table < length catalogue.now }
    requires many { length values.items ≡ length (kinds_in catalogue.now table) }
    ensures { Reads is_memory stmt_view result
        (typed_insert table (kinds_in catalogue.now table) (places key_path.now) (expr_view key)
        (places values_path.now) (map expr_view values.items)) }
{
    let key = as_int(alloc, key_path, key)?;
    let values = into_row(alloc, catalogue, table, values_path, values)?;
    Ok(Stmt::Insert { table, key, values })
}
