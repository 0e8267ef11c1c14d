//! Reading statements that hold no blocks.

ghost use Rattle.std.specs.Prelude.{map};
ghost use Rattle.serde_json.specs.View.{view};
ghost use Rattle.documents.specs.Reading.{Reads};
ghost use Rattle.proclang_types.specs.Views.{stmt_view};
ghost use Rattle.proclang_expressions.specs.Paths.{places};
ghost use Rattle.proclang_expressions.specs.Faults.{is_memory};
ghost use Rattle.proclang_forms.specs.StmtForms.{let_parts_of, get_parts_of, put_parts_of, insert_parts_of, delete_parts_of};
ghost use Rattle.proclang.specs.Statements.{let_at, get_at, put_at, insert_at, delete_at, abort_at, reply_at};

use crate::typed_stmt::{insert_statement, put_statement};
use catalogue::Catalogue;
use proclang_expressions::{
    FaultKind, Path, ProcFault, Scope, as_int, as_many, as_value, at_most, bind, fault_at,
    into_values, paired, read_column, read_exprs, read_statement_expr, read_table, read_target,
    value_kind,
};
use proclang_forms::{DeleteForm, GetForm, InsertForm, LetForm, PutForm};
use proclang_types::Stmt;
use serde_json::Value;
use std::alloc::Global;

#[tactic(auto, unfolding(crate::specs::Statements::let_at))]
pub(crate) fn read_let(
    alloc: Global,
    catalogue: &Catalogue,
    scope: &mut Scope,
    path: &Path<'_>,
    form: LetForm<'_>,
) -> Result<Stmt, ProcFault>
    ensures { Reads is_memory (λ s. (stmt_view s, scope.new)) result
        (let_at catalogue.now (places path.now) scope.old (let_parts_of form.entry)) }
{
    let value_path = Path::Element(&*path, 2);
    let target = read_target(alloc, &Path::Element(&*path, 1), scope, form.variable)?;
    let value = read_statement_expr(alloc, catalogue, scope, &value_path, form.value)?;
    let value = as_value(alloc, &value_path, value)?;
    let kind = value_kind(&value);
    let (value, variable) = paired(
        value,
        bind(alloc, &value_path, scope, form.variable, kind, target),
    )?;
    Ok(Stmt::Let { variable, value })
}

#[tactic(auto, unfolding(crate::specs::Statements::get_at))]
pub(crate) fn read_get(
    alloc: Global,
    catalogue: &Catalogue,
    scope: &mut Scope,
    path: &Path<'_>,
    form: GetForm<'_>,
) -> Result<Stmt, ProcFault>
    ensures { Reads is_memory (λ s. (stmt_view s, scope.new)) result
        (get_at catalogue.now (places path.now) scope.old (get_parts_of form.entry)) }
{
    let key_path = Path::Element(&*path, 3);
    let column_path = Path::Element(&*path, 4);
    let target = read_target(alloc, &Path::Element(&*path, 1), scope, form.variable)?;
    let table = read_table(alloc, &Path::Element(&*path, 2), catalogue, form.table)?;
    let key = read_statement_expr(alloc, catalogue, scope, &key_path, form.key)?;
    let (key, (column, kind)) = paired(
        key,
        read_column(alloc, &column_path, catalogue, table, form.column),
    )?;
    let key = as_int(alloc, &key_path, key)?;
    let (key, variable) = paired(
        key,
        bind(alloc, &column_path, scope, form.variable, kind, target),
    )?;
    Ok(Stmt::Get {
        variable,
        table,
        key,
        column,
    })
}

#[tactic(auto, unfolding(crate::specs::Statements::put_at))]
pub(crate) fn read_put(
    alloc: Global,
    catalogue: &Catalogue,
    scope: &Scope,
    path: &Path<'_>,
    form: PutForm<'_>,
) -> Result<Stmt, ProcFault>
    ensures { Reads is_memory stmt_view result
        (put_at catalogue.now (places path.now) scope.now (put_parts_of form.entry)) }
{
    let key_path = Path::Element(&*path, 2);
    let value_path = Path::Element(&*path, 4);
    let table = read_table(alloc, &Path::Element(&*path, 1), catalogue, form.table)?;
    let key = read_statement_expr(alloc, catalogue, scope, &key_path, form.key)?;
    let column_path = Path::Element(&*path, 3);
    let (key, (column, kind)) = paired(
        key,
        read_column(alloc, &column_path, catalogue, table, form.column),
    )?;
    let (key, value) = paired(
        key,
        read_statement_expr(alloc, catalogue, scope, &value_path, form.value),
    )?;
    put_statement(
        alloc,
        table,
        &key_path,
        key,
        column,
        kind,
        &value_path,
        value,
    )
}

#[tactic(auto, unfolding(crate::specs::Statements::insert_at))]
pub(crate) fn read_insert(
    alloc: Global,
    catalogue: &Catalogue,
    scope: &Scope,
    path: &Path<'_>,
    form: InsertForm<'_>,
) -> Result<Stmt, ProcFault>
    ensures { Reads is_memory stmt_view result
        (insert_at catalogue.now (places path.now) scope.now (insert_parts_of form.entry)) }
{
    let key_path = Path::Element(&*path, 2);
    let values_path = Path::Element(&*path, 3);
    let table = read_table(alloc, &Path::Element(&*path, 1), catalogue, form.table)?;
    let key = read_statement_expr(alloc, catalogue, scope, &key_path, form.key)?;
    let (key, _) = paired(
        key,
        as_many(alloc, &values_path, catalogue, table, form.values),
    )?;
    let (key, values) = paired(
        key,
        read_exprs(alloc, catalogue, scope, &values_path, 0, form.values),
    )?;
    insert_statement(
        alloc,
        catalogue,
        table,
        &key_path,
        key,
        &values_path,
        values,
    )
}

#[tactic(auto, unfolding(crate::specs::Statements::delete_at))]
pub(crate) fn read_delete(
    alloc: Global,
    catalogue: &Catalogue,
    scope: &Scope,
    path: &Path<'_>,
    form: DeleteForm<'_>,
) -> Result<Stmt, ProcFault>
    ensures { Reads is_memory stmt_view result
        (delete_at catalogue.now (places path.now) scope.now (delete_parts_of form.entry)) }
{
    let key_path = Path::Element(&*path, 2);
    let table = read_table(alloc, &Path::Element(&*path, 1), catalogue, form.table)?;
    let key = read_statement_expr(alloc, catalogue, scope, &key_path, form.key)?;
    let key = as_int(alloc, &key_path, key)?;
    Ok(Stmt::Delete { table, key })
}

#[tactic(auto, unfolding(crate::specs::Statements::abort_at))]
pub(crate) fn read_abort(alloc: Global, path: &Path<'_>, code: i64) -> Result<Stmt, ProcFault>
    ensures { Reads is_memory stmt_view result (abort_at (places path.now) code) }
{
    if code < 100 || code > 65535 {
        return Err(fault_at(alloc, FaultKind::AbortCode, &Path::Element(&*path, 1)));
    }
    Ok(Stmt::Abort(code as u16))
}

#[tactic(auto, unfolding(crate::specs::Statements::reply_at))]
pub(crate) fn read_reply(
    alloc: Global,
    catalogue: &Catalogue,
    scope: &Scope,
    path: &Path<'_>,
    values: &[Value],
) -> Result<Stmt, ProcFault>
    ensures { Reads is_memory stmt_view result
        (reply_at catalogue.now (places path.now) scope.now (map view values.now)) }
{
    at_most(alloc, path, 64, values)?;
    let exprs = read_exprs(alloc, catalogue, scope, path, 1, values)?;
    Ok(Stmt::Reply(into_values(alloc, path, exprs)?))
}
