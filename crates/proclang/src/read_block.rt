//! Reading blocks, and the statements that hold them.

ghost use Rattle.std.specs.Prelude.{◌≡◌, OnOk};
ghost use Rattle.serde_json.specs.View.{view};
ghost use Rattle.documents.specs.Reading.{Reads};
ghost use Rattle.proclang_types.specs.Views.{stmt_view, stmts_view};
ghost use Rattle.proclang_expressions.specs.Paths.{places};
ghost use Rattle.proclang_expressions.specs.Faults.{is_memory};
ghost use Rattle.proclang_expressions.specs.Seen.{seen_in_loop};
ghost use Rattle.proclang_forms.specs.StmtForms.{if_parts_of, for_parts_of, each_parts_of};
ghost use Rattle.proclang.specs.Statements.{if_at, for_at, each_loop_at, statement_at, block_at};

use crate::read_stmt::{
    read_abort, read_delete, read_get, read_insert, read_let, read_put, read_reply,
};
use crate::typed_stmt::{each_statement, for_statement, if_statement};
use catalogue::Catalogue;
use documents::elements;
use proclang_expressions::{
    Declaration, FaultKind, Path, ProcFault, Scope, at_most, fault_at, paired, read_loop_name,
    read_statement_expr, read_table,
};
use proclang_forms::{EachForm, ForForm, IfForm, StmtForm, statement_form};
use proclang_types::Stmt;
use serde_json::Value;
use std::alloc::Global;
use values::ColType;

#[cycle(block)]
#[tactic(auto, unfolding(crate::specs::Statements::if_at))]
fn read_if(
    alloc: Global,
    catalogue: &Catalogue,
    scope: &mut Scope,
    room: u32,
    path: &Path<'_>,
    form: IfForm<'_>,
) -> Result<Stmt, ProcFault>
    ensures exact { Reads is_memory stmt_view result
        (if_at catalogue.now (block_at catalogue.now room) (places path.now) scope.old (if_parts_of form.entry)) }
    ensures scope { OnOk result (scope.new ≡ scope.old) }
{
    let test_path = Path::Element(&*path, 1);
    let first_path = Path::Element(&*path, 2);
    let second_path = Path::Element(&*path, 3);
    let test = read_statement_expr(alloc, catalogue, scope, &test_path, form.test)?;
    let (test, first) = paired(
        test,
        read_block(alloc, catalogue, scope, room, &first_path, form.first),
    )?;
    let (test, second) = paired(
        test,
        read_block(alloc, catalogue, scope, room, &second_path, form.second),
    )?;
    if_statement(alloc, &test_path, test, first, second)
}

/// The block of a loop, in which the loop's variable is seen too.
#[cycle(block)]
fn read_loop_block(
    alloc: Global,
    catalogue: &Catalogue,
    scope: &mut Scope,
    room: u32,
    path: &Path<'_>,
    variable: &str,
    value: &Value,
) -> Result<Vec<Stmt>, ProcFault>
    ensures exact { Reads is_memory (λ v. stmts_view v.items) result
        (block_at catalogue.now room (places path.now) (seen_in_loop scope.old variable.now) (view value.now)) }
    ensures scope { OnOk result (scope.new ≡ scope.old) }
{
    let seen = scope.len();
    let variable = String::from_str(alloc, variable)?;
    scope.declare(variable, ColType::Int, Declaration::Loop)?;
    let block = read_block(alloc, catalogue, scope, room, path, value)?;
    scope.truncate(seen);
    Ok(block)
}

#[cycle(block)]
#[tactic(auto, unfolding(crate::specs::Statements::for_at))]
fn read_for(
    alloc: Global,
    catalogue: &Catalogue,
    scope: &mut Scope,
    room: u32,
    path: &Path<'_>,
    form: ForForm<'_>,
) -> Result<Stmt, ProcFault>
    ensures exact { Reads is_memory stmt_view result
        (for_at catalogue.now (block_at catalogue.now room) (places path.now) scope.old (for_parts_of form.entry)) }
    ensures scope { OnOk result (scope.new ≡ scope.old) }
{
    let low_path = Path::Element(&*path, 2);
    let high_path = Path::Element(&*path, 3);
    let body_path = Path::Element(&*path, 4);
    read_loop_name(alloc, &Path::Element(&*path, 1), scope, form.variable)?;
    let low = read_statement_expr(alloc, catalogue, scope, &low_path, form.low)?;
    let (low, high) = paired(
        low,
        read_statement_expr(alloc, catalogue, scope, &high_path, form.high),
    )?;
    let ((low, high), body) = paired(
        (low, high),
        read_loop_block(
            alloc,
            catalogue,
            scope,
            room,
            &body_path,
            form.variable,
            form.body,
        ),
    )?;
    for_statement(alloc, &low_path, low, &high_path, high, body)
}

#[cycle(block)]
#[tactic(auto, unfolding(crate::specs::Statements::each_loop_at))]
fn read_each(
    alloc: Global,
    catalogue: &Catalogue,
    scope: &mut Scope,
    room: u32,
    path: &Path<'_>,
    form: EachForm<'_>,
) -> Result<Stmt, ProcFault>
    ensures exact { Reads is_memory stmt_view result
        (each_loop_at catalogue.now (block_at catalogue.now room) (places path.now) scope.old
        (each_parts_of form.entry)) }
    ensures scope { OnOk result (scope.new ≡ scope.old) }
{
    let part_path = Path::Element(&*path, 3);
    let body_path = Path::Element(&*path, 4);
    read_loop_name(alloc, &Path::Element(&*path, 1), scope, form.variable)?;
    let table = read_table(alloc, &Path::Element(&*path, 2), catalogue, form.table)?;
    let part = read_statement_expr(alloc, catalogue, scope, &part_path, form.number)?;
    let (part, body) = paired(
        part,
        read_loop_block(
            alloc,
            catalogue,
            scope,
            room,
            &body_path,
            form.variable,
            form.body,
        ),
    )?;
    each_statement(alloc, table, &part_path, part, body)
}

#[cycle(block)]
#[tactic(auto, unfolding(crate::specs::Statements::form_at))]
fn read_statement(
    alloc: Global,
    catalogue: &Catalogue,
    scope: &mut Scope,
    room: u32,
    path: &Path<'_>,
    value: &Value,
) -> Result<Stmt, ProcFault>
    ensures { Reads is_memory (λ s. (stmt_view s, scope.new)) result
        (statement_at catalogue.now (block_at catalogue.now room) (places path.now) scope.old (view value.now)) }
{
    let Some(form) = statement_form(value) else {
        return Err(fault_at(alloc, FaultKind::Shape, path));
    };
    match form {
        StmtForm::Let(form) => read_let(alloc, catalogue, scope, &*path, form),
        StmtForm::Get(form) => read_get(alloc, catalogue, scope, &*path, form),
        StmtForm::Put(form) => read_put(alloc, catalogue, scope, &*path, form),
        StmtForm::Insert(form) => read_insert(alloc, catalogue, scope, &*path, form),
        StmtForm::Delete(form) => read_delete(alloc, catalogue, scope, &*path, form),
        StmtForm::If(form) => read_if(alloc, catalogue, scope, room, &*path, form),
        StmtForm::For(form) => read_for(alloc, catalogue, scope, room, &*path, form),
        StmtForm::Each(form) => read_each(alloc, catalogue, scope, room, &*path, form),
        StmtForm::Abort(code) => read_abort(alloc, &*path, code),
        StmtForm::Reply(values) => read_reply(alloc, catalogue, scope, &*path, values),
    }
}

/// The block that the document says where these variables are seen, and `room` levels may still nest. The variables
/// that it declares are seen in it alone.
#[cycle(block)]
#[tactic(auto, unfolding(crate::specs::Statements::block_at))]
pub(crate) fn read_block(
    alloc: Global,
    catalogue: &Catalogue,
    scope: &mut Scope,
    room: u32,
    path: &Path<'_>,
    value: &Value,
) -> Result<Vec<Stmt>, ProcFault>
    ensures exact { Reads is_memory (λ v. stmts_view v.items) result
        (block_at catalogue.now room (places path.now) scope.old (view value.now)) }
    ensures scope { OnOk result (scope.new ≡ scope.old) }
{
    let Some(values) = elements(value) else {
        return Err(fault_at(alloc, FaultKind::Shape, path));
    };
    if room == 0 {
        return Err(fault_at(alloc, FaultKind::Limit, path));
    }
    at_most(alloc, path, 1024, values)?;
    let seen = scope.len();
    let mut block = Vec::new(alloc);
    for (index, value) in values.iter().enumerate() {
        let place = Path::Element(&*path, index);
        let statement = read_statement(alloc, catalogue, scope, room - 1, &place, value)?;
        block.push(statement)?;
    }
    scope.truncate(seen);
    Ok(block)
}
