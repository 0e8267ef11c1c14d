//! Reading expressions.

ghost use Rattle.serde_json.specs.View.{view};
ghost use Rattle.documents.specs.Reading.{Reads};
ghost use Rattle.proclang_types.specs.Views.{expr_view};
ghost use Rattle.proclang_expressions.specs.Paths.{places};
ghost use Rattle.proclang_expressions.specs.Faults.{is_memory};
ghost use Rattle.proclang_expressions.specs.Seen.{found_in};
ghost use Rattle.proclang_expressions.specs.Expressions.{named, literal_at, not_at, binary_at, exists_at, count_at, sum_at, reader_in, statement_expr};

use crate::combine::combine;
use crate::expr_context::{DEEPEST, ExprContext};
use crate::fault::{FaultKind, ProcFault, fault_at};
use crate::names::{read_column, read_table};
use crate::node::{count, negation, sum};
use crate::path::Path;
use crate::scope::Scope;
use crate::typed::{as_bool, as_int, paired};
use catalogue::Catalogue;
use proclang_forms::{BinaryForm, CountForm, ExistsForm, ExprForm, Section, SumForm, form_in};
use proclang_types::{BoolExpr, Expr, IntExpr, TextExpr};
use serde_json::Value;
use std::alloc::Global;
use values::{ColType, Text};

fn read_variable(
    alloc: Global,
    path: &Path<'_>,
    scope: &Scope,
    name: &str,
) -> Result<Expr, ProcFault>
    ensures { Reads is_memory expr_view result (named (places path.now) (found_in name.now scope.now)) }
{
    let Some(variable) = scope.find(name) else {
        return Err(fault_at(alloc, FaultKind::UnknownName, path));
    };
    match variable.kind {
        ColType::Int => Ok(Expr::Int(IntExpr::Variable(variable.place))),
        ColType::Text => Ok(Expr::Text(TextExpr::Variable(variable.place))),
    }
}

fn read_literal(alloc: Global, path: &Path<'_>, text: &str) -> Result<Expr, ProcFault>
    ensures { Reads is_memory expr_view result (literal_at (places path.now) text.now) }
{
    if text.len() > 64 {
        return Err(fault_at(alloc, FaultKind::Limit, path));
    }
    Ok(Expr::Text(TextExpr::Literal(Text::new(alloc, text)?)))
}

#[cycle(expression)]
#[tactic(auto, unfolding(crate::specs::Expressions::not_at))]
fn read_not(
    alloc: Global,
    context: ExprContext<'_>,
    path: &Path<'_>,
    part: &Value,
) -> Result<Expr, ProcFault>
    ensures { Reads is_memory expr_view result
        (not_at (reader_in context.entry) (places path.now) context.entry.scope.now (view part.now)) }
{
    let part_path = Path::Element(&*path, 1);
    let part = read_expr(alloc, context, &part_path, part)?;
    let part = as_bool(alloc, &part_path, part)?;
    negation(alloc, part)
}

#[cycle(expression)]
#[tactic(auto, unfolding(crate::specs::Expressions::binary_at))]
fn read_binary(
    alloc: Global,
    context: ExprContext<'_>,
    path: &Path<'_>,
    form: BinaryForm<'_>,
) -> Result<Expr, ProcFault>
    ensures { Reads is_memory expr_view result
        (binary_at (reader_in context.entry) (places path.now) context.entry.scope.now form.entry.operator
        (view form.entry.left.now) (view form.entry.right.now)) }
{
    let left_path = Path::Element(&*path, 1);
    let right_path = Path::Element(&*path, 2);
    let left = read_expr(alloc, context, &left_path, form.left)?;
    let (left, right) = paired(left, read_expr(alloc, context, &right_path, form.right))?;
    combine(alloc, form.operator, &left_path, left, &right_path, right)
}

#[cycle(expression)]
#[tactic(auto, unfolding(crate::specs::Expressions::exists_at))]
fn read_exists(
    alloc: Global,
    context: ExprContext<'_>,
    path: &Path<'_>,
    form: ExistsForm<'_>,
) -> Result<Expr, ProcFault>
    ensures { Reads is_memory expr_view result
        (exists_at context.entry.catalogue.now (reader_in context.entry) (places path.now) context.entry.scope.now
        form.entry.table.now (view form.entry.key.now)) }
{
    let key_path = Path::Element(&*path, 2);
    let table = read_table(
        alloc,
        &Path::Element(&*path, 1),
        context.catalogue,
        form.table,
    )?;
    let key = read_expr(alloc, context, &key_path, form.key)?;
    let key = as_int(alloc, &key_path, key)?;
    Ok(Expr::Bool(BoolExpr::Exists { table, key }))
}

#[cycle(expression)]
#[tactic(auto, unfolding(crate::specs::Expressions::count_at))]
fn read_count(
    alloc: Global,
    context: ExprContext<'_>,
    path: &Path<'_>,
    form: CountForm<'_>,
) -> Result<Expr, ProcFault>
    ensures { Reads is_memory expr_view result
        (count_at context.entry.catalogue.now (reader_in context.entry) (places path.now) context.entry.scope.now
        form.entry.table.now (view form.entry.number.now)) }
{
    let part_path = Path::Element(&*path, 2);
    let table = read_table(
        alloc,
        &Path::Element(&*path, 1),
        context.catalogue,
        form.table,
    )?;
    let part = read_expr(alloc, context, &part_path, form.number)?;
    let part = as_int(alloc, &part_path, part)?;
    count(alloc, table, part)
}

#[cycle(expression)]
#[tactic(auto, unfolding(crate::specs::Expressions::sum_at))]
fn read_sum(
    alloc: Global,
    context: ExprContext<'_>,
    path: &Path<'_>,
    form: SumForm<'_>,
) -> Result<Expr, ProcFault>
    ensures { Reads is_memory expr_view result
        (sum_at context.entry.catalogue.now (reader_in context.entry) (places path.now) context.entry.scope.now
        form.entry.table.now (view form.entry.number.now) form.entry.column.now) }
{
    let part_path = Path::Element(&*path, 2);
    let column_path = Path::Element(&*path, 3);
    let table = read_table(
        alloc,
        &Path::Element(&*path, 1),
        context.catalogue,
        form.table,
    )?;
    let part = read_expr(alloc, context, &part_path, form.number)?;
    let (part, (column, kind)) = paired(
        part,
        read_column(alloc, &column_path, context.catalogue, table, form.column),
    )?;
    let part = as_int(alloc, &part_path, part)?;
    if kind != ColType::Int {
        return Err(fault_at(alloc, FaultKind::TypeMismatch, &column_path));
    }
    sum(alloc, table, part, column)
}

/// The expression that the document says there.
#[cycle(expression)]
#[tactic(auto, unfolding(crate::specs::Expressions::expr_at, crate::specs::Expressions::node_at))]
pub fn read_expr(
    alloc: Global,
    context: ExprContext<'_>,
    path: &Path<'_>,
    value: &Value,
) -> Result<Expr, ProcFault>
    ensures { Reads is_memory expr_view result
        (reader_in context.entry (places path.now) context.entry.scope.now (view value.now)) }
{
    let Some(form) = form_in(context.section, value) else {
        return Err(fault_at(alloc, FaultKind::Shape, path));
    };
    if context.room == 0 {
        return Err(fault_at(alloc, FaultKind::Limit, path));
    }
    let inner = ExprContext {
        room: context.room - 1,
        ..context
    };
    match form {
        ExprForm::Number(number) => Ok(Expr::Int(IntExpr::Number(number))),
        ExprForm::Literal(text) => read_literal(alloc, path, text),
        ExprForm::Variable(name) => read_variable(alloc, path, context.scope, name),
        ExprForm::Not(part) => read_not(alloc, inner, path, part),
        ExprForm::Binary(form) => read_binary(alloc, inner, path, form),
        ExprForm::Exists(form) => read_exists(alloc, inner, path, form),
        ExprForm::Count(form) => read_count(alloc, inner, path, form),
        ExprForm::Sum(form) => read_sum(alloc, inner, path, form),
    }
}

// rule: nesting.depth
/// An outermost expression in a statement.
pub fn read_statement_expr(
    alloc: Global,
    catalogue: &Catalogue,
    scope: &Scope,
    path: &Path<'_>,
    value: &Value,
) -> Result<Expr, ProcFault>
    ensures { Reads is_memory expr_view result
        (statement_expr catalogue.now (places path.now) scope.now (view value.now)) }
{
    let context = ExprContext {
        section: Section::Body,
        catalogue,
        scope,
        room: DEEPEST,
    };
    read_expr(alloc, context, path, value)
}
