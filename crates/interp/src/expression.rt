//! The values of expressions.
#![tactic(auto, unfolding(meaning::specs::Runs::and_then))]

ghost use Rattle.std.specs.Prelude.{◌≡◌, map, IfSome, OnOk};
ghost use Rattle.values.specs.Database.{Database};
ghost use Rattle.proclang_types.specs.Syntax.{count_rows, sum_column};
ghost use Rattle.proclang_types.specs.Views.{int_view, text_view, value_view};
ghost use Rattle.meaning.specs.Runs.{AccessRule};
ghost use Rattle.meaning.specs.Meaning.{int_of, text_of, value_of, values_of};
ghost use Rattle.meaning.specs.Entries.{nothing};
ghost use Rattle.workspace.specs.Coverage.{rule_of, KeepsCovered};
ghost use Rattle.workspace.specs.States.{state_at};
ghost use Rattle.workspace.specs.Answers.{Gives};
ghost use Rattle.interp.specs.Answered.{answered};

use footprint::compute;
use proclang_types::{IntExpr, TextExpr, ValueExpr};
use std::alloc::Global;
use values::{TableNo, Text, Value};
use workspace::{RowView, Shown, Stop, Workspace, access_part, count_in, total_in};

/// A number that may be there comes back in registers, which a `Result` with a `Stop` does not. So the functions that
/// walk an expression answer the number, or `None`, and then the reason is in `stop`.
fn number_or(given: Result<i64, Stop>, stop: &mut Stop) -> Option<i64>
    ensures { answered result stop.new ≡ given }
{
    match given {
        Ok(number) => Some(number),
        Err(reason) => {
            *stop = reason;
            None
        }
    }
}

/// The value of an operand, as `number_of` gives it. A number or a variable takes no call.
#[cycle(numbers)]
fn operand_of<V: RowView>(
    shown: &Shown<'_, V>,
    space: &mut Workspace,
    operand: &IntExpr,
    stop: &mut Stop,
) -> Option<i64>
    ensures gives { Gives (λ z. z) (state_at (V.rows shown.now.view.now) space.new) (answered result stop.new)
        (int_of nothing (rule_of shown.now.permit) (int_view operand.now)
        (state_at (V.rows shown.now.view.now) space.old)) }
    ensures kept { IfSome result (λ _. KeepsCovered shown.now.permit space.old space.new) }
{
    match operand {
        IntExpr::Number(number) => Some(*number),
        IntExpr::Variable(place) => Some(space.number(*place)),
        IntExpr::Binary(..) | IntExpr::Count { .. } | IntExpr::Sum { .. } => {
            number_of(shown, space, operand, stop)
        }
    }
}

/// The value of a number expression, `None` where the run stops.
#[cycle(numbers)]
fn number_of<V: RowView>(
    shown: &Shown<'_, V>,
    space: &mut Workspace,
    expression: &IntExpr,
    stop: &mut Stop,
) -> Option<i64>
    ensures gives { Gives (λ z. z) (state_at (V.rows shown.now.view.now) space.new) (answered result stop.new)
        (int_of nothing (rule_of shown.now.permit) (int_view expression.now)
        (state_at (V.rows shown.now.view.now) space.old)) }
    ensures kept { IfSome result (λ _. KeepsCovered shown.now.permit space.old space.new) }
{
    match expression {
        IntExpr::Number(number) => Some(*number),
        IntExpr::Variable(place) => Some(space.number(*place)),
        IntExpr::Binary(operator, left, right) => {
            let left = operand_of(shown, space, left, stop)?;
            let right = operand_of(shown, space, right, stop)?;
            match compute(*operator, left, right) {
                Ok(number) => Some(number),
                Err(code) => {
                    *stop = Stop::from(code);
                    None
                }
            }
        }
        IntExpr::Count { table, part } => {
            let count = count_of(shown, space, *table, part);
            number_or(count, stop)
        }
        IntExpr::Sum {
            table,
            part,
            column,
        } => {
            let total = total_of(shown, space, *table, part, *column);
            number_or(total, stop)
        }
    }
}

/// How many rows a partition has.
#[cycle(numbers)]
fn count_of<V: RowView>(
    shown: &Shown<'_, V>,
    space: &mut Workspace,
    table: TableNo,
    part: &IntExpr,
) -> Result<i64, Stop>
    ensures gives { Gives (λ z. z) (state_at (V.rows shown.now.view.now) space.new) result
        (int_of nothing (rule_of shown.now.permit) (count_rows table (int_view part.now))
        (state_at (V.rows shown.now.view.now) space.old)) }
    ensures kept { OnOk result (KeepsCovered shown.now.permit space.old space.new) }
{
    space.take_step()?;
    let number = evaluate_int(shown, space, part)?;
    let part = access_part(&shown.permit, space, table, number)?;
    count_in(shown, space, table, part)
}

/// The total of a column over the rows of a partition.
#[cycle(numbers)]
fn total_of<V: RowView>(
    shown: &Shown<'_, V>,
    space: &mut Workspace,
    table: TableNo,
    part: &IntExpr,
    column: usize,
) -> Result<i64, Stop>
    ensures gives { Gives (λ z. z) (state_at (V.rows shown.now.view.now) space.new) result
        (int_of nothing (rule_of shown.now.permit) (sum_column table (int_view part.now) column)
        (state_at (V.rows shown.now.view.now) space.old)) }
    ensures kept { OnOk result (KeepsCovered shown.now.permit space.old space.new) }
{
    space.take_step()?;
    let number = evaluate_int(shown, space, part)?;
    let part = access_part(&shown.permit, space, table, number)?;
    total_in(shown, space, table, part, column)
}

/// The value of a number expression, or how the run ends: by abort 3 for a result outside the signed 64-bit range, 4
/// for a division by 0, or as a step and an access in it end. The only other error is that allocation failed.
#[cycle(numbers)]
pub(crate) fn evaluate_int<V: RowView>(
    shown: &Shown<'_, V>,
    space: &mut Workspace,
    expression: &IntExpr,
) -> Result<i64, Stop>
    ensures gives { Gives (λ z. z) (state_at (V.rows shown.now.view.now) space.new) result
        (int_of nothing (rule_of shown.now.permit) (int_view expression.now)
        (state_at (V.rows shown.now.view.now) space.old)) }
    ensures kept { OnOk result (KeepsCovered shown.now.permit space.old space.new) }
{
    let mut stop = Stop::Memory;
    match number_of(shown, space, expression, &mut stop) {
        Some(number) => Ok(number),
        None => Err(stop),
    }
}

/// The value of a text expression.
pub(crate) fn text_of<'a>(space: &'a Workspace, expression: &'a TextExpr) -> &'a str
    ensures { (db : Database) (rule : AccessRule) →
        text_of nothing rule (text_view expression.now) (state_at db space.now)
        ≡ (Ok result.now, state_at db space.now) }
{
    match expression {
        TextExpr::Literal(text) => text.as_str(),
        TextExpr::Variable(place) => space.text(*place),
    }
}

/// The value of an expression, with the errors of `evaluate_int`; to copy a text takes memory.
pub(crate) fn evaluate<V: RowView>(
    alloc: Global,
    shown: &Shown<'_, V>,
    space: &mut Workspace,
    expression: &ValueExpr,
) -> Result<Value, Stop>
    ensures gives { Gives (λ v. v) (state_at (V.rows shown.now.view.now) space.new) result
        (value_of nothing (rule_of shown.now.permit) (value_view expression.now)
        (state_at (V.rows shown.now.view.now) space.old)) }
    ensures kept { OnOk result (KeepsCovered shown.now.permit space.old space.new) }
{
    match expression {
        ValueExpr::Int(expression) => {
            let number = evaluate_int(shown, space, expression)?;
            Ok(Value::Int(number))
        }
        ValueExpr::Text(expression) => {
            let text = Text::new(alloc, text_of(space, expression))?;
            Ok(Value::Text(text))
        }
    }
}

/// The values of expressions, from left to right; the error is the first of theirs, or that allocation failed.
pub(crate) fn evaluate_all<V: RowView>(
    alloc: Global,
    shown: &Shown<'_, V>,
    space: &mut Workspace,
    expressions: &Vec<ValueExpr>,
) -> Result<Vec<Value>, Stop>
    ensures gives { Gives (λ vs. vs.items) (state_at (V.rows shown.now.view.now) space.new) result
        (values_of nothing (rule_of shown.now.permit) (map value_view expressions.now.items)
        (state_at (V.rows shown.now.view.now) space.old)) }
    ensures kept { OnOk result (KeepsCovered shown.now.permit space.old space.new) }
{
    let mut values = Vec::with_capacity(alloc, expressions.len())?;
    for expression in expressions {
        let value = evaluate(alloc, shown, space, expression)?;
        values.push(value)?;
    }
    Ok(values)
}
