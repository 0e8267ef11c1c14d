//! Statements without blocks.
#![tactic(auto, unfolding(meaning::specs::Runs::and_then))]

ghost use Rattle.std.specs.Prelude.{◌≡◌, pos, map, unwrap_or, slice_get, IfOk, OnOk};
ghost use Rattle.values.specs.declared.value.Value.TheVariants.{Int};
ghost use Rattle.proclang_types.specs.Views.{int_view, value_view};
ghost use Rattle.meaning.specs.Meaning.{assign_value, get_column, put_column, reply_with};
ghost use Rattle.meaning.specs.Entries.{nothing};
ghost use Rattle.workspace.specs.Coverage.{rule_of, KeepsCovered};
ghost use Rattle.workspace.specs.States.{state_at};
ghost use Rattle.workspace.specs.Answers.{Gives};

use crate::expression::{evaluate, evaluate_all, evaluate_int};
use footprint::Right;
use proclang_types::{IntExpr, ValueExpr};
use std::alloc::Global;
use values::{NoMemory, Row, TableNo, Value};
use workspace::{RowView, Shown, Stop, Workspace, access, present_row};

/// The value in a column; 0 for a column that is not there.
fn column_value(row: &Row, column: usize) -> Result<Value, NoMemory>
    ensures { IfOk result (λ value. value ≡ unwrap_or (slice_get row.now column) (Int (pos 0))) }
{
    match row.get(column) {
        Some(value) => Ok(value.clone()?),
        None => Ok(Value::Int(0)),
    }
}

// rule: statement.let
/// A variable gets a value.
pub(crate) fn assign_value<V: RowView>(
    alloc: Global,
    shown: &Shown<'_, V>,
    space: &mut Workspace,
    variable: usize,
    value: &ValueExpr,
) -> Result<(), Stop>
    ensures gives { Gives (λ _.
        tt) (state_at (V.rows shown.now.view.now) space.new) result
        (assign_value nothing (rule_of shown.now.permit) variable (value_view value.now)
        (state_at (V.rows shown.now.view.now) space.old)) }
    ensures kept { OnOk result (KeepsCovered shown.now.permit space.old space.new) }
{
    match value {
        ValueExpr::Int(expression) => {
            let number = evaluate_int(shown, space, expression)?;
            space.set_number(variable, number)
        }
        ValueExpr::Text(_) => {
            let value = evaluate(alloc, shown, space, value)?;
            space.set_variable(variable, value)
        }
    }
}

// rule: statement.get
/// A variable gets a column of the row with a key.
pub(crate) fn get_column<V: RowView>(
    shown: &Shown<'_, V>,
    space: &mut Workspace,
    variable: usize,
    table: TableNo,
    key: &IntExpr,
    column: usize,
) -> Result<(), Stop>
    ensures gives { Gives (λ _.
        tt) (state_at (V.rows shown.now.view.now) space.new) result
        (get_column nothing (rule_of shown.now.permit) variable table (int_view key.now) column
        (state_at (V.rows shown.now.view.now) space.old)) }
    ensures kept { OnOk result (KeepsCovered shown.now.permit space.old space.new) }
{
    let number = evaluate_int(shown, space, key)?;
    let name = access(&shown.permit, space, Right::Read, table, number)?;
    let row = present_row(&*shown, space, &name)?;
    let value = column_value(row, column)?;
    space.set_variable(variable, value)?;
    Ok(())
}

// rule: statement.put
/// A column of the row with a key gets a value.
pub(crate) fn put_column<V: RowView>(
    alloc: Global,
    shown: &Shown<'_, V>,
    space: &mut Workspace,
    table: TableNo,
    key: &IntExpr,
    column: usize,
    value: &ValueExpr,
) -> Result<(), Stop>
    ensures gives { Gives (λ _.
        tt) (state_at (V.rows shown.now.view.now) space.new) result
        (put_column nothing (rule_of shown.now.permit) table (int_view key.now) column (value_view value.now)
        (state_at (V.rows shown.now.view.now) space.old)) }
    ensures kept { OnOk result (KeepsCovered shown.now.permit space.old space.new) }
{
    let number = evaluate_int(shown, space, key)?;
    let value = evaluate(alloc, shown, space, value)?;
    let name = access(&shown.permit, space, Right::Write, table, number)?;
    let mut row = present_row(&*shown, space, &name)?.clone()?;
    row.set(column, value);
    space.write(name, row)?;
    Ok(())
}

// rule: statement.reply
/// Appends values to the reply.
pub(crate) fn reply_with<V: RowView>(
    alloc: Global,
    shown: &Shown<'_, V>,
    space: &mut Workspace,
    expressions: &Vec<ValueExpr>,
) -> Result<(), Stop>
    ensures gives { Gives (λ _.
        tt) (state_at (V.rows shown.now.view.now) space.new) result
        (reply_with nothing (rule_of shown.now.permit) (map value_view expressions.now.items)
        (state_at (V.rows shown.now.view.now) space.old)) }
    ensures kept { OnOk result (KeepsCovered shown.now.permit space.old space.new) }
{
    let values = evaluate_all(alloc, shown, space, expressions)?;
    space.append_reply(values)?;
    Ok(())
}
