//! Statements that make a row, or leave none.
#![tactic(auto, unfolding(meaning::specs::Runs::and_then))]

ghost use Rattle.std.specs.Prelude.{map, OnOk};
ghost use Rattle.proclang_types.specs.Views.{int_view, value_view};
ghost use Rattle.meaning.specs.Meaning.{insert_values, delete_key};
ghost use Rattle.meaning.specs.Entries.{nothing};
ghost use Rattle.workspace.specs.Coverage.{rule_of, KeepsCovered};
ghost use Rattle.workspace.specs.States.{state_at};
ghost use Rattle.workspace.specs.Answers.{Gives};

use crate::expression::{evaluate_all, evaluate_int};
use footprint::{AbortCode, Right};
use meaning::Ending;
use proclang_types::{IntExpr, ValueExpr};
use std::alloc::Global;
use values::{Row, TableNo};
use workspace::{RowView, Shown, Stop, Workspace, access, is_there};

// rule: statement.insert
/// A new row with a key: one value a column.
pub(crate) fn insert_values<V: RowView>(
    alloc: Global,
    shown: &Shown<'_, V>,
    space: &mut Workspace,
    table: TableNo,
    key: &IntExpr,
    values: &Vec<ValueExpr>,
) -> Result<(), Stop>
    ensures gives { Gives (λ _.
        tt) (state_at (V.rows shown.now.view.now) space.new) result
        (insert_values nothing (rule_of shown.now.permit) table (int_view key.now)
        (map value_view values.now.items) (state_at (V.rows shown.now.view.now) space.old)) }
    ensures kept { OnOk result (KeepsCovered shown.now.permit space.old space.new) }
{
    let number = evaluate_int(shown, space, key)?;
    let values = evaluate_all(alloc, shown, space, values)?;
    let name = access(&shown.permit, space, Right::Write, table, number)?;
    if is_there(shown, space, &name) {
        return Err(Stop::End(Ending::Abort(AbortCode::DuplicateRow)));
    }
    space.write(name, Row::new(values))?;
    Ok(())
}

// rule: statement.delete
/// The row with a key is no more.
pub(crate) fn delete_key<V: RowView>(
    shown: &Shown<'_, V>,
    space: &mut Workspace,
    table: TableNo,
    key: &IntExpr,
) -> Result<(), Stop>
    ensures gives { Gives (λ _.
        tt) (state_at (V.rows shown.now.view.now) space.new) result
        (delete_key nothing (rule_of shown.now.permit) table (int_view key.now)
        (state_at (V.rows shown.now.view.now) space.old)) }
    ensures kept { OnOk result (KeepsCovered shown.now.permit space.old space.new) }
{
    let number = evaluate_int(shown, space, key)?;
    let gone = access(&shown.permit, space, Right::Write, table, number)?;
    if !is_there(shown, space, &gone) {
        return Err(Stop::End(Ending::Abort(AbortCode::NoRow)));
    }
    space.remove(gone)?;
    Ok(())
}
