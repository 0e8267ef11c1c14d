//! Statements and blocks.
#![tactic(auto, unfolding(meaning::specs::Runs::and_then))]

ghost use Rattle.std.specs.Prelude.{pos, map, OnOk};
ghost use Rattle.proclang_types.specs.Syntax.{block_of};
ghost use Rattle.proclang_types.specs.Views.{stmt_view, stmts_view};
ghost use Rattle.meaning.specs.Runs.{scoped};
ghost use Rattle.meaning.specs.Meaning.{effect, in_order, turn_of, turns};
ghost use Rattle.meaning.specs.Turns.{numbers_between};
ghost use Rattle.meaning.specs.Entries.{nothing};
ghost use Rattle.workspace.specs.Coverage.{rule_of, KeepsCovered};
ghost use Rattle.workspace.specs.States.{state_at};
ghost use Rattle.workspace.specs.Answers.{Gives};

use crate::expression::evaluate_int;
use crate::loop_numbers::{first_number, number_after, number_of_key};
use crate::row_statement::{delete_key, insert_values};
use crate::statement::{assign_value, get_column, put_column, reply_with};
use crate::truth::evaluate_bool;
use footprint::AbortCode;
use meaning::Ending;
use proclang_types::Stmt;
use std::alloc::Global;
use values::{Key, Value};
use workspace::{RowView, Shown, Stop, Workspace, access_part, keys_in};

// rule: statement.if, statement.abort
/// What a statement does after its step.
#[cycle(run)]
fn effect<V: RowView>(
    alloc: Global,
    shown: &Shown<'_, V>,
    space: &mut Workspace,
    statement: &Stmt,
) -> Result<(), Stop>
    ensures gives { Gives (λ _. tt) (state_at (V.rows shown.now.view.now) space.new) result
        (effect nothing (rule_of shown.now.permit) (stmt_view statement.now)
        (state_at (V.rows shown.now.view.now) space.old)) }
    ensures kept { OnOk result (KeepsCovered shown.now.permit space.old space.new) }
{
    match statement {
        Stmt::Let { variable, value } => { assign_value(alloc, shown, space, *variable, value) }
        Stmt::Get {
            variable,
            table,
            key,
            column,
        } => get_column(shown, space, *variable, *table, key, *column),
        Stmt::Put {
            table,
            key,
            column,
            value,
        } => put_column(alloc, shown, space, *table, key, *column, value),
        Stmt::Insert { table, key, values } => {
            insert_values(alloc, shown, space, *table, key, values)
        }
        Stmt::Delete { table, key } => delete_key(shown, space, *table, key),
        Stmt::If {
            test,
            first,
            second,
        } => {
            if evaluate_bool(shown, space, test)? {
                scoped_block(alloc, shown, space, first)?;
            } else {
                scoped_block(alloc, shown, space, second)?;
            }
            Ok(())
        }
        Stmt::For { low, high, body } => {
            let low = evaluate_int(shown, space, low)?;
            let high = evaluate_int(shown, space, high)?;
            for_each_number(alloc, shown, space, low, high, body)?;
            Ok(())
        }
        Stmt::Each { table, part, body } => {
            let number = evaluate_int(shown, space, part)?;
            let part = access_part(&shown.permit, space, *table, number)?;
            let keys = keys_in(alloc, shown, space, *table, part)?;
            for_each_key(alloc, shown, space, body, &keys)?;
            Ok(())
        }
        Stmt::Abort(code) => Err(Stop::End(Ending::Abort(AbortCode::Own(*code)))),
        Stmt::Reply(expressions) => reply_with(alloc, shown, space, expressions),
    }
}

/// The statements of a block, whose variables end with it.
#[cycle(run)]
fn scoped_block<V: RowView>(
    alloc: Global,
    shown: &Shown<'_, V>,
    space: &mut Workspace,
    statements: &Vec<Stmt>,
) -> Result<(), Stop>
    ensures gives { Gives (λ _. tt) (state_at (V.rows shown.now.view.now) space.new) result
        (scoped (in_order nothing (rule_of shown.now.permit) (block_of (stmts_view statements.now.items)))
        (state_at (V.rows shown.now.view.now) space.old)) }
    ensures kept { OnOk result (KeepsCovered shown.now.permit space.old space.new) }
{
    let count = space.variables.len();
    block(alloc, shown, space, statements)?;
    space.leave_block(count);
    Ok(())
}

// rule: statement.for
/// A turn for each number from one to another, both included.
#[cycle(run)]
#[tactic(auto, using(crate::proofs::Left::first_left, crate::proofs::Left::next_left, crate::proofs::Left::fewer_left))]
fn for_each_number<V: RowView>(
    alloc: Global,
    shown: &Shown<'_, V>,
    space: &mut Workspace,
    low: i64,
    high: i64,
    statements: &Vec<Stmt>,
) -> Result<(), Stop>
    ensures gives { Gives (λ _. tt) (state_at (V.rows shown.now.view.now) space.new) result
        (turns (in_order nothing (rule_of shown.now.permit) (block_of (stmts_view statements.now.items)))
        (numbers_between low high) (state_at (V.rows shown.now.view.now) space.old)) }
    ensures kept { OnOk result (KeepsCovered shown.now.permit space.old space.new) }
{
    let mut next = first_number(low, high);
    while let Some(number) = next {
        turn(alloc, shown, space, number, statements)?;
        next = number_after(number, high);
    }
    Ok(())
}

// rule: statement.each
/// A turn for each key.
#[cycle(run)]
fn for_each_key<V: RowView>(
    alloc: Global,
    shown: &Shown<'_, V>,
    space: &mut Workspace,
    statements: &Vec<Stmt>,
    keys: &Vec<Key>,
) -> Result<(), Stop>
    ensures gives { Gives (λ _. tt) (state_at (V.rows shown.now.view.now) space.new) result
        (turns (in_order nothing (rule_of shown.now.permit) (block_of (stmts_view statements.now.items)))
        (map pos keys.now.items) (state_at (V.rows shown.now.view.now) space.old)) }
    ensures kept { OnOk result (KeepsCovered shown.now.permit space.old space.new) }
{
    for key in keys {
        turn(alloc, shown, space, number_of_key(*key), statements)?;
    }
    Ok(())
}

/// One turn: a step, and the block, whose first variable is the number.
#[cycle(run)]
fn turn<V: RowView>(
    alloc: Global,
    shown: &Shown<'_, V>,
    space: &mut Workspace,
    number: i64,
    statements: &Vec<Stmt>,
) -> Result<(), Stop>
    ensures gives { Gives (λ _. tt) (state_at (V.rows shown.now.view.now) space.new) result
        (turn_of (in_order nothing (rule_of shown.now.permit) (block_of (stmts_view statements.now.items))) number
        (state_at (V.rows shown.now.view.now) space.old)) }
    ensures kept { OnOk result (KeepsCovered shown.now.permit space.old space.new) }
{
    space.take_step()?;
    let outer = space.variables.len();
    space.declare(Value::Int(number))?;
    block(alloc, shown, space, statements)?;
    space.leave_block(outer);
    Ok(())
}

// rule: step.count
/// The statements of a block, each after one step.
#[cycle(run)]
pub(crate) fn block<V: RowView>(
    alloc: Global,
    shown: &Shown<'_, V>,
    space: &mut Workspace,
    statements: &Vec<Stmt>,
) -> Result<(), Stop>
    ensures gives { Gives (λ _. tt) (state_at (V.rows shown.now.view.now) space.new) result
        (in_order nothing (rule_of shown.now.permit) (block_of (stmts_view statements.now.items))
        (state_at (V.rows shown.now.view.now) space.old)) }
    ensures kept { OnOk result (KeepsCovered shown.now.permit space.old space.new) }
{
    for statement in statements {
        space.take_step()?;
        effect(alloc, shown, space, statement)?;
    }
    Ok(())
}
