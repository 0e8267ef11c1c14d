//! Whether expressions are true.
#![tactic(auto, unfolding(meaning::specs::Runs::and_then))]

ghost use Rattle.std.specs.Prelude.{◌≡◌, OnOk};
ghost use Rattle.proclang_types.specs.Views.{bool_view};
ghost use Rattle.meaning.specs.Comparing.{compare, compare_bytes};
ghost use Rattle.meaning.specs.Meaning.{bool_of};
ghost use Rattle.meaning.specs.Entries.{nothing};
ghost use Rattle.workspace.specs.Coverage.{rule_of, KeepsCovered};
ghost use Rattle.workspace.specs.States.{state_at};
ghost use Rattle.workspace.specs.Answers.{Gives};

use crate::expression::{evaluate_int, text_of};
use footprint::Right;
use proclang_types::{BoolExpr, Comparison, Equality};
use workspace::{RowView, Shown, Stop, Workspace, access, is_there};

fn compare(test: Comparison, left: i64, right: i64) -> bool
    ensures { result ≡ compare test left right }
{
    match test {
        Comparison::Equal => left == right,
        Comparison::Unequal => left != right,
        Comparison::Less => left < right,
        Comparison::AtMost => left <= right,
    }
}

fn compare_texts(test: Equality, left: &str, right: &str) -> bool
    ensures { result ≡ compare_bytes test left.now right.now }
{
    match test {
        Equality::Equal => left == right,
        Equality::Unequal => left != right,
    }
}

// rule: expression.joined
/// Whether an expression is true, or how the run ends: as a number expression, a step or an access in it does. The
/// second operand of `and` and of `or` is evaluated only where it counts.
pub(crate) fn evaluate_bool<V: RowView>(
    shown: &Shown<'_, V>,
    space: &mut Workspace,
    expression: &BoolExpr,
) -> Result<bool, Stop>
    ensures gives { Gives (λ b. b) (state_at (V.rows shown.now.view.now) space.new) result
        (bool_of nothing (rule_of shown.now.permit) (bool_view expression.now)
        (state_at (V.rows shown.now.view.now) space.old)) }
    ensures kept { OnOk result (KeepsCovered shown.now.permit space.old space.new) }
{
    match expression {
        BoolExpr::CompareInts(test, left, right) => {
            let left = evaluate_int(shown, space, left)?;
            let right = evaluate_int(shown, space, right)?;
            Ok(compare(*test, left, right))
        }
        BoolExpr::CompareTexts(test, left, right) => {
            let same = compare_texts(*test, text_of(space, left), text_of(space, right));
            Ok(same)
        }
        BoolExpr::And(left, right) => {
            if evaluate_bool(shown, space, left)? {
                evaluate_bool(shown, space, right)
            } else {
                Ok(false)
            }
        }
        BoolExpr::Or(left, right) => {
            if evaluate_bool(shown, space, left)? {
                Ok(true)
            } else {
                evaluate_bool(shown, space, right)
            }
        }
        BoolExpr::Not(operand) => {
            let holds = evaluate_bool(shown, space, operand)?;
            Ok(!holds)
        }
        BoolExpr::Exists { table, key } => {
            space.take_step()?;
            let number = evaluate_int(shown, space, key)?;
            let name = access(&shown.permit, space, Right::Read, *table, number)?;
            Ok(is_there(shown, space, &name))
        }
    }
}
