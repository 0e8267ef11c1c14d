//! Operators with their operands, each of which is at its own path.

ghost use Rattle.std.specs.Prelude.{◌≡◌};
ghost use Rattle.documents.specs.Reading.{Reads};
ghost use Rattle.proclang_types.specs.Syntax.{both, either, bool};
ghost use Rattle.proclang_types.specs.Views.{expr_view};
ghost use Rattle.proclang_expressions.specs.Paths.{places};
ghost use Rattle.proclang_expressions.specs.Faults.{is_memory};
ghost use Rattle.proclang_expressions.specs.Expressions.{of_ints, calculate, comparison_at, two_bools, two_alike, combine};

use crate::fault::{FaultKind, ProcFault, fault_at};
use crate::node::{calculation, conjunction, disjunction};
use crate::path::Path;
use crate::typed::{as_bool, as_int, as_text, paired};
use proclang_forms::Operator;
use proclang_types::{BoolExpr, Comparison, Equality, Expr, IntExpr, IntOperator};
use std::alloc::Global;

#[tactic(auto, unfolding(crate::specs::Expressions::calculate, crate::specs::Expressions::two_ints))]
fn calculate(
    alloc: Global,
    operator: IntOperator,
    left_path: &Path<'_>,
    left: Expr,
    right_path: &Path<'_>,
    right: Expr,
) -> Result<Expr, ProcFault>
    ensures { Reads is_memory expr_view result
        (calculate operator (places left_path.now) (expr_view left) (places right_path.now) (expr_view right)) }
{
    let (right, left) = paired(right, as_int(alloc, left_path, left))?;
    let (left, right) = paired(left, as_int(alloc, right_path, right))?;
    calculation(alloc, operator, left, right)
}

#[tactic(auto, unfolding(crate::specs::Expressions::comparison_at, crate::specs::Expressions::two_ints))]
fn compare(
    alloc: Global,
    test: Comparison,
    left_path: &Path<'_>,
    left: Expr,
    right_path: &Path<'_>,
    right: Expr,
) -> Result<Expr, ProcFault>
    ensures { Reads is_memory expr_view result
        (comparison_at test (places left_path.now) (expr_view left) (places right_path.now) (expr_view right)) }
{
    let (right, left) = paired(right, as_int(alloc, left_path, left))?;
    let (left, right) = paired(left, as_int(alloc, right_path, right))?;
    Ok(Expr::Bool(BoolExpr::CompareInts(test, left, right)))
}

fn of_ints(test: Equality) -> Comparison
    ensures { result ≡ of_ints test }
{
    match test {
        Equality::Equal => Comparison::Equal,
        Equality::Unequal => Comparison::Unequal,
    }
}

/// Two Ints or two Texts.
#[tactic(auto, unfolding(crate::specs::Expressions::two_alike))]
fn equate(
    alloc: Global,
    test: Equality,
    left_path: &Path<'_>,
    left: Expr,
    right_path: &Path<'_>,
    right: Expr,
) -> Result<Expr, ProcFault>
    ensures { Reads is_memory expr_view result
        (two_alike test (places left_path.now) (expr_view left) (places right_path.now) (expr_view right)) }
{
    match left {
        Expr::Int(left) => {
            let (left, right) = paired(left, as_int(alloc, right_path, right))?;
            Ok(Expr::Bool(BoolExpr::CompareInts(of_ints(test), left, right)))
        }
        Expr::Text(left) => {
            let (left, right) = paired(left, as_text(alloc, right_path, right))?;
            Ok(Expr::Bool(BoolExpr::CompareTexts(test, left, right)))
        }
        Expr::Bool(_) => Err(fault_at(alloc, FaultKind::TypeMismatch, left_path)),
    }
}

#[tactic(auto, unfolding(crate::specs::Expressions::two_bools))]
fn conjoin(
    alloc: Global,
    left_path: &Path<'_>,
    left: Expr,
    right_path: &Path<'_>,
    right: Expr,
) -> Result<Expr, ProcFault>
    ensures { Reads is_memory expr_view result
        (two_bools (λ x y. bool (both x y)) (places left_path.now) (expr_view left) (places right_path.now)
        (expr_view right)) }
{
    let (right, left) = paired(right, as_bool(alloc, left_path, left))?;
    let (left, right) = paired(left, as_bool(alloc, right_path, right))?;
    conjunction(alloc, left, right)
}

#[tactic(auto, unfolding(crate::specs::Expressions::two_bools))]
fn disjoin(
    alloc: Global,
    left_path: &Path<'_>,
    left: Expr,
    right_path: &Path<'_>,
    right: Expr,
) -> Result<Expr, ProcFault>
    ensures { Reads is_memory expr_view result
        (two_bools (λ x y. bool (either x y)) (places left_path.now) (expr_view left) (places right_path.now)
        (expr_view right)) }
{
    let (right, left) = paired(right, as_bool(alloc, left_path, left))?;
    let (left, right) = paired(left, as_bool(alloc, right_path, right))?;
    disjunction(alloc, left, right)
}

/// An operator with its operands, which are of the types that it asks for.
#[tactic(auto, unfolding(crate::specs::Expressions::combine))]
pub(crate) fn combine(
    alloc: Global,
    operator: Operator,
    left_path: &Path<'_>,
    left: Expr,
    right_path: &Path<'_>,
    right: Expr,
) -> Result<Expr, ProcFault>
    ensures { Reads is_memory expr_view result
        (combine operator (places left_path.now) (expr_view left) (places right_path.now) (expr_view right)) }
{
    match operator {
        Operator::Arithmetic(operator) => {
            calculate(alloc, operator, left_path, left, right_path, right)
        }
        Operator::Less => compare(alloc, Comparison::Less, left_path, left, right_path, right),
        Operator::AtMost => compare(
            alloc,
            Comparison::AtMost,
            left_path,
            left,
            right_path,
            right,
        ),
        Operator::Same(test) => equate(alloc, test, left_path, left, right_path, right),
        Operator::And => conjoin(alloc, left_path, left, right_path, right),
        Operator::Or => disjoin(alloc, left_path, left, right_path, right),
    }
}
