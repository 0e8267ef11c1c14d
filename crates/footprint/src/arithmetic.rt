//! Operators on whole numbers.

ghost use Rattle.std.specs.Prelude.{◌≡◌};
ghost use Rattle.footprint.specs.Arithmetic.{result_of};

use crate::abort_code::AbortCode;
use proclang_types::IntOperator;

// rule: expression.sum_of_two, abort.zero
/// The result of an operator. Outside the signed 64-bit range it is an overflow; a divisor of 0 is a division by zero.
/// A quotient is rounded towards 0, and a remainder has the sign of the first operand; it overflows where its quotient
/// does.
pub fn compute(operator: IntOperator, left: i64, right: i64) -> Result<i64, AbortCode>
    ensures { result ≡ result_of operator left right }
{
    match operator {
        IntOperator::Add => left.checked_add(right).ok_or(AbortCode::Overflow),
        IntOperator::Subtract => left.checked_sub(right).ok_or(AbortCode::Overflow),
        IntOperator::Multiply => left.checked_mul(right).ok_or(AbortCode::Overflow),
        IntOperator::Divide | IntOperator::Remainder if right == 0 => {
            Err(AbortCode::DivisionByZero)
        }
        IntOperator::Divide => left.checked_div(right).ok_or(AbortCode::Overflow),
        IntOperator::Remainder => left.checked_rem(right).ok_or(AbortCode::Overflow),
    }
}
