//! Words that take two operands.

ghost use Rattle.std.specs.Prelude.{◌≡◌};
ghost use Rattle.proclang_forms.specs.Operators.{operator_of};

use proclang_types::{Equality, IntOperator};

/// A word that takes two operands.
#[derive(Clone, Copy, Debug, PartialEq, Eq)]
pub enum Operator {
    /// Of two Ints, an Int.
    Arithmetic(IntOperator),
    /// Of two Ints, a Bool.
    Less,
    /// Of two Ints, a Bool.
    AtMost,
    /// Of two Ints or of two Texts, a Bool.
    Same(Equality),
    /// Of two Bools, a Bool.
    And,
    /// Of two Bools, a Bool.
    Or,
}

/// The operator that a word means.
pub(crate) fn operator_of(word: &str) -> Option<Operator>
    ensures { result ≡ operator_of word.now }
{
    match word {
        "+" => Some(Operator::Arithmetic(IntOperator::Add)),
        "-" => Some(Operator::Arithmetic(IntOperator::Subtract)),
        "*" => Some(Operator::Arithmetic(IntOperator::Multiply)),
        "/" => Some(Operator::Arithmetic(IntOperator::Divide)),
        "%" => Some(Operator::Arithmetic(IntOperator::Remainder)),
        "=" => Some(Operator::Same(Equality::Equal)),
        "<>" => Some(Operator::Same(Equality::Unequal)),
        "<" => Some(Operator::Less),
        "<=" => Some(Operator::AtMost),
        "and" => Some(Operator::And),
        "or" => Some(Operator::Or),
        _ => None,
    }
}
