//! Operators.

/// An operator on two whole numbers. Its result is a whole number in the signed 64-bit range.
#[derive(Clone, Copy, Debug, PartialEq, Eq)]
pub enum IntOperator {
    Add,
    Subtract,
    Multiply,
    /// The quotient, rounded towards 0.
    Divide,
    /// What is left by the quotient rounded towards 0. It has the sign of the first operand.
    Remainder,
}

/// A test of two whole numbers.
#[derive(Clone, Copy, Debug, PartialEq, Eq)]
pub enum Comparison {
    Equal,
    Unequal,
    Less,
    AtMost,
}

/// A test of two texts, byte by byte.
#[derive(Clone, Copy, Debug, PartialEq, Eq)]
pub enum Equality {
    Equal,
    Unequal,
}
