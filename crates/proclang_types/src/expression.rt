//! Expressions, each with its type.

use crate::operator::{Comparison, Equality, IntOperator};
use values::{TableNo, Text};

/// An expression whose value is a whole number in the signed 64-bit range.
#[derive(Debug, Drop)]
pub enum IntExpr {
    Number(i64),
    /// The variable at that place of the scope.
    Variable(usize),
    Binary(IntOperator, Box<IntExpr>, Box<IntExpr>),
    /// The number of rows of a partition.
    Count {
        table: TableNo,
        part: Box<IntExpr>,
    },
    /// The exact total of an int column over the rows of a partition.
    Sum {
        table: TableNo,
        part: Box<IntExpr>,
        column: usize,
    },
}

/// An expression whose value is a text.
#[derive(Debug, Drop)]
pub enum TextExpr {
    Literal(Text),
    /// The variable at that place of the scope.
    Variable(usize),
}

/// An expression that is true or false.
#[derive(Debug, Drop)]
pub enum BoolExpr {
    CompareInts(Comparison, IntExpr, IntExpr),
    CompareTexts(Equality, TextExpr, TextExpr),
    /// Both are true. The second is evaluated only where the first is.
    And(Box<BoolExpr>, Box<BoolExpr>),
    /// One is true, or both. The second is evaluated only where the first is not true.
    Or(Box<BoolExpr>, Box<BoolExpr>),
    Not(Box<BoolExpr>),
    /// The row with that key is there.
    Exists { table: TableNo, key: IntExpr },
}

/// An expression whose value may be in a row, a variable or a reply.
#[derive(Debug, Drop)]
pub enum ValueExpr {
    Int(IntExpr),
    Text(TextExpr),
}

/// An expression of any type, as it is read.
#[derive(Debug, Drop)]
pub enum Expr {
    Int(IntExpr),
    Text(TextExpr),
    Bool(BoolExpr),
}
