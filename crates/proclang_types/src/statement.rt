//! Statements, and the entries of a footprint.

use crate::expression::{BoolExpr, IntExpr, ValueExpr};
use crate::right::Right;
use values::TableNo;

/// A statement of a procedure's body.
#[derive(Debug, Drop)]
pub enum Stmt {
    /// The variable gets the value. Where its place is the number of variables seen it is declared, and else changed.
    Let {
        variable: usize,
        value: ValueExpr,
    },
    /// The variable gets the value of the column of the row with that key. It is declared or changed as by `Let`.
    Get {
        variable: usize,
        table: TableNo,
        key: IntExpr,
        column: usize,
    },
    /// The column of the row with that key gets the value.
    Put {
        table: TableNo,
        key: IntExpr,
        column: usize,
        value: ValueExpr,
    },
    /// A new row with that key: one value a column, in the columns' order.
    Insert {
        table: TableNo,
        key: IntExpr,
        values: Vec<ValueExpr>,
    },
    /// The row with that key is no more.
    Delete {
        table: TableNo,
        key: IntExpr,
    },
    /// The first block where the test is true, and else the second.
    If {
        test: BoolExpr,
        first: Vec<Stmt>,
        second: Vec<Stmt>,
    },
    /// The block for each number from `low` to `high`, both included. The number is the block's first variable, after
    /// all that are seen.
    For {
        low: IntExpr,
        high: IntExpr,
        body: Vec<Stmt>,
    },
    /// The block for each key that the partition holds when the statement begins, ascending. The key is the block's
    /// first variable, after all that are seen.
    Each {
        table: TableNo,
        part: IntExpr,
        body: Vec<Stmt>,
    },
    /// Ends the transaction with that code, 100 to 65535.
    Abort(u16),
    /// Appends the values to the reply.
    Reply(Vec<ValueExpr>),
}

/// An entry of a declared footprint. Its expressions are over the parameters, and ask for no rows.
#[derive(Debug, Drop)]
pub enum FootprintEntry {
    /// The name of one row.
    Row {
        right: Right,
        table: TableNo,
        key: IntExpr,
    },
    /// The names of the rows with each key from `low` to `high`, both included: none where `high` is less.
    Rows {
        right: Right,
        table: TableNo,
        low: IntExpr,
        high: IntExpr,
    },
    /// A partition, by its number from 0.
    Part {
        right: Right,
        table: TableNo,
        part: IntExpr,
    },
    /// A whole table.
    Table {
        right: Right,
        table: TableNo,
    },
    /// The whole database.
    Db {
        right: Right,
    },
}

/// How the footprint of a procedure's calls is known.
#[derive(Debug, Drop)]
pub enum ProcFootprint {
    /// These entries declare it, 0 to 256.
    Declared(Vec<FootprintEntry>),
    /// Reconnaissance finds it for each call.
    Recon,
}
