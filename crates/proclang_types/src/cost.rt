//! What a call of a procedure costs at most, as far as its syntax tells.

use crate::expression::{BoolExpr, IntExpr, ValueExpr};
use crate::statement::{FootprintEntry, ProcFootprint, Stmt};

/// What a call costs at most. It is reckoned once, where the procedure is declared.
#[derive(Clone, Copy, Debug, PartialEq, Eq)]
pub struct Cost {
    /// How many steps it takes at most: a statement is one, and so is a turn of a loop. `None` where a loop has other
    /// bounds than literals. The steps of an expression aren't counted.
    pub steps: Option<usize>,
    /// Whether it may look through a partition, and not at single rows alone: it counts rows, adds up a column or goes
    /// from key to key, and declares more than single rows.
    pub looks_through_partitions: bool,
}

/// How many numbers there are between two, both included, `None` where they are too many to count.
fn count_numbers(low: i64, high: i64) -> Option<usize> {
    if low > high {
        return Some(0);
    }
    usize::try_from(high.checked_sub(low)?.checked_add(1)?).ok()
}

/// How many steps a statement takes at most. A choice takes those of its longer block, and a loop between two literals
/// those of each turn.
#[cycle(steps)]
fn count_statement(statement: &Stmt) -> Option<usize> {
    match statement {
        Stmt::If { first, second, .. } => {
            let first = count_steps(first)?;
            let second = count_steps(second)?;
            first.max(second).checked_add(1)
        }
        Stmt::For {
            low: IntExpr::Number(low),
            high: IntExpr::Number(high),
            body,
        } => {
            let turn = count_steps(body)?.checked_add(1)?;
            count_numbers(*low, *high)?
                .checked_mul(turn)?
                .checked_add(1)
        }
        Stmt::For { .. } | Stmt::Each { .. } => None,
        _ => Some(1),
    }
}

/// How many steps a block takes at most.
#[cycle(steps)]
fn count_steps(block: &[Stmt]) -> Option<usize> {
    let mut steps: usize = 0;
    for statement in block {
        steps = steps.checked_add(count_statement(statement)?)?;
    }
    Some(steps)
}

/// Whether an expression looks through a partition: it counts the rows there or adds up a column.
fn number_scans(expression: &IntExpr) -> bool {
    match expression {
        IntExpr::Number(_) | IntExpr::Variable(_) => false,
        IntExpr::Binary(_, left, right) => number_scans(left) || number_scans(right),
        IntExpr::Count { .. } | IntExpr::Sum { .. } => true,
    }
}

/// Whether a test looks through a partition.
fn test_scans(test: &BoolExpr) -> bool {
    match test {
        BoolExpr::CompareInts(_, left, right) => number_scans(left) || number_scans(right),
        BoolExpr::CompareTexts(..) => false,
        BoolExpr::And(left, right) | BoolExpr::Or(left, right) => {
            test_scans(left) || test_scans(right)
        }
        BoolExpr::Not(operand) => test_scans(operand),
        BoolExpr::Exists { key, .. } => number_scans(key),
    }
}

/// Whether a value looks through a partition.
fn value_scans(value: &ValueExpr) -> bool {
    match value {
        ValueExpr::Int(expression) => number_scans(expression),
        ValueExpr::Text(_) => false,
    }
}

/// Whether a statement, or one in it, looks through a partition.
#[cycle(scans)]
fn statement_scans(statement: &Stmt) -> bool {
    match statement {
        Stmt::Let { value, .. } => value_scans(value),
        Stmt::Get { key, .. } | Stmt::Delete { key, .. } => number_scans(key),
        Stmt::Put { key, value, .. } => number_scans(key) || value_scans(value),
        Stmt::Insert { key, values, .. } => number_scans(key) || values.iter().any(value_scans),
        Stmt::If {
            test,
            first,
            second,
        } => test_scans(test) || block_scans(first) || block_scans(second),
        Stmt::For { low, high, body } => {
            number_scans(low) || number_scans(high) || block_scans(body)
        }
        Stmt::Each { .. } => true,
        Stmt::Abort(_) => false,
        Stmt::Reply(values) => values.iter().any(value_scans),
    }
}

/// Whether a statement of a block looks through a partition.
#[cycle(scans)]
fn block_scans(block: &[Stmt]) -> bool {
    for statement in block {
        if statement_scans(statement) {
            return true;
        }
    }
    false
}

/// Whether an entry of a declaration is one row.
fn is_row(entry: &FootprintEntry) -> bool {
    matches!(entry, FootprintEntry::Row { .. })
}

/// Whether a footprint is declared, and has single rows alone.
fn declares_rows(footprint: &ProcFootprint) -> bool {
    match footprint {
        ProcFootprint::Declared(entries) => entries.iter().all(is_row),
        ProcFootprint::Recon => false,
    }
}

impl Cost {
    /// What a call of a procedure with that footprint and that body costs at most.
    pub(crate) fn of(footprint: &ProcFootprint, body: &[Stmt]) -> Cost {
        Cost {
            steps: count_steps(body),
            looks_through_partitions: !declares_rows(footprint) && block_scans(body),
        }
    }
}
