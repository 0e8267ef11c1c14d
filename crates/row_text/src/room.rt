//! Room for the lines of several rows at a time.

use crate::words::WORD;
use values::{Key, Row, Value};

/// Up to how many rows of a table are near. More than these, with their values, are farther from the processor than its
/// own cache.
pub(crate) const MOST_NEAR: usize = 1 << 15;

/// How many lines are appended at a time. If their rows may be far, room is made for them first. To know how much it
/// is, their values are looked at, one row right after the other: they lie anywhere in memory, and the processor
/// fetches many of them at once if it has little else to do in between.
pub(crate) const TOGETHER: usize = 16;

/// The most bytes that a value takes, with the space before it.
fn most_of_value(value: &Value) -> usize {
    match value {
        Value::Int(_) => WORD,
        Value::Text(text) => text.as_str().len().saturating_mul(2).saturating_add(2),
    }
}

/// The most bytes that a row's key and values take.
fn most_of_row(row: &Row) -> usize {
    let mut most = WORD;
    for value in row.values() {
        most = most.saturating_add(most_of_value(value));
    }
    most
}

/// The most bytes that rows take in their lines, without the table's name.
pub(crate) fn most_of_rows(rows: &[(Key, &Row)]) -> usize {
    let mut most = 0_usize;
    for row in rows {
        most = most.saturating_add(most_of_row(row.1));
    }
    most
}
