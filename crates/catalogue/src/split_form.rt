//! How a document says that a table's keys are split.

use serde_json::Value;

/// How a document says that a table's keys are split, whatever its numbers are.
#[derive(Clone, Copy)]
pub(crate) enum SplitForm<'a> {
    /// Over a number of partitions.
    Counted(i64),
    /// At the bounds that these documents say, each of which is a whole number.
    Bounded(&'a [Value]),
}
