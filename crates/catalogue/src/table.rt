//! A table of a catalogue.

use crate::split::Split;
use indexmap::IndexMap;
use values::ColType;

/// How a table's keys are split over its partitions, and its columns in order.
#[derive(Drop)]
pub struct Table {
    pub(crate) split: Split,
    pub(crate) columns: IndexMap<String, ColType>,
}
