//! What a run comes to.

use meaning::Outcome;
use std::collections::BTreeMap;
use values::{Row, RowName};

/// A run's outcome, and its writes: at each name the row that is there from now on, or that there is none. A run that
/// does not commit has none.
#[derive(Drop)]
pub struct Effect {
    pub outcome: Outcome,
    pub writes: BTreeMap<RowName, Option<Row>>,
}
