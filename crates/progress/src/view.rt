//! What a pass knows of the published list.

use crate::tally::Tally;
use std::collections::LinkedList;

/// What a pass knows. No value of it is made.
pub struct View {
    /// Whether it is the writer's, which knows the whole list.
    pub writes: bool,
    /// A beginning of the published list, up to the last tally that was read or told.
    pub seen: LinkedList<Tally>,
    /// A second beginning, which the next load compares with the first.
    pub also: LinkedList<Tally>,
}
