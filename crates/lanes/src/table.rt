//! Lanes as threads share them.

use crate::runs::Runs;
use scheduler::{Done, Job};
use std::alloc::Global;
use std::marker::Model;

/// Lanes, numbered from 0. Threads share them by reference.
#[derive(Drop)]
pub struct Lanes {
    pub(crate) alloc: Global,
    pub(crate) table: hand_off::Lanes<Job, Done, Runs>,
}

impl Model for Lanes {
    ghost use Rattle.std.specs.Prelude.{◌<◌};
    ghost use Rattle.lanes.specs.Seats.{LanesOf, lanes_code};

    ghost Value = { LanesOf };

    ghost coded = { lanes_code };

    ghost view = { λ l. record { table = l.table.table.shared.table_id; count = l.table.count } };

    ghost invariant = { λ l. 0 < l.table.count };
}
