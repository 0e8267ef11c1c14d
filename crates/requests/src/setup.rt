//! Setups.

ghost use Rattle.std.specs.Prelude.{◌≡◌, ◌≤◌};

use crate::procs::Procs;
use catalogue::Catalogue;
use values::{Key, Row, TableNo};

/// What a run starts from.
#[derive(Drop)]
pub struct Setup {
    pub catalogue: Catalogue,
    /// The procedures, over the tables of the catalogue.
    pub procs: Procs,
    /// The starting rows in the document's order. No two have one table and key.
    pub rows: Vec<(TableNo, Key, Row)>,
    /// How often a stale request is tried again: 0 to 2.
    pub retries: u8,
    ghost over: { procs.tables ≡ catalogue },
    ghost few: { retries ≤ 2 },
}
