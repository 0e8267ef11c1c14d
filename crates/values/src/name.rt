//! Names of tables and of rows.

use crate::key::Key;
use std::marker::Model;

/// A table of a catalogue: its place from 0, in declared order.
#[derive(Clone, Copy, Debug, PartialEq, Eq, PartialOrd, Ord, Hash)]
pub struct TableNo {
    place: usize,
}

impl Model for TableNo {
    ghost use Rattle.std.specs.Prelude.{ℕ};

    ghost Value = { ℕ };

    ghost view = { λ t. t.place };

    ghost inverse = { λ n. record { place = n } };
}

impl TableNo {
    ghost use Rattle.std.specs.Prelude.{◌≡◌};

    /// The table at a place of the catalogue.
    pub fn new(place: usize) -> TableNo
        ensures { result ≡ place }
    {
        TableNo { place }
    }

    /// The table's place.
    pub fn place(&self) -> usize
        ensures { result ≡ self.now }
    {
        self.place
    }
}

/// A row's name, whether or not such a row is there.
#[derive(Clone, Copy, Debug, PartialEq, Eq, PartialOrd, Ord, Hash)]
pub struct RowName {
    pub table: TableNo,
    pub key: Key,
}

impl RowName {
    ghost use Rattle.std.specs.Prelude.{◌≡◌};

    /// The name of the row of that table with that key.
    pub fn new(table: TableNo, key: Key) -> RowName
        ensures { result ≡ record { table = table; key = key } }
    {
        RowName { table, key }
    }
}
