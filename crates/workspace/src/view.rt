//! What a run reads.

ghost use Rattle.std.specs.Prelude.{◌≡◌, ◌++◌, IsTrue, OnOk, option_map, option_copied};

use std::alloc::AllocError;
use values::{Key, Row, TableNo};

/// Some of the rows of a database over the tables of a catalogue. Nothing is asked of how many values a row has, or of
/// which types.
pub trait RowView {
    ghost use Rattle.std.specs.Prelude.{Bool, List};
    ghost use Rattle.std.specs.FinMap as map;
    ghost use Rattle.catalogue.specs.Shapes.{TableShape};
    ghost use Rattle.values.specs.Database.{Database};
    ghost use Rattle.values.specs.declared.name.RowName.{RowName};
    ghost use Rattle.workspace.specs.Scan.{IsNext, ShowsPart, referred, rows_in_part};

    /// The tables, whose partitions the view goes through.
    ghost tables: { Self → List TableShape };

    /// The names that it shows, whether or not a row is there.
    ghost shows: { Self → RowName → Bool };

    /// The rows, of which those whose names are shown can be asked for.
    ghost rows: { Self → Database };

    /// The row with a name that is shown, `None` exactly where there is none.
    fn row(&self, table: TableNo, key: Key) -> Option<&Row>
        requires { IsTrue (shows self.now (record { table = table; key = key })) }
        ensures { option_copied result ≡ map.get (rows self.now) (record { table = table; key = key }) };

    /// The first row of a partition after a key, or from the partition's start, by ascending key; `None` exactly where
    /// there is none. The view shows each name of the partition.
    fn next_row(&self, table: TableNo, part: u32, after: Option<Key>) -> Option<(Key, &Row)>
        requires { ShowsPart (tables self.now) (shows self.now) table part }
        ensures { IsNext (tables self.now) (rows self.now) table part after (option_map (λ found.
            (found.0, found.1.now)) result) };

    /// Appends all rows of a partition with their keys, by ascending key. The view shows each name of the partition.
    /// If allocation fails, some of them may have been appended.
    fn push_rows<'a>(
        &'a self,
        table: TableNo,
        part: u32,
        gathered: &mut Vec<(Key, &'a Row)>,
    ) -> Result<(), AllocError>
        requires { ShowsPart (tables self.now) (shows self.now) table part }
        ensures { OnOk result (referred gathered.new.items
            ≡ referred gathered.old.items ++ rows_in_part (tables self.now) table part (rows self.now)) };
}
