//! Going through own writes.

ghost use Rattle.std.specs.Prelude.{◌≡◌};
ghost use Rattle.workspace.specs.Walks.{IsNextKey, IsNextWrite, bound_of, own_rows};

use crate::permit::part_of;
use crate::workspace::Workspace;
use catalogue::Catalogue;
use std::ops::Bound;
use values::{Key, RowName, TableNo};

/// Where the names of a table after a key begin.
fn bound_of(table: TableNo, after: Option<Key>) -> Bound<RowName>
    ensures { result ≡ bound_of table after }
{
    match after {
        None => Bound::Included(RowName::new(table, Key::zero())),
        Some(key) => Bound::Excluded(RowName::new(table, key)),
    }
}

impl Workspace {
    /// The first write in a table after a key, or from the start, and whether it leaves a row.
    fn next_write(&self, table: TableNo, after: Option<Key>) -> Option<(Key, bool)>
        ensures { IsNextWrite self.now.writes.entries table after result }
    {
        let start = bound_of(table, after);
        let (name, write) = self.writes.range((start, Bound::Unbounded)).next()?;
        if name.table == table {
            Some((name.key, write.is_some()))
        } else {
            None
        }
    }

    /// The first key of a partition after a key, or from the start, at which a row was written.
    #[tactic(auto, using(crate::proofs::OwnRows::found, crate::proofs::OwnRows::passed, crate::proofs::OwnRows::ended))]
    pub(crate) fn next_own(
        &self,
        catalogue: &Catalogue,
        table: TableNo,
        part: u32,
        after: &Option<Key>,
    ) -> Option<Key>
        ensures { IsNextKey catalogue.now (own_rows self.now.writes.entries) table part after.now result }
    {
        let mut at = *after;
        while let Some((key, live)) = self.next_write(table, at) {
            if live && part_of(catalogue, table, key) == part {
                return Some(key);
            }
            at = Some(key);
        }
        None
    }
}
