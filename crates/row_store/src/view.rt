//! What is shown: by a store the rows that are not lent to be written, by a loan the names that its plan locks.

use crate::held::Holdings;
use crate::loan::Loan;
use crate::store::RowStore;
use shelves::{has_ends, next_row, push_rows, row_at, shelf_of};
use std::alloc::AllocError;
use values::{Key, Row, RowName, TableNo};
use workspace::RowView;

impl RowView for RowStore {
    ghost use Rattle.row_store.specs.Stock.{is_free};

    ghost tables = { λ s. s.tables };

    ghost shows = { λ s name. is_free s.tables s.lent name };

    ghost rows = { λ s. s.rows };

    fn row(&self, table: TableNo, key: Key) -> Option<&Row> {
        let name = RowName::new(table, key);
        row_at(&self.shelves, &shelf_of(&self.catalogue, name), &name)
    }

    fn next_row(&self, table: TableNo, part: u32, after: Option<Key>) -> Option<(Key, &Row)> {
        next_row(&self.catalogue, &self.shelves, table, part, &after)
    }

    fn push_rows<'a>(
        &'a self,
        table: TableNo,
        part: u32,
        gathered: &mut Vec<(Key, &'a Row)>,
    ) -> Result<(), AllocError> {
        push_rows(&self.catalogue, &self.shelves, table, part, gathered)
    }
}

impl RowView for Loan {
    ghost use Rattle.proclang_types.specs.declared.right.Right.TheVariants.{Read};
    ghost use Rattle.coarsen.specs.Clashes.{locks_row};

    ghost tables = { λ l. l.tables };

    ghost shows = { λ l name. locks_row l.tables l.plan name Read };

    ghost rows = { λ l. l.rows };

    fn row(&self, table: TableNo, key: Key) -> Option<&Row> {
        let name = RowName::new(table, key);
        match &self.held {
            Holdings::Rows(held) => held.row(&name),
            Holdings::Shelves(held) => {
                row_at(&held.shelves, &shelf_of(&self.catalogue, name), &name)
            }
        }
    }

    fn next_row(&self, table: TableNo, part: u32, after: Option<Key>) -> Option<(Key, &Row)> {
        // proof: a partition with a name has a last one.
        has_ends(&self.catalogue);
        match &self.held {
            // The plan locks no shelf whole and no last name of a partition, so that the loan shows no partition.
            Holdings::Rows(_) => None,
            Holdings::Shelves(held) => {
                next_row(&self.catalogue, &held.shelves, table, part, &after)
            }
        }
    }

    fn push_rows<'a>(
        &'a self,
        table: TableNo,
        part: u32,
        gathered: &mut Vec<(Key, &'a Row)>,
    ) -> Result<(), AllocError> {
        // proof: a partition with a name has a last one.
        has_ends(&self.catalogue);
        match &self.held {
            // The plan locks no shelf whole and no last name of a partition, so that the loan shows no partition.
            Holdings::Rows(_) => Ok(()),
            Holdings::Shelves(held) => {
                push_rows(&self.catalogue, &held.shelves, table, part, gathered)
            }
        }
    }
}
