//! The shelves of a new store.

ghost use Rattle.std.specs.Prelude.{◌≡◌, Some, false, IfOk, OnOk};
ghost use Rattle.std.specs.FinMap as map;
ghost use Rattle.values.specs.declared.name.RowName.{RowName as AnyName};
ghost use Rattle.footprint.specs.declared.resource.Resource.{Resource as AnyResource};
ghost use Rattle.shelves.specs.Places.{is_away};
ghost use Rattle.shelves.specs.Shelving.{shelf_of};
ghost use Rattle.shelves.specs.Rows.{with_rows, rows_of, found};

use crate::shelves::{Shelves, add_row};
use crate::shelving::shelf_of;
use catalogue::Catalogue;
use std::alloc::Global;
use std::collections::BTreeMap;
use std::sync::Arc;
use values::{Key, NoMemory, Row, RowName, TableNo};

/// Puts a row in place of what has its name.
fn put_row(
    alloc: Global,
    catalogue: &Catalogue,
    shelves: &mut Shelves,
    name: RowName,
    row: Row,
) -> Result<(), NoMemory>
    ensures rows { OnOk result (rows_of catalogue.now shelves.new
        ≡ map.insert (rows_of catalogue.now shelves.old) name row) }
    ensures here { OnOk result (((q : AnyName) →
        (found catalogue.now shelves.old q).row ≡ (found catalogue.now shelves.old q).counts_as) → (q : AnyName) →
        (found catalogue.now shelves.new q).row ≡ (found catalogue.now shelves.new q).counts_as) }
    ensures away { OnOk result ((d : AnyResource) → is_away shelves.new d ≡ is_away shelves.old d) }
{
    let row = Arc::new(alloc, row)?;
    add_row(alloc, shelves, &shelf_of(catalogue, name), &name, Some(row))?;
    Ok(())
}

/// The shelves with these rows. Of two rows with one name the later one stays.
pub fn filled(
    alloc: Global,
    catalogue: &Catalogue,
    rows: Vec<(TableNo, Key, Row)>,
) -> Result<Shelves, NoMemory>
    ensures rows { IfOk result (λ shelves. rows_of catalogue.now shelves ≡ with_rows map.empty rows.items) }
    ensures here { IfOk result (λ shelves. (q : AnyName) →
        (found catalogue.now shelves q).row ≡ (found catalogue.now shelves q).counts_as) }
    ensures away { IfOk result (λ shelves. (d : AnyResource) → is_away shelves d ≡ false) }
{
    let mut shelves = BTreeMap::new(alloc);
    for (table, key, row) in rows {
        put_row(
            alloc,
            catalogue,
            &mut shelves,
            RowName::new(table, key),
            row,
        )?;
    }
    Ok(shelves)
}
