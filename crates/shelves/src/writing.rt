//! Puts writes in place, all or none of them.

ghost use Rattle.std.specs.Prelude.{◌≡◌, true, is_some, OnOk, OnErr};
ghost use Rattle.std.specs.BTreeMap as tree;
ghost use Rattle.values.specs.declared.name.RowName.{RowName as AnyName};
ghost use Rattle.values.specs.Database.{name_cmp};
ghost use Rattle.footprint.specs.declared.resource.Resource.{Resource as AnyResource};
ghost use Rattle.shelves.specs.Places.{seen_at, has_shelf, is_away, has_place, written};
ghost use Rattle.shelves.specs.Named.{listed, is_listed};
ghost use Rattle.shelves.specs.Shelving.{shelf_of};

use crate::named::{NamedRow, listed_writes};
use crate::shelves::{Shelves, fill_place, make_place, write_row};
use crate::shelving::shelf_of;
use catalogue::Catalogue;
use std::alloc::Global;
use std::collections::BTreeMap;
use values::{NoMemory, Row, RowName};

/// Makes the places of all names of a list.
fn make_places(
    alloc: Global,
    catalogue: &Catalogue,
    shelves: &mut Shelves,
    rows: &[NamedRow],
) -> Result<(), NoMemory>
    ensures seen { (d : AnyResource) (q : AnyName) → seen_at shelves.new d q ≡ seen_at shelves.old d q }
    ensures kept { (d : AnyResource) (q : AnyName) → has_place shelves.old d q ≡ true →
        has_place shelves.new d q ≡ true }
    ensures shelves { (d : AnyResource) → has_shelf shelves.old d ≡ true → has_shelf shelves.new d ≡ true }
    ensures away { (d : AnyResource) → is_away shelves.new d ≡ is_away shelves.old d }
    ensures there { OnOk result ((q : AnyName) → is_listed rows.now q ≡ true →
        has_place shelves.new (shelf_of catalogue.now q) q ≡ true) }
{
    for entry in rows {
        make_place(
            alloc,
            shelves,
            &shelf_of(catalogue, entry.name),
            &entry.name,
        )?;
    }
    Ok(())
}

/// Puts the rows of a list in their places. Of two rows of one name the first stays.
fn fill_places(catalogue: &Catalogue, shelves: &mut Shelves, rows: Vec<NamedRow>)
    requires { (q : AnyName) → is_some (listed rows.items q) ≡ true →
        has_place shelves.old (shelf_of catalogue.now q) q ≡ true }
    ensures seen { (q : AnyName) →
        seen_at shelves.new (shelf_of catalogue.now q) q
        ≡ written (listed rows.items q) (seen_at shelves.old (shelf_of catalogue.now q) q) }
    ensures kept { (d : AnyResource) (q : AnyName) → has_place shelves.new d q ≡ has_place shelves.old d q }
    ensures shelves { (d : AnyResource) → has_shelf shelves.new d ≡ has_shelf shelves.old d }
    ensures away { (d : AnyResource) → is_away shelves.new d ≡ is_away shelves.old d }
{
    let mut left = rows;
    while let Some(NamedRow { name, row }) = left.pop() {
        fill_place(shelves, &shelf_of(catalogue, name), &name, row);
    }
}

/// Makes writes: puts each row in place of what has its name, and takes away the row of each name without one. All
/// memory is taken first, so that an `Err` leaves the rows as they were. Once that of the others is taken the last
/// write is made at once: then a row that nobody else has takes the values of the new one.
pub fn write(
    alloc: Global,
    catalogue: &Catalogue,
    shelves: &mut Shelves,
    writes: BTreeMap<RowName, Option<Row>>,
) -> Result<(), NoMemory>
    ensures seen { OnOk result ((q : AnyName) →
        seen_at shelves.new (shelf_of catalogue.now q) q
        ≡ written (tree.get name_cmp writes q) (seen_at shelves.old (shelf_of catalogue.now q) q)) }
    ensures err { OnErr result ((d : AnyResource) (q : AnyName) → seen_at shelves.new d q ≡ seen_at shelves.old d q) }
    ensures kept { (d : AnyResource) (q : AnyName) → has_place shelves.old d q ≡ true →
        has_place shelves.new d q ≡ true }
    ensures shelves { (d : AnyResource) → has_shelf shelves.old d ≡ true → has_shelf shelves.new d ≡ true }
    ensures away { (d : AnyResource) → is_away shelves.new d ≡ is_away shelves.old d }
{
    let mut others = writes;
    let Some((name, row)) = others.pop_last() else {
        return Ok(());
    };
    let others = listed_writes(alloc, others)?;
    make_places(alloc, catalogue, shelves, &others)?;
    write_row(alloc, shelves, &shelf_of(catalogue, name), &name, row)?;
    fill_places(catalogue, shelves, others);
    Ok(())
}
