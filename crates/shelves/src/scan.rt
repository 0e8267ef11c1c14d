//! Going through the rows of a partition.

ghost use Rattle.std.specs.Prelude.{◌≡◌, ◌++◌, true, None, if◌then◌else◌, option_map, OnOk};
ghost use Rattle.std.specs.FinMap as map;
ghost use Rattle.values.specs.declared.name.RowName.{RowName as AnyName};
ghost use Rattle.values.specs.Database.{Database};
ghost use Rattle.workspace.specs.Scan.{IsNext, is_after, is_ahead, is_in_part, referred, rows_in_part};
ghost use Rattle.shelves.specs.Places.{row_of, seen_in};
ghost use Rattle.shelves.specs.Scans.{scan_start};
ghost use Rattle.shelves.specs.Rows.{found};

use crate::place::Place;
use crate::shelf::Shelf;
use crate::shelves::Shelves;
use crate::shelving::{part_of, shelf_at};
use catalogue::Catalogue;
use std::alloc::AllocError;
use std::ops::Bound;
use values::{Key, Row, RowName, TableNo};

fn is_after(after: &Option<Key>, key: Key) -> bool
    ensures { result ≡ is_after after.now key }
{
    match after {
        Some(before) => before.number() < key.number(),
        None => true,
    }
}

fn is_ahead(
    catalogue: &Catalogue,
    table: TableNo,
    part: u32,
    after: &Option<Key>,
    name: &RowName,
) -> bool
    ensures { result ≡ is_ahead catalogue.now table part after.now name.now }
{
    name.table == table && part_of(catalogue, name) == part && is_after(after, name.key)
}

/// The row at a place whose name is ahead.
fn row_ahead<'a>(
    catalogue: &Catalogue,
    table: TableNo,
    part: u32,
    after: &Option<Key>,
    name: &RowName,
    place: &'a Place,
) -> Option<&'a Row>
    ensures { option_map (λ row. row.now) result ≡ (if is_ahead catalogue.now table part after.now name.now
        then row_of place.now else None) }
{
    let row = place.row()?;
    if is_ahead(catalogue, table, part, after, name) {
        Some(row)
    } else {
        None
    }
}

/// Where the names of a table after a key start.
fn scan_start(table: TableNo, after: &Option<Key>) -> Bound<RowName>
    ensures { result ≡ scan_start table after.now }
{
    match after {
        Some(key) => Bound::Excluded(RowName::new(table, *key)),
        None => Bound::Unbounded,
    }
}

/// The first row of a partition that is on a shelf, after a key or from the partition's start. Places without a row
/// are passed over.
fn next_on<'a>(
    catalogue: &Catalogue,
    shelf: &'a Shelf,
    table: TableNo,
    part: u32,
    after: &Option<Key>,
) -> Option<(Key, &'a Row)>
    ensures { (db : Database) → ((q : AnyName) → is_in_part catalogue.now table part q ≡ true →
        map.get db q ≡ (seen_in shelf.now q).row) →
        IsNext catalogue.now db table part after.now (option_map (λ found. (found.0, found.1.now)) result) }
{
    for (name, place) in shelf
        .places()
        .range((scan_start(table, after), Bound::Unbounded))
    {
        if let Some(row) = row_ahead(catalogue, table, part, after, name, place) {
            return Some((name.key, row));
        }
    }
    None
}

/// The first row of a partition that is there, after a key or from the partition's start.
pub fn next_row<'a>(
    catalogue: &Catalogue,
    shelves: &'a Shelves,
    table: TableNo,
    part: u32,
    after: &Option<Key>,
) -> Option<(Key, &'a Row)>
    ensures { (db : Database) → ((q : AnyName) → is_in_part catalogue.now table part q ≡ true →
        map.get db q ≡ (found catalogue.now shelves.now q).row) →
        IsNext catalogue.now db table part after.now (option_map (λ found. (found.0, found.1.now)) result) }
{
    match shelves.get(&shelf_at(catalogue, table, part)) {
        Some(shelf) => next_on(catalogue, shelf, table, part, after),
        None => None,
    }
}

/// Appends the rows of a partition that are on a shelf, by ascending key. Places without a row are passed over.
fn push_rows_on<'a>(
    catalogue: &Catalogue,
    shelf: &'a Shelf,
    table: TableNo,
    part: u32,
    gathered: &mut Vec<(Key, &'a Row)>,
) -> Result<(), AllocError>
    ensures { (db : Database) → ((q : AnyName) → is_in_part catalogue.now table part q ≡ true →
        map.get db q ≡ (seen_in shelf.now q).row) →
        OnOk result (referred gathered.new.items
        ≡ referred gathered.old.items ++ rows_in_part catalogue.now table part db) }
{
    let places = shelf.places();
    gathered.reserve(places.len())?;
    for (name, place) in places {
        if let Some(row) = row_ahead(catalogue, table, part, &None, name, place) {
            if gathered.push((name.key, row)).is_err() {
                return Err(AllocError);
            }
        }
    }
    Ok(())
}

/// Appends the rows of a partition that are there, by ascending key.
pub fn push_rows<'a>(
    catalogue: &Catalogue,
    shelves: &'a Shelves,
    table: TableNo,
    part: u32,
    gathered: &mut Vec<(Key, &'a Row)>,
) -> Result<(), AllocError>
    ensures { (db : Database) → ((q : AnyName) → is_in_part catalogue.now table part q ≡ true →
        map.get db q ≡ (found catalogue.now shelves.now q).row) →
        OnOk result (referred gathered.new.items
        ≡ referred gathered.old.items ++ rows_in_part catalogue.now table part db) }
{
    match shelves.get(&shelf_at(catalogue, table, part)) {
        Some(shelf) => push_rows_on(catalogue, shelf, table, part, gathered),
        None => Ok(()),
    }
}
