//! Where the place of a row name is.

ghost use Rattle.std.specs.Prelude.{◌≡◌, unwrap_or};
ghost use Rattle.catalogue.specs.Places.{partition_of};
ghost use Rattle.shelves.specs.Shelving.{shelf_of, shelf_at, is_end, HasEnds};

use catalogue::Catalogue;
use footprint::{InPart, InTable, Resource};
use values::{RowName, TableNo};

/// The partition of a row name, 0 of a name whose table is not the catalogue's.
pub(crate) fn part_of(catalogue: &Catalogue, name: &RowName) -> u32
    ensures { result ≡ unwrap_or (partition_of catalogue.now name.now.table name.now.key) 0 }
{
    if name.table.place() < catalogue.len() {
        catalogue.part_of(name.table, name.key)
    } else {
        0
    }
}

/// Whether a partition ends with a row name, at a bound.
pub fn ends_partition(catalogue: &Catalogue, name: &RowName) -> bool
    ensures { result ≡ is_end catalogue.now name.now }
{
    name.table.place() < catalogue.len() && catalogue.ends_partition(name.table, name.key)
}

/// A law; nothing is done. A partition with a name has a last name, or names that are no resource's.
pub fn has_ends(catalogue: &Catalogue)
    ensures { HasEnds catalogue.now }
{
    // The rules of catalogues say it: a table has partitions, and bounds rise.
    let _tables = catalogue.len();
}

/// The resource at which the shelf of a partition is: the partition itself, if the catalogue has it.
#[tactic(auto, unfolding(crate::specs::Shelving::shelf_at))]
pub(crate) fn shelf_at(catalogue: &Catalogue, table: TableNo, part: u32) -> Resource
    ensures { result ≡ shelf_at catalogue.now table part }
{
    if table.place() >= catalogue.len() {
        return Resource::Db;
    }
    match catalogue.part(table, i64::from(part)) {
        Some(part) => Resource::Table(table, InTable::Part(part, InPart::WholePart)),
        None => Resource::Table(table, InTable::WholeTable),
    }
}

/// The resource at which the place of a row name is: its partition.
#[tactic(auto, unfolding(crate::specs::Shelving::shelf_of))]
pub fn shelf_of(catalogue: &Catalogue, name: RowName) -> Resource
    ensures { result ≡ shelf_of catalogue.now name }
{
    shelf_at(catalogue, name.table, part_of(catalogue, &name))
}
