//! Rows that are lent by their names, and given back.

ghost use Rattle.std.specs.Prelude.{◌≡◌, true, false, ◌&&◌, if◌then◌else◌, None, IfOk};
ghost use Rattle.values.specs.declared.name.RowName.{RowName as AnyName};
ghost use Rattle.footprint.specs.declared.resource.Resource.{Resource as AnyResource};
ghost use Rattle.proclang_types.specs.declared.right.Right.TheVariants.{Read, Write};
ghost use Rattle.footprint.specs.InTreeOrder.{IsInTreeOrder};
ghost use Rattle.coarsen.specs.Plans.{IsPlanOver};
ghost use Rattle.shelves.specs.Places.{seen_at, has_shelf, is_away, has_place, written};
ghost use Rattle.shelves.specs.Shelving.{shelf_of};
ghost use Rattle.row_store.specs.Locked.{gives, name_of, locks_itself};
ghost use Rattle.row_store.specs.Named.{reads_only, reads_itself, AreDistinct, AreListed};
ghost use Rattle.shelves.specs.Named.{listed, is_listed, names_listed};
ghost use Rattle.shelves.specs.Rows.{found};

use crate::locked::{gives, name_of};
use catalogue::Catalogue;
use footprint::{Resource, Right};
use modes::Mode;
use shelves::{NamedRow, Shelves, lend_row, put_row, share_row, shelf_of};
use std::alloc::Global;
use values::{NoMemory, RowName};

/// The row name that a request locks by itself to write.
fn written_name(resource: &Resource, mode: Mode) -> Option<RowName>
    ensures { result ≡ (if gives Write mode then name_of resource.now else None) }
{
    if gives(Right::Write, mode) {
        name_of(resource)
    } else {
        None
    }
}

/// The row name that a request locks by itself to read alone.
fn read_name(resource: &Resource, mode: Mode) -> Option<RowName>
    ensures { result ≡ (if reads_only mode then name_of resource.now else None) }
{
    if gives(Right::Read, mode) && !gives(Right::Write, mode) {
        name_of(resource)
    } else {
        None
    }
}

/// The rows at the names that requests lock by themselves to write, shared with the store,
/// where each name gets a place.
pub(crate) fn written_rows(
    alloc: Global,
    catalogue: &Catalogue,
    shelves: &mut Shelves,
    requests: &[(Resource, Mode)],
) -> Result<Vec<NamedRow>, NoMemory>
    requires over { IsPlanOver catalogue.now requests.now }
    requires sorted { IsInTreeOrder requests.now }
    ensures seen { (d : AnyResource) (q : AnyName) → seen_at shelves.new d q ≡ seen_at shelves.old d q }
    ensures kept { (d : AnyResource) (q : AnyName) → has_place shelves.old d q ≡ true →
        has_place shelves.new d q ≡ true }
    ensures shelves { (d : AnyResource) → has_shelf shelves.old d ≡ true → has_shelf shelves.new d ≡ true }
    ensures away { (d : AnyResource) → is_away shelves.new d ≡ is_away shelves.old d }
    ensures rows { IfOk result
        (λ rows. AreListed catalogue.now rows.items (locks_itself requests.now Write) shelves.old) }
    ensures there { IfOk result (λ rows. (q : AnyName) → locks_itself requests.now Write q ≡ true →
        has_place shelves.new (shelf_of catalogue.now q) q ≡ true) }
    ensures distinct { IfOk result (λ rows. AreDistinct (names_listed rows.items)) }
{
    let mut rows = Vec::new(alloc);
    for (resource, mode) in requests {
        if let Some(name) = written_name(resource, *mode) {
            let row = lend_row(alloc, shelves, &shelf_of(catalogue, name), &name)?;
            rows.push(NamedRow { name, row })?;
        }
    }
    Ok(rows)
}

/// The rows at the names that requests lock by themselves to read alone, shared with the store.
pub(crate) fn read_rows(
    alloc: Global,
    catalogue: &Catalogue,
    shelves: &Shelves,
    requests: &[(Resource, Mode)],
) -> Result<Vec<NamedRow>, NoMemory>
    ensures { IfOk result (λ rows. AreListed catalogue.now rows.items (reads_itself requests.now) shelves.now) }
{
    let mut rows = Vec::new(alloc);
    for (resource, mode) in requests {
        if let Some(name) = read_name(resource, *mode) {
            let row = share_row(shelves, &shelf_of(catalogue, name), &name)?;
            rows.push(NamedRow { name, row })?;
        }
    }
    Ok(rows)
}

/// Moves the rows of a list into their places in the store. It takes no memory and copies no row.
pub(crate) fn put_listed(catalogue: &Catalogue, shelves: &mut Shelves, rows: Vec<NamedRow>)
    requires there { (q : AnyName) → is_listed rows.items q ≡ true →
        has_place shelves.old (shelf_of catalogue.now q) q ≡ true }
    requires distinct { AreDistinct (names_listed rows.items) }
    ensures seen { (q : AnyName) →
        found catalogue.now shelves.new q ≡ written (listed rows.items q) (found catalogue.now shelves.old q) }
    ensures places { (q : AnyName) → is_listed rows.items q ≡ false →
        has_place shelves.new (shelf_of catalogue.now q) q ≡ has_place shelves.old (shelf_of catalogue.now q) q }
    ensures shelves { (d : AnyResource) → has_shelf shelves.new d ≡ has_shelf shelves.old d }
    ensures away { (d : AnyResource) → is_away shelves.new d ≡ is_away shelves.old d }
{
    for NamedRow { name, row } in rows {
        put_row(shelves, &shelf_of(catalogue, name), &name, row);
    }
}
