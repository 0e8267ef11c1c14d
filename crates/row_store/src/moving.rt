//! Moves the rows of names between the shelves of a store and those of a loan.

ghost use Rattle.std.specs.Prelude.{◌≡◌, true, false, ◌&&◌, OnOk};
ghost use Rattle.values.specs.declared.name.RowName.{RowName as AnyName};
ghost use Rattle.footprint.specs.declared.resource.Resource.{Resource as AnyResource};
ghost use Rattle.shelves.specs.Places.{has_shelf, is_away, has_place, seen_at, is_same_shelf, is_same_name, is_named};
ghost use Rattle.shelves.specs.Shelving.{shelf_of};
ghost use Rattle.row_store.specs.Moving.{AreEmptied, IsShared, AreShared, IsRowPut, AreOthersKept, AreRowsPut};

use catalogue::Catalogue;
use footprint::Resource;
use shelves::{Shelves, add_row, empty_place, make_place, put_row, share_row, shelf_of, take_row};
use std::alloc::Global;
use values::{NoMemory, RowName};

/// Sees to it that names have places.
pub(crate) fn make_places(
    alloc: Global,
    catalogue: &Catalogue,
    shelves: &mut Shelves,
    names: &[RowName],
) -> Result<(), NoMemory>
    ensures seen { (d : AnyResource) (q : AnyName) → seen_at shelves.new d q ≡ seen_at shelves.old d q }
    ensures kept { (d : AnyResource) (q : AnyName) → has_place shelves.old d q ≡ true →
        has_place shelves.new d q ≡ true }
    ensures shelves { (d : AnyResource) → has_shelf shelves.old d ≡ true → has_shelf shelves.new d ≡ true }
    ensures away { (d : AnyResource) → is_away shelves.new d ≡ is_away shelves.old d }
    ensures there { OnOk result ((q : AnyName) → is_named names.now q ≡ true →
        has_place shelves.new (shelf_of catalogue.now q) q ≡ true) }
{
    for name in names {
        make_place(alloc, shelves, &shelf_of(catalogue, *name), name)?;
    }
    Ok(())
}

/// Empties the places of names. Their rows count as before.
pub(crate) fn empty_places(catalogue: &Catalogue, shelves: &mut Shelves, names: &[RowName])
    ensures seen { AreEmptied catalogue.now names.now shelves.old shelves.new }
    ensures places { (d : AnyResource) (q : AnyName) → has_place shelves.new d q ≡ has_place shelves.old d q }
    ensures shelves { (d : AnyResource) → has_shelf shelves.new d ≡ has_shelf shelves.old d }
    ensures away { (d : AnyResource) → is_away shelves.new d ≡ is_away shelves.old d }
{
    for name in names {
        empty_place(shelves, &shelf_of(catalogue, *name), name);
    }
}

/// Adds the row at a name, shared.
fn share_one(
    alloc: Global,
    shelves: &Shelves,
    copies: &mut Shelves,
    at: &Resource,
    name: &RowName,
) -> Result<(), NoMemory>
    ensures seen { OnOk result (IsShared at.now name.now shelves.now copies.old copies.new) }
    ensures kept { OnOk result ((d : AnyResource) (q : AnyName) → has_place copies.old d q ≡ true →
        has_place copies.new d q ≡ true) }
    ensures there { OnOk result (has_place copies.new at.now name.now ≡ true) }
    ensures shelves { OnOk result ((d : AnyResource) → has_shelf copies.old d ≡ true → has_shelf copies.new d ≡ true) }
    ensures away { OnOk result ((d : AnyResource) → is_away copies.new d ≡ is_away copies.old d) }
{
    let row = share_row(shelves, at, name)?;
    add_row(alloc, copies, at, name, row)?;
    Ok(())
}

/// Adds the rows at names, shared.
pub(crate) fn share_rows(
    alloc: Global,
    catalogue: &Catalogue,
    shelves: &Shelves,
    copies: &mut Shelves,
    names: &[RowName],
) -> Result<(), NoMemory>
    ensures seen { OnOk result (AreShared catalogue.now names.now shelves.now copies.old copies.new) }
    ensures there { OnOk result ((q : AnyName) → is_named names.now q ≡ true →
        has_place copies.new (shelf_of catalogue.now q) q ≡ true) }
    ensures shelves { OnOk result ((d : AnyResource) → has_shelf copies.old d ≡ true → has_shelf copies.new d ≡ true) }
    ensures away { OnOk result ((d : AnyResource) → is_away copies.new d ≡ is_away copies.old d) }
{
    for name in names {
        share_one(alloc, shelves, copies, &shelf_of(catalogue, *name), name)?;
    }
    Ok(())
}

/// Moves the row of a name from a loan into the place in the store, if both have a place of that name. Without a row
/// the place goes.
fn put_one_row(shelves: &mut Shelves, from: &mut Shelves, at: &Resource, name: &RowName)
    ensures seen { IsRowPut at.now name.now from.old shelves.old shelves.new }
    ensures others { AreOthersKept at.now name.now shelves.old shelves.new }
    ensures shelves { (d : AnyResource) → has_shelf shelves.new d ≡ has_shelf shelves.old d }
    ensures away { (d : AnyResource) → is_away shelves.new d ≡ is_away shelves.old d }
    ensures left { (d : AnyResource) (q : AnyName) → (is_same_shelf at.now d && is_same_name name.now q) ≡ true →
        has_place from.new d q ≡ false }
    ensures left_others { AreOthersKept at.now name.now from.old from.new }
{
    if let Some(row) = take_row(from, at, name) {
        put_row(shelves, at, name, row);
    }
}

/// Moves the rows of names from a loan into their places in the store. It takes no memory and copies no row.
pub(crate) fn put_rows(
    catalogue: &Catalogue,
    shelves: &mut Shelves,
    from: &mut Shelves,
    names: &[RowName],
)
    ensures seen { AreRowsPut catalogue.now names.now from.old shelves.old shelves.new }
    ensures places { (q : AnyName) → is_named names.now q ≡ false →
        has_place shelves.new (shelf_of catalogue.now q) q ≡ has_place shelves.old (shelf_of catalogue.now q) q }
    ensures shelves { (d : AnyResource) → has_shelf shelves.new d ≡ has_shelf shelves.old d }
    ensures away { (d : AnyResource) → is_away shelves.new d ≡ is_away shelves.old d }
{
    for name in names {
        put_one_row(shelves, from, &shelf_of(catalogue, *name), name);
    }
}
