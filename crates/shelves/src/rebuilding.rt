//! The rows of a store on shelves of another catalogue. Both stores share each row.

ghost use Rattle.std.specs.Prelude.{◌≡◌, ◌++◌, false, if◌then◌else◌, List, Option, IfOk, OnOk};
ghost use Rattle.std.specs.BTreeMap.{keys};
ghost use Rattle.values.specs.declared.name.RowName.{RowName as AnyName};
ghost use Rattle.footprint.specs.declared.resource.Resource.{Resource as AnyResource};
ghost use Rattle.shelves.specs.Places.{is_away, full, shared_row, is_same_name};
ghost use Rattle.shelves.specs.Rebuilding.{put, AreBack};
ghost use Rattle.shelves.specs.Rows.{found};

use crate::contents::Places;
use crate::shelves::{Shelves, add_row, share_row};
use crate::shelving::shelf_of;
use catalogue::Catalogue;
use std::alloc::Global;
use std::collections::BTreeMap;
use std::sync::Arc;
use values::{NoMemory, Row, RowName};

/// Puts a row at a name, if there is one.
fn put_row(
    alloc: Global,
    catalogue: &Catalogue,
    shelves: &mut Shelves,
    name: &RowName,
    row: Option<Arc<Row>>,
) -> Result<(), NoMemory>
    ensures seen { OnOk result ((q : AnyName) → found catalogue.now shelves.new q
        ≡ (if is_same_name name.now q then put (shared_row row) (found catalogue.now shelves.old q)
        else found catalogue.now shelves.old q)) }
    ensures away { OnOk result ((d : AnyResource) → is_away shelves.new d ≡ is_away shelves.old d) }
{
    if row.is_some() {
        add_row(alloc, shelves, &shelf_of(catalogue, *name), name, row)?;
    }
    Ok(())
}

/// Puts the rows at the names of places on shelves of another catalogue.
fn put_rows(
    alloc: Global,
    old_catalogue: &Catalogue,
    old_shelves: &Shelves,
    places: &Places,
    catalogue: &Catalogue,
    shelves: &mut Shelves,
) -> Result<(), NoMemory>
    ensures back { OnOk result ((left : List AnyName) →
        AreBack (λ q. (found old_catalogue.now old_shelves.now q).row) (found catalogue.now shelves.old)
        (keys places.now ++ left) →
        AreBack (λ q. (found old_catalogue.now old_shelves.now q).row) (found catalogue.now shelves.new) left) }
    ensures away { OnOk result (((d : AnyResource) → is_away shelves.old d ≡ false) → (d : AnyResource) →
        is_away shelves.new d ≡ false) }
{
    for (name, _) in places {
        let row = share_row(old_shelves, &shelf_of(old_catalogue, *name), name)?;
        put_row(alloc, catalogue, shelves, name, row)?;
    }
    Ok(())
}

/// Shelves of another catalogue with the rows that are on the old ones.
pub fn rebuilt(
    alloc: Global,
    old_catalogue: &Catalogue,
    old_shelves: &Shelves,
    catalogue: &Catalogue,
) -> Result<Shelves, NoMemory>
    ensures rows { IfOk result (λ shelves. (q : AnyName) →
        found catalogue.now shelves q ≡ full (found old_catalogue.now old_shelves.now q).row) }
    ensures away { IfOk result (λ shelves. (d : AnyResource) → is_away shelves d ≡ false) }
{
    let mut shelves = BTreeMap::new(alloc);
    for (_, shelf) in old_shelves {
        put_rows(
            alloc,
            old_catalogue,
            old_shelves,
            shelf.places(),
            catalogue,
            &mut shelves,
        )?;
    }
    Ok(shelves)
}
