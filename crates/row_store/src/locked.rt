//! What a plan locks: whole shelves, and row names by themselves.

ghost use Rattle.std.specs.Prelude.{◌≡◌, ◌||◌, ◌<◌, true, length, IfOk, OnOk};
ghost use Rattle.std.specs.List.{list_any};
ghost use Rattle.values.specs.declared.name.RowName.{RowName as AnyName};
ghost use Rattle.footprint.specs.declared.resource.Resource.TheVariants.{Table};
ghost use Rattle.footprint.specs.declared.resource.InTable.TheVariants.{WholeTable};
ghost use Rattle.footprint.specs.OfCatalogue.{IsResourceOf};
ghost use Rattle.coarsen.specs.Subtrees.{holds};
ghost use Rattle.coarsen.specs.Plans.{IsPlanOver};
ghost use Rattle.shelves.specs.Shelving.{shelf_of};
ghost use Rattle.row_store.specs.Locked.{gives, name_of, is_an_end, locks_shelf, locks_itself};
ghost use Rattle.shelves.specs.Places.{among, is_named};

use catalogue::Catalogue;
use footprint::{InPart, InTable, Resource, Right};
use modes::Mode;
use shelves::ends_partition;
use std::alloc::Global;
use values::{Key, NoMemory, RowName, TableNo};

/// Whether a mode gives a right on the resource itself.
pub(crate) fn gives(right: Right, mode: Mode) -> bool
    ensures { result ≡ gives right mode }
{
    match (right, mode.own_right()) {
        (_, None) | (Right::Write, Some(Right::Read)) => false,
        (Right::Read, Some(_)) | (Right::Write, Some(Right::Write)) => true,
    }
}

/// The row name of a resource that is one.
pub(crate) fn name_of(resource: &Resource) -> Option<RowName>
    ensures { result ≡ name_of resource.now }
{
    match *resource {
        Resource::Table(table, InTable::Part(_, InPart::Row(number))) => {
            let key = Key::new(i64::try_from(number).ok()?)?;
            Some(RowName::new(table, key))
        }
        _ => None,
    }
}

/// Adds the shelves of a table.
#[tactic(auto, using(crate::proofs::Shelved::all_parts, crate::proofs::Shelved::number_is))]
fn add_shelves_of_table(
    catalogue: &Catalogue,
    table: TableNo,
    shelves: &mut Vec<Resource>,
) -> Result<(), NoMemory>
    requires { table < length catalogue.now }
    ensures { OnOk result ((q : AnyName) →
        among shelves.new.items (shelf_of catalogue.now q) ≡ (among shelves.old.items (shelf_of catalogue.now q)
        || holds (Table table WholeTable) (shelf_of catalogue.now q))) }
{
    shelves.push(Resource::Table(table, InTable::WholeTable))?;
    let mut number: u64 = 0;
    while let Some(part) = catalogue.part(table, number as i64) {
        let within = InTable::Part(part, InPart::WholePart);
        shelves.push(Resource::Table(table, within))?;
        number += 1;
    }
    Ok(())
}

/// Adds all shelves.
#[tactic(auto, using(crate::proofs::Shelved::all_tables))]
fn add_all_shelves(catalogue: &Catalogue, shelves: &mut Vec<Resource>) -> Result<(), NoMemory>
    ensures { OnOk result ((q : AnyName) → among shelves.new.items (shelf_of catalogue.now q) ≡ true) }
{
    shelves.push(Resource::Db)?;
    for table in 0..catalogue.len() {
        add_shelves_of_table(catalogue, TableNo::new(table), shelves)?;
    }
    Ok(())
}

/// Adds the shelves under a resource.
#[tactic(auto, using(crate::proofs::Shelved::no_row))]
fn add_shelves_under(
    catalogue: &Catalogue,
    resource: &Resource,
    shelves: &mut Vec<Resource>,
) -> Result<(), NoMemory>
    requires { IsResourceOf catalogue.now resource.now }
    ensures { OnOk result ((q : AnyName) →
        among shelves.new.items (shelf_of catalogue.now q) ≡ (among shelves.old.items (shelf_of catalogue.now q)
        || holds resource.now (shelf_of catalogue.now q))) }
{
    match *resource {
        Resource::Db => add_all_shelves(catalogue, shelves),
        Resource::Table(table, InTable::WholeTable) => {
            add_shelves_of_table(catalogue, table, shelves)
        }
        Resource::Table(_, InTable::Part(_, InPart::WholePart)) => {
            shelves.push(*resource)?;
            Ok(())
        }
        Resource::Table(_, InTable::Part(_, InPart::Row(_))) => Ok(()),
    }
}

/// The shelves that requests lock whole with at least a right.
pub(crate) fn locked_shelves(
    alloc: Global,
    catalogue: &Catalogue,
    requests: &[(Resource, Mode)],
    right: Right,
) -> Result<Vec<Resource>, NoMemory>
    requires { IsPlanOver catalogue.now requests.now }
    ensures { IfOk result (λ shelves. (q : AnyName) →
        among shelves.items (shelf_of catalogue.now q) ≡ locks_shelf requests.now right (shelf_of catalogue.now q)) }
{
    let mut shelves = Vec::new(alloc);
    for (resource, mode) in requests {
        if gives(right, *mode) {
            add_shelves_under(catalogue, resource, &mut shelves)?;
        }
    }
    Ok(shelves)
}

/// Whether a resource is the last row name of a partition.
fn is_an_end(catalogue: &Catalogue, resource: &Resource) -> bool
    ensures { result ≡ is_an_end catalogue.now resource.now }
{
    match name_of(resource) {
        Some(name) => ends_partition(catalogue, &name),
        None => false,
    }
}

/// Whether requests are of the last row name of a partition.
pub(crate) fn locks_an_end(catalogue: &Catalogue, requests: &[(Resource, Mode)]) -> bool
    ensures { result ≡ list_any (λ e. is_an_end catalogue.now e.0) requests.now }
{
    requests
        .iter()
        .any(|(resource, _)| is_an_end(catalogue, resource))
}

/// The row names that requests lock by themselves with at least a right.
pub(crate) fn locked_names(
    alloc: Global,
    requests: &[(Resource, Mode)],
    right: Right,
) -> Result<Vec<RowName>, NoMemory>
    ensures { IfOk result (λ names. (q : AnyName) → is_named names.items q ≡ locks_itself requests.now right q) }
{
    let mut names = Vec::new(alloc);
    for (resource, mode) in requests {
        if gives(right, *mode) {
            if let Some(name) = name_of(resource) {
                names.push(name)?;
            }
        }
    }
    Ok(names)
}
