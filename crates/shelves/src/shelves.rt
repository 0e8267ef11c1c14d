//! All shelves, each at its resource.

ghost use Rattle.std.specs.Prelude.{◌≡◌, Some, None, true, false, ◌&&◌, if◌then◌else◌, option_map, IfOk, OnOk, OnErr};
ghost use Rattle.values.specs.declared.name.RowName.{RowName as AnyName};
ghost use Rattle.footprint.specs.declared.resource.Resource.{Resource as AnyResource};
ghost use Rattle.shelves.specs.Places.{has_shelf, is_away, has_place, seen_at, seen_in, has_in, is_shelf_out, full, emptied, shared_row, is_same_name, is_same_shelf};

use crate::named::shared;
use crate::shelf::Shelf;
use footprint::Resource;
use std::alloc::Global;
use std::collections::BTreeMap;
use std::sync::Arc;
use values::{NoMemory, Row, RowName};

/// The shelves, in tree order.
pub type Shelves = BTreeMap<Resource, Shelf>;

/// Sees to it that a shelf is there.
pub(crate) fn make_shelf(
    alloc: Global,
    shelves: &mut Shelves,
    at: &Resource,
) -> Result<(), NoMemory>
    ensures seen { (d : AnyResource) (q : AnyName) → seen_at shelves.new d q ≡ seen_at shelves.old d q }
    ensures places { (d : AnyResource) (q : AnyName) → has_place shelves.old d q ≡ true →
        has_place shelves.new d q ≡ true }
    ensures made { OnOk result ((d : AnyResource) →
        has_shelf shelves.new d ≡ (if is_same_shelf at.now d then true else has_shelf shelves.old d)) }
    ensures err { OnErr result ((d : AnyResource) → has_shelf shelves.new d ≡ has_shelf shelves.old d) }
    ensures away { (d : AnyResource) → is_away shelves.new d ≡ is_away shelves.old d }
{
    if shelves.contains_key(at) {
        return Ok(());
    }
    shelves.insert(*at, Shelf::new(alloc))?;
    Ok(())
}

/// Adds a shelf with a place for one name, where there is no shelf.
#[tactic(auto, using(crate::proofs::Exact::get_same))]
fn add_place(
    alloc: Global,
    shelves: &mut Shelves,
    at: &Resource,
    name: &RowName,
) -> Result<(), NoMemory>
    requires { has_shelf shelves.old at.now ≡ false }
    ensures seen { (d : AnyResource) (q : AnyName) → seen_at shelves.new d q ≡ seen_at shelves.old d q }
    ensures kept { (d : AnyResource) (q : AnyName) → has_place shelves.old d q ≡ true →
        has_place shelves.new d q ≡ true }
    ensures there { OnOk result (has_place shelves.new at.now name.now ≡ true) }
    ensures shelves { (d : AnyResource) → has_shelf shelves.old d ≡ true → has_shelf shelves.new d ≡ true }
    ensures away { (d : AnyResource) → is_away shelves.new d ≡ is_away shelves.old d }
{
    let mut shelf = Shelf::new(alloc);
    shelf.make_place(alloc, name)?;
    shelves.insert(*at, shelf)?;
    Ok(())
}

/// Sees to it that a name has a place.
#[tactic(auto, using(crate::proofs::Exact::get_same))]
pub fn make_place(
    alloc: Global,
    shelves: &mut Shelves,
    at: &Resource,
    name: &RowName,
) -> Result<(), NoMemory>
    ensures seen { (d : AnyResource) (q : AnyName) → seen_at shelves.new d q ≡ seen_at shelves.old d q }
    ensures kept { (d : AnyResource) (q : AnyName) → has_place shelves.old d q ≡ true →
        has_place shelves.new d q ≡ true }
    ensures shelves { (d : AnyResource) → has_shelf shelves.old d ≡ true → has_shelf shelves.new d ≡ true }
    ensures there { OnOk result (has_place shelves.new at.now name.now ≡ true) }
    ensures away { (d : AnyResource) → is_away shelves.new d ≡ is_away shelves.old d }
{
    if let Some(shelf) = shelves.get_mut(at) {
        return shelf.make_place(alloc, name);
    }
    add_place(alloc, shelves, at, name)
}

/// Puts a row, or none, at a name.
#[tactic(auto, using(crate::proofs::Exact::get_same))]
pub fn add_row(
    alloc: Global,
    shelves: &mut Shelves,
    at: &Resource,
    name: &RowName,
    row: Option<Arc<Row>>,
) -> Result<(), NoMemory>
    ensures seen { OnOk result ((d : AnyResource) (q : AnyName) →
        seen_at shelves.new d q ≡ (if is_same_shelf at.now d && is_same_name name.now q then full (shared_row row)
        else seen_at shelves.old d q)) }
    ensures kept { OnOk result ((d : AnyResource) (q : AnyName) → has_place shelves.old d q ≡ true →
        has_place shelves.new d q ≡ true) }
    ensures there { OnOk result (has_place shelves.new at.now name.now ≡ true) }
    ensures shelves { OnOk result ((d : AnyResource) → has_shelf shelves.old d ≡ true →
        has_shelf shelves.new d ≡ true) }
    ensures away { OnOk result ((d : AnyResource) → is_away shelves.new d ≡ is_away shelves.old d) }
{
    if let Some(shelf) = shelves.get_mut(at) {
        return shelf.set_row(alloc, name, row);
    }
    let mut shelf = Shelf::new(alloc);
    shelf.set_row(alloc, name, row)?;
    add_shelf(shelves, at, shelf)?;
    Ok(())
}

/// Puts a row, or none, at a name, which gets a place. An `Err` leaves the rows as they were.
#[tactic(auto, using(crate::proofs::Exact::get_same))]
pub(crate) fn write_row(
    alloc: Global,
    shelves: &mut Shelves,
    at: &Resource,
    name: &RowName,
    row: Option<Row>,
) -> Result<(), NoMemory>
    ensures seen { OnOk result ((d : AnyResource) (q : AnyName) →
        seen_at shelves.new d q ≡ (if is_same_shelf at.now d && is_same_name name.now q then full row
        else seen_at shelves.old d q)) }
    ensures err { OnErr result ((d : AnyResource) (q : AnyName) → seen_at shelves.new d q ≡ seen_at shelves.old d q) }
    ensures kept { (d : AnyResource) (q : AnyName) → has_place shelves.old d q ≡ true →
        has_place shelves.new d q ≡ true }
    ensures shelves { (d : AnyResource) → has_shelf shelves.old d ≡ true → has_shelf shelves.new d ≡ true }
    ensures away { (d : AnyResource) → is_away shelves.new d ≡ is_away shelves.old d }
{
    if let Some(shelf) = shelves.get_mut(at) {
        return shelf.write_row(alloc, name, row);
    }
    let row = shared(alloc, row)?;
    add_place(alloc, shelves, at, name)?;
    fill_place(shelves, at, name, row);
    Ok(())
}

/// Empties a place, if it is its shelf's own.
#[tactic(auto, using(crate::proofs::Exact::get_same))]
pub fn empty_place(shelves: &mut Shelves, at: &Resource, name: &RowName)
    ensures seen { (d : AnyResource) (q : AnyName) →
        seen_at shelves.new d q ≡ (if is_same_shelf at.now d && (is_same_name name.now q && has_place shelves.old d q)
        then emptied (seen_at shelves.old d q) else seen_at shelves.old d q) }
    ensures kept { (d : AnyResource) (q : AnyName) → has_place shelves.new d q ≡ has_place shelves.old d q }
    ensures shelves { (d : AnyResource) → has_shelf shelves.new d ≡ has_shelf shelves.old d }
    ensures away { (d : AnyResource) → is_away shelves.new d ≡ is_away shelves.old d }
{
    if let Some(shelf) = shelves.get_mut(at) {
        shelf.empty_place(name);
    }
}

/// Fills a place, if it is there, with a row or with none.
#[tactic(auto, using(crate::proofs::Exact::get_same))]
pub(crate) fn fill_place(
    shelves: &mut Shelves,
    at: &Resource,
    name: &RowName,
    row: Option<Arc<Row>>,
)
    ensures seen { (d : AnyResource) (q : AnyName) → has_place shelves.old at.now name.now ≡ true →
        seen_at shelves.new d q ≡ (if is_same_shelf at.now d && is_same_name name.now q then full (shared_row row)
        else seen_at shelves.old d q) }
    ensures kept { (d : AnyResource) (q : AnyName) → has_place shelves.new d q ≡ has_place shelves.old d q }
    ensures shelves { (d : AnyResource) → has_shelf shelves.new d ≡ has_shelf shelves.old d }
    ensures away { (d : AnyResource) → is_away shelves.new d ≡ is_away shelves.old d }
{
    if let Some(shelf) = shelves.get_mut(at) {
        shelf.fill_place(name, row);
    }
}

/// Puts a row in the place of a name that has one; without a row the place goes, unless its shelf is away.
#[tactic(auto, using(crate::proofs::Exact::get_same))]
pub fn put_row(shelves: &mut Shelves, at: &Resource, name: &RowName, row: Option<Arc<Row>>)
    ensures seen { (d : AnyResource) (q : AnyName) →
        seen_at shelves.new d q ≡ (if is_same_shelf at.now d && (is_same_name name.now q && has_place shelves.old d q)
        then full (shared_row row) else seen_at shelves.old d q) }
    ensures kept { (d : AnyResource) (q : AnyName) → (is_same_shelf at.now d && is_same_name name.now q) ≡ false →
        has_place shelves.new d q ≡ has_place shelves.old d q }
    ensures shelves { (d : AnyResource) → has_shelf shelves.new d ≡ has_shelf shelves.old d }
    ensures away { (d : AnyResource) → is_away shelves.new d ≡ is_away shelves.old d }
{
    if let Some(shelf) = shelves.get_mut(at) {
        shelf.put_row(name, row);
    }
}

/// The row at a name, once more. Sees to it that the name has a place.
#[tactic(auto, using(crate::proofs::Exact::get_same))]
pub fn lend_row(
    alloc: Global,
    shelves: &mut Shelves,
    at: &Resource,
    name: &RowName,
) -> Result<Option<Arc<Row>>, NoMemory>
    ensures row { IfOk result (λ row. shared_row row ≡ (seen_at shelves.old at.now name.now).row) }
    ensures seen { (d : AnyResource) (q : AnyName) → seen_at shelves.new d q ≡ seen_at shelves.old d q }
    ensures kept { (d : AnyResource) (q : AnyName) → has_place shelves.old d q ≡ true →
        has_place shelves.new d q ≡ true }
    ensures there { OnOk result (has_place shelves.new at.now name.now ≡ true) }
    ensures shelves { (d : AnyResource) → has_shelf shelves.old d ≡ true → has_shelf shelves.new d ≡ true }
    ensures away { (d : AnyResource) → is_away shelves.new d ≡ is_away shelves.old d }
{
    if let Some(shelf) = shelves.get_mut(at) {
        return shelf.lend_row(alloc, name);
    }
    add_place(alloc, shelves, at, name)?;
    Ok(None)
}

/// The row at a name, once more.
pub fn share_row(
    shelves: &Shelves,
    at: &Resource,
    name: &RowName,
) -> Result<Option<Arc<Row>>, NoMemory>
    ensures { IfOk result (λ row. shared_row row ≡ (seen_at shelves.now at.now name.now).row) }
{
    match shelves.get(at) {
        Some(shelf) => shelf.share_row(name),
        None => Ok(None),
    }
}

/// The row at a name.
pub fn row_at<'a>(shelves: &'a Shelves, at: &Resource, name: &RowName) -> Option<&'a Row>
    ensures { option_map (λ r. r.now) result ≡ (seen_at shelves.now at.now name.now).row }
{
    let shelf = shelves.get(at)?;
    shelf.row_at(name)
}

/// How many names have a place on a shelf; none where the shelf is away. It tells how long it takes to look through it,
/// and promises nothing.
pub fn count_places(shelves: &Shelves, at: &Resource) -> Option<usize> {
    match shelves.get(at) {
        Some(shelf) if shelf.is_away() => None,
        Some(shelf) => Some(shelf.places().len()),
        None => Some(0),
    }
}

/// Takes a place off its shelf, and gives the row that is there, if there is a place.
#[tactic(auto, using(crate::proofs::Exact::get_same))]
pub fn take_row(shelves: &mut Shelves, at: &Resource, name: &RowName) -> Option<Option<Arc<Row>>>
    ensures row { option_map shared_row result ≡ (if has_place shelves.old at.now name.now
        then Some (seen_at shelves.old at.now name.now).row else None) }
    ensures seen { (d : AnyResource) (q : AnyName) → (is_same_shelf at.now d && is_same_name name.now q) ≡ false →
        seen_at shelves.new d q ≡ seen_at shelves.old d q }
    ensures places { (d : AnyResource) (q : AnyName) →
        has_place shelves.new d q ≡ (if is_same_shelf at.now d && is_same_name name.now q then false
        else has_place shelves.old d q) }
{
    let shelf = shelves.get_mut(at)?;
    shelf.take_row(name)
}

/// A shelf for a loan that only reads it: it shows what the shelf there shows, if that isn't away.
#[tactic(auto, using(crate::proofs::Exact::get_same))]
pub(crate) fn share_shelf(
    alloc: Global,
    shelves: &mut Shelves,
    at: &Resource,
) -> Result<Shelf, NoMemory>
    ensures shared { IfOk result (λ shared. is_away shelves.old at.now ≡ false →
        (q : AnyName) → seen_in shared q ≡ seen_at shelves.old at.now q) }
    ensures here { IfOk result (λ shared. is_shelf_out shared ≡ false) }
    ensures seen { (d : AnyResource) (q : AnyName) → seen_at shelves.new d q ≡ seen_at shelves.old d q }
    ensures kept { (d : AnyResource) (q : AnyName) → is_same_shelf at.now d ≡ false →
        has_place shelves.new d q ≡ has_place shelves.old d q }
    ensures shelves { (d : AnyResource) → has_shelf shelves.new d ≡ has_shelf shelves.old d }
    ensures away { (d : AnyResource) → is_away shelves.new d ≡ is_away shelves.old d }
{
    match shelves.get_mut(at) {
        Some(shelf) => shelf.share(alloc),
        None => Ok(Shelf::new(alloc)),
    }
}

/// Adds a shelf that isn't away.
pub(crate) fn add_shelf(shelves: &mut Shelves, at: &Resource, shelf: Shelf) -> Result<(), NoMemory>
    requires { is_shelf_out shelf ≡ false }
    ensures seen { OnOk result ((d : AnyResource) (q : AnyName) →
        seen_at shelves.new d q ≡ (if is_same_shelf at.now d then seen_in shelf q else seen_at shelves.old d q)) }
    ensures shelves { OnOk result ((d : AnyResource) →
        has_shelf shelves.new d ≡ (if is_same_shelf at.now d then true else has_shelf shelves.old d)) }
    ensures places { OnOk result ((d : AnyResource) (q : AnyName) →
        has_place shelves.new d q ≡ (if is_same_shelf at.now d then has_in shelf q else has_place shelves.old d q)) }
    ensures away { OnOk result ((d : AnyResource) →
        is_away shelves.new d ≡ (if is_same_shelf at.now d then false else is_away shelves.old d)) }
{
    shelves.insert(*at, shelf)?;
    Ok(())
}
