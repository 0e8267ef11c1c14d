//! Moves whole shelves between a store and a loan.

ghost use Rattle.std.specs.Prelude.{◌≡◌, true, false, ◌&&◌, ◌||◌, if◌then◌else◌, OnOk};
ghost use Rattle.values.specs.declared.name.RowName.{RowName as AnyName};
ghost use Rattle.footprint.specs.declared.resource.Resource.{Resource as AnyResource};
ghost use Rattle.shelves.specs.Places.{shelf_on, has_shelf, is_away, has_place, seen_at, gone, is_same_shelf, among};
ghost use Rattle.shelves.specs.Exchange.{is_ready, IsShelfShared, AreShelvesShared, IsShelfLent, AreShelvesLent, IsShelfPut, AreShelvesPut, IsShelfGone, AreShelvesGone};

use crate::shelves::{Shelves, add_shelf, make_shelf, share_shelf};
use footprint::Resource;
use std::alloc::Global;
use values::NoMemory;

/// Sees to it that shelves are there.
pub fn make_shelves(alloc: Global, shelves: &mut Shelves, at: &[Resource]) -> Result<(), NoMemory>
    ensures seen { (d : AnyResource) (q : AnyName) → seen_at shelves.new d q ≡ seen_at shelves.old d q }
    ensures places { (d : AnyResource) (q : AnyName) → has_place shelves.old d q ≡ true →
        has_place shelves.new d q ≡ true }
    ensures kept { (d : AnyResource) → has_shelf shelves.old d ≡ true → has_shelf shelves.new d ≡ true }
    ensures made { OnOk result ((d : AnyResource) →
        has_shelf shelves.new d ≡ (among at.now d || has_shelf shelves.old d)) }
    ensures away { (d : AnyResource) → is_away shelves.new d ≡ is_away shelves.old d }
{
    for shelf in at {
        make_shelf(alloc, shelves, shelf)?;
    }
    Ok(())
}

/// Adds a shelf that shares the places of the store's, unless there is one already.
#[tactic(auto, using(crate::proofs::Exact::get_same))]
fn share_one_shelf(
    alloc: Global,
    shelves: &mut Shelves,
    copies: &mut Shelves,
    at: &Resource,
) -> Result<(), NoMemory>
    ensures shared { OnOk result (IsShelfShared at.now shelves.old copies.old copies.new) }
    ensures copies { OnOk result ((d : AnyResource) →
        has_shelf copies.new d ≡ (is_same_shelf at.now d || has_shelf copies.old d)) }
    ensures here { OnOk result ((d : AnyResource) → is_away copies.new d ≡ is_away copies.old d) }
    ensures seen { (d : AnyResource) (q : AnyName) → seen_at shelves.new d q ≡ seen_at shelves.old d q }
    ensures kept { (d : AnyResource) (q : AnyName) → is_same_shelf at.now d ≡ false →
        has_place shelves.new d q ≡ has_place shelves.old d q }
    ensures shelves { (d : AnyResource) → has_shelf shelves.new d ≡ has_shelf shelves.old d }
    ensures away { (d : AnyResource) → is_away shelves.new d ≡ is_away shelves.old d }
{
    if copies.contains_key(at) {
        return Ok(());
    }
    let shared = share_shelf(alloc, shelves, at)?;
    add_shelf(copies, at, shared)?;
    Ok(())
}

/// Adds shelves that share the places of the store's, but for those that are there already. It visits no row.
pub fn share_shelves(
    alloc: Global,
    shelves: &mut Shelves,
    copies: &mut Shelves,
    at: &[Resource],
) -> Result<(), NoMemory>
    ensures shared { OnOk result (AreShelvesShared at.now shelves.old copies.old copies.new) }
    ensures copies { OnOk result ((d : AnyResource) →
        has_shelf copies.new d ≡ (among at.now d || has_shelf copies.old d)) }
    ensures here { OnOk result ((d : AnyResource) → is_away copies.new d ≡ is_away copies.old d) }
    ensures seen { (d : AnyResource) (q : AnyName) → seen_at shelves.new d q ≡ seen_at shelves.old d q }
    ensures kept { (d : AnyResource) (q : AnyName) → among at.now d ≡ false →
        has_place shelves.new d q ≡ has_place shelves.old d q }
    ensures shelves { (d : AnyResource) → has_shelf shelves.new d ≡ has_shelf shelves.old d }
    ensures away { (d : AnyResource) → is_away shelves.new d ≡ is_away shelves.old d }
{
    for shelf in at {
        share_one_shelf(alloc, shelves, copies, shelf)?;
    }
    Ok(())
}

/// Moves a shelf from the store into the place of the loan's, if both are there and the store's isn't away.
#[tactic(auto, using(crate::proofs::Exact::get_same))]
fn take_one_shelf(alloc: Global, shelves: &mut Shelves, held: &mut Shelves, at: &Resource)
    ensures held { IsShelfLent at.now shelves.old held.old held.new }
    ensures held_shelves { (d : AnyResource) → has_shelf held.new d ≡ has_shelf held.old d }
    ensures seen { (d : AnyResource) (q : AnyName) →
        seen_at shelves.new d q ≡ (if is_same_shelf at.now d && is_ready shelves.old held.old d
        then gone (seen_at shelves.old d q) else seen_at shelves.old d q) }
    ensures places { (d : AnyResource) (q : AnyName) →
        has_place shelves.new d q ≡ (if is_same_shelf at.now d && is_ready shelves.old held.old d
        then false else has_place shelves.old d q) }
    ensures shelves { (d : AnyResource) → has_shelf shelves.new d ≡ has_shelf shelves.old d }
    ensures others { (d : AnyResource) → (is_same_shelf at.now d && is_ready shelves.old held.old d) ≡ false →
        shelf_on shelves.new d ≡ shelf_on shelves.old d }
    ensures away { (d : AnyResource) →
        is_away shelves.new d ≡ ((is_same_shelf at.now d && is_ready shelves.old held.old d) || is_away shelves.old d) }
{
    let Some(shelf) = shelves.get_mut(at) else {
        return;
    };
    if shelf.is_away() {
        return;
    }
    if let Some(slot) = held.get_mut(at) {
        *slot = shelf.take(alloc);
    }
}

/// Moves whole shelves from the store into the places of the loan's. It takes no memory and visits no row.
pub fn take_shelves(alloc: Global, shelves: &mut Shelves, held: &mut Shelves, at: &[Resource])
    ensures held { AreShelvesLent at.now shelves.old held.old held.new }
    ensures seen { (d : AnyResource) (q : AnyName) →
        seen_at shelves.new d q ≡ (if among at.now d && is_ready shelves.old held.old d
        then gone (seen_at shelves.old d q) else seen_at shelves.old d q) }
    ensures places { (d : AnyResource) (q : AnyName) →
        has_place shelves.new d q ≡ (if among at.now d && is_ready shelves.old held.old d
        then false else has_place shelves.old d q) }
    ensures shelves { (d : AnyResource) → has_shelf shelves.new d ≡ has_shelf shelves.old d }
    ensures away { (d : AnyResource) →
        is_away shelves.new d ≡ ((among at.now d && is_ready shelves.old held.old d) || is_away shelves.old d) }
{
    for shelf in at {
        take_one_shelf(alloc, shelves, held, shelf);
    }
}

/// Moves a shelf from a loan into the place of the store's, if both are there.
#[tactic(auto, using(crate::proofs::Exact::get_same))]
fn put_one_shelf(shelves: &mut Shelves, from: &mut Shelves, at: &Resource)
    ensures shelves { IsShelfPut at.now from.old shelves.old shelves.new }
    ensures left { IsShelfGone at.now from.old from.new }
{
    if let Some(shelf) = from.remove(at) {
        if let Some(old) = shelves.get_mut(at) {
            *old = shelf;
        }
    }
}

/// Moves whole shelves from a loan into the places of the store's. It takes no memory and visits no row.
pub fn put_shelves(shelves: &mut Shelves, from: &mut Shelves, at: &[Resource])
    ensures shelves { AreShelvesPut at.now from.old shelves.old shelves.new }
    ensures left { AreShelvesGone at.now from.old from.new }
{
    for shelf in at {
        put_one_shelf(shelves, from, shelf);
    }
}
