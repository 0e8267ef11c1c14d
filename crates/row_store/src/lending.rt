//! What a loan holds, made ready in a store, taken out of it and put back.

ghost use Rattle.std.specs.Prelude.{◌≡◌, true, false, if◌then◌else◌, IfOk};
ghost use Rattle.values.specs.declared.name.RowName.{RowName as AnyName};
ghost use Rattle.proclang_types.specs.declared.right.Right.TheVariants.{Read, Write};
ghost use Rattle.footprint.specs.declared.resource.Resource.{Resource as AnyResource};
ghost use Rattle.footprint.specs.InTreeOrder.{IsInTreeOrder};
ghost use Rattle.coarsen.specs.Plans.{IsPlanOver};
ghost use Rattle.coarsen.specs.Clashes.{locks_row};
ghost use Rattle.shelves.specs.Places.{seen_at, full, as_it_stands, has_shelf, is_away, has_place, among, is_named};
ghost use Rattle.shelves.specs.Shelving.{shelf_of};
ghost use Rattle.row_store.specs.Locked.{locks_shelf, locks_itself};
ghost use Rattle.row_store.specs.Named.{reads_itself, AreDistinct, AreListed};
ghost use Rattle.shelves.specs.Named.{names_listed};
ghost use Rattle.row_store.specs.Held.{AreHere, AreReadShelves, IsReady, IsTaken, AreShelvesTaken, CanGoBack, IsBackFrom};
ghost use Rattle.shelves.specs.Rows.{found};

use crate::by_name::{put_listed, read_rows, written_rows};
use crate::held::{HeldRows, HeldShelves, Holdings};
use crate::locked::{locked_names, locked_shelves, locks_an_end};
use crate::moving::{empty_places, make_places, put_rows, share_rows};
use catalogue::Catalogue;
use coarsen::Plan;
use footprint::{Resource, Right};
use modes::Mode;
use shelves::{Shelves, make_shelves, put_shelves, share_shelves, take_shelves};
use std::alloc::Global;
use std::collections::BTreeMap;
use values::NoMemory;

/// How many requests a plan has at most whose rows are lent by their names: a name is looked for among all of them.
const FEW_REQUESTS: usize = 64;

/// The shelves that requests lock whole to read, shared with the store, and an empty shelf for each of those that will
/// be moved here, which isn't shared.
fn share(
    alloc: Global,
    catalogue: &Catalogue,
    shelves: &mut Shelves,
    requests: &[(Resource, Mode)],
    moved: &[Resource],
) -> Result<Shelves, NoMemory>
    requires { IsPlanOver catalogue.now requests.now }
    ensures shared { IfOk result (λ copies.
        AreReadShelves catalogue.now requests.now moved.now shelves.old copies) }
    ensures moved { IfOk result (λ copies. (d : AnyResource) → among moved.now d ≡ true → has_shelf copies d ≡ true) }
    ensures whole { IfOk result (λ copies. (d : AnyResource) → is_away copies d ≡ false) }
    ensures seen { (d : AnyResource) (q : AnyName) → seen_at shelves.new d q ≡ seen_at shelves.old d q }
    ensures kept { (q : AnyName) → locks_shelf requests.now Read (shelf_of catalogue.now q) ≡ false →
        has_place shelves.new (shelf_of catalogue.now q) q ≡ has_place shelves.old (shelf_of catalogue.now q) q }
    ensures shelves { (d : AnyResource) → has_shelf shelves.new d ≡ has_shelf shelves.old d }
    ensures away { (d : AnyResource) → is_away shelves.new d ≡ is_away shelves.old d }
{
    let read_shelves = locked_shelves(alloc, catalogue, requests, Right::Read)?;
    let mut copies = BTreeMap::new(alloc);
    make_shelves(alloc, &mut copies, moved)?;
    share_shelves(alloc, shelves, &mut copies, &read_shelves)?;
    Ok(copies)
}

/// What a loan of a plan holds on shelves, but for the shelves and the rows that it will write: they are still in the
/// store. All that is to be moved has its place in the store and in the loan then.
fn hold_shelves(
    alloc: Global,
    catalogue: &Catalogue,
    shelves: &mut Shelves,
    plan: &Plan,
) -> Result<HeldShelves, NoMemory>
    requires over { IsPlanOver catalogue.now plan.now }
    requires here { AreHere catalogue.now plan.now shelves.old }
    ensures seen { (d : AnyResource) (q : AnyName) → seen_at shelves.new d q ≡ seen_at shelves.old d q }
    ensures kept { (q : AnyName) → locks_shelf plan.now Read (shelf_of catalogue.now q) ≡ false →
        has_place shelves.old (shelf_of catalogue.now q) q ≡ true →
        has_place shelves.new (shelf_of catalogue.now q) q ≡ true }
    ensures shelves { (d : AnyResource) → has_shelf shelves.old d ≡ true → has_shelf shelves.new d ≡ true }
    ensures away { (d : AnyResource) → is_away shelves.new d ≡ is_away shelves.old d }
    ensures in_store { IfOk result (λ held. ((q : AnyName) →
        among held.written_shelves.items (shelf_of catalogue.now q) ≡ true →
        has_shelf shelves.new (shelf_of catalogue.now q) ≡ true)
        × ((q : AnyName) → is_named held.written_names.items q ≡ true →
        has_place shelves.new (shelf_of catalogue.now q) q ≡ true)) }
    ensures written { IfOk result (λ held. ((q : AnyName) →
        among held.written_shelves.items (shelf_of catalogue.now q)
        ≡ locks_shelf plan.now Write (shelf_of catalogue.now q))
        × ((q : AnyName) → is_named held.written_names.items q ≡ locks_itself plan.now Write q)) }
    ensures shown { IfOk result (λ held. ((q : AnyName) → locks_row catalogue.now plan.now q Read ≡ true →
        among held.written_shelves.items (shelf_of catalogue.now q) ≡ false →
        found catalogue.now held.shelves q ≡ as_it_stands (found catalogue.now shelves.old q))
        × ((q : AnyName) →
        (found catalogue.now held.shelves q).row ≡ (found catalogue.now held.shelves q).counts_as)) }
    ensures in_loan { IfOk result (λ held. ((d : AnyResource) → among held.written_shelves.items d ≡ true →
        has_shelf held.shelves d ≡ true)
        × ((q : AnyName) → locks_itself plan.now Read q ≡ true →
        has_place held.shelves (shelf_of catalogue.now q) q ≡ true)
        × ((d : AnyResource) → is_away held.shelves d ≡ false)) }
{
    let requests = plan.requests();
    let written_shelves = locked_shelves(alloc, catalogue, requests, Right::Write)?;
    let written_names = locked_names(alloc, requests, Right::Write)?;
    let read_names = locked_names(alloc, requests, Right::Read)?;
    make_shelves(alloc, shelves, &written_shelves)?;
    let mut held = share(alloc, catalogue, shelves, requests, &written_shelves)?;
    make_places(alloc, catalogue, shelves, &written_names)?;
    share_rows(alloc, catalogue, shelves, &mut held, &read_names)?;
    Ok(HeldShelves {
        shelves: held,
        written_shelves,
        written_names,
    })
}

/// The rows at the names that requests lock by themselves, shared with the store. Those names that are locked to write
/// have their places in the store then.
fn hold_rows(
    alloc: Global,
    catalogue: &Catalogue,
    shelves: &mut Shelves,
    requests: &[(Resource, Mode)],
) -> Result<HeldRows, NoMemory>
    requires over { IsPlanOver catalogue.now requests.now }
    requires sorted { IsInTreeOrder requests.now }
    ensures seen { (d : AnyResource) (q : AnyName) → seen_at shelves.new d q ≡ seen_at shelves.old d q }
    ensures kept { (d : AnyResource) (q : AnyName) → has_place shelves.old d q ≡ true →
        has_place shelves.new d q ≡ true }
    ensures shelves { (d : AnyResource) → has_shelf shelves.old d ≡ true → has_shelf shelves.new d ≡ true }
    ensures away { (d : AnyResource) → is_away shelves.new d ≡ is_away shelves.old d }
    ensures written { IfOk result (λ held.
        AreListed catalogue.now held.written.items (locks_itself requests.now Write) shelves.old) }
    ensures read { IfOk result
        (λ held. AreListed catalogue.now held.read.items (reads_itself requests.now) shelves.old) }
    ensures there { IfOk result (λ held. (q : AnyName) → locks_itself requests.now Write q ≡ true →
        has_place shelves.new (shelf_of catalogue.now q) q ≡ true) }
    ensures distinct { IfOk result (λ held. AreDistinct (names_listed held.written.items)) }
{
    let read = read_rows(alloc, catalogue, shelves, requests)?;
    let written = written_rows(alloc, catalogue, shelves, requests)?;
    Ok(HeldRows { written, read })
}

/// What a loan of a plan holds, but for what it will write: that is still in the store, and has its place there.
/// All memory for the loan is taken then.
pub(crate) fn hold(
    alloc: Global,
    catalogue: &Catalogue,
    shelves: &mut Shelves,
    plan: &Plan,
) -> Result<Holdings, NoMemory>
    requires over { IsPlanOver catalogue.now plan.now }
    requires here { AreHere catalogue.now plan.now shelves.old }
    ensures seen { (d : AnyResource) (q : AnyName) → seen_at shelves.new d q ≡ seen_at shelves.old d q }
    ensures kept { (q : AnyName) → locks_shelf plan.now Read (shelf_of catalogue.now q) ≡ false →
        has_place shelves.old (shelf_of catalogue.now q) q ≡ true →
        has_place shelves.new (shelf_of catalogue.now q) q ≡ true }
    ensures shelves { (d : AnyResource) → has_shelf shelves.old d ≡ true → has_shelf shelves.new d ≡ true }
    ensures away { (d : AnyResource) → is_away shelves.new d ≡ is_away shelves.old d }
    ensures ready { IfOk result (λ held. IsReady catalogue.now plan.now shelves.old shelves.new held) }
{
    let requests = plan.requests();
    let read_shelves = locked_shelves(alloc, catalogue, requests, Right::Read)?;
    if read_shelves.is_empty()
        && requests.len() <= FEW_REQUESTS
        && !locks_an_end(catalogue, requests)
    {
        let rows = hold_rows(alloc, catalogue, shelves, requests)?;
        return Ok(Holdings::Rows(rows));
    }
    let held = hold_shelves(alloc, catalogue, shelves, plan)?;
    Ok(Holdings::Shelves(held))
}

/// Takes the shelves and the rows that are lent to be written out of the store.
fn take_out_shelves(
    alloc: Global,
    catalogue: &Catalogue,
    shelves: &mut Shelves,
    held: HeldShelves,
) -> HeldShelves
    ensures { AreShelvesTaken catalogue.now shelves.old shelves.new held result }
{
    let HeldShelves {
        shelves: mut slots,
        written_shelves,
        written_names,
    } = held;
    take_shelves(alloc, shelves, &mut slots, &written_shelves);
    empty_places(catalogue, shelves, &written_names);
    HeldShelves {
        shelves: slots,
        written_shelves,
        written_names,
    }
}

/// Takes what is lent to be written out of the store. A row that is lent by its name stays, and counts until another is
/// given back in its place. It takes no memory.
pub(crate) fn take_out(
    alloc: Global,
    catalogue: &Catalogue,
    shelves: &mut Shelves,
    held: Holdings,
) -> Holdings
    ensures { IsTaken catalogue.now shelves.old shelves.new held result }
{
    match held {
        Holdings::Rows(held) => Holdings::Rows(held),
        Holdings::Shelves(held) => {
            Holdings::Shelves(take_out_shelves(alloc, catalogue, shelves, held))
        }
    }
}

/// Puts back what a loan is to give back of its shelves. It takes no memory and copies no row.
fn put_back_shelves(catalogue: &Catalogue, shelves: &mut Shelves, held: HeldShelves)
    ensures seen { (q : AnyName) → (among held.written_shelves.items (shelf_of catalogue.now q) ≡ true →
        has_shelf shelves.old (shelf_of catalogue.now q) ≡ true) →
        (among held.written_shelves.items (shelf_of catalogue.now q) ≡ true →
        has_shelf held.shelves (shelf_of catalogue.now q) ≡ true)
        → (among held.written_shelves.items (shelf_of catalogue.now q) ≡ false →
        is_named held.written_names.items q ≡ true → has_place shelves.old (shelf_of catalogue.now q) q ≡ true) →
        (among held.written_shelves.items (shelf_of catalogue.now q) ≡ false →
        is_named held.written_names.items q ≡ true → has_place held.shelves (shelf_of catalogue.now q) q ≡ true)
        → found catalogue.now shelves.new q
        ≡ (if among held.written_shelves.items (shelf_of catalogue.now q) then found catalogue.now held.shelves q
        else (if is_named held.written_names.items q then full (found catalogue.now held.shelves q).row
        else found catalogue.now shelves.old q)) }
    ensures places { (q : AnyName) → among held.written_shelves.items (shelf_of catalogue.now q) ≡ false →
        is_named held.written_names.items q ≡ false →
        has_place shelves.new (shelf_of catalogue.now q) q ≡ has_place shelves.old (shelf_of catalogue.now q) q }
    ensures shelves { (d : AnyResource) → has_shelf shelves.new d ≡ has_shelf shelves.old d }
    ensures away { (d : AnyResource) → (among held.written_shelves.items d ≡ true → has_shelf shelves.old d ≡ true) →
        (among held.written_shelves.items d ≡ true → has_shelf held.shelves d ≡ true)
        → is_away shelves.new d
        ≡ (if among held.written_shelves.items d then is_away held.shelves d else is_away shelves.old d) }
{
    let HeldShelves {
        shelves: mut from,
        written_shelves,
        written_names,
    } = held;
    put_shelves(shelves, &mut from, &written_shelves);
    put_rows(catalogue, shelves, &mut from, &written_names);
}

/// Puts back what a loan is to give back. It takes no memory and copies no row.
pub(crate) fn put_back(catalogue: &Catalogue, shelves: &mut Shelves, held: Holdings)
    requires { CanGoBack catalogue.now shelves.old held }
    ensures back { IsBackFrom catalogue.now shelves.old shelves.new held }
    ensures shelves { (d : AnyResource) → has_shelf shelves.new d ≡ has_shelf shelves.old d }
{
    match held {
        Holdings::Rows(held) => put_listed(catalogue, shelves, held.written),
        Holdings::Shelves(held) => put_back_shelves(catalogue, shelves, held),
    }
}
