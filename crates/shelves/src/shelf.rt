//! One shelf: the places of row names.

ghost use Rattle.std.specs.Prelude.{◌≡◌, Some, None, true, false, ◌&&◌, if◌then◌else◌, is_some, option_map, IfOk, OnOk, OnErr};
ghost use Rattle.values.specs.declared.name.RowName.{RowName as AnyName};
ghost use Rattle.shelves.specs.Places.{places_of, seen_in, has_in, is_shelf_out, full, emptied, gone, shared_row, is_same_name};

use crate::contents::{Contents, Places};
use crate::named::shared;
use crate::place::Place;
use std::alloc::Global;
use std::collections::BTreeMap;
use std::mem;
use std::snapshot::Snapshot;
use std::sync::Arc;
use values::{NoMemory, Row, RowName};

/// The places of a shelf. While the shelf is lent whole they are away, and their rows count as they were lent.
#[derive(Drop)]
pub struct Shelf {
    contents: Contents,
    away: Option<Snapshot<Places>>,
}

impl Shelf {
    /// A shelf without places.
    pub(crate) fn new(alloc: Global) -> Shelf
        ensures seen { (q : AnyName) → seen_in result q ≡ full None }
        ensures away { is_shelf_out result ≡ false }
    {
        Shelf {
            contents: Contents::Own(BTreeMap::new(alloc)),
            away: None,
        }
    }

    /// Whether the places are away.
    pub(crate) fn is_away(&self) -> bool
        ensures { result ≡ is_shelf_out self.now }
    {
        self.away.is_some()
    }

    /// The places.
    pub(crate) fn places(&self) -> &Places
        ensures { result.now ≡ places_of self.now.contents }
    {
        self.contents.places()
    }

    /// Lends the places: they go out with the shelf that is given, and none are left.
    pub(crate) fn take(&mut self, alloc: Global) -> Shelf
        ensures taken { result ≡ self.old }
        ensures seen { (q : AnyName) → seen_in self.new q ≡ gone (seen_in self.old q) }
        ensures places { (q : AnyName) → has_in self.new q ≡ false }
        ensures away { is_shelf_out self.new ≡ true }
    {
        let lent = Shelf {
            contents: Contents::Own(BTreeMap::new(alloc)),
            away: Some(Snapshot::of(self.places())),
        };
        mem::replace(self, lent)
    }

    /// A shelf for a loan that only reads it: one that isn't away shows what this one
    /// shows. Both have the same places from then on.
    pub(crate) fn share(&mut self, alloc: Global) -> Result<Shelf, NoMemory>
        ensures shared { IfOk result (λ shared. is_shelf_out self.old ≡ false → (q : AnyName) →
            seen_in shared q ≡ seen_in self.old q) }
        ensures here { IfOk result (λ shared. is_shelf_out shared ≡ false) }
        ensures seen { (q : AnyName) → seen_in self.new q ≡ seen_in self.old q }
        ensures away { is_shelf_out self.new ≡ is_shelf_out self.old }
    {
        let places = self.contents.share(alloc)?;
        Ok(Shelf {
            contents: Contents::Shared(places),
            away: None,
        })
    }

    /// Sees to it that a name has a place of the shelf's own.
    #[tactic(auto, using(crate::proofs::Exact::own_same))]
    pub(crate) fn make_place(&mut self, alloc: Global, name: &RowName) -> Result<(), NoMemory>
        ensures seen { (q : AnyName) → seen_in self.new q ≡ seen_in self.old q }
        ensures kept { (q : AnyName) → has_in self.old q ≡ true → has_in self.new q ≡ true }
        ensures there { OnOk result (has_in self.new name.now ≡ true) }
        ensures away { is_shelf_out self.new ≡ is_shelf_out self.old }
    {
        self.contents.make_own(alloc)?;
        self.contents.reserve(name)
    }

    /// The row at a name, once more. Sees to it that the name has a place of the shelf's own.
    #[tactic(auto, using(crate::proofs::Exact::own_same))]
    pub(crate) fn lend_row(
        &mut self,
        alloc: Global,
        name: &RowName,
    ) -> Result<Option<Arc<Row>>, NoMemory>
        ensures row { IfOk result (λ row. shared_row row ≡ (seen_in self.old name.now).row) }
        ensures seen { (q : AnyName) → seen_in self.new q ≡ seen_in self.old q }
        ensures kept { (q : AnyName) → has_in self.old q ≡ true → has_in self.new q ≡ true }
        ensures there { OnOk result (has_in self.new name.now ≡ true) }
        ensures away { is_shelf_out self.new ≡ is_shelf_out self.old }
    {
        if let Some(place) = self.contents.own_place(name) {
            return place.share();
        }
        self.make_place(alloc, name)?;
        self.share_row(name)
    }

    /// Empties the place of a name, if it is the shelf's own. Its row counts as before.
    #[tactic(auto, using(crate::proofs::Exact::own_same))]
    pub(crate) fn empty_place(&mut self, name: &RowName)
        ensures seen { (q : AnyName) →
            seen_in self.new q ≡ (if is_same_name name.now q && has_in self.old q then emptied (seen_in self.old q)
            else seen_in self.old q) }
        ensures places { (q : AnyName) → has_in self.new q ≡ has_in self.old q }
        ensures away { is_shelf_out self.new ≡ is_shelf_out self.old }
    {
        if let Contents::Own(places) = &mut self.contents {
            if let Some(place) = places.get_mut(name) {
                place.empty();
            }
        }
    }

    /// Fills the place of a name, if it is the shelf's own, with a row or with none.
    #[tactic(auto, using(crate::proofs::Exact::own_same))]
    pub(crate) fn fill_place(&mut self, name: &RowName, row: Option<Arc<Row>>)
        ensures seen { (q : AnyName) →
            seen_in self.new q ≡ (if is_same_name name.now q && has_in self.old q then full (shared_row row)
            else seen_in self.old q) }
        ensures places { (q : AnyName) → has_in self.new q ≡ has_in self.old q }
        ensures away { is_shelf_out self.new ≡ is_shelf_out self.old }
    {
        if let Contents::Own(places) = &mut self.contents {
            if let Some(place) = places.get_mut(name) {
                place.fill(row);
            }
        }
    }

    /// Puts a row, or none, at a name, which gets a place of the shelf's own. An `Err` leaves what is seen as it was.
    #[tactic(auto, using(crate::proofs::Exact::own_same, std::proofs::lemmas::Map::Steps::set_value_same))]
    pub(crate) fn write_row(
        &mut self,
        alloc: Global,
        name: &RowName,
        row: Option<Row>,
    ) -> Result<(), NoMemory>
        ensures seen { OnOk result ((q : AnyName) →
            seen_in self.new q ≡ (if is_same_name name.now q then full row else seen_in self.old q)) }
        ensures err { OnErr result ((q : AnyName) → seen_in self.new q ≡ seen_in self.old q) }
        ensures kept { (q : AnyName) → has_in self.old q ≡ true → has_in self.new q ≡ true }
        ensures away { is_shelf_out self.new ≡ is_shelf_out self.old }
    {
        if let Contents::Own(places) = &mut self.contents {
            if let Some(place) = places.get_mut(name) {
                place.write(alloc, row)?;
                return Ok(());
            }
        }
        let row = shared(alloc, row)?;
        self.make_place(alloc, name)?;
        self.fill_place(name, row);
        Ok(())
    }

    /// Puts a row, or none, at a name. An `Err` leaves the shelf as it was.
    #[tactic(auto, using(crate::proofs::Exact::own_same))]
    pub(crate) fn set_row(
        &mut self,
        alloc: Global,
        name: &RowName,
        row: Option<Arc<Row>>,
    ) -> Result<(), NoMemory>
        ensures seen { OnOk result ((q : AnyName) →
            seen_in self.new q ≡ (if is_same_name name.now q then full (shared_row row) else seen_in self.old q)) }
        ensures kept { (q : AnyName) → has_in self.old q ≡ true → has_in self.new q ≡ true }
        ensures there { OnOk result (has_in self.new name.now ≡ true) }
        ensures away { is_shelf_out self.new ≡ is_shelf_out self.old }
    {
        self.contents.make_own(alloc)?;
        self.contents.set(name, Place::Here(row))
    }

    /// Puts a row in the place of a name, if it is the shelf's own; without a row the place
    /// goes, unless the shelf is away.
    #[tactic(auto, using(crate::proofs::Exact::own_same, crate::proofs::Exact::here_counts))]
    pub(crate) fn put_row(&mut self, name: &RowName, row: Option<Arc<Row>>)
        ensures seen { (q : AnyName) →
            seen_in self.new q ≡ (if is_same_name name.now q && has_in self.old q then full (shared_row row)
            else seen_in self.old q) }
        ensures places { (q : AnyName) → is_same_name name.now q ≡ false → has_in self.new q ≡ has_in self.old q }
        ensures away { is_shelf_out self.new ≡ is_shelf_out self.old }
    {
        if row.is_some() || self.is_away() {
            self.fill_place(name, row);
        } else if let Contents::Own(places) = &mut self.contents {
            places.remove(name);
        }
    }

    /// Takes the place of a name away, and gives the row that is there, if there is a place of the shelf's own.
    #[tactic(auto, using(crate::proofs::Exact::own_same))]
    pub(crate) fn take_row(&mut self, name: &RowName) -> Option<Option<Arc<Row>>>
        ensures row { option_map shared_row result
            ≡ (if has_in self.old name.now then Some (seen_in self.old name.now).row else None) }
        ensures seen { (q : AnyName) → is_same_name name.now q ≡ false → seen_in self.new q ≡ seen_in self.old q }
        ensures places { (q : AnyName) →
            has_in self.new q ≡ (if is_same_name name.now q then false else has_in self.old q) }
        ensures away { is_shelf_out self.new ≡ is_shelf_out self.old }
    {
        let Contents::Own(places) = &mut self.contents else {
            return None;
        };
        let place = places.remove(name)?;
        Some(place.into_row())
    }

    /// The row at a name, once more.
    pub(crate) fn share_row(&self, name: &RowName) -> Result<Option<Arc<Row>>, NoMemory>
        ensures { IfOk result (λ row. shared_row row ≡ (seen_in self.now name.now).row) }
    {
        match self.places().get(name) {
            Some(place) => place.share(),
            None => Ok(None),
        }
    }

    /// The row at a name.
    pub(crate) fn row_at(&self, name: &RowName) -> Option<&Row>
        ensures { option_map (λ r. r.now) result ≡ (seen_in self.now name.now).row }
    {
        let place = self.places().get(name)?;
        place.row()
    }
}
