//! The places of one shelf.

ghost use Rattle.std.specs.Prelude.{◌≡◌, true, Some, Option, if◌then◌else◌, IfOk, IfSome, OnOk};
ghost use Rattle.std.specs.Arc.{arc_value};
ghost use Rattle.values.specs.declared.name.RowName.{RowName as AnyName};
ghost use Rattle.values.specs.Database.{RowOf, name_cmp};
ghost use Rattle.std.specs.BTreeMap.{get};
ghost use Rattle.shelves.specs.Places.{places_of, seen_among, seen_over, has_own, is_own, is_same_name};

use crate::place::Place;
use std::alloc::{AllocError, Global};
use std::collections::BTreeMap;
use std::mem;
use std::sync::Arc;
use values::{NoMemory, RowName};

/// Places, in the order of their names.
pub(crate) type Places = BTreeMap<RowName, Place>;

/// The places of a shelf: its own, or those that it shares with loans, which only read them.
#[derive(Drop)]
pub(crate) enum Contents {
    Own(Places),
    Shared(Arc<Places>),
}

/// A copy of places.
fn copy_of(places: &Places) -> Result<Places, AllocError>
    ensures { IfOk result (λ copy. (q : AnyName) (otherwise : Option RowOf) →
        seen_among copy q otherwise ≡ seen_among places.now q otherwise) }
{
    Ok(places.clone()?)
}

/// Places that were shared: the same where nobody else has them any more, else a copy.
/// Without memory for that they stay shared.
fn taken_back(shared: Arc<Places>) -> Contents
    ensures { (q : AnyName) (otherwise : Option RowOf) →
        seen_among (places_of result) q otherwise ≡ seen_among (arc_value shared) q otherwise }
{
    match Arc::try_unwrap(shared) {
        Ok(places) => Contents::Own(places),
        Err(shared) => match copy_of(&shared) {
            Ok(places) => Contents::Own(places),
            Err(_) => Contents::Shared(shared),
        },
    }
}

/// Places to be shared. Without memory for that they stay a shelf's own.
fn to_share(alloc: Global, places: Places) -> Contents
    ensures { places_of result ≡ places }
{
    match Arc::new(alloc, places) {
        Ok(shared) => Contents::Shared(shared),
        Err(failed) => Contents::Own(failed.value),
    }
}

impl Contents {
    /// The places.
    pub(crate) fn places(&self) -> &Places
        ensures { result.now ≡ places_of self.now }
    {
        match self {
            Contents::Own(places) => places,
            Contents::Shared(places) => places,
        }
    }

    /// The place of a name that is the shelf's own.
    pub(crate) fn own_place(&self, name: &RowName) -> Option<&Place>
        ensures there { IfSome result (λ place. (has_own self.now name.now ≡ true)
            × (get name_cmp (places_of self.now) name.now ≡ Some place.now)) }
    {
        match self {
            Contents::Own(places) => places.get(name),
            Contents::Shared(_) => None,
        }
    }

    /// Sees to it that a name has a place among places that are the shelf's own.
    #[tactic(auto, using(crate::proofs::Exact::own_same))]
    pub(crate) fn reserve(&mut self, name: &RowName) -> Result<(), NoMemory>
        requires { is_own self.old ≡ true }
        ensures seen { (q : AnyName) (otherwise : Option RowOf) →
            seen_among (places_of self.new) q otherwise ≡ seen_among (places_of self.old) q otherwise }
        ensures kept { (q : AnyName) → has_own self.old q ≡ true → has_own self.new q ≡ true }
        ensures there { OnOk result (has_own self.new name.now ≡ true) }
    {
        if let Contents::Own(places) = self {
            if !places.contains_key(name) {
                places.insert(*name, Place::Reserved)?;
            }
        }
        Ok(())
    }

    /// Puts a place at a name among places that are the shelf's own.
    #[tactic(auto, using(crate::proofs::Exact::own_same))]
    pub(crate) fn set(&mut self, name: &RowName, place: Place) -> Result<(), NoMemory>
        requires { is_own self.old ≡ true }
        ensures seen { OnOk result ((q : AnyName) (otherwise : Option RowOf) →
            seen_among (places_of self.new) q otherwise
            ≡ (if is_same_name name.now q then seen_over (Some place) otherwise
            else seen_among (places_of self.old) q otherwise)) }
        ensures kept { (q : AnyName) → has_own self.old q ≡ true → has_own self.new q ≡ true }
        ensures there { OnOk result (has_own self.new name.now ≡ true) }
    {
        if let Contents::Own(places) = self {
            places.insert(*name, place)?;
        }
        Ok(())
    }

    /// Makes the places the shelf's own. An `Err` leaves them shared.
    pub(crate) fn make_own(&mut self, alloc: Global) -> Result<(), NoMemory>
        ensures seen { (q : AnyName) (otherwise : Option RowOf) →
            seen_among (places_of self.new) q otherwise ≡ seen_among (places_of self.old) q otherwise }
        ensures kept { (q : AnyName) → has_own self.old q ≡ true → has_own self.new q ≡ true }
        ensures own { OnOk result (is_own self.new ≡ true) }
    {
        if let Contents::Own(_) = self {
            return Ok(());
        }
        if let Contents::Shared(shared) = mem::replace(self, Contents::Own(BTreeMap::new(alloc))) {
            *self = taken_back(shared);
        }
        match self {
            Contents::Own(_) => Ok(()),
            Contents::Shared(_) => Err(NoMemory),
        }
    }

    /// The places, shared from now on.
    pub(crate) fn share(&mut self, alloc: Global) -> Result<Arc<Places>, NoMemory>
        ensures shared { IfOk result (λ shared. arc_value shared ≡ places_of self.old) }
        ensures same { places_of self.new ≡ places_of self.old }
    {
        if let Contents::Own(places) = self {
            let own = mem::replace(places, BTreeMap::new(alloc));
            *self = to_share(alloc, own);
        }
        match self {
            Contents::Own(_) => Err(NoMemory),
            Contents::Shared(shared) => Ok(shared.clone()?),
        }
    }
}
