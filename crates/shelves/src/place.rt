//! Places: what is at row names.

ghost use Rattle.std.specs.Prelude.{◌≡◌, true, false, Some, Option, option_map, IfOk, OnOk, OnErr};
ghost use Rattle.std.specs.Arc.{arc_value};
ghost use Rattle.values.specs.Database.{RowOf};
ghost use Rattle.shelves.specs.Places.{row_of, seen_over, full, emptied, shared_row};

use std::alloc::{AllocError, Global};
use std::sync::Arc;
use values::{NoMemory, Row};

/// A place: a row name with a row or with none.
#[derive(Drop)]
pub(crate) enum Place {
    /// What is here counts.
    Here(Option<Arc<Row>>),
    /// What stood here is lent to be written, not by its name alone but on a shelf, and counts as it was lent.
    Lent(Option<Arc<Row>>),
    /// For a row to come. What counts is what the shelf says.
    Reserved,
}

impl Place {
    /// The row at the place.
    pub(crate) fn row(&self) -> Option<&Row>
        ensures { option_map (λ r. r.now) result ≡ row_of self.now }
    {
        match self {
            Place::Here(Some(row)) => Some(row),
            _ => None,
        }
    }

    /// The row at the place, once more.
    pub(crate) fn share(&self) -> Result<Option<Arc<Row>>, NoMemory>
        ensures { IfOk result (λ row. shared_row row ≡ row_of self.now) }
    {
        match self {
            Place::Here(Some(row)) => Ok(Some(row.clone()?)),
            _ => Ok(None),
        }
    }

    /// The row that stood at the place, which is no more.
    pub(crate) fn into_row(self) -> Option<Arc<Row>>
        ensures { shared_row result ≡ row_of self }
    {
        match self {
            Place::Here(row) => row,
            _ => None,
        }
    }

    /// Fills the place with a row, or with none. A row in place of another takes over its
    /// memory, if nobody else has either.
    pub(crate) fn fill(&mut self, row: Option<Arc<Row>>)
        ensures { (otherwise : Option RowOf) → seen_over (Some self.new) otherwise ≡ full (shared_row row) }
    {
        let Some(new) = row else {
            *self = Place::Here(None);
            return;
        };
        match self {
            Place::Here(Some(row)) => replace(row, new),
            _ => *self = Place::Here(Some(new)),
        }
    }

    /// Fills the place with a row, or with none. A row that is here, and that nobody else has, takes the values of the
    /// new one, and no memory is taken. An `Err` leaves the place as it was.
    pub(crate) fn write(&mut self, alloc: Global, row: Option<Row>) -> Result<(), NoMemory>
        ensures filled { OnOk result ((otherwise : Option RowOf) → seen_over (Some self.new) otherwise ≡ full row) }
        ensures err { OnErr result (self.new ≡ self.old) }
    {
        let Some(new) = row else {
            *self = Place::Here(None);
            return Ok(());
        };
        let mut new = new;
        if let Place::Here(Some(row)) = self {
            if exchange(row, &mut new) {
                return Ok(());
            }
        }
        *self = Place::Here(Some(Arc::new(alloc, new)?));
        Ok(())
    }

    /// Lends the row at the place. It counts as before.
    pub(crate) fn empty(&mut self)
        ensures { (otherwise : Option RowOf) →
            seen_over (Some self.new) otherwise ≡ emptied (seen_over (Some self.old) otherwise) }
    {
        if let Place::Here(row) = self {
            *self = Place::Lent(row.take());
        }
    }
}

/// Exchanges the values of a row with those of another, if nobody else has the row, and tells whether it did. Else both
/// stay as they are.
fn exchange(row: &mut Arc<Row>, other: &mut Row) -> bool
    ensures done { result ≡ true → arc_value row.new ≡ other.old }
    ensures same { result ≡ false → (row.new ≡ row.old) × (other.new ≡ other.old) }
{
    match Arc::get_mut(row) {
        Some(row) => {
            row.swap(other);
            true
        }
        None => false,
    }
}

/// Gives a row the values of another. If nobody else has either row, the old one keeps its memory: rows that are
/// written stay where they lie.
fn replace(row: &mut Arc<Row>, new: Arc<Row>)
    ensures { arc_value row.new ≡ arc_value new }
{
    let mut new = new;
    if let Some(values) = Arc::get_mut(&mut new) {
        if exchange(row, values) {
            return;
        }
    }
    *row = new;
}

impl Clone for Place {
    // The copy shows what the place shows.
    ghost is_clone = { λ place copy. (otherwise : Option RowOf) →
        seen_over (Some copy) otherwise ≡ seen_over (Some place) otherwise };

    fn clone(&self) -> Result<Place, AllocError> {
        match self {
            Place::Here(row) => Ok(Place::Here(row.clone()?)),
            Place::Lent(row) => Ok(Place::Lent(row.clone()?)),
            Place::Reserved => Ok(Place::Reserved),
        }
    }
}
