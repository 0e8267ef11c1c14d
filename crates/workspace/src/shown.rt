//! What a run is shown.

ghost use Rattle.workspace.specs.Coverage.{ShowsCovered};

use crate::permit::Permit;
use crate::view::RowView;

/// The rows that a run is shown, and the permit that it has: each name that the permit covers with Read is shown.
pub struct Shown<'a, V: RowView> {
    pub view: &'a V,
    pub permit: Permit<'a>,
    ghost covered: { ShowsCovered permit (V.tables view.now) (V.shows view.now) },
}

impl<V: RowView> Drop for Shown<'_, V> {
    fn drop(self) {
        let Self { view: _, permit: _ } = self;
    }
}
