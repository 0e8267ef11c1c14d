//! Running an entry.

ghost use Rattle.std.specs.Prelude.{◌≡◌, false, [], IfOk};
ghost use Rattle.values.specs.Database.{Database};
ghost use Rattle.meaning.specs.Entries.{meaning};
ghost use Rattle.meaning.specs.Fitting.{HasTypes, StandInNeverShows};
ghost use Rattle.meaning.specs.Frame.{Agree};
ghost use Rattle.meaning.specs.Outcomes.{as_reply, is_commit};
ghost use Rattle.workspace.specs.Overlay.{applied};
ghost use Rattle.interp.specs.Entries.{entry_shape};
ghost use Rattle.interp.specs.Touched.{ShowsTouched, OnlyTouched};

use crate::body::run_body;
use crate::effect::Effect;
use crate::entry::{Entry, Footing};
use catalogue::Catalogue;
use footprint::AbortCode;
use meaning::{Ending, Outcome, stand_in_never_shows, stays_in_footprint};
use std::alloc::Global;
use std::collections::BTreeMap;
use values::NoMemory;
use workspace::{Passage, Permit, RowView, Shown};

/// Runs an entry on the rows of the view.
fn run_here<V: RowView>(
    alloc: Global,
    catalogue: &Catalogue,
    entry: &Entry,
    view: &V,
) -> Result<Effect, NoMemory>
    requires tables { entry.now.request.proc.tables ≡ catalogue.now }
    requires view { V.tables view.now ≡ catalogue.now }
    requires shows { ShowsTouched (entry_shape entry.now) (V.shows view.now) }
    ensures gives { IfOk result (λ effect.
        meaning (entry_shape entry.now) (V.rows view.now)
        ≡ (as_reply effect.outcome, applied effect.writes.entries (V.rows view.now))) }
    ensures covered { IfOk result (λ effect. OnlyTouched (entry_shape entry.now) effect.writes.entries) }
    ensures unchanged { IfOk result (λ effect. is_commit effect.outcome ≡ false → effect.writes.entries ≡ []) }
{
    let (footprint, uncovered) = match entry.footing() {
        Footing::Declared(footprint) => (footprint, Ending::Abort(AbortCode::Uncovered)),
        Footing::Found(footprint) => (footprint, Ending::Stale),
        Footing::Faulting(code) => {
            return Ok(Effect {
                outcome: Outcome::Abort(*code),
                writes: BTreeMap::new(alloc),
            });
        }
    };
    let permit = Permit {
        catalogue,
        passage: Passage::Covered(footprint, uncovered),
    };
    let shown = Shown { view, permit };
    let request = entry.request();
    run_body(alloc, &shown, request.args(), request.proc().body())
}

// rule: call.end
/// Runs an entry over a view of the entry's catalogue that shows each name that the entry may read, and is asked for no
/// other name. The only error is that allocation failed.
pub fn run<V: RowView>(
    alloc: Global,
    catalogue: &Catalogue,
    entry: &Entry,
    view: &V,
) -> Result<Effect, NoMemory>
    requires tables { entry.now.request.proc.tables ≡ catalogue.now }
    requires view { V.tables view.now ≡ catalogue.now }
    requires shows { ShowsTouched (entry_shape entry.now) (V.shows view.now) }
    // On each database that agrees with the view on what the entry may read, the entry has this outcome, and it leaves
    // that database with these writes.
    ensures meaning { IfOk result (λ effect. (db : Database) → Agree (entry_shape entry.now) (V.rows view.now) db
        → meaning (entry_shape entry.now) db ≡ (as_reply effect.outcome, applied effect.writes.entries db)) }
    // Each write is of a name that the entry may write.
    ensures covered { IfOk result (λ effect. OnlyTouched (entry_shape entry.now) effect.writes.entries) }
    // Without a commit there is none.
    ensures unchanged { IfOk result (λ effect. is_commit effect.outcome ≡ false → effect.writes.entries ≡ []) }
    // What is taken for a variable or a column that is not there makes no difference, on rows of the columns' types.
    ensures stand_in { (db : Database) → HasTypes entry.now.request.proc.tables db →
        StandInNeverShows (entry_shape entry.now) db }
{
    // proof: laws of what an entry reads and writes.
    stays_in_footprint();
    stand_in_never_shows();
    entry.is_call();
    run_here(alloc, catalogue, entry, view)
}
