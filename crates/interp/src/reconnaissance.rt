//! Reconnaissance.

ghost use Rattle.std.specs.Prelude.{◌≡◌, map, IfOk};
ghost use Rattle.values.specs.Database.{Database};
ghost use Rattle.values.specs.Rows.{type_of};
ghost use Rattle.proclang_types.specs.Typing.{kinds_of};
ghost use Rattle.proclang_types.specs.Views.{stmts_view};
ghost use Rattle.footprint.specs.OfCatalogue.{IsFootprintOf};
ghost use Rattle.meaning.specs.Fitting.{HasTypes};
ghost use Rattle.meaning.specs.Frame.{Agree};
ghost use Rattle.meaning.specs.Reconnaissance.{found_footprint, found_entry, HoldsAsFound, StandInNeverFound};
ghost use Rattle.interp.specs.Touched.{ShowsEachName};

use crate::body::find_footprint;
use catalogue::Catalogue;
use footprint::Footprint;
use meaning::{found_entry_is_not_stale, found_footprint_is_of_tables, stand_in_is_never_found};
use proclang_types::Proc;
use std::alloc::Global;
use values::{NoMemory, Value};
use workspace::{Passage, Permit, RowView, Shown};

// rule: footprint.found
/// The footprint that the body of a procedure turns out to need, over a view of the procedure's catalogue that shows
/// each name: the body is run with every access allowed, up to its end, however it ends, and its writes and its reply
/// are dropped (Calvin, 2012: reconnaissance of dependent transactions). The only error is that allocation failed.
pub fn recon<V: RowView>(
    alloc: Global,
    catalogue: &Catalogue,
    proc: &Proc,
    args: &[Value],
    view: &V,
) -> Result<Footprint, NoMemory>
    requires tables { proc.now.tables ≡ catalogue.now }
    requires view { V.tables view.now ≡ catalogue.now }
    requires shows { ShowsEachName (V.shows view.now) }
    // Each resource that the run accessed, with the greatest right with which it did.
    ensures found { IfOk result (λ footprint.
        footprint ≡ found_footprint proc.now.tables (stmts_view proc.now.body) args.now (V.rows view.now)) }
    ensures of_catalogue { IfOk result (λ footprint. IsFootprintOf catalogue.now footprint) }
    // On each database that agrees with the view on that footprint, the entry with it has the outcome that this run
    // had.
    ensures not_stale { (db : Database) →
        Agree (found_entry proc.now.tables (stmts_view proc.now.body) args.now (V.rows view.now)) (V.rows view.now) db
        → HoldsAsFound proc.now.tables (stmts_view proc.now.body) args.now (V.rows view.now) db }
    // What is taken for a variable or a column that is not there makes no difference, for arguments of the parameters'
    // types and on rows of the columns' types.
    ensures stand_in { map type_of args.now ≡ kinds_of proc.now.params → HasTypes proc.now.tables (V.rows view.now)
        → StandInNeverFound proc.now.tables (stmts_view proc.now.body) args.now (V.rows view.now) }
{
    // proof: laws of the footprint that is found.
    found_entry_is_not_stale();
    found_footprint_is_of_tables();
    stand_in_is_never_found();
    let permit = Permit {
        catalogue,
        passage: Passage::Recorded,
    };
    let shown = Shown { view, permit };
    find_footprint(alloc, &shown, args, proc.body())
}
