//! Preparing a batch.

ghost use Rattle.std.specs.Prelude.{◌≡◌, IfOk, map};
ghost use Rattle.std.specs.List.{AllByRecursion};
ghost use Rattle.footprint.specs.OfCatalogue.{IsFootprintOf};
ghost use Rattle.meaning.specs.Entries.{footprint_of};
ghost use Rattle.interp.specs.Entries.{entry_shape, footing_shape};
ghost use Rattle.interp.specs.Over.{locked_for, IsEntryOver, AreEntriesOver};
ghost use Rattle.sequencer.specs.Attempts.{requests_in, requests_of, AreRequestsOver};
ghost use Rattle.sequencer.specs.Batches.{items_of, AreOver};
ghost use Rattle.interp.specs.Touched.{ShowsEachName};
ghost use Rattle.sequencer.specs.Entries.{prepared};

use crate::attempts::{Attempts, Carried, request_at};
use crate::batch::Batch;
use batch_items::Item;
use catalogue::Catalogue;
use footprint::declared;
use interp::{Entry, Footing, recon};
use requests::{Procs, Request};
use std::alloc::Global;
use values::NoMemory;
use workspace::RowView;

/// The footing of a request: the footprint that its procedure declares for its values, or the abort of the first fault;
/// or the footprint that reconnaissance finds on the view, where that is to find it.
#[tactic(auto, using(crate::proofs::Nothing::nothing_of_catalogue))]
fn footing_of<V: RowView>(
    alloc: Global,
    catalogue: &Catalogue,
    request: &Request,
    view: &V,
) -> Result<Footing, NoMemory>
    requires tables { request.now.proc.tables ≡ catalogue.now }
    requires view { V.tables view.now ≡ catalogue.now }
    requires shows { ShowsEachName (V.shows view.now) }
    ensures exact { IfOk result (λ footing.
        footing_shape footing ≡ (prepared (V.rows view.now) request.now).footing) }
    ensures of_catalogue { IfOk result (λ footing.
        IsFootprintOf catalogue.now (locked_for (footprint_of (footing_shape footing)))) }
{
    let proc = request.proc();
    if proc.is_recon() {
        let footprint = recon(alloc, catalogue, proc, request.args(), view)?;
        return Ok(Footing::Found(footprint));
    }
    match declared(alloc, catalogue, proc, request.args())? {
        Ok(footprint) => Ok(Footing::Declared(footprint)),
        Err(code) => Ok(Footing::Faulting(code)),
    }
}

fn entry_of<V: RowView>(
    alloc: Global,
    catalogue: &Catalogue,
    request: &Request,
    view: &V,
) -> Result<Entry, NoMemory>
    requires tables { request.now.proc.tables ≡ catalogue.now }
    requires view { V.tables view.now ≡ catalogue.now }
    requires shows { ShowsEachName (V.shows view.now) }
    ensures shape { IfOk result (λ entry. entry_shape entry ≡ prepared (V.rows view.now) request.now) }
    ensures of_catalogue { IfOk result (λ entry. IsEntryOver catalogue.now entry) }
{
    let footing = footing_of(alloc, catalogue, request, view)?;
    let request = request.clone()?;
    Entry::new(alloc, request, footing)
}

/// The entries of carried requests and, after them, of a batch's own, each prepared on the view.
fn entries_of<V: RowView>(
    alloc: Global,
    carried: &[Carried],
    items: &[Item<Request>],
    catalogue: &Catalogue,
    view: &V,
) -> Result<Vec<Entry>, NoMemory>
    requires over { AreRequestsOver catalogue.now (requests_of carried.now items.now) }
    requires view { V.tables view.now ≡ catalogue.now }
    requires shows { ShowsEachName (V.shows view.now) }
    ensures tables { IfOk result (λ entries.
        AllByRecursion (λ entry. entry.request.proc.tables ≡ catalogue.now) entries.items) }
    ensures of_catalogue { IfOk result (λ entries. AreEntriesOver catalogue.now entries.items) }
    ensures exact { IfOk result (λ entries.
        map entry_shape entries.items ≡ map (prepared (V.rows view.now)) (requests_of carried.now items.now)) }
{
    let count = carried.len() + items.len();
    let mut entries = Vec::with_capacity(alloc, count)?;
    for place in 0..count {
        let request = request_at(carried, items, place);
        entries.push(entry_of(alloc, catalogue, request, view)?)?;
    }
    Ok(entries)
}

// rule: footprint.first
/// The entries of a batch's requests, in order: each request with the footprint that its procedure declares for its
/// values, or with the abort of the first fault, or with the footprint that reconnaissance finds on the view, which
/// shows every name. The procedures are those that the requests are of. They aren't read, since each request has its
/// own: they are there as `Request::new` takes them.
pub fn prepare<V: RowView>(
    alloc: Global,
    batch: &Batch,
    catalogue: &Catalogue,
    _procs: &Procs,
    view: &V,
) -> Result<Vec<Entry>, NoMemory>
    requires over { AreOver catalogue.now (items_of batch.now) }
    requires view { V.tables view.now ≡ catalogue.now }
    requires shows { ShowsEachName (V.shows view.now) }
    // Each entry is over the tables of the catalogue.
    ensures tables { IfOk result (λ entries.
        AllByRecursion (λ entry. entry.request.proc.tables ≡ catalogue.now) entries.items) }
    // And so is its footprint.
    ensures of_catalogue { IfOk result (λ entries. AreEntriesOver catalogue.now entries.items) }
    ensures exact { IfOk result (λ entries.
        map entry_shape entries.items ≡ map (λ item. prepared (V.rows view.now) item.request) (items_of batch.now)) }
{
    entries_of(alloc, &[], batch.items(), catalogue, view)
}

// rule: retry.head
/// The entries of all attempts of a batch, in order: the carried requests, and after them the batch's own, each
/// prepared on the view, which shows every name. The procedures aren't read here, either.
pub fn prepare_attempts<V: RowView>(
    alloc: Global,
    attempts: &Attempts,
    catalogue: &Catalogue,
    _procs: &Procs,
    view: &V,
) -> Result<Vec<Entry>, NoMemory>
    requires over { AreRequestsOver catalogue.now (requests_in attempts.now) }
    requires view { V.tables view.now ≡ catalogue.now }
    requires shows { ShowsEachName (V.shows view.now) }
    // Each entry is over the tables of the catalogue.
    ensures tables { IfOk result (λ entries.
        AllByRecursion (λ entry. entry.request.proc.tables ≡ catalogue.now) entries.items) }
    // And so is its footprint.
    ensures of_catalogue { IfOk result (λ entries. AreEntriesOver catalogue.now entries.items) }
    ensures exact { IfOk result (λ entries.
        map entry_shape entries.items ≡ map (prepared (V.rows view.now)) (requests_in attempts.now)) }
{
    entries_of(
        alloc,
        attempts.carried(),
        attempts.batch().items(),
        catalogue,
        view,
    )
}
