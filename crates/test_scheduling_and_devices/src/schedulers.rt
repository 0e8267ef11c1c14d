//! Schedulers of calls on the bank.

ghost use Rattle.std.specs.Prelude.{◌≡◌, ◌≤◌, IfOk, length};
ghost use Rattle.std.specs.FinMap as map_of;
ghost use Rattle.interp.specs.Over.{AreEntriesOver};
ghost use Rattle.scheduler.specs.Schedules.{KeepsItsJobs};

use catalogue::Catalogue;
use requests::{Procs, Setup};
use row_store::{RowStore, all_is_free_with_nothing_lent};
use scheduler::Scheduler;
use sequencer::{Entry, prepare};
use std::alloc::Global;
use std::test::Fail;
use test_bank::{Bodies, Call, bank, batch};
use values::{Key, Row, TableNo};

/// A store of rows, and the entries of calls on it.
fn prepared(
    alloc: Global,
    catalogue: &Catalogue,
    procs: &Procs,
    rows: Vec<(TableNo, Key, Row)>,
    calls: &[Call<'_>],
) -> Result<(RowStore, Vec<Entry>), Fail>
    requires { procs.now.tables ≡ catalogue.now }
    ensures tables { IfOk result (λ made. made.0.tables ≡ catalogue.now) }
    ensures unlent { IfOk result (λ made. made.0.lent ≡ map_of.empty) }
    ensures over { IfOk result (λ made. AreEntriesOver catalogue.now made.1.items) }
    ensures few { IfOk result (λ made. length made.1.items ≤ 4096) }
{
    let batch = batch(alloc, procs, calls)?;
    let store = RowStore::new(alloc, catalogue, rows)?;
    all_is_free_with_nothing_lent();
    let entries = prepare(alloc, &batch, catalogue, procs, &store)?;
    if entries.len() > 4096 {
        return Err(Fail::from("too many"));
    }
    Ok((store, entries))
}

/// A scheduler of these calls on the bank, with numbers from the first one on.
pub(crate) fn scheduler(
    alloc: Global,
    calls: &[Call<'_>],
    first: u64,
    most: usize,
) -> Result<Scheduler, Fail>
    ensures { IfOk result (λ scheduler. KeepsItsJobs scheduler) }
{
    if first > 4096 || most == 0 {
        return Err(Fail::from("no scheduler"));
    }
    let Setup {
        catalogue,
        procs,
        rows,
        retries: _,
    } = bank(alloc, Bodies::Brief)?;
    let (store, entries) = prepared(alloc, &catalogue, &procs, rows, calls)?;
    match Scheduler::new(alloc, catalogue, store, entries, first, 8, most) {
        Ok(scheduler) => Ok(scheduler),
        Err(_) => Err(Fail::from("memory")),
    }
}
