//! Beginning a batch.

ghost use Rattle.std.specs.Prelude.{◌≡◌, [], map, IfOk, IfErr};
ghost use Rattle.interp.specs.Entries.{entry_shape};
ghost use Rattle.scheduler.specs.Logs.{ArePlansOf};
ghost use Rattle.engine.specs.Stages.{IsFree, IsBatchFrom, IsScheduleOf};

use dispatcher::Settings;
use requests::Procs;
use row_store::{RowStore, all_is_free_with_nothing_lent};
use scheduler::Scheduler;
use sequencer::{Attempts, prepare_attempts};
use std::alloc::Global;

/// A scheduler of the entries of a batch's attempts on these rows, with nothing admitted. If allocation fails, the rows
/// come back.
pub(crate) fn begin(
    alloc: Global,
    procs: &Procs,
    settings: Settings,
    first: u64,
    attempts: &Attempts,
    store: RowStore,
) -> Result<Scheduler, RowStore>
    requires free { IsFree procs.now.tables store }
    requires from { IsBatchFrom procs.now.tables first attempts.now }
    ensures schedule { IfOk result (IsScheduleOf procs.now.tables first attempts.now) }
    ensures start { IfOk result (λ scheduler. scheduler.work.start ≡ store.rows) }
    ensures unadmitted { IfOk result (λ scheduler. scheduler.slots ≡ []) }
    // The locks are coarsened, and find room, as the settings say.
    ensures plans { IfOk result (λ scheduler.
        ArePlansOf settings.threshold settings.arena (map entry_shape scheduler.work.entries) scheduler.work.plans) }
    ensures room { IfOk result (λ scheduler. scheduler.work.arena ≡ settings.arena) }
    ensures back { IfErr result (λ back. back ≡ store) }
{
    // proof: every row of the store is free.
    all_is_free_with_nothing_lent();
    let Ok(catalogue) = store.catalogue().clone() else {
        return Err(store);
    };
    let Ok(entries) = prepare_attempts(alloc, attempts, &catalogue, procs, &store) else {
        return Err(store);
    };
    let Settings {
        threshold,
        arena,
        ..
    } = settings;
    match Scheduler::new(alloc, catalogue, store, entries, first, threshold, arena) {
        Ok(scheduler) => Ok(scheduler),
        Err((_, store, _, _)) => Err(store),
    }
}
