//! Running entries one by one, in order: the plain program that the engine is compared with.

ghost use Rattle.std.specs.Prelude.{◌≡◌, IfOk, OnOk, map};
ghost use Rattle.std.specs.List.{AllByRecursion};
ghost use Rattle.std.specs.FinMap as map_of;
ghost use Rattle.meaning.specs.Entries.{meaning};
ghost use Rattle.meaning.specs.Outcomes.{as_reply};
ghost use Rattle.meaning.specs.Serial.{serial_end, serial_replies};
ghost use Rattle.interp.specs.Entries.{entry_shape};

use interp::{Effect, Entry, run};
use meaning::Outcome;
use row_store::{RowStore, all_is_free_with_nothing_lent};
use std::alloc::Global;
use values::NoMemory;

/// Runs an entry on the rows of a store, and makes its writes.
fn run_one(alloc: Global, store: &mut RowStore, entry: &Entry) -> Result<Outcome, NoMemory>
    requires tables { entry.now.request.proc.tables ≡ store.old.tables }
    requires unlent { store.old.lent ≡ map_of.empty }
    ensures lent { store.new.lent ≡ store.old.lent }
    ensures tables { store.new.tables ≡ store.old.tables }
    ensures meaning { IfOk result (λ outcome.
        meaning (entry_shape entry.now) store.old.rows ≡ (as_reply outcome, store.new.rows)) }
{
    all_is_free_with_nothing_lent();
    let Effect { outcome, writes } = run(alloc, store.catalogue(), entry, &*store)?;
    store.apply(writes)?;
    Ok(outcome)
}

/// Runs entries one after the other on the rows of a store.
pub(crate) fn run_serially(
    alloc: Global,
    store: &mut RowStore,
    entries: &[Entry],
) -> Result<Vec<Outcome>, NoMemory>
    requires tables { AllByRecursion (λ entry. entry.request.proc.tables ≡ store.old.tables) entries.now }
    requires unlent { store.old.lent ≡ map_of.empty }
    ensures tables { store.new.tables ≡ store.old.tables }
    ensures lent { store.new.lent ≡ store.old.lent }
    ensures replies { IfOk result (λ outcomes.
        map as_reply outcomes.items ≡ serial_replies (map entry_shape entries.now) store.old.rows) }
    ensures rows { OnOk result (store.new.rows ≡ serial_end (map entry_shape entries.now) store.old.rows) }
{
    let mut outcomes = Vec::new(alloc);
    for entry in entries {
        outcomes.push(run_one(alloc, store, entry)?)?;
    }
    Ok(outcomes)
}
