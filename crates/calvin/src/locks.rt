//! The plans of a log's first batch.

ghost use Rattle.std.specs.Prelude.{◌≡◌, ◌≤◌, ◌++◌, None, length, map, IfOk, OnOk, string_bytes};
ghost use Rattle.std.specs.List.{AllByRecursion};
ghost use Rattle.coarsen.specs.Subtrees.{Requests};
ghost use Rattle.std.specs.FinMap as map_of;
ghost use Rattle.row_store.specs.Stock.{with_rows};
ghost use Rattle.sequencer.specs.Entries.{prepared};
ghost use Rattle.interp.specs.Entries.{entry_shape};
ghost use Rattle.batch_log.specs.Reader.{failed_in, left_in, origin_of, unread, IsUnread};
ghost use Rattle.report_text.specs.PlanTexts.{plan_lines};
ghost use Rattle.running.specs.Runs.{device_with};
ghost use Rattle.scheduler.specs.Logs.{IsPlanOfEntry};
ghost use Rattle.calvin.specs.FirstBatches.{IsFirstBatchPlanned, IsPlansText};

use batch_log::{LogFaultKind, LogReader, Source};
use catalogue::Catalogue;
use engine::Settings;
use interp::Entry;
use report_text::push_plan;
use requests::Request;
use row_store::{RowStore, all_is_free_with_nothing_lent};
use running::RunFault;
use scheduler::plan_of;
use sequencer::{Batch, BatchFault, prepare};
use setup::Setup;
use std::alloc::Global;
use values::NoMemory;

/// Appends the lines of an entry's plan.
fn push_entry(
    alloc: Global,
    text: &mut String,
    catalogue: &Catalogue,
    settings: Settings,
    number: u64,
    entry: &Entry,
) -> Result<(), NoMemory>
    ensures { OnOk result ((plan : Requests)
        × IsPlanOfEntry settings.threshold settings.arena (entry_shape entry.now) plan
        × (string_bytes text.new ≡ string_bytes text.old ++ plan_lines catalogue.now number plan)) }
{
    let plan = plan_of(alloc, entry, settings.threshold, settings.arena)?;
    push_plan(text, catalogue, number, &plan)?;
    Ok(())
}

/// The lines of the plans of entries, which are numbered from 0.
fn text_of(
    alloc: Global,
    catalogue: &Catalogue,
    settings: Settings,
    entries: &[Entry],
) -> Result<String, NoMemory>
    ensures { IfOk result (λ text.
        IsPlansText catalogue.now settings (map entry_shape entries.now) (string_bytes text)) }
{
    let mut text = String::new(alloc);
    for (place, entry) in entries.iter().enumerate() {
        push_entry(alloc, &mut text, catalogue, settings, place as u64, entry)?;
    }
    Ok(text)
}

/// The lines of the plans of a batch's transactions, which are numbered from 0.
fn lines_of(
    alloc: Global,
    setup: Setup,
    settings: Settings,
    requests: Vec<Request>,
) -> Result<String, NoMemory>
    requires few { length requests.items ≤ 4096 }
    requires tables { AllByRecursion (λ r. r.proc.tables ≡ setup.catalogue) requests.items }
    ensures { IfOk result (λ text.
        IsPlansText setup.catalogue settings
        (map (prepared (with_rows map_of.empty setup.rows.items)) requests.items) (string_bytes text)) }
{
    let Setup {
        catalogue,
        procs,
        rows,
        retries: _,
    } = setup;
    let batch = match Batch::of(alloc, requests) {
        Ok(batch) => batch,
        Err(BatchFault::TooLong) => unreachable!(),
        Err(BatchFault::NoMemory) => return Err(NoMemory),
    };
    let store = RowStore::new(alloc, &catalogue, rows)?;
    all_is_free_with_nothing_lent();
    let entries = prepare(alloc, &batch, &catalogue, &procs, &store)?;
    text_of(alloc, &catalogue, settings, &entries)
}

/// The lines of the plans of the first batch, by a reader that has read nothing.
fn first_plans<S: Source>(
    alloc: Global,
    setup: Setup,
    settings: Settings,
    reader: &mut LogReader<'_, S>,
) -> Result<String, RunFault>
    requires { IsUnread setup.retries reader.old }
    ensures same { origin_of reader.new ≡ origin_of reader.old }
    ensures planned { IsFirstBatchPlanned setup.procs setup.retries (with_rows map_of.empty setup.rows.items) settings
        (device_with (unread S.left reader.old) (failed_in S.failed reader.old))
        (device_with (left_in S.left reader.new) (failed_in S.failed reader.new)) result }
{
    let requests = match reader.next_batch(alloc, &setup.procs) {
        Ok(Some(requests)) => requests,
        Ok(None) => return Ok(String::new(alloc)),
        Err(fault) => return Err(RunFault::Log(fault)),
    };
    match lines_of(alloc, setup, settings, requests) {
        Ok(lines) => Ok(lines),
        Err(NoMemory) => Err(RunFault::at(LogFaultKind::Memory, reader.last_line())),
    }
}

// rule: command.locks
/// The lines of the plans of a log's first batch on a setup: nothing where there is no batch. Nothing is run, and no
/// line after that batch is looked at.
pub(crate) fn plans_of<S: Source>(
    alloc: Global,
    setup: Setup,
    settings: Settings,
    source: &mut S,
) -> Result<String, RunFault>
    ensures { IsFirstBatchPlanned setup.procs setup.retries (with_rows map_of.empty setup.rows.items) settings
        (device_with (S.left source.old) (S.failed source.old))
        (device_with (S.left source.new) (S.failed source.new)) result }
{
    let mut reader = LogReader::new(source, setup.retries);
    let planned = first_plans(alloc, setup, settings, &mut reader);
    let _source = reader.into_source();
    planned
}
