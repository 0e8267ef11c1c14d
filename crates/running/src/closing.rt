//! Closing a log without a fault.

ghost use Rattle.std.specs.Prelude.{◌≡◌, ◌||◌, List, ℕ, Option, IfOk, IfErr, OnOk, false};
ghost use Rattle.std.specs.Io.KnownBytes.{Appends};
ghost use Rattle.sha2.specs.Hashers.{Holds256};
ghost use Rattle.requests.specs.Requests.{Call};
ghost use Rattle.devices.specs.Devices.{AppendsFront};
ghost use Rattle.row_text.specs.Texts.{digest};
ghost use Rattle.report_text.specs.Texts.{end_line};
ghost use Rattle.engine.specs.Engines.{is_busy};
ghost use Rattle.engine.specs.Executions.{KeepsSetting};
ghost use Rattle.running.specs.Batches.{KeepsDigest};
ghost use Rattle.running.specs.Executors.{Executes, HasAnswered};
ghost use Rattle.running.specs.Hashers.{form_of, said_of};
ghost use Rattle.running.specs.Reported.{with_closing, HasReported, IsBetweenBatches, IsClosing, ReportsClosing};
ghost use Rattle.running.specs.Standings.{standing_after};
ghost use Rattle.running.specs.Starts.{Start};
ghost use Rattle.running.specs.Transcripts.{digest_of_rows};
ghost use Rattle.running.specs.Stops.{ends_in_io, IfOfThread, IsMachineFault, IsNotOfThread};

use crate::batch::run_batch;
use crate::run_fault::RunFault;
use crate::transcript::Transcript;
use batch_log::Sink;
use engine::{BatchDone, BatchEngine, ExecFault};
use sequencer::Batch;
use std::alloc::Global;

/// Runs the batches without calls that close a log after its last batch, as long as requests are carried, and writes
/// their reports. Each fault is a failed write (36), a failed allocation (37) or a refused thread (38), at this line,
/// the last one read.
fn run_closing_batches<
    E: BatchEngine,
    X: Fn(&mut E, Batch) -> Result<BatchDone, ExecFault>,
    K: Sink,
>(
    alloc: Global,
    executor: &X,
    engine: &mut E,
    transcript: &mut Transcript,
    sink: &mut K,
    line: u64,
) -> Result<(), RunFault>
    requires executes { Executes E.parts X.Fn executor.now }
    requires between { IsBetweenBatches (E.parts engine.old) transcript.old }
    ensures same { KeepsSetting (E.parts engine.old) (E.parts engine.new) }
    ensures closed { (start : Start) (ran : List (List Call)) (before : Option (List ℕ)) →
        HasReported start ran (E.parts engine.old) transcript.old before (K.taken sink.old) →
        ReportsClosing start ran (E.parts engine.new) transcript.new before (K.taken sink.new) result }
    ensures between { OnOk result (IsBetweenBatches (E.parts engine.new) transcript.new) }
    ensures stops { IfErr result (λ e.
        IsMachineFault line e × IfOfThread e (HasAnswered X.Fn executor.now ExecFault.Spawn)) }
    ensures fails { K.broken sink.new ≡ (K.broken sink.old || ends_in_io result) }
{
    // No request is tried again more often, so nothing is carried after `retries` batches.
    for _turn in 0..engine.core().retries() {
        if engine.core().carried() == 0 {
            return Ok(());
        }
        let none = Vec::new(alloc);
        match run_batch(alloc, executor, engine, none, transcript, sink, line) {
            Ok(_) => {}
            Err(fault) => return Err(fault),
        }
    }
    Ok(())
}

/// Writes the end line, after the report of each batch. The line is the last one read.
pub fn finish<E: BatchEngine, K: Sink>(
    alloc: Global,
    engine: &mut E,
    transcript: Transcript,
    sink: &mut K,
    line: u64,
) -> Result<u64, RunFault>
    requires idle { is_busy (E.parts engine.old) ≡ false }
    requires digest { KeepsDigest (E.parts engine.old) transcript }
    ensures count { IfOk result (λ n. n ≡ (E.parts engine.old).next) }
    ensures text { (m : List ℕ) → Holds256 (said_of transcript) m →
        OnOk result (Appends (K.taken sink.old) (K.taken sink.new)
        (end_line (E.parts engine.old).next (digest_of_rows (form_of transcript) (E.parts engine.old)) (digest m))) }
    ensures front { (m : List ℕ) → Holds256 (said_of transcript) m → AppendsFront (K.taken sink.old) (K.taken sink.new)
        (end_line (E.parts engine.old).next (digest_of_rows (form_of transcript) (E.parts engine.old)) (digest m)) }
    ensures stops { IfErr result (IsMachineFault line) × IsNotOfThread result }
    ensures fails { K.broken sink.new ≡ (K.broken sink.old || ends_in_io result) }
    ensures same { engine.new ≡ engine.old }
{
    let count = engine.core().transactions();
    match transcript.write_last(alloc, sink, engine, count) {
        Ok(()) => Ok(count),
        Err(kind) => Err(RunFault::at(kind, line)),
    }
}

// rule: retry.end
/// Closes a log after its last batch: runs batches without calls while requests are carried, and writes their reports
/// and then the end line. The line is the last one read.
pub(crate) fn close<E: BatchEngine, X: Fn(&mut E, Batch) -> Result<BatchDone, ExecFault>, K: Sink>(
    alloc: Global,
    executor: &X,
    engine: &mut E,
    transcript: Transcript,
    sink: &mut K,
    line: u64,
) -> Result<u64, RunFault>
    requires executes { Executes E.parts X.Fn executor.now }
    requires between { IsBetweenBatches (E.parts engine.old) transcript }
    ensures same { KeepsSetting (E.parts engine.old) (E.parts engine.new) }
    ensures closed { (start : Start) (ran : List (List Call)) (before : Option (List ℕ)) →
        HasReported start ran (E.parts engine.old) transcript before (K.taken sink.old) →
        IsClosing start ran before (K.taken sink.new) result }
    ensures rows { (start : Start) (ran : List (List Call)) (before : Option (List ℕ)) →
        HasReported start ran (E.parts engine.old) transcript before (K.taken sink.old) →
        OnOk result ((E.parts engine.new).rows
        ≡ (standing_after start (with_closing start ran)).rows) }
    ensures idle { OnOk result (is_busy (E.parts engine.new) ≡ false) }
    ensures stops { IfErr result (λ e.
        IsMachineFault line e × IfOfThread e (HasAnswered X.Fn executor.now ExecFault.Spawn)) }
    ensures fails { K.broken sink.new ≡ (K.broken sink.old || ends_in_io result) }
{
    let mut transcript = transcript;
    match run_closing_batches(alloc, executor, engine, &mut transcript, sink, line) {
        Ok(()) => finish(alloc, engine, transcript, sink, line),
        Err(fault) => Err(fault),
    }
}
