//! Running a log: from its bytes to the bytes of its report.

ghost use Rattle.std.specs.Prelude.{◌≡◌, ◌≤◌, [], IfErr, IfSome, OnOk, false, true};
ghost use Rattle.batch_log.specs.Reader.{failed_in, has_ended, left_in, origin_of, source_of, unread, IsUnread};
ghost use Rattle.engine.specs.Engines.{is_busy};
ghost use Rattle.running.specs.EngineRuns.{IsFresh};
ghost use Rattle.engine.specs.Executions.{KeepsSetting};
ghost use Rattle.running.specs.Executors.{core_of, Executes, HasAnswered};
ghost use Rattle.running.specs.Followed.{LeavesBetween};
ghost use Rattle.running.specs.Reports.{rows_after};
ghost use Rattle.running.specs.Runs.{IsRunOfLog, RunsLog, device_with};
ghost use Rattle.running.specs.Starts.{start_in, start_on};
ghost use Rattle.running.specs.Stops.{IfOfThread};

use crate::batch::run_batch;
use crate::closing::close;
use crate::run_fault::RunFault;
use crate::transcript::Transcript;
use batch_log::{LogFaultKind, LogReader, Sink, Source};
use engine::{BatchDone, Engine, ExecFault, Settings};
use row_text::DigestForm;
use sequencer::Batch;
use setup::SetupDocument;
use std::alloc::Global;
use std::sync::Wait;

/// Does nothing. An engine that has run no transaction carries no request, and tries one again at most twice.
fn observe_fresh(engine: &Engine)
    requires fresh { IsFresh engine.now.core }
    ensures none { engine.now.core.carried ≡ [] }
    ensures few { engine.now.core.retries ≤ 2 }
{
    let carried = engine.carried();
    let _retries = engine.retries();
    prove!(carried == 0);
}

// rule: command.follow
/// Runs the log of which a reader has read nothing on an engine that has run none, as `run_log` does on a new one, with
/// digests of rows in that form. Where the log is a feed, the run ends with a failed read (36) once nothing more comes:
/// then the batches that a cut ends are reported, and the rows are those after them.
pub(crate) fn run_reader<
    R: Wait,
    X: Fn(&mut Engine, Batch) -> Result<BatchDone, ExecFault>,
    S: Source,
    K: Sink,
>(
    rt: &R,
    alloc: Global,
    executor: &X,
    engine: &mut Engine,
    form: DigestForm,
    reader: &mut LogReader<'_, S>,
    sink: &mut K,
) -> Result<u64, RunFault>
    requires executes { Executes core_of X.Fn executor.now }
    requires fresh { IsFresh engine.old.core }
    requires unread { IsUnread engine.old.core.retries reader.old }
    ensures run { IsRunOfLog (start_on engine.old.core form)
        (device_with (unread S.left reader.old) (failed_in S.failed reader.old))
        (device_with (left_in S.left reader.new) (failed_in S.failed reader.new))
        (device_with (K.taken sink.old) (K.broken sink.old))
        (device_with (K.taken sink.new) (K.broken sink.new)) result }
    // It ends with a refused thread only where the executor has answered so.
    ensures threads { IfErr result (λ e. IfOfThread e (HasAnswered X.Fn executor.now ExecFault.Spawn)) }
    ensures same { (origin_of reader.new ≡ origin_of reader.old) × KeepsSetting engine.old.core engine.new.core }
    // After a whole run the engine holds no batch, and its rows are those that the log leaves.
    ensures ended { OnOk result (is_busy engine.new.core ≡ false) }
    ensures rows { OnOk result (IfSome (unread S.left reader.old) (λ log.
        engine.new.core.rows ≡ rows_after (start_on engine.old.core form) log)) }
    // After the end of a feed it holds none either, and has run those that are reported.
    ensures followed { has_ended reader.new ≡ true → LeavesBetween (start_on engine.old.core form)
        (unread S.left reader.old) (left_in S.left reader.new) (K.taken sink.old) (K.taken sink.new) engine.new.core }
    // A feed ends once all that had come is read.
    ensures feed { has_ended reader.new ≡ true → IfSome (S.left (source_of reader.new)) (λ bytes. bytes ≡ []) }
{
    observe_fresh(engine);
    let mut transcript = Transcript::new(form);
    'batches: for _ in rt.forever() {
        let requests = match reader.next_batch(alloc, engine.procs()) {
            Ok(Some(requests)) => requests,
            Ok(None) => {
                let last = reader.last_line();
                return close(alloc, executor, engine, transcript, sink, last);
            }
            Err(fault) => return Err(RunFault::Log(fault)),
        };
        let line = reader.last_line();
        match run_batch(
            alloc,
            executor,
            engine,
            requests,
            &mut transcript,
            sink,
            line,
        ) {
            Ok(_) => {}
            Err(fault) => return Err(fault),
        }
    }
    unreachable!()
}

// rule: batch.whole, option.report
/// Runs the log that a source gives on a setup document, and writes its report into a sink: for each batch a reply line
/// for each request that it tries and a batch line, and then the end line. Each batch is executed by `executor`, which
/// decides on how many threads. The answer is the number of transactions.
///
/// A batch is read whole before it runs, and its report is written after it ended. A stale request is tried again in
/// the next batch, as often as the setup says. After the last batch of a log without a fault, batches without calls
/// run while there are such requests. A fault ends the run: one of a line of the log (31 to 35), a failed device (36),
/// want of memory (37), or a thread that was refused to the executor (38). What was written then is a beginning of the
/// report.
pub fn run_log<
    R: Wait,
    X: Fn(&mut Engine, Batch) -> Result<BatchDone, ExecFault>,
    S: Source,
    K: Sink,
>(
    rt: &R,
    alloc: Global,
    executor: &X,
    document: SetupDocument,
    settings: Settings,
    source: &mut S,
    sink: &mut K,
) -> Result<u64, RunFault>
    requires executes { Executes core_of X.Fn executor.now }
    ensures run { RunsLog S.left S.failed K.taken K.broken (start_in document)
        source.old source.new sink.old sink.new result }
    // It ends with a refused thread only where the executor has answered so.
    ensures threads { IfErr result (λ e. IfOfThread e (HasAnswered X.Fn executor.now ExecFault.Spawn)) }
{
    let SetupDocument { setup, digest } = document;
    let retries = setup.retries;
    let Ok(mut engine) = Engine::new(alloc, setup, settings) else {
        return Err(RunFault::at(LogFaultKind::Memory, 0));
    };
    let mut reader = LogReader::new(source, retries);
    let ended = run_reader(rt, alloc, executor, &mut engine, digest, &mut reader, sink);
    let _source = reader.into_source();
    ended
}
