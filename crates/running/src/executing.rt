//! Running a log on worker threads.

ghost use Rattle.std.specs.Prelude.{◌≡◌, Err, IfErr, IfOk, None};
ghost use Rattle.sequencer.specs.Batches.{items_of, AreOver};
ghost use Rattle.engine.specs.Engines.{tables_of};
ghost use Rattle.running.specs.EngineRuns.{IsEngineRun, IsFresh, engine_on};
ghost use Rattle.running.specs.Executors.{IsExecution};
ghost use Rattle.running.specs.Runs.{RunsLog};
ghost use Rattle.running.specs.Starts.{start_in};

use crate::reading::{Ended, Reading, run_source};
use crate::run_fault::RunFault;
use batch_log::{LogFaultKind, Sink, Source};
use engine::{
    Batch, BatchDone, Engine, ExecFault, Gate, HeadSeat, Settings, WorkerPool, Workplace,
};
use setup::{Setup, SetupDocument};
use std::alloc::Global;
use std::sync::{Mutex, Wait};
use std::thread;
use std::thread::Threads;

/// An engine on the starting rows of a setup.
pub fn engine_on(alloc: Global, setup: Setup, settings: Settings) -> Result<Engine, RunFault>
    ensures made { IfOk result (λ engine. engine.core ≡ engine_on setup settings) }
    ensures refused { IfErr result (λ fault.
        fault ≡ RunFault.Log (record { kind = LogFaultKind.Memory; line = 0 })) }
{
    match Engine::new(alloc, setup, settings) {
        Ok(engine) => Ok(engine),
        Err(_) => Err(RunFault::at(LogFaultKind::Memory, 0)),
    }
}

/// Allocation failed before anything was read.
pub(crate) fn no_memory() -> Ended
    ensures { result ≡ record {
      result = Err (RunFault.Log (record { kind = LogFaultKind.Memory; line = 0 }));
      feed = None;
    } }
{
    Ended {
        result: Err(RunFault::at(LogFaultKind::Memory, 0)),
        feed: None,
    }
}

/// Does nothing. That a reference is used which a scope has given back ties it to the one that the scope took.
fn take_back<T>(reference: &mut T)
    ensures { reference.new ≡ reference.old }
{}

/// Runs a log on an engine that has run none, on workers that are started at a workplace, of which this is the
/// seat, read in that way.
fn run_log_at<'a, R: Threads + Wait + Sync, G: Gate, S: Source, K: Sink>(
    rt: &R,
    alloc: Global,
    engine: &'a mut Engine,
    reading: Reading,
    place: &Workplace,
    head: HeadSeat,
    gate: &G,
    source: &'a mut S,
    sink: &'a mut K,
) -> Ended
    requires place { head ≡ place.now }
    requires fresh { IsFresh engine.old.core }
    ensures { IsEngineRun S.left S.failed K.taken K.broken reading engine.old.core engine.new.core
        source.old source.new sink.old sink.new result }
{
    let (ended, engine, source, sink) = thread::scope(
        thread::scope_env(),
        rt,
        move |scope| -> (Ended, &mut Engine, &mut S, &mut K)
            requires { (head ≡ place.now) × IsFresh engine.now.core }
            ensures engine { result.1.ghost_name ≡ engine.entry.ghost_name }
            ensures source { result.2.ghost_name ≡ source.entry.ghost_name }
            ensures sink { result.3.ghost_name ≡ sink.entry.ghost_name }
            ensures run { IsEngineRun S.left S.failed K.taken K.broken reading engine.entry.now.core result.1.now.core
                source.entry.now result.2.now sink.entry.now result.3.now result.0 }
        {
            let pool = Mutex::new(WorkerPool::new(rt, scope, gate, place, head));
            let executor = |engine: &mut Engine, batch: Batch| -> Result<BatchDone, ExecFault>
                requires { AreOver (tables_of engine.old.core) (items_of batch) }
                ensures { IsExecution engine.old.core batch result engine.new.core }
            {
                let done = engine.execute_in(alloc, batch, &mut pool.lock(rt));
                engine.keep_digests(rt, reading.digest);
                done
            };
            let ended = run_source(rt, alloc, &executor, engine, reading, source, sink);
            (ended, engine, source, sink)
        },
    );
    take_back(engine);
    take_back(source);
    take_back(sink);
    ended
}

/// Runs a log on an engine that has run none, on worker threads that live as long as the run, read in that
/// way.
pub(crate) fn run_log_in_pool<R: Threads + Wait + Sync, G: Gate, S: Source, K: Sink>(
    rt: &R,
    alloc: Global,
    engine: &mut Engine,
    reading: Reading,
    gate: &G,
    source: &mut S,
    sink: &mut K,
) -> Ended
    requires fresh { IsFresh engine.old.core }
    ensures { IsEngineRun S.left S.failed K.taken K.broken reading engine.old.core engine.new.core
        source.old source.new sink.old sink.new result }
{
    match Workplace::new(alloc, engine.settings()) {
        Ok((place, head)) => run_log_at(
            rt, alloc, engine, reading, &place, head, gate, source, sink,
        ),
        Err(_) => no_memory(),
    }
}

/// Runs the log that a source gives on a setup document, on worker threads, and writes its report into a sink: for each
/// batch a reply line a call and a batch line, and then the end line. The answer is the number of transactions.
///
/// A batch is read whole before it runs, and its report is written after it ended. A fault ends the run: one of a line
/// of the log (31 to 35), a failed device (36), want of memory (37), or a refused thread (38). What was written then is
/// a beginning of the report.
pub fn run_text<R: Threads + Wait + Sync, G: Gate, S: Source, K: Sink>(
    rt: &R,
    alloc: Global,
    document: SetupDocument,
    settings: Settings,
    gate: &G,
    source: &mut S,
    sink: &mut K,
) -> Result<u64, RunFault>
    ensures { RunsLog S.left S.failed K.taken K.broken (start_in document)
        source.old source.new sink.old sink.new result }
{
    let SetupDocument { setup, digest } = document;
    let mut engine = match engine_on(alloc, setup, settings) {
        Ok(engine) => engine,
        Err(fault) => return Err(fault),
    };
    let reading = Reading {
        digest,
        feed: false,
    };
    let ended = run_log_in_pool(rt, alloc, &mut engine, reading, gate, source, sink);
    ended.result
}
