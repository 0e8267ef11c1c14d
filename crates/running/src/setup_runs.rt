//! Running the log on a setup, on one thread or on worker threads, and telling meanwhile on standard error how far it
//! is.

ghost use Rattle.std.specs.Prelude.{◌≡◌, IfErr, true};
ghost use Rattle.sequencer.specs.Batches.{items_of, AreOver};
ghost use Rattle.engine.specs.Engines.{EngineParts, tables_of};
ghost use Rattle.engine.specs.Executions.{IsSpawn};
ghost use Rattle.running.specs.EngineRuns.{engine_on, IsEngineRun, IsFresh};
ghost use Rattle.running.specs.Executors.{IsExecution};
ghost use Rattle.running.specs.Stops.{IsNotOfThread};

use crate::executing::{engine_on, no_memory, run_log_in_pool};
use crate::leaving::let_go;
use crate::reading::{Ended, Reading, run_source};
use crate::telling::{Lines, RunEnd, tell_engine, tell_until};
use batch_log::{Sink, Source};
use engine::{Batch, BatchDone, Engine, ExecFault, OpenGate, Settings, Watcher};
use setup::SetupDocument;
use std::alloc::Global;
use std::cell::RefCell;
use std::sync::Wait;
use std::thread::{Threads, join_mut};

/// How a log is run.
#[derive(Clone, Copy)]
pub struct RunOptions {
    /// On this thread alone, or else on worker threads too.
    pub alone: bool,
    /// The log is a feed, which has no end.
    pub feed: bool,
    /// How the lines follow one another that tell how far the run is, where it is asked for any.
    pub lines: Option<Lines>,
    /// How many workers, lanes and lock requests there are, and how many entries below one parent are locked apart.
    pub settings: Settings,
    /// The process ends after the run, so the memory of its rows is left to the system.
    pub process_ends: bool,
}

/// Runs a log on an engine that has run none, on one thread. Where it is asked for lines, one goes to `err` at the end
/// of each batch.
fn run_telling<R: Wait, S: Source, K: Sink, E: Sink>(
    rt: &R,
    alloc: Global,
    lines: Option<Lines>,
    engine: &mut Engine,
    reading: Reading,
    source: &mut S,
    sink: &mut K,
    err: &RefCell<&mut E>,
) -> Ended
    requires fresh { IsFresh engine.old.core }
    ensures run { IsEngineRun S.left S.failed K.taken K.broken reading engine.old.core engine.new.core
        source.old source.new sink.old sink.new result }
    ensures threadless { IsNotOfThread result.result }
{
    let executor = move |engine: &mut Engine, batch: Batch| -> Result<BatchDone, ExecFault>
        requires { AreOver (tables_of engine.old.core) (items_of batch) }
        ensures run { IsExecution engine.old.core batch result engine.new.core }
        ensures threadless { IfErr result (λ fault. ¬ IsSpawn fault) }
    {
        let done = engine.run_alone(rt, alloc, batch, &[]);
        if let (Some(lines), Ok(mut err)) = (lines, err.try_borrow_mut()) {
            tell_engine(rt, alloc, lines, engine, false, &mut **err);
        }
        done
    };
    run_source(rt, alloc, &executor, engine, reading, source, sink)
}

/// Runs the log that a source gives on an engine that has run none, on one thread, and writes its report into a sink.
/// Where it is asked for lines, one goes to `err` at the end of each batch.
fn run_alone<R: Wait, S: Source, K: Sink, E: Sink>(
    rt: &R,
    alloc: Global,
    lines: Option<Lines>,
    engine: &mut Engine,
    reading: Reading,
    source: &mut S,
    sink: &mut K,
    err: &mut E,
) -> Ended
    requires fresh { IsFresh engine.old.core }
    ensures run { IsEngineRun S.left S.failed K.taken K.broken reading engine.old.core engine.new.core
        source.old source.new sink.old sink.new result }
    ensures threadless { IsNotOfThread result.result }
{
    let cell = RefCell::new(&mut *err);
    let ended = run_telling(rt, alloc, lines, engine, reading, source, sink, &cell);
    let err = cell.into_inner();
    if let Some(Lines::Over) = lines {
        tell_engine(rt, alloc, Lines::Over, engine, true, err);
    }
    ended
}

/// Runs a log on an engine that has run none, on worker threads, and then says that the run has ended.
fn run_to_end<R: Threads + Wait + Sync, S: Source, K: Sink>(
    rt: &R,
    alloc: Global,
    engine: &mut Engine,
    reading: Reading,
    source: &mut S,
    sink: &mut K,
    end: &RunEnd,
) -> Ended
    requires fresh { IsFresh engine.old.core }
    ensures { IsEngineRun S.left S.failed K.taken K.broken reading engine.old.core engine.new.core
        source.old source.new sink.old sink.new result }
{
    let ended = run_log_in_pool(rt, alloc, engine, reading, &OpenGate, source, sink);
    end.come();
    ended
}

/// Runs a log on an engine that has run none, on worker threads, while a thread of its own writes lines to `err`. Where
/// that thread is refused, the last line is written when the run has ended.
fn run_beside_teller<R: Threads + Wait + Sync, S: Source, K: Sink, E: Sink + Send>(
    rt: &R,
    alloc: Global,
    lines: Lines,
    engine: &mut Engine,
    reading: Reading,
    watcher: &mut Watcher,
    source: &mut S,
    sink: &mut K,
    err: &mut E,
) -> Ended
    requires fresh { IsFresh engine.old.core }
    ensures { IsEngineRun S.left S.failed K.taken K.broken reading engine.old.core engine.new.core
        source.old source.new sink.old sink.new result }
{
    let end = RunEnd::new();
    let end = &end;
    let ((), ended) = join_mut(
        rt,
        &mut || tell_until(rt, alloc, lines, watcher, end, err),
        &mut || -> Ended
            requires { IsFresh engine.now.core }
            ensures { IsEngineRun S.left S.failed K.taken K.broken reading engine.entry.now.core engine.exit.now.core
                source.entry.now source.exit.now sink.entry.now sink.exit.now result }
        { run_to_end(rt, alloc, engine, reading, source, sink, end) },
    );
    ended
}

/// Runs the log that a source gives on an engine that has run none, on worker threads, and writes its report into a
/// sink. Where it is asked for lines, one goes to `err` about twice a second meanwhile, and one at the end.
fn run_on_workers<R: Threads + Wait + Sync, S: Source, K: Sink, E: Sink + Send>(
    rt: &R,
    alloc: Global,
    lines: Option<Lines>,
    engine: &mut Engine,
    reading: Reading,
    source: &mut S,
    sink: &mut K,
    err: &mut E,
) -> Ended
    requires fresh { IsFresh engine.old.core }
    ensures { IsEngineRun S.left S.failed K.taken K.broken reading engine.old.core engine.new.core
        source.old source.new sink.old sink.new result }
{
    let Some(lines) = lines else {
        return run_log_in_pool(rt, alloc, engine, reading, &OpenGate, source, sink);
    };
    let Ok(mut watcher) = engine.watcher(rt) else {
        return no_memory();
    };
    run_beside_teller(
        rt,
        alloc,
        lines,
        engine,
        reading,
        &mut watcher,
        source,
        sink,
        err,
    )
}

/// Runs the log that a source gives on an engine that has run none, alone on this thread or on worker threads, and
/// writes its report into a sink. Where it is asked for lines, they go to `err`.
pub fn run_engine<R: Threads + Wait + Sync, S: Source, K: Sink, E: Sink + Send>(
    rt: &R,
    alloc: Global,
    options: &RunOptions,
    engine: &mut Engine,
    reading: Reading,
    source: &mut S,
    sink: &mut K,
    err: &mut E,
) -> Ended
    requires fresh { IsFresh engine.old.core }
    ensures run { IsEngineRun S.left S.failed K.taken K.broken reading engine.old.core engine.new.core
        source.old source.new sink.old sink.new result }
    ensures threadless { options.now.alone ≡ true → IsNotOfThread result.result }
{
    let lines = options.lines;
    if options.alone {
        run_alone(rt, alloc, lines, engine, reading, source, sink, err)
    } else {
        run_on_workers(rt, alloc, lines, engine, reading, source, sink, err)
    }
}

/// Runs the log that a source gives on a setup, and writes its report into a sink. The log may be a feed.
pub fn run_setup<R: Threads + Wait + Sync, S: Source, K: Sink, E: Sink + Send>(
    rt: &R,
    alloc: Global,
    options: &RunOptions,
    document: SetupDocument,
    source: &mut S,
    out: &mut K,
    err: &mut E,
) -> Ended
    ensures run { (after : EngineParts) × IsEngineRun S.left S.failed K.taken K.broken
        (record { digest = document.digest; feed = options.now.feed })
        (engine_on document.setup options.now.settings) after source.old source.new out.old out.new result }
    ensures threadless { options.now.alone ≡ true → IsNotOfThread result.result }
{
    let SetupDocument { setup, digest } = document;
    let reading = Reading {
        digest,
        feed: options.feed,
    };
    match engine_on(alloc, setup, options.settings) {
        Ok(mut engine) => {
            let ended = run_engine(rt, alloc, options, &mut engine, reading, source, out, err);
            let_go(engine, options.process_ends);
            ended
        }
        Err(_) => no_memory(),
    }
}
