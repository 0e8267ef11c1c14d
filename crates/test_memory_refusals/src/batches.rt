//! Logs of several batches, whose setups, texts and reports are in `data/`: their batches are executed one after
//! another, and gone on with, and their reports are written.

ghost use Rattle.std.specs.Prelude.{◌≡◌, IfSome, true};
ghost use Rattle.sequencer.specs.Batches.{items_of, AreOver};
ghost use Rattle.engine.specs.Engines.{tables_of, is_busy};

use crate::executing::{Then, push_replies};
use crate::jobs::if_jobs;
use crate::reading::unread;
use crate::reporting::try_report;
use calvin::{Batch, BatchDone, Engine, ExecFault, Settings, Setup, read_setup};
use proclang::Procs;
use row_store::all_is_free_with_nothing_lent;
use row_text::{DigestForm, digest_text, rows_digest};
use std::alloc::Global;
use std::sync::Wait;
use std::thread::Threads;
use std::{fs, rt};
use test_bank::CountingGate;
use test_refusal_steps::{Answer, Refusal, batch_in, batch_of};

/// A log whose files are in `data/`.
#[derive(Clone, Copy)]
pub(crate) enum StoredLog {
    /// 200 calls in five batches.
    FiveBatches,
    /// 39 calls in two batches, under a setup that has stale calls tried again twice: 62 attempts, in four batches.
    TriedAgain,
}

impl StoredLog {
    /// What the names of its files begin with.
    fn prefix(self) -> &'static str {
        match self {
            StoredLog::FiveBatches => "",
            StoredLog::TriedAgain => "retries-",
        }
    }

    /// How many attempts there are.
    fn attempts(self) -> u64 {
        match self {
            StoredLog::FiveBatches => 200,
            StoredLog::TriedAgain => 62,
        }
    }
}

/// The batches of a log, and how many workers, which threshold and which gate they are run with.
#[derive(Clone, Copy)]
pub(crate) struct OnBatches {
    pub(crate) stored: StoredLog,
    pub(crate) workers: usize,
    pub(crate) threshold: usize,
    /// Whether the gate is open. The calls of the five batches are brief, so each is run in place then; else each is a
    /// job.
    pub(crate) is_open: bool,
}

/// How batches are executed, and gone on with where memory or a thread was refused.
#[derive(Clone, Copy)]
enum Way<'g> {
    /// On the workers of the settings, through a gate, and then so or alone.
    Workers(Then, &'g CountingGate),
    /// On the thread that calls, also then.
    Alone,
}

impl Way<'_> {
    /// Goes on with an unfinished batch.
    fn go_on<R: Threads + Wait + Sync + AllocGlobal>(
        self,
        rt: &R,
        engine: &mut Engine,
    ) -> Result<BatchDone, ExecFault>
        requires { is_busy engine.old.core ≡ true }
    {
        match self {
            Way::Workers(then, gate) => then.go_on(rt, engine, gate),
            Way::Alone => engine.resume_alone(rt, rt.alloc(), &[]),
        }
    }
}

/// What comes after each batch but the last.
const CUT: &str = "[\"cut\"]\n";

/// A file of a log.
fn text<R: rt::Files + AllocGlobal>(rt: &R, stored: StoredLog, name: &str) -> Option<String> {
    let alloc = rt.alloc();
    let prefix = stored.prefix();
    let path = format!(in alloc; "{prefix}{name}").ok()?;
    fs::read_to_string(rt, path).ok()
}

/// The settings with `workers` workers and this threshold.
fn settings(workers: usize, threshold: usize) -> Option<Settings> {
    Settings::new(workers, 8, threshold, 65_536).ok()
}

/// The first batch of a log. If allocation fails, it is read again.
fn batch_read(alloc: Global, procs: &Procs, log: &str) -> Option<Batch>
    ensures { IfSome result (λ batch. AreOver procs.now.tables (items_of batch)) }
{
    match batch_in(alloc, procs, log) {
        Some(batch) => Some(batch),
        None => batch_in(alloc, procs, log),
    }
}

/// A batch without calls. If allocation fails, it is made again.
fn no_calls(alloc: Global, procs: &Procs) -> Option<Batch>
    ensures { IfSome result (λ batch. AreOver procs.now.tables (items_of batch)) }
{
    match batch_of(alloc, procs, Vec::new(alloc)) {
        Some(batch) => Some(batch),
        None => batch_of(alloc, procs, Vec::new(alloc)),
    }
}

/// Executes a batch. Where memory or a thread is refused, the answer says so, and it is gone on with.
fn execute_batch<R: Threads + Wait + Sync + AllocGlobal>(
    rt: &R,
    engine: &mut Engine,
    batch: Batch,
    way: Way<'_>,
    answer: &mut Answer,
) -> Option<BatchDone>
    requires { AreOver (tables_of engine.old.core) (items_of batch) }
{
    let alloc = rt.alloc();
    let ended = match way {
        Way::Workers(_, gate) => engine.execute(rt, alloc, batch, gate),
        Way::Alone => engine.run_alone(rt, alloc, batch, &[]),
    };
    match ended {
        Ok(done) => Some(done),
        Err(_) if engine.is_busy() => {
            *answer = Answer::Refused;
            way.go_on(rt, engine).ok()
        }
        Err(_) => None,
    }
}

/// Whether the end line of a report says what the calls have replied, and the rows that they left.
fn is_end(alloc: Global, report: &str, engine: &Engine, done: &[BatchDone]) -> Option<bool> {
    let mut lines = String::new(alloc);
    for batch in done {
        push_replies(alloc, &mut lines, &batch.replies).ok()?;
    }
    if engine.is_busy() {
        return Some(false);
    }
    let store = engine.rows();
    all_is_free_with_nothing_lent();
    let rows = rows_digest(alloc, store.catalogue(), store, DigestForm::Rows).ok()?;
    let replies = digest_text(alloc, lines.as_bytes()).ok()?;
    let count = engine.transactions();
    let end = format!(in alloc; "\nend {count} rows {rows} replies {replies}\n").ok()?;
    Some(report.ends_with(end.as_str()))
}

/// Executes the first batch of a log.
fn execute_first<R: Threads + Wait + Sync + AllocGlobal>(
    rt: &R,
    engine: &mut Engine,
    log: &str,
    way: Way<'_>,
    answer: &mut Answer,
) -> Option<BatchDone> {
    let batch = batch_read(rt.alloc(), engine.procs(), log)?;
    execute_batch(rt, engine, batch, way, answer)
}

/// Executes batches without calls while calls are carried, and keeps what comes of them.
fn execute_carried<R: Threads + Wait + Sync + AllocGlobal>(
    rt: &R,
    engine: &mut Engine,
    way: Way<'_>,
    done: &mut Vec<BatchDone>,
    answer: &mut Answer,
) -> Option<()> {
    for _ in 0..engine.retries() {
        if engine.carried() == 0 {
            return Some(());
        }
        let batch = no_calls(rt.alloc(), engine.procs())?;
        let batch = execute_batch(rt, engine, batch, way, answer)?;
        done.push(batch).ok()?;
    }
    Some(())
}

/// Executes the batches of a log, one after another, and those that close it, and keeps what comes of them; `None`
/// where something else than memory or a thread is refused, or where a batch isn't gone on with to its end.
fn execute_each<R: Threads + Wait + Sync + AllocGlobal>(
    rt: &R,
    engine: &mut Engine,
    log: &str,
    way: Way<'_>,
    done: &mut Vec<BatchDone>,
) -> Option<Answer> {
    let mut answer = Answer::Right;
    for batch in log.split(CUT).filter(|batch| !batch.is_empty()) {
        let batch = execute_first(rt, engine, batch, way, &mut answer)?;
        done.push(batch).ok()?;
    }
    execute_carried(rt, engine, way, done, &mut answer)?;
    Some(answer)
}

/// An engine on the setup of a log.
fn engine<R: rt::Files + AllocGlobal>(rt: &R, on: OnBatches) -> Option<Engine> {
    let settings = settings(on.workers, on.threshold)?;
    let setup = text(rt, on.stored, "setup.json")?;
    let document = read_setup(rt.alloc(), setup.as_bytes()).ok()?;
    Engine::new(rt.alloc(), document.setup, settings).ok()
}

/// This answer if the end line of a report says what the calls have replied, and the rows that they left.
fn if_end(
    alloc: Global,
    report: &str,
    engine: &Engine,
    done: &[BatchDone],
    answer: Answer,
) -> Option<Answer> {
    let is_end = is_end(alloc, report, engine, done)?;
    Some(answer.if_right(is_end))
}

/// An engine executes the batches of a log, which is to be reported so.
fn execute_log<R: Threads + Wait + Sync + AllocGlobal>(
    rt: &R,
    refusal: &mut Refusal,
    engine: &mut Engine,
    [log, report]: [&str; 2],
    way: Way<'_>,
) -> Option<Answer> {
    // (room for what comes of each batch)
    let mut done = Vec::with_capacity(rt.alloc(), 8).ok()?;
    refusal.approach();
    let ended = execute_each(rt, engine, log, way, &mut done);
    refusal.pass();
    match ended {
        Some(answer) => if_end(rt.alloc(), report, engine, &done, answer),
        None => Some(Answer::Wrong),
    }
}

/// An engine on the setup of a log executes its batches.
fn try_way<R: Threads + Wait + Sync + rt::Files + AllocGlobal>(
    rt: &R,
    refusal: &mut Refusal,
    on: OnBatches,
    way: Way<'_>,
) -> Option<Answer> {
    let (log, report) = (text(rt, on.stored, "log")?, text(rt, on.stored, "report")?);
    let mut engine = engine(rt, on)?;
    execute_log(
        rt,
        refusal,
        &mut engine,
        [log.as_str(), report.as_str()],
        way,
    )
}

/// The batches of a log are executed on workers, and gone on with so.
pub(crate) fn try_batches<R: Threads + Wait + Sync + rt::Files + AllocGlobal>(
    rt: &R,
    refusal: &mut Refusal,
    on: OnBatches,
    then: Then,
) -> Option<Answer> {
    let gate = CountingGate::new(on.is_open);
    let answer = try_way(rt, refusal, on, Way::Workers(then, &gate))?;
    Some(if_jobs(answer, &gate, on.stored.attempts()))
}

/// The batches of a log are run on one thread.
pub(crate) fn try_batches_alone<R: Threads + Wait + Sync + rt::Files + AllocGlobal>(
    rt: &R,
    refusal: &mut Refusal,
    on: OnBatches,
) -> Option<Answer> {
    try_way(rt, refusal, on, Way::Alone)
}

/// An engine on a setup that was read executes the batches of its log.
fn execute_on<R: Threads + Wait + Sync + rt::Files + AllocGlobal>(
    rt: &R,
    stored: StoredLog,
    setup: Setup,
) -> Option<Answer> {
    let alloc = rt.alloc();
    let (log, report) = (text(rt, stored, "log")?, text(rt, stored, "report")?);
    let mut engine = Engine::new(alloc, setup, settings(1, 0)?).ok()?;
    execute_log(
        rt,
        &mut Refusal::elsewhere(alloc),
        &mut engine,
        [log.as_str(), report.as_str()],
        Way::Alone,
    )
}

/// The setup of a log is read; the batches of the log are executed on it.
pub(crate) fn try_setup<R: Threads + Wait + Sync + rt::Files + AllocGlobal>(
    rt: &R,
    refusal: &mut Refusal,
    stored: StoredLog,
) -> Option<Answer> {
    let setup = text(rt, stored, "setup.json")?;
    refusal.approach();
    let read = read_setup(rt.alloc(), setup.as_bytes());
    refusal.pass();
    match read {
        Ok(document) => execute_on(rt, stored, document.setup),
        Err(fault) => Some(unread(&fault)),
    }
}

/// The report of a log is written.
pub(crate) fn try_report_of_batches<R: Threads + Wait + Sync + rt::Files + AllocGlobal>(
    rt: &R,
    refusal: &mut Refusal,
    on: OnBatches,
) -> Option<Answer> {
    let setup = text(rt, on.stored, "setup.json")?;
    let (log, report) = (text(rt, on.stored, "log")?, text(rt, on.stored, "report")?);
    let document = read_setup(rt.alloc(), setup.as_bytes()).ok()?;
    let settings = settings(on.workers, on.threshold)?;
    try_report(
        rt,
        refusal,
        document,
        settings,
        [log.as_str(), report.as_str()],
        on.stored.attempts(),
        &CountingGate::new(on.is_open),
    )
}
