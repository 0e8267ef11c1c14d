//! Watchers of an engine.

ghost use Rattle.std.specs.Prelude.{◌≡◌, IfOk};
ghost use Rattle.sequencer.specs.Batches.{items_of, AreOver};
ghost use Rattle.engine.specs.Engines.{tables_of};

use engine::{Batch, Engine, Gate, Settings, Tally, Watcher};
use std::alloc::Global;
use std::sync::atomic::{AtomicU64, Ordering};
use std::sync::{Mutex, Wait};
use std::test::Fail;
use std::thread::{Threads, join};
use test_bank::{Bodies, Call, CountingGate, batch_of, engine};

/// How often a thread watches.
const LOOKS: u32 = 2_000;

const PAYS: [Call<'static>; 3] = [
    ("pay", &[1, 2, 30]),
    ("pay", &[1, 2, 30]),
    ("pay", &[1, 2, 500]),
];

/// The pointer that the second call follows is changed by the first.
const STALE: [Call<'static>; 2] = [("set", &[1, 3]), ("hop", &[1])];

const fn tally(settled: u64, committed: u64, aborted: u64, stale: u64) -> Tally {
    Tally {
        settled,
        committed,
        aborted,
        stale,
    }
}

/// A new engine on the bank, no call of which is brief.
fn new_engine(alloc: Global, workers: usize) -> Result<Engine, Fail> {
    let settings = Settings::new(workers, 8, 64, 65_536)?;
    engine(alloc, Bodies::Looping, settings)
}

/// Runs calls on an engine: through a gate on its workers, or without one on the thread that calls. Whether it did.
fn run_calls<R: Threads + Wait + Sync + AllocGlobal, G: Gate>(
    rt: &R,
    engine: &mut Engine,
    calls: &[Call<'_>],
    gate: Option<&G>,
) -> Result<bool, Fail> {
    let alloc = rt.alloc();
    let batch = batch_of(alloc, engine, calls)?;
    let ended = match gate {
        Some(gate) => engine.execute(rt, alloc, batch, gate),
        None => engine.run_alone(rt, alloc, batch, &[]),
    };
    Ok(ended.is_ok())
}

/// What a new watcher of an engine reads.
fn read_now<R: Wait>(rt: &R, engine: &mut Engine) -> Result<Tally, Fail> {
    let mut watcher = engine.watcher(rt)?;
    Ok(watcher.watch(rt))
}

/// Whether calls were run on an engine, and what a watcher reads that was made before, and one that was made after.
fn read_with_watcher<R: Threads + Wait + Sync + AllocGlobal>(
    rt: &R,
    engine: &mut Engine,
    calls: &[Call<'_>],
    gate: Option<&CountingGate>,
) -> Result<(bool, Tally, Tally), Fail> {
    let mut early = engine.watcher(rt)?;
    let is_run = run_calls(rt, engine, calls, gate)?;
    let late = read_now(rt, engine)?;
    Ok((is_run, early.watch(rt), late))
}

/// The same on a new engine.
fn read_before_and_after<R: Threads + Wait + Sync + AllocGlobal>(
    rt: &R,
    calls: &[Call<'_>],
    gate: Option<&CountingGate>,
) -> Result<(bool, Tally, Tally), Fail> {
    let mut engine = new_engine(rt.alloc(), 2)?;
    read_with_watcher(rt, &mut engine, calls, gate)
}

/// Both read the same: this thread has published it. On workers each call is a job.
#[test]
fn watchers_read_what_was_settled(rt: HostRuntime) -> Result<(), Fail> {
    let table: [(&[Call<'_>], Tally); 2] = [
        (&PAYS, tally(3, 2, 1, 0)),
        (&STALE, tally(2, 1, 0, 1)),
    ];
    for (calls, left) in table {
        let gate = CountingGate::new(true);
        for gate in [None, Some(&gate)] {
            assert_eq!(rt;
                read_before_and_after(&rt, calls, gate)?,
                (true, left, left)
            );
        }
        assert_eq!(rt; gate.jobs(), left.settled);
    }
    Ok(())
}

fn adds_up(t: Tally) -> bool {
    u128::from(t.settled) == u128::from(t.committed) + u128::from(t.aborted) + u128::from(t.stale)
}

fn is_none_below(before: Tally, after: Tally) -> bool {
    before.settled <= after.settled
        && before.committed <= after.committed
        && before.aborted <= after.aborted
        && before.stale <= after.stale
}

/// Whether each tally adds up that a watcher reads, and is at no place below the one before.
fn reads_on<R: Wait>(rt: &R, watcher: Watcher) -> bool {
    let mut watcher = watcher;
    let mut last = watcher.watch(rt);
    let mut right = adds_up(last);
    for _ in 0..LOOKS {
        let next = watcher.watch(rt);
        right = right && adds_up(next) && is_none_below(last, next);
        last = next;
    }
    right
}

fn both_read_on<R: Threads + Wait + Sync>(rt: &R, one: Watcher, other: Watcher) -> bool {
    let (one, other) = join(rt, || reads_on(rt, one), || reads_on(rt, other));
    one && other
}

/// The engine after it has executed a batch, and whether it did.
fn work<R: Threads + Wait + Sync>(
    rt: &R,
    alloc: Global,
    engine: Engine,
    batch: Batch,
    gate: &CountingGate,
) -> (Engine, bool)
    requires { AreOver (tables_of engine.core) (items_of batch) }
{
    let mut engine = engine;
    let done = engine.execute(rt, alloc, batch, gate).is_ok();
    (engine, done)
}

/// A batch of a thousand payments of 1.
fn thousand_pays(alloc: Global, engine: &Engine) -> Result<Batch, Fail>
    ensures { IfOk result (λ batch. AreOver (tables_of engine.now.core) (items_of batch)) }
{
    let mut calls: Vec<Call<'static>> = Vec::new(alloc);
    for _ in 0..1_000 {
        calls.push(("pay", &[1, 2, 1]))?;
    }
    batch_of(alloc, engine, &calls)
}

/// Two watchers of an engine.
fn two_watchers<R: Wait>(rt: &R, engine: &mut Engine) -> Result<(Watcher, Watcher), Fail>
    ensures { engine.new ≡ engine.old }
{
    let one = engine.watcher(rt)?;
    let other = engine.watcher(rt)?;
    Ok((one, other))
}

/// Whether two threads read on while a batch is executed, and what is read afterwards.
fn read_beside<R: Threads + Wait + Sync>(
    rt: &R,
    alloc: Global,
    engine: Engine,
    watchers: (Watcher, Watcher),
    batch: Batch,
    gate: &CountingGate,
) -> Result<(bool, Tally), Fail>
    requires { AreOver (tables_of engine.core) (items_of batch) }
{
    let (one, other) = watchers;
    let (right, (mut engine, done)) = join(
        rt,
        || both_read_on(rt, one, other),
        move || -> (Engine, bool)
            requires { AreOver (tables_of engine.core) (items_of batch) }
        { work(rt, alloc, engine, batch, gate) },
    );
    let late = read_now(rt, &mut engine)?;
    Ok((right && done, late))
}

/// The same of a thousand payments.
fn read_beside_pays<R: Threads + Wait + Sync>(
    rt: &R,
    alloc: Global,
    gate: &CountingGate,
) -> Result<(bool, Tally), Fail> {
    let mut engine = new_engine(alloc, 2)?;
    let watchers = two_watchers(rt, &mut engine)?;
    let batch = thousand_pays(alloc, &engine)?;
    read_beside(rt, alloc, engine, watchers, batch, gate)
}

/// Of 100 on the account, 1 goes at a time. The gate isn't open, so each call is a job though it waits for the one
/// before.
#[test]
fn watchers_read_while_the_engine_runs(rt: HostRuntime) -> Result<(), Fail> {
    let gate = CountingGate::new(false);
    let read = read_beside_pays(&rt, rt.alloc(), &gate)?;
    assert_eq!(rt; read, (true, tally(1_000, 100, 900, 0)));
    assert_eq!(rt; gate.jobs(), 1_000);
    Ok(())
}

/// Counts the jobs, and those that come before all that are in front of them are told of.
#[derive(Drop)]
struct Told<'r, R> {
    rt: &'r R,
    watcher: Mutex<Watcher>,
    jobs: AtomicU64,
    early: AtomicU64,
}

impl<R: Wait + Sync> Gate for Told<'_, R> {
    fn enter(&self, no: u64) {
        self.jobs.fetch_add(1, Ordering::SeqCst);
        if self.watcher.lock(self.rt).watch(self.rt).settled < no {
            self.early.fetch_add(1, Ordering::SeqCst);
        }
    }
}

/// Whether the payments are run on an engine, how many of them are jobs, and how many of these come too early.
fn come_early<R: Threads + Wait + Sync + AllocGlobal>(
    rt: &R,
    engine: &mut Engine,
) -> Result<(bool, u64, u64), Fail> {
    let gate = Told {
        rt,
        watcher: Mutex::new(engine.watcher(rt)?),
        jobs: AtomicU64::new(0),
        early: AtomicU64::new(0),
    };
    let is_run = run_calls(rt, engine, &PAYS, Some(&gate))?;
    let jobs = gate.jobs.load(Ordering::SeqCst);
    Ok((is_run, jobs, gate.early.load(Ordering::SeqCst)))
}

/// Each payment is in conflict with the one before it, so it is a job once that one was taken back, settled and told
/// of.
#[test]
fn each_is_told_of_as_it_is_settled(rt: HostRuntime) -> Result<(), Fail> {
    let mut engine = new_engine(rt.alloc(), 1)?;
    assert_eq!(rt; come_early(&rt, &mut engine)?, (true, 3, 0));
    Ok(())
}
