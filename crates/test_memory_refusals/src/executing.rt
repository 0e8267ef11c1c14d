//! The engine's calls: a batch that is executed, and gone on with where memory or a thread was refused.

ghost use Rattle.std.specs.Prelude.{◌≡◌, true};
ghost use Rattle.engine.specs.Engines.{is_busy};

use crate::jobs::if_jobs;
use calvin::{BatchDone, Engine, ExecFault, Reply, Settings, Setup};
use report_text::push_reply_line;
use std::alloc::{AllocError, Global};
use std::sync::Wait;
use std::thread::Threads;
use test_bank::CountingGate;
use test_refusal_steps::{Answer, CALLS, Refusal, bank, batch, is_of_log};

/// An engine on a setup, with `workers` workers and `lanes` lanes.
pub(crate) fn engine_over(
    alloc: Global,
    setup: Setup,
    workers: usize,
    lanes: usize,
) -> Option<Engine> {
    let settings = Settings::new(workers, lanes, 64, 65_536).ok()?;
    Engine::new(alloc, setup, settings).ok()
}

/// An engine on a setup, with `workers` workers.
fn engine_on(alloc: Global, setup: Setup, workers: usize) -> Option<Engine> {
    engine_over(alloc, setup, workers, 8)
}

/// Appends the reply lines of a batch. A reply that isn't of the log's one client gives a line more.
pub(crate) fn push_replies(
    alloc: Global,
    lines: &mut String,
    replies: &[Reply],
) -> Result<(), AllocError> {
    for reply in replies {
        if reply.client != 0 {
            lines.push_str("of another client\n")?;
        }
        push_reply_line(alloc, lines, reply.no, reply.of, &reply.outcome)?;
    }
    Ok(())
}

/// Whether the log was run as it was reckoned, to its end.
fn is_run(alloc: Global, engine: &Engine, done: &BatchDone) -> Option<bool> {
    let mut lines = String::new(alloc);
    push_replies(alloc, &mut lines, &done.replies).ok()?;
    if engine.is_busy() || engine.transactions() != CALLS || done.first != 0 {
        return Some(false);
    }
    is_of_log(alloc, lines.as_str(), engine.rows())
}

// No engine is at hand where one of the functions below gives up: what is let go there is part of its proof.

/// Whether an engine runs the log as it was reckoned.
fn runs<R: Wait + AllocGlobal>(rt: &R, engine: &mut Engine) -> Option<bool> {
    let alloc = rt.alloc();
    let batch = batch(alloc, engine.procs())?;
    match engine.run_alone(rt, alloc, batch, &[]) {
        Ok(done) => is_run(alloc, engine, &done),
        Err(_) => Some(false),
    }
}

/// Whether an engine on this setup runs the log as it was reckoned.
pub(crate) fn runs_on<R: Wait + AllocGlobal>(rt: &R, setup: Setup) -> Option<bool> {
    let mut engine = engine_on(rt.alloc(), setup, 1)?;
    runs(rt, &mut engine)
}

/// How an unfinished batch is gone on with.
#[derive(Clone, Copy)]
pub(crate) enum Then {
    Resume,
    ResumeAlone,
}

impl Then {
    pub(crate) fn go_on<R: Threads + Wait + Sync + AllocGlobal>(
        self,
        rt: &R,
        engine: &mut Engine,
        gate: &CountingGate,
    ) -> Result<BatchDone, ExecFault>
        requires { is_busy engine.old.core ≡ true }
    {
        match self {
            Then::Resume => engine.resume(rt, rt.alloc(), gate),
            Then::ResumeAlone => engine.resume_alone(rt, rt.alloc(), &[]),
        }
    }
}

/// This answer if the log was run as it was reckoned.
fn if_run(alloc: Global, engine: &Engine, done: &BatchDone, answer: Answer) -> Option<Answer> {
    let is_run = is_run(alloc, engine, done)?;
    Some(answer.if_right(is_run))
}

/// What comes of an execution that ended so, and is gone on with where memory or a thread was refused.
pub(crate) fn gone_on_with<R: Threads + Wait + Sync + AllocGlobal>(
    rt: &R,
    engine: &mut Engine,
    ended: Result<BatchDone, ExecFault>,
    then: Then,
    gate: &CountingGate,
) -> Option<Answer> {
    match ended {
        Ok(done) => if_run(rt.alloc(), engine, &done, Answer::Right),
        Err(ExecFault::NoMemory | ExecFault::Spawn) if engine.is_busy() => {
            match then.go_on(rt, engine, gate) {
                Ok(done) => if_run(rt.alloc(), engine, &done, Answer::Refused),
                Err(_) => Some(Answer::Wrong),
            }
        }
        Err(_) => Some(Answer::Wrong),
    }
}

/// Choices of events, which lie far apart.
fn choices(alloc: Global, count: usize) -> Result<Vec<u64>, AllocError> {
    let mut choices = Vec::new(alloc);
    let mut number: u32 = 7;
    for _ in 0..count {
        number = number.wrapping_mul(1_664_525).wrapping_add(1_013_904_223);
        choices.push(u64::from(number >> 3))?;
    }
    Ok(choices)
}

/// An engine runs the log on one thread, by `count` choices of events.
fn run_alone<R: Threads + Wait + Sync + AllocGlobal>(
    rt: &R,
    refusal: &mut Refusal,
    engine: &mut Engine,
    count: usize,
    then: Then,
    gate: &CountingGate,
) -> Option<Answer> {
    let alloc = rt.alloc();
    let choices = choices(alloc, count).ok()?;
    let batch = batch(alloc, engine.procs())?;
    refusal.approach();
    let ended = engine.run_alone(rt, alloc, batch, &choices);
    refusal.pass();
    gone_on_with(rt, engine, ended, then, gate)
}

/// The log on one thread, by `count` choices of events.
pub(crate) fn try_alone<R: Threads + Wait + Sync + AllocGlobal>(
    rt: &R,
    refusal: &mut Refusal,
    count: usize,
    then: Then,
) -> Option<Answer> {
    let alloc = rt.alloc();
    let gate = CountingGate::new(false);
    let mut engine = engine_on(alloc, bank(alloc)?, 1)?;
    run_alone(rt, refusal, &mut engine, count, then, &gate)
}

/// An engine runs the log on its workers.
fn execute<R: Threads + Wait + Sync + AllocGlobal>(
    rt: &R,
    refusal: &mut Refusal,
    engine: &mut Engine,
    then: Then,
    gate: &CountingGate,
) -> Option<Answer> {
    let alloc = rt.alloc();
    let batch = batch(alloc, engine.procs())?;
    refusal.approach();
    let ended = engine.execute(rt, alloc, batch, gate);
    refusal.pass();
    let answer = gone_on_with(rt, engine, ended, then, gate)?;
    Some(if_jobs(answer, gate, CALLS))
}

/// The log on `workers` workers, each of its calls as a job.
pub(crate) fn try_workers<R: Threads + Wait + Sync + AllocGlobal>(
    rt: &R,
    refusal: &mut Refusal,
    workers: usize,
    then: Then,
) -> Option<Answer> {
    let alloc = rt.alloc();
    let gate = CountingGate::new(false);
    let mut engine = engine_on(alloc, bank(alloc)?, workers)?;
    execute(rt, refusal, &mut engine, then, &gate)
}

/// An engine runs the log on its workers, and goes on where a thread was refused at first, and once more if allocation
/// failed then.
fn resume<R: Threads + Wait + Sync + AllocGlobal>(
    rt: &R,
    refusal: &mut Refusal,
    engine: &mut Engine,
    then: Then,
    gate: &CountingGate,
) -> Option<Answer> {
    let alloc = rt.alloc();
    let batch = batch(alloc, engine.procs())?;
    let mut ended = engine.execute(rt, alloc, batch, gate);
    if ended.is_err() && engine.is_busy() {
        refusal.approach();
        ended = then.go_on(rt, engine, gate);
        refusal.pass();
    }
    gone_on_with(rt, engine, ended, then, gate)
}

/// The log on two workers, gone on with where a thread was refused at first, and once more if allocation failed then;
/// where no thread was, it is run as usual.
pub(crate) fn try_resume<R: Threads + Wait + Sync + AllocGlobal>(
    rt: &R,
    refusal: &mut Refusal,
    then: Then,
) -> Option<Answer> {
    let alloc = rt.alloc();
    let gate = CountingGate::new(false);
    let mut engine = engine_on(alloc, bank(alloc)?, 2)?;
    resume(rt, refusal, &mut engine, then, &gate)
}
