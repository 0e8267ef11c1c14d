//! The order of gate and run: the first job comes near the refused allocation at the gate, and its run meets it there
//! only if it runs after it has passed.

use crate::executing::Then::ResumeAlone;
use crate::executing::{engine_over, gone_on_with};
use calvin::{BatchDone, Engine, ExecFault, Gate, Watcher};
use std::sync::Wait;
use std::sync::atomic::{AtomicU64, Ordering};
use std::thread::Threads;
use test_bank::CountingGate;
use test_refusal_steps::{Answer, Refusal, bank, batch};

/// A gate at which the first job comes near the refused allocation before it passes.
#[derive(Drop)]
struct NearingGate<'a> {
    refusal: &'a Refusal,
    /// How many allocations were made at the gate.
    made: AtomicU64,
}

impl Gate for NearingGate<'_> {
    fn enter(&self, no: u64) {
        if no == 0 {
            self.made.store(self.refusal.near(), Ordering::SeqCst);
        }
    }
}

/// How an execution of the log through such a gate ends, and how many allocations were made at the gate.
fn run_near<R: Threads + Wait + Sync + AllocGlobal>(
    rt: &R,
    refusal: &Refusal,
    engine: &mut Engine,
) -> Option<(Result<BatchDone, ExecFault>, u64)> {
    let alloc = rt.alloc();
    let batch = batch(alloc, engine.procs())?;
    let gate = NearingGate {
        refusal,
        made: AtomicU64::new(0),
    };
    let ended = engine.execute(rt, alloc, batch, &gate);
    Some((ended, gate.made.load(Ordering::SeqCst)))
}

/// An engine runs the log through such a gate.
fn execute<R: Threads + Wait + Sync + AllocGlobal>(
    rt: &R,
    refusal: &mut Refusal,
    engine: &mut Engine,
    watcher: &mut Watcher,
) -> Option<Answer> {
    let (ended, made) = run_near(rt, refusal, engine)?;
    refusal.note_approach(made);
    refusal.pass();
    let settled = watcher.watch(rt).settled;
    let answer = gone_on_with(rt, engine, ended, ResumeAlone, &CountingGate::new(false))?;
    Some(if_none_settled(answer, settled))
}

/// An answer, which tells of a refusal only where nothing was settled before it.
fn if_none_settled(answer: Answer, settled: u64) -> Answer {
    match answer {
        Answer::Refused if settled > 0 => Answer::Right,
        Answer::Right | Answer::Refused | Answer::Wrong => answer,
    }
}

/// The same beside a watcher of the engine.
fn execute_watched<R: Threads + Wait + Sync + AllocGlobal>(
    rt: &R,
    refusal: &mut Refusal,
    engine: &mut Engine,
) -> Option<Answer> {
    let mut watcher = engine.watcher(rt).ok()?;
    execute(rt, refusal, engine, &mut watcher)
}

/// The log on one worker, over one lane, whose first job comes near the refused allocation at the gate. `Refused` says
/// that nothing was settled when it was met: the job had not run before it passed.
pub(crate) fn try_gate<R: Threads + Wait + Sync + AllocGlobal>(
    rt: &R,
    refusal: &mut Refusal,
) -> Option<Answer> {
    let alloc = rt.alloc();
    let mut engine = engine_over(alloc, bank(alloc)?, 1, 1)?;
    execute_watched(rt, refusal, &mut engine)
}
