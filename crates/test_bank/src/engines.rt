//! What the tests run: engines on the bank, batches of their calls, and what comes of them.

ghost use Rattle.std.specs.Prelude.{IfOk};
ghost use Rattle.sequencer.specs.Batches.{items_of, AreOver};
ghost use Rattle.engine.specs.Engines.{tables_of};

use crate::bank_setup::{Bodies, bank};
use crate::calls::{Call, batch};
use crate::outcomes::push_outcome;
use engine::{Batch, BatchDone, Engine, ExecFault, Gate, Reply, Settings};
use std::alloc::Global;
use std::sync::Wait;
use std::test::Fail;
use std::thread::Threads;

/// An engine on the bank, with such bodies.
pub fn engine(alloc: Global, bodies: Bodies, settings: Settings) -> Result<Engine, Fail> {
    Ok(Engine::new(alloc, bank(alloc, bodies)?, settings)?)
}

/// The batch of calls of an engine's procedures.
pub fn batch_of(alloc: Global, engine: &Engine, calls: &[Call<'_>]) -> Result<Batch, Fail>
    ensures { IfOk result (λ batch. AreOver (tables_of engine.now.core) (items_of batch)) }
{
    Ok(batch(alloc, engine.procs(), calls)?)
}

/// Executes calls on an engine's workers, and says what came of them.
pub fn execute_on<R: Threads + Wait + Sync + AllocGlobal, G: Gate>(
    rt: &R,
    engine: &mut Engine,
    calls: &[Call<'_>],
    gate: &G,
) -> Result<String, Fail> {
    let alloc = rt.alloc();
    let batch = batch_of(alloc, engine, calls)?;
    replies(alloc, engine.execute(rt, alloc, batch, gate))
}

/// The same on a new engine.
pub fn execute<R: Threads + Wait + Sync + AllocGlobal, G: Gate>(
    rt: &R,
    bodies: Bodies,
    settings: Settings,
    calls: &[Call<'_>],
    gate: &G,
) -> Result<String, Fail> {
    let mut engine = engine(rt.alloc(), bodies, settings)?;
    execute_on(rt, &mut engine, calls, gate)
}

/// The outcomes of replies, in order.
fn outcomes(alloc: Global, replies: &[Reply]) -> Result<String, Fail> {
    let mut text = String::new(alloc);
    for reply in replies {
        push_outcome(&mut text, &reply.outcome)?;
    }
    Ok(text)
}

/// The outcomes of a batch that was executed, in order.
pub fn replies(alloc: Global, done: Result<BatchDone, ExecFault>) -> Result<String, Fail> {
    match done {
        Ok(done) => outcomes(alloc, &done.replies),
        Err(_) => Err(Fail::from("not executed")),
    }
}
