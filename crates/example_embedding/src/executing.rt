//! Executing a batch to its end.

ghost use Rattle.sequencer.specs.Batches.{items_of, AreOver};
ghost use Rattle.engine.specs.Engines.{tables_of};

use calvin::{Batch, BatchDone, Engine, ExecFault, OpenGate};
use std::sync::Wait;
use std::thread::Threads;

/// How often a batch is gone on with before the program gives up.
const TRIES: usize = 10;

/// Executes a batch, and goes on with it where memory or a thread was refused. `None` where that didn't end well: then
/// the engine holds the batch, or has not taken it.
pub(crate) fn executed<R: Threads + Wait + Sync + AllocGlobal>(
    rt: &R,
    engine: &mut Engine,
    batch: Batch,
) -> Option<BatchDone>
    requires { AreOver (tables_of engine.old.core) (items_of batch) }
{
    let alloc = rt.alloc();
    let mut ended = engine.execute(rt, alloc, batch, &OpenGate);
    for _ in 0..TRIES {
        match ended {
            Ok(done) => return Some(done),
            Err(ExecFault::Busy(_) | ExecFault::LogFull(_)) => return None,
            Err(ExecFault::Spawn | ExecFault::NoMemory) => {}
        }
        if !engine.is_busy() {
            return None;
        }
        ended = engine.resume(rt, alloc, &OpenGate);
    }
    ended.ok()
}
