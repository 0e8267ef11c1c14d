//! Executing batches on the workers of a pool.

ghost use Rattle.std.specs.Prelude.{◌≡◌, ◌+◌, ◌<◌, ◌^◌, IfOk, IfErr, Err, length, false, true};
ghost use Rattle.sequencer.specs.Batches.{items_of, AreOver};
ghost use Rattle.engine.specs.Accounts.{IsResumption, Publishes};
ghost use Rattle.engine.specs.Batches.{next_attempts};
ghost use Rattle.engine.specs.Engines.{tables_of, is_busy};
ghost use Rattle.engine.specs.Executions.{IsExecutionOf, IsRefusal, IsInterruption, KeepsSetting, ResumesTo};

use crate::engine::Engine;
use crate::fault::ExecFault;
use crate::publishing::Publishing;
use crate::replies::BatchDone;
use dispatcher::{Gate, HeadSeat, WorkerPool, Workplace};
use sequencer::Batch;
use std::alloc::Global;
use std::sync::Wait;
use std::thread;
use std::thread::Threads;

/// Does nothing. That a reference is used which a scope has given back ties it to the one that the scope took.
fn take_back<T>(reference: &mut T)
    ensures { reference.new ≡ reference.old }
{}

/// Goes on with the unfinished batch on workers that are started at a workplace, and joined at the end. This is its
/// seat.
pub(crate) fn resume_at<'a, R: Threads + Wait + Sync, G: Gate>(
    rt: &R,
    alloc: Global,
    engine: &'a mut Engine,
    place: &Workplace,
    head: HeadSeat,
    gate: &G,
) -> Result<BatchDone, ExecFault>
    requires place { head ≡ place.now }
    requires busy { is_busy engine.old.core ≡ true }
    ensures { IsResumption engine.old result engine.new }
{
    let (ended, engine) = thread::scope(
        thread::scope_env(),
        rt,
        move |scope| -> (Result<BatchDone, ExecFault>, &mut Engine)
            requires { (head ≡ place.now) × (is_busy engine.now.core ≡ true) }
            ensures engine { result.1.ghost_name ≡ engine.entry.ghost_name }
            ensures ended { IsResumption engine.entry.now result.0 result.1.now }
        {
            let mut pool = WorkerPool::new(rt, scope, gate, place, head);
            let ended = engine.resume_in(alloc, &mut pool);
            (ended, engine)
        },
    );
    take_back(engine);
    ended
}

impl Engine {
    /// Runs a batch as `execute` does, on the workers of a pool, which stay there for the next one. How many workers
    /// and lanes there are is the workplace's matter; the threshold and the room for lock requests are the engine's.
    pub fn execute_in<'s, E, R: Wait + Sync, G: Gate>(
        &mut self,
        alloc: Global,
        batch: Batch,
        pool: &mut WorkerPool<'s, E, R, G>,
    ) -> Result<BatchDone, ExecFault>
        requires { AreOver (tables_of self.old.core) (items_of batch) }
        ensures same { KeepsSetting self.old.core self.new.core }
        ensures done { IfOk result (IsExecutionOf self.old.core self.new.core (next_attempts self.old.core batch)) }
        ensures busy { is_busy self.old.core ≡ true → result ≡ Err (ExecFault.Busy batch) }
        ensures full { is_busy self.old.core ≡ false →
            2 ^ 48 < self.old.core.next + length (next_attempts self.old.core batch) →
            result ≡ Err (ExecFault.LogFull batch) }
        // Where a thread is refused nothing has run. Where a thread is refused or allocation fails the engine holds the
        // batch, and no job of it is out.
        ensures refused { IfErr result (IsRefusal self.old.core self.new.core batch) }
        ensures published { Publishes self.old self.new result }
    {
        self.take(batch)?;
        self.resume_in(alloc, pool)
    }

    /// Goes on with the unfinished batch as `resume` does, on the workers of a pool, which stay there for the next one.
    pub fn resume_in<'s, E, R: Wait + Sync, G: Gate>(
        &mut self,
        alloc: Global,
        pool: &mut WorkerPool<'s, E, R, G>,
    ) -> Result<BatchDone, ExecFault>
        requires { is_busy self.old.core ≡ true }
        ensures same { KeepsSetting self.old.core self.new.core }
        ensures done { IfOk result (ResumesTo self.old.core self.new.core self.old.core.unfinished) }
        ensures refused { IfErr result (IsInterruption self.old.core self.old.core.unfinished self.new.core) }
        ensures published { Publishes self.old self.new result }
    {
        let Some(publisher) = self.publisher.take() else {
            unreachable!()
        };
        let mut listener = Publishing {
            rt: pool.runtime(),
            publisher,
        };
        let ended = self.core.resume_in(alloc, &mut listener, pool);
        self.publisher = Some(listener.into_publisher(ended.is_ok()));
        ended
    }
}
