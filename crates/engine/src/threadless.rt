//! Executing batches on the thread that calls.

ghost use Rattle.std.specs.Prelude.{◌≡◌, ◌+◌, ◌<◌, ◌^◌, IfOk, IfErr, Err, length, false, true};
ghost use Rattle.sequencer.specs.Batches.{items_of, AreOver};
ghost use Rattle.engine.specs.Accounts.{Publishes};
ghost use Rattle.engine.specs.Batches.{next_attempts};
ghost use Rattle.engine.specs.Engines.{tables_of, is_busy};
ghost use Rattle.engine.specs.Executions.{IsExecutionOf, IsRefusal, IsInterruption, IsSpawn, KeepsSetting, ResumesTo};

use crate::engine::Engine;
use crate::fault::ExecFault;
use crate::publishing::Publishing;
use crate::replies::BatchDone;
use sequencer::Batch;
use std::alloc::Global;
use std::sync::Wait;

impl Engine {
    /// Runs a batch on one thread, without a gate: each step makes the event that `choose` gives for the next choice,
    /// and after the last the next step of the least transaction, with few admitted after it. It starts no thread. It
    /// may wait, since it publishes how many are settled.
    pub fn run_alone<R: Wait>(
        &mut self,
        rt: &R,
        alloc: Global,
        batch: Batch,
        choices: &[u64],
    ) -> Result<BatchDone, ExecFault>
        requires { AreOver (tables_of self.old.core) (items_of batch) }
        ensures same { KeepsSetting self.old.core self.new.core }
        ensures done { IfOk result (IsExecutionOf self.old.core self.new.core (next_attempts self.old.core batch)) }
        ensures busy { is_busy self.old.core ≡ true → result ≡ Err (ExecFault.Busy batch) }
        ensures full { is_busy self.old.core ≡ false →
            2 ^ 48 < self.old.core.next + length (next_attempts self.old.core batch) →
            result ≡ Err (ExecFault.LogFull batch) }
        ensures refused { IfErr result (IsRefusal self.old.core self.new.core batch) }
        ensures threadless { IfErr result (λ fault. ¬ IsSpawn fault) }
        ensures published { Publishes self.old self.new result }
    {
        self.take(batch)?;
        self.resume_alone(rt, alloc, choices)
    }

    /// Goes on with the unfinished batch on one thread, by these choices of events, and gives the replies of the whole
    /// batch. It starts no thread. It may wait, since it publishes how many are settled.
    pub fn resume_alone<R: Wait>(
        &mut self,
        rt: &R,
        alloc: Global,
        choices: &[u64],
    ) -> Result<BatchDone, ExecFault>
        requires { is_busy self.old.core ≡ true }
        ensures same { KeepsSetting self.old.core self.new.core }
        ensures done { IfOk result (ResumesTo self.old.core self.new.core self.old.core.unfinished) }
        // If allocation fails again, no job is out, and what was settled before stays settled.
        ensures refused { IfErr result (IsInterruption self.old.core self.old.core.unfinished self.new.core) }
        ensures threadless { IfErr result (λ fault. ¬ IsSpawn fault) }
        ensures published { Publishes self.old self.new result }
    {
        let Some(publisher) = self.publisher.take() else {
            unreachable!()
        };
        let mut listener = Publishing { rt, publisher };
        let ended = self.core.resume_alone(alloc, &mut listener, choices);
        self.publisher = Some(listener.into_publisher(ended.is_ok()));
        ended
    }
}
