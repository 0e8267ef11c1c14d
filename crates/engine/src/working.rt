//! Working at a batch until it ends.

ghost use Rattle.std.specs.Prelude.{◌≡◌, ◌+◌, ◌≤◌, ◌^◌, length, true, is_some, Some, Ok, Err, IfOk, IfErr, OnOk};
ghost use Rattle.scheduler_core.specs.Phases.{is_done};
ghost use Rattle.scheduler.specs.Schedules.{log_of, phases_of};
ghost use Rattle.sequencer.specs.Attempts.{attempts_in};
ghost use Rattle.engine.specs.Executions.{fault_from};
ghost use Rattle.engine.specs.Stages.{FitsStage, EndsUnfinished, IsBegun, IsEndOf, IsInterruptedStage, rows_in, unfinished_in, unfinished_of, KnowsSettled, KnowsEnd, refusal_in};
ghost use Rattle.dispatcher.specs.Listeners.{HearsOn};

use crate::beginning::begin;
use crate::configuration::Configuration;
use crate::ending::{Ended, end};
use crate::fault::ExecFault;
use crate::replies::BatchDone;
use crate::stage::{Begun, Stage};
use dispatcher::{Gate, Listener, Refusal, WorkerPool, run_left};
use std::alloc::Global;
use std::sync::Wait;

/// Where a batch is that was not run to its end, and why.
#[derive(Drop)]
pub(crate) struct Interruption {
    pub stage: Stage,
    pub refusal: Refusal,
}

/// An interruption since an allocation failed.
fn no_memory(stage: Stage) -> Interruption
    ensures stage { result.stage ≡ stage }
    ensures refusal { result.refusal ≡ Refusal.Memory }
{
    Interruption {
        stage,
        refusal: Refusal::Memory,
    }
}

/// An unfinished batch with the scheduler of its entries, which is made where nothing of it has begun. If allocation
/// fails, the stage comes back.
fn begun(
    alloc: Global,
    configuration: &Configuration,
    first: u64,
    stage: Stage,
) -> Result<Begun, Stage>
    requires fits { FitsStage configuration.now.procs.tables first stage }
    requires busy { is_some (unfinished_in (Some stage)) ≡ true }
    ensures begun { IfOk result (IsBegun configuration.now.procs.tables first) }
    ensures start { IfOk result (λ begun. begun.scheduler.work.start ≡ rows_in (Some stage)) }
    ensures same { IfOk result (λ begun. Some (unfinished_of begun) ≡ unfinished_in (Some stage)) }
    ensures back { IfErr result (λ back. back ≡ stage) }
{
    match stage {
        Stage::Idle(_, _) => unreachable!(),
        Stage::Begun(begun) => Ok(begun),
        Stage::Held(attempts, store) => {
            match begin(
                alloc,
                &configuration.procs,
                configuration.settings,
                first,
                &attempts,
                store,
            ) {
                Ok(scheduler) => Ok(Begun {
                    attempts,
                    scheduler,
                }),
                Err(store) => Err(Stage::Held(attempts, store)),
            }
        }
    }
}

/// The end of a batch whose transactions were run, or where it is where the system refused something.
fn end_run(
    alloc: Global,
    first: u64,
    retries: u8,
    begun: Begun,
    ran: Result<(), Refusal>,
) -> Result<Ended, Interruption>
    requires done { OnOk ran (is_done (log_of begun.scheduler.work) (phases_of begun.scheduler) ≡ true) }
    requires begun { IsBegun begun.scheduler.work.tables first begun }
    ensures ended { IfOk result (IsEndOf begun.scheduler.work.tables first retries (attempts_in begun.attempts)
        begun.scheduler.work.start) }
    ensures done { OnOk result (is_done (log_of begun.scheduler.work) (phases_of begun.scheduler) ≡ true) }
    ensures stage { IfErr result (λ stop. stop.stage ≡ Stage.Begun begun) }
    ensures refusal { IfErr result (λ stop. stop.refusal ≡ refusal_in ran) }
{
    if let Err(refusal) = ran {
        return Err(Interruption {
            stage: Stage::Begun(begun),
            refusal,
        });
    }
    match end(alloc, first, retries, begun) {
        Ok(ended) => Ok(ended),
        Err(begun) => Err(no_memory(Stage::Begun(begun))),
    }
}

/// Works at an unfinished batch on one thread, by these choices of events. If allocation fails, the stage that it has
/// then comes back. The listener hears of each transaction as it is settled; this waits only where the listener does.
pub(crate) fn work_alone<L: Listener>(
    alloc: Global,
    configuration: &Configuration,
    first: u64,
    stage: Stage,
    listener: &mut L,
    choices: &[u64],
) -> Result<Ended, Interruption>
    requires fits { FitsStage configuration.now.procs.tables first stage }
    requires busy { is_some (unfinished_in (Some stage)) ≡ true }
    requires told { KnowsSettled first stage (L.account listener.old) }
    ensures ended { IfOk result (EndsUnfinished configuration.now.procs.tables first configuration.now.retries
        (unfinished_in (Some stage)) (rows_in (Some stage))) }
    ensures stop { IfErr result (IsInterruptedStage configuration.now.procs.tables first stage) }
    ensures threadless { IfErr result (λ stop. stop.refusal ≡ Refusal.Memory) }
    ensures told_end { IfOk result (λ ended. KnowsEnd ended.done (L.account listener.new)) }
    ensures told_stop { IfErr result (λ stop. KnowsSettled first stop.stage (L.account listener.new)) }
    ensures onward { HearsOn (L.account listener.old) (L.account listener.new) }
{
    let mut begun = match begun(alloc, configuration, first, stage) {
        Ok(begun) => begun,
        Err(stage) => return Err(no_memory(stage)),
    };
    let count = begun.attempts.len();
    let ran = match run_left(&mut begun.scheduler, listener, choices, first, count) {
        Ok(()) => Ok(()),
        Err(_) => Err(Refusal::Memory),
    };
    end_run(alloc, first, configuration.retries, begun, ran)
}

/// Works at an unfinished batch on the workers of a pool. Where the system refuses memory or a thread, the stage that
/// it has then comes back. The listener hears of each transaction as it is settled.
pub(crate) fn work_in_pool<'s, E, R: Wait + Sync, G: Gate, L: Listener>(
    alloc: Global,
    configuration: &Configuration,
    first: u64,
    stage: Stage,
    listener: &mut L,
    pool: &mut WorkerPool<'s, E, R, G>,
) -> Result<Ended, Interruption>
    requires fits { FitsStage configuration.now.procs.tables first stage }
    requires busy { is_some (unfinished_in (Some stage)) ≡ true }
    requires told { KnowsSettled first stage (L.account listener.old) }
    ensures ended { IfOk result (EndsUnfinished configuration.now.procs.tables first configuration.now.retries
        (unfinished_in (Some stage)) (rows_in (Some stage))) }
    ensures stop { IfErr result (IsInterruptedStage configuration.now.procs.tables first stage) }
    ensures told_end { IfOk result (λ ended. KnowsEnd ended.done (L.account listener.new)) }
    ensures told_stop { IfErr result (λ stop. KnowsSettled first stop.stage (L.account listener.new)) }
    ensures onward { HearsOn (L.account listener.old) (L.account listener.new) }
{
    let mut begun = match begun(alloc, configuration, first, stage) {
        Ok(begun) => begun,
        Err(stage) => return Err(no_memory(stage)),
    };
    let count = begun.attempts.len();
    let ran = pool.run(count, &mut begun.scheduler, listener);
    end_run(alloc, first, configuration.retries, begun, ran)
}

/// Ends a batch: takes over the rows and the requests that it left, and counts its transactions; or keeps the stage at
/// which it was interrupted.
pub(crate) fn conclude(
    next: &mut u64,
    stage: &mut Option<Stage>,
    ended: Result<Ended, Interruption>,
) -> Result<BatchDone, ExecFault>
    requires { IfOk ended (λ ended. next.old + length ended.done.replies.items ≤ 2 ^ 48) }
    ensures next { IfOk ended (λ ended. next.new ≡ next.old + length ended.done.replies.items) }
    ensures stage { IfOk ended (λ ended. stage.new ≡ Some (Stage.Idle ended.store ended.left)) }
    ensures done { IfOk ended (λ ended. result ≡ Ok ended.done) }
    ensures same { IfErr ended (λ stop. next.new ≡ next.old) }
    ensures interrupted { IfErr ended (λ stop. stage.new ≡ Some stop.stage) }
    ensures fault { IfErr ended (λ stop. result ≡ Err (fault_from stop.refusal)) }
{
    match ended {
        Ok(Ended { store, left, done }) => {
            *next += done.replies.len() as u64;
            *stage = Some(Stage::Idle(store, left));
            Ok(done)
        }
        Err(
            Interruption {
                stage: reached,
                refusal,
            },
        ) => {
            *stage = Some(reached);
            Err(ExecFault::from(refusal))
        }
    }
}
