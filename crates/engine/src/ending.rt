//! Ending a batch.

ghost use Rattle.std.specs.Prelude.{◌≡◌, true, IfOk, IfErr};
ghost use Rattle.scheduler_core.specs.Phases.{is_done};
ghost use Rattle.scheduler.specs.Schedules.{log_of, phases_of};
ghost use Rattle.sequencer.specs.Attempts.{attempts_in};
ghost use Rattle.engine.specs.Stages.{IsBegun, IsEndOf};

use crate::replies::{BatchDone, fill, most_left};
use crate::stage::Begun;
use row_store::RowStore;
use scheduler::Finished;
use sequencer::Carried;
use std::alloc::Global;

/// What a batch leaves: its replies, the requests that are tried again, and the rows.
#[derive(Drop)]
pub(crate) struct Ended {
    pub store: RowStore,
    pub left: Vec<Carried>,
    pub done: BatchDone,
}

/// The end of a batch whose transactions are all settled. All memory is taken before anything ends: if allocation
/// fails, the batch comes back as it is. For the requests that are tried again none is taken where none is.
pub(crate) fn end(alloc: Global, first: u64, retries: u8, begun: Begun) -> Result<Ended, Begun>
    requires done { is_done (log_of begun.scheduler.work) (phases_of begun.scheduler) ≡ true }
    requires begun { IsBegun begun.scheduler.work.tables first begun }
    ensures ended { IfOk result (IsEndOf begun.scheduler.work.tables first retries (attempts_in begun.attempts)
        begun.scheduler.work.start) }
    ensures back { IfErr result (λ back. back ≡ begun) }
{
    let count = begun.attempts.len();
    let Ok(replies) = Vec::with_capacity(alloc, count) else {
        return Err(begun);
    };
    let Ok(left) = Vec::with_capacity(alloc, most_left(count, retries)) else {
        return Err(begun);
    };
    let Begun {
        attempts,
        scheduler,
    } = begun;
    let Finished { rows, outcomes, .. } = scheduler.into_finished();
    let (replies, left) = fill(replies, left, first, attempts, outcomes, retries);
    Ok(Ended {
        store: rows,
        left,
        done: BatchDone { first, replies },
    })
}
