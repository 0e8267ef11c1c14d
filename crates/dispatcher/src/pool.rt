//! Workers on threads of their own, which work at one batch after another.

ghost use Rattle.std.specs.Prelude.{◌≡◌, true, Err, OnOk};
ghost use Rattle.scheduler_core.specs.Phases.{is_done};
ghost use Rattle.scheduler.specs.Schedules.{log_of, phases_of};
ghost use Rattle.lanes.specs.Seats.{jobs_in};
ghost use Rattle.dispatcher.specs.Runs.{NoneIsOut, StaysSettled};
ghost use Rattle.dispatcher.specs.Listeners.{AreCounted, IsToldOf};

use crate::brief::is_brief;
use crate::dispatcher::Dispatcher;
use crate::gate::Gate;
use crate::listener::Listener;
use crate::overlap::Overlap;
use crate::refusal::Refusal;
use crate::workplace::{HeadSeat, Workplace};
use scheduler::Scheduler;
use std::num::NonZeroUsize;
use std::sync::Wait;
use std::thread::{Scope, Threads, available_parallelism};

/// Worker threads of a scope at a workplace. They are started as batches need them, work at one batch after another,
/// park in between, and end when the pool goes: the scope doesn't end before.
pub struct WorkerPool<'s, E, R, G> {
    scope: &'s Scope<'s, E>,
    dispatcher: Dispatcher<'s, R, G>,
    /// How many workers were started.
    started: usize,
    ghost empty: { jobs_in dispatcher.jobs ≡ 0 },
}

impl<'s, E, R, G> Drop for WorkerPool<'s, E, R, G> {
    fn drop(self) {
        let Self {
            scope: _,
            dispatcher: _,
            started: _,
        } = self;
    }
}

impl<'s, E, R: Threads, G> WorkerPool<'s, E, R, G> {
    /// A pool without a worker. Who claims a job passes this gate, once for it, before it runs it.
    pub fn new(
        rt: &'s R,
        scope: &'s Scope<'s, E>,
        gate: &'s G,
        place: &'s Workplace,
        head: HeadSeat,
    ) -> WorkerPool<'s, E, R, G>
        requires { head ≡ place.now }
    {
        let HeadSeat { seat, own } = head;
        // proof: there is a lane.
        let _count = place.count;
        let dispatcher = Dispatcher {
            rt,
            gate,
            place,
            seat,
            own,
            out: 0,
            waiting: 0,
            overlap: Overlap::new(),
            has_workers: false,
            processors: available_parallelism(rt).map_or(1, NonZeroUsize::get),
        };
        WorkerPool {
            scope,
            dispatcher,
            started: 0,
        }
    }
}

impl<'s, E, R: Wait + Sync, G: Gate> WorkerPool<'s, E, R, G> {
    /// The runtime on which its workers were started.
    #[inline]
    pub fn runtime(&self) -> &'s R {
        let dispatcher = &self.dispatcher;
        dispatcher.rt
    }

    /// Sees to it that the wanted number of workers is started, or as many as the workplace has room for. Where one is
    /// refused, those before it are at work.
    fn start_workers(&mut self, wanted: usize) -> Result<(), Refusal> {
        'workers: while self.started < wanted {
            if !self.dispatcher.start_worker(self.scope, self.started)? {
                return Ok(());
            }
            self.started += 1;
        }
        Ok(())
    }

    /// How many workers a batch may want: one for each of its transactions, and none where none was started, the gate
    /// is open and all calls are brief on the rows as they are. The thread that calls runs these, and any that becomes
    /// longer by then.
    fn wanted_workers(&self, transactions: usize, scheduler: &Scheduler) -> usize {
        let dispatcher = &self.dispatcher;
        let rows = scheduler.rows();
        let mut entries = scheduler.entries().iter();
        let may_want_none = self.started == 0 && dispatcher.gate.is_open();
        if may_want_none && entries.all(|entry| is_brief(entry, rows)) {
            0
        } else {
            transactions
        }
    }

    /// Runs the transactions of a batch that are left. It starts no more workers than there are transactions in the
    /// batch, and none at an open gate until a batch has other than brief calls; those that were started for an earlier
    /// batch work at this one, too. If allocation fails, no job is out then, and where a thread is refused, nothing has
    /// run. The listener hears of each transaction as it is settled.
    pub fn run<L: Listener>(
        &mut self,
        transactions: usize,
        scheduler: &mut Scheduler,
        listener: &mut L,
    ) -> Result<(), Refusal>
        requires none_out { NoneIsOut (phases_of scheduler.old) }
        requires told { AreCounted scheduler.old (L.account listener.old) }
        ensures work { scheduler.new.work ≡ scheduler.old.work }
        ensures settled { StaysSettled (phases_of scheduler.old) (phases_of scheduler.new) }
        ensures none_out { NoneIsOut (phases_of scheduler.new) }
        ensures done { OnOk result (is_done (log_of scheduler.new.work) (phases_of scheduler.new) ≡ true) }
        ensures thread { result ≡ Err Refusal.Thread → scheduler.new ≡ scheduler.old }
        ensures told { IsToldOf scheduler.new (L.account listener.old) (L.account listener.new) }
    {
        self.start_workers(self.wanted_workers(transactions, scheduler))?;
        self.dispatcher
            .run(scheduler, listener)
            .map_err(Refusal::from)
    }
}
