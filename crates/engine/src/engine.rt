//! The engine.

ghost use Rattle.std.specs.Prelude.{◌≡◌, [], ◌∷◌, ◌+◌, ◌<◌, ◌≤◌, ◌^◌, IfOk, IfErr, OnOk, Err, Some, None, length, false, true};
ghost use Rattle.std.specs.FinMap as map_of;
ghost use Rattle.row_store.specs.Stock.{with_rows};
ghost use Rattle.sequencer.specs.Batches.{items_of, AreOver};
ghost use Rattle.progress.specs.Tallies.{zero_tally, StartsWith};
ghost use Rattle.engine.specs.Accounts.{Publishes, ShowsSettled};
ghost use Rattle.engine.specs.Batches.{next_attempts};
ghost use Rattle.engine.specs.Engines.{tables_of, is_busy};
ghost use Rattle.engine.specs.Executions.{IsExecutionOf, IsRefusal, IsInterruption, KeepsSetting, ResumesTo, IsBack, taken};

use crate::fault::ExecFault;
use crate::pooled::resume_at;
use crate::quiet::QuietEngine;
use crate::replies::BatchDone;
use dispatcher::{Gate, Settings, Workplace};
use progress::{Publisher, Watcher};
use requests::{Procs, Setup};
use row_store::RowStore;
use sequencer::Batch;
use std::alloc::Global;
use std::marker::Model;
use std::sync::Wait;
use std::thread::Threads;
use values::NoMemory;

/// Executes batches of calls, one after another, on the rows of a database, and publishes how many transactions are
/// settled.
#[derive(Drop)]
pub struct Engine {
    pub(crate) core: QuietEngine,
    // It is always there but inside a call that moves it.
    pub(crate) publisher: Option<Publisher>,
}

impl Model for Engine {
    ghost use Rattle.engine.specs.Engines.{PublishingParts, publishing_code};
    ghost use Rattle.engine.specs.Stages.{account_in, IsToldSettled};

    ghost Value = { PublishingParts };

    ghost coded = { publishing_code };

    ghost view = { λ e. record { core = e.core; account = account_in e.publisher } };

    ghost invariant = { λ e. IsToldSettled e.core e.publisher };
}

impl Engine {
    // rule: log.numbers
    /// An engine on the starting rows of a setup.
    pub fn new(alloc: Global, setup: Setup, settings: Settings) -> Result<Engine, NoMemory>
        ensures { IfOk result (λ engine.
            engine ≡ record {
              core = record {
                procs = setup.procs;
                settings = settings;
                retries = setup.retries;
                next = 0;
                rows = with_rows map_of.empty
                    setup.rows.items;
                carried = [];
                unfinished = None;
              };
              account = record engine.account { ended = zero_tally; published = zero_tally ∷ [] };
            }) }
    {
        let core = QuietEngine::new(alloc, setup, settings)?;
        let publisher = Publisher::new(alloc)?;
        Ok(Engine {
            core,
            publisher: Some(publisher),
        })
    }

    /// Whether a batch is unfinished.
    pub fn is_busy(&self) -> bool
        ensures { result ≡ is_busy self.now.core }
    {
        self.core.is_busy()
    }

    /// How many transactions were run in the batches that ended: the number of the next one.
    pub fn transactions(&self) -> u64
        ensures { result ≡ self.now.core.next }
    {
        self.core.transactions()
    }

    /// The procedures.
    pub fn procs(&self) -> &Procs
        ensures { result.now ≡ self.now.core.procs }
    {
        self.core.procs()
    }

    /// The rows, where no batch is unfinished.
    pub fn rows(&self) -> &RowStore
        requires { is_busy self.now.core ≡ false }
        ensures tables { result.now.tables ≡ tables_of self.now.core }
        ensures rows { result.now.rows ≡ self.now.core.rows }
        ensures unlent { result.now.lent ≡ map_of.empty }
    {
        self.core.rows()
    }

    /// The settings that it was made with.
    pub fn settings(&self) -> Settings
        ensures { result ≡ self.now.core.settings }
    {
        self.core.settings()
    }

    /// How many requests are carried to the next batch; 0 while a batch is unfinished, which has them among its
    /// attempts. It takes no memory.
    pub fn carried(&self) -> usize
        ensures same { result ≡ length self.now.core.carried }
        // Each of them was a transaction.
        ensures few { result ≤ self.now.core.next }
        ensures held { is_busy self.now.core ≡ true → self.now.core.carried ≡ [] }
    {
        self.core.carried()
    }

    /// How often a stale request is tried again: 0 to 2.
    pub fn retries(&self) -> u8
        ensures same { result ≡ self.now.core.retries }
        ensures few { self.now.core.retries ≤ 2 }
    {
        self.core.retries()
    }

    // rule: call.serial
    /// Runs a batch on worker threads and on the calling one. Where the gate is open the calling thread runs brief
    /// calls itself, whatever jobs are out, and long ones while no job is out and handing over doesn't pay. None of
    /// these passes the gate. Every other call is a job that goes over lanes, to a worker or back to the calling
    /// thread. Who claims a job passes the gate once for it, before it runs it.
    ///
    /// The carried requests come before the batch's calls, and an empty batch runs them alone. The replies are those
    /// of their entries one by one on the rows before it, and the rows afterwards are theirs. A stale request that was
    /// tried few enough times is carried to the next batch.
    pub fn execute<R: Threads + Wait + Sync, G: Gate>(
        &mut self,
        rt: &R,
        alloc: Global,
        batch: Batch,
        gate: &G,
    ) -> Result<BatchDone, ExecFault>
        requires { AreOver (tables_of self.old.core) (items_of batch) }
        ensures same { KeepsSetting self.old.core self.new.core }
        ensures done { IfOk result (IsExecutionOf self.old.core self.new.core (next_attempts self.old.core batch)) }
        // While an earlier batch is unfinished the batch comes back, and so it does where the log would be too long.
        ensures busy { is_busy self.old.core ≡ true → result ≡ Err (ExecFault.Busy batch) }
        ensures full { is_busy self.old.core ≡ false →
            2 ^ 48 < self.old.core.next + length (next_attempts self.old.core batch) →
            result ≡ Err (ExecFault.LogFull batch) }
        // No other batch comes back. Where a thread is refused nothing has run. Where a thread is refused or allocation
        // fails the engine holds the batch, and no job of it is out.
        ensures refused { IfErr result (IsRefusal self.old.core self.new.core batch) }
        ensures published { Publishes self.old self.new result }
    {
        self.take(batch)?;
        self.resume(rt, alloc, gate)
    }

    /// Goes on with the unfinished batch on worker threads, and gives the replies of the whole batch.
    pub fn resume<R: Threads + Wait + Sync, G: Gate>(
        &mut self,
        rt: &R,
        alloc: Global,
        gate: &G,
    ) -> Result<BatchDone, ExecFault>
        requires { is_busy self.old.core ≡ true }
        ensures same { KeepsSetting self.old.core self.new.core }
        ensures done { IfOk result (ResumesTo self.old.core self.new.core self.old.core.unfinished) }
        // Where a thread is refused or allocation fails again, no job is out, and what was settled before stays
        // settled.
        ensures refused { IfErr result (IsInterruption self.old.core self.old.core.unfinished self.new.core) }
        ensures published { Publishes self.old self.new result }
    {
        // proof: no job of the unfinished batch is out.
        self.core.observe();
        match Workplace::new(alloc, self.settings()) {
            Ok((place, head)) => resume_at(rt, alloc, self, &place, head, gate),
            Err(_) => Err(ExecFault::NoMemory),
        }
    }

    /// Takes a batch, or gives it back where it can't be taken.
    pub(crate) fn take(&mut self, batch: Batch) -> Result<(), ExecFault>
        requires { AreOver (tables_of self.old.core) (items_of batch) }
        ensures taken { OnOk result (self.new.core ≡ record self.old.core {
          carried = [];
          unfinished = Some (taken (next_attempts self.old.core batch));
        }) }
        ensures busy { is_busy self.old.core ≡ true → result ≡ Err (ExecFault.Busy batch) }
        ensures full { is_busy self.old.core ≡ false →
            2 ^ 48 < self.old.core.next + length (next_attempts self.old.core batch) →
            result ≡ Err (ExecFault.LogFull batch) }
        ensures refused { IfErr result (IsRefusal self.old.core self.new.core batch) }
        ensures back { IfErr result IsBack }
        ensures shown { ShowsSettled self.new }
        ensures unpublished { self.new.account ≡ self.old.account }
    {
        let _publisher = &self.publisher;
        self.core.take(batch)
    }

    /// A watcher that was told all that was published. A thread may take it, and watch while the engine runs. This may
    /// wait.
    pub fn watcher<R: Wait>(&mut self, rt: &R) -> Result<Watcher, NoMemory>
        ensures kept { self.new ≡ self.old }
        ensures told { IfOk result (λ watcher. watcher ≡ record {
          seen = self.old.account.published;
          place = self.old.account.place;
        }) }
        ensures shown { ShowsSettled self.new }
    {
        let Some(publisher) = &mut self.publisher else {
            unreachable!()
        };
        Ok(publisher.watcher(rt)?)
    }

    /// Tells a watcher of this engine all that was published. What the watcher has seen before is a beginning of that:
    /// so each tally that it read was published by this engine. It may wait.
    pub fn tell<R: Wait>(&mut self, rt: &R, watcher: &mut Watcher)
        requires place { watcher.old.place ≡ self.old.account.place }
        ensures kept { self.new ≡ self.old }
        ensures begins { StartsWith self.old.account.published watcher.old.seen }
        ensures told { watcher.new ≡ record {
          seen = self.old.account.published;
          place = self.old.account.place;
        } }
        ensures shown { ShowsSettled self.new }
    {
        let Some(publisher) = &mut self.publisher else {
            unreachable!()
        };
        publisher.tell(rt, watcher);
    }
}
