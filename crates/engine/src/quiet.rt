//! An engine that publishes nothing: the core of each engine.

ghost use Rattle.std.specs.Prelude.{◌≡◌, ◌+◌, ◌<◌, ◌≤◌, ◌^◌, ◌↔◌, [], IfOk, IfErr, OnOk, Ok, Err, Some, None, IsTrue, length, false, true};
ghost use Rattle.std.specs.FinMap as map_of;
ghost use Rattle.row_store.specs.Stock.{with_rows};
ghost use Rattle.sequencer.specs.Batches.{items_of, AreOver};
ghost use Rattle.dispatcher.specs.Listeners.{HearsOn};
ghost use Rattle.engine.specs.Stages.{IsHeard, HasHeard};

use crate::configuration::Configuration;
use crate::fault::ExecFault;
use crate::replies::BatchDone;
use crate::stage::Stage;
use crate::working::{conclude, work_alone, work_in_pool};
use dispatcher::{Gate, Listener, Settings, Silence, WorkerPool};
use requests::{Procs, Setup};
use row_store::RowStore;
use sequencer::{Attempts, Batch};
use std::alloc::Global;
use std::marker::Model;
use std::sync::Wait;
use values::NoMemory;

/// The most transactions that a log has.
const MOST_TRANSACTIONS: u64 = 1 << 48;

/// Executes batches of calls, one after another, on the rows of a database, on the thread that calls it, as
/// `Engine::run_alone` does. It publishes nothing and has no watchers, and so it never waits.
#[derive(Drop)]
pub struct QuietEngine {
    pub(crate) configuration: Configuration,
    // How many transactions were run in the batches that ended: the number of the next one.
    pub(crate) next: u64,
    // It is always there but inside a call that moves it.
    pub(crate) stage: Option<Stage>,
}

impl Model for QuietEngine {
    ghost use Rattle.std.specs.Prelude.{◌≤◌};
    ghost use Rattle.engine.specs.Engines.{EngineParts, engine_code};
    ghost use Rattle.engine.specs.Stages.{carried_in, unfinished_in, rows_in, IsSoundStage};

    ghost Value = { EngineParts };

    ghost coded = { engine_code };

    ghost view = { λ e. record {
      procs = e.configuration.procs;
      settings = e.configuration.settings;
      retries = e.configuration.retries;
      next = e.next;
      rows = rows_in e.stage;
      carried = carried_in e.stage;
      unfinished = unfinished_in e.stage;
    } };

    ghost invariant = { λ e.
        IsSoundStage e.configuration.procs.tables e.next e.stage × (e.configuration.retries ≤ 2) };
}

/// Whether a log of that many transactions has room for what is carried and a batch's own calls.
fn has_room(transactions: u64, carried: usize, own: usize) -> bool
    requires { transactions ≤ 2 ^ 48 }
    ensures { IsTrue result ↔ (transactions + (carried + own) ≤ 2 ^ 48) }
{
    let room = MOST_TRANSACTIONS - transactions;
    carried as u64 <= room && own as u64 <= room - carried as u64
}

impl QuietEngine {
    ghost use Rattle.engine.specs.Batches.{next_attempts};
    ghost use Rattle.engine.specs.Engines.{tables_of, is_busy};
    ghost use Rattle.engine.specs.Executions.{taken, IsExecutionOf, IsRefusal, IsInterruption, IsSpawn, KeepsSetting, ResumesTo, IsBack, WaitsIn};

    /// An engine on the starting rows of a setup.
    pub fn new(alloc: Global, setup: Setup, settings: Settings) -> Result<QuietEngine, NoMemory>
        ensures { IfOk result (λ engine.
            engine ≡ record {
              procs = setup.procs;
              settings = settings;
              retries = setup.retries;
              next = 0;
              rows = with_rows map_of.empty
                  setup.rows.items;
              carried = [];
              unfinished = None;
            }) }
    {
        let Setup {
            catalogue,
            procs,
            rows,
            retries,
        } = setup;
        let store = RowStore::new(alloc, &catalogue, rows)?;
        Ok(QuietEngine {
            configuration: Configuration {
                procs,
                settings,
                retries,
            },
            next: 0,
            stage: Some(Stage::Idle(store, Vec::new(alloc))),
        })
    }

    /// Whether a batch is unfinished.
    pub fn is_busy(&self) -> bool
        ensures { result ≡ is_busy self.now }
    {
        !matches!(self.stage, Some(Stage::Idle(_, _)))
    }

    /// How many transactions were run in the batches that ended: the number of the next one.
    pub fn transactions(&self) -> u64
        ensures { result ≡ self.now.next }
    {
        self.next
    }

    /// The procedures.
    pub fn procs(&self) -> &Procs
        ensures { result.now ≡ self.now.procs }
    {
        &self.configuration.procs
    }

    /// The rows, where no batch is unfinished.
    pub fn rows(&self) -> &RowStore
        requires { is_busy self.now ≡ false }
        ensures tables { result.now.tables ≡ tables_of self.now }
        ensures rows { result.now.rows ≡ self.now.rows }
        ensures unlent { result.now.lent ≡ map_of.empty }
    {
        match &self.stage {
            Some(Stage::Idle(store, _)) => store,
            _ => unreachable!(),
        }
    }

    /// The settings that it was made with.
    pub fn settings(&self) -> Settings
        ensures { result ≡ self.now.settings }
    {
        self.configuration.settings
    }

    /// How many requests are carried to the next batch; 0 while a batch is unfinished, which has them among its
    /// attempts. It takes no memory.
    pub fn carried(&self) -> usize
        ensures same { result ≡ length self.now.carried }
        // Each of them was a transaction.
        ensures few { result ≤ self.now.next }
        ensures held { is_busy self.now ≡ true → self.now.carried ≡ [] }
    {
        match &self.stage {
            Some(Stage::Idle(_, carried)) => carried.len(),
            _ => 0,
        }
    }

    /// How often a stale request is tried again: 0 to 2.
    pub fn retries(&self) -> u8
        ensures same { result ≡ self.now.retries }
        ensures few { self.now.retries ≤ 2 }
    {
        self.configuration.retries
    }

    /// Does nothing. Between two calls no job of an unfinished batch is out, and nothing is carried beside it.
    pub(crate) fn observe(&self)
        ensures waits { is_busy self.now ≡ true → WaitsIn self.now.unfinished self.now.unfinished }
        ensures carried { is_busy self.now ≡ true → self.now.carried ≡ [] }
    {
        let _stage = &self.stage;
    }

    /// Takes a batch, of which nothing has begun.
    fn hold(&mut self, batch: Batch)
        requires idle { is_busy self.old ≡ false }
        requires over { AreOver (tables_of self.old) (items_of batch) }
        requires room { self.old.next + length (next_attempts self.old batch) ≤ 2 ^ 48 }
        ensures { self.new ≡ record self.old {
          carried = [];
          unfinished = Some (taken (next_attempts self.old batch));
        } }
    {
        let Some(Stage::Idle(store, carried)) = self.stage.take() else {
            unreachable!()
        };
        self.stage = Some(Stage::Held(Attempts::of(carried, batch), store));
    }

    /// Takes a batch, or gives it back where it can't be taken.
    pub(crate) fn take(&mut self, batch: Batch) -> Result<(), ExecFault>
        requires { AreOver (tables_of self.old) (items_of batch) }
        ensures taken { OnOk result (self.new ≡ record self.old {
          carried = [];
          unfinished = Some (taken (next_attempts self.old batch));
        }) }
        ensures busy { is_busy self.old ≡ true → result ≡ Err (ExecFault.Busy batch) }
        ensures full { is_busy self.old ≡ false → 2 ^ 48 < self.old.next + length (next_attempts self.old batch) →
            result ≡ Err (ExecFault.LogFull batch) }
        ensures refused { IfErr result (IsRefusal self.old self.new batch) }
        ensures back { IfErr result IsBack }
    {
        if self.is_busy() {
            return Err(ExecFault::Busy(batch));
        }
        if !has_room(self.next, self.carried(), batch.items().len()) {
            return Err(ExecFault::LogFull(batch));
        }
        self.hold(batch);
        Ok(())
    }

    /// Goes on with the unfinished batch on this thread, by these choices of events, and gives the replies of the whole
    /// batch. The listener hears of each transaction as it is settled; this waits only where the listener does.
    pub(crate) fn resume_alone<L: Listener>(
        &mut self,
        alloc: Global,
        listener: &mut L,
        choices: &[u64],
    ) -> Result<BatchDone, ExecFault>
        requires busy { is_busy self.old ≡ true }
        requires told { IsHeard self.old.next self.old.unfinished self.old.rows (L.account listener.old) }
        ensures same { KeepsSetting self.old self.new }
        ensures done { IfOk result (ResumesTo self.old self.new self.old.unfinished) }
        ensures refused { IfErr result (IsInterruption self.old self.old.unfinished self.new) }
        ensures threadless { IfErr result (λ fault. ¬ IsSpawn fault) }
        ensures told { HasHeard self.new result (L.account listener.new) }
        ensures onward { HearsOn (L.account listener.old) (L.account listener.new) }
    {
        let Some(stage) = self.stage.take() else {
            unreachable!()
        };
        let ended = work_alone(
            alloc,
            &self.configuration,
            self.next,
            stage,
            listener,
            choices,
        );
        conclude(&mut self.next, &mut self.stage, ended)
    }

    /// Goes on with the unfinished batch on the workers of a pool, and gives the replies of the whole batch. The
    /// listener hears of each transaction as it is settled.
    pub(crate) fn resume_in<'s, E, R: Wait + Sync, G: Gate, L: Listener>(
        &mut self,
        alloc: Global,
        listener: &mut L,
        pool: &mut WorkerPool<'s, E, R, G>,
    ) -> Result<BatchDone, ExecFault>
        requires busy { is_busy self.old ≡ true }
        requires told { IsHeard self.old.next self.old.unfinished self.old.rows (L.account listener.old) }
        ensures same { KeepsSetting self.old self.new }
        ensures done { IfOk result (ResumesTo self.old self.new self.old.unfinished) }
        ensures refused { IfErr result (IsInterruption self.old self.old.unfinished self.new) }
        ensures told { HasHeard self.new result (L.account listener.new) }
        ensures onward { HearsOn (L.account listener.old) (L.account listener.new) }
    {
        let Some(stage) = self.stage.take() else {
            unreachable!()
        };
        let ended = work_in_pool(alloc, &self.configuration, self.next, stage, listener, pool);
        conclude(&mut self.next, &mut self.stage, ended)
    }

    /// Runs a batch. The carried requests come before its calls, and an empty batch runs them alone. The replies are
    /// those of their entries one by one on the rows before the batch, and the rows afterwards are theirs. A stale
    /// request that was tried few enough times is carried to the next batch.
    pub fn execute(&mut self, alloc: Global, batch: Batch) -> Result<BatchDone, ExecFault>
        requires { AreOver (tables_of self.old) (items_of batch) }
        ensures same { KeepsSetting self.old self.new }
        ensures done { IfOk result (IsExecutionOf self.old self.new (next_attempts self.old batch)) }
        // While an earlier batch is unfinished the batch comes back, and so it does where the log would be too long.
        ensures busy { is_busy self.old ≡ true → result ≡ Err (ExecFault.Busy batch) }
        ensures full { is_busy self.old ≡ false → 2 ^ 48 < self.old.next + length (next_attempts self.old batch) →
            result ≡ Err (ExecFault.LogFull batch) }
        // No other batch comes back. If allocation fails the engine holds the batch, and no job of it is out.
        ensures refused { IfErr result (IsRefusal self.old self.new batch) }
        // It starts no thread.
        ensures threadless { IfErr result (λ fault. ¬ IsSpawn fault) }
    {
        self.execute_by(alloc, batch, &[])
    }

    /// Runs a batch as `execute` does, by these choices of events: each step makes the event that `choose` gives for
    /// the next choice. Whatever the choices are, it returns, and the replies and the rows are the same: it has no
    /// leave to wait.
    pub fn execute_by(
        &mut self,
        alloc: Global,
        batch: Batch,
        choices: &[u64],
    ) -> Result<BatchDone, ExecFault>
        requires { AreOver (tables_of self.old) (items_of batch) }
        ensures same { KeepsSetting self.old self.new }
        ensures done { IfOk result (IsExecutionOf self.old self.new (next_attempts self.old batch)) }
        ensures busy { is_busy self.old ≡ true → result ≡ Err (ExecFault.Busy batch) }
        ensures full { is_busy self.old ≡ false → 2 ^ 48 < self.old.next + length (next_attempts self.old batch) →
            result ≡ Err (ExecFault.LogFull batch) }
        ensures refused { IfErr result (IsRefusal self.old self.new batch) }
        ensures threadless { IfErr result (λ fault. ¬ IsSpawn fault) }
    {
        self.take(batch)?;
        self.resume_alone(alloc, &mut Silence, choices)
    }

    /// Goes on with the unfinished batch, and gives the replies of the whole batch.
    pub fn resume(&mut self, alloc: Global) -> Result<BatchDone, ExecFault>
        requires { is_busy self.old ≡ true }
        ensures same { KeepsSetting self.old self.new }
        ensures done { IfOk result (ResumesTo self.old self.new self.old.unfinished) }
        // If allocation fails again, no job is out, and what was settled before stays settled.
        ensures refused { IfErr result (IsInterruption self.old self.old.unfinished self.new) }
        // It starts no thread.
        ensures threadless { IfErr result (λ fault. ¬ IsSpawn fault) }
    {
        self.resume_alone(alloc, &mut Silence, &[])
    }
}
