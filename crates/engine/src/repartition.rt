//! Tables that are split anew between batches.

ghost use Rattle.std.specs.Prelude.{◌≡◌, ◌↔◌, IfOk, OnOk, OnErr, Ok, Err, false, true, map};
ghost use Rattle.std.specs.List.{AllByRecursion};
ghost use Rattle.catalogue.specs.Schemas.{HaveSameSchema};
ghost use Rattle.engine.specs.Batches.{moved_over, over_tables};
ghost use Rattle.engine.specs.Engines.{tables_of, is_busy};
ghost use Rattle.engine.specs.declared.repartition.RepartFault.TheVariants as faults;

use crate::engine::Engine;
use crate::quiet::QuietEngine;
use crate::stage::Stage;
use catalogue::Catalogue;
use sequencer::Carried;
use std::alloc::Global;
use thiserror::Error;
use values::NoMemory;

/// Why tables were not split anew.
#[derive(Clone, Copy, Debug, PartialEq, Eq, Error)]
pub enum RepartFault {
    /// A batch is unfinished.
    #[error("a batch is unfinished: resume it first")]
    Busy,
    /// Tables or columns differ from the engine's in name, type or order.
    #[error("the tables or their columns are not the engine's")]
    Different,
    /// An allocation failed.
    #[error("out of memory")]
    NoMemory,
}

impl From<NoMemory> for RepartFault {
    ghost from_gives = { λ _ e. e ≡ faults.NoMemory };

    fn from(_error: NoMemory) -> RepartFault {
        RepartFault::NoMemory
    }
}

/// The carried requests over another catalogue with the same tables and columns in the same order.
fn moved(
    alloc: Global,
    carried: &[Carried],
    catalogue: &Catalogue,
) -> Result<Vec<Carried>, NoMemory>
    requires { AllByRecursion (λ one. HaveSameSchema one.request.proc.tables catalogue.now) carried.now }
    ensures { IfOk result (λ moved. moved.items ≡ map (over_tables catalogue.now) carried.now) }
{
    let mut moved = Vec::with_capacity(alloc, carried.len())?;
    for one in carried {
        let request = one.request.clone()?.over(catalogue.clone()?);
        moved.push(Carried {
            client: one.client,
            number: one.number,
            request,
            first: one.first,
            tries: one.tries,
        })?;
    }
    Ok(moved)
}

impl QuietEngine {
    /// Splits the tables anew, as `Engine::repartition` says.
    pub(crate) fn repartition(
        &mut self,
        alloc: Global,
        catalogue: &Catalogue,
    ) -> Result<(), RepartFault>
        ensures done { OnOk result (self.new ≡ moved_over catalogue.now self.old) }
        ensures same { OnOk result (HaveSameSchema (tables_of self.old) catalogue.now) }
        ensures busy { (result ≡ Err RepartFault.Busy) ↔ (is_busy self.old ≡ true) }
        ensures different { is_busy self.old ≡ false →
            (result ≡ Err RepartFault.Different) ↔ ¬ HaveSameSchema (tables_of self.old) catalogue.now }
        ensures err { OnErr result (self.new ≡ self.old) }
    {
        let Some(Stage::Idle(store, carried)) = &self.stage else {
            return Err(RepartFault::Busy);
        };
        if !store.catalogue().has_same_schema(catalogue) {
            return Err(RepartFault::Different);
        }
        let carried = moved(alloc, carried.as_slice(), catalogue)?;
        let procs = self.configuration.procs.rebuild(alloc, catalogue)?;
        let store = store.rebuild(catalogue)?;
        self.configuration.procs = procs;
        self.stage = Some(Stage::Idle(store, carried));
        Ok(())
    }
}

impl Engine {
    /// Splits the tables anew, as a catalogue says that has the same tables and columns in the same order. The rows,
    /// the settings, the number of the next transaction and what watchers are told stay as they are; the engine's
    /// tables, those of its procedures and of the carried requests too, are the new catalogue's from then on. An `Err`
    /// changes nothing. Each row is visited once and shared.
    ///
    /// A request that was made before, and isn't carried, is over the old tables; `Request::over` brings it over to the
    /// new ones.
    pub fn repartition(&mut self, alloc: Global, catalogue: &Catalogue) -> Result<(), RepartFault>
        ensures done { OnOk result (self.new ≡ record self.old { core = moved_over catalogue.now self.old.core }) }
        ensures same { OnOk result (HaveSameSchema (tables_of self.old.core) catalogue.now) }
        // While a batch is unfinished nothing is done.
        ensures busy { (result ≡ Err RepartFault.Busy) ↔ (is_busy self.old.core ≡ true) }
        ensures different { is_busy self.old.core ≡ false →
            (result ≡ Err RepartFault.Different) ↔ ¬ HaveSameSchema (tables_of self.old.core) catalogue.now }
        ensures err { OnErr result (self.new ≡ self.old) }
    {
        let _publisher = &self.publisher;
        self.core.repartition(alloc, catalogue)
    }
}
