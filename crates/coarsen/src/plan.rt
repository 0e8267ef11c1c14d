//! Plans.

ghost use Rattle.std.specs.Prelude.{◌≡◌, ◌≤◌, ◌<◌, true, List, [], IfOk, length};
ghost use Rattle.std.specs.FinMap as map;
ghost use Rattle.catalogue.specs.Shapes.{TableShape};
ghost use Rattle.catalogue.specs.Rules.{IsCatalogue};
ghost use Rattle.footprint.specs.declared.resource.Resource.{Resource as AnyResource};
ghost use Rattle.proclang_types.specs.declared.right.Right.{Right as AnyRight};
ghost use Rattle.footprint.specs.Rights.{covers};
ghost use Rattle.footprint.specs.OfCatalogue.{IsFootprintOf};
ghost use Rattle.coarsen.specs.Subtrees.{covers_by_requests};
ghost use Rattle.coarsen.specs.Plans.{IsPlanOf, IsPlanFor, IsWellFormed, KeepsProtocol, IsPlanOver};

use crate::coarsening::{coarsened, on_database};
use crate::requests::requests_for;
use footprint::{Footprint, Resource};
use modes::Mode;
use std::alloc::Global;
use std::marker::Model;
use values::NoMemory;

/// A plan: the lock requests of a transaction. They are in tree order, each resource is there once, each request has
/// one on each ancestor whose mode serves it, and none asks for rights in a subtree where the plan asks for none.
#[derive(Drop)]
pub struct Plan {
    requests: Vec<(Resource, Mode)>,
}

impl Model for Plan {
    ghost use Rattle.coarsen.specs.Subtrees.{Requests};
    ghost use Rattle.coarsen.specs.Plans.{IsWellFormed};

    ghost Value = { Requests };

    ghost view = { λ p. p.requests.items };

    ghost invariant = { λ p. IsWellFormed p.requests.items };
}

impl Plan {
    // rule: lock.coarsened, lock.arena
    /// The plan for a footprint. The footprint is coarsened first: entries that an ancestor's entry covers are dropped,
    /// more than `threshold` rows of a partition become one entry on the partition, more than `threshold` partitions of
    /// a table one entry on the table, and if the plan has more than `arena` requests it becomes one on the database.
    /// `arena` is at least 1; `threshold` may be 0. A request on a resource has one of intention on each of its
    /// ancestors (Gray and others, 1975 and 1976). The only error is that allocation failed.
    pub fn new(
        alloc: Global,
        footprint: &Footprint,
        threshold: usize,
        arena: usize,
    ) -> Result<Plan, NoMemory>
        requires { 0 < arena }
        ensures exact { IfOk result (λ plan. IsPlanFor threshold arena footprint.now plan) }
        ensures covers { IfOk result (λ plan. (resource : AnyResource) (right : AnyRight) →
            covers footprint.now resource right ≡ true → covers_by_requests plan resource right ≡ true) }
        ensures size { IfOk result (λ plan. length plan ≤ arena) }
        ensures protocol { IfOk result (λ plan. KeepsProtocol plan) }
        ensures empty { IfOk result (λ plan. footprint.now ≡ map.empty → plan ≡ []) }
        // The requests are on resources of each catalogue that the footprint is of.
        ensures over { IfOk result (λ plan. (tables : List TableShape) → IsCatalogue tables →
            IsFootprintOf tables footprint.now → IsPlanOver tables plan) }
    {
        let made = coarsened(alloc, footprint, threshold)?;
        let coarse = made.as_ref().unwrap_or(footprint);
        let full = Plan::of(alloc, coarse)?;
        if full.requests().len() <= arena {
            return Ok(full);
        }
        let whole = on_database(alloc, coarse)?;
        let plan = Plan::of(alloc, &whole)?;
        Ok(plan)
    }

    /// The requests, in tree order: a resource's ancestors come before it.
    pub fn requests(&self) -> &[(Resource, Mode)]
        ensures same { result.now ≡ self.now }
        ensures sound { IsWellFormed self.now }
    {
        self.requests.as_slice()
    }

    /// The plan of a footprint as it is.
    fn of(alloc: Global, footprint: &Footprint) -> Result<Plan, NoMemory>
        ensures { IfOk result (λ plan. IsPlanOf footprint.now plan) }
    {
        let requests = requests_for(alloc, footprint)?;
        Ok(Plan { requests })
    }
}
