//! Plans of entries.

ghost use Rattle.std.specs.Prelude.{◌≡◌, ◌<◌, ◌≤◌, ◌+◌, ◌-◌, List, [], IfOk, OnOk, Some, length, slice_get};
ghost use Rattle.coarsen.specs.Subtrees.{Requests};
ghost use Rattle.interp.specs.Entries.{entry_shape};
ghost use Rattle.scheduler.specs.Logs.{IsPlanOfEntry};
ghost use Rattle.scheduler.specs.Scheduled.{AreMade, AreMadeFor};

use coarsen::{Plan, plan_is_one};
use footprint::Footprint;
use interp::Entry;
use std::alloc::Global;
use std::collections::VecDeque;
use values::NoMemory;

/// The plan of an entry, coarsened above `threshold`, with at most `arena` requests. An entry whose declaration faults
/// asks for nothing.
pub fn plan_of(
    alloc: Global,
    entry: &Entry,
    threshold: usize,
    arena: usize,
) -> Result<Plan, NoMemory>
    requires { 0 < arena }
    ensures { IfOk result (λ plan. IsPlanOfEntry threshold arena (entry_shape entry.now) plan) }
{
    match entry.footprint() {
        Some(footprint) => Plan::new(alloc, footprint, threshold, arena),
        None => Plan::new(alloc, &Footprint::new(alloc), threshold, arena),
    }
}

/// The plans of neighbouring entries of a log. A plan is made when a transaction is admitted that must wait, or that
/// others may wait for, and not before; it is dropped once that transaction and all before it are settled.
#[derive(Drop)]
pub(crate) struct Plans {
    // The place of the first.
    from: usize,
    made: VecDeque<Plan>,
}

impl Plans {
    /// None.
    pub(crate) fn new(alloc: Global) -> Plans
        ensures from { result.from ≡ 0 }
        ensures none { result.made.items ≡ [] }
    {
        Plans {
            from: 0,
            made: VecDeque::new(alloc),
        }
    }

    /// The plan at a place of which it is made.
    pub(crate) fn at(&self, place: usize) -> &Plan
        requires begun { self.now.from ≤ place }
        requires made { place < self.now.from + length self.now.made.items }
        ensures { slice_get self.now.made.items (place - self.now.from) ≡ Some result.now }
    {
        &self.made[place - self.from]
    }

    /// Drops the plans of the `settled` leading transactions, which nothing needs any more. If these are all that are
    /// admitted, and no later plan is made, the next one to be made is that of the next transaction, at `place`.
    fn drop_settled(&mut self, settled: usize, place: usize)
        requires begun { self.old.from ≤ settled }
        requires settled { settled ≤ place }
        ensures { (plans : List Requests) → AreMade plans settled place self.old.from self.old.made.items →
            AreMade plans settled place self.new.from self.new.made.items }
    {
        while self.from < settled {
            let Some(_plan) = self.made.pop_front() else {
                break;
            };
            self.from += 1;
        }
        if settled == place && self.made.is_empty() {
            self.from = place;
        }
    }

    /// Makes the plans of the next transaction to be admitted, at a place of the log, and of the one after it, if there
    /// is one, where that was not done before; `settled` leading ones are settled. Those of others that may be needed
    /// stay, on an error, too.
    pub(crate) fn make_next(
        &mut self,
        alloc: Global,
        entries: &[Entry],
        threshold: usize,
        arena: usize,
        settled: usize,
        place: usize,
    ) -> Result<(), NoMemory>
        requires room { 0 < arena }
        requires within { place < length entries.now }
        requires settled { settled ≤ place }
        requires made { AreMadeFor threshold arena entries.now settled place self.old }
        ensures made { AreMadeFor threshold arena entries.now settled place self.new }
        ensures next { OnOk result (AreMadeFor threshold arena entries.now settled (place + 1) self.new) }
    {
        // proof: a footprint has one plan.
        plan_is_one();
        self.drop_settled(settled, place);
        while self.made.len() <= place + 1 - self.from {
            let Some(entry) = entries.get(self.from + self.made.len()) else {
                return Ok(());
            };
            self.made
                .push_back(plan_of(alloc, entry, threshold, arena)?)?;
        }
        Ok(())
    }

    /// Makes the plan of the transaction after one that is run and settled at once, at a place of the log, if one that
    /// is admitted isn't settled; `settled` leading ones are. Those that may be needed stay, on an error, too.
    pub(crate) fn make_beside(
        &mut self,
        alloc: Global,
        entries: &[Entry],
        threshold: usize,
        arena: usize,
        settled: usize,
        place: usize,
    ) -> Result<(), NoMemory>
        requires room { 0 < arena }
        requires within { place < length entries.now }
        requires settled { settled ≤ place }
        requires made { AreMadeFor threshold arena entries.now settled place self.old }
        ensures made { AreMadeFor threshold arena entries.now settled place self.new }
        ensures next { OnOk result (settled < place →
            AreMadeFor threshold arena entries.now settled (place + 1) self.new) }
    {
        if settled < place {
            return self.make_next(alloc, entries, threshold, arena, settled, place);
        }
        Ok(())
    }
}
