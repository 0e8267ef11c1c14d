//! Draining: all that the clients have submitted is drawn.

ghost use Rattle.std.specs.Prelude.{◌≡◌, ◌<◌, ◌≤◌, ◌++◌, ◌∷◌, List, map, vec_len, vec_capacity, OnOk};
ghost use Rattle.crossbeam_queue.specs.Passes.{IsPassOf};
ghost use Rattle.crossbeam_queue.specs.Passes.{view as known};
ghost use Rattle.intake.specs.Histories.{HasAll, without_first, only_first, joined, first_of, rest_of};
ghost use Rattle.intake.specs.Rule.{IsWhole};
ghost use Rattle.intake.specs.Passes.{IsClientOf, IsDrawerOf, AreClientsOf, histories_of, own_history, drawn_by, held_by};
ghost use Rattle.intake.specs.Draining.{all_items, AreBatches, Appends, IsLentBy, IsBackWith};

use crate::intake::{Intake, MOST_DRAWN};
use crate::passes::{ClientPass, DrawPass};
use crate::rule::{CutFirst, Draws, TakeIn};
use crate::view::View;
use batch_items::{Batched, Item};
use crossbeam_queue::Pass;
use std::alloc::AllocError;
use std::sync::Wait;

impl<Q> Intake<Q> {
    // The client's history goes to the pass that draws.
    fn lend(&self, client: &mut ClientPass<Q>, pass: &mut DrawPass<Q>)
        requires client { IsClientOf self.now client.old }
        requires drawer { IsDrawerOf self.now pass.old }
        ensures client { IsLentBy self.now client.old client.new }
        ensures drawer { IsDrawerOf self.now pass.new × (held_by pass.new ≡ own_history client.old ∷ held_by pass.old) ×
            (drawn_by pass.new ≡ drawn_by pass.old) }
    {
        self.hand(&mut client.pass, &mut pass.pass);
    }

    // The first history of the pass that draws goes back to its client.
    fn give_back(&self, client: &mut ClientPass<Q>, pass: &mut DrawPass<Q>)
        requires client { IsPassOf self.now.queue client.old.pass }
        requires drawer { IsDrawerOf self.now pass.old }
        ensures client { IsBackWith self.now (first_of (held_by pass.old)) client.old client.new }
        ensures drawer { IsDrawerOf self.now pass.new × (held_by pass.new ≡ rest_of (held_by pass.old)) ×
            (drawn_by pass.new ≡ drawn_by pass.old) }
    {
        self.hand(&mut pass.pass, &mut client.pass);
    }

    /// A client retires: it submits no more, and the owner's pass takes in what its pass knows.
    pub fn retire(&self, pass: &mut DrawPass<Q>, client: ClientPass<Q>)
        requires drawer { IsDrawerOf self.now pass.old }
        requires client { IsClientOf self.now client }
        ensures drawer { IsDrawerOf self.now pass.new }
        ensures held { held_by pass.new ≡ histories_of client ++ held_by pass.old }
        ensures drawn { drawn_by pass.new ≡ drawn_by pass.old }
    {
        let ClientPass { pass: retired, .. } = client;
        self.queue.absorb::<TakeIn>(&mut pass.pass, retired);
    }

    // The first history goes over.
    fn hand(&self, from: &mut Pass<Item<Q>, View<Q>>, to: &mut Pass<Item<Q>, View<Q>>)
        requires from { IsPassOf self.now.queue from.old }
        requires to { IsPassOf self.now.queue to.old }
        ensures from { IsPassOf self.now.queue from.new × (known from.new ≡ without_first (known from.old)) }
        ensures to { IsPassOf self.now.queue to.new ×
            (known to.new ≡ joined (known to.old) (only_first (known from.old))) }
    {
        let first = self.queue.another::<CutFirst>(from);
        self.queue.absorb::<TakeIn>(to, first);
    }
}

impl<Q: Drop> Intake<Q> {
    // Draws until the queue is found empty.
    fn draw_all<R: Wait, B: Batched<Q>>(
        &self,
        rt: &R,
        pass: &mut DrawPass<Q>,
        into: &mut Vec<B>,
    ) -> Result<(), AllocError>
        requires { IsDrawerOf self.now pass.old }
        ensures pass { IsDrawerOf self.now pass.new × (held_by pass.new ≡ held_by pass.old) }
        ensures drawn { Appends B.items_of into.old.items into.new.items (drawn_by pass.old) (drawn_by pass.new) }
        ensures all { OnOk result (IsWhole (drawn_by pass.new) (held_by pass.old)) }
    {
        for _ in rt.forever() {
            into.reserve(1)?;
            let items = self.draw_items(rt, pass, MOST_DRAWN)?;
            let done = items.len() < MOST_DRAWN;
            keep(into, items);
            if done {
                return Ok(());
            }
        }
        unreachable!()
    }

    /// Draws until a step finds the queue empty, while the passes of these clients are at hand, and appends the batches
    /// that are not empty, each of at most 4,096. After `Ok` all was drawn that these clients ever submitted, and those
    /// who have retired. If allocation fails, what was drawn is in the list. It may wait.
    pub fn drain<R: Wait, B: Batched<Q>>(
        &self,
        rt: &R,
        pass: &mut DrawPass<Q>,
        clients: &mut [ClientPass<Q>],
        into: &mut Vec<B>,
    ) -> Result<(), AllocError>
        requires drawer { IsDrawerOf self.now pass.old }
        requires clients { AreClientsOf self.now clients.old }
        ensures drawer { IsDrawerOf self.now pass.new × (held_by pass.new ≡ held_by pass.old) }
        ensures clients { AreClientsOf self.now clients.new ×
            (map histories_of clients.new ≡ map histories_of clients.old) }
        ensures drawn { Appends B.items_of into.old.items into.new.items (drawn_by pass.old) (drawn_by pass.new) }
        ensures all { OnOk result (HasAll (drawn_by pass.new) (map own_history clients.old) ×
            IsWhole (drawn_by pass.new) (held_by pass.old)) }
    {
        match clients.split_first_mut() {
            None => self.draw_all(rt, pass, into),
            Some((first, rest)) => {
                self.lend(first, pass);
                let result = self.drain(rt, pass, rest, into);
                self.give_back(first, pass);
                result
            }
        }
    }
}

impl<Q: Drop> Intake<Q> {
    /// Draws and lets go what is left, until a step finds the queue empty: then all was drawn that the clients who have
    /// retired ever submitted. It takes no memory. It may wait.
    pub fn discard<R: Wait>(&self, rt: &R, pass: &mut DrawPass<Q>)
        requires { IsDrawerOf self.now pass.old }
        ensures pass { IsDrawerOf self.now pass.new × (held_by pass.new ≡ held_by pass.old) }
        ensures drawn { (more : List (Item Q)) × (drawn_by pass.new ≡ drawn_by pass.old ++ more) }
        ensures all { IsWhole (drawn_by pass.new) (held_by pass.old) }
    {
        for _ in rt.forever() {
            let Some(_item) = self.queue.pop_as::<Draws, R>(rt, &mut pass.pass) else {
                return;
            };
        }
        unreachable!()
    }
}

// Appends the items as a batch, if there are any.
fn keep<Q: Drop, B: Batched<Q>>(into: &mut Vec<B>, items: Vec<Item<Q>>)
    requires room { vec_len into.old < vec_capacity into.old }
    requires most { vec_len items ≤ 4096 }
    ensures { (more : List B) × (into.new.items ≡ into.old.items ++ more) ×
        (all_items B.items_of more ≡ items.items) × AreBatches B.items_of more }
{
    if items.is_empty() {
        return;
    }
    into.push_reserved(B::of_items(items));
}
