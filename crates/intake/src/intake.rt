//! The intake: making it, submitting and drawing.

ghost use Rattle.std.specs.Prelude.{◌≡◌, ◌+◌, ◌<◌, ◌≤◌, ◌^◌, ◌++◌, ◌∷◌, [], length, vec_len, IfOk, IfErr, OnErr};
ghost use Rattle.crossbeam_queue.specs.Fifo.{Held};
ghost use Rattle.intake.specs.Rule.{IsAccounted, IsWhole};
ghost use Rattle.intake.specs.Passes.{MaySubmit, IsClientOf, IsDrawerOf, AreNewClients, capacity_of, client_of, sent_by, spare_of, known_by, drawn_by, held_by};

use crate::passes::{ClientPass, DrawPass, Full};
use crate::rule::{CutDrawing, CutFirst, Draws, InOrder, Submits};
use crate::view::View;
use batch_items::{Batched, Item};
use crossbeam_queue::RuledArrayQueue;
use std::alloc::{AllocError, Global};
use std::sync::Wait;

/// The most requests that are drawn at once.
pub const MOST_DRAWN: usize = 4096;

/// A bounded queue of requests, of several clients and of one owner that draws. It may be shared by threads.
#[derive(Drop)]
pub struct Intake<Q> {
    pub(crate) queue: RuledArrayQueue<Item<Q>, View<Q>, InOrder>,
    alloc: Global,
}

impl<Q> Intake<Q> {
    /// An intake of 1 to 4 clients, whose queue takes `capacity` requests, at least 1, and the passes: of the clients
    /// in the order of their numbers, from 1, and of the owner. The only error is that allocation failed.
    pub fn new(
        alloc: Global,
        clients: u8,
        capacity: usize,
    ) -> Result<(Intake<Q>, Vec<ClientPass<Q>>, DrawPass<Q>), AllocError>
        requires clients { (0 < clients) × (clients ≤ 4) }
        requires capacity { 0 < capacity }
        ensures capacity { IfOk result (λ r. capacity_of r.0 ≡ capacity) }
        ensures clients { IfOk result (λ r. (vec_len r.1 ≡ clients) × AreNewClients r.0 clients r.1.items) }
        ensures drawer { IfOk result (λ r. IsDrawerOf r.0 r.2 × (drawn_by r.2 ≡ []) × (held_by r.2 ≡ [])) }
    {
        let mut passes = Vec::with_capacity(alloc, clients as usize)?;
        let (queue, mut whole) = RuledArrayQueue::ruled(alloc, capacity)?;
        let intake = Intake { queue, alloc };
        let drawer = intake.queue.another::<CutDrawing>(&mut whole);
        for client in 1..clients {
            let pass = intake.queue.another::<CutFirst>(&mut whole);
            passes.push_reserved(ClientPass {
                pass,
                client,
                sent: 0,
            });
        }
        passes.push_reserved(ClientPass {
            pass: whole,
            client: clients,
            sent: 0,
        });
        Ok((intake, passes, DrawPass { pass: drawer }))
    }

    /// Submits a request of the pass's client, and gives its number among the client's, from 0. The request comes back
    /// only where the queue was full at some step of this call, and then nothing was submitted. It may wait.
    pub fn submit<R: Wait>(
        &self,
        rt: &R,
        pass: &mut ClientPass<Q>,
        request: Q,
    ) -> Result<u64, Full<Q>>
        requires pass { MaySubmit self.now pass.old }
        requires room { length (sent_by pass.old) < 2 ^ 48 }
        ensures pass { MaySubmit self.now pass.new × (client_of pass.new ≡ client_of pass.old) ×
            (spare_of pass.new ≡ spare_of pass.old) }
        ensures client { IsClientOf self.now pass.old → IsClientOf self.now pass.new }
        ensures sent { IfOk result (λ n. (n ≡ length (sent_by pass.old)) ×
            (sent_by pass.new ≡ sent_by pass.old ++ request ∷ [])) }
        // A pass learns of the queue what it knows itself. The clause is of each pass that submits, one that has all
        // histories and draws among them; which one it is doesn't show, so a request comes back from a full queue
        // alone.
        ensures full { IfErr result (λ e. (e.0 ≡ request) × (sent_by pass.new ≡ sent_by pass.old) ×
            Held (capacity_of self.now) (IsAccounted (known_by pass.old))) }
    {
        let number = pass.sent;
        let item = Item {
            client: pass.client,
            number,
            request,
        };
        match self.queue.push_as::<Submits, R>(rt, &mut pass.pass, item) {
            Ok(()) => {
                pass.sent += 1;
                Ok(number)
            }
            Err(item) => Err(Full(item.request)),
        }
    }

    /// Draws requests in the queue's order, as a batch: at most `max` and 4,096, and fewer only where a step found the
    /// queue empty. Room for them is made first; if allocation fails, nothing is drawn. It may wait.
    pub fn draw<R: Wait, B: Batched<Q>>(
        &self,
        rt: &R,
        pass: &mut DrawPass<Q>,
        max: usize,
    ) -> Result<B, AllocError>
        requires { IsDrawerOf self.now pass.old }
        ensures pass { IsDrawerOf self.now pass.new × (held_by pass.new ≡ held_by pass.old) }
        ensures drawn { IfOk result (λ batch. drawn_by pass.new ≡ drawn_by pass.old ++ B.items_of batch) }
        ensures most { IfOk result (λ batch. (length (B.items_of batch) ≤ max) × (length (B.items_of batch) ≤ 4096)) }
        // Where a step found the queue empty, every request of the clients whose histories the pass holds was drawn,
        // and none of a stranger.
        ensures short { IfOk result (λ batch. length (B.items_of batch) < max → length (B.items_of batch) < 4096 →
            IsWhole (drawn_by pass.new) (held_by pass.old)) }
        ensures err { OnErr result (drawn_by pass.new ≡ drawn_by pass.old) }
    {
        let items = self.draw_items(rt, pass, max)?;
        Ok(B::of_items(items))
    }

    /// Draws requests as `draw` does, as items.
    pub(crate) fn draw_items<R: Wait>(
        &self,
        rt: &R,
        pass: &mut DrawPass<Q>,
        max: usize,
    ) -> Result<Vec<Item<Q>>, AllocError>
        requires { IsDrawerOf self.now pass.old }
        ensures pass { IsDrawerOf self.now pass.new × (held_by pass.new ≡ held_by pass.old) }
        ensures drawn { IfOk result (λ items. drawn_by pass.new ≡ drawn_by pass.old ++ items.items) }
        ensures most { IfOk result (λ items. (vec_len items ≤ max) × (vec_len items ≤ 4096)) }
        ensures short { IfOk result (λ items. vec_len items < max → vec_len items < 4096 →
            IsWhole (drawn_by pass.new) (held_by pass.old)) }
        ensures err { OnErr result (drawn_by pass.new ≡ drawn_by pass.old) }
    {
        let most = if max < MOST_DRAWN { max } else { MOST_DRAWN };
        let mut items = Vec::with_capacity(self.alloc, most)?;
        for _ in 0..most {
            match self.queue.pop_as::<Draws, R>(rt, &mut pass.pass) {
                Some(item) => items.push_reserved(item),
                None => return Ok(items),
            }
        }
        Ok(items)
    }
}
