//! The making of lanes and of seats, and the calls at one lane. Each try is one compare-
//! exchange, and each hand-over one store.

ghost use Rattle.std.specs.Prelude.{◌≡◌, ◌≢◌, ℕ, ◌<◌, [], ◌∷◌, IfOk, IfErr, IfSome, IfNone, None, Some, slice_index_or};
ghost use Rattle.atomic_table.specs.Table.{rest};
ghost use Rattle.hand_off.specs.declared.state.LaneState.{LaneState};
ghost use Rattle.hand_off.specs.declared.state.LaneState.TheVariants.{Waiting, Finished};
ghost use Rattle.hand_off.specs.declared.view.Known.TheVariants as known;
ghost use Rattle.hand_off.specs.Views.{with_note, putting, collecting, claiming, delivering, opened, newcomer};
ghost use Rattle.hand_off.specs.Seats.{IsPut, Schedules, Works};
ghost use Rattle.hand_off.specs.Stands.{ShownAt, Stands};

use crate::plays::{Claiming, Clear, Deliver, Drain, Fill, Hire, Post};
use crate::state::{DRAINING, FILLING, FINISHED, IDLE, TAKEN, WAITING};
use crate::view::{LaneSeat, LaneTable, Lanes, Load, Work};
use atomic_table::Table;
use std::alloc::{AllocError, Allocator};

impl<J, D, W: Work<J, D>, A: Allocator + Clone> Lanes<J, D, W, A> {
    /// This many idle lanes, and the scheduler's seat.
    pub fn new(alloc: A, count: usize) -> Result<(Lanes<J, D, W, A>, LaneSeat<J, D>), AllocError>
        ensures lanes { IfOk result (λ l. (l.0.count ≡ count) × (l.1.table_id.words ≡ count)) }
        ensures seat { IfOk result (λ l. Schedules l.0 l.1 × (l.1.me.0 ≡ opened count)) }
    {
        let words = Vec::from_elem(alloc.clone()?, IDLE, count)?;
        let (table, seat) = Table::vacant(alloc, words.as_slice(), count, &count)?;
        Ok((LaneTable { table, count }, seat))
    }
}

impl<J, D, W: Work<J, D>, A: Allocator> Lanes<J, D, W, A> {
    /// A seat for one more worker, cut from the scheduler's, which stays as it is.
    pub fn worker_seat(&self, seat: &mut LaneSeat<J, D>) -> LaneSeat<J, D>
        requires lanes { 0 < self.now.count }
        requires seat { Schedules self.now seat.old }
        ensures seat { (seat.new.table_id ≡ seat.old.table_id) × (seat.new.me ≡ seat.old.me) }
        ensures worker { Works self.now result × (result.me ≡ (newcomer seat.old.me.0, [])) }
    {
        self.table.shared.split_seat::<Hire>(seat)
    }

    /// Puts the job into the lane. It comes back exactly where the lane has a job that isn't collected.
    pub fn put_into(&self, seat: &mut LaneSeat<J, D>, lane: usize, job: J) -> Result<(), J>
        requires { Schedules self.now seat.old × (lane < self.now.count) }
        ensures seat { Schedules self.now seat.new }
        ensures ok { IfOk result (λ _. (slice_index_or seat.old.me.0.known lane known.Idle ≡ known.Idle) ×
            (seat.new.me ≡ (putting seat.old.me.0 lane job, []))) }
        ensures err { IfErr result (λ back. (back ≡ job) × (seat.new.me ≡ seat.old.me) ×
            IsPut (slice_index_or seat.old.me.0.known lane known.Idle)) }
        ensures stands { IfOk result (λ _. Stands W.comes_of seat.new.me.0) }
    {
        let found = self
            .table
            .shared
            .compare_exchange::<Fill>(seat, lane, IDLE, FILLING);
        if found != IDLE {
            return Err(job);
        }
        match self.table.shared.exchange(seat, lane, Some(Load::Job(job))) {
            None => {}
            Some(_) => unreachable!(),
        }
        self.table.shared.store::<Post<W>>(seat, lane, WAITING);
        Ok(())
    }

    /// What a worker delivered at the lane, if it was found there. It came of the job that was put there, and the lane
    /// is idle again. The note of the lane says what its word said at a moment of the try.
    pub fn collect_from(&self, seat: &mut LaneSeat<J, D>, lane: usize) -> Option<D>
        requires { Schedules self.now seat.old × (lane < self.now.count) }
        ensures seat { Schedules self.now seat.new }
        ensures some { IfSome result (λ done. (job : J) ×
            (slice_index_or seat.old.me.0.known lane known.Idle ≡ known.Put job) × W.comes_of job done ×
            (seat.new.me ≡ (collecting seat.old.me.0 lane, []))) }
        ensures shown { IfSome result (λ _. ShownAt W.comes_of lane Finished seat.old.me.0) }
        ensures stands { IfSome result (λ _. Stands W.comes_of seat.new.me.0) }
        ensures none { IfNone result ((found : LaneState) × (found ≢ Finished) ×
            (seat.new.me ≡ (with_note seat.old.me.0 lane found, [])) × ShownAt W.comes_of lane found seat.old.me.0) }
    {
        let found = self
            .table
            .shared
            .compare_exchange::<Drain<W>>(seat, lane, FINISHED, DRAINING);
        if found != FINISHED {
            return None;
        }
        let load = self.table.shared.exchange(seat, lane, None);
        self.table.shared.store::<Clear<W>>(seat, lane, IDLE);
        match load {
            Some(Load::Done(done)) => Some(done),
            _ => unreachable!(),
        }
    }

    /// The job that waits at the lane, if one was found there. From now on it is this worker's, and the lane's slot is
    /// with its seat, empty. The note of the lane says what its word said at a moment of the try.
    pub fn claim_from(&self, seat: &mut LaneSeat<J, D>, lane: usize) -> Option<J>
        requires { Works self.now seat.old × (lane < self.now.count) }
        ensures seat { Works self.now seat.new }
        ensures some { IfSome result (λ job. (put : ℕ) × (slice_index_or seat.old.me.0.claimed lane None ≡ None) ×
            (seat.new.me ≡ (claiming seat.old.me.0 lane put job, (lane, None) ∷ seat.old.me.1))) }
        ensures shown { IfSome result (λ _. ShownAt W.comes_of lane Waiting seat.old.me.0) }
        ensures stands { IfSome result (λ _. Stands W.comes_of seat.new.me.0) }
        ensures none { IfNone result ((found : LaneState) × (found ≢ Waiting) ×
            (seat.new.me ≡ (with_note seat.old.me.0 lane found, seat.old.me.1)) ×
            ShownAt W.comes_of lane found seat.old.me.0) }
    {
        let found = self
            .table
            .shared
            .compare_exchange::<Claiming<W>>(seat, lane, WAITING, TAKEN);
        if found != WAITING {
            return None;
        }
        match self.table.shared.exchange(seat, lane, None) {
            Some(Load::Job(job)) => Some(job),
            _ => unreachable!(),
        }
    }

    /// Gives the lane home with what came of its job, which this worker claimed. The lane's slot is the one in front.
    pub fn deliver_to(&self, seat: &mut LaneSeat<J, D>, lane: usize, done: D)
        requires seat { Works self.now seat.old × (lane < self.now.count) }
        requires slot { seat.old.me.1 ≡ (lane, None) ∷ rest seat.old.me.1 }
        requires done { (job : J) × (slice_index_or seat.old.me.0.claimed lane None ≡ Some job) × W.comes_of job done }
        ensures seat { Works self.now seat.new × (seat.new.me ≡ (delivering seat.old.me.0 lane, rest seat.old.me.1)) }
        ensures stands { Stands W.comes_of seat.new.me.0 }
    {
        match self
            .table
            .shared
            .exchange(seat, lane, Some(Load::Done(done)))
        {
            None => {}
            Some(_) => unreachable!(),
        }
        self.table.shared.store::<Deliver<W>>(seat, lane, FINISHED);
    }
}
