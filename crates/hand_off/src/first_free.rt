//! The lowest lane without a job, which a job is put into.

ghost use Rattle.std.specs.Prelude.{◌≡◌, ℕ, ◌<◌, [], IfOk, IfErr, slice_index_or};
ghost use Rattle.hand_off.specs.declared.view.Known.TheVariants as known;
ghost use Rattle.hand_off.specs.Views.{putting};
ghost use Rattle.hand_off.specs.Seats.{IsPut, Schedules};
ghost use Rattle.hand_off.specs.Stands.{Stands};

use crate::view::{LaneSeat, Lanes, Work};
use std::alloc::Allocator;

impl<J, D, W: Work<J, D>, A: Allocator> Lanes<J, D, W, A> {
    /// Puts the job into the lowest lane without one. It comes back exactly where each lane
    /// has a job that isn't collected.
    pub fn put(&self, seat: &mut LaneSeat<J, D>, job: J) -> Result<usize, J>
        requires { Schedules self.now seat.old }
        ensures seat { Schedules self.now seat.new }
        ensures ok { IfOk result (λ lane. (lane < self.now.count) ×
            (slice_index_or seat.old.me.0.known lane known.Idle ≡ known.Idle) ×
            (seat.new.me ≡ (putting seat.old.me.0 lane job, []))) }
        ensures lowest { IfOk result (λ lane. (k : ℕ) → k < lane →
            IsPut (slice_index_or seat.old.me.0.known k known.Idle)) }
        ensures err { IfErr result (λ back. (back ≡ job) × (seat.new.me ≡ seat.old.me) ×
            ((k : ℕ) → k < self.now.count → IsPut (slice_index_or seat.old.me.0.known k known.Idle))) }
        ensures stands { IfOk result (λ _. Stands W.comes_of seat.new.me.0) }
    {
        let mut job = job;
        for lane in 0..self.count {
            match self.put_into(seat, lane, job) {
                Ok(()) => return Ok(lane),
                Err(back) => job = back,
            }
        }
        Err(job)
    }
}
