//! The lowest lane whose job is found waiting, which a worker claims.

ghost use Rattle.std.specs.Prelude.{◌≡◌, ℕ, ◌<◌, List, ◌∷◌, IfSome, IfNone, None, slice_index_or};
ghost use Rattle.hand_off.specs.declared.state.LaneState.TheVariants.{Waiting};
ghost use Rattle.hand_off.specs.declared.state.Note.{Note};
ghost use Rattle.hand_off.specs.Notes.{Misses};
ghost use Rattle.hand_off.specs.Views.{looked, claiming};
ghost use Rattle.hand_off.specs.Seats.{Works};
ghost use Rattle.hand_off.specs.Stands.{AllShown, Stands};

use crate::view::{LaneSeat, Lanes, Work};
use std::alloc::Allocator;

impl<J, D, W: Work<J, D>, A: Allocator> Lanes<J, D, W, A> {
    /// A job that waits, from the lowest lane where one was found. From now on it is this worker's, and the lane's slot
    /// is with its seat, empty, in front. `None` comes only where each lane was found without a waiting job when it was
    /// tried. The notes say what each lane that was tried was doing at a moment of its try.
    pub fn claim(&self, seat: &mut LaneSeat<J, D>) -> Option<(usize, J)>
        requires { Works self.now seat.old }
        ensures seat { Works self.now seat.new }
        ensures some { IfSome result (λ r. (r.0 < self.now.count) ×
            (slice_index_or seat.old.me.0.claimed r.0 None ≡ None)) }
        ensures looked { IfSome result (λ r. (notes : List Note) × (put : ℕ) ×
            Misses Waiting r.0 seat.old.me.0.notes notes ×
            (seat.new.me ≡ (claiming (looked seat.old.me.0 notes) r.0 put r.1, (r.0, None) ∷ seat.old.me.1))) }
        ensures none { IfNone result (Misses Waiting self.now.count seat.old.me.0.notes seat.new.me.0.notes ×
            (seat.new.me ≡ (looked seat.old.me.0 seat.new.me.0.notes, seat.old.me.1))) }
        ensures shown { AllShown W.comes_of seat.old.me.0 seat.new.me.0.notes }
        ensures stands { IfSome result (λ _. Stands W.comes_of seat.new.me.0) }
    {
        for lane in 0..self.count {
            if let Some(job) = self.claim_from(seat, lane) {
                return Some((lane, job));
            }
        }
        None
    }
}
