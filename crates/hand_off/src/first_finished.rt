//! The lowest lane where a result is found, which is collected.

ghost use Rattle.std.specs.Prelude.{◌≡◌, ◌<◌, List, [], IfSome, IfNone, slice_index_or};
ghost use Rattle.hand_off.specs.declared.state.LaneState.TheVariants.{Finished};
ghost use Rattle.hand_off.specs.declared.state.Note.{Note};
ghost use Rattle.hand_off.specs.declared.view.Known.TheVariants as known;
ghost use Rattle.hand_off.specs.Notes.{Misses};
ghost use Rattle.hand_off.specs.Views.{looked, collecting};
ghost use Rattle.hand_off.specs.Seats.{Schedules};
ghost use Rattle.hand_off.specs.Stands.{AllShown, Stands};

use crate::view::{LaneSeat, Lanes, Work};
use std::alloc::Allocator;

impl<J, D, W: Work<J, D>, A: Allocator> Lanes<J, D, W, A> {
    /// What a worker delivered, from the lowest lane where a result was found. It came of the job that was put there,
    /// and that lane is idle again. `None` comes only where each lane was found without a result when it was tried. The
    /// notes say what each lane that was tried was doing at a moment of its try.
    pub fn collect(&self, seat: &mut LaneSeat<J, D>) -> Option<(usize, D)>
        requires { Schedules self.now seat.old }
        ensures seat { Schedules self.now seat.new }
        ensures some { IfSome result (λ r. (r.0 < self.now.count) ×
            ((job : J) × (slice_index_or seat.old.me.0.known r.0 known.Idle ≡ known.Put job) × W.comes_of job r.1)) }
        ensures looked { IfSome result (λ r. (notes : List Note) × Misses Finished r.0 seat.old.me.0.notes notes ×
            (seat.new.me ≡ (collecting (looked seat.old.me.0 notes) r.0, []))) }
        ensures none { IfNone result (Misses Finished self.now.count seat.old.me.0.notes seat.new.me.0.notes ×
            (seat.new.me ≡ (looked seat.old.me.0 seat.new.me.0.notes, []))) }
        ensures shown { AllShown W.comes_of seat.old.me.0 seat.new.me.0.notes }
        ensures stands { IfSome result (λ _. Stands W.comes_of seat.new.me.0) }
    {
        for lane in 0..self.count {
            if let Some(done) = self.collect_from(seat, lane) {
                return Some((lane, done));
            }
        }
        None
    }
}
