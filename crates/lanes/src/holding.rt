//! The slots that a worker's seat has, in order.

ghost use Rattle.std.specs.Prelude.{◌≡◌, ℕ, ◌∷◌, Contains, drop};
ghost use Rattle.std.specs.VecDeque.{deque_capacity, deque_len};
ghost use Rattle.lanes.specs.Kept.{empties};

use crate::seats::LaneNo;
use hand_off::LaneSeat;
use scheduler::{Done, Job};
use std::collections::VecDeque;

/// Brings the slot of a lane that is held to the front.
pub(crate) fn bring_up(seat: &mut LaneSeat<Job, Done>, held: &mut VecDeque<LaneNo>, lane: LaneNo)
    requires slots { seat.old.me.1 ≡ empties held.old.items }
    requires held { Contains held.old.items lane }
    ensures seat { (seat.new.table_id ≡ seat.old.table_id) × (seat.new.me ≡ (seat.old.me.0, empties held.new.items)) }
    ensures front { held.new.items ≡ lane ∷ drop 1 held.new.items }
    ensures held { (k : ℕ) → Contains held.old.items k → Contains held.new.items k }
    ensures len { deque_len held.new ≡ deque_len held.old }
    ensures room { deque_capacity held.new ≡ deque_capacity held.old }
{
    while held[0] != lane {
        held.rotate_left(1);
        seat.turn();
    }
}
