//! The rule of the queue, and what each kind of step tells. These types are for the proofs alone.

use crate::view::View;
use batch_items::Item;
use crossbeam_queue::protocol::{Join, Lesson, Outcome, Protocol, Split};

/// What was drawn and then what the queue holds is, client by client, what was submitted.
pub struct InOrder;

impl<Q> Protocol<Item<Q>, View<Q>> for InOrder {
    ghost use Rattle.intake.specs.Histories.{first_view};
    ghost use Rattle.intake.specs.Rule.{IsInOrder};

    ghost holds = { IsInOrder };

    ghost first = { first_view };
}

/// The right to draw goes to a new pass.
pub struct CutDrawing;

impl<Q> Split<View<Q>> for CutDrawing {
    ghost use Rattle.intake.specs.Histories.{without_drawing, only_drawing};

    ghost left = { without_drawing };

    ghost right = { only_drawing };
}

/// The first history goes to a new pass.
pub struct CutFirst;

impl<Q> Split<View<Q>> for CutFirst {
    ghost use Rattle.intake.specs.Histories.{without_first, only_first};

    ghost left = { without_first };

    ghost right = { only_first };
}

/// A pass takes in the histories of another.
pub struct TakeIn;

impl<Q> Join<View<Q>> for TakeIn {
    ghost use Rattle.intake.specs.Histories.{joined, spent};

    ghost both = { joined };

    ghost spent = { spent };
}

/// A client submits: its history grows by the request. Where the queue is full, what it holds is accounted for.
pub struct Submits;

impl<Q> Outcome<Item<Q>, View<Q>> for Submits {
    ghost use Rattle.std.specs.Prelude.{◌≡◌};
    ghost use Rattle.intake.specs.Histories.{after_submit};

    ghost then = { λ v x w. w ≡ after_submit v x.request };
}

impl<Q> Lesson<Item<Q>, View<Q>> for Submits {
    ghost use Rattle.intake.specs.Rule.{IsAccounted};

    ghost fact = { λ v items. IsAccounted v items };
}

/// The owner draws: what was drawn grows by the item. Where the queue is empty, what was drawn has the histories that
/// the pass holds, and nothing of a stranger.
pub struct Draws;

impl<Q> Outcome<Item<Q>, View<Q>> for Draws {
    ghost use Rattle.std.specs.Prelude.{◌≡◌};
    ghost use Rattle.intake.specs.Histories.{after_draw, IsNumbered};

    ghost then = { λ v x w. (w ≡ after_draw v x) × IsNumbered w.drawn };
}

impl<Q> Lesson<Item<Q>, View<Q>> for Draws {
    ghost use Rattle.std.specs.Prelude.{◌++◌};
    ghost use Rattle.intake.specs.Rule.{IsWhole};

    ghost fact = { λ v items. IsWhole (v.drawn ++ items) v.histories };
}
