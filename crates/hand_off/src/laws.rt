//! What the rule of the lanes says in every state, as the contract of a function that does nothing.

ghost use Rattle.hand_off.specs.Laws.{ClaimedAtMostOnce, ClaimedAsPut, HeldAsPut};

use crate::view::Work;

/// A job is claimed by one worker at most a put, and what is claimed is what was put: in every state of the lanes two
/// claims of one put are one claim, of the job that the scheduler put in that lane. Until it is delivered, the
/// scheduler's seat has that job in that lane.
pub fn claims_are_single<J, D, W: Work<J, D>>()
    ensures once { ClaimedAtMostOnce W.comes_of }
    ensures as_put { ClaimedAsPut W.comes_of }
    ensures held { HeldAsPut W.comes_of }
{}
