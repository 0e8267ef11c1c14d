//! Laws of lanes, as contracts of functions that do nothing.

ghost use Rattle.lanes.specs.Laws.{ClaimedAtMostOnce, ClaimedAsPut, HeldAsPut, ClaimIsTheOnlyOne, ClaimIsAsPut};

use crate::runs::Runs;
use scheduler::{Done, Job};

/// A job is claimed by one worker at most a put, and what is claimed is what was put: in every state of the lanes two
/// claims of one put are one claim, of the job that the scheduler put into that lane. Until it is delivered, the
/// scheduler's seat has that job in that lane. So at the moment that `claim` tells of, no other worker has a claim of
/// that put, and the job is what the scheduler, as it is then, has put.
pub fn claims_are_single()
    ensures once { ClaimedAtMostOnce }
    ensures as_put { ClaimedAsPut }
    ensures held { HeldAsPut }
    ensures only { ClaimIsTheOnlyOne }
    ensures is_put { ClaimIsAsPut }
{
    hand_off::claims_are_single::<Job, Done, Runs>();
}
