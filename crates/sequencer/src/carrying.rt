//! Which requests of a batch are tried again in the next one.

ghost use Rattle.std.specs.Prelude.{◌≡◌, ◌+◌, ◌≤◌, ◌^◌, [], length, List, map, filter, IfOk, IsOk, MatchResult};
ghost use Rattle.catalogue.specs.Shapes.{TableShape};
ghost use Rattle.meaning.specs.Outcomes.{as_reply};
ghost use Rattle.sequencer.specs.Attempts.{attempts_in, requests_in, is_stale, left_of, AreCarriedOver, AreRequestsOver};

use crate::attempts::{Attempts, Carried};
use crate::ending::{Ending, is_stale};
use meaning::Outcome;
use std::alloc::Global;
use values::NoMemory;

fn stale_count(outcomes: &[Outcome]) -> usize
    ensures { result ≡ length (filter (λ outcome. is_stale (as_reply outcome)) outcomes.now) }
{
    outcomes.iter().filter(|outcome| is_stale(outcome)).count()
}

/// The requests that are tried again, in the order of their attempts: those whose attempt was stale and had fewer than
/// `retries` attempts before it. The transactions of the attempts have the numbers from `first_no` on. If allocation
/// fails the attempts come back as they were; none is asked for where no attempt was stale.
pub fn left(
    alloc: Global,
    attempts: Attempts,
    first_no: u64,
    outcomes: &[Outcome],
    retries: u8,
) -> Result<Vec<Carried>, (Attempts, NoMemory)>
    requires each { length outcomes.now ≡ length (attempts_in attempts) }
    requires few { first_no + length (attempts_in attempts) ≤ 2 ^ 48 }
    ensures left { MatchResult result
        (λ left. left.items ≡ left_of retries first_no (attempts_in attempts) (map as_reply outcomes.now))
        (λ back. back.0 ≡ attempts) }
    ensures no_memory { filter is_stale (map as_reply outcomes.now) ≡ [] → IsOk result }
    // What holds of the tables of all that were tried holds of what is left.
    ensures over { IfOk result (λ left. (tables : List TableShape) → AreRequestsOver tables (requests_in attempts) →
        AreCarriedOver tables left.items) }
{
    let Ok(left) = Vec::with_capacity(alloc, stale_count(outcomes)) else {
        return Err((attempts, NoMemory));
    };
    let mut ending = Ending::of(attempts, first_no, retries, left);
    for outcome in outcomes {
        let _tried = ending.end_next(outcome);
    }
    Ok(ending.into_left())
}
