//! The replies of a batch, and the requests that it leaves to be tried again.

ghost use Rattle.std.specs.Prelude.{◌≡◌, ◌+◌, ◌<◌, ◌≤◌, ◌^◌, [], length, map};
ghost use Rattle.std.specs.Vec.{vec_capacity};
ghost use Rattle.meaning.specs.Outcomes.{as_reply};
ghost use Rattle.sequencer.specs.Attempts.{attempts_in, left_of};
ghost use Rattle.engine.specs.Replies.{settled};

use meaning::Outcome;
use scheduler::Outcomes;
use sequencer::{Attempts, Carried, Ending, Tried};

/// What came of a transaction.
#[derive(Drop)]
pub struct Reply {
    /// The transaction's number: its place in the log, from 0.
    pub no: u64,
    /// The client that sent the request; 0 where it came with none.
    pub client: u8,
    /// The request's number among those of its client.
    pub number: u64,
    /// The number of the request's first attempt, where this is a later one.
    pub of: Option<u64>,
    pub outcome: Outcome,
}

/// A batch that was run.
#[derive(Drop)]
pub struct BatchDone {
    /// The number of the batch's first transaction; of an empty batch that of the next transaction.
    pub first: u64,
    /// A reply for each attempt, in log order: the carried requests come first.
    pub replies: Vec<Reply>,
}

/// How many requests a number of attempts may leave to be tried again.
pub(crate) fn most_left(attempts: usize, retries: u8) -> usize
    ensures some { 0 < retries → result ≡ attempts }
    ensures none { retries ≡ 0 → result ≡ 0 }
{
    if retries == 0 { 0 } else { attempts }
}

/// The replies to a batch's attempts, numbered from a first one, with an outcome for each, and the requests that are
/// tried again. They find room in the two lists, which are empty: no memory is taken.
pub(crate) fn fill(
    replies: Vec<Reply>,
    left: Vec<Carried>,
    first: u64,
    attempts: Attempts,
    outcomes: Outcomes,
    retries: u8,
) -> (Vec<Reply>, Vec<Carried>)
    requires empty { replies.items ≡ [] }
    requires none_left { left.items ≡ [] }
    requires room { length (attempts_in attempts) ≤ vec_capacity replies }
    requires left_room { 0 < retries → length (attempts_in attempts) ≤ vec_capacity left }
    requires few { first + length (attempts_in attempts) ≤ 2 ^ 48 }
    requires each { length outcomes ≡ length (attempts_in attempts) }
    ensures replies { result.0.items ≡ settled first (attempts_in attempts) outcomes }
    ensures left { result.1.items ≡ left_of retries first (attempts_in attempts) (map as_reply outcomes) }
{
    let (mut replies, mut outcomes) = (replies, outcomes);
    let mut ending = Ending::of(attempts, first, retries, left);
    while let Some(outcome) = outcomes.next() {
        let Tried {
            no,
            client,
            number,
            of,
        } = ending.end_next(&outcome);
        replies.push_reserved(Reply {
            no,
            client,
            number,
            of,
            outcome,
        });
    }
    (replies, ending.into_left())
}
