//! The end of a batch's attempts, one after another.

ghost use Rattle.std.specs.Prelude.{◌≡◌, ◌+◌, ◌<◌, ◌≤◌, ◌^◌, ◌++◌, ◌∷◌, [], cond, length, true, vec_len, vec_capacity};
ghost use Rattle.meaning.specs.Outcomes.{as_reply};
ghost use Rattle.sequencer.specs.Attempts.{attempts_in, goes_on, is_stale};
ghost use Rattle.sequencer.specs.Endings.{HasEnded, left_in, next_no, retries_in, room_in, waiting_in};
ghost use Rattle.sequencer.specs.NextAttempts.{IsNextAttempt, own_carried};

use crate::attempts::{Attempts, Carried};
use batch_items::Item;
use meaning::Outcome;
use requests::Request;
use std::vec::IntoIter;

/// An attempt that has ended: what a reply says of it beside its outcome.
#[derive(Clone, Copy, Debug, PartialEq, Eq)]
pub struct Tried {
    /// The number of the attempt's transaction.
    pub no: u64,
    /// The client, as of the item that the request came in.
    pub client: u8,
    /// The request's number among those that its client submitted.
    pub number: u64,
    /// The number of the transaction of the request's first attempt, where this is a later one.
    pub of: Option<u64>,
}

/// The attempts of a batch that have no outcome yet, and of those that have one the requests that are tried again.
#[derive(Drop)]
pub struct Ending {
    carried: IntoIter<Carried>,
    own: IntoIter<Item<Request>>,
    no: u64,
    retries: u8,
    left: Vec<Carried>,
}

pub(crate) fn is_stale(outcome: &Outcome) -> bool
    ensures { result ≡ is_stale (as_reply outcome.now) }
{
    matches!(outcome, Outcome::Stale)
}

/// Carries on a request whose attempt ended so, if it is tried again: it was stale, and had fewer than `retries`
/// attempts before it. `tried` has the attempts that were before this one, and the number of the first. It takes no
/// memory: what is left has room for it.
fn carry_on(left: &mut Vec<Carried>, tried: Carried, outcome: &Outcome, retries: u8)
    requires room { goes_on retries tried.tries (as_reply outcome.now) ≡ true →
        vec_len left.old < vec_capacity left.old }
    ensures left { left.new.items ≡ left.old.items ++ cond (goes_on retries tried.tries (as_reply outcome.now))
        (record tried { tries = tried.tries + 1 } ∷ []) [] }
    ensures room { vec_capacity left.new ≡ vec_capacity left.old }
{
    if is_stale(outcome) && tried.tries < retries {
        let tries = tried.tries + 1;
        left.push_reserved(Carried { tries, ..tried });
    }
}

/// The first attempt at a batch's own call, whose transaction has the number `no`, as if it were carried.
fn first_attempt(item: Item<Request>, no: u64) -> Carried
    ensures { result ≡ own_carried no item }
{
    let Item {
        client,
        number,
        request,
    } = item;
    Carried {
        client,
        number,
        request,
        first: no,
        tries: 0,
    }
}

impl Ending {
    /// All attempts of a batch, none of which has ended. The first transaction has the number `first_no`, a stale
    /// request is tried again as long as it had fewer than `retries` attempts before, and those that are find room in
    /// `left`. It takes no memory.
    pub fn of(attempts: Attempts, first_no: u64, retries: u8, left: Vec<Carried>) -> Ending
        ensures waiting { waiting_in result ≡ attempts_in attempts }
        ensures left { left_in result ≡ left.items }
        ensures first { next_no result ≡ first_no }
        ensures retries { retries_in result ≡ retries }
        ensures room { room_in result ≡ vec_capacity left }
    {
        let (carried, own) = attempts.into_parts();
        Ending {
            carried: carried.into_iter(),
            own: own.into_iter(),
            no: first_no,
            retries,
            left,
        }
    }

    // The next attempt, as if it were carried, and the number of the first one, where this is a later one.
    fn next_attempt(&mut self) -> (Carried, Option<u64>)
        requires { 0 < length (waiting_in self.old) }
        ensures { IsNextAttempt self.old self.new result }
    {
        if let Some(carried) = self.carried.next() {
            let of = Some(carried.first);
            return (carried, of);
        }
        match self.own.next() {
            Some(item) => (first_attempt(item, self.no), None),
            None => unreachable!(),
        }
    }

    // rule: retry.limit
    /// Ends the next attempt, in the order of the attempts: its request is left to be tried again, if its outcome is
    /// stale and it had fewer attempts before than are tried again. It takes no memory.
    pub fn end_next(&mut self, outcome: &Outcome) -> Tried
        requires waiting { 0 < length (waiting_in self.old) }
        requires few { next_no self.old + length (waiting_in self.old) ≤ 2 ^ 48 }
        requires room { is_stale (as_reply outcome.now) ≡ true → 0 < retries_in self.old →
            length (left_in self.old) < room_in self.old }
        ensures { HasEnded (as_reply outcome.now) self.old self.new result }
    {
        let no = self.no;
        let (carried, of) = self.next_attempt();
        let (client, number) = (carried.client, carried.number);
        carry_on(&mut self.left, carried, outcome, self.retries);
        self.no += 1;
        Tried {
            no,
            client,
            number,
            of,
        }
    }

    /// The requests that are tried again, of the attempts that have ended, in their order.
    pub fn into_left(self) -> Vec<Carried>
        ensures { result.items ≡ left_in self }
    {
        self.left
    }
}
