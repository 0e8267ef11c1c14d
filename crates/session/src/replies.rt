//! Replies that wait to be taken one by one.

ghost use Rattle.std.specs.Prelude.{◌≡◌, ◌++◌, [], Some, None, OnOk, OnErr, IsSome, map, option_map, option_to_list, List, ℕ};
ghost use Rattle.running.specs.Starts.{Start};
ghost use Rattle.session.specs.Replies.{NumberedReply, after_first, first_kept, handed_out, kept_in, kept_with, numbered};

use crate::session::Session;
use engine::Reply as EngineReply;
use meaning::Outcome;
use std::alloc::{AllocError, Global};
use std::collections::VecDeque;

/// What came of a transaction.
#[derive(Debug, Drop, PartialEq, Eq)]
pub struct Reply {
    /// The transaction's number: its place in the log, from 0.
    pub transaction: u64,
    /// The number of the transaction that was the first attempt of its request: its own, where this is that attempt.
    pub first: u64,
    /// The values of a commit, at most 64; the code of an abort; or that it is stale.
    pub outcome: Outcome,
}

/// The replies that wait, where replies are kept.
#[derive(Drop)]
pub(crate) struct Replies {
    waiting: Option<VecDeque<EngineReply>>,
}

/// A reply of the engine, as it is handed out.
fn handed_out(reply: EngineReply) -> Reply
    ensures { handed_out result ≡ numbered reply }
{
    let EngineReply {
        no,
        client: _,
        number: _,
        of,
        outcome,
    } = reply;
    Reply {
        transaction: no,
        first: of.unwrap_or(no),
        outcome,
    }
}

/// Puts replies after those that wait. An error changes nothing.
fn put_after(
    waiting: &mut VecDeque<EngineReply>,
    replies: Vec<EngineReply>,
) -> Result<(), AllocError>
    ensures ok { OnOk result (waiting.new.items ≡ waiting.old.items ++ replies.items) }
    ensures err { OnErr result (waiting.new.items ≡ waiting.old.items) }
{
    let mut more = VecDeque::from_vec(replies);
    waiting.append(&mut more)
}

impl Replies {
    /// No reply is kept.
    pub(crate) fn new() -> Replies
        ensures { kept_in result ≡ None }
    {
        Replies { waiting: None }
    }

    /// Keeps the replies that come from here on.
    pub(crate) fn keep(&mut self, alloc: Global)
        ensures first { kept_in self.old ≡ None → kept_in self.new ≡ Some [] }
        ensures again { IsSome (kept_in self.old) → self.new ≡ self.old }
    {
        if self.waiting.is_none() {
            self.waiting = Some(VecDeque::new(alloc));
        }
    }

    /// Takes the first reply that waits.
    pub(crate) fn take(&mut self) -> Option<Reply>
        ensures next { option_map handed_out result ≡ first_kept (kept_in self.old) }
        ensures left { kept_in self.new ≡ after_first (kept_in self.old) }
    {
        let Some(waiting) = &mut self.waiting else {
            return None;
        };
        match waiting.pop_front() {
            Some(reply) => Some(handed_out(reply)),
            None => None,
        }
    }

    /// Puts the replies of a batch after those that wait, where replies are kept. An error changes nothing.
    pub(crate) fn put(&mut self, replies: Vec<EngineReply>) -> Result<(), AllocError>
        ensures ok { OnOk result (kept_in self.new ≡ kept_with (kept_in self.old) (map numbered replies.items)) }
        ensures err { OnErr result (kept_in self.new ≡ kept_in self.old) }
    {
        match &mut self.waiting {
            Some(waiting) => put_after(waiting, replies),
            None => Ok(()),
        }
    }
}

impl Session {
    ghost use Rattle.session.specs.Sessions.{kept_of, stock_of, stop_of, waiting_of, HasTaken};

    /// Keeps the reply of each transaction of the batches that are executed from here on, until `next_reply` takes it.
    /// Before, replies are reported alone. What is kept takes memory; if an allocation for it fails, the run stops with
    /// fault 37.
    pub fn keep_replies(&mut self, alloc: Global)
        // No reply waits yet, unless replies were kept before.
        ensures first { kept_of self.old ≡ None → kept_of self.new ≡ Some [] }
        ensures again { IsSome (kept_of self.old) → self.new ≡ self.old }
        // All replies that came before are passed over.
        ensures taken { (start : Start) (fed drained : List ℕ) (passed : List NumberedReply) →
            HasTaken start fed drained passed self.old →
            (before : List NumberedReply) × HasTaken start fed drained before self.new }
        ensures report { waiting_of self.new ≡ waiting_of self.old }
        ensures rows { stock_of self.new ≡ stock_of self.old }
        ensures stays { stop_of self.new ≡ stop_of self.old }
    {
        self.work.replies.keep(alloc);
    }

    /// The first of the replies that wait, in the order of the log, which then waits no longer; `None` where none
    /// waits. A fault and the end of the log leave those that wait.
    pub fn next_reply(&mut self) -> Option<Reply>
        ensures next { option_map handed_out result ≡ first_kept (kept_of self.old) }
        ensures left { kept_of self.new ≡ after_first (kept_of self.old) }
        ensures taken { (start : Start) (fed drained : List ℕ) (passed : List NumberedReply) →
            HasTaken start fed drained passed self.old →
            HasTaken start fed drained (passed ++ map handed_out (option_to_list result)) self.new }
        ensures report { waiting_of self.new ≡ waiting_of self.old }
        ensures rows { stock_of self.new ≡ stock_of self.old }
        ensures stays { stop_of self.new ≡ stop_of self.old }
    {
        self.work.replies.take()
    }
}
