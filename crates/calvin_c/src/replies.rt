//! The replies of a session, one by one.

ghost use Rattle.std.specs.Prelude.{◌≡◌, ◌++◌, [], ℕ, List, None, Some, IfSome, IsSome, option_to_list};
ghost use Rattle.running.specs.Starts.{Start};
ghost use Rattle.meaning.specs.Outcomes.{as_reply};
ghost use Rattle.session.specs.Replies.{after_first, first_kept, NumberedReply};
ghost use Rattle.session.specs.Sessions.{kept_of, stock_of, stop_of, waiting_of, HasTaken};
ghost use Rattle.calvin_c.specs.Replies.{reply_status, IsOutcome, IsReply};
ghost use Rattle.calvin_c.specs.Sessions.{session_of, LiesStill};

use crate::cells::{ValueCell, write_values};
use crate::handle::Handle;
use crate::status::{DONE, NONE};
use meaning::Outcome;
use std::alloc::Global;

/// A reply but for its values: the number of its transaction, that of the first attempt, 0 for a commit, 1 for an
/// abort and 2 for a stale one, the code of an abort and else 0, and the number of values.
#[repr(C)]
#[derive(Drop)]
pub struct ReplyHead {
    pub number: u64,
    pub first: u64,
    pub kind: u32,
    pub code: u32,
    pub length: usize,
}

/// Keeps the replies of the batches that are executed from here on, until they are taken.
#[unsafe(no_mangle)]
pub extern "C" fn calvin_c_keep_replies(alloc: Global, handle: &mut Handle)
    ensures first { kept_of (session_of handle.old) ≡ None → kept_of (session_of handle.new) ≡ Some [] }
    ensures again { IsSome (kept_of (session_of handle.old)) → session_of handle.new ≡ session_of handle.old }
    ensures taken { (start : Start) (fed drained : List ℕ) (passed : List NumberedReply) →
        HasTaken start fed drained passed (session_of handle.old) →
        (before : List NumberedReply) × HasTaken start fed drained before (session_of handle.new) }
    ensures report { waiting_of (session_of handle.new) ≡ waiting_of (session_of handle.old) }
    ensures rows { stock_of (session_of handle.new) ≡ stock_of (session_of handle.old) }
    ensures stays { stop_of (session_of handle.new) ≡ stop_of (session_of handle.old) }
    ensures place { LiesStill handle.old handle.new }
{
    handle.opened().session.keep_replies(alloc);
}

/// Writes how an attempt of a call ended: gives its kind, its code and the number of its values, which are at the front
/// of `values`.
fn write_outcome(outcome: &Outcome, values: &mut [ValueCell]) -> (u32, u32, usize)
    ensures { IsOutcome result.0 result.1 result.2 values.new (as_reply outcome.now) }
{
    match outcome {
        Outcome::Commit(replied) => (0, 0, write_values(values, replied)),
        Outcome::Abort(code) => (1, code.number() as u32, 0),
        Outcome::Stale => (2, 0, 0),
    }
}

/// Takes the next reply in the order of the log, each once. 0: it is in `head`, and its values are at the front of
/// `values`. 4: none waits, and `head` is left alone.
#[unsafe(no_mangle)]
pub extern "C" fn calvin_c_next_reply(
    handle: &mut Handle,
    head: &mut ReplyHead,
    values: &mut [ValueCell],
) -> i32
    ensures status { result ≡ reply_status (first_kept (kept_of (session_of handle.old))) }
    ensures told { IfSome (first_kept (kept_of (session_of handle.old))) (IsReply head.new values.new) }
    ensures left { kept_of (session_of handle.new) ≡ after_first (kept_of (session_of handle.old)) }
    ensures taken { (start : Start) (fed drained : List ℕ) (passed : List NumberedReply) →
        HasTaken start fed drained passed (session_of handle.old) → HasTaken start fed drained
        (passed ++ option_to_list (first_kept (kept_of (session_of handle.old)))) (session_of handle.new) }
    ensures report { waiting_of (session_of handle.new) ≡ waiting_of (session_of handle.old) }
    ensures rows { stock_of (session_of handle.new) ≡ stock_of (session_of handle.old) }
    ensures stays { stop_of (session_of handle.new) ≡ stop_of (session_of handle.old) }
    ensures place { LiesStill handle.old handle.new }
{
    let Some(reply) = handle.opened().session.next_reply() else {
        return NONE;
    };
    let (kind, code, length) = write_outcome(&reply.outcome, values);
    *head = ReplyHead {
        number: reply.transaction,
        first: reply.first,
        kind,
        code,
        length,
    };
    DONE
}
