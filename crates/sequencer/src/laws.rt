//! Laws of requests whose footprint reconnaissance found, and of those that are tried again.

ghost use Rattle.std.specs.Prelude.{◌≡◌, ◌+◌, ◌<◌, ◌≤◌, ℕ, List, [], Some, map, slice_get, true};
ghost use Rattle.std.specs.List.{AllByRecursion, Contains};
ghost use Rattle.values.specs.Database.{Database};
ghost use Rattle.proclang_types.specs.Procedures.{proc_syntax};
ghost use Rattle.proclang_types.specs.Syntax.{is_recon};
ghost use Rattle.requests.specs.Requests.{Call};
ghost use Rattle.meaning.specs.Entries.{Reply, meaning, stale};
ghost use Rattle.meaning.specs.Frame.{Agree};
ghost use Rattle.meaning.specs.Reconnaissance.{reconnaissance_reply};
ghost use Rattle.meaning.specs.Serial.{serial_end};
ghost use Rattle.sequencer.specs.Again.{IsTriedAgain};
ghost use Rattle.sequencer.specs.Attempts.{Attempt, carried_on, left_of, tries_of};
ghost use Rattle.sequencer.specs.Entries.{prepared};

use meaning::found_entry_is_not_stale;

/// A request whose footprint reconnaissance found at the start of its batch ends as the reconnaissance run did, and is
/// not stale, where the calls of its batch before it have left as it was each row that it may read. So it is stale only
/// where one of them changed such a row, and the first of a batch never is.
pub fn found_request_holds_in_its_batch()
    ensures outcome { (before : List Call) (call : Call) (db : Database) →
        is_recon (proc_syntax call.proc).footprint ≡ true →
        Agree (prepared db call) db (serial_end (map (prepared db) before) db) →
        (meaning (prepared db call) (serial_end (map (prepared db) before) db)).0
        ≡ reconnaissance_reply call.proc.tables (proc_syntax call.proc).body call.args db }
    ensures not_stale { (before : List Call) (call : Call) (db : Database) →
        is_recon (proc_syntax call.proc).footprint ≡ true →
        Agree (prepared db call) db (serial_end (map (prepared db) before) db) →
        ¬ ((meaning (prepared db call) (serial_end (map (prepared db) before) db)).0 ≡ stale) }
    ensures first { (call : Call) (db : Database) → is_recon (proc_syntax call.proc).footprint ≡ true →
        ¬ ((meaning (prepared db call) db).0 ≡ stale) }
{
    // proof: an entry ends as its reconnaissance run did.
    found_entry_is_not_stale();
}

/// Each request that is left to be tried again was stale, had fewer attempts before than are tried again, and is the
/// same request after one more attempt; and each request that was stale and had fewer attempts before is left. So one
/// that is left has had at most as many attempts as are tried again, and where none is, nothing is left.
pub fn left_requests_were_stale()
    ensures again { (retries first_no : ℕ) (attempts : List Attempt) (replies : List Reply) →
        AllByRecursion (IsTriedAgain retries first_no attempts replies) (left_of retries first_no attempts replies) }
    ensures all { (retries first_no : ℕ) (attempts : List Attempt) (replies : List Reply)
        (place : ℕ) (attempt : Attempt) →
        slice_get attempts place ≡ Some attempt → slice_get replies place ≡ Some stale →
        tries_of attempt.before < retries →
        Contains (left_of retries first_no attempts replies)
        (carried_on (record { no = first_no + place; attempt = attempt })) }
    ensures most { (retries first_no : ℕ) (attempts : List Attempt) (replies : List Reply) →
        AllByRecursion (λ one. one.tries ≤ retries) (left_of retries first_no attempts replies) }
    ensures none { (first_no : ℕ) (attempts : List Attempt) (replies : List Reply) →
        left_of 0 first_no attempts replies ≡ [] }
{}
