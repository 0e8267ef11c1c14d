//! Laws of batches one after another, where stale requests are tried again.

ghost use Rattle.std.specs.Prelude.{◌≡◌, ◌+◌, ◌*◌, ◌^◌, ◌≤◌, ◌<◌, ◌++◌, ℕ, Bool, true, false, cond, List, [], ◌∷◌, None, Some, filter, length, map, slice_get};
ghost use Rattle.std.specs.List.{AllByRecursion, Contains};
ghost use Rattle.values.specs.Database.{Database};
ghost use Rattle.catalogue.specs.Shapes.{TableShape};
ghost use Rattle.requests.specs.Requests.{Call};
ghost use Rattle.meaning.specs.Entries.{meaning, stale};
ghost use Rattle.meaning.specs.Serial.{serial_end, serial_replies};
ghost use Rattle.sequencer.specs.Attempts.{Attempt, again, carried_on, tries_of};
ghost use Rattle.sequencer.specs.Again.{IsTriedAgain};
ghost use Rattle.sequencer.specs.Entries.{prepared};
ghost use Rattle.report_text.specs.Report.{entries_in, reply_lines, batch_text, batch_texts, end_text, next_batch};
ghost use Rattle.row_text.specs.declared.form.DigestForm.{DigestForm};
ghost use Rattle.row_text.specs.Partitions.{digested_text};
ghost use Rattle.row_text.specs.Texts.{digest};
ghost use Rattle.report_text.specs.Texts.{end_line};
ghost use Rattle.retries.specs.Moved.{raised};
ghost use Rattle.retries.specs.Standings.{Standing, start_of, attempts_at, transactions_at, transactions_in, replies_at, after_batch, after_batches, in_turn, is_later_of, may_have, call_count, while_carried, closing, closing_within, closed};

use sequencer::found_request_holds_in_its_batch;

/// Nothing is left: after all batches of a log that ends without a fault no request is carried any more.
pub fn nothing_is_left_at_the_end()
    ensures { (retries : ℕ) (db : Database) (batches : List (List Call)) →
        (after_batches retries (start_of db) (closed retries false (start_of db) batches)).carried ≡ [] }
{}

/// Attempts are few: no request has more attempts after it than are tried again, and a carried one has at least one.
/// Whatever is carried into a batch, nothing that is carried out of it has more. And of a log's transactions no more
/// than that are later attempts of any one request, told by the number of its first attempt.
pub fn attempts_are_few()
    ensures attempts { (retries : ℕ) (db : Database) (batches : List (List Call)) (calls : List Call) →
        AllByRecursion (λ attempt. tries_of attempt.before ≤ retries)
        (attempts_at (after_batches retries (start_of db) batches) calls) }
    ensures carried { (retries : ℕ) (db : Database) (batches : List (List Call)) →
        AllByRecursion (λ one. (1 ≤ one.tries) × (one.tries ≤ retries))
        (after_batches retries (start_of db) batches).carried }
    ensures after { (retries : ℕ) (s : Standing) (calls : List Call) →
        AllByRecursion (λ one. one.tries ≤ retries) (after_batch retries s calls).carried }
    ensures in_log { (retries : ℕ) (db : Database) (batches : List (List Call)) (first : ℕ) →
        length (filter (λ t. is_later_of first t.of) (transactions_in retries db batches)) ≤ retries }
{}

/// Each attempt of a batch that is stale, and has fewer attempts before it than are tried again, is carried into the
/// next batch, whatever its calls are, and is tried again there. Nothing else is carried. In a log without a fault
/// there is such a next batch.
pub fn stale_attempts_are_tried_again()
    ensures carried { (retries : ℕ) (s : Standing) (calls : List Call) (place : ℕ) (attempt : Attempt) →
        slice_get (attempts_at s calls) place ≡ Some attempt → slice_get (replies_at s calls) place ≡ Some stale →
        tries_of attempt.before < retries →
        Contains (after_batch retries s calls).carried
        (carried_on (record { no = s.next + place; attempt = attempt })) }
    ensures tried { (retries : ℕ) (s : Standing) (calls more : List Call) (place : ℕ) (attempt : Attempt) →
        slice_get (attempts_at s calls) place ≡ Some attempt → slice_get (replies_at s calls) place ≡ Some stale →
        tries_of attempt.before < retries →
        Contains (attempts_at (after_batch retries s calls) more)
        (again (carried_on (record { no = s.next + place; attempt = attempt }))) }
    ensures only { (retries : ℕ) (s : Standing) (calls : List Call) →
        AllByRecursion (IsTriedAgain retries s.next (attempts_at s calls) (replies_at s calls))
        (after_batch retries s calls).carried }
    ensures next { (retries : ℕ) (db : Database) (batches before : List (List Call)) (calls : List Call)
        (after : List (List Call)) (place : ℕ) (attempt : Attempt) →
        closed retries false (start_of db) batches ≡ before ++ calls ∷ after →
        slice_get (attempts_at (after_batches retries (start_of db) before) calls) place ≡ Some attempt →
        slice_get (replies_at (after_batches retries (start_of db) before) calls) place ≡ Some stale →
        tries_of attempt.before < retries → ¬ (after ≡ []) }
{}

// rule: retry.first
/// The first attempt of a batch is never stale: at the start of its batch the entry of each call has another outcome.
pub fn first_attempt_is_never_stale()
    ensures first { (s : Standing) (calls : List Call) → ¬ (slice_get (replies_at s calls) 0 ≡ Some stale) }
    ensures entry { (call : Call) (db : Database) → ¬ ((meaning (prepared db call) db).0 ≡ stale) }
{
    found_request_holds_in_its_batch();
}

/// Numbers are few: after batches, all attempts that they had and all that are carried are at most one for each call,
/// and one more for each time that a request is tried again; and so are they with those of one more batch. So they are
/// at most 2^48 where there are at most 2^46 calls and a request is tried again at most 3 times.
///
/// On any standing whose carried requests were tried no more often than they are tried again, a batch raises the next
/// number and the attempts that carried requests may still have, both together, by at most the attempts that its own
/// calls may have; and each carried request may have at least one more.
pub fn numbers_are_few()
    ensures most { (retries : ℕ) (db : Database) (batches : List (List Call)) →
        (after_batches retries (start_of db) batches).next
        + length (after_batches retries (start_of db) batches).carried ≤ (retries + 1) * call_count batches }
    ensures next { (retries : ℕ) (db : Database) (batches : List (List Call)) (calls : List Call) →
        (after_batches retries (start_of db) batches).next
        + length (attempts_at (after_batches retries (start_of db) batches) calls)
        ≤ (retries + 1) * (call_count batches + length calls) }
    ensures fit { (retries : ℕ) (db : Database) (batches : List (List Call)) (calls : List Call) → retries ≤ 3 →
        call_count batches + length calls ≤ 2 ^ 46 →
        (after_batches retries (start_of db) batches).next
        + length (attempts_at (after_batches retries (start_of db) batches) calls) ≤ 2 ^ 48 }
    ensures step { (retries : ℕ) (s : Standing) (calls : List Call) →
        AllByRecursion (λ one. one.tries ≤ retries) s.carried →
        (after_batch retries s calls).next + may_have retries (after_batch retries s calls).carried
        ≤ s.next + may_have retries s.carried + (retries + 1) * length calls }
    ensures carried_one { (retries : ℕ) (s : Standing) →
        AllByRecursion (λ one. one.tries ≤ retries) s.carried → length s.carried ≤ may_have retries s.carried }
{}

/// Batches are short: where no batch has more than `most` calls, none has more attempts than `most` for each time that
/// a request may be tried, which is once and as often as it is tried again. So a batch of at most 4,096 calls has
/// at most 12,288 attempts where a request is tried again at most twice.
pub fn batches_are_short()
    ensures { (retries most : ℕ) (db : Database) (batches : List (List Call)) (calls : List Call) →
        AllByRecursion (λ b. length b ≤ most) batches → length calls ≤ most →
        length (attempts_at (after_batches retries (start_of db) batches) calls) ≤ (retries + 1) * most }
{}

/// Where no request is tried again, none is carried, no batch closes a log, and each transaction is the first attempt
/// of its request: the entries of a batch are those of its calls.
pub fn nothing_is_tried_again_without_retries()
    ensures carried { (db : Database) (batches : List (List Call)) →
        (after_batches 0 (start_of db) batches).carried ≡ [] }
    ensures first { (db : Database) (batches : List (List Call)) (calls : List Call) →
        AllByRecursion (λ transaction. transaction.of ≡ None)
        (transactions_at (after_batches 0 (start_of db) batches) calls) }
    ensures closed { (faulty : Bool) (s : Standing) (batches : List (List Call)) → closed 0 faulty s batches ≡ batches }
    ensures entries { (db : Database) (batches : List (List Call)) (calls : List Call) →
        entries_in (transactions_at (after_batches 0 (start_of db) batches) calls)
        ≡ map (prepared (after_batches 0 (start_of db) batches).rows) calls }
{}

/// Batches and more batches leave what these leave after those, and their transactions come after one another.
pub fn batches_follow_one_another()
    ensures after { (retries : ℕ) (s : Standing) (batches more : List (List Call)) →
        after_batches retries s (batches ++ more) ≡ after_batches retries (after_batches retries s batches) more }
    ensures after_one { (retries : ℕ) (s : Standing) (batches : List (List Call)) (calls : List Call) →
        after_batches retries s (batches ++ calls ∷ []) ≡ after_batch retries (after_batches retries s batches) calls }
    ensures in_turn { (retries : ℕ) (s : Standing) (batches more : List (List Call)) →
        in_turn retries s (batches ++ more)
        ≡ in_turn retries s batches ++ in_turn retries (after_batches retries s batches) more }
    ensures in_turn_one { (retries : ℕ) (s : Standing) (batches : List (List Call)) (calls : List Call) →
        in_turn retries s (batches ++ calls ∷ [])
        ≡ in_turn retries s batches ++ transactions_at (after_batches retries s batches) calls ∷ [] }
{}

/// The batches of a log are those of its calls, and after them, where it ends without a fault, those that close it.
/// These have no calls, and they are one more as long as something is carried: at most as many as a request is tried
/// again.
pub fn log_is_closed_after_its_batches()
    ensures none { (retries : ℕ) (faulty : Bool) (s : Standing) →
        closed retries faulty s [] ≡ cond faulty [] (closing retries s) }
    ensures next { (retries : ℕ) (faulty : Bool) (s : Standing) (calls : List Call) (rest : List (List Call)) →
        closed retries faulty s (calls ∷ rest) ≡ calls ∷ closed retries faulty (after_batch retries s calls) rest }
    ensures after { (retries : ℕ) (faulty : Bool) (s : Standing) (batches rest : List (List Call)) →
        closed retries faulty s (batches ++ rest)
        ≡ batches ++ closed retries faulty (after_batches retries s batches) rest }
    ensures faulty { (retries : ℕ) (s : Standing) (batches : List (List Call)) →
        closed retries true s batches ≡ batches }
    ensures calls { (retries : ℕ) (faulty : Bool) (s : Standing) (batches : List (List Call)) →
        call_count (closed retries faulty s batches) ≡ call_count batches }
    ensures closing { (retries : ℕ) (db : Database) (batches : List (List Call)) →
        closed retries false (after_batches retries (start_of db) batches) []
        ≡ while_carried (after_batches retries (start_of db) batches).carried
        (closed retries false (after_batch retries (after_batches retries (start_of db) batches) []) []) }
    ensures few { (retries most : ℕ) (s : Standing) → length (closing_within retries most s) ≤ most }
{}

/// The serial run over all transactions at once is the same: it ends with the rows that the batches leave, it has as
/// many transactions as are numbered, and the reply lines of one more batch come after those of the batches before
/// it.
pub fn serial_run_is_one_run()
    ensures rows { (retries : ℕ) (db : Database) (batches : List (List Call)) →
        (after_batches retries (start_of db) batches).rows
        ≡ serial_end (entries_in (transactions_in retries db batches)) db }
    ensures next { (retries : ℕ) (db : Database) (batches : List (List Call)) →
        (after_batches retries (start_of db) batches).next ≡ length (transactions_in retries db batches) }
    ensures transactions { (retries : ℕ) (db : Database) (batches : List (List Call)) (calls : List Call) →
        transactions_in retries db (batches ++ calls ∷ [])
        ≡ transactions_in retries db batches
        ++ transactions_at (after_batches retries (start_of db) batches) calls }
    ensures replies { (retries : ℕ) (db : Database) (batches : List (List Call)) (calls : List Call) →
        serial_replies (entries_in (transactions_in retries db (batches ++ calls ∷ []))) db
        ≡ serial_replies (entries_in (transactions_in retries db batches)) db
        ++ replies_at (after_batches retries (start_of db) batches) calls }
    ensures lines { (retries : ℕ) (db : Database) (batches : List (List Call)) (calls : List Call) →
        reply_lines 0 (transactions_in retries db (batches ++ calls ∷ []))
        (serial_replies (entries_in (transactions_in retries db (batches ++ calls ∷ []))) db)
        ≡ reply_lines 0 (transactions_in retries db batches)
        (serial_replies (entries_in (transactions_in retries db batches)) db)
        ++ reply_lines (after_batches retries (start_of db) batches).next
        (transactions_at (after_batches retries (start_of db) batches) calls)
        (replies_at (after_batches retries (start_of db) batches) calls) }
{}

/// The report of batches, in either form of the digests of rows, grows by the text of each, with the numbers and on the
/// rows that the batches before it leave, and the end line has the count and the rows that all of them leave.
pub fn report_grows_batch_by_batch()
    ensures texts { (form : DigestForm) (tables : List TableShape) (retries : ℕ) (db : Database)
        (batches : List (List Call)) (calls : List Call) →
        batch_texts form tables 1 0 db (in_turn retries (start_of db) (batches ++ calls ∷ []))
        ≡ batch_texts form tables 1 0 db (in_turn retries (start_of db) batches)
        ++ batch_text form tables (next_batch (length batches)) (after_batches retries (start_of db) batches).next
        (after_batches retries (start_of db) batches).rows
        (transactions_at (after_batches retries (start_of db) batches) calls) }
    ensures end { (form : DigestForm) (tables : List TableShape) (retries : ℕ) (db : Database)
        (batches : List (List Call)) →
        end_text false form tables db (transactions_in retries db batches)
        ≡ end_line (after_batches retries (start_of db) batches).next
        (digest (digested_text form tables (after_batches retries (start_of db) batches).rows))
        (digest (reply_lines 0 (transactions_in retries db batches)
        (serial_replies (entries_in (transactions_in retries db batches)) db))) }
{}

/// A log goes on from its rows: where nothing is carried after some batches, each later batch gives the replies, and
/// leaves the rows, that it gives and leaves if the log begins on the rows after those batches. Numbers begin at 0
/// then.
pub fn a_log_goes_on_from_its_rows()
    ensures after { (retries : ℕ) (db : Database) (batches more : List (List Call)) →
        (after_batches retries (start_of db) batches).carried ≡ [] →
        after_batches retries (start_of db) (batches ++ more)
        ≡ raised (after_batches retries (start_of db) batches).next
        (after_batches retries (start_of (after_batches retries (start_of db) batches).rows) more) }
    ensures replies { (retries : ℕ) (db : Database) (batches more : List (List Call)) (calls : List Call) →
        (after_batches retries (start_of db) batches).carried ≡ [] →
        replies_at (after_batches retries (start_of db) (batches ++ more)) calls
        ≡ replies_at (after_batches retries (start_of (after_batches retries (start_of db) batches).rows) more) calls }
{}
