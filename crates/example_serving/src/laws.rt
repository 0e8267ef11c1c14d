//! Laws of batches of drawn calls.

ghost use Rattle.std.specs.Prelude.{◌≡◌, ◌+◌, List, [], length, map};
ghost use Rattle.meaning.specs.Serial.{serial_end, serial_replies};
ghost use Rattle.requests.specs.ProcLists.{ProcsParts};
ghost use Rattle.sequencer.specs.Entries.{prepared};
ghost use Rattle.retries.specs.Standings.{Standing};
ghost use Rattle.example_serving.specs.Calls.{CallItem, requests_of, asked_of};
ghost use Rattle.example_serving.specs.Serving.{answers_to, batch_said, batch_end, all_end};

/// Where no request is tried again, and none is carried, none is carried after any batches. Where none is carried, a
/// batch of calls is answered what the serial run of their requests answers on the rows before it, it leaves the rows
/// that this leaves, and each request is one transaction.
pub fn nothing_is_said_again_without_retries()
    ensures carried { (procs : ProcsParts) (s : Standing) (batches : List (List CallItem)) → s.carried ≡ [] →
        (all_end 0 procs s batches).carried ≡ [] }
    ensures said { (procs : ProcsParts) (s : Standing) (items : List CallItem) → s.carried ≡ [] →
        batch_said procs s items ≡ answers_to (asked_of procs items)
        (serial_replies (map (λ item. prepared s.rows item.request) (requests_of procs items)) s.rows) }
    ensures rows { (procs : ProcsParts) (s : Standing) (items : List CallItem) → s.carried ≡ [] →
        (batch_end 0 procs s items).rows
        ≡ serial_end (map (λ item. prepared s.rows item.request) (requests_of procs items)) s.rows }
    ensures next { (procs : ProcsParts) (s : Standing) (items : List CallItem) → s.carried ≡ [] →
        (batch_end 0 procs s items).next ≡ s.next + length (requests_of procs items) }
{}
