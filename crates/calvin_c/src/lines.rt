//! The log of a session, and its report.

ghost use Rattle.std.specs.Prelude.{◌≡◌, ◌++◌, ◌∷◌, [], ℕ, List, take, None, Some, IfErr, IfSome, IsSome, Ok};
ghost use Rattle.devices.specs.Lines.{newline};
ghost use Rattle.session.specs.Calls.{at_line_of, call_said, cut_line};
ghost use Rattle.session.specs.Pieces.{IsDrained};
ghost use Rattle.session.specs.Sessions.{kept_of, stock_of, stop_of, waiting_of, EndsInFault, FaultsOn, HasTaken, KeepsSetup, KeepsWaiting, KeepsWaitingAtEnd, TakesOn};
ghost use Rattle.running.specs.Starts.{Start};
ghost use Rattle.session.specs.Replies.{KeepsReplies, NumberedReply};
ghost use Rattle.session.specs.Works.{next_number};
ghost use Rattle.session.specs.declared.session.SessionFault.TheVariants.{Over};
ghost use Rattle.calvin_c.specs.Sessions.{session_of, EndsWholly, LiesStill};
ghost use Rattle.calvin_c.specs.Statuses.{call_status, done, stop_status, taken_status, told_fault, Says};

use crate::handle::Handle;
use crate::status::{DONE, call_status, fault_number, session_status, taken_status};
use session::SessionFault;
use std::alloc::Global;

/// Feeds the next bytes of the log. 0: they were taken, and each batch whose cut was among them is executed, and its
/// report waits. 1: the log has a fault. 2: the log has ended. 3: allocation failed.
#[unsafe(no_mangle)]
pub extern "C" fn calvin_c_feed(alloc: Global, handle: &mut Handle, bytes: &[u8]) -> i32
    ensures status { result ≡ stop_status (stop_of (session_of handle.new)) }
    ensures taken { result ≡ done → TakesOn (session_of handle.old) bytes.now (session_of handle.new) }
    ensures fault { stop_of (session_of handle.old) ≡ None → IfSome (stop_of (session_of handle.new))
        (FaultsOn (session_of handle.old) bytes.now (session_of handle.new)) }
    ensures again { IsSome (stop_of (session_of handle.old)) → session_of handle.new ≡ session_of handle.old }
    ensures kept { KeepsWaiting (session_of handle.old) (session_of handle.new) }
    ensures replies { KeepsReplies (kept_of (session_of handle.old)) (kept_of (session_of handle.new)) }
    ensures place { LiesStill handle.old handle.new }
{
    match handle.opened().session.feed(alloc, bytes) {
        Ok(()) => DONE,
        Err(fault) => session_status(fault),
    }
}

/// Ends the log. 0: calls after the last cut are executed, and the end line waits. Else as `calvin_c_feed`.
#[unsafe(no_mangle)]
pub extern "C" fn calvin_c_end(alloc: Global, handle: &mut Handle) -> i32
    ensures whole { result ≡ done → EndsWholly (session_of handle.old) (session_of handle.new) }
    ensures over { result ≡ done → stop_of (session_of handle.new) ≡ Some Over }
    ensures fault { stop_of (session_of handle.old) ≡ None → ¬ (result ≡ done) →
        IfSome (stop_of (session_of handle.new)) (EndsInFault (session_of handle.old) (session_of handle.new)) }
    ensures status { ¬ (result ≡ done) → result ≡ stop_status (stop_of (session_of handle.new)) }
    ensures again { IsSome (stop_of (session_of handle.old)) →
        (¬ (result ≡ done)) × (session_of handle.new ≡ session_of handle.old) }
    ensures kept { KeepsWaitingAtEnd (session_of handle.old) (session_of handle.new) }
    ensures replies { KeepsReplies (kept_of (session_of handle.old)) (kept_of (session_of handle.new)) }
    ensures stays { LiesStill handle.old handle.new × KeepsSetup (session_of handle.old) (session_of handle.new) }
{
    match handle.opened().session.end(alloc) {
        Ok(_) => DONE,
        Err(fault) => session_status(fault),
    }
}

/// Takes a line without its newline as the next call. 0: it is, and `number` has the number of its transaction. 31 to
/// 35: the fault of the line, which is 32 for a cut and for more than one line. 1: the log has a fault. 2: the log has
/// ended, or a line is begun. 3: allocation failed. But for 0 nothing has changed, and `number` is 0.
#[unsafe(no_mangle)]
pub extern "C" fn calvin_c_call(
    alloc: Global,
    handle: &mut Handle,
    line: &[u8],
    number: &mut u64,
) -> i32
    ensures answer { Says result (taken_status (call_said (session_of handle.old) line.now)) }
    ensures taken { result ≡ done →
        TakesOn (session_of handle.old) (line.now ++ newline ∷ []) (session_of handle.new) }
    ensures number { (result ≡ done → number.new ≡ next_number (session_of handle.old).work)
        × (¬ (result ≡ done) → number.new ≡ 0) }
    ensures refused { ¬ (result ≡ done) → TakesOn (session_of handle.old) [] (session_of handle.new) }
    ensures kept { waiting_of (session_of handle.new) ≡ waiting_of (session_of handle.old) }
    ensures replies { kept_of (session_of handle.new) ≡ kept_of (session_of handle.old) }
    ensures stays { (stop_of (session_of handle.new) ≡ stop_of (session_of handle.old))
        × (stock_of (session_of handle.new) ≡ stock_of (session_of handle.old)) }
    ensures place { LiesStill handle.old handle.new }
{
    *number = 0;
    match handle.opened().session.call(alloc, line) {
        Ok(first) => {
            *number = first;
            DONE
        }
        Err(fault) => call_status(fault),
    }
}

/// Tells what `calvin_c_call` would answer for the line, and takes nothing.
#[unsafe(no_mangle)]
pub extern "C" fn calvin_c_test(alloc: Global, handle: &mut Handle, line: &[u8]) -> i32
    ensures answer { Says result (taken_status (call_said (session_of handle.old) line.now)) }
    ensures stays { session_of handle.new ≡ session_of handle.old }
    ensures place { LiesStill handle.old handle.new }
{
    taken_status(handle.opened().session.test(alloc, line))
}

/// Ends the batch. 0: its calls are executed, and their report waits. 1: the log has a fault. 2: the log has ended, or
/// a line is begun. 3: allocation failed.
#[unsafe(no_mangle)]
pub extern "C" fn calvin_c_cut(alloc: Global, handle: &mut Handle) -> i32
    ensures taken { result ≡ done → TakesOn (session_of handle.old) cut_line (session_of handle.new) }
    ensures status { at_line_of (session_of handle.old) ≡ Ok tt →
        result ≡ stop_status (stop_of (session_of handle.new)) }
    ensures fault { at_line_of (session_of handle.old) ≡ Ok tt → IfSome (stop_of (session_of handle.new))
        (FaultsOn (session_of handle.old) cut_line (session_of handle.new)) }
    ensures refused { IfErr (at_line_of (session_of handle.old)) (λ fault.
        (result ≡ call_status fault) × (session_of handle.new ≡ session_of handle.old)) }
    ensures kept { KeepsWaiting (session_of handle.old) (session_of handle.new) }
    ensures replies { KeepsReplies (kept_of (session_of handle.old)) (kept_of (session_of handle.new)) }
    ensures place { LiesStill handle.old handle.new }
{
    taken_status(handle.opened().session.cut(alloc))
}

/// Moves report bytes that wait to the front of `into`, as many as there are or as fit, and gives how many.
#[unsafe(no_mangle)]
pub extern "C" fn calvin_c_drain(handle: &mut Handle, into: &mut [u8]) -> usize
    ensures drained { IsDrained (waiting_of (session_of handle.old)) (waiting_of (session_of handle.new))
        into.old into.new result }
    ensures taken { (start : Start) (fed drained : List ℕ) (passed : List NumberedReply) →
        HasTaken start fed drained passed (session_of handle.old) →
        HasTaken start fed (drained ++ take result into.new) passed (session_of handle.new) }
    ensures stays { (stop_of (session_of handle.new) ≡ stop_of (session_of handle.old))
        × (kept_of (session_of handle.new) ≡ kept_of (session_of handle.old))
        × (stock_of (session_of handle.new) ≡ stock_of (session_of handle.old)) }
    ensures place { LiesStill handle.old handle.new }
{
    handle.opened().session.drain(into)
}

/// The number of the fault that ended the session (31 to 35, or 37), with its line in `line`; 0 and 0, where there is
/// none.
#[unsafe(no_mangle)]
pub extern "C" fn calvin_c_fault(handle: &mut Handle, line: &mut u64) -> i32
    ensures told { (result, line.new) ≡ told_fault (stop_of (session_of handle.old)) }
    ensures stays { session_of handle.new ≡ session_of handle.old }
    ensures place { LiesStill handle.old handle.new }
{
    match handle.opened().session.stop() {
        Some(SessionFault::Log(fault)) => {
            *line = fault.line;
            fault_number(fault.kind)
        }
        Some(SessionFault::Over) | None => {
            *line = 0;
            0
        }
    }
}

/// Closes a session, and frees what it has.
#[unsafe(no_mangle)]
pub extern "C" fn calvin_c_close(alloc: Global, handle: Handle) {
    let _opened = handle.into_box(alloc);
}
