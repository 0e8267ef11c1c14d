//! The calls of a batch, from the lines of a log.

ghost use Rattle.std.specs.Prelude.{◌≡◌, ℕ, ◌+◌, ◌≤◌, ◌^◌, List, length, None, Ok, Err, [], ◌∷◌, IfOk, IfErr, OnOk, IfSome, IsNone};
ghost use Rattle.std.specs.List.{AllByRecursion};
ghost use Rattle.devices.specs.Devices.{Passes};
ghost use Rattle.devices.specs.LineReader.{fault_of, line_begun, newlines_taken, origin_of, position_of, unread};
ghost use Rattle.batch_log.specs.Faults.{ends_in_io, is_io, IsOfLine, TellsFault};
ghost use Rattle.batch_log.specs.Lines.{line_said, lines_said, IsOver};
ghost use Rattle.batch_log.specs.Log.{calls_in, is_room, log_said, most_calls, IsEnd, IsFault, IsNextBatch};
ghost use Rattle.batch_log.specs.Moves.{Moves};
ghost use Rattle.batch_log.specs.Taken.{IsFirstLine, LosesFirst, TakesCalls};

use crate::fault::{LogFault, LogFaultKind, device_fault};
use crate::line::{LogLine, read_line_with};
use devices::{LineReader, Source};
use json::Scratch;
use requests::{Procs, Request};
use std::alloc::Global;

/// A fault of the line last begun.
fn fault_of_line<S: Source>(lines: &LineReader<'_, S>, kind: LogFaultKind) -> LogFault
    ensures { result ≡ record { kind = kind; line = line_begun lines.now } }
{
    LogFault {
        kind,
        line: lines.last_line(),
    }
}

/// What the next line says, or `None` at the end.
fn next_said<S: Source>(
    alloc: Global,
    procs: &Procs,
    lines: &mut LineReader<'_, S>,
    scratch: &mut Scratch,
) -> Result<Option<LogLine>, LogFault>
    ensures same { origin_of lines.new ≡ origin_of lines.old }
    ensures line { IfOk result (λ o. IfSome o (λ said. Passes
        (λ xs ys. lines_said procs.now.procs (newlines_taken lines.old) xs ≡ (line_begun lines.new, Ok said)
        ∷ lines_said procs.now.procs (newlines_taken lines.new) ys)
        (unread S.left lines.old) (unread S.left lines.new))) }
    ensures tables { IfOk result (λ o. IfSome o (IsOver procs.now.tables)) }
    ensures end { IfOk result (λ o. IsNone o →
        Passes (λ xs ys. (xs ≡ []) × (ys ≡ [])) (unread S.left lines.old) (unread S.left lines.new)) }
    ensures fault { IfErr result (λ e. IsOfLine e.kind → Passes
        (λ xs ys. lines_said procs.now.procs (newlines_taken lines.old) xs ≡ (e.line, Err e.kind)
        ∷ lines_said procs.now.procs (newlines_taken lines.new) ys)
        (unread S.left lines.old) (unread S.left lines.new)) }
    ensures first { IfOk result (λ o. IfSome o (λ said. Passes
        (λ xs ys. (line : List ℕ) × IsFirstLine line xs ys × (line_said procs.now.procs line ≡ Ok said))
        (unread S.left lines.old) (unread S.left lines.new))) }
    ensures lost { IfErr result (λ e.
        Passes (LosesFirst (is_io e.kind)) (unread S.left lines.old) (unread S.left lines.new)) }
    ensures moves { Moves (unread S.left lines.old) (unread S.left lines.new) (position_of lines.old)
        (position_of lines.new) }
    ensures stays { OnOk result (fault_of lines.new ≡ None) }
    ensures tells { fault_of lines.old ≡ None → TellsFault S.left S.failed lines.old lines.new result }
{
    let line = match lines.next_line(alloc) {
        Ok(Some(line)) => line,
        Ok(None) => return Ok(None),
        Err(fault) => return Err(device_fault(fault)),
    };
    match read_line_with(alloc, procs, &line, scratch) {
        Ok(said) => Ok(Some(said)),
        Err(kind) => Err(fault_of_line(lines, kind)),
    }
}

/// How many calls a log has at most. All attempts have numbers below 2^48: where stale requests are tried again, at
/// most twice, a log has fewer calls.
fn most_calls(retries: u8) -> u64
    ensures { result ≡ most_calls retries }
{
    if retries == 0 { 1 << 48 } else { 1 << 46 }
}

// rule: batch.limit
/// Whether a call may follow `calls` of its batch and `total` of the log.
pub(crate) fn is_room(retries: u8, calls: usize, total: u64) -> bool
    ensures { result ≡ is_room retries calls total }
{
    calls < 4096 && total < most_calls(retries)
}

// rule: batch.cut
/// The calls of the next batch, or `None` at the end. `total` counts the calls of the log.
pub(crate) fn read_batch<S: Source>(
    alloc: Global,
    procs: &Procs,
    retries: u8,
    lines: &mut LineReader<'_, S>,
    total: &mut u64,
) -> Result<Option<Vec<Request>>, LogFault>
    requires { total.old ≤ most_calls retries }
    ensures same { (origin_of lines.new ≡ origin_of lines.old) × OnOk result (fault_of lines.new ≡ None) }
    ensures batch { IfOk result (λ o. IfSome o (λ calls. Passes
        (λ xs ys. IsNextBatch (log_said retries procs.now.procs (newlines_taken lines.old) total.old xs) calls.items
        (log_said retries procs.now.procs (newlines_taken lines.new) total.new ys))
        (unread S.left lines.old) (unread S.left lines.new))) }
    ensures end { IfOk result (λ o. IsNone o → Passes
        (λ xs ys. IsEnd (log_said retries procs.now.procs (newlines_taken lines.old) total.old xs) × (ys ≡ []))
        (unread S.left lines.old) (unread S.left lines.new)) }
    ensures fault { IfErr result (λ e. IsOfLine e.kind → Passes
        (λ xs ys. IsFault (log_said retries procs.now.procs (newlines_taken lines.old) total.old xs) e)
        (unread S.left lines.old) (unread S.left lines.new)) }
    ensures calls { IfOk result (λ o. IfSome o (λ calls.
        AllByRecursion (λ c. c.proc.tables ≡ procs.now.tables) calls.items × (length calls.items ≤ 4096))) }
    ensures counted { IfOk result (λ o. total.new ≡ total.old + calls_in o) × (total.new ≤ most_calls retries) }
    ensures taken { Passes (TakesCalls retries procs.now.procs total.old (ends_in_io result)) (unread S.left lines.old)
        (unread S.left lines.new) }
    ensures moves { Moves (unread S.left lines.old) (unread S.left lines.new) (position_of lines.old)
        (position_of lines.new) }
    ensures tells { fault_of lines.old ≡ None → TellsFault S.left S.failed lines.old lines.new result }
{
    let mut calls = Vec::new(alloc);
    let mut scratch = Scratch::new(alloc);
    'lines: loop {
        let call = match next_said(alloc, procs, lines, &mut scratch) {
            Ok(Some(LogLine::Call(call))) => call,
            Ok(Some(LogLine::Cut)) => return Ok(Some(calls)),
            Ok(None) if calls.is_empty() => return Ok(None),
            Ok(None) => return Ok(Some(calls)),
            Err(fault) => return Err(fault),
        };
        if !is_room(retries, calls.len(), *total) {
            return Err(fault_of_line(lines, LogFaultKind::BatchTooLong));
        }
        if calls.push(call).is_err() {
            return Err(fault_of_line(lines, LogFaultKind::Memory));
        }
        *total += 1;
    }
}
