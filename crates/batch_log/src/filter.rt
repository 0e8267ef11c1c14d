//! Copying the lines of a log that say a call or a cut.

ghost use Rattle.std.specs.Prelude.{◌≡◌, ◌++◌, ◌||◌, [], None, IfOk, IfErr, OnOk, IfSome, IsNone};
ghost use Rattle.devices.specs.Devices.{Passes};
ghost use Rattle.devices.specs.LineReader.{ends_bare, failed_in, fault_of, left_in, line_begun, origin_of, unread};
ghost use Rattle.batch_log.specs.Faults.{ends_in_io, is_io, IsOfLine, TellsFault};
ghost use Rattle.batch_log.specs.FilterSteps.{IsLooked, LosesLine, newline_of};
ghost use Rattle.batch_log.specs.Filters.{IsFilterOf};

use crate::fault::{LogFault, LogFaultKind, device_fault};
use crate::line::read_line_with;
use crate::saying::say;
use devices::{LineReader, Sink, Source, write_all};
use json::Scratch;
use requests::Procs;
use std::alloc::{AllocError, Global};
use std::sync::Wait;

/// A line of a log that was looked at.
#[derive(Drop)]
pub(crate) enum LookedAt {
    /// A line that says a call or a cut, with its newline, if it came with one.
    Taken(Vec<u8>),
    /// Another line, by its fault.
    Refused(LogFault),
}

/// Puts the newline after a line, unless it came without one.
fn end_line(line: &mut Vec<u8>, bare: bool) -> Result<(), AllocError>
    ensures { OnOk result (line.new.items ≡ line.old.items ++ newline_of bare) }
{
    if bare {
        return Ok(());
    }
    line.push(b'\n')?;
    Ok(())
}

/// Looks at the next line, or answers `None` at the end.
fn look<S: Source>(
    alloc: Global,
    procs: &Procs,
    lines: &mut LineReader<'_, S>,
    scratch: &mut Scratch,
) -> Result<Option<LookedAt>, LogFault>
    ensures same { origin_of lines.new ≡ origin_of lines.old }
    ensures line { IfOk result (λ o. IfSome o (IsLooked procs.now.procs (unread S.left lines.old)
        (unread S.left lines.new) (line_begun lines.new))) }
    ensures end { IfOk result (λ o. IsNone o →
        Passes (λ xs ys. (xs ≡ []) × (ys ≡ [])) (unread S.left lines.old) (unread S.left lines.new)) }
    ensures lost { IfErr result (λ e. LosesLine (is_io e.kind) (unread S.left lines.old) (unread S.left lines.new)) }
    ensures machine { IfErr result (λ e. IsOfLine e.kind → ⊥) }
    ensures stays { OnOk result (fault_of lines.new ≡ None) }
    ensures tells { fault_of lines.old ≡ None → TellsFault S.left S.failed lines.old lines.new result }
{
    let mut line = match lines.next_line(alloc) {
        Ok(Some(line)) => line,
        Ok(None) => return Ok(None),
        Err(fault) => return Err(device_fault(fault)),
    };
    let number = lines.last_line();
    let memory = LogFault {
        kind: LogFaultKind::Memory,
        line: number,
    };
    match read_line_with(alloc, procs, &line, scratch) {
        Ok(_) => match end_line(&mut line, lines.ends_bare()) {
            Ok(()) => Ok(Some(LookedAt::Taken(line))),
            Err(AllocError) => Err(memory),
        },
        Err(LogFaultKind::Memory) => Err(memory),
        Err(kind) => Ok(Some(LookedAt::Refused(LogFault { kind, line: number }))),
    }
}

/// Copies the lines that a reader has left, as `filter_log` does.
fn filter_lines<R: Wait, S: Source, K: Sink, E: Sink>(
    rt: &R,
    alloc: Global,
    procs: &Procs,
    lines: &mut LineReader<'_, S>,
    sink: &mut K,
    err: &mut E,
) -> Result<bool, LogFault>
    requires { fault_of lines.old ≡ None }
    ensures same { origin_of lines.new ≡ origin_of lines.old }
    ensures filter { IsFilterOf procs.now.procs (unread S.left lines.old) (left_in S.left lines.new)
        (K.taken sink.old) (K.taken sink.new) (failed_in S.failed lines.old) (failed_in S.failed lines.new) result }
    ensures fails { (failed_in S.failed lines.new || K.broken sink.new)
        ≡ ((failed_in S.failed lines.old || K.broken sink.old) || ends_in_io result) }
{
    let mut scratch = Scratch::new(alloc);
    let mut all_taken = true;
    'lines: for _ in rt.forever() {
        match look(alloc, procs, lines, &mut scratch) {
            Ok(Some(LookedAt::Taken(line))) => {
                if write_all(sink, &line).is_err() {
                    return Err(LogFault {
                        kind: LogFaultKind::Io,
                        line: lines.last_line(),
                    });
                }
            }
            Ok(Some(LookedAt::Refused(fault))) => {
                say(alloc, err, &fault);
                all_taken = false;
            }
            Ok(None) => return Ok(all_taken),
            Err(fault) => return Err(fault),
        }
    }
    unreachable!()
}

// rule: command.filter
/// Copies the lines of the log that a source gives into a sink, byte for byte: each that says a call or a cut to these
/// procedures. The fault of each other line (31 to 34) goes to `err`, in a line. Batches don't count: one may be too
/// long. A line is written before the next is read. The last one may have no newline, and then has none in the sink.
/// The answer is whether each line was copied.
///
/// A fault that ends it is of a device (36) or of memory (37).
pub fn filter_log<R: Wait, S: Source, K: Sink, E: Sink>(
    rt: &R,
    alloc: Global,
    procs: &Procs,
    source: &mut S,
    sink: &mut K,
    err: &mut E,
) -> Result<bool, LogFault>
    ensures filter { IsFilterOf procs.now.procs (S.left source.old) (S.left source.new)
        (K.taken sink.old) (K.taken sink.new) (S.failed source.old) (S.failed source.new) result }
    ensures fails { (S.failed source.new || K.broken sink.new)
        ≡ ((S.failed source.old || K.broken sink.old) || ends_in_io result) }
{
    let mut lines = LineReader::new(source);
    let filtered = filter_lines(rt, alloc, procs, &mut lines, sink, err);
    let _source = lines.into_source();
    filtered
}
