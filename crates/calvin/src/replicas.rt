//! The command `replicas`: a report compared with one that was made elsewhere.

ghost use Rattle.std.specs.Prelude.{◌≡◌, false, IfOk, string_bytes};
ghost use Rattle.calvin.specs.CommandEnds.{answer_status, answer_text, IsAnswered, IsReplicasCommand};
ghost use Rattle.calvin.specs.Inputs.{paths_of};
ghost use Rattle.running.specs.Runs.{device_with};

use crate::comparison::{KeptReport, first_difference};
use crate::files::Files;
use crate::inputs::{file_at, print, refused, setup_at};
use crate::status::{DIFFERENT, DONE};
use batch_log::{LogFaultKind, Sink, Source};
use command_line::Input;
use running::{RunFault, RunOptions, run_setup};
use std::alloc::{AllocError, Global};
use std::sync::Wait;
use std::thread::Threads;

/// The line that says where two reports differ.
fn answer_text(alloc: Global, difference: Option<usize>) -> Result<String, AllocError>
    ensures { IfOk result (λ text. string_bytes text ≡ answer_text difference) }
{
    let mut text = String::new(alloc);
    match difference {
        None => text.push_str("same\n")?,
        Some(place) => writeln!(text, "differ at byte {place}")?,
    }
    Ok(text)
}

fn answer_status(difference: Option<usize>) -> u8
    ensures { result ≡ answer_status difference }
{
    match difference {
        None => DONE,
        Some(_) => DIFFERENT,
    }
}

/// Prints where a report and another differ, and gives the exit status.
fn answer<K: Sink, E: Sink>(
    alloc: Global,
    report: &[u8],
    other: &[u8],
    out: &mut K,
    err: &mut E,
) -> u8
    ensures { IsAnswered report.now other.now
        (device_with (K.taken out.old) (K.broken out.old))
        (device_with (K.taken out.new) (K.broken out.new)) result }
{
    let difference = first_difference(report, other);
    let Ok(text) = answer_text(alloc, difference) else {
        return refused(alloc, err, RunFault::at(LogFaultKind::Memory, 0));
    };
    match print(alloc, out, err, &text) {
        Ok(()) => answer_status(difference),
        Err(status) => status,
    }
}

// rule: command.replicas, command.order
/// Compares the report of the log on the setup of an input with the file at a path, which is read first.
pub(crate) fn replicas<R: Threads + Wait + Sync, F: Files, S: Source, K: Sink, E: Sink + Send>(
    rt: &R,
    alloc: Global,
    options: &RunOptions,
    input: &Input,
    report: &str,
    files: &F,
    source: &mut S,
    out: &mut K,
    err: &mut E,
) -> u8
    requires { options.now.feed ≡ false }
    ensures { IsReplicasCommand (F.holds files.now) (paths_of input.now) report.now
        (device_with (S.left source.old) (S.failed source.old))
        (device_with (S.left source.new) (S.failed source.new))
        (device_with (K.taken out.old) (K.broken out.old))
        (device_with (K.taken out.new) (K.broken out.new)) result }
{
    let other = match file_at(alloc, files, report, err) {
        Ok(other) => other,
        Err(status) => return status,
    };
    let document = match setup_at(alloc, files, input, err) {
        Ok(document) => document,
        Err(status) => return status,
    };
    let mut kept = KeptReport::new(alloc);
    let ended = run_setup(rt, alloc, options, document, source, &mut kept, err);
    match ended.result {
        Ok(_) => answer(alloc, kept.bytes(), &other, out, err),
        Err(fault) => refused(alloc, err, kept.fault_of(fault)),
    }
}
