//! The commands of the program.

ghost use Rattle.std.specs.Prelude.{◌≡◌};
ghost use Rattle.running.specs.Runs.{device_with};
ghost use Rattle.calvin.specs.CommandEnds.{Does, IsLocksCommand};
ghost use Rattle.calvin.specs.Inputs.{paths_of};

use crate::checking::check;
use crate::files::Files;
use crate::filtering::filter;
use crate::inputs::{print, refused, setup_at};
use crate::listing::rows;
use crate::locks::plans_of;
use crate::process::Process;
use crate::replicas::replicas;
use crate::reporting::run;
use crate::status::DONE;
use batch_log::{Sink, Source};
use command_line::{Command, Input, Line, Running};
use engine::Settings;
use running::{RunOptions, lines_of};
use std::alloc::Global;
use std::sync::Wait;
use std::thread::Threads;

/// Prints the plans of the log's first batch on the setup of an input.
fn locks<F: Files, S: Source, K: Sink, E: Sink>(
    alloc: Global,
    settings: Settings,
    input: &Input,
    files: &F,
    source: &mut S,
    out: &mut K,
    err: &mut E,
) -> u8
    ensures { IsLocksCommand (F.holds files.now) (paths_of input.now) settings
        (device_with (S.left source.old) (S.failed source.old))
        (device_with (S.left source.new) (S.failed source.new))
        (device_with (K.taken out.old) (K.broken out.old))
        (device_with (K.taken out.new) (K.broken out.new)) result }
{
    let document = match setup_at(alloc, files, input, err) {
        Ok(document) => document,
        Err(status) => return status,
    };
    let lines = match plans_of(alloc, document.setup, settings, source) {
        Ok(lines) => lines,
        Err(fault) => return refused(alloc, err, fault),
    };
    match print(alloc, out, err, &lines) {
        Ok(()) => DONE,
        Err(status) => status,
    }
}

/// How a log is run, by the words of a command line and the process.
fn options_of(line: &Line, running: Running, process: Process) -> RunOptions
    ensures mode { (result.alone ≡ running.alone) × (result.feed ≡ running.follow) }
    ensures ends { result.process_ends ≡ process.ends }
    ensures settings { result.settings ≡ line.now.settings }
{
    RunOptions {
        alone: running.alone,
        feed: running.follow,
        lines: lines_of(running.progress, process.err_is_terminal),
        settings: line.settings,
        process_ends: process.ends,
    }
}

// rule: command.status
/// Does what a command line asks for, and gives the exit status: 0; 1 where the setup, the log or a line that `filter`
/// looks at is refused, or the table that `rows` is asked for isn't there; 3 where allocation failed; 4 where a device
/// failed, a file can't be read, or a thread was refused, as none is with `--alone` nor to `filter` and `locks`; 5
/// where reports differ; 6 where a feed that was followed has ended. A fault goes to `err` in a line. After a fault of
/// the setup or the log `rows`, `locks` and `replicas` write nothing to `out`. What is asked for of a run's progress
/// goes to `err`, line over line where that is a terminal, and changes nothing else. Whether the process ends then
/// changes nothing that is written.
pub fn command<R: Threads + Wait + Sync, F: Files, S: Source, K: Sink, E: Sink + Send>(
    rt: &R,
    alloc: Global,
    line: &Line,
    process: Process,
    files: &F,
    source: &mut S,
    out: &mut K,
    err: &mut E,
) -> u8
    ensures { Does (F.holds files.now) line.now
        (device_with (S.left source.old) (S.failed source.old))
        (device_with (S.left source.new) (S.failed source.new))
        (device_with (K.taken out.old) (K.broken out.old))
        (device_with (K.taken out.new) (K.broken out.new)) result }
{
    match &line.command {
        Command::Run { input, running } => {
            let options = options_of(line, *running, process);
            run(rt, alloc, &options, input, files, source, out, err)
        }
        Command::Rows {
            input,
            running,
            listing,
        } => {
            let options = options_of(line, *running, process);
            rows(rt, alloc, &options, input, listing, files, source, out, err)
        }
        Command::Filter { setup } => filter(rt, alloc, setup, files, source, out, err),
        Command::Locks { input } => locks(alloc, line.settings, input, files, source, out, err),
        Command::Check { input } => check(alloc, input, files, out, err),
        Command::Replicas {
            input,
            progress,
            report,
        } => {
            let running = Running {
                alone: false,
                progress: *progress,
                follow: false,
            };
            let options = options_of(line, running, process);
            replicas(rt, alloc, &options, input, report, files, source, out, err)
        }
    }
}
