//! The command `run`: the report of a log.

ghost use Rattle.std.specs.Prelude.{◌≡◌};
ghost use Rattle.running.specs.EngineRuns.{has_ended};
ghost use Rattle.running.specs.Runs.{device_with};
ghost use Rattle.calvin.specs.CommandEnds.{end_status, IsRunCommand};
ghost use Rattle.calvin.specs.Inputs.{paths_of};

use crate::feeds::feed_ended;
use crate::files::Files;
use crate::inputs::{refused, setup_at};
use crate::status::DONE;
use batch_log::{Sink, Source};
use command_line::Input;
use running::{Ended, RunOptions, run_setup};
use std::alloc::Global;
use std::sync::Wait;
use std::thread::Threads;

/// Says how a run has ended, if not well, and gives the exit status.
fn end<E: Sink>(alloc: Global, ended: Ended, err: &mut E) -> u8
    ensures { result ≡ end_status (has_ended ended) ended.result }
{
    if let Some(line) = ended.feed {
        return feed_ended(alloc, line, err);
    }
    match ended.result {
        Ok(_) => DONE,
        Err(fault) => refused(alloc, err, fault),
    }
}

/// Prints the report of the log on the setup of an input: of a feed up to its last cut, without an end line.
pub(crate) fn run<R: Threads + Wait + Sync, F: Files, S: Source, K: Sink, E: Sink + Send>(
    rt: &R,
    alloc: Global,
    options: &RunOptions,
    input: &Input,
    files: &F,
    source: &mut S,
    out: &mut K,
    err: &mut E,
) -> u8
    ensures { IsRunCommand options.now.alone options.now.feed (F.holds files.now) (paths_of input.now)
        (device_with (S.left source.old) (S.failed source.old))
        (device_with (S.left source.new) (S.failed source.new))
        (device_with (K.taken out.old) (K.broken out.old))
        (device_with (K.taken out.new) (K.broken out.new)) result }
{
    let document = match setup_at(alloc, files, input, err) {
        Ok(document) => document,
        Err(status) => return status,
    };
    let ended = run_setup(rt, alloc, options, document, source, out, err);
    end(alloc, ended, err)
}
