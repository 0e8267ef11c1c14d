//! The command `filter`: the lines of a log that may go into one.

ghost use Rattle.running.specs.Runs.{device_with};
ghost use Rattle.calvin.specs.CommandEnds.{IsFilterCommand};
ghost use Rattle.calvin.specs.Inputs.{alone_at};

use crate::files::Files;
use crate::inputs::{refused, setup_alone};
use crate::status::filter_status;
use batch_log::{Sink, Source, filter_log};
use running::RunFault;
use std::alloc::Global;
use std::sync::Wait;

/// Copies the lines of the log that a run on the setup at a path would take, and gives the exit status. The fault of
/// each other line goes to `err`.
pub(crate) fn filter<R: Wait, F: Files, S: Source, K: Sink, E: Sink>(
    rt: &R,
    alloc: Global,
    path: &str,
    files: &F,
    source: &mut S,
    out: &mut K,
    err: &mut E,
) -> u8
    ensures { IsFilterCommand (F.holds files.now) (alone_at path.now)
        (device_with (S.left source.old) (S.failed source.old))
        (device_with (S.left source.new) (S.failed source.new))
        (device_with (K.taken out.old) (K.broken out.old))
        (device_with (K.taken out.new) (K.broken out.new)) result }
{
    let document = match setup_alone(alloc, files, path, err) {
        Ok(document) => document,
        Err(status) => return status,
    };
    match filter_log(rt, alloc, &document.setup.procs, source, out, err) {
        Ok(all_copied) => filter_status(all_copied),
        Err(fault) => refused(alloc, err, RunFault::Log(fault)),
    }
}
