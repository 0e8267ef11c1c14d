//! The command `check`: how much a setup has.

ghost use Rattle.std.specs.Prelude.{◌≡◌, IfOk, string_bytes};
ghost use Rattle.calvin.specs.CommandEnds.{check_text, counts_text, IsCheckCommand, IsWritten};
ghost use Rattle.calvin.specs.Inputs.{paths_of};
ghost use Rattle.running.specs.Runs.{device_with};

use crate::files::Files;
use crate::inputs::{print, refused, setup_at};
use crate::status::DONE;
use batch_log::{LogFaultKind, Sink};
use command_line::Input;
use running::RunFault;
use setup::Setup;
use std::alloc::{AllocError, Global};

/// The line that says how many tables, procedures and rows there are.
#[tactic(auto, unfolding(crate::specs::CommandEnds::counts_text))]
fn counts_text(
    alloc: Global,
    tables: usize,
    procedures: usize,
    rows: usize,
) -> Result<String, AllocError>
    ensures { IfOk result (λ text. string_bytes text ≡ counts_text tables procedures rows) }
{
    let mut text = String::new(alloc);
    writeln!(
        text,
        "ok {tables} tables {procedures} procedures {rows} rows"
    )?;
    Ok(text)
}

/// How many of them a setup has.
fn check_text(alloc: Global, setup: &Setup) -> Result<String, AllocError>
    ensures { IfOk result (λ text. string_bytes text ≡ check_text setup.now) }
{
    let tables = setup.catalogue.len();
    let procedures = setup.procs.len();
    counts_text(alloc, tables, procedures, setup.rows.len())
}

/// Prints how much a setup has, and gives the exit status.
fn count<K: Sink, E: Sink>(alloc: Global, setup: &Setup, out: &mut K, err: &mut E) -> u8
    ensures { IsWritten (check_text setup.now)
        (device_with (K.taken out.old) (K.broken out.old))
        (device_with (K.taken out.new) (K.broken out.new)) 0 result }
{
    let Ok(text) = check_text(alloc, setup) else {
        return refused(alloc, err, RunFault::at(LogFaultKind::Memory, 0));
    };
    match print(alloc, out, err, &text) {
        Ok(()) => DONE,
        Err(status) => status,
    }
}

// rule: command.check
/// Reads the setup of an input, and prints how much it has.
pub(crate) fn check<F: Files, K: Sink, E: Sink>(
    alloc: Global,
    input: &Input,
    files: &F,
    out: &mut K,
    err: &mut E,
) -> u8
    ensures { IsCheckCommand (F.holds files.now) (paths_of input.now)
        (device_with (K.taken out.old) (K.broken out.old))
        (device_with (K.taken out.new) (K.broken out.new)) result }
{
    match setup_at(alloc, files, input, err) {
        Ok(document) => count(alloc, &document.setup, out, err),
        Err(status) => status,
    }
}
