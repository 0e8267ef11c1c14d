//! What a command reads, what it prints, and how it says why it stops.

ghost use Rattle.std.specs.Prelude.{◌≡◌, ◌⊎◌, true, Some, None, Ok, Err, IfOk, OnOk, IfErr};
ghost use Rattle.std.specs.Io.KnownBytes.{Appends};
ghost use Rattle.devices.specs.Devices.{AppendsFront};
ghost use Rattle.setup.specs.declared.fault.SetupFault.{SetupFault};
ghost use Rattle.calvin.specs.CommandEnds.{fault_status, setup_status};
ghost use Rattle.calvin.specs.Inputs.{alone_at, paths_of, with_rows_at, IsSetupAt, IsWithoutSetup};

use crate::files::{FileFault, Files};
use crate::status::{DEVICE, MEMORY, run_status, setup_status};
use batch_log::{LogFaultKind, Sink, say, write_all};
use command_line::Input;
use running::RunFault;
use setup::{SetupDocument, SetupFault, read_setup, read_setup_with_rows};
use std::alloc::Global;

/// Says a fault of a run and gives its exit status.
pub(crate) fn refused<E: Sink>(alloc: Global, err: &mut E, fault: RunFault) -> u8
    ensures { result ≡ fault_status fault }
{
    say(alloc, err, &fault);
    run_status(fault)
}

/// Reads the file of a path, or says why not and gives the exit status.
pub(crate) fn file_at<F: Files, E: Sink>(
    alloc: Global,
    files: &F,
    path: &str,
    err: &mut E,
) -> Result<Vec<u8>, u8>
    ensures bytes { IfOk result (λ v. F.holds files.now path.now (Some v.items)) }
    ensures status { IfErr result (λ status. ((status ≡ 4) × F.holds files.now path.now None) ⊎ (status ≡ 3)) }
{
    match files.read(alloc, path) {
        Ok(bytes) => Ok(bytes),
        Err(FileFault::Unreadable) => {
            say(alloc, err, &format_args!("cannot read {path}"));
            Err(DEVICE)
        }
        Err(FileFault::NoMemory) => {
            say(alloc, err, &"fault 47");
            Err(MEMORY)
        }
    }
}

/// The setup document that was read, or says why there is none and gives the exit status.
fn document_of<E: Sink>(
    alloc: Global,
    read: Result<SetupDocument, SetupFault>,
    err: &mut E,
) -> Result<SetupDocument, u8>
    ensures same { IfOk result (λ document. read ≡ Ok document) }
    ensures status { IfErr result (λ status. (fault : SetupFault) × (read ≡ Err fault) ×
        (status ≡ setup_status fault)) }
{
    match read {
        Ok(document) => Ok(document),
        Err(fault) => {
            say(alloc, err, &fault);
            Err(setup_status(&fault))
        }
    }
}

/// Reads the setup document at a path, with its own rows, or says why not and gives the exit status.
pub(crate) fn setup_alone<F: Files, E: Sink>(
    alloc: Global,
    files: &F,
    path: &str,
    err: &mut E,
) -> Result<SetupDocument, u8>
    ensures setup { IfOk result (IsSetupAt (F.holds files.now) (alone_at path.now)) }
    ensures status { IfErr result (IsWithoutSetup (F.holds files.now) (alone_at path.now)) }
{
    let text = file_at(alloc, files, path, err)?;
    document_of(alloc, read_setup(alloc, &text), err)
}

/// Reads the setup document at a path with the rows at another in place of its own, or says why not and gives the exit
/// status.
fn setup_with_rows<F: Files, E: Sink>(
    alloc: Global,
    files: &F,
    path: &str,
    rows: &str,
    err: &mut E,
) -> Result<SetupDocument, u8>
    ensures setup { IfOk result (IsSetupAt (F.holds files.now) (with_rows_at path.now rows.now)) }
    ensures status { IfErr result (IsWithoutSetup (F.holds files.now) (with_rows_at path.now rows.now)) }
{
    let text = file_at(alloc, files, path, err)?;
    let rows = file_at(alloc, files, rows, err)?;
    document_of(alloc, read_setup_with_rows(alloc, &text, &rows), err)
}

// rule: option.rows
/// Reads the setup document of an input, or says why not and gives the exit status.
pub(crate) fn setup_at<F: Files, E: Sink>(
    alloc: Global,
    files: &F,
    input: &Input,
    err: &mut E,
) -> Result<SetupDocument, u8>
    ensures setup { IfOk result (IsSetupAt (F.holds files.now) (paths_of input.now)) }
    ensures status { IfErr result (IsWithoutSetup (F.holds files.now) (paths_of input.now)) }
{
    match &input.rows {
        None => setup_alone(alloc, files, &input.setup, err),
        Some(rows) => setup_with_rows(alloc, files, &input.setup, rows, err),
    }
}

/// Writes the bytes of an answer, or says why not and gives the exit status.
pub(crate) fn print_bytes<K: Sink, E: Sink>(
    alloc: Global,
    out: &mut K,
    err: &mut E,
    bytes: &[u8],
) -> Result<(), u8>
    ensures text { OnOk result (Appends (K.taken out.old) (K.taken out.new) bytes.now) }
    ensures front { AppendsFront (K.taken out.old) (K.taken out.new) bytes.now }
    ensures status { IfErr result (λ status. (status ≡ 4) × (K.broken out.new ≡ true)) }
{
    match write_all(out, bytes) {
        Ok(()) => Ok(()),
        Err(_) => Err(refused(alloc, err, RunFault::at(LogFaultKind::Io, 0))),
    }
}

/// Writes an answer, or says why not and gives the exit status.
pub(crate) fn print<K: Sink, E: Sink>(
    alloc: Global,
    out: &mut K,
    err: &mut E,
    text: &str,
) -> Result<(), u8>
    ensures text { OnOk result (Appends (K.taken out.old) (K.taken out.new) text.now) }
    ensures front { AppendsFront (K.taken out.old) (K.taken out.new) text.now }
    ensures status { IfErr result (λ status. (status ≡ 4) × (K.broken out.new ≡ true)) }
{
    print_bytes(alloc, out, err, text.as_bytes())
}
