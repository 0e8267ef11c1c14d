//! Opening a session.

ghost use Rattle.std.specs.Prelude.{◌≤◌, ◌≡◌, ◌⊎◌, length, Err, IfErr, OnOk};
ghost use Rattle.dispatcher.specs.Ranges.{AreInRange, IsOneOutOfRange};
ghost use Rattle.setup.specs.Faults.{is_memory};
ghost use Rattle.setup.specs.Setups.{setup_said};
ghost use Rattle.setup.specs.WithRows.{setup_with_rows_said};
ghost use Rattle.calvin_c.specs.Openings.{setup_status, OpensAs};
ghost use Rattle.calvin_c.specs.Statuses.{done, misused, no_memory};

use crate::handle::{Opaque, pointer_to};
use crate::opened::Opened;
use crate::status::{DONE, MISUSED, NO_MEMORY, setup_status};
use engine::Settings;
use session::{Pieces, Session};
use setup::{SetupDocument, SetupFault, read_setup, read_setup_with_rows};
use std::alloc::{AllocError, Global};

/// A session on a setup document, as the pointer that C is given; or the status that says why there is none.
fn opened(alloc: Global, document: SetupDocument, settings: Settings) -> Result<*mut Opaque, i32>
    ensures { IfErr result (λ status. status ≡ no_memory) }
{
    let Ok(session) = Session::new(alloc, document, settings) else {
        return Err(NO_MEMORY);
    };
    let document = Pieces::new(Vec::new(alloc));
    match Box::new(alloc, Opened { session, document }) {
        Ok(opened) => Ok(pointer_to(opened)),
        Err(_) => Err(NO_MEMORY),
    }
}

/// The settings of a session, of which no thread is asked.
fn settings_of(threshold: usize, arena: usize) -> Result<Settings, i32>
    ensures opened { OnOk result (AreInRange 1 1 threshold arena) }
    ensures misused { IfErr result (λ status. (status ≡ misused) × IsOneOutOfRange 1 1 threshold arena) }
{
    match Settings::new(1, 1, threshold, arena) {
        Ok(settings) => Ok(settings),
        Err(_) => Err(MISUSED),
    }
}

/// The line of a fault.
fn line_of(alloc: Global, fault: &SetupFault) -> Result<String, AllocError> {
    format!(in alloc; "{fault}")
}

/// Writes the line of a fault to the front of `message`, as far as it fits, and gives its length; 0 if
/// allocation fails.
fn write_fault(alloc: Global, fault: &SetupFault, message: &mut [u8]) -> usize
    ensures bound { result ≤ length message.new }
    ensures room { length message.new ≡ length message.old }
{
    let Ok(line) = line_of(alloc, fault) else {
        return 0;
    };
    let count = line.len().min(message.len());
    message[..count].copy_from_slice(&line.as_bytes()[..count]);
    count
}

/// The setup document that was read. Where it was refused, its fault goes to `message`, and the length of that to
/// `written`.
fn document_of(
    alloc: Global,
    read: Result<SetupDocument, SetupFault>,
    message: &mut [u8],
    written: &mut usize,
) -> Result<SetupDocument, i32>
    ensures ok { OnOk read (IfErr result (λ status. ⊥)) }
    ensures none { OnOk read (written.new ≡ 0) }
    ensures err { IfErr read (λ fault. result ≡ Err (setup_status fault)) }
    ensures bound { written.new ≤ length message.new }
{
    *written = 0;
    match read {
        Ok(document) => Ok(document),
        Err(fault) => {
            *written = write_fault(alloc, &fault, message);
            Err(setup_status(&fault))
        }
    }
}

/// Opens a session on a setup document that was read.
fn open(
    alloc: Global,
    document: Result<SetupDocument, i32>,
    threshold: usize,
    arena: usize,
    out: &mut *mut Opaque,
) -> i32
    ensures refused { IfErr document (λ status. result ≡ status) }
    ensures opened { OnOk document (((result ≡ done) × AreInRange 1 1 threshold arena) ⊎
        ((result ≡ misused) × IsOneOutOfRange 1 1 threshold arena) ⊎ (result ≡ no_memory)) }
    ensures left_alone { ¬ (result ≡ done) → out.new ≡ out.old }
{
    let document = match document {
        Ok(document) => document,
        Err(status) => return status,
    };
    let settings = match settings_of(threshold, arena) {
        Ok(settings) => settings,
        Err(status) => return status,
    };
    match opened(alloc, document, settings) {
        Ok(pointer) => {
            *out = pointer;
            DONE
        }
        Err(status) => status,
    }
}

/// Opens a session on the setup that a JSON text says. 0: its pointer is in `out`, and `calvin_c_close` wants it back.
/// 1: the text breaks a rule, and the fault's line is in the first `written` bytes of `message`. 2: a setting is
/// outside its range. 3: allocation failed. But for 0, `out` is left alone.
#[unsafe(no_mangle)]
pub extern "C" fn calvin_c_open(
    alloc: Global,
    setup: &[u8],
    threshold: usize,
    arena: usize,
    out: &mut *mut Opaque,
    message: &mut [u8],
    written: &mut usize,
) -> i32
    ensures status { OpensAs threshold arena result (setup_said setup.now) }
    ensures left_alone { ¬ (result ≡ done) → out.new ≡ out.old }
    ensures no_fault { result ≡ done → written.new ≡ 0 }
    ensures bound { written.new ≤ length message.new }
{
    let document = document_of(alloc, read_setup(alloc, setup), message, written);
    open(alloc, document, threshold, arena, out)
}

/// The same, but that the rows are those that another JSON text says, a rows document, in place of the setup's.
#[unsafe(no_mangle)]
pub extern "C" fn calvin_c_open_rows(
    alloc: Global,
    setup: &[u8],
    rows: &[u8],
    threshold: usize,
    arena: usize,
    out: &mut *mut Opaque,
    message: &mut [u8],
    written: &mut usize,
) -> i32
    ensures status { OpensAs threshold arena result (setup_with_rows_said setup.now rows.now) }
    ensures left_alone { ¬ (result ≡ done) → out.new ≡ out.old }
    ensures no_fault { result ≡ done → written.new ≡ 0 }
    ensures bound { written.new ≤ length message.new }
{
    let read = read_setup_with_rows(alloc, setup, rows);
    let document = document_of(alloc, read, message, written);
    open(alloc, document, threshold, arena, out)
}
