//! The rows of a session, after the batches that have ended.

ghost use Rattle.std.specs.Prelude.{◌≡◌, [], length, min, take, IfOk};
ghost use Rattle.std.specs.Str.{IsUtf8};
ghost use Rattle.session.specs.Pieces.{IsDrained};
ghost use Rattle.session.specs.Rows.{carried_said, digest_said, document_said, table_said};
ghost use Rattle.session.specs.Sessions.{rows_of};
ghost use Rattle.calvin_c.specs.Rows.{key_before, row_said, text_status, TellsCarried, TellsNextOf, TellsRow};
ghost use Rattle.calvin_c.specs.Sessions.{document_of, session_of, LiesStill};
ghost use Rattle.calvin_c.specs.Statuses.{done, no_table, Says};

use crate::cells::{ValueCell, write_values};
use crate::handle::Handle;
use crate::status::{DONE, NO_TABLE, NONE, rows_status};
use session::Pieces;
use std::alloc::Global;
use std::str;

/// The row that a table has under a key. 0: the number of its values is in `length`, and they are at the front of
/// `values`. 4: there is none. 5: the setup has no table of that name. 1 and 3: a fault has stopped the session. But
/// for 0 `length` is 0.
#[unsafe(no_mangle)]
pub extern "C" fn calvin_c_row(
    handle: &mut Handle,
    table: &[u8],
    key: u64,
    length: &mut usize,
    values: &mut [ValueCell],
) -> i32
    ensures told { IsUtf8 table.now →
        TellsRow result length.new values.new (row_said (session_of handle.old) table.now key) }
    ensures unnamed { ¬ (IsUtf8 table.now) → (result ≡ no_table) × (length.new ≡ 0) }
    ensures stays { session_of handle.new ≡ session_of handle.old }
    ensures place { LiesStill handle.old handle.new }
{
    *length = 0;
    let Ok(table) = str::from_utf8(table) else {
        return NO_TABLE;
    };
    match handle.opened().session.row(table, key) {
        Ok(Some(row)) => {
            *length = write_values(values, row.values());
            DONE
        }
        Ok(None) => NONE,
        Err(fault) => rows_status(fault),
    }
}

/// The key after which a row is looked for, where its key is to be at least `least`.
fn key_before(least: u64) -> Option<u64>
    ensures { result ≡ key_before least }
{
    if least == 0 { None } else { Some(least - 1) }
}

/// The row of a table with the least key of at least `least`. Its key is in `key`, else as `calvin_c_row`. But for 0
/// `key` and `length` are 0.
#[unsafe(no_mangle)]
pub extern "C" fn calvin_c_next_row(
    handle: &mut Handle,
    table: &[u8],
    least: u64,
    key: &mut u64,
    length: &mut usize,
    values: &mut [ValueCell],
) -> i32
    ensures told { IsUtf8 table.now → TellsNextOf (rows_of (session_of handle.old)) result key.new length.new
        values.new (key_before least) (table_said (session_of handle.old) table.now) }
    ensures unnamed { ¬ (IsUtf8 table.now) → (result ≡ no_table) × (key.new ≡ 0) × (length.new ≡ 0) }
    ensures stays { session_of handle.new ≡ session_of handle.old }
    ensures place { LiesStill handle.old handle.new }
{
    *key = 0;
    *length = 0;
    let Ok(table) = str::from_utf8(table) else {
        return NO_TABLE;
    };
    match handle.opened().session.next_row(table, key_before(least)) {
        Ok(Some((found, row))) => {
            *key = found;
            *length = write_values(values, row.values());
            DONE
        }
        Ok(None) => NONE,
        Err(fault) => rows_status(fault),
    }
}

/// Makes the rows document of all rows, in place of one that waits. 0: its length is in `size`, and
/// `calvin_c_drain_rows` takes it. 1 and 3: a fault has stopped the session. 3: allocation failed, too. But for 0 none
/// waits, and `size` is 0.
#[unsafe(no_mangle)]
pub extern "C" fn calvin_c_rows_document(
    alloc: Global,
    handle: &mut Handle,
    size: &mut usize,
) -> i32
    ensures status { Says result (text_status (document_said (session_of handle.old))) }
    ensures told { result ≡ done → IfOk (document_said (session_of handle.old)) (λ document.
        (document_of handle.new ≡ document) × (size.new ≡ length document)) }
    ensures none { ¬ (result ≡ done) → (document_of handle.new ≡ []) × (size.new ≡ 0) }
    ensures stays { session_of handle.new ≡ session_of handle.old }
    ensures place { handle.new.at ≡ handle.old.at }
{
    *size = 0;
    let opened = handle.opened();
    opened.document = Pieces::new(Vec::new(alloc));
    match opened.session.rows_document(alloc) {
        Ok(document) => {
            *size = document.len();
            opened.document = Pieces::new(document);
            DONE
        }
        Err(fault) => rows_status(fault),
    }
}

/// Moves bytes of the rows document that waits to the front of `into`, as many as there are or as fit, and gives how
/// many. Once none waits their memory is freed.
#[unsafe(no_mangle)]
pub extern "C" fn calvin_c_drain_rows(alloc: Global, handle: &mut Handle, into: &mut [u8]) -> usize
    ensures drained { IsDrained (document_of handle.old) (document_of handle.new) into.old into.new result }
    ensures stays { session_of handle.new ≡ session_of handle.old }
    ensures place { handle.new.at ≡ handle.old.at }
{
    let document = &mut handle.opened().document;
    let count = document.drain(into);
    document.shrink(alloc);
    count
}

/// How many calls are carried to the next batch, in `count`. 1 and 3: a fault has stopped the session, and `count` is
/// 0.
#[unsafe(no_mangle)]
pub extern "C" fn calvin_c_carried(handle: &mut Handle, count: &mut usize) -> i32
    ensures told { TellsCarried result count.new (carried_said (session_of handle.old)) }
    ensures stays { session_of handle.new ≡ session_of handle.old }
    ensures place { LiesStill handle.old handle.new }
{
    *count = 0;
    match handle.opened().session.carried() {
        Ok(carried) => {
            *count = carried;
            DONE
        }
        Err(fault) => rows_status(fault),
    }
}

/// The digest of all rows, as the report has it: 64 digits, at the front of `digits` as far as they fit. 1 and 3: a
/// fault has stopped the session. 3: allocation failed, too.
#[unsafe(no_mangle)]
pub extern "C" fn calvin_c_digest(handle: &mut Handle, digits: &mut [u8]) -> i32
    ensures status { Says result (text_status (digest_said (session_of handle.old))) }
    ensures told { result ≡ done → IfOk (digest_said (session_of handle.old)) (λ digest.
        take (min (length digest) (length digits.old)) digits.new ≡ take (length digits.old) digest) }
    ensures stays { session_of handle.new ≡ session_of handle.old }
    ensures place { LiesStill handle.old handle.new }
{
    match handle.opened().session.digest() {
        Ok(digest) => {
            let count = digest.len().min(digits.len());
            digits[..count].copy_from_slice(&digest.as_bytes()[..count]);
            DONE
        }
        Err(fault) => rows_status(fault),
    }
}
