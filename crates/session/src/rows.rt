//! The rows of a session, as the batches that were executed have left them.

ghost use Rattle.std.specs.Prelude.{◌≡◌, ◌<◌, ◌^◌, List, ℕ, IfOk, OnOk, Some, None, nat_lt, if◌then◌else◌, option_copied, option_map, string_bytes, length, false};
ghost use Rattle.std.specs.FinMap as map_of;
ghost use Rattle.std.specs.List.{AllByRecursion};
ghost use Rattle.documents.specs.Reading.{Reads};
ghost use Rattle.row_text.specs.Texts.{rows_in_order};
ghost use Rattle.rows_document.specs.Said.{IsHeldRow};
ghost use Rattle.engine.specs.Engines.{is_busy};
ghost use Rattle.running.specs.Starts.{Start};
ghost use Rattle.session.specs.Replies.{NumberedReply};
ghost use Rattle.session.specs.Rows.{IsNextOfTable};
ghost use Rattle.session.specs.Scanning.{any_key, in_part, key_up_to, lesser_of, IsNextKeyAmong};

use crate::session::{Session, SessionFault};
use batch_log::LogFault;
use engine::BatchEngine;
use row_store::{RowStore, all_is_free_with_nothing_lent};
use rows_document::document_text;
use std::alloc::Global;
use thiserror::Error;
use values::{Key, NoMemory, Row, TableNo};
use workspace::RowView;

/// The greatest key.
const GREATEST_KEY: u64 = (1 << 63) - 1;

/// Why nothing is told of the rows. Nothing has changed then.
#[derive(Clone, Copy, Debug, PartialEq, Eq, Error)]
pub enum RowsFault {
    /// A fault has stopped the run, perhaps within a batch.
    #[error(transparent)]
    Stopped(LogFault),
    /// The setup has no table of that name.
    #[error("no such table")]
    NoTable,
    /// An allocation failed.
    #[error(transparent)]
    NoMemory(NoMemory),
}

/// The key with a number, `None` exactly where the number is 2^63 or greater.
fn key_with(number: u64) -> Option<Key>
    ensures { result ≡ (if nat_lt number (2 ^ 63) then Some number else None) }
{
    if number > GREATEST_KEY {
        return None;
    }
    Key::new(number as i64)
}

/// The key with a number, or the greatest key where the number is greater: no key comes after either.
fn key_up_to(number: u64) -> Key
    ensures { result ≡ key_up_to number }
{
    match Key::new(number.min(GREATEST_KEY) as i64) {
        Some(key) => key,
        None => unreachable!(),
    }
}

/// The same, where there is a number.
fn key_after(after: Option<u64>) -> Option<Key>
    ensures { result ≡ option_map key_up_to after }
{
    match after {
        Some(number) => Some(key_up_to(number)),
        None => None,
    }
}

/// Of two keys, where there are two, the lesser one.
fn lesser(one: Option<Key>, other: Option<Key>) -> Option<Key>
    ensures { result ≡ lesser_of one other }
{
    let Some(one) = one else {
        return other;
    };
    let Some(other) = other else {
        return Some(one);
    };
    if other.number() < one.number() {
        Some(other)
    } else {
        Some(one)
    }
}

/// The least key after one, or the least of all, that a row of a partition has.
fn next_key_in_part(rows: &RowStore, table: TableNo, part: u32, after: &Option<Key>) -> Option<Key>
    requires { rows.now.lent ≡ map_of.empty }
    ensures { IsNextKeyAmong (in_part rows.now.tables table part) rows.now.rows table after.now result }
{
    // proof: with nothing lent each row is shown.
    all_is_free_with_nothing_lent();
    match rows.next_row(table, part, *after) {
        Some((key, _)) => Some(key),
        None => None,
    }
}

/// The least key after one, or the least of all, that a row of a table has: of the keys that come next in its
/// partitions, the least.
fn next_key(rows: &RowStore, table: TableNo, after: &Option<Key>) -> Option<Key>
    requires unlent { rows.now.lent ≡ map_of.empty }
    requires table { table < length rows.now.tables }
    ensures { IsNextKeyAmong any_key rows.now.rows table after.now result }
{
    let mut least = None;
    for part in 0..rows.catalogue().partitions(table) {
        least = lesser(least, next_key_in_part(rows, table, part, after));
    }
    least
}

/// The row with that key, and its key.
fn next_of_table(rows: &RowStore, table: TableNo, after: Option<Key>) -> Option<(Key, &Row)>
    requires unlent { rows.now.lent ≡ map_of.empty }
    requires table { table < length rows.now.tables }
    ensures { IsNextOfTable rows.now.rows table after (option_map (λ row. (row.0, row.1.now)) result) }
{
    // proof: with nothing lent each row is shown.
    all_is_free_with_nothing_lent();
    let Some(key) = next_key(rows, table, &after) else {
        return None;
    };
    match rows.row(table, key) {
        Some(row) => Some((key, row)),
        None => unreachable!(),
    }
}

impl Session {
    ghost use Rattle.session.specs.Rows.{carried_said, digest_said, document_said, is_of_memory, row_with, table_said, told_until, AreRowsAfter, IsCarriedAfter, Tells};
    ghost use Rattle.session.specs.Sessions.{carried_of, rows_of, stop_of, tables_of, HasTaken};

    /// Whether rows are told of: no fault has stopped the run.
    fn tells_rows(&self) -> Result<(), RowsFault>
        ensures said { result ≡ told_until (stop_of self.now) }
        ensures idle { OnOk result (is_busy self.now.work.engine ≡ false) }
    {
        match self.stop {
            None | Some(SessionFault::Over) => Ok(()),
            Some(SessionFault::Log(fault)) => Err(RowsFault::Stopped(fault)),
        }
    }

    /// The place of the table with a name.
    fn table(&self, name: &str) -> Result<TableNo, RowsFault>
        ensures said { result ≡ table_said self.now name.now }
        ensures there { IfOk result (λ table. table < length (tables_of self.now)) }
        ensures idle { OnOk result (is_busy self.now.work.engine ≡ false) }
    {
        self.tells_rows()?;
        match self.work.engine.rows().catalogue().table(name) {
            Some(table) => Ok(table),
            None => Err(RowsFault::NoTable),
        }
    }

    /// The row of a table with a key, `None` exactly where there is none. A key is below 2^63. The rows are those that
    /// the batches which were executed have left, after the end of the log too. An error is `Stopped`, or else
    /// `NoTable`.
    pub fn row(&self, table: &str, key: u64) -> Result<Option<&Row>, RowsFault>
        ensures row { Tells (table_said self.now table.now)
            (λ place row. option_copied row ≡ row_with (rows_of self.now) place key) result }
        ensures rows { (start : Start) (fed drained : List ℕ) (passed : List NumberedReply) →
            HasTaken start fed drained passed self.now → AreRowsAfter start fed (rows_of self.now) }
    {
        let table = self.table(table)?;
        let rows = self.work.engine.rows();
        // proof: with nothing lent each row is shown.
        all_is_free_with_nothing_lent();
        match key_with(key) {
            Some(key) => Ok(rows.row(table, key)),
            None => Ok(None),
        }
    }

    /// The row of a table with the least key greater than `after`, or with the least key of all, and its key; `None`
    /// exactly where there is none. So a cursor goes over a table by ascending keys, whatever its partitions are. An
    /// error is `Stopped`, or else `NoTable`.
    pub fn next_row(
        &self,
        table: &str,
        after: Option<u64>,
    ) -> Result<Option<(u64, &Row)>, RowsFault>
        ensures row { Tells (table_said self.now table.now)
            (λ place found. IsNextOfTable (rows_of self.now) place after
            (option_map (λ row. (row.0, row.1.now)) found)) result }
        ensures rows { (start : Start) (fed drained : List ℕ) (passed : List NumberedReply) →
            HasTaken start fed drained passed self.now → AreRowsAfter start fed (rows_of self.now) }
    {
        let table = self.table(table)?;
        match next_of_table(self.work.engine.rows(), table, key_after(after)) {
            Some((key, row)) => Ok(Some((key.number(), row))),
            None => Ok(None),
        }
    }

    /// How many requests are carried past the rows to the next batch, where they are tried again: under retries 1 and 2
    /// stale ones, without retries none. Where it is 0 another run that starts from the rows goes on as this one. An
    /// error is `Stopped`.
    pub fn carried(&self) -> Result<usize, RowsFault>
        ensures said { result ≡ carried_said self.now }
        ensures carried { (start : Start) (fed drained : List ℕ) (passed : List NumberedReply) →
            HasTaken start fed drained passed self.now → IsCarriedAfter start fed (carried_of self.now) }
    {
        self.tells_rows()?;
        Ok(self.work.engine.carried())
    }

    /// The digest of the rows as a batch line and the end line have it: 64 digits, of the text of the rows of which the
    /// setup wants digests. An error is `Stopped`, or else `NoMemory`, and changes nothing.
    pub fn digest(&mut self) -> Result<String, RowsFault>
        ensures digest { Reads is_of_memory (λ text. string_bytes text) result (digest_said self.old) }
        ensures same { self.new ≡ self.old }
        ensures rows { (start : Start) (fed drained : List ℕ) (passed : List NumberedReply) →
            HasTaken start fed drained passed self.new → AreRowsAfter start fed (rows_of self.new) }
    {
        self.tells_rows()?;
        let form = self.work.transcript.form();
        match self.work.engine.rows_digest(form) {
            Ok(text) => Ok(text),
            Err(_) => Err(RowsFault::NoMemory(NoMemory)),
        }
    }

    /// The rows as a rows document, from which a setup can start (`setup::read_setup_with_rows`). An error is
    /// `Stopped`, or else `NoMemory`.
    pub fn rows_document(&self, alloc: Global) -> Result<Vec<u8>, RowsFault>
        ensures document { Reads is_of_memory (λ text. text.items) result (document_said self.now) }
        // The rows have keys, numbers and texts as rows documents can say them.
        ensures held { OnOk result (AllByRecursion IsHeldRow (rows_in_order (tables_of self.now) (rows_of self.now))) }
        ensures rows { (start : Start) (fed drained : List ℕ) (passed : List NumberedReply) →
            HasTaken start fed drained passed self.now → AreRowsAfter start fed (rows_of self.now) }
    {
        self.tells_rows()?;
        let rows = self.work.engine.rows();
        // proof: with nothing lent each row is shown.
        all_is_free_with_nothing_lent();
        match document_text(alloc, rows.catalogue(), rows) {
            Ok(document) => Ok(document),
            Err(_) => Err(RowsFault::NoMemory(NoMemory)),
        }
    }
}
