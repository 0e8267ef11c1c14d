//! Scans of partitions.
#![tactic(auto, unfolding(meaning::specs::Runs::and_then))]

ghost use Rattle.std.specs.Prelude.{◌≡◌, ◌≤ℤ◌, ◌+ℤ◌, ◌-ℤ◌, pos, true, IfOk, map, slice_get};
ghost use Rattle.std.specs.FinMap.{len, entries};
ghost use Rattle.footprint.specs.Declaration.{number_or};
ghost use Rattle.meaning.specs.Partitions.{part_rows, keys_of, total};
ghost use Rattle.meaning.specs.Runs.{State, int_result};
ghost use Rattle.workspace.specs.Overlay.{applied};
ghost use Rattle.workspace.specs.Coverage.{permits_part};
ghost use Rattle.workspace.specs.Answers.{Gives};
ghost use Rattle.workspace.specs.Scan.{referred};
ghost use Rattle.workspace.specs.Walks.{total_by_key};

use crate::seen::rows_in;
use crate::shown::Shown;
use crate::stop::Stop;
use crate::view::RowView;
use crate::workspace::Workspace;
use footprint::AbortCode;
use meaning::Ending;
use std::alloc::Global;
use values::{Key, NoMemory, Row, TableNo, Value};

// rule: expression.count
/// How many rows a partition has, after the own writes, or the end of the run where they are more than 2^63 - 1.
#[tactic(auto, using(crate::proofs::Scanned::count_by_key))]
pub fn count_in<V: RowView>(
    shown: &Shown<'_, V>,
    space: &Workspace,
    table: TableNo,
    part: u32,
) -> Result<i64, Stop>
    requires covered { permits_part shown.now.permit table part ≡ true }
    ensures { (state : State) →
        Gives (λ z. z) state result
        (int_result (pos (len
        (part_rows shown.now.permit.catalogue.now table part
        (applied space.now.writes.entries (V.rows shown.now.view.now))))) state) }
{
    let rows = rows_in(*space.variables.allocator(), shown, space, table, part)?;
    match i64::try_from(rows.len()) {
        Ok(number) => Ok(number),
        Err(_) => Err(Stop::End(Ending::Abort(AbortCode::Overflow))),
    }
}

/// The keys of rows, in their order.
fn keys_of(alloc: Global, rows: &[(Key, &Row)]) -> Result<Vec<Key>, NoMemory>
    ensures { IfOk result (λ keys. keys.items ≡ map (λ row. row.0) rows.now) }
{
    let mut keys = Vec::with_capacity(alloc, rows.len())?;
    for (key, _) in rows {
        keys.push(*key)?;
    }
    Ok(keys)
}

/// The keys of the rows of a partition, after the own writes, ascending.
#[tactic(auto, using(crate::proofs::Scanned::keys_by_key))]
pub fn keys_in<V: RowView>(
    alloc: Global,
    shown: &Shown<'_, V>,
    space: &Workspace,
    table: TableNo,
    part: u32,
) -> Result<Vec<Key>, NoMemory>
    requires covered { permits_part shown.now.permit table part ≡ true }
    ensures { IfOk result (λ keys.
        keys.items ≡ keys_of (entries
        (part_rows shown.now.permit.catalogue.now table part
        (applied space.now.writes.entries (V.rows shown.now.view.now))))) }
{
    let rows = rows_in(alloc, shown, space, table, part)?;
    keys_of(alloc, &rows)
}

/// The number in a column of a row; 0 for one that is not there or is a text.
fn number_in(row: &Row, column: usize) -> i64
    ensures { result ≡ number_or (pos 0) (slice_get row.now column) }
{
    match row.get(column) {
        Some(Value::Int(number)) => *number,
        Some(Value::Text(_)) | None => 0,
    }
}

/// One number more.
fn added(sum: i128, number: i64) -> i128
    requires high { sum ≤ℤ pos 170141183460469231713240559642174554112 }
    requires low { (pos 0 -ℤ pos 170141183460469231713240559642174554112) ≤ℤ sum }
    ensures sum { result ≡ sum +ℤ number }
    ensures high { number ≤ℤ pos 9223372036854775808 }
    ensures low { (pos 0 -ℤ pos 9223372036854775808) ≤ℤ number }
{
    sum + i128::from(number)
}

/// The exact total of a column over rows; 0 for a value that is not there or is a text.
fn total_of(rows: &[(Key, &Row)], column: usize) -> i128
    ensures { result ≡ total_by_key column (referred rows.now) }
{
    let mut sum = 0i128;
    for (_, row) in rows {
        sum = added(sum, number_in(row, column));
    }
    sum
}

// rule: expression.sum
/// The exact total of a column over the rows of a partition, after the own writes, or the end of the run where it is
/// outside the signed 64-bit range; 0 for a value that is not there or is a text.
#[tactic(auto, using(crate::proofs::Scanned::total_is))]
pub fn total_in<V: RowView>(
    shown: &Shown<'_, V>,
    space: &Workspace,
    table: TableNo,
    part: u32,
    column: usize,
) -> Result<i64, Stop>
    requires covered { permits_part shown.now.permit table part ≡ true }
    ensures { (state : State) →
        Gives (λ z. z) state result
        (int_result (total (pos 0) column
        (entries (part_rows shown.now.permit.catalogue.now table part
        (applied space.now.writes.entries (V.rows shown.now.view.now))))) state) }
{
    let rows = rows_in(*space.variables.allocator(), shown, space, table, part)?;
    match i64::try_from(total_of(&rows, column)) {
        Ok(number) => Ok(number),
        Err(_) => Err(Stop::End(Ending::Abort(AbortCode::Overflow))),
    }
}
