//! The rows of a table by ascending key, although a view gives them partition by partition.

ghost use Rattle.std.specs.Prelude.{◌≡◌, ◌<◌, IfOk, IsPermutation, length};
ghost use Rattle.workspace.specs.Scan.{by_key, referred};
ghost use Rattle.row_text.specs.Merge.{rows_of, ShowsAll};

use crate::room::MOST_NEAR;
use catalogue::Catalogue;
use std::alloc::{AllocError, Global};
use values::{Key, Row, TableNo};
use workspace::RowView;

/// The rows of a table with their keys, partition by partition.
fn rows_by_part<'a, V: RowView>(
    alloc: Global,
    catalogue: &Catalogue,
    view: &'a V,
    table: TableNo,
) -> Result<Vec<(Key, &'a Row)>, AllocError>
    requires tables { V.tables view.now ≡ catalogue.now }
    requires shows { ShowsAll (V.shows view.now) }
    requires table { table < length catalogue.now }
    ensures { IfOk result (λ rows. IsPermutation (by_key (rows_of table (V.rows view.now))) (referred rows.items)) }
{
    let mut gathered = Vec::new(alloc);
    for part in 0..catalogue.partitions(table) {
        view.push_rows(table, part, &mut gathered)?;
    }
    Ok(gathered)
}

/// The least number of a key, and the greatest of all where there is no row.
fn least_number(rows: &[(Key, &Row)]) -> u64 {
    let mut least = u64::MAX;
    for row in rows {
        least = least.min(row.0.number());
    }
    least
}

/// Whether each key is less above a number than there are rows. No two rows have one key, so the
/// keys then are consecutive numbers from that one on.
fn are_consecutive(rows: &[(Key, &Row)], least: u64) -> bool {
    for row in rows {
        if row.0.number().wrapping_sub(least) >= rows.len() as u64 {
            return false;
        }
    }
    true
}

/// Puts rows whose keys are consecutive numbers from that one on where they belong. Each turn brings
/// one row there or goes on by one place, so that twice as many turns as there are rows are enough.
fn place(rows: &mut [(Key, &Row)], least: u64)
    ensures { IsPermutation rows.old rows.new }
{
    let mut at = 0;
    for _ in 0..rows.len().saturating_mul(2) {
        if at >= rows.len() {
            return;
        }
        let home = rows[at].0.number().wrapping_sub(least) as usize;
        if home == at || home >= rows.len() {
            at += 1;
        } else {
            rows.swap(at, home);
        }
    }
}

/// Puts rows whose keys are consecutive numbers into the order of their keys, in which a sort leaves them. Other rows
/// stay where they are, and so do rows that are far from the processor: each exchange would wait for the one before it,
/// and a sort, which merges the ascending rows of the partitions, takes half as long.
fn place_consecutive(rows: &mut [(Key, &Row)])
    ensures { IsPermutation rows.old rows.new }
{
    if rows.len() > MOST_NEAR {
        return;
    }
    let least = least_number(rows);
    if are_consecutive(rows, least) {
        place(rows, least);
    }
}

/// The rows of a table with their keys, by ascending key.
pub fn rows_of_table<'a, V: RowView>(
    alloc: Global,
    catalogue: &Catalogue,
    view: &'a V,
    table: TableNo,
) -> Result<Vec<(Key, &'a Row)>, AllocError>
    requires tables { V.tables view.now ≡ catalogue.now }
    requires shows { ShowsAll (V.shows view.now) }
    requires table { table < length catalogue.now }
    ensures { IfOk result (λ rows. referred rows.items ≡ by_key (rows_of table (V.rows view.now))) }
{
    let mut rows = rows_by_part(alloc, catalogue, view, table)?;
    place_consecutive(&mut rows);
    rows.sort_by_key(|row| row.0)?;
    Ok(rows)
}
