//! The digest of all row lines: the rows of each table, gathered from the partitions of a view and sorted.

ghost use Rattle.std.specs.Prelude.{◌≡◌, ◌<◌, ◌++◌, List, ℕ, OnOk, IfOk, length, string_bytes};
ghost use Rattle.row_text.specs.Texts.{digest, row_lines, row_text};
ghost use Rattle.row_text.specs.Feeding.{IsFed, table_lines};
ghost use Rattle.row_text.specs.Merge.{rows_of, ShowsAll};

use crate::feed::Feed;
use crate::gathered::rows_of_table;
use crate::room::{MOST_NEAR, TOGETHER, most_of_rows};
use crate::scratch::Scratch;
use catalogue::Catalogue;
use std::alloc::{AllocError, Global};
use values::{Key, Row, TableNo};
use workspace::RowView;

/// Feeds the lines of rows of a table. Rows that may be far from the processor are looked at ahead.
pub(crate) fn feed_rows(
    alloc: Global,
    catalogue: &Catalogue,
    table: TableNo,
    rows: &[(Key, &Row)],
    far: bool,
    feed: &mut Feed,
) -> Result<(), AllocError>
    ensures { (all : List ℕ) → IsFed feed.old all →
        OnOk result (IsFed feed.new (all ++ table_lines catalogue.now table rows.now)) }
{
    let mut scratch = Scratch::new(alloc);
    let mut start = 0;
    while start < rows.len() {
        let end = start.saturating_add(TOGETHER).min(rows.len());
        let few = &rows[start..end];
        let most = if far { most_of_rows(few) } else { 0 };
        feed.make_room(most)?;
        feed.push_rows(alloc, catalogue, table, few, &mut scratch)?;
        start = end;
    }
    Ok(())
}

/// Feeds the row lines of a table.
fn feed_table<V: RowView>(
    alloc: Global,
    catalogue: &Catalogue,
    view: &V,
    table: TableNo,
    feed: &mut Feed,
) -> Result<(), AllocError>
    requires tables { V.tables view.now ≡ catalogue.now }
    requires shows { ShowsAll (V.shows view.now) }
    requires table { table < length catalogue.now }
    ensures { (all : List ℕ) → IsFed feed.old all →
        OnOk result (IsFed feed.new (all ++ row_lines catalogue.now (rows_of table (V.rows view.now)))) }
{
    let rows = rows_of_table(alloc, catalogue, view, table)?;
    let far = rows.len() > MOST_NEAR;
    feed_rows(alloc, catalogue, table, rows.as_slice(), far, feed)
}

/// The digest of the row lines of a view that shows every name: by table in declared order, and by ascending key.
pub(crate) fn row_text_digest<V: RowView>(
    alloc: Global,
    catalogue: &Catalogue,
    view: &V,
) -> Result<String, AllocError>
    requires tables { V.tables view.now ≡ catalogue.now }
    requires shows { ShowsAll (V.shows view.now) }
    ensures { IfOk result (λ t. string_bytes t ≡ digest (row_text catalogue.now (V.rows view.now))) }
{
    let mut feed = Feed::new(alloc);
    for place in 0..catalogue.len() {
        feed_table(alloc, catalogue, view, TableNo::new(place), &mut feed)?;
    }
    feed.digest(alloc)
}
