//! The partition text: for each partition that has a row, a line with the digest of its row lines.

ghost use Rattle.std.specs.Prelude.{◌≡◌, ◌<◌, ◌++◌, Some, IfOk, OnOk, length, option_map, string_bytes};
ghost use Rattle.hex.specs.Hex.{encode_lower};
ghost use Rattle.row_text.specs.Kept.{AreKept};
ghost use Rattle.row_text.specs.Merge.{ShowsAll};
ghost use Rattle.row_text.specs.Partitions.{line_of_partition, partition_count, partition_digest, partition_line, partition_lines, partition_text};
ghost use Rattle.row_text.specs.Texts.{digest};

use crate::digest::{Hash, digest_text, push_table_name};
use crate::feed::Feed;
use crate::kept::KeptDigests;
use crate::rows_in_order::feed_rows;
use catalogue::Catalogue;
use std::alloc::{AllocError, Global};
use values::TableNo;
use workspace::RowView;

/// The hash of the row lines of a partition, `None` without rows.
pub(crate) fn hash_of_rows<V: RowView>(
    alloc: Global,
    catalogue: &Catalogue,
    view: &V,
    table: TableNo,
    part: u32,
) -> Result<Option<Hash>, AllocError>
    requires tables { V.tables view.now ≡ catalogue.now }
    requires shows { ShowsAll (V.shows view.now) }
    ensures { IfOk result (λ found.
        option_map encode_lower found ≡ partition_digest catalogue.now table part (V.rows view.now)) }
{
    let mut rows = Vec::new(alloc);
    view.push_rows(table, part, &mut rows)?;
    if rows.is_empty() {
        return Ok(None);
    }
    let mut feed = Feed::new(alloc);
    feed_rows(alloc, catalogue, table, rows.as_slice(), true, &mut feed)?;
    Ok(Some(feed.hash()))
}

/// The hash of the row lines of a partition, `None` without rows: what is kept, or what is made and kept then.
fn kept_hash<V: RowView>(
    alloc: Global,
    catalogue: &Catalogue,
    view: &V,
    table: TableNo,
    part: u32,
    kept: &mut KeptDigests,
) -> Result<Option<Hash>, AllocError>
    requires tables { V.tables view.now ≡ catalogue.now }
    requires shows { ShowsAll (V.shows view.now) }
    requires part { part < partition_count catalogue.now table }
    requires kept { AreKept catalogue.now (V.rows view.now) kept.old }
    ensures kept { AreKept catalogue.now (V.rows view.now) kept.new }
    ensures hash { IfOk result (λ found.
        option_map encode_lower found ≡ partition_digest catalogue.now table part (V.rows view.now)) }
{
    if let Some(hash) = kept.hash(table, part) {
        return Ok(Some(hash));
    }
    let found = hash_of_rows(alloc, catalogue, view, table, part)?;
    if let Some(hash) = found {
        kept.keep(table, part, hash)?;
    }
    Ok(found)
}

/// Appends the line of a partition whose row lines have that hash.
fn push_partition_line(
    alloc: Global,
    text: &mut String,
    catalogue: &Catalogue,
    table: TableNo,
    part: u32,
    hash: Hash,
) -> Result<(), AllocError>
    ensures { OnOk result (string_bytes text.new
        ≡ string_bytes text.old ++ partition_line catalogue.now table part (Some (encode_lower hash))) }
{
    let digest = hex::encode(alloc, hash)?;
    push_table_name(text, catalogue, table)?;
    writeln!(text, " {part} {digest}")
}

/// Appends the line of a partition; nothing for one without rows.
fn push_partition<V: RowView>(
    alloc: Global,
    catalogue: &Catalogue,
    view: &V,
    table: TableNo,
    part: u32,
    kept: &mut KeptDigests,
    text: &mut String,
) -> Result<(), AllocError>
    requires tables { V.tables view.now ≡ catalogue.now }
    requires shows { ShowsAll (V.shows view.now) }
    requires part { part < partition_count catalogue.now table }
    requires kept { AreKept catalogue.now (V.rows view.now) kept.old }
    ensures kept { AreKept catalogue.now (V.rows view.now) kept.new }
    ensures text { OnOk result (string_bytes text.new
        ≡ string_bytes text.old ++ line_of_partition catalogue.now table (V.rows view.now) part) }
{
    match kept_hash(alloc, catalogue, view, table, part, kept)? {
        None => Ok(()),
        Some(hash) => push_partition_line(alloc, text, catalogue, table, part, hash),
    }
}

/// Appends the lines of a table's partitions, partitions ascending.
fn push_partitions<V: RowView>(
    alloc: Global,
    catalogue: &Catalogue,
    view: &V,
    table: TableNo,
    kept: &mut KeptDigests,
    text: &mut String,
) -> Result<(), AllocError>
    requires tables { V.tables view.now ≡ catalogue.now }
    requires shows { ShowsAll (V.shows view.now) }
    requires table { table < length catalogue.now }
    requires kept { AreKept catalogue.now (V.rows view.now) kept.old }
    ensures kept { AreKept catalogue.now (V.rows view.now) kept.new }
    ensures text { OnOk result (string_bytes text.new
        ≡ string_bytes text.old ++ partition_lines catalogue.now (V.rows view.now) table) }
{
    for part in 0..catalogue.partitions(table) {
        push_partition(alloc, catalogue, view, table, part, kept, text)?;
    }
    Ok(())
}

// rule: report.partitions
/// The digest of the partition text of a view that shows every name: tables in declared order, partitions ascending.
/// Only the rows of partitions without a kept digest are looked at.
pub(crate) fn partition_text_digest<V: RowView>(
    alloc: Global,
    catalogue: &Catalogue,
    view: &V,
    kept: &mut KeptDigests,
) -> Result<String, AllocError>
    requires tables { V.tables view.now ≡ catalogue.now }
    requires shows { ShowsAll (V.shows view.now) }
    requires kept { AreKept catalogue.now (V.rows view.now) kept.old }
    ensures kept { AreKept catalogue.now (V.rows view.now) kept.new }
    ensures digest { IfOk result (λ t.
        string_bytes t ≡ digest (partition_text catalogue.now (V.rows view.now))) }
{
    let mut text = String::new(alloc);
    for place in 0..catalogue.len() {
        push_partitions(alloc, catalogue, view, TableNo::new(place), kept, &mut text)?;
    }
    kept.complete();
    digest_text(alloc, text.as_bytes())
}
