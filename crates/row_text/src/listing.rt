//! The row lines of a table, and those of all tables, as texts.

ghost use Rattle.std.specs.Prelude.{◌≡◌, ◌<◌, ◌++◌, IfOk, OnOk, length};
ghost use Rattle.row_text.specs.Merge.{rows_of, ShowsAll};
ghost use Rattle.row_text.specs.Texts.{row_lines, row_text};

use crate::gathered::rows_of_table;
use crate::scratch::Scratch;
use catalogue::Catalogue;
use std::alloc::{AllocError, Global};
use values::TableNo;
use workspace::RowView;

/// Appends the row lines of a table.
fn push_table<V: RowView>(
    alloc: Global,
    catalogue: &Catalogue,
    view: &V,
    table: TableNo,
    text: &mut Vec<u8>,
) -> Result<(), AllocError>
    requires tables { V.tables view.now ≡ catalogue.now }
    requires shows { ShowsAll (V.shows view.now) }
    requires table { table < length catalogue.now }
    ensures { OnOk result
        (text.new.items ≡ text.old.items ++ row_lines catalogue.now (rows_of table (V.rows view.now))) }
{
    let rows = rows_of_table(alloc, catalogue, view, table)?;
    let mut scratch = Scratch::new(alloc);
    scratch.push_each(alloc, catalogue, table, rows.as_slice(), text)
}

/// The row lines of a table of a view that shows every name, by ascending key.
pub fn table_text<V: RowView>(
    alloc: Global,
    catalogue: &Catalogue,
    view: &V,
    table: TableNo,
) -> Result<Vec<u8>, AllocError>
    requires tables { V.tables view.now ≡ catalogue.now }
    requires shows { ShowsAll (V.shows view.now) }
    requires table { table < length catalogue.now }
    ensures { IfOk result (λ text. text.items ≡ row_lines catalogue.now (rows_of table (V.rows view.now))) }
{
    let mut text = Vec::new(alloc);
    push_table(alloc, catalogue, view, table, &mut text)?;
    Ok(text)
}

/// The row lines of a view that shows every name: tables in declared order, keys ascending.
pub fn rows_text<V: RowView>(
    alloc: Global,
    catalogue: &Catalogue,
    view: &V,
) -> Result<Vec<u8>, AllocError>
    requires tables { V.tables view.now ≡ catalogue.now }
    requires shows { ShowsAll (V.shows view.now) }
    ensures { IfOk result (λ text. text.items ≡ row_text catalogue.now (V.rows view.now)) }
{
    let mut text = Vec::new(alloc);
    for place in 0..catalogue.len() {
        push_table(alloc, catalogue, view, TableNo::new(place), &mut text)?;
    }
    Ok(text)
}
