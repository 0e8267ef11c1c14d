//! The rows of a view as a rows document.

ghost use Rattle.std.specs.Prelude.{◌≡◌, ◌<◌, ◌++◌, List, IfOk, OnOk, length};
ghost use Rattle.std.specs.List.{AllByRecursion};
ghost use Rattle.values.specs.declared.name.RowName.{RowName};
ghost use Rattle.values.specs.Database.{RowOf};
ghost use Rattle.row_text.specs.Merge.{rows_of, ShowsAll};
ghost use Rattle.row_text.specs.Texts.{rows_in_order};
ghost use Rattle.rows_document.specs.Listing.{Lists, named, table_head};
ghost use Rattle.rows_document.specs.Said.{IsHeldRow};
ghost use Rattle.rows_document.specs.Texts.{rows_document, table_document};

use crate::escaped::push_json_text;
use crate::listing::Listing;
use catalogue::Catalogue;
use row_text::rows_of_table;
use std::alloc::{AllocError, Global};
use values::{Key, Row, TableNo};
use workspace::RowView;

/// What is before the key of each row of a table.
fn table_head(alloc: Global, catalogue: &Catalogue, table: TableNo) -> Result<Vec<u8>, AllocError>
    requires { table < length catalogue.now }
    ensures { IfOk result (λ head. head.items ≡ table_head catalogue.now table) }
{
    let mut head = Vec::from_slice(alloc, b"[")?;
    push_json_text(&mut head, catalogue.table_name(table))?;
    head.push(b',')?;
    Ok(head)
}

/// Appends rows of a table.
fn push_rows(
    alloc: Global,
    catalogue: &Catalogue,
    table: TableNo,
    rows: &[(Key, &Row)],
    listing: &mut Listing,
) -> Result<(), AllocError>
    requires { table < length catalogue.now }
    ensures listed { (before : List (RowName × RowOf)) → Lists catalogue.now before listing.old →
        OnOk result (Lists catalogue.now (before ++ named table rows.now) listing.new) }
    ensures held { OnOk result (AllByRecursion IsHeldRow (named table rows.now)) }
{
    let head = table_head(alloc, catalogue, table)?;
    for row in rows {
        listing.push(&head, row.0, row.1)?;
    }
    Ok(())
}

/// Appends all rows of a table, by ascending key.
fn push_table<V: RowView>(
    alloc: Global,
    catalogue: &Catalogue,
    view: &V,
    table: TableNo,
    listing: &mut Listing,
) -> Result<(), AllocError>
    requires tables { V.tables view.now ≡ catalogue.now }
    requires shows { ShowsAll (V.shows view.now) }
    requires table { table < length catalogue.now }
    ensures listed { (before : List (RowName × RowOf)) → Lists catalogue.now before listing.old →
        OnOk result (Lists catalogue.now (before ++ rows_of table (V.rows view.now)) listing.new) }
    ensures held { OnOk result (AllByRecursion IsHeldRow (rows_of table (V.rows view.now))) }
{
    let rows = rows_of_table(alloc, catalogue, view, table)?;
    push_rows(alloc, catalogue, table, &rows, listing)
}

/// The rows document of a view that shows every name: tables in declared order, keys ascending.
pub fn document_text<V: RowView>(
    alloc: Global,
    catalogue: &Catalogue,
    view: &V,
) -> Result<Vec<u8>, AllocError>
    requires tables { V.tables view.now ≡ catalogue.now }
    requires shows { ShowsAll (V.shows view.now) }
    ensures text { IfOk result (λ text. text.items ≡ rows_document catalogue.now (V.rows view.now)) }
    // The rows have keys, numbers and texts as rows documents can say them.
    ensures held { OnOk result (AllByRecursion IsHeldRow (rows_in_order catalogue.now (V.rows view.now))) }
{
    let mut listing = Listing::new(alloc)?;
    for place in 0..catalogue.len() {
        push_table(alloc, catalogue, view, TableNo::new(place), &mut listing)?;
    }
    listing.end()
}

/// The rows document of one table of a view that shows every name, by ascending key.
pub fn table_document<V: RowView>(
    alloc: Global,
    catalogue: &Catalogue,
    view: &V,
    table: TableNo,
) -> Result<Vec<u8>, AllocError>
    requires tables { V.tables view.now ≡ catalogue.now }
    requires shows { ShowsAll (V.shows view.now) }
    requires table { table < length catalogue.now }
    ensures { IfOk result (λ text. text.items ≡ table_document catalogue.now table (V.rows view.now)) }
{
    let mut listing = Listing::new(alloc)?;
    push_table(alloc, catalogue, view, table, &mut listing)?;
    listing.end()
}
