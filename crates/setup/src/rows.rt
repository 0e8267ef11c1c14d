//! Reading starting rows.

ghost use Rattle.std.specs.Prelude.{◌≡◌, ◌<◌, ◌++◌, ◌∷◌, true, false, List, [], length, map, Some, Ok, IfOk, IfErr, OnOk};
ghost use Rattle.serde_json.specs.View.{view};
ghost use Rattle.documents.specs.FirstFault.{first};
ghost use Rattle.documents.specs.Reading.{Reads};
ghost use Rattle.setup.specs.Faults.{is_memory};
ghost use Rattle.setup.specs.FirstFault.{rows_faults};
ghost use Rattle.setup.specs.Names.{HoldsNames};
ghost use Rattle.setup.specs.Rows.{RowAt, row_at, rows_at, row_values};
ghost use Rattle.setup.specs.Says.{SaysRows};

use crate::fault::SetupFault;
use crate::names::Names;
use catalogue::{Catalogue, read_values};
use documents::{text_number_list, versioned_list};
use serde_json::Value;
use std::alloc::Global;
use values::{Key, NoMemory, Row, RowName, TableNo};

/// The row of a table that documents say, `None` where they are not one value a column, of its type.
fn read_row(
    alloc: Global,
    catalogue: &Catalogue,
    table: TableNo,
    documents: &[Value],
) -> Result<Option<Row>, NoMemory>
    requires { table < length catalogue.now }
    ensures { IfOk result (λ row. row ≡ row_values catalogue.now table (map view documents.now)) }
{
    match read_values(alloc, documents)? {
        Some(values) if catalogue.takes(table, &values) => Ok(Some(Row::new(values))),
        _ => Ok(None),
    }
}

/// A row that the document says, whose name joins those of the rows before it.
#[tactic(auto, unfolding(crate::specs::Rows::row_at))]
fn read_one(
    alloc: Global,
    catalogue: &Catalogue,
    before: &[(TableNo, Key, Row)],
    names: &mut Names,
    document: &Value,
) -> Result<(TableNo, Key, Row), SetupFault>
    ensures row { HoldsNames names.old before.now →
        Reads is_memory (λ r. r) result (row_at catalogue.now before.now (view document.now)) }
    ensures names { HoldsNames names.old before.now →
        IfOk result (λ r. HoldsNames names.new (before.now ++ r ∷ [])) }
{
    let (name, key, values) = text_number_list(document).ok_or(SetupFault::Shape)?;
    let table = catalogue.table(name).ok_or(SetupFault::RowTable)?;
    let key = Key::new(key).ok_or(SetupFault::RowKey)?;
    let row = read_row(alloc, catalogue, table, values)?.ok_or(SetupFault::RowValue)?;
    if !names.add(alloc, before, RowName::new(table, key))? {
        return Err(SetupFault::RowTwice);
    }
    Ok((table, key, row))
}

#[tactic(auto, unfolding(crate::specs::Rows::rows_at))]
fn read_document(
    alloc: Global,
    catalogue: &Catalogue,
    document: &Value,
) -> Result<Vec<(TableNo, Key, Row)>, SetupFault>
    ensures { Reads is_memory (λ v. v.items) result (rows_at catalogue.now (view document.now)) }
{
    let documents = versioned_list("rows", document).ok_or(SetupFault::Shape)?;
    let mut names = Names::Ascending(None);
    let mut rows = Vec::new(alloc);
    for document in documents {
        let row = read_one(alloc, catalogue, &rows, &mut names, document)?;
        rows.push(row)?;
    }
    Ok(rows)
}

// rule: row.name
/// The starting rows of a document `["rows", 1, [ROW ..]]`, in its order, or the first rule that the document breaks.
pub fn read_rows(
    alloc: Global,
    catalogue: &Catalogue,
    document: &Value,
) -> Result<Vec<(TableNo, Key, Row)>, SetupFault>
    // What is read is what the document says.
    ensures found { IfOk result (λ v. SaysRows catalogue.now (view document.now) v.items) }
    // Rows that the document says are what is read, unless memory runs out.
    ensures only { (rows : List RowAt) → SaysRows catalogue.now (view document.now) rows →
        Reads is_memory (λ v. v.items) result (Ok rows) }
    // The fault is the first rule that the document breaks.
    ensures first { IfErr result (λ e. is_memory e ≡ false →
        first (rows_faults catalogue.now (view document.now)) ≡ Some e) }
    // A document that is read breaks no rule, and one that breaks none is read, unless memory runs out.
    ensures unbroken { OnOk result (rows_faults catalogue.now (view document.now) ≡ []) }
    ensures none { rows_faults catalogue.now (view document.now) ≡ [] → IfErr result (λ e. is_memory e ≡ true) }
    ensures exact { Reads is_memory (λ v. v.items) result (rows_at catalogue.now (view document.now)) }
{
    match read_document(alloc, catalogue, document) {
        Ok(rows) => Ok(rows),
        Err(fault) => Err(fault),
    }
}
