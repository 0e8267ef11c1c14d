//! Starting rows, read from their tokens.

ghost use Rattle.std.specs.Prelude.{◌≡◌, ◌∷◌, ◌++◌, List, [], IfSome, Some, Ok, pos};
ghost use Rattle.json.specs.Token.{end_array};
ghost use Rattle.serde_json.specs.Data.{Data};
ghost use Rattle.documents.specs.Reading.{each_at};
ghost use Rattle.value_tokens.specs.Documents.{AreDocuments, IsDocument, WritesInteger};
ghost use Rattle.setup.specs.Names.{HoldsNames};
ghost use Rattle.setup.specs.Tokens.{IsRowRead};
ghost use Rattle.setup.specs.Rows.{row_at, rows_at};

use crate::names::Names;
use catalogue::Catalogue;
use json::Reader;
use std::alloc::Global;
use value_tokens::{take_begin_array, take_integer, take_text, take_values};
use values::{Key, Row, RowName, TableNo};

/// Takes a key.
#[tactic(auto, using(crate::proofs::SaidRows::key_found))]
fn take_key(reader: &mut Reader<'_>) -> Option<Key>
    ensures { IfSome result (λ key. WritesInteger reader.old (pos key) reader.new) }
{
    Key::new(take_integer(reader)?)
}

/// Takes a row `[TABLE, KEY, [VALUE ..]]`, whose name joins those of the rows before it. `None` if the row breaks a
/// rule, or if allocation fails.
fn take_row(
    alloc: Global,
    catalogue: &Catalogue,
    before: &[(TableNo, Key, Row)],
    names: &mut Names,
    reader: &mut Reader<'_>,
) -> Option<(TableNo, Key, Row)>
    ensures row { HoldsNames names.old before.now →
        IfSome result (λ r. IsRowRead catalogue.now before.now reader.old r reader.new) }
    ensures names { HoldsNames names.old before.now →
        IfSome result (λ r. HoldsNames names.new (before.now ++ r ∷ [])) }
{
    take_begin_array(reader)?;
    let table = catalogue.table(take_text(reader)?)?;
    let key = take_key(reader)?;
    let values = take_values(alloc, reader, catalogue.columns_len(table))?;
    if !reader.take_end_array() || !catalogue.takes(table, &values) {
        return None;
    }
    if names.add(alloc, before, RowName::new(table, key)).ok()? {
        Some((table, key, Row::new(values)))
    } else {
        None
    }
}

/// Takes rows up to the bracket that closes their array, which is taken, too.
fn listed_rows(
    alloc: Global,
    catalogue: &Catalogue,
    reader: &mut Reader<'_>,
) -> Option<Vec<(TableNo, Key, Row)>>
    ensures { IfSome result (λ rows. (listed : List Data) × AreDocuments 124 reader.old listed (end_array ∷ reader.new)
        × (each_at (row_at catalogue.now) [] listed ≡ Ok rows.items)) }
{
    let mut names = Names::Ascending(None);
    let mut rows = Vec::new(alloc);
    'rows: while !reader.take_end_array() {
        let row = take_row(alloc, catalogue, &rows, &mut names, reader)?;
        rows.push(row).ok()?;
    }
    Some(rows)
}

/// Takes the starting rows `["rows", 1, [ROW ..]]`. `None` if they break a rule, or if allocation fails.
pub(crate) fn take_rows(
    alloc: Global,
    catalogue: &Catalogue,
    reader: &mut Reader<'_>,
) -> Option<Vec<(TableNo, Key, Row)>>
    ensures { IfSome result (λ rows. (document : Data) × IsDocument 126 reader.old document reader.new
        × (rows_at catalogue.now document ≡ Ok rows.items)) }
{
    take_begin_array(reader)?;
    if take_text(reader)? != "rows" || take_integer(reader)? != 1 {
        return None;
    }
    take_begin_array(reader)?;
    let rows = listed_rows(alloc, catalogue, reader)?;
    if reader.take_end_array() {
        Some(rows)
    } else {
        None
    }
}
