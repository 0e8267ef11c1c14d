//! Rows by their names, in short lists.

ghost use Rattle.std.specs.Prelude.{◌≡◌, true, Some, ◌&&◌, if◌then◌else◌, option_map, is_some};
ghost use Rattle.std.specs.Option.{option_or};
ghost use Rattle.values.specs.declared.name.RowName.{RowName as AnyName};
ghost use Rattle.shelves.specs.Places.{shared_row, is_same_name};
ghost use Rattle.shelves.specs.Named.{listed, is_listed, names_listed};

use shelves::NamedRow;
use std::sync::Arc;
use values::{Row, RowName};

/// Whether two names are one.
fn is_same_name(a: &RowName, b: &RowName) -> bool
    ensures { result ≡ is_same_name a.now b.now }
{
    a == b
}

/// The first entry of a name.
pub(crate) fn entry_of<'a>(rows: &'a [NamedRow], name: &RowName) -> Option<&'a NamedRow>
    ensures { option_map (λ e. shared_row e.now.row) result ≡ listed rows.now name.now }
{
    for entry in rows {
        if is_same_name(&entry.name, name) {
            return Some(entry);
        }
    }
    None
}

/// Gives a name that is listed a row, or none.
fn set_row(rows: &mut Vec<NamedRow>, name: &RowName, row: Option<Arc<Row>>)
    ensures names { names_listed rows.new.items ≡ names_listed rows.old.items }
    ensures rows { (q : AnyName) →
        listed rows.new.items q ≡ (if is_same_name name.now q && is_listed rows.old.items q then Some (shared_row row)
        else listed rows.old.items q) }
{
    for place in 0..rows.len() {
        if is_same_name(&rows[place].name, name) {
            rows[place].row = row;
            return;
        }
    }
}

/// Gives names that are listed the rows of another list.
pub(crate) fn set_rows(rows: &mut Vec<NamedRow>, made: Vec<NamedRow>)
    requires { (q : AnyName) → is_some (listed made.items q) ≡ true → is_listed rows.old.items q ≡ true }
    ensures names { names_listed rows.new.items ≡ names_listed rows.old.items }
    ensures rows { (q : AnyName) →
        listed rows.new.items q ≡ option_or (listed made.items q) (listed rows.old.items q) }
{
    let mut left = made;
    while let Some(NamedRow { name, row }) = left.pop() {
        set_row(rows, &name, row);
    }
}
