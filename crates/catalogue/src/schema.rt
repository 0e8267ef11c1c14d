//! Whether two catalogues have the same tables and columns.

ghost use Rattle.std.specs.Prelude.{◌≡◌, ◌↔◌, IsTrue};
ghost use Rattle.catalogue.specs.Shapes.{tables_shape, table_shape, columns_shape, column_shape};
ghost use Rattle.catalogue.specs.Schemas.{table_schema, HaveSameSchema};

use crate::table::Table;
use indexmap::IndexMap;
use values::ColType;

/// Whether two columns are the same.
fn is_same_column(name: &String, kind: ColType, other: &String, other_kind: ColType) -> bool
    ensures { IsTrue result ↔ column_shape (name.now, kind) ≡ column_shape (other.now, other_kind) }
{
    name == other && kind == other_kind
}

/// Whether there are the same columns in the same order.
fn are_same_columns(columns: &IndexMap<String, ColType>, others: &IndexMap<String, ColType>) -> bool
    ensures { IsTrue result ↔ columns_shape columns.now.entries ≡ columns_shape others.now.entries }
{
    let mut rest = others.iter();
    for (name, kind) in columns {
        let Some((other, other_kind)) = rest.next() else {
            return false;
        };
        if !is_same_column(name, *kind, other, *other_kind) {
            return false;
        }
    }
    rest.next().is_none()
}

/// Whether two tables have the same name and the same columns.
fn is_same_table(name: &String, table: &Table, other: &String, other_table: &Table) -> bool
    ensures { IsTrue result ↔ table_schema (table_shape (name.now, table.now))
        ≡ table_schema (table_shape (other.now, other_table.now)) }
{
    name == other && are_same_columns(&table.columns, &other_table.columns)
}

/// Whether there are the same tables in the same order, each with the same columns.
pub(crate) fn are_same_tables(
    tables: &IndexMap<String, Table>,
    others: &IndexMap<String, Table>,
) -> bool
    ensures { IsTrue result ↔ HaveSameSchema (tables_shape tables.now.entries) (tables_shape others.now.entries) }
{
    let mut rest = others.iter();
    for (name, table) in tables {
        let Some((other, other_table)) = rest.next() else {
            return false;
        };
        if !is_same_table(name, table, other, other_table) {
            return false;
        }
    }
    rest.next().is_none()
}
