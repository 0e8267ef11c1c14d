//! Names that are declared, and tables and columns that are named.

ghost use Rattle.std.specs.Prelude.{◌≡◌, ◌<◌, IfOk, length};
ghost use Rattle.documents.specs.Reading.{Reads};
ghost use Rattle.proclang_expressions.specs.Paths.{places};
ghost use Rattle.proclang_expressions.specs.Faults.{is_memory};
ghost use Rattle.proclang_expressions.specs.Lookups.{declared_at, table_called, column_in, column_called};

use crate::fault::{FaultKind, ProcFault, fault_at};
use crate::path::Path;
use catalogue::Catalogue;
use std::alloc::Global;
use values::{ColType, TableNo, is_name};

/// A name that is declared obeys the rule of names.
pub fn check_name(alloc: Global, path: &Path<'_>, name: &str) -> Result<(), ProcFault>
    ensures { Reads is_memory (λ x. x) result (declared_at (places path.now) name.now) }
{
    if !is_name(name) {
        return Err(fault_at(alloc, FaultKind::Shape, path));
    }
    Ok(())
}

/// The table of that name, or the fault `UnknownTable` at the path.
pub fn read_table(
    alloc: Global,
    path: &Path<'_>,
    catalogue: &Catalogue,
    name: &str,
) -> Result<TableNo, ProcFault>
    ensures exact { Reads is_memory (λ t. t) result (table_called (places path.now) catalogue.now name.now) }
    ensures within { IfOk result (λ t. t < length catalogue.now) }
{
    let Some(table) = catalogue.table(name) else {
        return Err(fault_at(alloc, FaultKind::UnknownTable, path));
    };
    Ok(table)
}

fn find_column(catalogue: &Catalogue, table: TableNo, name: &str) -> Option<(usize, ColType)>
    requires { table < length catalogue.now }
    ensures { result ≡ column_in catalogue.now table name.now }
{
    let column = catalogue.column(table, name)?;
    let kind = catalogue.column_type(table, column)?;
    Some((column, kind))
}

/// The place and the type of the column of that name in a table, or the fault `UnknownColumn` at the path.
pub fn read_column(
    alloc: Global,
    path: &Path<'_>,
    catalogue: &Catalogue,
    table: TableNo,
    name: &str,
) -> Result<(usize, ColType), ProcFault>
    requires { table < length catalogue.now }
    ensures { Reads is_memory (λ c. c) result (column_called (places path.now) catalogue.now table name.now) }
{
    let Some(column) = find_column(catalogue, table, name) else {
        return Err(fault_at(alloc, FaultKind::UnknownColumn, path));
    };
    Ok(column)
}
