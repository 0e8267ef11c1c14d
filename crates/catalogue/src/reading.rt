//! Reading a catalogue, with the first fault from left to right.

ghost use Rattle.std.specs.Prelude.{◌≡◌, ◌<◌, ◌^◌, List, [], ◌∷◌, ◌++◌, Some, map, string_bytes, false, OnOk, IfOk, IfErr};
ghost use Rattle.std.specs.List.{AllByRecursion};
ghost use Rattle.serde_json.specs.View.{view};
ghost use Rattle.documents.specs.Reading.{Reads};
ghost use Rattle.catalogue.specs.Shapes.{column_shape, columns_shape, split_shape, table_shape, tables_shape};
ghost use Rattle.catalogue.specs.Reading.{is_memory, is_column, is_table, column_at, columns_at, partitions_at, SplitForm as SaidSplit, split_at, body_at, body_shape, table_at, tables_at, catalogue_at};
ghost use Rattle.catalogue.specs.Bounds.{has_bounds, form_said, bound_said, bounds_after, IsSigned};
ghost use Rattle.catalogue.specs.declared.fault.CatalogueFault.TheVariants.{Memory};

use crate::document::{catalogue_form, column_form, table_form};
use crate::fault::CatalogueFault;
use crate::split::Split;
use crate::split_form::SplitForm;
use crate::table::Table;
use crate::version::Version;
use indexmap::IndexMap;
use serde_json::Value;
use std::alloc::Global;
use values::{ColType, Key, is_name};

fn has_column(columns: &IndexMap<String, ColType>, name: &str) -> bool
    ensures { result ≡ is_column name.now (columns_shape columns.now.entries) }
{
    columns.contains_key(name)
}

/// Appends a column.
fn push_column(
    columns: &mut IndexMap<String, ColType>,
    name: String,
    kind: ColType,
) -> Result<(), CatalogueFault>
    requires { is_column (string_bytes name) (columns_shape columns.old.entries) ≡ false }
    ensures pushed { OnOk result (columns_shape columns.new.entries
        ≡ columns_shape columns.old.entries ++ column_shape (name, kind) ∷ []) }
    ensures memory { IfErr result (λ e. e ≡ Memory) }
{
    columns.insert(name, kind)?;
    Ok(())
}

#[tactic(auto, unfolding(crate::specs::Reading::column_at))]
fn read_column(
    alloc: Global,
    earlier: &IndexMap<String, ColType>,
    value: &Value,
) -> Result<(String, ColType), CatalogueFault>
    ensures exact { Reads is_memory column_shape result
        (column_at (columns_shape earlier.now.entries) (view value.now)) }
    ensures fresh { IfOk result (λ c. is_column (string_bytes c.0) (columns_shape earlier.now.entries) ≡ false) }
{
    let (name, kind) = column_form(value).ok_or(CatalogueFault::Shape)?;
    if !is_name(name) {
        return Err(CatalogueFault::BadName);
    }
    if has_column(earlier, name) {
        return Err(CatalogueFault::DuplicateName);
    }
    let name = String::from_str(alloc, name)?;
    Ok((name, kind))
}

fn read_columns(
    alloc: Global,
    values: &[Value],
) -> Result<IndexMap<String, ColType>, CatalogueFault>
    ensures { Reads is_memory (λ m. columns_shape m.entries) result (columns_at [] (map view values.now)) }
{
    let mut columns = IndexMap::new(alloc);
    for value in values {
        let (name, kind) = read_column(alloc, &columns, value)?;
        push_column(&mut columns, name, kind)?;
    }
    Ok(columns)
}

fn read_partitions(number: i64) -> Result<u32, CatalogueFault>
    ensures { Reads is_memory (λ n. n) result (partitions_at number) }
{
    if number < 1 || number > 1024 {
        return Err(CatalogueFault::Limit);
    }
    Ok(number as u32)
}

/// The bound that a document says, above the one before it.
fn read_bound(before: Key, document: &Value) -> Result<Key, CatalogueFault>
    ensures { Reads is_memory (λ k. k) result (bound_said before (view document.now)) }
{
    let number = document.as_i64().ok_or(CatalogueFault::Shape)?;
    let bound = Key::new(number).ok_or(CatalogueFault::BadBounds)?;
    if bound <= before {
        return Err(CatalogueFault::BadBounds);
    }
    Ok(bound)
}

#[tactic(auto, using(crate::proofs::Pushed::all_pushed))]
fn read_bounds(alloc: Global, documents: &[Value]) -> Result<Vec<Key>, CatalogueFault>
    ensures exact { Reads is_memory (λ v. v.items) result (bounds_after [] 0 (map view documents.now)) }
    ensures signed { IfOk result (λ v. AllByRecursion (λ bound. bound < 2 ^ 63) v.items) }
{
    let mut bounds = Vec::with_capacity(alloc, documents.len())?;
    let mut before = Key::zero();
    for document in documents {
        before = read_bound(before, document)?;
        bounds.push(before)?;
    }
    Ok(bounds)
}

#[tactic(auto, unfolding(crate::specs::Reading::split_at))]
fn read_split(alloc: Global, form: SplitForm<'_>) -> Result<Split, CatalogueFault>
    ensures exact { (said : SaidSplit) → form_said form.entry ≡ Some said →
        Reads is_memory split_shape result (split_at said) }
    ensures signed { IfOk result (λ s. IsSigned (split_shape s)) }
{
    match form {
        SplitForm::Counted(count) => Ok(Split::Remainder(read_partitions(count)?)),
        SplitForm::Bounded(documents) => {
            if documents.len() > 1023 {
                return Err(CatalogueFault::Limit);
            }
            Ok(Split::Bounds(read_bounds(alloc, documents)?))
        }
    }
}

fn has_table(tables: &IndexMap<String, Table>, name: &str) -> bool
    ensures { result ≡ is_table name.now (tables_shape tables.now.entries) }
{
    tables.contains_key(name)
}

/// Appends a table.
fn push_table(
    tables: &mut IndexMap<String, Table>,
    name: String,
    table: Table,
) -> Result<(), CatalogueFault>
    requires { is_table (string_bytes name) (tables_shape tables.old.entries) ≡ false }
    ensures pushed { OnOk result (tables_shape tables.new.entries
        ≡ tables_shape tables.old.entries ++ table_shape (name, table) ∷ []) }
    ensures memory { IfErr result (λ e. e ≡ Memory) }
{
    tables.insert(name, table)?;
    Ok(())
}

#[tactic(auto, unfolding(crate::specs::Reading::body_at))]
fn read_body(
    alloc: Global,
    split: SplitForm<'_>,
    columns: &[Value],
) -> Result<Table, CatalogueFault>
    ensures exact { (said : SaidSplit) → form_said split.entry ≡ Some said →
        Reads is_memory body_shape result (body_at said (map view columns.now)) }
    ensures signed { IfOk result (λ t. IsSigned (split_shape t.split)) }
{
    let split = read_split(alloc, split)?;
    if columns.is_empty() {
        return Err(CatalogueFault::NoColumn);
    }
    if columns.len() > 16 {
        return Err(CatalogueFault::Limit);
    }
    let columns = read_columns(alloc, columns)?;
    Ok(Table { split, columns })
}

#[tactic(auto, unfolding(crate::specs::Reading::table_at))]
fn read_table(
    alloc: Global,
    version: Version,
    earlier: &IndexMap<String, Table>,
    value: &Value,
) -> Result<(String, Table), CatalogueFault>
    ensures exact { Reads is_memory table_shape result
        (table_at (has_bounds version) (tables_shape earlier.now.entries) (view value.now)) }
    ensures fresh { IfOk result (λ t. is_table (string_bytes t.0) (tables_shape earlier.now.entries) ≡ false) }
    ensures signed { IfOk result (λ t. IsSigned (split_shape t.1.split)) }
{
    let (name, split, columns) = table_form(version, value).ok_or(CatalogueFault::Shape)?;
    if !is_name(name) {
        return Err(CatalogueFault::BadName);
    }
    if has_table(earlier, name) {
        return Err(CatalogueFault::DuplicateName);
    }
    let table = read_body(alloc, split, columns)?;
    let name = String::from_str(alloc, name)?;
    Ok((name, table))
}

#[tactic(auto, using(crate::proofs::Pushed::all_pushed))]
fn read_tables(
    alloc: Global,
    version: Version,
    values: &[Value],
) -> Result<IndexMap<String, Table>, CatalogueFault>
    ensures exact { Reads is_memory (λ m. tables_shape m.entries) result
        (tables_at (has_bounds version) [] (map view values.now)) }
    ensures signed { IfOk result (λ m. AllByRecursion (λ t. IsSigned t.split) (tables_shape m.entries)) }
{
    let mut tables = IndexMap::new(alloc);
    for value in values {
        let (name, table) = read_table(alloc, version, &tables, value)?;
        push_table(&mut tables, name, table)?;
    }
    Ok(tables)
}

#[tactic(auto, unfolding(crate::specs::Reading::catalogue_at))]
pub(crate) fn read_document(
    alloc: Global,
    document: &Value,
) -> Result<IndexMap<String, Table>, CatalogueFault>
    ensures exact { Reads is_memory (λ m. tables_shape m.entries) result (catalogue_at (view document.now)) }
    ensures signed { IfOk result (λ m. AllByRecursion (λ t. IsSigned t.split) (tables_shape m.entries)) }
{
    let (version, tables) = catalogue_form(document).ok_or(CatalogueFault::Shape)?;
    if tables.is_empty() || tables.len() > 64 {
        return Err(CatalogueFault::Limit);
    }
    read_tables(alloc, version, tables)
}
