//! The catalogue: tables in declared order, each with its partitions and columns.

ghost use Rattle.std.specs.Prelude.{◌≡◌, ◌⊎◌, ◌<◌, ◌≤◌, ◌↔◌, [], false, IfErr, OnOk, IsOkUnless, length, option_map, IfOk, Ok, List, slice_get, Some, IsTrue, map};
ghost use Rattle.catalogue.specs.Shapes.{tables_shape, columns_shape, split_shape, partitions, TableShape};
ghost use Rattle.catalogue.specs.Places.{table_named, column_named, partition_of, partition_numbered, is_end_of};
ghost use Rattle.catalogue.specs.Rules.{IsCatalogue as IsSound, IsSplit};
ghost use Rattle.catalogue.specs.Schemas.{HaveSameSchema};
ghost use Rattle.catalogue.specs.Tables.{IsTableAt};
ghost use Rattle.values.specs.Rows.{kinds_match};

use crate::fault::CatalogueFault;
use crate::reading::read_document;
use crate::schema::are_same_tables;
use crate::split::Split;
use crate::table::Table;
use indexmap::IndexMap;
use serde_json::Value;
use std::alloc::{AllocError, Global};
use std::marker::Model;
use std::sync::Arc;
use values::{ColType, Key, TableNo, is_kind};

/// A catalogue: its tables in declared order. It is a handle, and its clones share one catalogue.
#[derive(Drop)]
pub struct Catalogue {
    tables: Arc<IndexMap<String, Table>>,
}

impl Model for Catalogue {
    ghost use Rattle.std.specs.Prelude.{List};
    ghost use Rattle.std.specs.Arc.{arc_value};
    ghost use Rattle.catalogue.specs.Shapes.{TableShape, tables_shape};
    ghost use Rattle.catalogue.specs.Rules.{IsCatalogue};

    ghost Value = { List TableShape };

    ghost view = { λ c. tables_shape (arc_value c.tables).entries };

    ghost invariant = { λ c. IsCatalogue (tables_shape (arc_value c.tables).entries) };
}

impl Clone for Catalogue {
    ghost is_clone = { λ catalogue copy. copy ≡ catalogue };

    fn clone(&self) -> Result<Catalogue, AllocError> {
        let tables = self.tables.clone()?;
        Ok(Catalogue { tables })
    }
}

impl Catalogue {
    ghost use Rattle.serde_json.specs.View.{view};
    ghost use Rattle.documents.specs.Reading.{Reads};
    ghost use Rattle.documents.specs.FirstFault.{first};
    ghost use Rattle.catalogue.specs.Reading.{catalogue_at, is_memory};
    ghost use Rattle.catalogue.specs.Rules.{IsCatalogue, SaysCatalogue};
    ghost use Rattle.catalogue.specs.Broken.{catalogue_faults};
    ghost use Rattle.catalogue.specs.declared.fault.CatalogueFault.TheVariants.{Memory};

    // rule: catalogue.form
    /// The catalogue that a document says, or the first rule that the document breaks.
    pub fn read(alloc: Global, document: &Value) -> Result<Catalogue, CatalogueFault>
        // What is read is a catalogue, and the document says it.
        ensures found { IfOk result (λ c. SaysCatalogue (view document.now) c × IsCatalogue c) }
        // A catalogue that the document says is what is read, unless memory runs out.
        ensures only { (c : List TableShape) → IsCatalogue c → SaysCatalogue (view document.now) c →
            Reads is_memory (λ x. x) result (Ok c) }
        // The fault is the first rule that the document breaks.
        ensures first { IfErr result (λ e.
            (e ≡ Memory) ⊎ (first (catalogue_faults (view document.now)) ≡ Some e)) }
        // A document that is read breaks no rule, and one that breaks none is read, unless memory runs out.
        ensures unbroken { OnOk result (catalogue_faults (view document.now) ≡ []) }
        ensures none { catalogue_faults (view document.now) ≡ [] → IsOkUnless result Memory }
        ensures exact { Reads is_memory (λ x. x) result (catalogue_at (view document.now)) }
    {
        let tables = match read_document(alloc, document) {
            Ok(tables) => tables,
            Err(fault) => return Err(fault),
        };
        match Arc::new(alloc, tables) {
            Ok(tables) => Ok(Catalogue { tables }),
            Err(_) => Err(CatalogueFault::Memory),
        }
    }

    /// How many tables there are, 1 to 64. They keep the rules of catalogues.
    pub fn len(&self) -> usize
        ensures len { result ≡ length self.now }
        ensures sound { IsCatalogue self.now }
    {
        self.tables.len()
    }

    /// The table with a name, `None` exactly where no table has it.
    pub fn table(&self, name: &str) -> Option<TableNo>
        ensures { result ≡ table_named self.now name.now }
    {
        match place_of_table(&self.tables, name) {
            Some(place) => Some(TableNo::new(place)),
            None => None,
        }
    }

    /// The place of a table's column with a name, `None` exactly where the table has no such column.
    pub fn column(&self, table: TableNo, name: &str) -> Option<usize>
        requires { table < length self.now }
        ensures { Some result ≡ option_map (λ t. column_named t.columns name.now) (slice_get self.now table) }
    {
        place_of_column(table_at(&self.tables, table), name)
    }

    /// A table's name.
    pub fn table_name(&self, table: TableNo) -> &str
        requires { table < length self.now }
        ensures { Some result.now ≡ option_map (λ t. t.name) (slice_get self.now table) }
    {
        table_name_at(&self.tables, table)
    }

    /// How many columns a table has, 1 to 16.
    pub fn columns_len(&self, table: TableNo) -> usize
        requires { table < length self.now }
        ensures { Some result ≡ option_map (λ t. length t.columns) (slice_get self.now table) }
    {
        columns_len(table_at(&self.tables, table))
    }

    /// The type of a table's column.
    pub fn column_type(&self, table: TableNo, column: usize) -> Option<ColType>
        requires { table < length self.now }
        ensures { Some result ≡ option_map (λ t.
            option_map (λ c. c.kind) (slice_get t.columns column)) (slice_get self.now table) }
    {
        type_of_column(table_at(&self.tables, table), column)
    }

    /// Whether there is one value for each of the table's columns, of the column's type.
    pub fn takes(&self, table: TableNo, values: &[values::Value]) -> bool
        requires { table < length self.now }
        ensures { Some result ≡ option_map (λ t.
            kinds_match (map (λ c. c.kind) t.columns) values.now) (slice_get self.now table) }
    {
        columns_take(&table_at(&self.tables, table).columns, values)
    }

    /// How many partitions a table has, 1 to 1,024.
    pub fn partitions(&self, table: TableNo) -> u32
        requires { table < length self.now }
        ensures count { Some result ≡ option_map (λ t. partitions t.split) (slice_get self.now table) }
        ensures some { 1 ≤ result }
        ensures few { result ≤ 1024 }
    {
        split_at(&self.tables, table).partitions()
    }

    // rule: split.remainder
    /// The partition of a table that has a key: of a table of P partitions by the remainder, key k is in partition k
    /// mod P; of a table that is split at bounds, the number of the partition is how many bounds are at most the key.
    /// It takes no memory.
    pub fn part_of(&self, table: TableNo, key: Key) -> u32
        requires { table < length self.now }
        ensures { Some result ≡ partition_of self.now table key }
    {
        split_at(&self.tables, table).part_of(key)
    }

    /// Whether a partition of a table ends with a key because the next key is a bound. So it is false of every key by
    /// the remainder, and of each one from the last bound on, the greatest key too. It takes no memory.
    pub fn ends_partition(&self, table: TableNo, key: Key) -> bool
        requires { table < length self.now }
        ensures { Some result ≡ is_end_of self.now table key }
    {
        split_at(&self.tables, table).ends_partition(key)
    }

    /// The partition of a table with a number, `None` exactly where the number is not from 0 to P - 1, for a table of P
    /// partitions.
    pub fn part(&self, table: TableNo, number: i64) -> Option<u32>
        requires { table < length self.now }
        ensures { result ≡ partition_numbered self.now table number }
    {
        let partitions = split_at(&self.tables, table).partitions();
        if number < 0 || number >= i64::from(partitions) {
            return None;
        }
        Some(number as u32)
    }

    /// Whether another catalogue has the same tables in the same order: names and columns are the same, and how keys
    /// are split may differ. It takes no memory.
    pub fn has_same_schema(&self, other: &Catalogue) -> bool
        ensures { IsTrue result ↔ HaveSameSchema self.now other.now }
    {
        are_same_tables(&self.tables, &other.tables)
    }
}

fn place_of_table(tables: &IndexMap<String, Table>, name: &str) -> Option<usize>
    ensures { result ≡ table_named (tables_shape tables.now.entries) name.now }
{
    tables.get_index_of(name)
}

fn table_at(tables: &IndexMap<String, Table>, table: TableNo) -> &Table
    requires { table < length (tables_shape tables.now.entries) }
    ensures { IsTableAt (tables_shape tables.now.entries) table result.now }
{
    match tables.get_index(table.place()) {
        Some((_, found)) => found,
        None => unreachable!(),
    }
}

fn table_name_at(tables: &IndexMap<String, Table>, table: TableNo) -> &str
    requires { table < length (tables_shape tables.now.entries) }
    ensures { Some result.now ≡ option_map (λ t. t.name) (slice_get (tables_shape tables.now.entries) table) }
{
    match tables.get_index(table.place()) {
        Some((name, _)) => name.as_str(),
        None => unreachable!(),
    }
}

fn place_of_column(table: &Table, name: &str) -> Option<usize>
    ensures { result ≡ column_named (columns_shape table.now.columns.entries) name.now }
{
    table.columns.get_index_of(name)
}

fn columns_len(table: &Table) -> usize
    ensures { result ≡ length (columns_shape table.now.columns.entries) }
{
    table.columns.len()
}

fn type_of_column(table: &Table, column: usize) -> Option<ColType>
    ensures { result ≡ option_map (λ c. c.kind) (slice_get (columns_shape table.now.columns.entries) column) }
{
    match table.columns.get_index(column) {
        Some((_, kind)) => Some(*kind),
        None => None,
    }
}

/// Whether there is one value for each column, of the column's type.
#[tactic(auto, using(crate::proofs::Tables::column_kinds))]
fn columns_take(columns: &IndexMap<String, ColType>, values: &[values::Value]) -> bool
    ensures { result ≡ kinds_match (map (λ c. c.kind) (columns_shape columns.now.entries)) values.now }
{
    let mut rest = values;
    for kind in columns.values() {
        match rest {
            [value, others @ ..] if is_kind(*kind, value.kind()) => rest = others,
            _ => return false,
        }
    }
    rest.is_empty()
}

fn split_at(tables: &IndexMap<String, Table>, table: TableNo) -> &Split
    requires sound { IsSound (tables_shape tables.now.entries) }
    requires there { table < length (tables_shape tables.now.entries) }
    ensures split { option_map (λ t. t.split) (slice_get (tables_shape tables.now.entries) table)
        ≡ Some (split_shape result.now) }
    ensures sound { IsSplit (split_shape result.now) }
{
    &table_at(tables, table).split
}
