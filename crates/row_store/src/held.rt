//! What a loan holds.

ghost use Rattle.std.specs.Prelude.{◌≡◌, true, is_some, option_map, OnOk, OnErr};
ghost use Rattle.std.specs.Option.{option_or};
ghost use Rattle.std.specs.BTreeMap as tree;
ghost use Rattle.values.specs.declared.name.RowName.{RowName as AnyName};
ghost use Rattle.values.specs.Database.{name_cmp};
ghost use Rattle.shelves.specs.Named.{listed, is_listed, names_listed};
ghost use Rattle.row_store.specs.Held.{row_by_name};

use crate::named::{entry_of, set_rows};
use footprint::Resource;
use shelves::{NamedRow, Shelves, listed_writes};
use std::alloc::Global;
use std::collections::BTreeMap;
use values::{NoMemory, Row, RowName};

/// The rows of a plan that locks no shelf whole and no row name at which a partition ends, each at a name that the plan
/// locks by itself.
#[derive(Drop)]
pub(crate) struct HeldRows {
    /// The rows at names that the plan locks to write: they are given back.
    pub(crate) written: Vec<NamedRow>,
    /// The rows at names that the plan locks to read alone.
    pub(crate) read: Vec<NamedRow>,
}

impl HeldRows {
    /// The row of a name.
    pub(crate) fn row(&self, name: &RowName) -> Option<&Row>
        ensures { option_map (λ r. r.now) result ≡ row_by_name self.now name.now }
    {
        let entry = match entry_of(&self.written, name) {
            Some(entry) => entry,
            None => entry_of(&self.read, name)?,
        };
        match &entry.row {
            Some(row) => Some(row),
            None => None,
        }
    }

    /// Makes writes at names that are to be given back. All memory is taken first: an `Err`
    /// leaves the rows as they were.
    pub(crate) fn apply(
        &mut self,
        alloc: Global,
        writes: BTreeMap<RowName, Option<Row>>,
    ) -> Result<(), NoMemory>
        requires { (q : AnyName) → is_some (tree.get name_cmp writes q) ≡ true →
            is_listed self.old.written.items q ≡ true }
        ensures names { names_listed self.new.written.items ≡ names_listed self.old.written.items }
        ensures read { self.new.read ≡ self.old.read }
        ensures rows { OnOk result ((q : AnyName) → listed self.new.written.items q
            ≡ option_or (tree.get name_cmp writes q) (listed self.old.written.items q)) }
        ensures err { OnErr result (self.new ≡ self.old) }
    {
        let made = listed_writes(alloc, writes)?;
        set_rows(&mut self.written, made);
        Ok(())
    }
}

/// The rows at the names that a plan locks, on shelves of which none is away.
#[derive(Drop)]
pub(crate) struct HeldShelves {
    /// The shelves, with the rows.
    pub(crate) shelves: Shelves,
    /// The shelves that the plan locks whole to write: they are given back whole.
    pub(crate) written_shelves: Vec<Resource>,
    /// The names that the plan locks by themselves to write: their rows are given back.
    pub(crate) written_names: Vec<RowName>,
}

/// What a loan holds.
#[derive(Drop)]
pub(crate) enum Holdings {
    /// Of a plan that locks no shelf whole, and few rows, none of which ends a partition at a bound: the rows by their
    /// names. Those that are lent to be written stay in the store, too, where nobody is shown them.
    Rows(HeldRows),
    /// Of any other plan: shelves.
    Shelves(HeldShelves),
}
