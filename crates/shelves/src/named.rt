//! Rows by their names, in short lists.

ghost use Rattle.std.specs.Prelude.{◌≡◌, IfOk};
ghost use Rattle.std.specs.BTreeMap as tree;
ghost use Rattle.values.specs.declared.name.RowName.{RowName as AnyName};
ghost use Rattle.values.specs.Database.{name_cmp};
ghost use Rattle.shelves.specs.Places.{shared_row};
ghost use Rattle.shelves.specs.Named.{listed};

use std::alloc::Global;
use std::collections::BTreeMap;
use std::sync::Arc;
use values::{NoMemory, Row, RowName};

/// A name with its row, or with none.
#[derive(Drop)]
pub struct NamedRow {
    pub name: RowName,
    pub row: Option<Arc<Row>>,
}

/// A row, or none, to be shared.
pub(crate) fn shared(alloc: Global, row: Option<Row>) -> Result<Option<Arc<Row>>, NoMemory>
    ensures { IfOk result (λ shared. shared_row shared ≡ row) }
{
    match row {
        Some(row) => Ok(Some(Arc::new(alloc, row)?)),
        None => Ok(None),
    }
}

/// A list of writes, with rows that can be put in place without memory.
pub fn listed_writes(
    alloc: Global,
    writes: BTreeMap<RowName, Option<Row>>,
) -> Result<Vec<NamedRow>, NoMemory>
    ensures { IfOk result (λ made. (q : AnyName) → listed made.items q ≡ tree.get name_cmp writes q) }
{
    let mut left = writes;
    let mut made = Vec::new(alloc);
    while let Some((name, row)) = left.pop_first() {
        let row = shared(alloc, row)?;
        made.push(NamedRow { name, row })?;
    }
    Ok(made)
}
