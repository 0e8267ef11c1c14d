//! The names of the rows that were read.

ghost use Rattle.std.specs.Prelude.{◌≡◌, ◌++◌, ◌∷◌, [], List, IfOk, not};
ghost use Rattle.std.specs.BTreeSet.{contains};
ghost use Rattle.values.specs.declared.name.RowName.{RowName as AnyName};
ghost use Rattle.values.specs.declared.value.Value.{Value};
ghost use Rattle.values.specs.Database.{name_cmp};
ghost use Rattle.setup.specs.Names.{HoldsNames, is_past};
ghost use Rattle.setup.specs.Rows.{is_given};

use std::alloc::{AllocError, Global};
use std::collections::BTreeSet;
use values::{Key, Row, RowName, TableNo};

/// The names of rows.
#[derive(Drop)]
pub(crate) enum Names {
    /// Each name so far was past the one before it. This is the last one, and no name past it was given.
    Ascending(Option<RowName>),
    /// The names so far, in any order.
    Any(BTreeSet<RowName>),
}

/// Whether a name comes after another one, or after none: tables in declared order, and keys ascending.
fn is_past(last: &Option<RowName>, name: RowName) -> bool
    ensures { result ≡ is_past last.now name.table name.key }
{
    match last {
        Some(last) => {
            last.table.place() < name.table.place()
                || (last.table == name.table && last.key.number() < name.key.number())
        }
        None => true,
    }
}

/// The names of rows, as a set.
fn names_of(alloc: Global, rows: &[(TableNo, Key, Row)]) -> Result<BTreeSet<RowName>, AllocError>
    ensures { IfOk result (λ names. (q : AnyName) → contains name_cmp names q ≡ is_given q.table q.key rows.now) }
{
    let mut names = BTreeSet::new(alloc);
    for row in rows {
        names.insert(RowName::new(row.0, row.1))?;
    }
    Ok(names)
}

impl Names {
    /// Adds the name of a row to those of the rows before it, and tells whether none of them has it.
    pub(crate) fn add(
        &mut self,
        alloc: Global,
        rows: &[(TableNo, Key, Row)],
        name: RowName,
    ) -> Result<bool, AllocError>
        ensures fresh { HoldsNames self.old rows.now →
            IfOk result (λ fresh. fresh ≡ not (is_given name.table name.key rows.now)) }
        ensures names { HoldsNames self.old rows.now → (values : List Value) →
            IfOk result (λ _. HoldsNames self.new (rows.now ++ (name.table, name.key, values) ∷ [])) }
    {
        if let Names::Ascending(last) = self {
            if is_past(last, name) {
                *last = Some(name);
                return Ok(true);
            }
            *self = Names::Any(names_of(alloc, rows)?);
        }
        match self {
            Names::Ascending(_) => unreachable!(),
            Names::Any(names) => Ok(names.insert(name)?),
        }
    }
}
