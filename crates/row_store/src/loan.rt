//! Loans.

ghost use Rattle.std.specs.Prelude.{◌≡◌, true, OnOk, OnErr, IsSome};
ghost use Rattle.std.specs.BTreeMap as tree;
ghost use Rattle.values.specs.declared.name.RowName.{RowName as AnyName};
ghost use Rattle.values.specs.Database.{name_cmp};
ghost use Rattle.proclang_types.specs.declared.right.Right.TheVariants.{Write};
ghost use Rattle.coarsen.specs.Clashes.{locks_row};
ghost use Rattle.workspace.specs.Overlay.{applied};

use crate::held::Holdings;
use catalogue::Catalogue;
use coarsen::Plan;
use shelves::write;
use std::alloc::Global;
use std::collections::BTreeMap;
use std::marker::Model;
use std::snapshot::Snapshot;
use values::{NoMemory, Row, RowName};

/// What is lent for a plan: the rows at the names that the plan locks. Rows under Read, and all that are lent by their
/// names, are shared with the store in memory. The store shows no name that the plan locks to write until it is given
/// back.
#[derive(Drop)]
pub struct Loan {
    pub(crate) alloc: Global,
    pub(crate) catalogue: Catalogue,
    pub(crate) plan: Snapshot<Plan>,
    pub(crate) held: Holdings,
}

impl Model for Loan {
    ghost use Rattle.row_store.specs.Stock.{Lent, lent_code};
    ghost use Rattle.row_store.specs.Held.{rows_held, IsLoanOf};

    ghost Value = { Lent };

    ghost coded = { lent_code };

    ghost view = { λ l. record { tables = l.catalogue; plan = l.plan.value; rows = rows_held l.catalogue l.held } };

    ghost invariant = { λ l. IsLoanOf l.catalogue l.plan.value l.held };
}

impl Loan {
    /// Makes the writes of a transaction: puts each row in place of what has its name, and takes away the row of each
    /// name without one. All memory is taken first: an `Err` leaves the loan as it was.
    pub fn apply(&mut self, writes: BTreeMap<RowName, Option<Row>>) -> Result<(), NoMemory>
        requires { (name : AnyName) → IsSome (tree.get name_cmp writes name) →
            locks_row self.old.tables self.old.plan name Write ≡ true }
        ensures tables { self.new.tables ≡ self.old.tables }
        ensures plan { self.new.plan ≡ self.old.plan }
        ensures rows { OnOk result (self.new.rows ≡ applied writes.entries self.old.rows) }
        ensures err { OnErr result (self.new ≡ self.old) }
    {
        match &mut self.held {
            Holdings::Rows(held) => held.apply(self.alloc, writes)?,
            Holdings::Shelves(held) => {
                write(self.alloc, &self.catalogue, &mut held.shelves, writes)?;
            }
        }
        Ok(())
    }

    /// The catalogue.
    pub fn catalogue(&self) -> &Catalogue
        ensures { result.now ≡ self.now.tables }
    {
        &self.catalogue
    }
}
