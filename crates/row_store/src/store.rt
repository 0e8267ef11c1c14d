//! The row store.

ghost use Rattle.std.specs.Prelude.{◌≡◌, ℕ, Some, None, if◌then◌else◌, IfOk, OnOk, OnErr, string_bytes};
ghost use Rattle.std.specs.FinMap as map;
ghost use Rattle.values.specs.declared.name.RowName.{RowName as AnyName};
ghost use Rattle.catalogue.specs.Schemas.{HaveSameSchema};
ghost use Rattle.proclang_types.specs.declared.right.Right.TheVariants.{Write};
ghost use Rattle.coarsen.specs.Subtrees.{Requests};
ghost use Rattle.coarsen.specs.Plans.{IsPlanOver};
ghost use Rattle.coarsen.specs.Clashes.{locks_row, ModesClash};
ghost use Rattle.workspace.specs.Overlay.{applied};
ghost use Rattle.row_text.specs.Partitions.{digested_text};
ghost use Rattle.row_text.specs.declared.form.DigestForm.TheVariants.{Rows, Partitions};
ghost use Rattle.row_text.specs.Texts.{digest};
ghost use Rattle.row_store.specs.Laws.{AreLentAlone};
ghost use Rattle.row_store.specs.Stock.{IsLoanFrom};
ghost use Rattle.shelves.specs.Rows.{with_rows};

use crate::forgetting::{forget_given, forget_written, keep_unless_written};
use crate::laws::all_is_free_with_nothing_lent;
use crate::lending::{hold, put_back, take_out};
use crate::loan::Loan;
use catalogue::Catalogue;
use coarsen::{Plan, clashes_are_either_way, locked_rows_conflict};
use footprint::Resource;
use row_text::{DigestForm, KeptDigests, kept_rows_digest, rows_digest};
use shelves::{Shelves, count_places, filled, rebuilt, write};
use std::alloc::{AllocError, Global};
use std::collections::BTreeMap;
use std::marker::Model;
use std::mem;
use std::snapshot::Snapshot;
use values::{Key, NoMemory, Row, RowName, TableNo};

/// The rows of a database over the tables of a catalogue, and the plans for which rows are lent, by numbers. Rows that
/// are lent count as they were lent. Each partition keeps its digest, once it was made, until rows of it are written;
/// the store keeps that of the row text until rows are lent or written.
#[derive(Drop)]
pub struct RowStore {
    pub(crate) alloc: Global,
    pub(crate) catalogue: Catalogue,
    pub(crate) shelves: Shelves,
    pub(crate) kept: KeptDigests,
    all_rows_digest: Option<String>,
    lent: BTreeMap<u64, Snapshot<Plan>>,
}

impl Model for RowStore {
    ghost use Rattle.row_text.specs.Kept.{AreKept};
    ghost use Rattle.row_store.specs.Kept.{IsDigestKept};
    ghost use Rattle.row_store.specs.Stock.{Stock, stock_code};
    ghost use Rattle.shelves.specs.Rows.{rows_of};
    ghost use Rattle.row_store.specs.Views.{lent_of, IsRowStore};

    ghost Value = { Stock };

    ghost coded = { stock_code };

    ghost view = { λ s. record { tables = s.catalogue; rows = rows_of s.catalogue s.shelves; lent = lent_of s.lent } };

    ghost invariant = { λ s. IsRowStore s.catalogue s.shelves s.lent
        × AreKept s.catalogue (rows_of s.catalogue s.shelves) s.kept
        × IsDigestKept s.catalogue (rows_of s.catalogue s.shelves) s.all_rows_digest };
}

impl RowStore {
    /// A store with these rows. Of two rows with one name the later one stays. Nothing is lent.
    pub fn new(
        alloc: Global,
        catalogue: &Catalogue,
        rows: Vec<(TableNo, Key, Row)>,
    ) -> Result<RowStore, NoMemory>
        ensures tables { IfOk result (λ store. store.tables ≡ catalogue.now) }
        ensures rows { IfOk result (λ store. store.rows ≡ with_rows map.empty rows.items) }
        ensures lent { IfOk result (λ store. store.lent ≡ map.empty) }
    {
        let shelves = filled(alloc, catalogue, rows)?;
        let catalogue = catalogue.clone()?;
        let lent = BTreeMap::new(alloc);
        Ok(RowStore {
            alloc,
            catalogue,
            shelves,
            kept: KeptDigests::new(alloc),
            all_rows_digest: None,
            lent,
        })
    }

    /// The same rows over another catalogue, whose tables have the same names and columns in the same order: how keys
    /// are split may differ. Nothing is lent.
    pub fn rebuild(&self, catalogue: &Catalogue) -> Result<RowStore, NoMemory>
        requires same { HaveSameSchema self.now.tables catalogue.now }
        requires unlent { self.now.lent ≡ map.empty }
        ensures tables { IfOk result (λ store. store.tables ≡ catalogue.now) }
        ensures rows { IfOk result (λ store. store.rows ≡ self.now.rows) }
        ensures lent { IfOk result (λ store. store.lent ≡ map.empty) }
    {
        let shelves = rebuilt(self.alloc, &self.catalogue, &self.shelves, catalogue)?;
        let catalogue = catalogue.clone()?;
        let lent = BTreeMap::new(self.alloc);
        Ok(RowStore {
            alloc: self.alloc,
            catalogue,
            shelves,
            kept: KeptDigests::new(self.alloc),
            all_rows_digest: None,
            lent,
        })
    }

    /// Lends the rows that a plan locks under a number. No loan is out under that number, and none is out whose plan is
    /// in conflict with the plan. An `Err` leaves the store as it was.
    pub fn lend(&mut self, no: u64, plan: &Plan) -> Result<Loan, NoMemory>
        requires over { IsPlanOver self.old.tables plan.now }
        requires unlent { map.get self.old.lent no ≡ None }
        requires apart { (other : ℕ) (requests : Requests) → map.get self.old.lent other ≡ Some requests →
            ModesClash requests plan.now → ⊥ }
        ensures tables { self.new.tables ≡ self.old.tables }
        ensures rows { self.new.rows ≡ self.old.rows }
        ensures lent { OnOk result (self.new.lent ≡ map.insert self.old.lent no plan.now) }
        ensures err { OnErr result (self.new ≡ self.old) }
        ensures loan { IfOk result (IsLoanFrom self.old plan.now) }
    {
        // proof: plans that lock one row name, one of them to write, are in conflict.
        locked_rows_conflict();
        clashes_are_either_way();
        // What holds of plans says that none of the rows that the plan locks is away.
        let _requests = plan.requests();
        self.all_rows_digest = None;
        let ready = hold(self.alloc, &self.catalogue, &mut self.shelves, plan)?;
        let catalogue = self.catalogue.clone()?;
        self.lent.insert(no, Snapshot::of(plan))?;
        let held = take_out(self.alloc, &self.catalogue, &mut self.shelves, ready);
        Ok(Loan {
            alloc: self.alloc,
            catalogue,
            plan: Snapshot::of(plan),
            held,
        })
    }

    /// Takes back what was lent under a number: the loan's rows at the names that its plan locks to write; every other
    /// name keeps its row. It takes no memory.
    pub fn give_back(&mut self, no: u64, loan: Loan)
        requires lent { map.get self.old.lent no ≡ Some loan.plan }
        requires tables { loan.tables ≡ self.old.tables }
        ensures tables { self.new.tables ≡ self.old.tables }
        ensures rows { (name : AnyName) → map.get self.new.rows name ≡ (if locks_row loan.tables loan.plan name Write
            then map.get loan.rows name else map.get self.old.rows name) }
        ensures lent { self.new.lent ≡ map.remove self.old.lent no }
    {
        // proof: plans that lock one row name, one of them to write, are in conflict.
        locked_rows_conflict();
        let Loan {
            alloc: _,
            catalogue: _,
            plan: _,
            held,
        } = loan;
        self.all_rows_digest = None;
        forget_given(&self.catalogue, &mut self.kept, &held);
        put_back(&self.catalogue, &mut self.shelves, held);
        self.lent.remove(&no);
    }

    /// Makes the writes of a transaction: puts each row in place of what has its name, and takes away the row of each
    /// name without one. An `Err` leaves the store as it was.
    pub fn apply(&mut self, writes: BTreeMap<RowName, Option<Row>>) -> Result<(), NoMemory>
        ensures tables { self.new.tables ≡ self.old.tables }
        ensures rows { OnOk result (self.new.rows ≡ applied writes.entries self.old.rows) }
        ensures lent { self.new.lent ≡ self.old.lent }
        ensures err { OnErr result (self.new ≡ self.old) }
    {
        keep_unless_written(&mut self.all_rows_digest, &writes);
        forget_written(&self.catalogue, &mut self.kept, &writes);
        write(self.alloc, &self.catalogue, &mut self.shelves, writes)?;
        Ok(())
    }

    /// The digest of the row text: what is kept, or what is made, and kept then if there is memory for it.
    fn row_text_digest(&mut self) -> Result<String, AllocError>
        requires unlent { self.old.lent ≡ map.empty }
        ensures digest { IfOk result (λ t.
            string_bytes t ≡ digest (digested_text Rows self.old.tables self.old.rows)) }
        ensures same { self.new ≡ self.old }
    {
        if let Some(digest) = &self.all_rows_digest {
            return digest.clone();
        }
        // proof: with nothing lent each row is shown.
        all_is_free_with_nothing_lent();
        let digest = rows_digest(self.alloc, &self.catalogue, &*self, DigestForm::Rows)?;
        self.all_rows_digest = digest.clone().ok();
        Ok(digest)
    }

    /// The digest of the partition text: only the rows of partitions that keep no digest are looked at.
    fn partition_text_digest(&mut self) -> Result<String, AllocError>
        requires unlent { self.old.lent ≡ map.empty }
        ensures digest { IfOk result (λ t.
            string_bytes t ≡ digest (digested_text Partitions self.old.tables self.old.rows)) }
        ensures same { self.new ≡ self.old }
    {
        // proof: with nothing lent each row is shown.
        all_is_free_with_nothing_lent();
        let form = DigestForm::Partitions;
        let mut kept = mem::replace(&mut self.kept, KeptDigests::new(self.alloc));
        let digest = kept_rows_digest(self.alloc, &self.catalogue, &*self, form, &mut kept);
        self.kept = kept;
        digest
    }

    /// The digest of the rows, with nothing lent: of their row text, or of their partition text. For the former no row
    /// is looked at if none was lent or written since the last such digest; for the latter only the rows of partitions
    /// that keep no digest are looked at.
    pub fn rows_digest(&mut self, form: DigestForm) -> Result<String, AllocError>
        requires unlent { self.old.lent ≡ map.empty }
        ensures digest { IfOk result (λ t.
            string_bytes t ≡ digest (digested_text form self.old.tables self.old.rows)) }
        ensures same { self.new ≡ self.old }
    {
        match form {
            DigestForm::Rows => self.row_text_digest(),
            DigestForm::Partitions => self.partition_text_digest(),
        }
    }

    /// A law; nothing is done. A row that a plan locks to write is its loan's alone while it is lent: the store doesn't
    /// show it, and no other plan that is lent locks its name.
    pub fn written_rows_are_lent_alone(&self)
        ensures { AreLentAlone self.now.tables self.now.lent }
    {
        // What holds of the plans that are lent says it.
        let _lent = &self.lent;
        // proof: plans that lock one row name, one of them to write, are in conflict.
        locked_rows_conflict();
    }

    /// How many rows there are about in a partition; none where it is lent whole to be written. It tells how long it
    /// takes to look through it, and promises nothing.
    pub fn count_rows(&self, part: &Resource) -> Option<usize> {
        count_places(&self.shelves, part)
    }

    /// The catalogue.
    pub fn catalogue(&self) -> &Catalogue
        ensures { result.now ≡ self.now.tables }
    {
        &self.catalogue
    }
}
