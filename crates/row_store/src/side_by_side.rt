//! Digests of partitions, made side by side.

ghost use Rattle.std.specs.Prelude.{◌≡◌, ◌<◌, ◌++◌, ◌∷◌, [], All, IfOk, OnOk, length};
ghost use Rattle.std.specs.FinMap as map;
ghost use Rattle.row_text.specs.Kept.{AreKept, IsPartitionOf};

use crate::laws::all_is_free_with_nothing_lent;
use crate::store::RowStore;
use catalogue::Catalogue;
use footprint::{InPart, InTable, Resource};
use row_text::{KeptDigests, keep_digests};
use shelves::{Shelves, count_places};
use std::alloc::{AllocError, Global};
use std::mem;
use std::thread::Threads;
use values::TableNo;

/// From how many rows on partitions are hashed on several threads: hashing them takes about 1 ms then, and starting
/// four threads 0.1.
const MANY_ROWS: usize = 4096;

/// Partitions that keep no digest, and about how many rows they have.
#[derive(Drop)]
struct Unkept {
    parts: Vec<(TableNo, u32)>,
    rows: usize,
}

impl Unkept {
    /// Adds a partition with about n rows.
    fn push(&mut self, part: (TableNo, u32), rows: usize) -> Result<(), AllocError>
        ensures { OnOk result (self.new.parts.items ≡ self.old.parts.items ++ part ∷ []) }
    {
        self.parts.push(part)?;
        self.rows = self.rows.saturating_add(rows);
        Ok(())
    }
}

/// Adds the partitions of a table that keep no digest and have rows.
fn push_unkept(
    catalogue: &Catalogue,
    shelves: &Shelves,
    kept: &KeptDigests,
    table: TableNo,
    unkept: &mut Unkept,
) -> Result<(), AllocError>
    requires table { table < length catalogue.now }
    requires parts { All (IsPartitionOf catalogue.now) unkept.old.parts.items }
    ensures { OnOk result (All (IsPartitionOf catalogue.now) unkept.new.parts.items) }
{
    for part in 0..catalogue.partitions(table) {
        let shelf = Resource::Table(table, InTable::Part(part, InPart::WholePart));
        let rows = count_places(shelves, &shelf).unwrap_or(0);
        if rows > 0 && !kept.has(table, part) {
            unkept.push((table, part), rows)?;
        }
    }
    Ok(())
}

/// The partitions that keep no digest and have rows.
fn unkept_of(
    alloc: Global,
    catalogue: &Catalogue,
    shelves: &Shelves,
    kept: &KeptDigests,
) -> Result<Unkept, AllocError>
    ensures { IfOk result (λ unkept. All (IsPartitionOf catalogue.now) unkept.parts.items) }
{
    let mut unkept = Unkept {
        parts: Vec::new(alloc),
        rows: 0,
    };
    for place in 0..catalogue.len() {
        push_unkept(catalogue, shelves, kept, TableNo::new(place), &mut unkept)?;
    }
    Ok(unkept)
}

impl RowStore {
    /// Makes the digests of partitions, as many as memory can be had for.
    fn make_digests<R: Threads + Sync>(
        &self,
        rt: &R,
        parts: &[(TableNo, u32)],
        threads: usize,
        kept: &mut KeptDigests,
    )
        requires unlent { self.now.lent ≡ map.empty }
        requires parts { All (IsPartitionOf self.now.tables) parts.now }
        requires threads { 0 < threads }
        requires kept { AreKept self.now.tables self.now.rows kept.old }
        ensures kept { AreKept self.now.tables self.now.rows kept.new }
    {
        // proof: with nothing lent each row is shown.
        all_is_free_with_nothing_lent();
        let _ = keep_digests(rt, self.alloc, &self.catalogue, self, parts, threads, kept);
    }

    /// Makes the digests of the partitions that keep none, on at most n threads side by side, and keeps them: so the
    /// next digest of the partition text finds them. Where these have few rows, or if allocation fails, some or all are
    /// left to `rows_digest`.
    pub fn keep_digests<R: Threads + Sync>(&mut self, rt: &R, threads: usize)
        requires unlent { self.old.lent ≡ map.empty }
        requires threads { 0 < threads }
        ensures same { self.new ≡ self.old }
    {
        if self.kept.is_whole() {
            return;
        }
        let Ok(unkept) = unkept_of(self.alloc, &self.catalogue, &self.shelves, &self.kept) else {
            return;
        };
        if unkept.rows < MANY_ROWS {
            return;
        }
        let mut kept = mem::replace(&mut self.kept, KeptDigests::new(self.alloc));
        self.make_digests(rt, unkept.parts.as_slice(), threads, &mut kept);
        self.kept = kept;
    }
}
