//! Digests of partitions, made side by side on several threads.

ghost use Rattle.std.specs.Prelude.{◌≡◌, ◌<◌, ℕ, All, IfOk, OnOk, map};
ghost use Rattle.row_text.specs.Kept.{AreKept, IsKept, IsPartitionOf};
ghost use Rattle.row_text.specs.Merge.{ShowsAll};
ghost use Rattle.row_text.specs.SideBySide.{IsMade, partition_of};

use crate::digest::Hash;
use crate::kept::KeptDigests;
use crate::partitions::hash_of_rows;
use catalogue::Catalogue;
use std::alloc::{AllocError, Global};
use std::thread;
use std::thread::Threads;
use values::TableNo;
use workspace::RowView;

/// A partition, and the hash of its row lines once that was made; `None` for one without rows.
#[derive(Drop)]
pub(crate) struct Hashing {
    table: TableNo,
    part: u32,
    made: Result<Option<Hash>, AllocError>,
}

impl Hashing {
    /// Makes the hash.
    fn make<V: RowView>(&mut self, alloc: Global, catalogue: &Catalogue, view: &V)
        requires tables { V.tables view.now ≡ catalogue.now }
        requires shows { ShowsAll (V.shows view.now) }
        ensures partition { partition_of self.new ≡ partition_of self.old }
        ensures made { IsMade catalogue.now (V.rows view.now) self.new }
    {
        self.made = hash_of_rows(alloc, catalogue, view, self.table, self.part);
    }
}

/// These partitions, of which no hash was made.
fn hashings_of(alloc: Global, parts: &[(TableNo, u32)]) -> Result<Vec<Hashing>, AllocError>
    ensures { IfOk result (λ hashings. map partition_of hashings.items ≡ parts.now) }
{
    let mut hashings = Vec::with_capacity(alloc, parts.len())?;
    for part in parts {
        hashings.push(Hashing {
            table: part.0,
            part: part.1,
            made: Ok(None),
        })?;
    }
    Ok(hashings)
}

/// Makes the hashes of partitions, on at most n threads.
fn make_all<R: Threads + Sync, V: RowView + Sync>(
    rt: &R,
    alloc: Global,
    catalogue: &Catalogue,
    view: &V,
    hashings: &mut [Hashing],
    threads: usize,
)
    requires tables { V.tables view.now ≡ catalogue.now }
    requires shows { ShowsAll (V.shows view.now) }
    requires threads { 0 < threads }
    ensures partitions { map partition_of hashings.new ≡ map partition_of hashings.old }
    ensures made { All (IsMade catalogue.now (V.rows view.now)) hashings.new }
{
    let make = move |_: usize, hashing: &mut Hashing|
        requires { (V.tables view.now ≡ catalogue.now) × ShowsAll (V.shows view.now) }
        ensures { (partition_of hashing.exit.now ≡ partition_of hashing.entry.now)
            × IsMade catalogue.entry.now (V.rows view.entry.now) hashing.exit.now }
    { hashing.make(alloc, catalogue, view) };
    thread::for_each_mut(rt, hashings, threads, &make);
}

/// Keeps the hash that was made of a partition, if it has rows.
fn keep_made<V: RowView>(
    catalogue: &Catalogue,
    view: &V,
    hashing: &Hashing,
    kept: &mut KeptDigests,
) -> Result<(), AllocError>
    requires part { IsPartitionOf catalogue.now (partition_of hashing.now) }
    requires made { IsMade catalogue.now (V.rows view.now) hashing.now }
    requires kept { AreKept catalogue.now (V.rows view.now) kept.old }
    ensures kept { AreKept catalogue.now (V.rows view.now) kept.new }
    ensures made { OnOk result (IsKept catalogue.now (V.rows view.now) kept.new (partition_of hashing.now)) }
    ensures still { (part : ℕ × ℕ) → IsKept catalogue.now (V.rows view.now) kept.old part →
        IsKept catalogue.now (V.rows view.now) kept.new part }
{
    match hashing.made? {
        Some(hash) => kept.keep(hashing.table, hashing.part, hash),
        None => Ok(()),
    }
}

/// Keeps the hashes of partitions, in order, up to the first for which allocation fails.
fn keep_all<V: RowView>(
    catalogue: &Catalogue,
    view: &V,
    hashings: &[Hashing],
    kept: &mut KeptDigests,
) -> Result<(), AllocError>
    requires parts { All (λ hashing. IsPartitionOf catalogue.now (partition_of hashing)) hashings.now }
    requires made { All (IsMade catalogue.now (V.rows view.now)) hashings.now }
    requires kept { AreKept catalogue.now (V.rows view.now) kept.old }
    ensures kept { AreKept catalogue.now (V.rows view.now) kept.new }
    ensures all { OnOk result (All (λ hashing. IsKept catalogue.now (V.rows view.now) kept.new (partition_of hashing))
        hashings.now) }
{
    for hashing in hashings {
        keep_made(catalogue, view, hashing, kept)?;
    }
    Ok(())
}

/// Makes the digests of partitions on at most n threads side by side, and keeps them. If allocation fails, some of them
/// may have been kept.
pub fn keep_digests<R: Threads + Sync, V: RowView + Sync>(
    rt: &R,
    alloc: Global,
    catalogue: &Catalogue,
    view: &V,
    parts: &[(TableNo, u32)],
    threads: usize,
    kept: &mut KeptDigests,
) -> Result<(), AllocError>
    requires tables { V.tables view.now ≡ catalogue.now }
    requires shows { ShowsAll (V.shows view.now) }
    requires parts { All (IsPartitionOf catalogue.now) parts.now }
    requires threads { 0 < threads }
    requires kept { AreKept catalogue.now (V.rows view.now) kept.old }
    ensures kept { AreKept catalogue.now (V.rows view.now) kept.new }
    ensures all { OnOk result (All (IsKept catalogue.now (V.rows view.now) kept.new) parts.now) }
{
    let mut hashings = hashings_of(alloc, parts)?;
    make_all(rt, alloc, catalogue, view, hashings.as_mut_slice(), threads);
    keep_all(catalogue, view, hashings.as_slice(), kept)
}
