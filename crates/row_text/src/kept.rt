//! Digests of partitions that are kept.

ghost use Rattle.std.specs.Prelude.{◌≡◌, ◌<◌, ◌&&◌, ◌==◌, ℕ, None, Some, if◌then◌else◌, is_some, length, OnErr, OnOk, option_map};
ghost use Rattle.std.specs.Bool.{OnTrue};
ghost use Rattle.hex.specs.Hex.{encode_lower};
ghost use Rattle.row_text.specs.Kept.{kept_at};

use crate::digest::Hash;
use std::alloc::{AllocError, Global};
use std::collections::BTreeMap;
use values::TableNo;

/// Digests of partitions, each kept until its partition is forgotten: of each table a B-tree of its own, with 36 bytes
/// a partition and what the tree takes beside.
#[derive(Drop)]
pub struct KeptDigests {
    tables: Vec<BTreeMap<u32, Hash>>,
    /// Whether none was forgotten since a digest of the partition text was made.
    whole: bool,
}

impl KeptDigests {
    /// Nothing is kept.
    pub fn new(alloc: Global) -> KeptDigests
        ensures { (table part : ℕ) → kept_at result table part ≡ None }
    {
        KeptDigests {
            tables: Vec::new(alloc),
            whole: false,
        }
    }

    /// Whether none was forgotten since a digest of the partition text was made: then each partition that has rows
    /// keeps its digest, unless rows came since without a call of `forget`. Nothing is proved of it.
    pub fn is_whole(&self) -> bool {
        self.whole
    }

    /// Says that each partition that has rows keeps its digest. Where none has rows there is nothing to forget.
    pub(crate) fn complete(&mut self)
        ensures { (table part : ℕ) → kept_at self.new table part ≡ kept_at self.old table part }
    {
        self.whole = !self.tables.is_empty();
    }

    /// Whether nothing was ever kept.
    pub fn is_empty(&self) -> bool
        ensures { OnTrue result ((table part : ℕ) → kept_at self.now table part ≡ None) }
    {
        self.tables.is_empty()
    }

    /// Whether the digest of a partition is kept.
    pub fn has(&self, table: TableNo, part: u32) -> bool
        ensures { result ≡ is_some (kept_at self.now table part) }
    {
        self.hash(table, part).is_some()
    }

    /// What is kept of a partition.
    pub(crate) fn hash(&self, table: TableNo, part: u32) -> Option<Hash>
        ensures { option_map encode_lower result ≡ kept_at self.now table part }
    {
        let digests = self.tables.get(table.place())?;
        match digests.get(&part) {
            Some(hash) => Some(*hash),
            None => None,
        }
    }

    /// Makes room for digests of the tables up to this one. Kept is what was kept.
    fn reach(&mut self, table: TableNo) -> Result<(), AllocError>
        ensures reached { OnOk result (table < length self.new.tables.items) }
        ensures kept { (t p : ℕ) → kept_at self.new t p ≡ kept_at self.old t p }
    {
        while self.tables.len() <= table.place() {
            let alloc = *self.tables.allocator();
            self.tables.push(BTreeMap::new(alloc))?;
        }
        Ok(())
    }

    /// Keeps the digest of a partition of a table for which there is room. An `Err` leaves what was kept.
    fn put(&mut self, table: TableNo, part: u32, hash: Hash) -> Result<(), AllocError>
        requires { table < length self.old.tables.items }
        ensures kept { OnOk result ((t p : ℕ) → kept_at self.new t p
            ≡ (if (table == t) && (part == p) then Some (encode_lower hash) else kept_at self.old t p)) }
        ensures err { OnErr result ((t p : ℕ) → kept_at self.new t p ≡ kept_at self.old t p) }
    {
        self.tables[table.place()].insert(part, hash)?;
        Ok(())
    }

    /// Keeps the digest of a partition. An `Err` leaves what was kept.
    pub(crate) fn keep(&mut self, table: TableNo, part: u32, hash: Hash) -> Result<(), AllocError>
        ensures kept { OnOk result ((t p : ℕ) → kept_at self.new t p
            ≡ (if (table == t) && (part == p) then Some (encode_lower hash) else kept_at self.old t p)) }
        ensures err { OnErr result ((t p : ℕ) → kept_at self.new t p ≡ kept_at self.old t p) }
    {
        self.reach(table)?;
        self.put(table, part, hash)
    }

    /// Forgets the digest of a partition. It takes no memory.
    pub fn forget(&mut self, table: TableNo, part: u32)
        ensures { (t p : ℕ) → kept_at self.new t p
            ≡ (if (table == t) && (part == p) then None else kept_at self.old t p) }
    {
        self.whole = false;
        if let Some(digests) = self.tables.get_mut(table.place()) {
            digests.remove(&part);
        }
    }
}
