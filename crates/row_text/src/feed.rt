//! Text on its way to a hasher.

ghost use Rattle.std.specs.Prelude.{◌≡◌, ◌++◌, [], List, ℕ, IfOk, OnOk, string_bytes};
ghost use Rattle.hex.specs.Hex.{encode_lower};
ghost use Rattle.row_text.specs.Texts.{digest};
ghost use Rattle.row_text.specs.Feeding.{IsFed, table_lines};

use crate::digest::Hash;
use crate::scratch::Scratch;
use catalogue::Catalogue;
use sha2::{Digest, Sha256};
use std::alloc::{AllocError, Global};
use values::{Key, Row, TableNo};

/// From 4,096 bytes on, text is handed to the hasher.
const PIECE: usize = 4096;

/// A hasher, and the end of its text, which it was not given yet: so it is given large pieces.
#[derive(Drop)]
pub(crate) struct Feed {
    hasher: Sha256,
    text: Vec<u8>,
}

impl Feed {
    /// No text.
    pub(crate) fn new(alloc: Global) -> Feed
        ensures { IsFed result [] }
    {
        Feed {
            hasher: Sha256::new(),
            text: Vec::new(alloc),
        }
    }

    /// Gives the hasher what it was not given yet.
    fn hand_over(&mut self)
        ensures fed { (all : List ℕ) → IsFed self.old all → IsFed self.new all }
        ensures none { self.new.text.items ≡ [] }
    {
        self.hasher.update(self.text.as_slice());
        self.text.clear();
    }

    /// Makes room for n bytes more.
    pub(crate) fn make_room(&mut self, bytes: usize) -> Result<(), AllocError>
        ensures { (all : List ℕ) → IsFed self.old all → OnOk result (IsFed self.new all) }
    {
        self.text.reserve(bytes)
    }

    /// Appends the lines of a few rows of a table.
    pub(crate) fn push_rows(
        &mut self,
        alloc: Global,
        catalogue: &Catalogue,
        table: TableNo,
        rows: &[(Key, &Row)],
        scratch: &mut Scratch,
    ) -> Result<(), AllocError>
        ensures { (all : List ℕ) → IsFed self.old all →
            OnOk result (IsFed self.new (all ++ table_lines catalogue.now table rows.now)) }
    {
        scratch.push_lines(alloc, catalogue, table, rows, &mut self.text)?;
        if self.text.len() >= PIECE {
            self.hand_over();
        }
        Ok(())
    }

    /// The SHA-256 of the text.
    #[tactic(auto, unfolding(crate::specs::Texts::digest))]
    pub(crate) fn hash(self) -> Hash
        ensures { (all : List ℕ) → IsFed self all → encode_lower result ≡ digest all }
    {
        let mut feed = self;
        feed.hand_over();
        let Feed { hasher, .. } = feed;
        hasher.finalize()
    }

    /// The digest of the text.
    pub(crate) fn digest(self, alloc: Global) -> Result<String, AllocError>
        ensures { (all : List ℕ) → IsFed self all → IfOk result (λ t. string_bytes t ≡ digest all) }
    {
        hex::encode(alloc, self.hash())
    }
}
