//! Bytes that are taken in pieces.

ghost use Rattle.std.specs.Prelude.{◌≡◌, ◌++◌, ◌≤◌, length, OnErr, OnOk};

use std::alloc::{AllocError, Global};

/// Bytes of which some were taken.
#[derive(Drop)]
pub struct Pieces {
    bytes: Vec<u8>,
    // How many of them were taken.
    taken: usize,
    ghost in_bounds: { taken ≤ length bytes.items },
}

impl Pieces {
    ghost use Rattle.session.specs.Pieces.{untaken, IsDrained};

    /// These bytes, of which none was taken.
    pub fn new(bytes: Vec<u8>) -> Pieces
        ensures { untaken result ≡ bytes.items }
    {
        Pieces { bytes, taken: 0 }
    }

    /// How many bytes wait.
    pub(crate) fn waiting(&self) -> usize
        ensures { result ≡ length (untaken self.now) }
    {
        self.bytes.len() - self.taken
    }

    /// Adds bytes after the others. If allocation fails nothing changes.
    pub(crate) fn extend(&mut self, piece: &[u8]) -> Result<(), AllocError>
        ensures added { OnOk result (untaken self.new ≡ untaken self.old ++ piece.now) }
        ensures err { OnErr result (untaken self.new ≡ untaken self.old) }
    {
        self.bytes.extend_from_slice(piece)?;
        Ok(())
    }

    /// Moves bytes that wait to the front of `into`, as many as there are or as fit, and answers how many.
    pub fn drain(&mut self, into: &mut [u8]) -> usize
        ensures drained { IsDrained (untaken self.old) (untaken self.new) into.old into.new result }
    {
        let count = self.waiting().min(into.len());
        into[..count].copy_from_slice(&self.bytes[self.taken..self.taken + count]);
        self.taken += count;
        if self.taken == self.bytes.len() {
            self.bytes.clear();
            self.taken = 0;
        }
        count
    }

    /// Gives back the memory, if no byte waits.
    pub fn shrink(&mut self, alloc: Global)
        ensures { untaken self.new ≡ untaken self.old }
    {
        if self.waiting() == 0 {
            *self = Pieces::new(Vec::new(alloc));
        }
    }
}
