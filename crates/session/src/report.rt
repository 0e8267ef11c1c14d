//! Report bytes that wait to be taken.

ghost use Rattle.std.specs.Prelude.{◌≡◌, [], length};

use crate::pieces::Pieces;
use batch_log::{DeviceFailed, Sink};
use std::alloc::Global;

/// The report bytes that were written and not yet taken.
#[derive(Drop)]
pub(crate) struct Report {
    bytes: Pieces,
    // A write wanted memory.
    failed: bool,
}

impl Report {
    ghost use Rattle.session.specs.Pieces.{IsDrained};
    ghost use Rattle.session.specs.Reports.{waiting_in};

    /// Nothing was written.
    pub(crate) fn new(alloc: Global) -> Report
        ensures { waiting_in result ≡ [] }
    {
        Report {
            bytes: Pieces::new(Vec::new(alloc)),
            failed: false,
        }
    }

    /// How many bytes wait.
    pub(crate) fn waiting(&self) -> usize
        ensures { result ≡ length (waiting_in self.now) }
    {
        self.bytes.waiting()
    }

    /// Moves bytes that wait to the front of `into`, as many as there are or as fit, and answers how many.
    pub(crate) fn drain(&mut self, into: &mut [u8]) -> usize
        ensures drained { IsDrained (waiting_in self.old) (waiting_in self.new) into.old into.new result }
    {
        self.bytes.drain(into)
    }
}

impl Sink for Report {
    ghost use Rattle.std.specs.Prelude.{Some};
    ghost use Rattle.session.specs.Reports.{waiting_in, has_failed};

    ghost taken = { λ r. Some (waiting_in r) };

    ghost broken = { λ r. has_failed r };

    fn write(&mut self, piece: &[u8]) -> Result<usize, DeviceFailed> {
        if self.bytes.extend(piece).is_err() {
            self.failed = true;
            return Err(DeviceFailed);
        }
        Ok(piece.len())
    }
}
