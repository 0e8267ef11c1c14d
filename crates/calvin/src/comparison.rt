//! Comparing a report with one that was made elsewhere.

ghost use Rattle.std.specs.Prelude.{◌≡◌, Some, [], false};
ghost use Rattle.calvin.specs.Comparisons.{IsFirstDifference};

use batch_log::{DeviceFailed, LogFault, LogFaultKind, Sink};
use running::RunFault;
use std::alloc::Global;

/// A report that is kept in memory.
#[derive(Drop)]
pub(crate) struct KeptReport {
    bytes: Vec<u8>,
    // Whether allocation failed for it.
    is_full: bool,
}

impl KeptReport {
    ghost use Rattle.calvin.specs.Comparisons.{bytes_of, is_full};
    ghost use Rattle.calvin.specs.CommandEnds.{fault_status, kept_status};

    /// Nothing is written yet.
    pub(crate) fn new(alloc: Global) -> KeptReport
        ensures bytes { bytes_of result ≡ [] }
        ensures room { is_full result ≡ false }
    {
        KeptReport {
            bytes: Vec::new(alloc),
            is_full: false,
        }
    }

    /// What was written.
    pub(crate) fn bytes(&self) -> &[u8]
        ensures { result.now ≡ bytes_of self.now }
    {
        &self.bytes
    }

    /// What a fault of a run that wrote here comes of: a write that was refused was refused for want of memory.
    pub(crate) fn fault_of(&self, fault: RunFault) -> RunFault
        ensures { fault_status result ≡ kept_status (is_full self.now) fault }
    {
        match fault {
            RunFault::Log(
                LogFault {
                    kind: LogFaultKind::Io,
                    line,
                },
            ) if self.is_full => RunFault::at(LogFaultKind::Memory, line),
            _ => fault,
        }
    }
}

impl Sink for KeptReport {
    ghost use Rattle.calvin.specs.Comparisons.{bytes_of, is_full};

    ghost taken = { λ s. Some (bytes_of s) };

    ghost broken = { λ s. is_full s };

    fn write(&mut self, piece: &[u8]) -> Result<usize, DeviceFailed> {
        if self.bytes.extend_from_slice(piece).is_err() {
            self.is_full = true;
            return Err(DeviceFailed);
        }
        Ok(piece.len())
    }
}

/// The first place, from 0, where two texts differ or one has ended; `None` where they are the same.
pub(crate) fn first_difference(text: &[u8], other: &[u8]) -> Option<usize>
    ensures { IsFirstDifference result text.now other.now }
{
    let mut place = 0;
    'places: while place < text.len() && place < other.len() {
        if text[place] != other[place] {
            return Some(place);
        }
        place += 1;
    }
    if text.len() == other.len() {
        None
    } else {
        Some(place)
    }
}
