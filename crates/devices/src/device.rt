//! What bytes are read from, and what they are written to.

ghost use Rattle.std.specs.Prelude.{◌≡◌, ℕ, ◌||◌, List, Bool, Option, OnOk};
ghost use Rattle.std.specs.Result.{is_err};
ghost use Rattle.std.specs.Io.{ReadsAtMost, WritesAtMost};
ghost use Rattle.std.specs.Io.KnownBytes.{Appends, ReadConsumes, WriteAppends};
ghost use Rattle.devices.specs.Devices.{refuses, AppendsFront};

use thiserror::Error;

/// A device refused a read or a write, and says no more of it.
#[derive(Clone, Copy, Debug, PartialEq, Eq, Error)]
#[error("a device refused a read or a write")]
pub struct DeviceFailed;

/// What bytes are read from.
pub trait Source {
    // the bytes that reads will give from here on; `None` claims nothing of them
    ghost left: { Self → Option (List ℕ) };

    // whether a read has failed
    ghost failed: { Self → Bool };

    /// Reads some bytes into the front of `buf`, and none only at the end or where `buf` is empty.
    /// An error takes nothing.
    fn read(&mut self, buf: &mut [u8]) -> Result<usize, DeviceFailed>
        ensures bound { ReadsAtMost result buf.new }
        ensures bytes { ReadConsumes (left self.old) (left self.new) result buf.new }
        ensures fails { failed self.new ≡ (failed self.old || is_err result) };
}

/// What bytes are written to.
pub trait Sink {
    // the bytes that were taken so far; `None` claims nothing of them
    ghost taken: { Self → Option (List ℕ) };

    // whether a write has failed
    ghost broken: { Self → Bool };

    /// Takes bytes from the front of `piece`, and answers how many. To take none of a piece that
    /// isn't empty is a failure, as an error is. An error takes nothing.
    fn write(&mut self, piece: &[u8]) -> Result<usize, DeviceFailed>
        ensures bound { WritesAtMost result piece.now }
        ensures bytes { WriteAppends (taken self.old) (taken self.new) result piece.now }
        ensures fails { broken self.new ≡ (broken self.old || refuses result piece.now) };
}

// How often a call of std is made in a row while it is interrupted.
pub(crate) const TRIES: usize = 64;

/// Writes all of a piece, and tries again where a write took less. After an error the sink has
/// taken a beginning of the piece.
pub fn write_all<K: Sink>(sink: &mut K, piece: &[u8]) -> Result<(), DeviceFailed>
    ensures ok { OnOk result (Appends (K.taken sink.old) (K.taken sink.new) piece.now) }
    ensures front { AppendsFront (K.taken sink.old) (K.taken sink.new) piece.now }
    ensures fails { K.broken sink.new ≡ (K.broken sink.old || is_err result) }
{
    let mut rest = piece;
    while !rest.is_empty() {
        match sink.write(rest)? {
            0 => return Err(DeviceFailed),
            count => rest = &rest[count..],
        }
    }
    Ok(())
}
