//! A sink over std's writers.

ghost use Rattle.std.specs.Prelude.{◌≡◌, false};
ghost use Rattle.devices.specs.Adapters.{has_write_failed, writer_of};

use crate::device::{DeviceFailed, Sink, TRIES};
use std::io::{ErrorKind, Write};

/// A sink over a writer. A write that is interrupted is made again, up to 64 times in a row; any
/// other error is a failure, and so is a write that takes none of a piece that isn't empty.
#[derive(Drop)]
pub struct WriteSink<W: Write> {
    writer: W,
    failed: bool,
}

impl<W: Write> WriteSink<W> {
    /// A sink that has not failed, over this writer.
    pub fn new(writer: W) -> WriteSink<W>
        ensures writer { writer_of result ≡ writer }
        ensures works { has_write_failed result ≡ false }
    {
        WriteSink {
            writer,
            failed: false,
        }
    }

    /// The writer with what it was given.
    pub fn into_inner(self) -> W
        ensures { result ≡ writer_of self }
    {
        self.writer
    }
}

impl<W: Write> Sink for WriteSink<W> {
    ghost taken = { λ s. W.contents (writer_of s) };

    ghost broken = { λ s. has_write_failed s };

    fn write(&mut self, piece: &[u8]) -> Result<usize, DeviceFailed> {
        for _ in 0..TRIES {
            match self.writer.write(piece) {
                Ok(0) if !piece.is_empty() => break,
                Ok(count) => return Ok(count),
                Err(e) if e.kind() == ErrorKind::Interrupted => {}
                Err(_) => break,
            }
        }
        self.failed = true;
        Err(DeviceFailed)
    }
}
