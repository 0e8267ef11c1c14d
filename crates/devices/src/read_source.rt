//! A source over std's readers.

ghost use Rattle.std.specs.Prelude.{◌≡◌, false};
ghost use Rattle.devices.specs.Adapters.{has_read_failed, reader_of};

use crate::device::{DeviceFailed, Source, TRIES};
use std::io::{ErrorKind, Read};

/// A source over a reader. A read that is interrupted is made again, up to 64 times in a row; any
/// other error is a failure.
#[derive(Drop)]
pub struct ReadSource<R: Read> {
    reader: R,
    failed: bool,
}

impl<R: Read> ReadSource<R> {
    /// A source that has not failed, over this reader.
    pub fn new(reader: R) -> ReadSource<R>
        ensures reader { reader_of result ≡ reader }
        ensures works { has_read_failed result ≡ false }
    {
        ReadSource {
            reader,
            failed: false,
        }
    }
}

impl<R: Read> Source for ReadSource<R> {
    ghost left = { λ s. R.remaining (reader_of s) };

    ghost failed = { λ s. has_read_failed s };

    fn read(&mut self, buf: &mut [u8]) -> Result<usize, DeviceFailed> {
        for _ in 0..TRIES {
            match self.reader.read(buf) {
                Ok(count) => return Ok(count),
                Err(e) if e.kind() == ErrorKind::Interrupted => {}
                Err(_) => break,
            }
        }
        self.failed = true;
        Err(DeviceFailed)
    }
}
