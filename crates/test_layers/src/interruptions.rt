//! Readers and writers of std that are interrupted, or fail.

use devices::{DeviceFailed, ReadSource, Source, WriteSink, write_all};
use std::io;
use std::io::{ErrorKind, Read, Write};

/// A reader and writer of std that answers errors of a kind before each call that it serves.
#[derive(Drop)]
struct Nervous<'a> {
    bytes: &'a [u8],
    taken: usize,
    kind: ErrorKind,
    interruptions: u64,
    left: u64,
}

impl Nervous<'_> {
    fn is_interrupted(&mut self) -> bool {
        if self.left == 0 {
            self.left = self.interruptions;
            return false;
        }
        self.left -= 1;
        true
    }
}

impl Read for Nervous<'_> {
    fn read(&mut self, buf: &mut [u8]) -> io::Result<usize> {
        if self.is_interrupted() {
            return Err(io::Error::from(self.kind));
        }
        self.bytes.read(buf)
    }
}

impl Write for Nervous<'_> {
    fn write(&mut self, piece: &[u8]) -> io::Result<usize> {
        if self.is_interrupted() {
            return Err(io::Error::from(self.kind));
        }
        self.taken = self.taken.saturating_add(piece.len());
        Ok(piece.len())
    }

    fn flush(&mut self) -> io::Result<()> {
        Ok(())
    }
}

#[test]
fn interruptions_alone_are_tried_again(rt: HostRuntime) {
    let table = [
        (ErrorKind::Interrupted, 0, true),
        (ErrorKind::Interrupted, 63, true),
        (ErrorKind::Interrupted, 64, false),
        (ErrorKind::BrokenPipe, 1, false),
    ];
    for (kind, interruptions, works) in table {
        let nervous = |bytes| Nervous {
            bytes,
            taken: 0,
            kind,
            interruptions,
            left: interruptions,
        };
        let mut source = ReadSource::new(nervous(b"ab".as_slice()));
        let read = source.read(&mut [0; 8]);
        assert_eq!(rt; read, if works { Ok(2) } else { Err(DeviceFailed) });
        let mut sink = WriteSink::new(nervous(b"".as_slice()));
        assert_eq!(rt; write_all(&mut sink, b"abc").is_ok(), works);
        assert_eq!(rt; sink.into_inner().taken, if works { 3 } else { 0 });
    }
}
