//! The reader of a source's lines.

ghost use Rattle.std.specs.Prelude.{◌≡◌, ◌≤◌, ◌<◌, ◌||◌, if◌then◌else◌, [], ◌∷◌, ◌++◌, length, take, slice_index, slice_range, true, false, None, Err, IfOk, OnOk, OnErr, IfSome, IsNone, IsOk};
ghost use Rattle.std.specs.Result.{is_err};
ghost use Rattle.std.specs.Io.KnownBytes.{Keeps, IsAtEnd};
ghost use Rattle.devices.specs.Devices.{Passes};
ghost use Rattle.devices.specs.Lines.{has_newline, newline, numbered_lines};
ghost use Rattle.devices.specs.Pieces.{LosesPiece, says_end, TakesPiece};

use crate::device::{DeviceFailed, Source};
use std::alloc::{AllocError, Global};
use thiserror::Error;

/// Why a line was not read. Lines are numbered from 1.
#[derive(Clone, Copy, Debug, PartialEq, Eq, Error)]
pub enum LineReadFault {
    /// A read failed. The line's number is that of the newlines taken, plus 1.
    #[error("a read failed at line {line}")]
    Io { line: u64 },
    /// Allocation failed. The line is the one last begun, or 0 where none is.
    #[error("out of memory at line {line}")]
    Memory { line: u64 },
}

/// Reads lines from a source: what is between its newline bytes, and a rest after the last of
/// them that isn't empty. Line numbers stop rising at 2^64 - 1.
#[derive(Drop)]
pub struct LineReader<'a, S> {
    source: &'a mut S,
    // The bytes that came and were not taken, at most 4096, are `buffer[start..end]`.
    buffer: [u8; BUFFER_LEN],
    start: usize,
    end: usize,
    newlines: u64,
    begun: u64,
    fault: Option<LineReadFault>,
    // Whether the line that was read last came without a newline.
    bare: bool,
    // Whether more is to come at any time where the source has nothing left.
    is_feed: bool,
    // Whether the source had nothing left when it was read as a feed.
    has_ended: bool,
    ghost feed: { has_ended ≡ true → is_feed ≡ true },
    ghost ordered: { start ≤ end },
    ghost in_bounds: { end ≤ length buffer },
    ghost ahead: { length (slice_range buffer start end) ≤ 4096 },
}

const BUFFER_LEN: usize = 4096;

/// A line has room for 64 bytes at first, so that few lines take memory twice.
const LINE_ROOM: usize = 64;

/// Where the first newline of some bytes is, or how many they are where they have none.
fn line_end(bytes: &[u8]) -> usize
    ensures within { result ≤ length bytes.now }
    ensures before { has_newline (take result bytes.now) ≡ false }
    ensures at { result < length bytes.now → slice_index bytes.now result ≡ newline }
{
    for (place, byte) in bytes.iter().enumerate() {
        if *byte == b'\n' {
            return place;
        }
    }
    bytes.len()
}

/// Puts a piece after the bytes of a line.
fn push_piece(line: &mut Vec<u8>, piece: &[u8]) -> Result<(), AllocError>
    ensures ok { OnOk result (line.new.items ≡ line.old.items ++ piece.now) }
    ensures some { OnErr result (0 < length piece.now) }
{
    if piece.is_empty() {
        return Ok(());
    }
    if line.is_empty() {
        line.reserve(piece.len().max(LINE_ROOM))?;
    }
    line.extend_from_slice(piece)?;
    Ok(())
}

impl<'a, S: Source> LineReader<'a, S> {
    ghost use Rattle.devices.specs.LineReader.{awaited, came, ends_bare, failed_in, fault_in, fault_of, has_ended, left_for, left_in, line_begun, IsFeedEnd, LosesLine, newlines_taken, origin_of, position_of, source_of, Takes, TakesLine, TellsFault, unread};

    /// A reader that has read nothing of a source, which may be a feed.
    fn over(source: &'a mut S, is_feed: bool) -> LineReader<'a, S>
        ensures same { origin_of result ≡ record { name = source.entry.ghost_name; is_feed = is_feed } }
        ensures source { source_of result ≡ source.old }
        ensures came { came result ≡ [] }
        ensures unread { unread S.left result ≡ left_for is_feed (S.left source.old) }
        ensures position { position_of result ≡ record { newlines = 0; begun = 0 } }
        ensures fault { fault_of result ≡ None }
        ensures begins { has_ended result ≡ false }
    {
        LineReader {
            source,
            buffer: [0; BUFFER_LEN],
            start: 0,
            end: 0,
            newlines: 0,
            begun: 0,
            fault: None,
            bare: false,
            is_feed,
            has_ended: false,
        }
    }

    /// A reader that has read nothing.
    pub fn new(source: &'a mut S) -> LineReader<'a, S>
        ensures same { origin_of result ≡ record { name = source.entry.ghost_name; is_feed = false } }
        ensures source { source_of result ≡ source.old }
        ensures came { came result ≡ [] }
        ensures unread { unread S.left result ≡ S.left source.old }
        ensures position { position_of result ≡ record { newlines = 0; begun = 0 } }
        ensures fault { fault_of result ≡ None }
        ensures begins { has_ended result ≡ false }
    {
        LineReader::over(source, false)
    }

    /// A reader that has read nothing of a feed: where the source has nothing left, more is to come at any time, so
    /// that a read fails, and the beginning of a line is none.
    pub fn follow(source: &'a mut S) -> LineReader<'a, S>
        ensures same { origin_of result ≡ record { name = source.entry.ghost_name; is_feed = true } }
        ensures source { source_of result ≡ source.old }
        ensures came { came result ≡ [] }
        ensures unread { unread S.left result ≡ awaited (S.left source.old) }
        ensures position { position_of result ≡ record { newlines = 0; begun = 0 } }
        ensures fault { fault_of result ≡ None }
        ensures begins { has_ended result ≡ false }
    {
        LineReader::over(source, true)
    }

    /// Gives the source back. The bytes that came and were not taken are lost.
    pub fn into_source(self) -> &'a mut S
        ensures same { result.ghost_name ≡ (origin_of self.entry).name }
        ensures source { result.now ≡ source_of self.entry }
    {
        self.source
    }

    /// How many newline bytes were taken, up to 2^64 - 1.
    pub fn newlines(&self) -> u64
        ensures { result ≡ newlines_taken self.now }
    {
        self.newlines
    }

    /// The number of the line last begun, or 0 where none is. A line begins when its first byte is
    /// taken.
    pub fn last_line(&self) -> u64
        ensures { result ≡ line_begun self.now }
    {
        self.begun
    }

    /// Whether the source was read as a feed and had nothing left.
    pub fn has_ended(&self) -> bool
        ensures { result ≡ has_ended self.now }
    {
        self.has_ended
    }

    /// Whether the line that was read last came without a newline, as the last one of a source may.
    pub fn ends_bare(&self) -> bool
        ensures { result ≡ ends_bare self.now }
    {
        self.bare
    }

    // Reads on where every byte that came was taken. Then the buffer has none but at the end.
    fn fill(&mut self) -> Result<(), DeviceFailed>
        ensures same { origin_of self.new ≡ origin_of self.old }
        ensures stays { (self.new.newlines ≡ self.old.newlines) × (self.new.begun ≡ self.old.begun) ×
            (self.new.fault ≡ self.old.fault) }
        ensures bytes { Keeps (unread S.left self.old) (unread S.left self.new) }
        ensures end { OnOk result (self.new.start ≡ self.new.end → IsAtEnd (unread S.left self.new)) }
        ensures late { self.old.start < self.old.end → IsOk result × (source_of self.new ≡ source_of self.old) ×
            (came self.new ≡ came self.old) }
        ensures spent { OnErr result (came self.new ≡ []) }
        ensures fails { failed_in S.failed self.new ≡ (failed_in S.failed self.old || is_err result) }
        ensures feed { has_ended self.old ≡ false → has_ended self.new ≡ true →
            IsFeedEnd (is_err result) (S.left (source_of self.new)) }
    {
        if self.start == self.end {
            self.start = 0;
            self.end = 0;
            self.end = self.source.read(&mut self.buffer)?;
            if self.end == 0 && self.is_feed {
                self.has_ended = true;
                return Err(DeviceFailed);
            }
        }
        Ok(())
    }

    // Takes what came of a line of that number: the bytes before the newline and then the newline,
    // or all that came. The bytes go after those of the line, and are lost if allocation
    // fails. Answers whether the line ends.
    fn take_piece(&mut self, number: u64, line: &mut Vec<u8>) -> Result<bool, AllocError>
        requires { self.old.start < self.old.end }
        ensures same { origin_of self.new ≡ origin_of self.old }
        ensures source { source_of self.new ≡ source_of self.old }
        ensures stays { (self.new.fault ≡ self.old.fault) × (has_ended self.new ≡ has_ended self.old) }
        ensures begun { self.new.begun ≡ number }
        ensures newlines { self.new.newlines ≡ (if says_end result then number else self.old.newlines) }
        ensures piece { IfOk result
            (λ ends. TakesPiece ends (came self.old) (came self.new) line.old.items line.new.items) }
        ensures lost { OnErr result (LosesPiece (came self.old) (came self.new)) }
    {
        self.begun = number;
        let from = self.start;
        let count = line_end(&self.buffer[from..self.end]);
        self.start = from + count;
        push_piece(line, &self.buffer[from..self.start])?;
        if self.start == self.end {
            return Ok(false);
        }
        self.start += 1;
        self.newlines = number;
        Ok(true)
    }

    // The next line, where the reader has no fault. A line grows each turn, and none is longer than
    // memory, so the loop ends.
    fn take_line(&mut self, alloc: Global) -> Result<Option<Vec<u8>>, LineReadFault>
        ensures same { origin_of self.new ≡ origin_of self.old }
        ensures stays { self.new.fault ≡ self.old.fault }
        ensures line { IfOk result (λ o.
            IfSome o (λ line. TakesLine (unread S.left self.old) (unread S.left self.new) (position_of self.old)
            (position_of self.new) (ends_bare self.new) line.items)) }
        ensures numbered { IfOk result (λ o. IfSome o (λ line. Passes
            (λ xs ys. numbered_lines (newlines_taken self.old) xs ≡ (line_begun self.new, line.items)
            ∷ numbered_lines (newlines_taken self.new) ys)
            (unread S.left self.old) (unread S.left self.new))) }
        ensures end { IfOk result (λ o. IsNone o →
            Passes (λ xs ys. (xs ≡ []) × (ys ≡ [])) (unread S.left self.old) (unread S.left self.new)) }
        ensures at_end { IfOk result (λ o. IsNone o → position_of self.new ≡ position_of self.old) }
        ensures lost { OnErr result (LosesLine (unread S.left self.old) (unread S.left self.new)
            (position_of self.old) (position_of self.new)) }
        ensures tells { TellsFault S.left S.failed self.old self.new result }
        ensures late { has_newline (came self.old) ≡ true → source_of self.new ≡ source_of self.old }
    {
        let number = self.newlines.saturating_add(1);
        let mut line = Vec::new(alloc);
        'pieces: loop {
            if self.fill().is_err() {
                return Err(LineReadFault::Io { line: number });
            }
            if self.start == self.end {
                if line.is_empty() {
                    return Ok(None);
                }
                self.bare = true;
                return Ok(Some(line));
            }
            match self.take_piece(number, &mut line) {
                Ok(true) => {
                    self.bare = false;
                    return Ok(Some(line));
                }
                Ok(false) => {}
                Err(AllocError) => return Err(LineReadFault::Memory { line: number }),
            }
        }
    }

    // rule: log.lines
    /// The next line without its newline, or `None` at the end. After a fault each further call
    /// answers the same fault.
    pub fn next_line(&mut self, alloc: Global) -> Result<Option<Vec<u8>>, LineReadFault>
        ensures same { origin_of self.new ≡ origin_of self.old }
        ensures line { IfOk result (λ o. IfSome o (λ line.
            TakesLine (unread S.left self.old) (unread S.left self.new) (position_of self.old)
            (position_of self.new) (ends_bare self.new) line.items ×
            Passes (λ xs ys. numbered_lines (newlines_taken self.old) xs ≡ (line_begun self.new, line.items)
            ∷ numbered_lines (newlines_taken self.new) ys) (unread S.left self.old) (unread S.left self.new))) }
        ensures end { IfOk result (λ o. IsNone o →
            Passes (λ xs ys. (xs ≡ []) × (ys ≡ [])) (unread S.left self.old) (unread S.left self.new) ×
            (position_of self.new ≡ position_of self.old)) }

        // A call that ends with a fault loses the beginning of a line, and each later call answers that fault.
        ensures lost { OnErr result (LosesLine (unread S.left self.old) (unread S.left self.new)
            (position_of self.old) (position_of self.new)) }
        ensures tells { fault_of self.old ≡ None → TellsFault S.left S.failed self.old self.new result }
        ensures stays { fault_of self.new ≡ fault_in result }
        ensures again { IfSome (fault_of self.old) (λ fault. (result ≡ Err fault) ×
            (source_of self.new ≡ source_of self.old)) }

        // Where a whole line has come, no read is made.
        ensures late { has_newline (came self.old) ≡ true → source_of self.new ≡ source_of self.old }
    {
        if let Some(fault) = self.fault {
            return Err(fault);
        }
        let result = self.take_line(alloc);
        if let Err(fault) = &result {
            self.fault = Some(*fault);
        }
        result
    }
}
