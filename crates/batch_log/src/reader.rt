//! The reader of a log's batches.

ghost use Rattle.std.specs.Prelude.{◌≡◌, ◌+◌, ◌≤◌, ◌^◌, length, None, Err, IfOk, IfErr, IfSome, IsNone};
ghost use Rattle.std.specs.List.{AllByRecursion};
ghost use Rattle.devices.specs.Devices.{Passes};
ghost use Rattle.devices.specs.LineReader as line_reader;
ghost use Rattle.batch_log.specs.Faults.{ends_in_io, fault_in, IsOfLine, TellsFault};
ghost use Rattle.batch_log.specs.Log.{calls_in, IsEnd, IsFault, IsNextBatch, log_said, most_calls};
ghost use Rattle.batch_log.specs.Moves.{Moves};
ghost use Rattle.batch_log.specs.Taken.{TakesCalls};

use crate::batch::read_batch;
use crate::fault::LogFault;
use devices::{LineReader, Source};
use requests::{Procs, Request};
use std::alloc::Global;

/// Reads the batches of a log from a source, with the number of each line.
#[derive(Drop)]
pub struct LogReader<'a, S> {
    lines: LineReader<'a, S>,
    // How often a stale request is tried again.
    retries: u8,
    // How many calls were read.
    total: u64,
    fault: Option<LogFault>,
    ghost few: { total ≤ most_calls retries },
    ghost lines_read: { fault ≡ None → line_reader.fault_of lines ≡ None },
}

impl<'a, S: Source> LogReader<'a, S> {
    ghost use Rattle.std.specs.Prelude.{[], false, true};
    ghost use Rattle.devices.specs.LineReader.{awaited};
    ghost use Rattle.batch_log.specs.Reader.{calls_read, fault_of, has_ended, line_begun, lines_of, newlines_taken, origin_of, position_of, retries_of, source_of, unread, IsUnread};

    /// A reader of these lines, of which nothing was read.
    fn over(lines: LineReader<'a, S>, retries: u8) -> LogReader<'a, S>
        requires { line_reader.fault_of lines ≡ None }
        ensures lines { lines_of result ≡ lines.entry }
        ensures retries { retries_of result ≡ retries }
        ensures calls { calls_read result ≡ 0 }
        ensures fault { fault_of result ≡ None }
    {
        LogReader {
            lines,
            retries,
            total: 0,
            fault: None,
        }
    }

    /// A reader that has read nothing, of a log whose stale requests are tried again so often: if at all, then the log
    /// may have 2^46 calls, and else 2^48.
    pub fn new(source: &'a mut S, retries: u8) -> LogReader<'a, S>
        ensures same { origin_of result ≡ record { name = source.entry.ghost_name; is_feed = false } }
        ensures source { source_of result ≡ source.old }
        ensures unread { unread S.left result ≡ S.left source.old }
        ensures nothing { IsUnread retries result }
    {
        LogReader::over(LineReader::new(source), retries)
    }

    /// A reader that has read nothing of a log that is a feed, as `new` gives one of a log: where the source has
    /// nothing left, more is to come at any time, so that a read fails. What was begun by then is no line and no batch.
    pub fn follow(source: &'a mut S, retries: u8) -> LogReader<'a, S>
        ensures same { origin_of result ≡ record { name = source.entry.ghost_name; is_feed = true } }
        ensures source { source_of result ≡ source.old }
        ensures unread { unread S.left result ≡ awaited (S.left source.old) }
        ensures nothing { IsUnread retries result }
    {
        LogReader::over(LineReader::follow(source), retries)
    }

    /// Whether the log is a feed of which nothing more had come when it was read.
    pub fn has_ended(&self) -> bool
        ensures { result ≡ has_ended self.now }
    {
        self.lines.has_ended()
    }

    /// Gives the source back. The bytes that came and were not taken are lost.
    pub fn into_source(self) -> &'a mut S
        ensures same { result.ghost_name ≡ (origin_of self.entry).name }
        ensures source { result.now ≡ source_of self.entry }
    {
        self.lines.into_source()
    }

    /// The number of the line last begun, or 0 where none is. A line begins when its first byte is
    /// taken.
    pub fn last_line(&self) -> u64
        ensures { result ≡ line_begun self.now }
    {
        self.lines.last_line()
    }

    // rule: batch.last
    /// The calls of the next batch, or `None` at the end. A cut ends a batch, also an empty one.
    /// The end of a log ends a batch of the calls before it, unless there are none. After a fault
    /// each further call answers the same fault.
    ///
    /// No byte is taken after the line that ends the batch or has the fault.
    pub fn next_batch(
        &mut self,
        alloc: Global,
        procs: &Procs,
    ) -> Result<Option<Vec<Request>>, LogFault>
        ensures same { (origin_of self.new ≡ origin_of self.old) × (retries_of self.new ≡ retries_of self.old) }
        // Each call is of these procedures, so it is over their tables.
        ensures batch { IfOk result (λ o. IfSome o (λ calls. Passes
            (λ xs ys. IsNextBatch (log_said (retries_of self.old) procs.now.procs (newlines_taken self.old)
            (calls_read self.old) xs) calls.items
            (log_said (retries_of self.old) procs.now.procs (newlines_taken self.new) (calls_read self.new) ys))
            (unread S.left self.old) (unread S.left self.new) ×
            AllByRecursion (λ c. c.proc.tables ≡ procs.now.tables) calls.items × (length calls.items ≤ 4096))) }
        ensures end { IfOk result (λ o. IsNone o → Passes
            (λ xs ys. IsEnd (log_said (retries_of self.old) procs.now.procs (newlines_taken self.old)
            (calls_read self.old) xs) × (ys ≡ []))
            (unread S.left self.old) (unread S.left self.new)) }
        ensures counted { IfOk result (λ o. calls_read self.new ≡ calls_read self.old + calls_in o) ×
            (calls_read self.new ≤ most_calls (retries_of self.new)) }

        // A fault of a line is the log's first, and no batch is whole before it.
        ensures fault { fault_of self.old ≡ None → IfErr result (λ e. IsOfLine e.kind → Passes
            (λ xs ys. IsFault (log_said (retries_of self.old) procs.now.procs (newlines_taken self.old)
            (calls_read self.old) xs) e)
            (unread S.left self.old) (unread S.left self.new)) }
        // Whole lines of calls are taken, and then one more line, or a beginning of it.
        ensures taken { Passes
            (TakesCalls (retries_of self.old) procs.now.procs (calls_read self.old) (ends_in_io result))
            (unread S.left self.old) (unread S.left self.new) ×
            Moves (unread S.left self.old) (unread S.left self.new) (position_of self.old) (position_of self.new) }
        ensures tells { fault_of self.old ≡ None →
            TellsFault S.left S.failed (lines_of self.old) (lines_of self.new) result }
        ensures stays { (fault_of self.new ≡ fault_in result) ×
            IfSome (fault_of self.old) (λ e. (result ≡ Err e) × (source_of self.new ≡ source_of self.old)) }
    {
        if let Some(fault) = self.fault {
            return Err(fault);
        }
        let result = read_batch(alloc, procs, self.retries, &mut self.lines, &mut self.total);
        if let Err(fault) = &result {
            self.fault = Some(*fault);
        }
        result
    }
}
