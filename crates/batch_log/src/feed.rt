//! The batches of a log that comes byte by byte.

ghost use Rattle.std.specs.Prelude.{◌≡◌, ◌+◌, ◌≤◌, ◌^◌, List, ℕ, [], ◌∷◌, ◌++◌, None, false, IfOk, IfErr, IfSome, IsNone, length, nat_lt, true};
ghost use Rattle.std.specs.List.{AllByRecursion};
ghost use Rattle.requests.specs.Requests.{Call};
ghost use Rattle.batch_log.specs.Faults.{is_io, IsOfLine};
ghost use Rattle.batch_log.specs.Log.{is_room, most_calls};
ghost use Rattle.batch_log.specs.Places.{Counts, IsAt, IsFaulty, IsWhole};
ghost use Rattle.batch_log.specs.FeedSteps.{AddsCall, BreaksRule, EndsBatch};

use crate::batch::is_room;
use crate::fault::{LogFault, LogFaultKind};
use crate::line::{LogLine, read_log_line};
use requests::{Procs, Request};
use std::alloc::Global;
use std::mem;

/// The calls of a batch that has not ended, and how far the log was read.
#[derive(Drop)]
pub struct LogFeed {
    pub(crate) calls: Vec<Request>,
    // How often a stale request is tried again.
    pub(crate) retries: u8,
    // How many calls of the log were read.
    pub(crate) total: u64,
    // How many lines of the log were read, up to 2^64 - 1.
    pub(crate) lines: u64,
    // The beginning of a line whose end has not come.
    line: Vec<u8>,
    ghost few: { length calls.items ≤ 4096 },
    ghost room: { total ≤ most_calls retries },
}

impl LogFeed {
    ghost use Rattle.batch_log.specs.Feeds.{place_of};

    /// Nothing was read, of a log whose stale requests are tried again so often: if at all, then it may have 2^46
    /// calls, and else 2^48.
    pub fn new(alloc: Global, retries: u8) -> LogFeed
        ensures { place_of result ≡ record { retries = retries; calls = []; total = 0; lines = 0; line = [] } }
    {
        LogFeed {
            calls: Vec::new(alloc),
            retries,
            total: 0,
            lines: 0,
            line: Vec::new(alloc),
        }
    }

    /// The number of the last line that was read, or 0.
    pub fn lines(&self) -> u64
        ensures { result ≡ (place_of self.now).lines }
    {
        self.lines
    }

    /// Whether a line is begun whose end has not come.
    pub fn is_in_line(&self) -> bool
        ensures { result ≡ nat_lt 0 (length (place_of self.now).line) }
    {
        !self.line.is_empty()
    }

    /// How many calls the batch has that has not ended.
    pub fn len(&self) -> usize
        ensures { result ≡ length (place_of self.now).calls }
    {
        self.calls.len()
    }

    /// A fault of the last line that was read.
    fn fault(&self, kind: LogFaultKind) -> LogFault
        ensures { result ≡ record { kind = kind; line = self.now.lines } }
    {
        LogFault {
            kind,
            line: self.lines,
        }
    }

    /// Takes the call that the last line says.
    fn push(&mut self, call: Request) -> Result<(), LogFault>
        ensures room { IfOk result (λ _. is_room self.old.retries (length self.old.calls.items) self.old.total ≡ true) }
        ensures pushed { IfOk result (λ _. place_of self.new ≡
            record (place_of self.old) { calls = self.old.calls.items ++ call ∷ []; total = self.old.total + 1 }) }
        ensures full { IfErr result (λ e. IsOfLine e.kind →
            (is_room self.old.retries (length self.old.calls.items) self.old.total ≡ false)
            × (e ≡ record { kind = LogFaultKind.BatchTooLong; line = self.old.lines })) }
        ensures kept { IfErr result (λ _. self.new.calls.items ≡ self.old.calls.items) }
        ensures retries { self.new.retries ≡ self.old.retries }
        ensures no_device { IfErr result (λ e. is_io e.kind ≡ false) }
    {
        if !is_room(self.retries, self.calls.len(), self.total) {
            return Err(self.fault(LogFaultKind::BatchTooLong));
        }
        if self.calls.push(call).is_err() {
            return Err(self.fault(LogFaultKind::Memory));
        }
        self.total += 1;
        Ok(())
    }

    /// Takes the line that is begun as a whole one. Where it is a cut, the calls of the batch come out.
    fn take_line(&mut self, alloc: Global, procs: &Procs) -> Result<Option<Vec<Request>>, LogFault>
        requires tables { AllByRecursion (λ c. c.proc.tables ≡ procs.now.tables) self.old.calls.items }
        ensures call { IfOk result (λ o. IsNone o →
            (call : Call) × AddsCall procs.now.procs (place_of self.old) (place_of self.new) call) }
        ensures cut { IfOk result
            (λ o. IfSome o (λ calls. EndsBatch procs.now.procs (place_of self.old) (place_of self.new) calls.items)) }
        ensures fault { IfErr result (λ e. IsOfLine e.kind → BreaksRule procs.now.procs (place_of self.old) e) }
        ensures no_device { IfErr result (λ e. is_io e.kind ≡ false) }
        ensures tables { AllByRecursion (λ c. c.proc.tables ≡ procs.now.tables) self.new.calls.items }
        ensures retries { self.new.retries ≡ self.old.retries }
    {
        self.lines = self.lines.saturating_add(1);
        let said = read_log_line(alloc, procs, &self.line);
        self.line.clear();
        match said {
            Ok(LogLine::Call(call)) => {
                self.push(call)?;
                Ok(None)
            }
            Ok(LogLine::Cut) => Ok(Some(mem::replace(&mut self.calls, Vec::new(alloc)))),
            Err(kind) => Err(self.fault(kind)),
        }
    }

    /// Takes the next byte of the log. Where it ends a line that is a cut, the calls of the batch come out.
    ///
    /// A fault is the log's first (31 to 35), or want of memory (37), with its line. Nothing is promised of the feed
    /// then.
    pub fn take(
        &mut self,
        alloc: Global,
        procs: &Procs,
        byte: u8,
    ) -> Result<Option<Vec<Request>>, LogFault>
        // What is fed are calls over the procedures' tables.
        requires tables { AllByRecursion (λ c. c.proc.tables ≡ procs.now.tables) (place_of self.old).calls }
        ensures tables { AllByRecursion (λ c. c.proc.tables ≡ procs.now.tables) (place_of self.new).calls }
        ensures place { (ended : List (List Call)) → (fed : List ℕ) → IsAt procs.now (place_of self.old) ended fed →
            IfOk result (λ o. IsNone o → IsAt procs.now (place_of self.new) ended (fed ++ byte ∷ [])) }
        ensures batch { (ended : List (List Call)) → (fed : List ℕ) → IsAt procs.now (place_of self.old) ended fed →
            IfOk result (λ o. IfSome o
            (λ calls. IsAt procs.now (place_of self.new) (ended ++ calls.items ∷ []) (fed ++ byte ∷ []))) }
        ensures fault { (ended : List (List Call)) → (fed more : List ℕ) →
            IsAt procs.now (place_of self.old) ended fed →
            IfErr result (λ e. IsOfLine e.kind →
            IsFaulty procs.now (place_of self.old).retries e ended ((fed ++ byte ∷ []) ++ more)) }
        ensures no_device { IfErr result (λ e. is_io e.kind ≡ false) }
        ensures counts { IfOk result (Counts (place_of self.old) (place_of self.new)) }
        ensures limits { (length (place_of self.old).calls ≤ 4096) ×
            ((place_of self.new).total ≤ most_calls (place_of self.new).retries) ×
            ((place_of self.new).retries ≡ (place_of self.old).retries) }
    {
        if byte == b'\n' {
            return self.take_line(alloc, procs);
        }
        match self.line.push(byte) {
            Ok(()) => Ok(None),
            Err(_) => Err(LogFault {
                kind: LogFaultKind::Memory,
                line: self.lines.saturating_add(1),
            }),
        }
    }

    /// Takes the line that is begun as the log's last, which has no newline, if there is one. Where it is a cut, the
    /// calls of the batch come out.
    fn take_last_line(
        &mut self,
        alloc: Global,
        procs: &Procs,
    ) -> Result<Option<Vec<Request>>, LogFault>
        requires tables { AllByRecursion (λ c. c.proc.tables ≡ procs.now.tables) self.old.calls.items }
        ensures tables { AllByRecursion (λ c. c.proc.tables ≡ procs.now.tables) self.new.calls.items }
        ensures over { IfOk result (λ o. IfSome o (λ calls. calls.items ≡ self.old.calls.items)) }
        ensures whole { (ended : List (List Call)) → (fed : List ℕ) → IsAt procs.now (place_of self.old) ended fed →
            IfOk result (λ o. IsNone o → IsWhole procs.now (place_of self.old).retries self.new.calls.items ended fed) }
        ensures batch { (ended : List (List Call)) → (fed : List ℕ) → IsAt procs.now (place_of self.old) ended fed →
            IfOk result (λ o. IfSome o
            (λ calls. IsWhole procs.now (place_of self.old).retries [] (ended ++ calls.items ∷ []) fed)) }
        ensures fault { (ended : List (List Call)) → (fed : List ℕ) → IsAt procs.now (place_of self.old) ended fed →
            IfErr result (λ e. IsOfLine e.kind → IsFaulty procs.now (place_of self.old).retries e ended fed) }
        ensures no_device { IfErr result (λ e. is_io e.kind ≡ false) }
        ensures retries { self.new.retries ≡ self.old.retries }
        ensures counted { IfOk result (λ o. IsNone o →
            self.new.total + length self.old.calls.items ≡ self.old.total + length self.new.calls.items) }
    {
        if self.line.is_empty() {
            return Ok(None);
        }
        self.take_line(alloc, procs)
    }

    /// Takes the end of the log. A last line may have no newline. Where calls come after the last cut, or the last
    /// line is a cut without a newline, a last batch comes out.
    pub fn end(&mut self, alloc: Global, procs: &Procs) -> Result<Option<Vec<Request>>, LogFault>
        requires tables { AllByRecursion (λ c. c.proc.tables ≡ procs.now.tables) (place_of self.old).calls }
        ensures tables { AllByRecursion (λ c. c.proc.tables ≡ procs.now.tables) (place_of self.new).calls }
        ensures whole { (ended : List (List Call)) → (fed : List ℕ) → IsAt procs.now (place_of self.old) ended fed →
            IfOk result (λ o. IsNone o → IsWhole procs.now (place_of self.old).retries [] ended fed) }
        ensures batch { (ended : List (List Call)) → (fed : List ℕ) → IsAt procs.now (place_of self.old) ended fed →
            IfOk result (λ o. IfSome o
            (λ calls. IsWhole procs.now (place_of self.old).retries [] (ended ++ calls.items ∷ []) fed)) }
        ensures fault { (ended : List (List Call)) → (fed : List ℕ) → IsAt procs.now (place_of self.old) ended fed →
            IfErr result (λ e. IsOfLine e.kind → IsFaulty procs.now (place_of self.old).retries e ended fed) }
        ensures no_device { IfErr result (λ e. is_io e.kind ≡ false) }
        ensures last { IfOk result (λ o. IfSome o (λ calls.
            AllByRecursion (λ c. c.proc.tables ≡ procs.now.tables) calls.items × (length calls.items ≤ 4096) ×
            (length calls.items + (place_of self.old).total
            ≤ most_calls (place_of self.old).retries + length (place_of self.old).calls))) }
        ensures retries { (place_of self.new).retries ≡ (place_of self.old).retries }
    {
        match self.take_last_line(alloc, procs) {
            Ok(Some(calls)) => Ok(Some(calls)),
            Ok(None) if self.calls.is_empty() => Ok(None),
            Ok(None) => Ok(Some(mem::replace(&mut self.calls, Vec::new(alloc)))),
            Err(fault) => Err(fault),
        }
    }
}
