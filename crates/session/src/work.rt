//! The work at a log: bytes become batches, and batches report.

ghost use Rattle.std.specs.Prelude.{◌≡◌, ◌++◌, [], ◌∷◌, List, ℕ, IfOk, IfErr, None, OnOk, OnErr, Some, false, map};
ghost use Rattle.documents.specs.Reading.{Reads};
ghost use Rattle.devices.specs.Devices.{AppendsFront};
ghost use Rattle.devices.specs.Lines.{newline};
ghost use Rattle.batch_log.specs.Calls.{is_call, next_call};
ghost use Rattle.batch_log.specs.Faults.{is_memory};
ghost use Rattle.batch_log.specs.Feeds.{place_of};
ghost use Rattle.sequencer.specs.Batches.{items_of, AreOver};
ghost use Rattle.engine.specs.Engines.{is_busy, tables_of};
ghost use Rattle.engine.specs.Executions.{KeepsSetting};
ghost use Rattle.running.specs.Batches.{due_text, IsDue, IsReported};
ghost use Rattle.running.specs.Executors.{IsExecution};
ghost use Rattle.running.specs.Reported.{IsBetweenBatches};
ghost use Rattle.running.specs.Hashers.{form_of};
ghost use Rattle.running.specs.Standings.{standing_of};
ghost use Rattle.running.specs.Starts.{start_in, Start};
ghost use Rattle.session.specs.Replies.{batch_replies, kept_in, kept_with, numbered, KeepsReplies, NumberedReply};
ghost use Rattle.session.specs.Reports.{waiting_in};
ghost use Rattle.session.specs.Works.{next_number, ClosesWhole, Continues, EndsLog, FaultsAfter, FaultsAtEnd, FaultsInClosing, HasRun, IsReady, ReadsWhole, RunsWhole};
ghost use Rattle.session.specs.Writes.{IsBeginning};

use crate::replies::Replies;
use crate::report::Report;
use batch_log::{LogFault, LogFaultKind, LogFeed};
use engine::{Batch, BatchDone, ExecFault, QuietEngine, Reply, Settings};
use requests::Request;
use running::{Transcript, finish, run_batch};
use setup::SetupDocument;
use std::alloc::Global;
use std::mem;
use values::NoMemory;

/// A log at work.
#[derive(Drop)]
pub(crate) struct Work {
    pub engine: QuietEngine,
    pub feed: LogFeed,
    pub transcript: Transcript,
    pub report: Report,
    pub replies: Replies,
}

/// A failed allocation at a line. The report is kept in memory, so that nothing else fails.
fn no_memory(line: u64) -> LogFault
    ensures { result ≡ record { kind = LogFaultKind.Memory; line = line } }
{
    LogFault {
        kind: LogFaultKind::Memory,
        line,
    }
}

impl Work {
    /// Nothing of a log was read.
    pub(crate) fn new(
        alloc: Global,
        document: SetupDocument,
        settings: Settings,
    ) -> Result<Work, NoMemory>
        ensures ready { IfOk result IsReady }
        ensures begun { IfOk result (HasRun (start_in document) [] [] []) }
        ensures unkept { IfOk result (λ work. kept_in work.replies ≡ None) }
    {
        let SetupDocument { setup, digest } = document;
        let engine = QuietEngine::new(alloc, setup, settings)?;
        let feed = LogFeed::new(alloc, engine.retries());
        Ok(Work {
            engine,
            feed,
            transcript: Transcript::new(digest),
            report: Report::new(alloc),
            replies: Replies::new(),
        })
    }

    /// Lets the replies of a batch wait after the others, where replies are kept.
    fn keep(&mut self, replies: Vec<Reply>, line: u64) -> Result<(), LogFault>
        ensures same { (self.new.engine ≡ self.old.engine) × (self.new.feed ≡ self.old.feed) ×
            (self.new.transcript ≡ self.old.transcript) × (self.new.report ≡ self.old.report) }
        ensures ok { OnOk result (kept_in self.new.replies
            ≡ kept_with (kept_in self.old.replies) (map numbered replies.items)) }
        ensures err { OnErr result (kept_in self.new.replies ≡ kept_in self.old.replies) }
        ensures memory { IfErr result (λ e. e.kind ≡ LogFaultKind.Memory) }
    {
        match self.replies.put(replies) {
            Ok(()) => Ok(()),
            Err(_) => Err(no_memory(line)),
        }
    }

    /// Executes a batch of calls, after those that are carried to it, and reports it. Where replies are kept, its
    /// replies wait then, too.
    fn run(&mut self, alloc: Global, calls: Vec<Request>) -> Result<(), LogFault>
        requires { IsDue self.old.engine self.old.transcript calls.items }
        ensures feed { self.new.feed ≡ self.old.feed }
        ensures same { KeepsSetting self.old.engine self.new.engine }
        ensures reported { OnOk result
            (IsReported self.old.engine self.new.engine self.old.transcript self.new.transcript
            (Some (waiting_in self.old.report)) (Some (waiting_in self.new.report)) calls.items) }
        ensures front { AppendsFront (Some (waiting_in self.old.report)) (Some (waiting_in self.new.report))
            (due_text self.old.engine self.old.transcript calls.items) }
        ensures memory { IfErr result (λ e. e.kind ≡ LogFaultKind.Memory) }
        ensures form { form_of self.new.transcript ≡ form_of self.old.transcript }
        ensures replied { OnOk result (kept_in self.new.replies
            ≡ kept_with (kept_in self.old.replies) (batch_replies (standing_of self.old.engine) calls.items)) }
        ensures unreplied { OnErr result (kept_in self.new.replies ≡ kept_in self.old.replies) }
    {
        let line = self.feed.lines();
        let executor = |engine: &mut QuietEngine, batch: Batch| -> Result<BatchDone, ExecFault>
            requires { AreOver (tables_of engine.old) (items_of batch) }
            ensures { IsExecution engine.old batch result engine.new }
        { engine.execute(alloc, batch) };
        match run_batch(
            alloc,
            &executor,
            &mut self.engine,
            calls,
            &mut self.transcript,
            &mut self.report,
            line,
        ) {
            Ok(done) => self.keep(done.replies, line),
            Err(_) => Err(no_memory(line)),
        }
    }

    /// Takes the next byte of the log. A batch that it ends is executed and reported.
    #[tactic(auto, using(crate::proofs::Growing::begins_itself))]
    fn take_byte(&mut self, alloc: Global, byte: u8) -> Result<(), LogFault>
        requires ready { IsReady self.old }
        ensures ready { OnOk result (IsReady self.new) }
        ensures taken { OnOk result (Continues self.old (byte ∷ []) self.new) }
        ensures fault { IfErr result (FaultsAfter self.old (byte ∷ []) self.new) }
        ensures kept { IsBeginning (waiting_in self.old.report) (waiting_in self.new.report) }
        ensures replies { KeepsReplies (kept_in self.old.replies) (kept_in self.new.replies) }
    {
        match self.feed.take(alloc, self.engine.procs(), byte) {
            Ok(Some(calls)) => self.run(alloc, calls),
            Ok(None) => Ok(()),
            Err(fault) => Err(fault),
        }
    }

    /// Takes bytes of the log. Each batch that they end is executed and reported.
    #[tactic(auto, using(crate::proofs::Growing::begins_itself, crate::proofs::Growing::begins_onward))]
    pub(crate) fn take_bytes(&mut self, alloc: Global, bytes: &[u8]) -> Result<(), LogFault>
        requires ready { IsReady self.old }
        ensures ready { OnOk result (IsReady self.new) }
        ensures taken { OnOk result (Continues self.old bytes.now self.new) }
        ensures fault { IfErr result (FaultsAfter self.old bytes.now self.new) }
        ensures kept { IsBeginning (waiting_in self.old.report) (waiting_in self.new.report) }
        ensures replies { KeepsReplies (kept_in self.old.replies) (kept_in self.new.replies) }
    {
        for byte in bytes {
            match self.take_byte(alloc, *byte) {
                Ok(()) => {}
                Err(fault) => return Err(fault),
            }
        }
        Ok(())
    }

    /// The number of the transaction that the next call is.
    pub(crate) fn next_number(&self) -> u64
        requires { IsReady self.now }
        ensures { result ≡ next_number self.now }
    {
        let before = self.engine.carried() + self.feed.len();
        self.engine.transactions() + before as u64
    }

    /// Takes a line, which comes without its newline, as the next call. No line is begun.
    pub(crate) fn take_call(&mut self, alloc: Global, line: &[u8]) -> Result<(), LogFaultKind>
        requires ready { IsReady self.old }
        requires whole { (place_of self.old.feed).line ≡ [] }
        ensures ready { IsReady self.new }
        ensures taken { OnOk result (Continues self.old (line.now ++ newline ∷ []) self.new) }
        ensures exact { Reads is_memory (λ _. tt) result
            (is_call (next_call self.old.engine.procs.procs (place_of self.old.feed) line.now)) }
        ensures err { OnErr result (Continues self.old [] self.new) }
        ensures same { (self.new.report ≡ self.old.report) × (self.new.replies ≡ self.old.replies) ×
            (self.new.engine ≡ self.old.engine) × (self.new.transcript ≡ self.old.transcript) }
    {
        match self.feed.call(alloc, self.engine.procs(), line) {
            Ok(()) => Ok(()),
            Err(kind) => Err(kind),
        }
    }

    /// Takes the end of the log, and executes and reports the last batch, if there is one.
    #[tactic(auto, using(crate::proofs::Growing::begins_itself))]
    fn take_last_batch(&mut self, alloc: Global) -> Result<(), LogFault>
        requires ready { IsReady self.old }
        ensures between { OnOk result (IsBetweenBatches self.new.engine self.new.transcript) }
        ensures whole { OnOk result (ReadsWhole self.old self.new) }
        ensures fault { IfErr result (FaultsAtEnd self.old self.new) }
        ensures kept { IsBeginning (waiting_in self.old.report) (waiting_in self.new.report) }
        ensures replies { KeepsReplies (kept_in self.old.replies) (kept_in self.new.replies) }
        ensures setting { KeepsSetting self.old.engine self.new.engine ×
            (form_of self.new.transcript ≡ form_of self.old.transcript) }
    {
        match self.feed.end(alloc, self.engine.procs()) {
            Ok(Some(calls)) => self.run(alloc, calls),
            Ok(None) => Ok(()),
            Err(fault) => Err(fault),
        }
    }

    /// Executes and reports the batches without calls that close a log, while requests are carried.
    #[tactic(auto, using(crate::proofs::Growing::begins_onward))]
    fn close(&mut self, alloc: Global) -> Result<(), LogFault>
        requires between { IsBetweenBatches self.old.engine self.old.transcript }
        ensures between { OnOk result (IsBetweenBatches self.new.engine self.new.transcript) }
        ensures whole { OnOk result (ClosesWhole self.old self.new) }
        ensures fault { IfErr result (FaultsInClosing self.old self.new) }
        ensures kept { IsBeginning (waiting_in self.old.report) (waiting_in self.new.report) }
        ensures replies { KeepsReplies (kept_in self.old.replies) (kept_in self.new.replies) }
        ensures setting { KeepsSetting self.old.engine self.new.engine ×
            (form_of self.new.transcript ≡ form_of self.old.transcript) }
    {
        // No request is tried again more often, so nothing is carried after `retries` batches.
        for _turn in 0..self.engine.retries() {
            if self.engine.carried() == 0 {
                return Ok(());
            }
            match self.run(alloc, Vec::new(alloc)) {
                Ok(()) => {}
                Err(fault) => return Err(fault),
            }
        }
        Ok(())
    }

    /// Takes the end of the log, executes and reports the last batch, if there is one, and the batches without calls
    /// that close the log.
    #[tactic(auto, using(crate::proofs::Growing::begins_onward))]
    fn take_rest(&mut self, alloc: Global) -> Result<(), LogFault>
        requires ready { IsReady self.old }
        ensures between { OnOk result (IsBetweenBatches self.new.engine self.new.transcript) }
        ensures whole { OnOk result (RunsWhole self.old self.new) }
        ensures fault { IfErr result (FaultsAtEnd self.old self.new) }
        ensures kept { IsBeginning (waiting_in self.old.report) (waiting_in self.new.report) }
        ensures replies { KeepsReplies (kept_in self.old.replies) (kept_in self.new.replies) }
        ensures setting { KeepsSetting self.old.engine self.new.engine ×
            (form_of self.new.transcript ≡ form_of self.old.transcript) }
    {
        match self.take_last_batch(alloc) {
            Ok(()) => self.close(alloc),
            Err(fault) => Err(fault),
        }
    }

    /// Takes the end of the log. The answer is the number of transactions.
    pub(crate) fn take_end(&mut self, alloc: Global) -> Result<u64, LogFault>
        requires ready { IsReady self.old }
        ensures whole { IfOk result (EndsLog self.old self.new) }
        ensures fault { IfErr result (FaultsAtEnd self.old self.new) }
        ensures kept { (start : Start) (fed drained : List ℕ) (passed : List NumberedReply) →
            HasRun start fed drained passed self.old →
            IsBeginning (waiting_in self.old.report) (waiting_in self.new.report) }
        ensures replies { KeepsReplies (kept_in self.old.replies) (kept_in self.new.replies) }
        ensures setting { KeepsSetting self.old.engine self.new.engine ×
            (form_of self.new.transcript ≡ form_of self.old.transcript) }
        ensures idle { OnOk result (is_busy self.new.engine ≡ false) }
    {
        match self.take_rest(alloc) {
            Ok(()) => {}
            Err(fault) => return Err(fault),
        }
        let form = self.transcript.form();
        let transcript = mem::replace(&mut self.transcript, Transcript::new(form));
        let line = self.feed.lines();
        match finish(alloc, &mut self.engine, transcript, &mut self.report, line) {
            Ok(count) => Ok(count),
            Err(_) => Err(no_memory(line)),
        }
    }
}
