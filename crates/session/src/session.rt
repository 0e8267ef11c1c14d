//! A run of a log, piece by piece.

ghost use Rattle.std.specs.Prelude.{◌≡◌, ◌++◌, [], ◌∷◌, ℕ, List, length, take, None, Ok, Err, IfOk, IfErr, IfSome, IsSome, OnOk, OnErr, Some, false};
ghost use Rattle.std.proofs.Props.{props};
ghost use Rattle.running.specs.Starts.{start_in, Start};
ghost use Rattle.devices.specs.Lines.{newline};
ghost use Rattle.engine.specs.Engines.{is_busy};
ghost use Rattle.session.specs.Pieces.{IsDrained};
ghost use Rattle.session.specs.declared.session.SessionFault.TheVariants.{Over};
ghost use Rattle.session.specs.declared.call.CallFault.{CallFault as AnyFault};
ghost use Rattle.session.specs.Replies.{KeepsReplies, NumberedReply};
ghost use Rattle.session.specs.Works.{next_number, IsReady};

use crate::call::CallFault;
use crate::work::Work;
use batch_log::LogFault;
use engine::Settings;
use setup::SetupDocument;
use std::alloc::Global;
use thiserror::Error;
use values::NoMemory;

/// The line that ends a batch.
const CUT: &str = "[\"cut\"]\n";

/// Why nothing more is taken of a log.
#[derive(Clone, Copy, Debug, PartialEq, Eq, Error)]
pub enum SessionFault {
    /// The log has ended.
    #[error("the log has ended")]
    Over,
    /// The fault of the log, or want of memory, at its line.
    #[error(transparent)]
    Log(LogFault),
}

/// A run of a log on a setup, on the thread that calls it. The log is fed in pieces of any size, and its report is
/// drained in pieces of any size. A batch is executed, and its report waits to be drained, as soon as its cut was fed;
/// calls after the last cut are executed at the end. A stale request is tried again in the next batch, as often as the
/// setup says; at the end batches without calls follow while there are such requests.
///
/// A fault of what is fed, of a cut or of the end stops the run: one of a line of the log (31 to 35), or want of memory
/// (37). What was reported until then can be drained, and replies that wait can be taken.
#[derive(Drop)]
pub struct Session {
    pub(crate) work: Work,
    pub(crate) stop: Option<SessionFault>,
    ghost ready: { stop ≡ None → IsReady work } by { Prim.hlevel props },
    // After the end of the log no batch is unfinished.
    ghost ended: { stop ≡ Some Over → is_busy work.engine ≡ false },
}

impl Session {
    ghost use Rattle.session.specs.Calls.{at_line_of, call_said, cut_line, stop_at_cut, Answers, HasStopped};
    ghost use Rattle.session.specs.Sessions.{kept_of, stock_of, stop_at_end, stop_in, stop_of, waiting_of, EndsInFault, EndsWhole, FaultsOn, HasTaken, KeepsSetup, KeepsWaiting, KeepsWaitingAtEnd, TakesOn};

    /// A run on a setup document, of whose log nothing was fed. No reply is kept.
    pub fn new(
        alloc: Global,
        document: SetupDocument,
        settings: Settings,
    ) -> Result<Session, NoMemory>
        ensures open { IfOk result (λ session. stop_of session ≡ None) }
        ensures begun { IfOk result (HasTaken (start_in document) [] [] []) }
        ensures unkept { IfOk result (λ session. kept_of session ≡ None) }
    {
        let work = Work::new(alloc, document, settings)?;
        Ok(Session { work, stop: None })
    }

    /// Takes the next bytes of the log. Each batch whose cut is among them is executed, and its report waits. After a
    /// fault each further call answers the same.
    #[tactic(auto, using(crate::proofs::Growing::begins_itself))]
    pub fn feed(&mut self, alloc: Global, bytes: &[u8]) -> Result<(), SessionFault>
        // The bytes are taken after those that were fed before.
        ensures taken { OnOk result (TakesOn self.old bytes.now self.new) }
        // A fault is that of each log that begins with what was fed.
        ensures fault { IfErr result (FaultsOn self.old bytes.now self.new) }
        // Report bytes that waited wait still.
        ensures kept { KeepsWaiting self.old self.new }
        // Replies that waited wait still.
        ensures replies { KeepsReplies (kept_of self.old) (kept_of self.new) }
        ensures stops { stop_of self.old ≡ None → stop_of self.new ≡ stop_in result }
        ensures again { IfSome (stop_of self.old) (λ fault. (result ≡ Err fault) × (self.new ≡ self.old)) }
    {
        if let Some(fault) = self.stop {
            return Err(fault);
        }
        match self.work.take_bytes(alloc, bytes) {
            Ok(()) => Ok(()),
            Err(fault) => {
                let fault = SessionFault::Log(fault);
                self.stop = Some(fault);
                Err(fault)
            }
        }
    }

    /// Whether nothing keeps a call from being the next line.
    fn is_at_line(&self) -> Result<(), CallFault>
        ensures { result ≡ at_line_of self.now }
    {
        if let Some(fault) = self.stop {
            return Err(CallFault::Stopped(fault));
        }
        if self.work.feed.is_in_line() {
            return Err(CallFault::InLine);
        }
        Ok(())
    }

    /// Tells what `call` would answer for the line, but for its number, unless an allocation fails, and takes nothing.
    pub fn test(&self, alloc: Global, line: &[u8]) -> Result<(), CallFault>
        ensures { Answers result (call_said self.now line.now) }
    {
        self.is_at_line()?;
        match self.work.feed.test(alloc, self.work.engine.procs(), line) {
            Ok(()) => Ok(()),
            Err(kind) => Err(CallFault::Line(kind)),
        }
    }

    /// Takes a line, which comes without its newline, as the next call of the log, and gives the number of its
    /// transaction: that of its first attempt. A line that is no call that the setup takes has its fault (31 to 35),
    /// which is 32 for a cut and for more than one line. An error changes nothing.
    pub fn call(&mut self, alloc: Global, line: &[u8]) -> Result<u64, CallFault>
        ensures taken { OnOk result (TakesOn self.old (line.now ++ newline ∷ []) self.new) }
        ensures number { IfOk result (λ number. number ≡ next_number self.old.work) }
        ensures answer { Answers result (call_said self.old line.now) }
        ensures err { OnErr result (TakesOn self.old [] self.new) }
        ensures kept { waiting_of self.new ≡ waiting_of self.old }
        // Nothing is executed.
        ensures replies { kept_of self.new ≡ kept_of self.old }
        ensures stays { (stop_of self.new ≡ stop_of self.old) × (stock_of self.new ≡ stock_of self.old) }
    {
        self.is_at_line()?;
        let number = self.work.next_number();
        match self.work.take_call(alloc, line) {
            Ok(()) => Ok(number),
            Err(kind) => Err(CallFault::Line(kind)),
        }
    }

    /// Ends the batch: its calls are executed, and their report waits, as if the line of a cut were fed.
    pub fn cut(&mut self, alloc: Global) -> Result<(), CallFault>
        ensures taken { OnOk result (TakesOn self.old cut_line self.new) }
        ensures fault { at_line_of self.old ≡ Ok tt →
            IfErr result (λ e. HasStopped e (FaultsOn self.old cut_line self.new)) }
        // Report bytes that waited wait still.
        ensures kept { KeepsWaiting self.old self.new }
        // Replies that waited wait still.
        ensures replies { KeepsReplies (kept_of self.old) (kept_of self.new) }
        ensures refused { (fault : AnyFault) → at_line_of self.old ≡ Err fault →
            (result ≡ Err fault) × (self.new ≡ self.old) }
        ensures stops { at_line_of self.old ≡ Ok tt → stop_of self.new ≡ stop_at_cut result }
    {
        self.is_at_line()?;
        match self.feed(alloc, CUT.as_bytes()) {
            Ok(()) => Ok(()),
            Err(fault) => Err(CallFault::Stopped(fault)),
        }
    }

    /// Takes the end of the log: a last line may have no newline, and calls after the last cut are a batch. Batches
    /// without calls follow while stale requests are to be tried again. Then the end line is reported, and the answer
    /// is the number of transactions. Nothing more is taken afterwards.
    #[tactic(auto, using(crate::proofs::Growing::begins_itself))]
    pub fn end(&mut self, alloc: Global) -> Result<u64, SessionFault>
        // What was fed is a whole log. What was drained and what waits are together its report, replies that are kept
        // are its replies, and the rows are those that it leaves.
        ensures whole { IfOk result (EndsWhole self.old self.new) }
        ensures fault { IfErr result (EndsInFault self.old self.new) }
        // Report bytes that waited wait still.
        ensures kept { KeepsWaitingAtEnd self.old self.new }
        // Replies that waited wait still.
        ensures replies { KeepsReplies (kept_of self.old) (kept_of self.new) }
        ensures setup { KeepsSetup self.old self.new }
        ensures stops { IsSome (stop_of self.new) }
        ensures over { stop_of self.old ≡ None → stop_of self.new ≡ stop_at_end result }
        ensures again { IfSome (stop_of self.old) (λ fault. (result ≡ Err fault) × (self.new ≡ self.old)) }
    {
        if let Some(fault) = self.stop {
            return Err(fault);
        }
        match self.work.take_end(alloc) {
            Ok(count) => {
                self.stop = Some(SessionFault::Over);
                Ok(count)
            }
            Err(fault) => {
                let fault = SessionFault::Log(fault);
                self.stop = Some(fault);
                Err(fault)
            }
        }
    }

    /// Moves report bytes that wait to the front of `into`, as many as there are or as fit, and answers how many.
    pub fn drain(&mut self, into: &mut [u8]) -> usize
        ensures drained { IsDrained (waiting_of self.old) (waiting_of self.new) into.old into.new result }
        ensures taken { (start : Start) (fed drained : List ℕ) (passed : List NumberedReply) →
            HasTaken start fed drained passed self.old →
            HasTaken start fed (drained ++ take result into.new) passed self.new }
        ensures replies { kept_of self.new ≡ kept_of self.old }
        ensures stays { (stop_of self.new ≡ stop_of self.old) × (stock_of self.new ≡ stock_of self.old) }
    {
        self.work.report.drain(into)
    }

    /// How many report bytes wait to be drained.
    pub fn waiting(&self) -> usize
        ensures { result ≡ length (waiting_of self.now) }
    {
        self.work.report.waiting()
    }

    /// Why nothing more is taken of the log; `None` while it is.
    pub fn stop(&self) -> Option<SessionFault>
        ensures { result ≡ stop_of self.now }
    {
        self.stop
    }
}
