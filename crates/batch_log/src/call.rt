//! Single lines as the next calls of a log.

ghost use Rattle.std.specs.Prelude.{◌≡◌, ◌+◌, ℕ, List, [], ◌∷◌, ◌++◌, length, Ok, IfOk, IfErr, OnOk, OnErr, true, false};
ghost use Rattle.std.specs.List.{AllByRecursion};
ghost use Rattle.documents.specs.Reading.{Reads};
ghost use Rattle.devices.specs.Lines.{has_newline, newline};
ghost use Rattle.requests.specs.Requests.{Call};
ghost use Rattle.batch_log.specs.Calls.{is_call, next_call, with_call};
ghost use Rattle.batch_log.specs.Faults.{is_io, is_memory};
ghost use Rattle.batch_log.specs.Feeds.{place_of};
ghost use Rattle.batch_log.specs.declared.line.LogLine.TheVariants.{Call as Said};
ghost use Rattle.batch_log.specs.Lines.{line_said};
ghost use Rattle.batch_log.specs.Log.{is_room};
ghost use Rattle.batch_log.specs.Places.{IsAt};

use crate::batch::is_room;
use crate::fault::LogFaultKind;
use crate::feed::LogFeed;
use crate::line::{LogLine, read_log_line};
use requests::{Procs, Request};
use std::alloc::Global;

impl LogFeed {
    /// The call that a line says, where there is room for it.
    fn read_call(&self, alloc: Global, procs: &Procs, line: &[u8]) -> Result<Request, LogFaultKind>
        ensures exact { Reads is_memory (λ call. call) result (next_call procs.now.procs (place_of self.now) line.now) }
        ensures said { IfOk result (λ call. (has_newline line.now ≡ false) ×
            (line_said procs.now.procs line.now ≡ Ok (Said call)) ×
            (is_room self.now.retries (length self.now.calls.items) self.now.total ≡ true)) }
        ensures tables { IfOk result (λ call. call.proc.tables ≡ procs.now.tables) }
        ensures no_device { IfErr result (λ kind. is_io kind ≡ false) }
    {
        if line.contains(&b'\n') {
            return Err(LogFaultKind::Shape);
        }
        match read_log_line(alloc, procs, line)? {
            LogLine::Call(call) if is_room(self.retries, self.calls.len(), self.total) => Ok(call),
            LogLine::Call(_) => Err(LogFaultKind::BatchTooLong),
            LogLine::Cut => Err(LogFaultKind::Shape),
        }
    }

    /// Adds a call, for which there is room, to the batch.
    fn add(&mut self, call: Request) -> Result<(), LogFaultKind>
        requires room { is_room self.old.retries (length self.old.calls.items) self.old.total ≡ true }
        ensures added { OnOk result (place_of self.new ≡ with_call (place_of self.old) call) }
        ensures err { OnErr result (place_of self.new ≡ place_of self.old) }
        ensures memory { IfErr result (λ kind. kind ≡ LogFaultKind.Memory) }
    {
        if self.calls.push(call).is_err() {
            return Err(LogFaultKind::Memory);
        }
        self.total += 1;
        self.lines = self.lines.saturating_add(1);
        Ok(())
    }

    /// Tells what `call` would answer for the line, and takes nothing.
    pub fn test(&self, alloc: Global, procs: &Procs, line: &[u8]) -> Result<(), LogFaultKind>
        ensures exact { Reads is_memory (λ _. tt) result
            (is_call (next_call procs.now.procs (place_of self.now) line.now)) }
        ensures no_device { IfErr result (λ kind. is_io kind ≡ false) }
    {
        let _call = self.read_call(alloc, procs, line)?;
        Ok(())
    }

    /// Takes a line, which comes without its newline, as the next call of the log. No line is begun. A fault is that
    /// of the line (31 to 35), which is 32 for a cut and for more than one line, or want of memory (37); nothing has
    /// changed then.
    pub fn call(&mut self, alloc: Global, procs: &Procs, line: &[u8]) -> Result<(), LogFaultKind>
        requires tables { AllByRecursion (λ c. c.proc.tables ≡ procs.now.tables) (place_of self.old).calls }
        requires whole { (place_of self.old).line ≡ [] }
        ensures tables { AllByRecursion (λ c. c.proc.tables ≡ procs.now.tables) (place_of self.new).calls }
        ensures taken { OnOk result ((call : Call) ×
            (next_call procs.now.procs (place_of self.old) line.now ≡ Ok call) ×
            (place_of self.new ≡ with_call (place_of self.old) call)) }
        ensures exact { Reads is_memory (λ _. tt) result
            (is_call (next_call procs.now.procs (place_of self.old) line.now)) }
        ensures place { (ended : List (List Call)) → (fed : List ℕ) → IsAt procs.now (place_of self.old) ended fed →
            OnOk result (IsAt procs.now (place_of self.new) ended (fed ++ (line.now ++ newline ∷ []))) }
        ensures err { OnErr result (place_of self.new ≡ place_of self.old) }
        ensures no_device { IfErr result (λ kind. is_io kind ≡ false) }
    {
        let call = self.read_call(alloc, procs, line)?;
        self.add(call)
    }
}
