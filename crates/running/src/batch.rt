//! Running one batch of a log, and reporting it.

ghost use Rattle.std.specs.Prelude.{◌≡◌, ◌||◌, IfOk, IfErr, OnOk, false};
ghost use Rattle.devices.specs.Devices.{AppendsFront};
ghost use Rattle.sequencer.specs.Batches.{items_of, AreOver};
ghost use Rattle.retries.specs.Standings.{attempts_at};
ghost use Rattle.engine.specs.Batches.{next_attempts};
ghost use Rattle.engine.specs.Engines.{tables_of, is_busy};
ghost use Rattle.engine.specs.Executions.{IsRefusal, IsExecutionOf, KeepsSetting};
ghost use Rattle.running.specs.Batches.{due_text, IsDue, IsReported, KeepsDigest};
ghost use Rattle.running.specs.Executors.{Executes, HasAnswered};
ghost use Rattle.running.specs.Hashers.{form_of};
ghost use Rattle.running.specs.Standings.{standing_of};
ghost use Rattle.running.specs.Stops.{ends_in_io, is_of_device, IfOfThread, IsHeld, IsMachineFault, IsRefusedBy};

use crate::run_fault::RunFault;
use crate::transcript::Transcript;
use batch_log::{LogFaultKind, Sink};
use engine::{BatchDone, BatchEngine, ExecFault};
use requests::Request;
use sequencer::{Batch, BatchFault};
use std::alloc::Global;

/// The fault of a run whose batch the engine holds.
fn exec_fault(fault: &ExecFault, line: u64) -> RunFault
    requires { IsHeld fault.now }
    ensures names { IsRefusedBy line fault.now result }
    ensures stops { IsMachineFault line result }
    ensures works { is_of_device result ≡ false }
{
    match fault {
        ExecFault::Busy(_) | ExecFault::LogFull(_) => unreachable!(),
        ExecFault::Spawn => RunFault::Spawn { line },
        ExecFault::NoMemory => RunFault::at(LogFaultKind::Memory, line),
    }
}

/// Executes a batch.
fn execute<E: BatchEngine, X: Fn(&mut E, Batch) -> Result<BatchDone, ExecFault>>(
    executor: &X,
    engine: &mut E,
    batch: Batch,
) -> Result<BatchDone, ExecFault>
    requires executes { Executes E.parts X.Fn executor.now }
    requires over { AreOver (tables_of (E.parts engine.old)) (items_of batch) }
    ensures same { KeepsSetting (E.parts engine.old) (E.parts engine.new) }
    ensures done { IfOk result
        (IsExecutionOf (E.parts engine.old) (E.parts engine.new) (next_attempts (E.parts engine.old) batch)) }
    ensures idle { OnOk result (is_busy (E.parts engine.new) ≡ false) }
    ensures refused { IfErr result (IsRefusal (E.parts engine.old) (E.parts engine.new) batch) }
    ensures answered { IfErr result (HasAnswered X.Fn executor.now) }
{
    executor(engine, batch)
}

/// Executes the requests of a batch, after those that are carried to it, and writes its report. The answer is the
/// batch with its replies, which are reported. Each fault is a failed write (36), a failed allocation (37) or a refused
/// thread (38), at this line, the last one read.
///
/// The digest of rows that the transcript keeps, if it keeps one, must be that of the engine's rows, and however the
/// batch ends, it is again.
pub fn run_batch<E: BatchEngine, X: Fn(&mut E, Batch) -> Result<BatchDone, ExecFault>, K: Sink>(
    alloc: Global,
    executor: &X,
    engine: &mut E,
    requests: Vec<Request>,
    transcript: &mut Transcript,
    sink: &mut K,
    line: u64,
) -> Result<BatchDone, RunFault>
    requires executes { Executes E.parts X.Fn executor.now }
    requires due { IsDue (E.parts engine.old) transcript.old requests.items }
    ensures same { KeepsSetting (E.parts engine.old) (E.parts engine.new) }
    ensures reported { IfOk result (λ done.
        IsReported (E.parts engine.old) (E.parts engine.new)
        transcript.old transcript.new (K.taken sink.old) (K.taken sink.new) requests.items
        × IsExecutionOf (E.parts engine.old) (E.parts engine.new)
        (attempts_at (standing_of (E.parts engine.old)) requests.items) done) }
    ensures front { AppendsFront (K.taken sink.old) (K.taken sink.new)
        (due_text (E.parts engine.old) transcript.old requests.items) }
    ensures stops { IfErr result (λ e.
        IsMachineFault line e × IfOfThread e (HasAnswered X.Fn executor.now ExecFault.Spawn)) }
    ensures fails { K.broken sink.new ≡ (K.broken sink.old || ends_in_io result) }
    ensures kept { KeepsDigest (E.parts engine.new) transcript.new × (form_of transcript.new ≡ form_of transcript.old) }
{
    let batch = match Batch::of(alloc, requests) {
        Ok(batch) => batch,
        Err(BatchFault::TooLong) => unreachable!(),
        Err(BatchFault::NoMemory) => return Err(RunFault::at(LogFaultKind::Memory, line)),
    };
    let done = match execute(executor, engine, batch) {
        Ok(done) => done,
        Err(fault) => return Err(exec_fault(&fault, line)),
    };
    match transcript.write_batch(alloc, sink, engine, &done.replies) {
        Ok(()) => Ok(done),
        Err(kind) => Err(RunFault::at(kind, line)),
    }
}
