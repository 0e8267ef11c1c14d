//! Calls that the program makes, and batches of them.

ghost use Rattle.std.specs.Prelude.{◌≡◌, IfOk};
ghost use Rattle.std.specs.List.{AllByRecursion};
ghost use Rattle.sequencer.specs.Batches.{items_of, AreOver};

use calvin::{Batch, BatchFault};
use requests::{Procs, Request, RequestFault};
use std::alloc::{AllocError, AllocFailed, Global};
use values::Value;

/// A call: a procedure by its name, and values.
pub(crate) type Call<'a> = (&'a str, &'a [i64]);

/// Why calls are no batch.
#[derive(Drop)]
pub(crate) enum CallsFault {
    /// A call is of no procedure, or its values are not the procedure's.
    Request,
    /// There are more than 4,096.
    TooLong,
    NoMemory,
}

impl From<RequestFault> for CallsFault {
    fn from(fault: RequestFault) -> CallsFault {
        match fault {
            RequestFault::UnknownProc | RequestFault::Args => CallsFault::Request,
            RequestFault::NoMemory => CallsFault::NoMemory,
        }
    }
}

impl From<BatchFault> for CallsFault {
    fn from(fault: BatchFault) -> CallsFault {
        match fault {
            BatchFault::TooLong => CallsFault::TooLong,
            BatchFault::NoMemory => CallsFault::NoMemory,
        }
    }
}

impl From<AllocError> for CallsFault {
    fn from(_: AllocError) -> CallsFault {
        CallsFault::NoMemory
    }
}

impl<T: Drop> From<AllocFailed<T>> for CallsFault {
    fn from(_: AllocFailed<T>) -> CallsFault {
        CallsFault::NoMemory
    }
}

/// The request of a call.
fn request(alloc: Global, procs: &Procs, call: Call<'_>) -> Result<Request, CallsFault>
    ensures { IfOk result (λ request. request.proc.tables ≡ procs.now.tables) }
{
    let mut values = Vec::new(alloc);
    for number in call.1 {
        values.push(Value::Int(*number))?;
    }
    let request = Request::new(procs, call.0, values)?;
    Ok(request)
}

/// The batch of requests over the tables of procedures.
fn batch_over(alloc: Global, _procs: &Procs, requests: Vec<Request>) -> Result<Batch, CallsFault>
    requires { AllByRecursion (λ request. request.proc.tables ≡ _procs.now.tables) requests.items }
    ensures { IfOk result (λ batch. AreOver _procs.now.tables (items_of batch)) }
{
    let batch = Batch::of(alloc, requests)?;
    Ok(batch)
}

/// The batch of calls of procedures. It is over their tables, which an engine asks of a batch that it executes.
pub(crate) fn batch_of(
    alloc: Global,
    procs: &Procs,
    calls: &[Call<'_>],
) -> Result<Batch, CallsFault>
    ensures { IfOk result (λ batch. AreOver procs.now.tables (items_of batch)) }
{
    let mut requests = Vec::new(alloc);
    for call in calls {
        let request = request(alloc, procs, *call)?;
        requests.push(request)?;
    }
    batch_over(alloc, procs, requests)
}
