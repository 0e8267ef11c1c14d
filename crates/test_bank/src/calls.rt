//! Calls of the bank's procedures, as requests and as batches.

ghost use Rattle.std.specs.Prelude.{◌≡◌, IfOk};
ghost use Rattle.std.specs.List.{AllByRecursion};
ghost use Rattle.sequencer.specs.Batches.{items_of, AreOver};

use requests::{Procs, Request, RequestFault};
use sequencer::{Batch, BatchFault};
use std::alloc::{AllocError, AllocFailed, Global};
use thiserror::Error;
use values::Value;

/// A call: the procedure's name, and its values.
pub type Call<'a> = (&'a str, &'a [i64]);

/// Two payments of 30 from account 1 to account 2.
pub const TWO_PAYS: [Call<'static>; 2] = [("pay", &[1, 2, 30]), ("pay", &[1, 2, 30])];

/// Why calls are no batch of the bank.
#[derive(Debug, Drop, Error)]
pub enum CallsFault {
    /// A call is of no procedure, or its values are not the procedure's.
    #[error("a call is of no procedure of the bank, or its values are not the procedure's")]
    Request(RequestFault),
    /// The calls are too many.
    #[error("there are more calls than a batch may have")]
    Batch(BatchFault),
    /// The system refused memory.
    #[error("out of memory")]
    NoMemory,
}

impl From<RequestFault> for CallsFault {
    fn from(fault: RequestFault) -> CallsFault {
        CallsFault::Request(fault)
    }
}

impl From<BatchFault> for CallsFault {
    fn from(fault: BatchFault) -> CallsFault {
        CallsFault::Batch(fault)
    }
}

impl From<AllocError> for CallsFault {
    fn from(_: AllocError) -> CallsFault {
        CallsFault::NoMemory
    }
}

impl<T: Drop> From<AllocFailed<T>> for CallsFault {
    fn from(_: AllocFailed<T>) -> CallsFault {
        CallsFault::NoMemory
    }
}

/// The request of a call.
pub fn request(alloc: Global, procs: &Procs, call: Call<'_>) -> Result<Request, CallsFault>
    ensures { IfOk result (λ request. request.proc.tables ≡ procs.now.tables) }
{
    let mut values = Vec::new(alloc);
    for number in call.1 {
        values.push(Value::Int(*number))?;
    }
    let request = Request::new(procs, call.0, values)?;
    Ok(request)
}

/// The batch of requests over the tables of procedures.
pub fn batch_over(
    alloc: Global,
    _procs: &Procs,
    requests: Vec<Request>,
) -> Result<Batch, CallsFault>
    requires { AllByRecursion (λ request. request.proc.tables ≡ _procs.now.tables) requests.items }
    ensures { IfOk result (λ batch. AreOver _procs.now.tables (items_of batch)) }
{
    let batch = Batch::of(alloc, requests)?;
    Ok(batch)
}

/// The batch of calls of procedures.
pub fn batch(alloc: Global, procs: &Procs, calls: &[Call<'_>]) -> Result<Batch, CallsFault>
    ensures { IfOk result (λ batch. AreOver procs.now.tables (items_of batch)) }
{
    let mut requests = Vec::new(alloc);
    for call in calls {
        let request = request(alloc, procs, *call)?;
        requests.push(request)?;
    }
    batch_over(alloc, procs, requests)
}
