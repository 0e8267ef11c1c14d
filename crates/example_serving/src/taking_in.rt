//! What procedures make of drawn calls.

ghost use Rattle.std.specs.Prelude.{◌≡◌, IfOk};
ghost use Rattle.sequencer.specs.Batches.{AreOver};
ghost use Rattle.example_serving.specs.Calls.{request_of, requests_of, asked_of};

use crate::call::{CallItem, ClientCall};
use intake::Item;
use requests::{Procs, Request, RequestFault};
use std::alloc::Global;
use values::NoMemory;

/// Who asked, and why the call is no request, if it is none.
#[derive(Drop)]
pub struct Asked {
    pub client: u8,
    pub number: u64,
    pub refused: Option<RequestFault>,
}

/// The request that procedures make of a call, or why it is none.
fn request_of(procs: &Procs, call: ClientCall) -> Result<Result<Request, RequestFault>, NoMemory>
    ensures made { IfOk result (λ made. made ≡ request_of procs.now call) }
    ensures over { IfOk result (λ made. IfOk made (λ request. request.proc.tables ≡ procs.now.tables)) }
{
    let ClientCall { name, args } = call;
    match Request::new(procs, name.as_str(), args) {
        Ok(request) => Ok(Ok(request)),
        Err(RequestFault::UnknownProc) => Ok(Err(RequestFault::UnknownProc)),
        Err(RequestFault::Args) => Ok(Err(RequestFault::Args)),
        Err(RequestFault::NoMemory) => Err(NoMemory),
    }
}

/// The requests that procedures make of drawn calls, and who asked.
pub fn take_in(
    alloc: Global,
    procs: &Procs,
    items: Vec<CallItem>,
) -> Result<(Vec<Item<Request>>, Vec<Asked>), NoMemory>
    ensures requests { IfOk result (λ taken. taken.0.items ≡ requests_of procs.now items.items) }
    ensures over { IfOk result (λ taken. AreOver procs.now.tables taken.0.items) }
    ensures asked { IfOk result (λ taken. taken.1.items ≡ asked_of procs.now items.items) }
{
    let mut requests = Vec::new(alloc);
    let mut asked = Vec::new(alloc);
    for item in items {
        let Item {
            client,
            number,
            request,
        } = item;
        let refused = match request_of(procs, request)? {
            Ok(request) => {
                requests.push(Item {
                    client,
                    number,
                    request,
                })?;
                None
            }
            Err(fault) => Some(fault),
        };
        asked.push(Asked {
            client,
            number,
            refused,
        })?;
    }
    Ok((requests, asked))
}
