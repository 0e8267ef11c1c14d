//! Batches of requests.

ghost use Rattle.std.specs.Prelude.{◌≡◌, ◌<◌, ◌≤◌, ◌↔◌, List, IfOk, Err, length};
ghost use Rattle.std.specs.List.{AllByRecursion};
ghost use Rattle.catalogue.specs.Shapes.{TableShape};
ghost use Rattle.sequencer.specs.Batches.{items_from, AreOver};

use batch_items::{Batched, Item};
use requests::Request;
use std::alloc::Global;
use thiserror::Error;
use values::NoMemory;

/// The most requests that a batch has.
const MOST_REQUESTS: usize = 4096;

/// Why requests are no batch.
#[derive(Clone, Copy, Debug, PartialEq, Eq, Error)]
pub enum BatchFault {
    /// There are more than 4,096 requests.
    #[error("more than 4096 requests")]
    TooLong,
    /// The system refused memory.
    #[error("out of memory")]
    NoMemory,
}

/// Requests as items, of client 0 and with numbers from 0.
fn numbered(alloc: Global, requests: Vec<Request>) -> Result<Vec<Item<Request>>, NoMemory>
    requires { length requests.items ≤ 4096 }
    ensures { IfOk result (λ items. items.items ≡ items_from 0 requests.items) }
{
    let mut items = Vec::with_capacity(alloc, requests.len())?;
    let mut number = 0;
    for request in requests {
        items.push(Item {
            client: 0,
            number,
            request,
        })?;
        number += 1;
    }
    Ok(items)
}

/// Requests that are run together, in their order: at most 4,096, each with its client and its number. An intake of
/// requests gives what is drawn as such batches. Of requests that came with no client the client is 0.
#[derive(Drop)]
pub struct Batch {
    items: Vec<Item<Request>>,
}

impl Batch {
    ghost use Rattle.sequencer.specs.Batches.{items_of};

    /// The batch of these requests, of client 0 and with numbers from 0.
    pub fn of(alloc: Global, requests: Vec<Request>) -> Result<Batch, BatchFault>
        ensures items { IfOk result (λ batch. items_of batch ≡ items_from 0 requests.items) }
        // What holds of each request's tables holds of each item's.
        ensures over { IfOk result (λ batch. (tables : List TableShape) →
            AllByRecursion (λ request. request.proc.tables ≡ tables) requests.items → AreOver tables (items_of batch)) }
        ensures too_long { (result ≡ Err BatchFault.TooLong) ↔ (4096 < length requests.items) }
    {
        if requests.len() > MOST_REQUESTS {
            return Err(BatchFault::TooLong);
        }
        match numbered(alloc, requests) {
            Ok(items) => Ok(Batch { items }),
            Err(NoMemory) => Err(BatchFault::NoMemory),
        }
    }

    /// The requests in order, each with its client and its number.
    pub fn items(&self) -> &[Item<Request>]
        ensures { result.now ≡ items_of self.now }
    {
        self.items.as_slice()
    }

    pub(crate) fn into_items(self) -> Vec<Item<Request>>
        ensures { result.items ≡ items_of self }
    {
        self.items
    }
}

impl Batched<Request> for Batch {
    ghost use Rattle.std.specs.Prelude.{◌≡◌};
    ghost use Rattle.sequencer.specs.Batches.{items_of};

    ghost items_of = { items_of };

    fn of_items(items: Vec<Item<Request>>) -> Batch
        ensures { items_of result ≡ items.items }
    {
        Batch { items }
    }
}
