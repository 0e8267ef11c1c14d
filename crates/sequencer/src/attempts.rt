//! The attempts of a batch: requests that were stale before, and after them the batch's own calls.

ghost use Rattle.std.specs.Prelude.{◌≡◌, ◌<◌, Some, List, length, slice_get};
ghost use Rattle.catalogue.specs.Shapes.{TableShape};
ghost use Rattle.sequencer.specs.Batches.{items_of, AreOver};
ghost use Rattle.sequencer.specs.Attempts.{carried_of, batch_of, attempts_of, attempts_in, requests_in, requests_of, AreCarriedOver, AreRequestsOver};

use crate::batch::Batch;
use batch_items::Item;
use requests::Request;

/// A request that is carried to the next batch: its last attempt was stale.
#[derive(Drop)]
pub struct Carried {
    /// The client, as of the item that the request came in.
    pub client: u8,
    /// The request's number among those that its client submitted.
    pub number: u64,
    pub request: Request,
    /// The number of the transaction of its first attempt.
    pub first: u64,
    /// How many attempts were made so far.
    pub tries: u8,
}

/// The attempts of a batch: the carried requests, and after them the batch's own calls.
#[derive(Drop)]
pub struct Attempts {
    pub(crate) carried: Vec<Carried>,
    pub(crate) batch: Batch,
}

impl Attempts {
    /// The carried requests, and after them those of the batch. It takes no memory.
    pub fn of(carried: Vec<Carried>, batch: Batch) -> Attempts
        ensures carried { carried_of result ≡ carried.items }
        ensures batch { batch_of result ≡ batch }
        ensures attempts { attempts_in result ≡ attempts_of carried.items (items_of batch) }
        // What holds of the tables of the carried ones and of the batch's own holds of all.
        ensures over { (tables : List TableShape) → AreCarriedOver tables carried.items →
            AreOver tables (items_of batch) → AreRequestsOver tables (requests_in result) }
    {
        Attempts { carried, batch }
    }

    /// The carried requests, in order.
    pub fn carried(&self) -> &[Carried]
        ensures { result.now ≡ carried_of self.now }
    {
        self.carried.as_slice()
    }

    /// The batch whose calls come after the carried requests.
    pub fn batch(&self) -> &Batch
        ensures { result.now ≡ batch_of self.now }
    {
        &self.batch
    }

    /// How many attempts there are.
    pub fn len(&self) -> usize
        ensures { result ≡ length (attempts_in self.now) }
    {
        self.carried.len() + self.batch.items().len()
    }

    /// The carried requests, and the batch's own. It takes no memory.
    pub(crate) fn into_parts(self) -> (Vec<Carried>, Vec<Item<Request>>)
        ensures carried { result.0.items ≡ carried_of self }
        ensures own { result.1.items ≡ items_of (batch_of self) }
    {
        (self.carried, self.batch.into_items())
    }

    /// The request that is tried at that place, counted from 0.
    pub fn request(&self, place: usize) -> &Request
        requires { place < length (attempts_in self.now) }
        ensures { slice_get (requests_in self.now) place ≡ Some result.now }
    {
        request_at(&self.carried, self.batch.items(), place)
    }
}

/// The request at that place among carried ones and, after them, a batch's own.
pub(crate) fn request_at<'a>(
    carried: &'a [Carried],
    items: &'a [Item<Request>],
    place: usize,
) -> &'a Request
    requires { place < length (attempts_of carried.now items.now) }
    ensures { slice_get (requests_of carried.now items.now) place ≡ Some result.now }
{
    match carried.get(place) {
        Some(again) => &again.request,
        None => &items[place - carried.len()].request,
    }
}
