//! From requests to entries: batches, the footing of each of their requests, and which requests a batch leaves to be
//! tried again.
//!
//! Proved, by `Batch::of`: numbered requests, refused exactly where there are more than 4,096. `prepare`: each request
//! with its declared footprint, or the abort of the first fault, or the footprint that reconnaissance finds on the
//! view. `found_request_holds_in_its_batch`: a request whose footprint was found is stale only if an earlier one of
//! its batch changed a row that it may read. `prepare_attempts`: the entries of carried requests, in front, and of the
//! calls of a batch.
//!
//! `Ending`: ends the attempts of a batch one by one, in order, each with its number, its client and the number of its
//! first attempt; a request is left exactly where it was stale and had fewer earlier attempts than allowed, with one
//! attempt more. `left`: the same for all at once; the attempts come back if allocation fails. Law:
//! `left_requests_were_stale`.
#![tactic(auto)]

mod attempts;
mod batch;
mod carrying;
mod ending;
mod laws;
mod preparing;

pub use attempts::{Attempts, Carried};
pub use batch::{Batch, BatchFault};
pub use batch_items::Item;
pub use carrying::left;
pub use ending::{Ending, Tried};
pub use interp::{Entry, Footing, RowView};
pub use laws::{found_request_holds_in_its_batch, left_requests_were_stale};
pub use preparing::{prepare, prepare_attempts};
