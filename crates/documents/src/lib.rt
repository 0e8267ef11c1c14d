//! One level of a JSON document at a time, for readers that name a document's first fault.
//!
//! Proved: the shapes of one level of a document are exact, by the contract of each function.
#![tactic(auto)]

mod shape;

pub use shape::{elements, five, four, pair, six, text_number_list, triple, versioned_list};
