//! Tokens of JSON, read one after another without a document of them: brackets, texts, whole numbers, lists of values.
//!
//! Proved, by each function: the tokens that it takes are those of the bracket, the text, the number or the array of
//! values that it gives, and the others are left. It gives `None` if the next tokens are others, or if allocation
//! fails; nothing is said of the tokens that are left then.
#![tactic(auto)]

mod integer;
mod listing;
mod taking;

pub use listing::take_values;
pub use taking::{take_begin_array, take_integer, take_text};
