//! Calls.

use intake::Item;
use values::Value;

/// A call as a client sends it: a procedure by its name, and values.
#[derive(Drop)]
pub struct ClientCall {
    pub name: String,
    pub args: Vec<Value>,
}

/// A drawn call.
pub type CallItem = Item<ClientCall>;
