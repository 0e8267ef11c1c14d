//! Values and their types.

ghost use Rattle.std.specs.Prelude.{◌≡◌};
ghost use Rattle.values.specs.Rows.{type_of};

use crate::text::Text;
use std::alloc::AllocError;

/// The type of a column, of a parameter or of a variable.
#[derive(Clone, Copy, Debug, PartialEq, Eq)]
pub enum ColType {
    /// A whole number in the signed 64-bit range.
    Int,
    /// A text of at most 64 bytes.
    Text,
}

/// A value of a column, of a parameter, of a variable or of a reply.
#[derive(Debug, Drop, PartialEq, Eq)]
pub enum Value {
    Int(i64),
    Text(Text),
}

impl Clone for Value {
    ghost is_clone = { λ value copy. copy ≡ value };

    fn clone(&self) -> Result<Value, AllocError> {
        match self {
            Value::Int(number) => Ok(Value::Int(*number)),
            Value::Text(text) => Ok(Value::Text(text.clone()?)),
        }
    }
}

impl Value {
    /// The value's type.
    pub fn kind(&self) -> ColType
        ensures { result ≡ type_of self.now }
    {
        match self {
            Value::Int(_) => ColType::Int,
            Value::Text(_) => ColType::Text,
        }
    }
}
