//! Lists of values.

ghost use Rattle.std.specs.Prelude.{◌≡◌, ◌∷◌, IfSome, Some, option_and_then};
ghost use Rattle.json.specs.Reads.{token_of};
ghost use Rattle.value_tokens.specs.Documents.{IsValueArray};
ghost use Rattle.value_tokens.specs.ValueLists.{IsValueToken, ListsValues};

use crate::integer::integer_of;
use crate::taking::take_begin_array;
use json::{Reader, Token};
use std::alloc::Global;
use values::{Text, Value};

/// The value that a token says by itself. `None` where it says none or allocation fails.
fn token_value(alloc: Global, token: Token<'_>) -> Option<Value>
    ensures { IfSome result (IsValueToken (token_of token.entry)) }
{
    match token {
        Token::Number(text) => Some(Value::Int(integer_of(text)?)),
        Token::String(text) if text.len() <= 64 => {
            Some(Value::Text(Text::new(alloc, text).ok()?))
        }
        _ => None,
    }
}

/// The values up to the bracket that closes their list, which is taken, too. `None` where a token says none or
/// allocation fails.
fn listed_values(alloc: Global, reader: &mut Reader<'_>, expected: usize) -> Option<Vec<Value>>
    ensures { IfSome result (λ values. ListsValues reader.old values.items reader.new) }
{
    let mut values = Vec::with_capacity(alloc, expected).ok()?;
    'values: while let Some(token) = reader.next() {
        if let Token::EndArray = token {
            return Some(values);
        }
        values.push(token_value(alloc, token)?).ok()?;
    }
    None
}

// rule: row.values
/// Takes an array of whole numbers in the signed 64-bit range and of texts of at most 64 bytes, and gives these values.
/// Room is made for as many as are expected; it grows where there are more.
pub fn take_values(alloc: Global, reader: &mut Reader<'_>, expected: usize) -> Option<Vec<Value>>
    ensures { IfSome result (λ values. IsValueArray reader.old values.items reader.new) }
{
    take_begin_array(reader)?;
    listed_values(alloc, reader, expected)
}
