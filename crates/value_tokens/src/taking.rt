//! Single tokens.

ghost use Rattle.std.specs.Prelude.{◌≡◌, ◌∷◌, IfSome, Some, option_and_then};
ghost use Rattle.json.specs.Token.{begin_array, string};
ghost use Rattle.value_tokens.specs.Documents.{WritesInteger};

use crate::integer::integer_of;
use json::{Reader, Token};

/// Takes the bracket that opens an array.
pub fn take_begin_array(reader: &mut Reader<'_>) -> Option<()>
    ensures { IfSome result (λ _. reader.old ≡ begin_array ∷ reader.new) }
{
    match reader.next()? {
        Token::BeginArray => Some(()),
        _ => None,
    }
}

/// Takes a text.
pub fn take_text<'a>(reader: &mut Reader<'a>) -> Option<&'a str>
    ensures { IfSome result (λ text. reader.old ≡ string text.now ∷ reader.new) }
{
    match reader.next()? {
        Token::String(text) => Some(text),
        _ => None,
    }
}

/// Takes a whole number in the signed 64-bit range.
pub fn take_integer(reader: &mut Reader<'_>) -> Option<i64>
    ensures { IfSome result (λ n. WritesInteger reader.old n reader.new) }
{
    match reader.next()? {
        Token::Number(text) => integer_of(text),
        _ => None,
    }
}
