//! Whole numbers.

ghost use Rattle.std.specs.Prelude.{◌≡◌, ◌<◌, ◌==◌, IfSome, Some, false, length, option_and_then, slice_index, true};
ghost use Rattle.fast_float.specs.Text.{minus};
ghost use Rattle.serde_json.specs.Find.{as_i64};
ghost use Rattle.serde_json.specs.Read.{number_from};
ghost use Rattle.value_tokens.specs.Documents.{IsInteger};

use fast_float::Numeral;

fn unsigned_integer(numeral: &Numeral<'_>) -> Option<i64>
    ensures { IfSome result (λ n. option_and_then as_i64 (number_from false numeral.now) ≡ Some n) }
{
    numeral.to_i64(false)
}

/// The integer below 0 of a numeral after a minus.
fn negative_integer(numeral: &Numeral<'_>) -> Option<i64>
    ensures { IfSome result (λ n. option_and_then as_i64 (number_from true numeral.now) ≡ Some n) }
{
    numeral.to_i64(true).filter(|n| *n < 0)
}

fn has_minus(bytes: &[u8]) -> bool
    ensures value { result ≡ (slice_index bytes.now 0 == minus) }
    ensures some { result ≡ true → 0 < length bytes.now }
{
    !bytes.is_empty() && bytes[0] == b'-'
}

// rule: json.number
/// The integer that a number's text writes, `None` if the number isn't whole or isn't in the signed 64-bit range.
pub(crate) fn integer_of(text: &str) -> Option<i64>
    ensures { IfSome result (IsInteger text.now) }
{
    let bytes = text.as_bytes();
    if has_minus(bytes) {
        negative_integer(&Numeral::scan(&bytes[1..]))
    } else {
        unsigned_integer(&Numeral::scan(bytes))
    }
}
