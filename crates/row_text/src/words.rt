//! What is in a row line after the table's name, written from its last byte on.

ghost use Rattle.std.specs.Prelude.{◌≡◌, ◌+◌, ◌≤◌, ◌<◌, ◌++◌, IfSome, codes, drop};
ghost use Rattle.std.specs.Fmt.{decimal, signed_decimal};
ghost use Rattle.row_text.specs.Feeding.{row_words};
ghost use Rattle.row_text.specs.Texts.{line_end, value_text, values_text};

use itoa::write_digits;
use values::{Key, Value};

/// Room in bytes for the lines of 16 rows, 128 for each. A row of 16 columns has room alone, whatever its numbers are.
pub(crate) const ROOM: usize = 2048;

/// The most bytes that a number takes: a space, its sign and 20 digits.
pub(crate) const WORD: usize = 22;

/// Writes a number after a space, so that it ends at `end`. Answers where the space is.
fn put_key(room: &mut [u8; ROOM], end: usize, number: u64) -> usize
    requires { (22 ≤ end) × (end ≤ 2048) }
    ensures within { result < end }
    ensures written { drop result room.new ≡ (codes " " ++ decimal number) ++ drop end room.old }
{
    let start = write_digits(number, room, end);
    room[start - 1] = b' ';
    start - 1
}

/// Writes a number after its sign. Answers where it starts.
fn put_signed(room: &mut [u8; ROOM], end: usize, number: i64) -> usize
    requires { (22 ≤ end) × (end ≤ 2048) }
    ensures within { (0 < result) × (result ≤ end) }
    ensures written { drop result room.new ≡ signed_decimal number ++ drop end room.old }
{
    let start = write_digits(number.unsigned_abs(), room, end);
    if number >= 0 {
        return start;
    }
    room[start - 1] = b'-';
    start - 1
}

/// Writes a number after a space and its sign. Answers where the space is.
fn put_number(room: &mut [u8; ROOM], end: usize, number: i64) -> usize
    requires { (22 ≤ end) × (end ≤ 2048) }
    ensures within { result < end }
    ensures written { drop result room.new ≡ (codes " " ++ signed_decimal number) ++ drop end room.old }
{
    let start = put_signed(room, end, number);
    room[start - 1] = b' ';
    start - 1
}

/// Writes a value after a space, so that it ends at `end`. Answers where the space is, or
/// `None` for a text.
#[tactic(auto, unfolding(crate::specs::Texts::value_text))]
fn put_value(room: &mut [u8; ROOM], end: usize, value: &Value) -> Option<usize>
    requires { (22 ≤ end) × (end ≤ 2048) }
    ensures { IfSome result (λ start. (start < end) ×
        (drop start room.new ≡ (codes " " ++ value_text value.now) ++ drop end room.old)) }
{
    match value {
        Value::Int(number) => Some(put_number(room, end, *number)),
        Value::Text(_) => None,
    }
}

/// Writes values, each after a space, and a newline, so that it ends at `end`. Answers where the first space is, or
/// `None` where a value is a text or there is no room.
fn put_values(room: &mut [u8; ROOM], end: usize, values: &[Value]) -> Option<usize>
    requires { end ≤ 2048 }
    ensures { IfSome result (λ start. (start < 2048) ×
        (drop start room.new ≡ values_text values.now ++ (line_end ++ drop end room.old))) }
{
    if end == 0 {
        return None;
    }
    let mut start = end - 1;
    room[start] = b'\n';
    let mut left = values.len();
    while left > 0 {
        if start < WORD {
            return None;
        }
        start = put_value(room, start, &values[left - 1])?;
        left -= 1;
    }
    Some(start)
}

/// Writes the words of a row after the table's name, so that they end at `end`. Answers where they start, or `None`
/// where a value is a text or there is no room.
pub(crate) fn put_words(
    room: &mut [u8; ROOM],
    end: usize,
    key: Key,
    values: &[Value],
) -> Option<usize>
    requires { end ≤ 2048 }
    ensures { IfSome result (λ start. (start ≤ 2048) ×
        (drop start room.new ≡ row_words key values.now ++ drop end room.old)) }
{
    let end = put_values(room, end, values)?;
    if end < WORD {
        return None;
    }
    Some(put_key(room, end, key.number()))
}
