//! The numbers that a loop goes through.

ghost use Rattle.std.specs.Prelude.{◌≡◌, pos};
ghost use Rattle.interp.specs.Numbers.{first_number, number_after};

use values::Key;

/// The first of the numbers from one to another, if there is one.
pub(crate) fn first_number(low: i64, high: i64) -> Option<i64>
    ensures { result ≡ first_number low high }
{
    if low <= high { Some(low) } else { None }
}

/// The next number after one that is not above the last, if there is one.
pub(crate) fn number_after(number: i64, last: i64) -> Option<i64>
    ensures { result ≡ number_after number last }
{
    if number < last {
        Some(number + 1)
    } else {
        None
    }
}

/// A key's number.
pub(crate) fn number_of_key(key: Key) -> i64
    ensures { result ≡ pos key }
{
    key.number() as i64
}
