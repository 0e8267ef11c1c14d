//! Keys of rows.

use std::marker::Model;

/// A row's key: a whole number from 0 to 2^63 - 1.
#[derive(Clone, Copy, Debug, PartialEq, Eq, PartialOrd, Ord, Hash)]
pub struct Key {
    number: u64,
}

impl Model for Key {
    ghost use Rattle.std.specs.Prelude.{ℕ, ◌<◌, ◌^◌};

    ghost Value = { ℕ };

    ghost view = { λ k. k.number };

    ghost invariant = { λ k. k.number < 2 ^ 63 };

    ghost inverse = { λ n. record { number = n } };
}

impl Key {
    ghost use Rattle.std.specs.Prelude.{◌≡◌, ◌<◌, ◌^◌};
    ghost use Rattle.values.specs.Keys.{key_of};

    /// The key of a number, `None` exactly where it is negative.
    pub fn new(number: i64) -> Option<Key>
        ensures { result ≡ key_of number }
    {
        if number < 0 {
            None
        } else {
            Some(Key {
                number: number as u64,
            })
        }
    }

    /// The least key.
    pub fn zero() -> Key
        ensures { result ≡ 0 }
    {
        Key { number: 0 }
    }

    /// The key's number.
    pub fn number(&self) -> u64
        ensures same { result ≡ self.now }
        ensures range { result < 2 ^ 63 }
    {
        self.number
    }
}
