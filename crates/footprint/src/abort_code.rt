//! Why a transaction aborts.

ghost use Rattle.std.specs.Prelude.{◌≡◌};
ghost use Rattle.footprint.specs.AbortCodes.{number_of};

use std::fmt;

/// Why a transaction aborts. Each code has a number, which the report prints.
#[derive(Clone, Copy, Debug, PartialEq, Eq)]
pub enum AbortCode {
    /// 1: a `get`, `put` or `delete` of a row that is not there.
    NoRow,
    /// 2: an `insert` of a row that is there.
    DuplicateRow,
    /// 3: a result outside the signed 64-bit range.
    Overflow,
    /// 4: a division or a remainder by 0.
    DivisionByZero,
    /// 5: a negative key.
    BadKey,
    /// 6: a partition number outside 0 to P - 1, of a table of P partitions.
    BadPart,
    /// 7: a reply of more than 64 values, or a declared footprint of more than 65,536 resources.
    TooLong,
    /// 8: step 10,001.
    Budget,
    /// 9: an access outside the declared footprint.
    Uncovered,
    /// The procedure's own, 100 to 65535.
    Own(u16),
}

impl AbortCode {
    /// The code's number.
    pub fn number(&self) -> u16
        ensures { result ≡ number_of self.now }
    {
        match self {
            AbortCode::NoRow => 1,
            AbortCode::DuplicateRow => 2,
            AbortCode::Overflow => 3,
            AbortCode::DivisionByZero => 4,
            AbortCode::BadKey => 5,
            AbortCode::BadPart => 6,
            AbortCode::TooLong => 7,
            AbortCode::Budget => 8,
            AbortCode::Uncovered => 9,
            AbortCode::Own(number) => *number,
        }
    }
}

impl fmt::Display for AbortCode {
    fn fmt<W: fmt::Write>(&self, f: &mut fmt::Formatter<W>) -> fmt::Result {
        let number = self.number();
        write!(f, "{number}")
    }
}
