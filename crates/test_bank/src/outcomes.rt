//! What came of calls, as a text.

use meaning::Outcome;
use std::fmt::{Error, Write};
use values::Value;

/// Appends an outcome: `commit` with its values, or `abort` with its code, and a semicolon.
pub fn push_outcome(text: &mut String, outcome: &Outcome) -> Result<(), Error> {
    match outcome {
        Outcome::Commit(values) => {
            text.write_str("commit")?;
            for value in values {
                if let Value::Int(number) = value {
                    write!(text, " {number}")?;
                }
            }
        }
        Outcome::Abort(code) => write!(text, "abort {code}")?,
        Outcome::Stale => text.write_str("stale")?,
    }
    text.write_str(";")
}
