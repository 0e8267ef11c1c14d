//! Values as words.

ghost use Rattle.std.specs.Prelude.{◌≡◌, ◌++◌, OnOk, string_bytes};
ghost use Rattle.row_text.specs.Texts.{value_text, values_text};

use itoa::Buffer;
use std::alloc::{AllocError, Global};
use values::Value;

// rule: report.values
/// Appends a value: an Int in decimal, a Text as `x` and the lower-case hexadecimal of its bytes.
#[tactic(auto, unfolding(crate::specs::Texts::value_text))]
pub fn push_value(alloc: Global, text: &mut String, value: &Value) -> Result<(), AllocError>
    ensures { OnOk result (string_bytes text.new ≡ string_bytes text.old ++ value_text value.now) }
{
    match value {
        Value::Int(number) => text.push_str(Buffer::new().format(*number)),
        Value::Text(words) => {
            let digits = hex::encode(alloc, words.as_str())?;
            write!(text, "x{digits}")
        }
    }
}

/// Appends values, each after a space.
pub fn push_values(alloc: Global, text: &mut String, values: &[Value]) -> Result<(), AllocError>
    ensures { OnOk result (string_bytes text.new ≡ string_bytes text.old ++ values_text values.now) }
{
    for value in values {
        text.push_str(" ")?;
        push_value(alloc, text, value)?;
    }
    Ok(())
}
