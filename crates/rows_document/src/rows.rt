//! Rows, as they are in a rows document.

ghost use Rattle.std.specs.Prelude.{◌≡◌, ◌<◌, ◌^◌, ◌++◌, OnOk, codes};
ghost use Rattle.std.specs.List.{AllByRecursion, flat_map, join_by};
ghost use Rattle.rows_document.specs.Listing.{headed_row};
ghost use Rattle.rows_document.specs.Said.{IsHeld};
ghost use Rattle.rows_document.specs.Texts.{value_document};

use crate::escaped::push_json_text;
use itoa::Buffer;
use std::alloc::AllocError;
use values::{Key, Row, Value};

/// Appends a value: an Int in decimal, a Text as a JSON text.
#[tactic(auto, unfolding(crate::specs::Texts::value_document))]
fn push_value(text: &mut Vec<u8>, value: &Value) -> Result<(), AllocError>
    ensures text { OnOk result (text.new.items ≡ text.old.items ++ value_document value.now) }
    ensures held { OnOk result (IsHeld value.now) }
{
    match value {
        Value::Int(number) => {
            text.extend_from_slice(Buffer::new().format(*number).as_bytes())?;
            Ok(())
        }
        Value::Text(words) => push_json_text(text, words.as_str()),
    }
}

/// Appends values, each after a comma.
fn push_more_values(text: &mut Vec<u8>, values: &[Value]) -> Result<(), AllocError>
    ensures text { OnOk result (text.new.items
        ≡ text.old.items ++ flat_map (λ value. codes "," ++ value_document value) values.now) }
    ensures held { OnOk result (AllByRecursion IsHeld values.now) }
{
    for value in values {
        text.push(b',')?;
        push_value(text, value)?;
    }
    Ok(())
}

/// Appends values with a comma between each and the next.
fn push_values(text: &mut Vec<u8>, values: &[Value]) -> Result<(), AllocError>
    ensures text { OnOk result (text.new.items ≡ text.old.items ++ join_by value_document (codes ",") values.now) }
    ensures held { OnOk result (AllByRecursion IsHeld values.now) }
{
    match values {
        [] => Ok(()),
        [first, others @ ..] => {
            push_value(text, first)?;
            push_more_values(text, others)
        }
    }
}

/// Appends a row at the start of a line, from what is before its key.
pub(crate) fn push_row(
    text: &mut Vec<u8>,
    head: &[u8],
    key: Key,
    row: &Row,
) -> Result<(), AllocError>
    ensures text { OnOk result (text.new.items ≡ text.old.items ++ headed_row head.now key row.now) }
    ensures held { OnOk result ((key < 2 ^ 63) × AllByRecursion IsHeld row.now) }
{
    text.push(b'\n')?;
    text.extend_from_slice(head)?;
    text.extend_from_slice(Buffer::new().format(key.number()).as_bytes())?;
    text.extend_from_slice(b",[")?;
    push_values(text, row.values())?;
    text.extend_from_slice(b"]]")?;
    Ok(())
}
