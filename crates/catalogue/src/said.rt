//! Values in JSON documents.

ghost use Rattle.std.specs.Prelude.{◌≡◌, IfOk, map, option_map};
ghost use Rattle.serde_json.specs.View.{view};
ghost use Rattle.catalogue.specs.Said.{text_said, value_said, values_said};

use serde_json::Value as Json;
use std::alloc::Global;
use values::{NoMemory, Text, Value};

fn read_text(alloc: Global, text: &str) -> Result<Option<Value>, NoMemory>
    ensures { IfOk result (λ value. value ≡ text_said text.now) }
{
    if text.len() > 64 {
        return Ok(None);
    }
    Ok(Some(Value::Text(Text::new(alloc, text)?)))
}

// rule: json.number
/// The value that a document says: a number in the signed 64-bit range an Int, a text of at most 64 bytes a Text.
/// `None` of any other document.
pub fn read_value(alloc: Global, document: &Json) -> Result<Option<Value>, NoMemory>
    ensures { IfOk result (λ value. value ≡ value_said (view document.now)) }
{
    match document {
        Json::Number(number) => match number.as_i64() {
            Some(number) => Ok(Some(Value::Int(number))),
            None => Ok(None),
        },
        Json::String(text) => read_text(alloc, text),
        _ => Ok(None),
    }
}

// rule: row.values
/// The values that documents say, in order; `None` where one says no value.
pub fn read_values(alloc: Global, documents: &[Json]) -> Result<Option<Vec<Value>>, NoMemory>
    ensures { IfOk result (λ values. option_map (λ v. v.items) values ≡ values_said (map view documents.now)) }
{
    let mut values = Vec::with_capacity(alloc, documents.len())?;
    for document in documents {
        match read_value(alloc, document)? {
            Some(value) => values.push(value)?,
            None => return Ok(None),
        }
    }
    Ok(Some(values))
}
