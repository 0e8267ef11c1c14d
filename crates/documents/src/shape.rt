//! Arrays, and arrays of a given length.

ghost use Rattle.std.specs.Prelude.{◌≡◌, option_map, option_and_then, map};
ghost use Rattle.serde_json.specs.View.{view};
ghost use Rattle.documents.specs.Json.{elements, two, three, four, five, six, text_number_list, versioned_list};

use serde_json::Value;

/// The elements of an array, `None` of any other document.
#[tactic(auto, using(crate::proofs::Json::array_elements))]
pub fn elements(value: &Value) -> Option<&[Value]>
    ensures { option_map (λ s. map view s.now) result ≡ elements (view value.now) }
{
    match value {
        Value::Array(items) => Some(items.as_slice()),
        _ => None,
    }
}

/// The elements of an array of two.
pub fn pair(value: &Value) -> Option<(&Value, &Value)>
    ensures { option_map (λ p. (view p.0.now, view p.1.now)) result
        ≡ option_and_then two (elements (view value.now)) }
{
    match elements(value)? {
        [first, second] => Some((first, second)),
        _ => None,
    }
}

/// The elements of an array of three.
pub fn triple(value: &Value) -> Option<(&Value, &Value, &Value)>
    ensures { option_map (λ p. (view p.0.now, view p.1.now, view p.2.now)) result
        ≡ option_and_then three (elements (view value.now)) }
{
    match elements(value)? {
        [first, second, third] => Some((first, second, third)),
        _ => None,
    }
}

/// The elements of an array of four.
pub fn four(value: &Value) -> Option<(&Value, &Value, &Value, &Value)>
    ensures { option_map (λ p. (view p.0.now, view p.1.now, view p.2.now, view p.3.now)) result
        ≡ option_and_then four (elements (view value.now)) }
{
    match elements(value)? {
        [first, second, third, fourth] => Some((first, second, third, fourth)),
        _ => None,
    }
}

/// The elements of an array of five.
pub fn five(value: &Value) -> Option<(&Value, &Value, &Value, &Value, &Value)>
    ensures { option_map (λ p. (view p.0.now, view p.1.now, view p.2.now, view p.3.now, view p.4.now)) result
        ≡ option_and_then five (elements (view value.now)) }
{
    match elements(value)? {
        [first, second, third, fourth, fifth] => Some((first, second, third, fourth, fifth)),
        _ => None,
    }
}

/// The elements of an array of six.
pub fn six(value: &Value) -> Option<(&Value, &Value, &Value, &Value, &Value, &Value)>
    ensures { option_map (λ p. (view p.0.now, view p.1.now, view p.2.now, view p.3.now, view p.4.now, view p.5.now))
        result
        ≡ option_and_then six (elements (view value.now)) }
{
    match elements(value)? {
        [first, second, third, fourth, fifth, sixth] => Some((
            first, second, third, fourth, fifth, sixth,
        )),
        _ => None,
    }
}

/// The elements of an array of a text, a whole number in the signed 64-bit range, and an array.
#[tactic(auto, unfolding(crate::specs::Json::text_number_list))]
pub fn text_number_list(value: &Value) -> Option<(&str, i64, &[Value])>
    ensures { option_map (λ p. (p.0.now, p.1, map view p.2.now)) result ≡ text_number_list (view value.now) }
{
    let (text, number, list) = triple(value)?;
    let text = text.as_str()?;
    let number = number.as_i64()?;
    let list = elements(list)?;
    Some((text, number, list))
}

/// The list of a document `[word, 1, [..]]`, `None` of a document that does not have this form.
#[tactic(auto, unfolding(crate::specs::Json::versioned_list))]
pub fn versioned_list<'a>(word: &str, value: &'a Value) -> Option<&'a [Value]>
    ensures { option_map (λ s. map view s.now) result ≡ versioned_list word.now (view value.now) }
{
    let (head, version, list) = text_number_list(value)?;
    if head == word && version == 1 {
        Some(list)
    } else {
        None
    }
}
