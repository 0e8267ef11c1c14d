//! Tokens of JSON that are taken one after another.

use json::{Reader, Scratch};
use std::alloc::Global;
use std::test::Fail;
use value_tokens::{take_begin_array, take_integer, take_text, take_values};
use values::Value;

/// The values of an array's text, each with a space after it, or that the text has none.
fn shown(alloc: Global, text: &str) -> Result<String, Fail> {
    let mut scratch = Scratch::new(alloc);
    let mut reader = Reader::new(text, &mut scratch)?;
    let Some(values) = take_values(alloc, &mut reader, 2) else {
        return Ok(String::from_str(alloc, "none")?);
    };
    let mut shown = String::new(alloc);
    for value in &values {
        match value {
            Value::Int(number) => write!(shown, "{number} ")?,
            Value::Text(text) => {
                let text = text.as_str();
                write!(shown, "'{text}' ")?
            }
        }
    }
    Ok(shown)
}

#[test]
fn arrays_of_whole_numbers_and_short_texts_are_taken(rt: HostRuntime) -> Result<(), Fail> {
    for (text, want) in [
        ("[]", ""),
        (" [ 1 , -2 , 3 ] ", "1 -2 3 "),
        ("[\"hi\",7,\"\"]", "'hi' 7 '' "),
        (
            "[9223372036854775807,-9223372036854775808]",
            "9223372036854775807 -9223372036854775808 ",
        ),
        ("[9223372036854775808]", "none"),
        ("[1.5]", "none"),
        ("[1e2]", "none"),
        ("[true]", "none"),
        ("[[1]]", "none"),
        ("[1", "none"),
        ("{}", "none"),
        ("7", "none"),
    ] {
        assert_eq!(rt; shown(rt.alloc(), text)?.as_str(), want);
    }
    Ok(())
}

#[test]
fn single_tokens_are_taken_in_their_order(rt: HostRuntime) -> Result<(), Fail> {
    let mut scratch = Scratch::new(rt.alloc());
    let mut reader = Reader::new("[\"rows\",-1,\"1\"]", &mut scratch)?;
    assert_eq!(rt; take_begin_array(&mut reader), Some(()));
    assert_eq!(rt; take_text(&mut reader), Some("rows"));
    assert_eq!(rt; take_integer(&mut reader), Some(-1));
    assert_eq!(rt; take_integer(&mut reader), None);
    assert_eq!(rt; take_begin_array(&mut reader), None);
    assert_eq!(rt; take_text(&mut reader), None);
    Ok(())
}
