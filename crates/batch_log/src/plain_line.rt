//! Lines in the plain form, read from their tokens: no document is made of them.

ghost use Rattle.std.specs.Prelude.{IfSome};
ghost use Rattle.json.specs.Lex.{tokens};
ghost use Rattle.batch_log.specs.Plain.{SpellsPlain};

use json::{Reader, Scratch};
use std::alloc::Global;
use value_tokens::{take_begin_array, take_text, take_values};
use values::Value;

/// For how many values of a call there is room at first. The list grows where there are more.
const USUAL_VALUES: usize = 4;

/// What a line in the plain form says: `["call", PROC, [VALUE ..]]`, where each value is a number or a text, or
/// `["cut"]`.
#[derive(Drop)]
pub(crate) enum PlainLine<'a> {
    Call(&'a str, Vec<Value>),
    Cut,
}

/// What a line in the plain form says. `None` of a line in any other form, or if allocation fails.
pub(crate) fn plain_line<'a>(
    alloc: Global,
    text: &'a str,
    scratch: &'a mut Scratch,
) -> Option<PlainLine<'a>>
    ensures { IfSome result (SpellsPlain (tokens text.now)) }
{
    let mut reader = Reader::new(text, scratch).ok()?;
    take_begin_array(&mut reader)?;
    let word = take_text(&mut reader)?;
    let line = if word == "call" {
        let name = take_text(&mut reader)?;
        PlainLine::Call(name, take_values(alloc, &mut reader, USUAL_VALUES)?)
    } else if word == "cut" {
        PlainLine::Cut
    } else {
        return None;
    };
    if reader.take_end_array() && reader.next().is_none() {
        Some(line)
    } else {
        None
    }
}
