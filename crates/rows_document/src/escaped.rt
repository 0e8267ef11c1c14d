//! JSON texts in ASCII.

ghost use Rattle.std.specs.Prelude.{◌≡◌, ◌++◌, ◌<◌, ◌^◌, OnOk};
ghost use Rattle.std.specs.Char.{digit_char};
ghost use Rattle.std.specs.Char.Escape.{encode_utf16};
ghost use Rattle.std.specs.List.{flat_map};
ghost use Rattle.std.specs.Str.{chars};
ghost use Rattle.rows_document.specs.Texts.{character_text, json_text, unit_text};

use std::alloc::AllocError;

/// The lower-case hexadecimal digit of a number below 16.
fn hex_digit(number: u32) -> u8
    requires { number < 16 }
    ensures { result ≡ digit_char number }
{
    if number < 10 {
        b'0' + number as u8
    } else {
        b'a' + (number - 10) as u8
    }
}

/// Appends a 16-bit unit as `\u` and four lower-case hexadecimal digits.
fn push_unit(text: &mut Vec<u8>, unit: u32) -> Result<(), AllocError>
    requires { unit < 2 ^ 16 }
    ensures { OnOk result (text.new.items ≡ text.old.items ++ unit_text unit) }
{
    let digits = [
        b'\\',
        b'u',
        hex_digit(unit / 0x1000 % 16),
        hex_digit(unit / 0x100 % 16),
        hex_digit(unit / 0x10 % 16),
        hex_digit(unit % 16),
    ];
    text.extend_from_slice(&digits)?;
    Ok(())
}

/// Appends a character as its one or two units in UTF-16.
fn push_units(text: &mut Vec<u8>, character: char) -> Result<(), AllocError>
    ensures { OnOk result (text.new.items ≡ text.old.items ++ flat_map unit_text (encode_utf16 character)) }
{
    let code = character as u32;
    if code < 0x1_0000 {
        return push_unit(text, code);
    }
    let above = code - 0x1_0000;
    push_unit(text, 0xd800 + above / 0x400)?;
    push_unit(text, 0xdc00 + above % 0x400)
}

/// Appends a character of a JSON text: `"` and `\` after a backslash, any other from space to `~` as itself, and any
/// other as its one or two units in UTF-16.
#[tactic(auto, unfolding(crate::specs::Texts::character_text))]
fn push_character(text: &mut Vec<u8>, character: char) -> Result<(), AllocError>
    ensures { OnOk result (text.new.items ≡ text.old.items ++ character_text character) }
{
    match character {
        '"' | '\\' => {
            text.push(b'\\')?;
            text.push(character as u8)?;
        }
        ' '..='~' => text.push(character as u8)?,
        _ => push_units(text, character)?,
    }
    Ok(())
}

/// Appends a JSON text in ASCII.
pub(crate) fn push_json_text(text: &mut Vec<u8>, words: &str) -> Result<(), AllocError>
    ensures { OnOk result (text.new.items ≡ text.old.items ++ json_text words.now) }
{
    text.push(b'"')?;
    for character in words.chars() {
        push_character(text, character)?;
    }
    text.push(b'"')?;
    Ok(())
}
