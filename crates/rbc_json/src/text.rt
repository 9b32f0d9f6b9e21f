//! Texts between quotation marks, as JSON has them: ASCII alone, in one line.

ghost use Rattle.std.specs.Prelude.{◌≡◌, ◌+◌, ◌/◌, ◌%◌, ◌++◌, ◌∷◌, ◌<◌, [], option_map, IfOk, OnOk, string_bytes};
ghost use Rattle.std.specs.Str.{chars};
ghost use Rattle.rbc_json.specs.Json.{Null, Text, json_text, character_text, unit_text, hex_digit};
ghost use Rattle.rbc_json.specs.Shapes.{name_or_null};

use std::alloc::{AllocError, Global};

/// The first character that takes two units of UTF-16.
const FIRST_PAIR: u32 = 0x1_0000;

/// That there is no value.
pub(crate) fn null_text(alloc: Global) -> Result<String, AllocError>
    ensures { IfOk result (λ text. string_bytes text ≡ json_text Null) }
{
    String::from_str(alloc, "null")
}

/// A text of bytes between quotation marks, a character for each byte, of the number of the byte.
pub(crate) fn quoted_bytes(alloc: Global, bytes: &[u8]) -> Result<String, AllocError>
    ensures { IfOk result (λ text. string_bytes text ≡ json_text (Text bytes.now)) }
{
    let mut text = String::new(alloc);
    push_ascii(&mut text, b'"')?;
    for byte in bytes {
        push_character(&mut text, u32::from(*byte))?;
    }
    push_ascii(&mut text, b'"')?;
    Ok(text)
}

/// A text between quotation marks.
pub(crate) fn quoted(alloc: Global, shown: &str) -> Result<String, AllocError>
    ensures { IfOk result (λ text. string_bytes text ≡ json_text (Text (chars shown.now))) }
{
    let mut text = String::new(alloc);
    push_ascii(&mut text, b'"')?;
    for c in shown.chars() {
        push_character(&mut text, u32::from(c))?;
    }
    push_ascii(&mut text, b'"')?;
    Ok(text)
}

/// A name between quotation marks. `null` if there is none.
pub(crate) fn name_text(alloc: Global, name: &Option<String>) -> Result<String, AllocError>
    ensures { IfOk result (λ text. string_bytes text ≡ json_text
        (name_or_null (option_map (λ name. string_bytes name) name.now))) }
{
    match name {
        Some(name) => quoted(alloc, name.as_str()),
        None => String::from_str(alloc, "null"),
    }
}

/// Adds a character by its number.
fn push_character(text: &mut String, c: u32) -> Result<(), AllocError>
    requires { c < 1114112 }
    ensures { OnOk result (string_bytes text.new ≡ string_bytes text.old ++ character_text c) }
{
    match c {
        34 | 92 => push_escaped(text, c as u8),
        32..=126 => push_ascii(text, c as u8),
        _ if c < FIRST_PAIR => push_unit(text, c),
        _ => push_pair(text, c - FIRST_PAIR),
    }
}

/// Adds a character behind a backslash.
fn push_escaped(text: &mut String, c: u8) -> Result<(), AllocError>
    requires { c < 128 }
    ensures { OnOk result (string_bytes text.new ≡ string_bytes text.old ++ 92 ∷ c ∷ []) }
{
    push_ascii(text, b'\\')?;
    push_ascii(text, c)
}

/// Adds the two units of a character beyond U+FFFF, by its distance from the first one.
fn push_pair(text: &mut String, beyond: u32) -> Result<(), AllocError>
    requires { beyond < 1048576 }
    ensures { OnOk result (string_bytes text.new ≡ string_bytes text.old
        ++ (unit_text (55296 + beyond / 1024) ++ unit_text (56320 + beyond % 1024))) }
{
    push_unit(text, 0xD800 + beyond / 0x400)?;
    push_unit(text, 0xDC00 + beyond % 0x400)
}

/// Adds a unit of UTF-16 as `\uXXXX`.
fn push_unit(text: &mut String, unit: u32) -> Result<(), AllocError>
    requires { unit < 65536 }
    ensures { OnOk result (string_bytes text.new ≡ string_bytes text.old ++ unit_text unit) }
{
    push_ascii(text, b'\\')?;
    push_ascii(text, b'u')?;
    push_ascii(text, hex_digit(unit / 4096 % 16))?;
    push_ascii(text, hex_digit(unit / 256 % 16))?;
    push_ascii(text, hex_digit(unit / 16 % 16))?;
    push_ascii(text, hex_digit(unit % 16))
}

/// A hexadecimal digit, in lower case.
fn hex_digit(digit: u32) -> u8
    requires { digit < 16 }
    ensures digit { result ≡ hex_digit digit }
    ensures ascii { result < 128 }
{
    if digit < 10 {
        b'0' + digit as u8
    } else {
        b'a' - 10 + digit as u8
    }
}

/// Adds a character of ASCII.
fn push_ascii(text: &mut String, c: u8) -> Result<(), AllocError>
    requires { c < 128 }
    ensures { OnOk result (string_bytes text.new ≡ string_bytes text.old ++ c ∷ []) }
{
    text.push(char::from(c))
}
