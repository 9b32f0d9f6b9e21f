//! Texts from a track file, as an XML document may have them.

ghost use Rattle.std.specs.Prelude.{◌≡◌, ◌++◌, true, OnOk, string_bytes};
ghost use Rattle.std.specs.Str.{chars};
ghost use Rattle.rbc_picture.specs.Escape.{escaped, spelling_of, is_inert};

use std::alloc::AllocError;

/// Adds a text with `&amp;`, `&lt;` and `&gt;` for each `&`, `<` and `>`. What is added can neither begin nor end an
/// element, and begins no other entity.
pub(crate) fn push_escaped(text: &mut String, name: &str) -> Result<(), AllocError>
    ensures escaped { OnOk result (chars (string_bytes text.new)
        ≡ chars (string_bytes text.old) ++ escaped (chars name.now)) }
    ensures inert { is_inert (escaped (chars name.now)) ≡ true }
{
    for c in name.chars() {
        push_spelt(text, c)?;
    }
    Ok(())
}

/// Adds a character, or the entity that stands for it.
fn push_spelt(text: &mut String, c: char) -> Result<(), AllocError>
    ensures { OnOk result (chars (string_bytes text.new) ≡ chars (string_bytes text.old) ++ spelling_of c) }
{
    match c {
        '&' => text.push_str("&amp;"),
        '<' => text.push_str("&lt;"),
        '>' => text.push_str("&gt;"),
        other => text.push(other),
    }
}
