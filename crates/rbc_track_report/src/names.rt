//! Texts from a track file that are shown: names, and keys and values that may hold anything.

ghost use Rattle.std.specs.Prelude.{◌≡◌, not, nat_le, length, option_map, option_copied};
ghost use Rattle.std.specs.List.{list_all};
ghost use Rattle.std.specs.Str.{chars};
ghost use Rattle.toml.specs.Data.{get_member};
ghost use Rattle.toml.specs.View.{view, table_view};
ghost use Rattle.rbc_track_report.specs.Shown.{is_unruly, is_name, shown_name, has_hidden_name};

use toml::{Table, Value};

/// The most characters of a name that is shown.
const MAX_NAME: usize = 40;

/// The most characters of any other text from a file.
pub const MAX_SHOWN: usize = 40;

/// Whether a character would break a log or turn its order: a control character, a separator, or a mark of direction.
pub fn is_unruly(c: char) -> bool
    ensures { result ≡ is_unruly c }
{
    let code = u32::from(c);
    matches!(code, 0..=0x1F | 0x7F..=0x9F | 0x200E | 0x200F | 0x2028..=0x202E | 0x2066..=0x2069 | 0xFEFF)
        || code & 0xFFFE == 0xFFFE
}

/// Whether no character of a text is unruly.
fn is_plain(text: &str) -> bool
    ensures { result ≡ list_all (λ c. not (is_unruly c)) (chars text.now) }
{
    text.chars().all(|c| !is_unruly(c))
}

/// Whether a text has at most 40 characters.
fn is_short(text: &str) -> bool
    ensures { result ≡ nat_le (length (chars text.now)) 40 }
{
    text.chars().count() <= MAX_NAME
}

/// Whether a text can be shown as a name: 1 to 40 characters, none of which is unruly.
fn is_name(text: &str) -> bool
    ensures { result ≡ is_name text.now }
{
    !text.is_empty() && is_plain(text) && is_short(text)
}

/// The value under a key, if there is one.
pub fn value_at<'a>(table: &'a Table, key: &str) -> Option<&'a Value>
    ensures { option_map (λ value. view value.now) result ≡ get_member key.now (table_view table.now) }
{
    table.get(key)
}

/// The name in a table, if it has one that can be shown.
pub fn name_in(table: &Table) -> Option<&str>
    ensures { option_copied result ≡ shown_name (table_view table.now) }
{
    match value_at(table, "name") {
        Some(Value::String(text)) if is_name(text.as_str()) => Some(text.as_str()),
        _ => None,
    }
}

/// Whether a table has a name that cannot be shown.
pub fn has_hidden_name(table: &Table) -> bool
    ensures { result ≡ has_hidden_name (table_view table.now) }
{
    value_at(table, "name").is_some() && name_in(table).is_none()
}
