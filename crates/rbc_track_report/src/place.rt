//! Which rule a refused track breaks, and where, in words.

ghost use Rattle.std.specs.Prelude.{◌≡◌};
ghost use Rattle.rbc_track_report.specs.Growth.{IsWrittenOn};
ghost use Rattle.rbc_track_report.specs.Sentences.{sentence_of};

use crate::breach::Breach;
use crate::named_document::{GroupDraft, Misfit, Place, Wanted};
use crate::report_text::Sheet;
use rbc_track::TrackError;
use toml::Value;

/// The sentence of a rule.
pub fn sentence_of(rule: TrackError) -> &'static str
    ensures { result.now ≡ sentence_of rule }
{
    match rule {
        TrackError::Text => "The text is no TOML document, or has a number beyond 64 bits.",
        TrackError::Shape => "A key is missing, or is not what it has to be.",
        TrackError::TooManyLines => "There are more than 64 lines.",
        TrackError::TooManyGroups => "There are more than 8000 balise groups.",
        TrackError::BadLength => "The length of a line is outside 1 to 3000000 (units of 10 cm).",
        TrackError::GroupOffLine => {
            "A balise group is on a line that does not exist, or beyond the end of its line."
        }
        TrackError::GroupTwice => "Two balise groups have the same nid.",
        TrackError::OutOfMemory => "Memory ran out.",
    }
}

/// Adds where something stands: `[[line]] 2`, counted from 1 as in the file.
pub fn push_place(sheet: &mut Sheet, place: Place)
    ensures { IsWrittenOn sheet.old sheet.new }
{
    match place {
        Place::Document => sheet.words("the document"),
        Place::Line(index) => sheet.words("[[line]] ").nth(index),
        Place::Group(index) => sheet.words("[[group]] ").nth(index),
    };
}

/// Adds the beginning of a sentence on something in a document.
fn push_subject(sheet: &mut Sheet, place: Place)
    ensures { IsWrittenOn sheet.old sheet.new }
{
    match place {
        Place::Document => sheet.words("  The document"),
        Place::Line(index) => sheet
            .words("  [[line]] ")
            .nth(index)
            .words(" (line ")
            .number(index)
            .words(")"),
        Place::Group(index) => sheet.words("  [[group]] ").nth(index),
    };
}

/// Adds what a value is.
fn push_kind(sheet: &mut Sheet, value: &Value)
    ensures { IsWrittenOn sheet.old sheet.new }
{
    match value {
        Value::String(word) => sheet.words("the text \"").shown(word.as_str()).words("\""),
        Value::Integer(number) => sheet.words("the whole number ").integer(*number),
        Value::Float(_) => sheet.words("a number with a point"),
        Value::Boolean(_) => sheet.words("a boolean"),
        Value::Datetime(_) => sheet.words("a date or a time"),
        Value::Array(_) => sheet.words("an array"),
        Value::Table(_) => sheet.words("a table"),
    };
}

/// What a value has to be, in words.
fn words_of(wanted: Wanted) -> &'static str {
    match wanted {
        Wanted::Length => "a whole number, 1 to 3000000 (units of 10 cm)",
        Wanted::Nid => "a whole number, 0 to 16777214",
        Wanted::Line => "the number of a line, from 0",
        Wanted::At => "a whole number, 0 to the length of its line (units of 10 cm)",
        Wanted::Way => "\"up\" or \"down\"",
        Wanted::Lines => "tables, each begun with [[line]]",
        Wanted::Groups => "tables, each begun with [[group]]",
        Wanted::Table => "a table",
    }
}

/// Adds the two lines on a value that is missing, or is not what it has to be.
fn push_misfit(sheet: &mut Sheet, misfit: &Misfit<'_>)
    ensures { IsWrittenOn sheet.old sheet.new }
{
    push_subject(sheet, misfit.place);
    push_what(sheet, misfit);
    sheet
        .words(".\n  It has to be ")
        .words(words_of(misfit.wanted))
        .words(".\n");
}

/// Adds what stands there, or that it is missing.
fn push_what(sheet: &mut Sheet, misfit: &Misfit<'_>)
    ensures { IsWrittenOn sheet.old sheet.new }
{
    match (misfit.key, misfit.value) {
        (Some(key), Some(value)) => {
            sheet.words(": `").words(key).words("` is ");
            push_kind(sheet, value);
        }
        (Some(key), None) => {
            sheet.words(": the key `").words(key).words("` is missing");
        }
        (None, Some(value)) => {
            sheet.words(" is ");
            push_kind(sheet, value);
        }
        (None, None) => {
            sheet.words(" is missing");
        }
    }
}

/// Adds where a document breaks its rule.
pub fn push_breach(sheet: &mut Sheet, breach: &Breach<'_>)
    ensures { IsWrittenOn sheet.old sheet.new }
{
    match breach {
        Breach::Shape(misfit) => push_misfit(sheet, misfit),
        Breach::TooManyLines(number) => push_tables(sheet, "line", *number),
        Breach::TooManyGroups(number) => push_tables(sheet, "group", *number),
        Breach::BadLength { line, length } => push_bad_length(sheet, *line, *length),
        Breach::GroupOffLine {
            index,
            group,
            lines,
            length,
        } => match length {
            Some(length) => push_beyond(sheet, *index, group, *length),
            None => push_no_such_line(sheet, *index, group, *lines),
        },
        Breach::GroupTwice { index, nid, first } => push_twice(sheet, *index, *nid, *first),
    }
}

fn push_tables(sheet: &mut Sheet, kind: &str, number: usize)
    ensures { IsWrittenOn sheet.old sheet.new }
{
    sheet
        .words("  There are ")
        .number(number)
        .words(" [[")
        .words(kind)
        .words("]] tables.\n");
}

/// Adds a line whose length is out of its range.
fn push_bad_length(sheet: &mut Sheet, line: usize, length: u32)
    ensures { IsWrittenOn sheet.old sheet.new }
{
    push_subject(sheet, Place::Line(line));
    sheet
        .words(": `length` is ")
        .number(length as usize)
        .words(".\n");
}

/// Adds a balise group that is beyond the end of its line.
fn push_beyond(sheet: &mut Sheet, index: usize, group: &GroupDraft<'_>, length: u32)
    ensures { IsWrittenOn sheet.old sheet.new }
{
    push_group(sheet, index, group.nid);
    sheet
        .words(": `at` is ")
        .number(group.at as usize)
        .words(", and line ")
        .number(group.line as usize)
        .words(" is ")
        .number(length as usize)
        .words(" long.\n");
}

/// Adds a balise group that is on none of this many lines.
fn push_no_such_line(sheet: &mut Sheet, index: usize, group: &GroupDraft<'_>, lines: usize)
    ensures { IsWrittenOn sheet.old sheet.new }
{
    push_group(sheet, index, group.nid);
    sheet
        .words(": there is no line ")
        .number(group.line as usize);
    match lines {
        0 => sheet.words("; the track has no line.\n"),
        1 => sheet.words("; the one line is line 0.\n"),
        _ => sheet
            .words("; the lines are 0 to ")
            .number(lines.saturating_sub(1))
            .words(".\n"),
    };
}

fn push_group(sheet: &mut Sheet, index: usize, nid: u32)
    ensures { IsWrittenOn sheet.old sheet.new }
{
    sheet
        .words("  [[group]] ")
        .nth(index)
        .words(" (nid ")
        .number(nid as usize)
        .words(")");
}

/// Adds a balise group that has the number of an earlier one.
fn push_twice(sheet: &mut Sheet, index: usize, nid: u32, first: usize)
    ensures { IsWrittenOn sheet.old sheet.new }
{
    push_group(sheet, index, nid);
    sheet
        .words(": [[group]] ")
        .nth(first)
        .words(" has the same nid.\n");
}
