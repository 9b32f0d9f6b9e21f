//! The lines of a track with their balise groups in order, as a table.

ghost use Rattle.std.specs.Prelude.{◌≡◌, length, nat_eq};
ghost use Rattle.std.specs.List.{filter};
ghost use Rattle.rbc_track_report.specs.Growth.{IsWrittenOn};

use crate::named_document::{Draft, GroupDraft, LineDraft};
use crate::report_text::Sheet;

/// What stands between `up` and a name: the column of directions is as wide as its heading.
const UP_ROOM: &str = "       ";

/// What stands between `down` and a name.
const DOWN_ROOM: &str = "     ";

/// Adds what a track is as a whole.
pub fn push_head(sheet: &mut Sheet, draft: &Draft<'_>)
    ensures { IsWrittenOn sheet.old sheet.new }
{
    sheet
        .words("Track")
        .name(draft.name)
        .words(": ")
        .count(draft.lines.len(), "line")
        .words(", ")
        .count(draft.groups.len(), "balise group")
        .words(", horizon ")
        .length(draft.horizon)
        .words(" km.\n");
}

/// Adds each line with its balise groups, which are in order.
pub fn push_lines(sheet: &mut Sheet, draft: &Draft<'_>)
    ensures { IsWrittenOn sheet.old sheet.new }
{
    for (index, line) in draft.lines.iter().enumerate() {
        push_line(sheet, index, line);
        push_groups_of(sheet, index, draft.groups.as_slice());
    }
}

/// How many of the balise groups are on a line.
pub fn count_on(groups: &[GroupDraft<'_>], index: usize) -> usize
    ensures { result ≡ length (filter (λ group. nat_eq group.line index) groups.now) }
{
    groups
        .iter()
        .filter(|group| group.line as usize == index)
        .count()
}

fn push_line(sheet: &mut Sheet, index: usize, line: &LineDraft<'_>)
    ensures { IsWrittenOn sheet.old sheet.new }
{
    sheet
        .words("\nLine ")
        .number(index)
        .name(line.name)
        .words(": ")
        .length(line.length)
        .words(" km, ");
}

/// Adds how many balise groups are on a line, and below that a row for each.
#[tactic(auto, using(crate::proofs::Written::written_none, crate::proofs::Written::written_then))]
fn push_groups_of(sheet: &mut Sheet, index: usize, groups: &[GroupDraft<'_>])
    ensures { IsWrittenOn sheet.old sheet.new }
{
    let number = count_on(groups, index);
    if number == 0 {
        sheet.words("no balise groups.\n");
        return;
    }
    push_heading(sheet, number, has_name_on(groups, index));
    for group in groups {
        if group.line as usize == index {
            push_group(sheet, group);
        }
    }
}

/// Adds how many balise groups are on a line, and the headings of their columns. There is a column of names if one of
/// them has a name.
fn push_heading(sheet: &mut Sheet, number: usize, has_name: bool)
    ensures { IsWrittenOn sheet.old sheet.new }
{
    let end = if has_name { "  name\n" } else { "\n" };
    sheet
        .count(number, "balise group")
        .words(":\n        km       nid  NID_C  NID_BG  nominal")
        .words(end);
}

/// Whether one of the balise groups on a line has a name.
fn has_name_on(groups: &[GroupDraft<'_>], index: usize) -> bool {
    groups.iter().any(|group| group.line as usize == index && group.name.is_some())
}

/// Adds a balise group: its place with the points in line, its number, and NID_C and NID_BG, of which that is made.
fn push_group(sheet: &mut Sheet, group: &GroupDraft<'_>)
    ensures { IsWrittenOn sheet.old sheet.new }
{
    push_km(sheet, group.at);
    let nid = group.nid as usize;
    sheet
        .words("  ")
        .column(8, nid)
        .words("  ")
        .column(5, nid / 16_384)
        .words("  ")
        .column(6, nid % 16_384)
        .words("  ")
        .words(group.nominal);
    push_name(sheet, group);
    sheet.words("\n");
}

/// Adds the name of a balise group in its column, if it has one.
fn push_name(sheet: &mut Sheet, group: &GroupDraft<'_>)
    ensures { IsWrittenOn sheet.old sheet.new }
{
    if let Some(name) = group.name {
        let room = if group.nominal == "up" {
            UP_ROOM
        } else {
            DOWN_ROOM
        };
        sheet.words(room).words(name);
    }
}

/// Adds a place of 10 columns, with its point in the sixth.
fn push_km(sheet: &mut Sheet, at: u32)
    ensures { IsWrittenOn sheet.old sheet.new }
{
    let units = at as usize;
    sheet
        .column(5, units / 10_000)
        .words(".")
        .number(units / 1_000 % 10)
        .number(units / 100 % 10)
        .number(units / 10 % 10);
    if units % 10 == 0 {
        sheet.words(" ");
    } else {
        sheet.number(units % 10);
    }
}
