//! What is doubtful about a valid track.

ghost use Rattle.rbc_track_report.specs.Growth.{AreWarned, AreNoted};

use crate::line_table::count_on;
use crate::named_document::{Draft, GroupDraft, Place, rows_under};
use crate::names::has_hidden_name;
use crate::remark::{Gap, Remark, Remarks};
use toml::{Table, Value};

/// A horizon below which a fast train may need more to brake, in units of 10 cm.
const NEAR: u32 = 20_000;

/// Adds a warning for each name that cannot be shown.
#[tactic(auto, using(crate::proofs::Written::warned_none, crate::proofs::Written::warned_then))]
pub fn push_hidden_names(remarks: &mut Remarks<'_>, document: &Table)
    ensures { AreWarned remarks.old remarks.new }
{
    push_if_hidden(remarks, Place::Document, document);
    for (index, row) in rows_under(document, "line").iter().enumerate() {
        push_hidden(remarks, Place::Line(index), row);
    }
    push_hidden_in_groups(remarks, rows_under(document, "group"));
}

fn push_hidden_in_groups(remarks: &mut Remarks<'_>, rows: &[Value])
    ensures { AreWarned remarks.old remarks.new }
{
    for (index, row) in rows.iter().enumerate() {
        push_hidden(remarks, Place::Group(index), row);
    }
}

/// Adds a warning if a row is a table with a name that cannot be shown.
#[tactic(auto, using(crate::proofs::Written::warned_none))]
fn push_hidden(remarks: &mut Remarks<'_>, place: Place, row: &Value)
    ensures { AreWarned remarks.old remarks.new }
{
    if let Value::Table(table) = row {
        push_if_hidden(remarks, place, table);
    }
}

/// Adds a warning if a table has a name that cannot be shown.
#[tactic(auto, using(crate::proofs::Written::warned_none, crate::proofs::Written::warned_one))]
fn push_if_hidden(remarks: &mut Remarks<'_>, place: Place, table: &Table)
    ensures { AreWarned remarks.old remarks.new }
{
    if has_hidden_name(table) {
        remarks.warn(Remark::HiddenName(place));
    }
}

/// Adds a warning if there is no line or no balise group, else one for each line without a balise group.
#[tactic(auto, using(crate::proofs::Written::warned_none, crate::proofs::Written::warned_more))]
pub fn push_bare(remarks: &mut Remarks<'_>, draft: &Draft<'_>)
    ensures { AreWarned remarks.old remarks.new }
{
    if draft.lines.is_empty() {
        remarks.warn(Remark::NoLine);
    } else if draft.groups.is_empty() {
        remarks.warn(Remark::NoGroup);
    } else {
        for index in 0..draft.lines.len() {
            if count_on(draft.groups.as_slice(), index) == 0 {
                remarks.warn(Remark::BareLine(index));
            }
        }
    }
}

/// Adds the notes on a track whose balise groups are in order.
pub fn push_notes(remarks: &mut Remarks<'_>, draft: &Draft<'_>)
    ensures { AreNoted remarks.old remarks.new }
{
    let groups = draft.groups.as_slice();
    push_same_places(remarks, groups);
    push_far(remarks, draft);
    push_near(remarks, draft.horizon);
    push_wide_gap(remarks, draft.horizon, groups);
}

/// Adds a note if the horizon is not below the longest line.
fn push_far(remarks: &mut Remarks<'_>, draft: &Draft<'_>)
    ensures { AreNoted remarks.old remarks.new }
{
    let horizon = draft.horizon;
    if !draft.lines.is_empty() && draft.lines.iter().all(|line| line.length <= horizon) {
        remarks.note(Remark::FarHorizon(horizon));
    }
}

/// Adds a note if the horizon is below 2 km.
#[tactic(auto, using(crate::proofs::Written::noted_none, crate::proofs::Written::noted_more))]
fn push_near(remarks: &mut Remarks<'_>, horizon: u32)
    ensures { AreNoted remarks.old remarks.new }
{
    if horizon < NEAR {
        remarks.note(Remark::NearHorizon(horizon));
    }
}

/// Adds a note if the horizon is less than a gap between two neighbours.
#[tactic(auto, using(crate::proofs::Written::noted_none, crate::proofs::Written::noted_more))]
fn push_wide_gap(remarks: &mut Remarks<'_>, horizon: u32, groups: &[GroupDraft<'_>])
    ensures { AreNoted remarks.old remarks.new }
{
    let gap = widest_gap(groups);
    if horizon < gap.width() {
        remarks.note(Remark::WideGap { horizon, gap });
    }
}

/// Adds a note for each pair of neighbours at one place.
#[tactic(auto, using(crate::proofs::Written::noted_none, crate::proofs::Written::noted_more))]
fn push_same_places(remarks: &mut Remarks<'_>, groups: &[GroupDraft<'_>])
    ensures { AreNoted remarks.old remarks.new }
{
    for index in 1..groups.len() {
        let (one, next) = (groups[index - 1], groups[index]);
        if one.line == next.line && one.at == next.at {
            remarks.note(Remark::SamePlace {
                nids: (one.nid, next.nid),
                line: one.line,
                at: one.at,
            });
        }
    }
}

/// The first of the widest gaps between two neighbours on one line.
fn widest_gap(groups: &[GroupDraft<'_>]) -> Gap {
    let mut widest = Gap {
        line: 0,
        from: 0,
        to: 0,
    };
    for index in 1..groups.len() {
        let gap = gap_between(&groups[index - 1], &groups[index]);
        if widest.width() < gap.width() {
            widest = gap;
        }
    }
    widest
}

/// The gap between two neighbours. It has no width if they are on different lines.
fn gap_between(one: &GroupDraft<'_>, next: &GroupDraft<'_>) -> Gap {
    Gap {
        line: one.line,
        from: one.at,
        to: if one.line == next.line {
            next.at
        } else {
            one.at
        },
    }
}
