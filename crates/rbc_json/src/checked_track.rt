//! A good track as an object: its lines with their balise groups in order.

use crate::list::ListText;
use crate::text::quoted;
use rbc_track_report::{Draft, GroupDraft, LineDraft};
use std::alloc::{AllocError, Global};

/// The track in a draft whose balise groups are in order.
pub(crate) fn track_text(alloc: Global, draft: &Draft<'_>) -> Result<String, AllocError> {
    let mut lines = ListText::new(alloc)?;
    for (index, line) in draft.lines.iter().enumerate() {
        lines.add(&line_text(alloc, index, line, draft.groups.as_slice())?)?;
    }
    let (name, horizon, lines) = (
        shown_text(alloc, draft.name)?,
        draft.horizon,
        lines.ended()?,
    );
    format!(in alloc; "{{\"name\":{name},\"horizon\":{horizon},\"lines\":{lines}}}")
}

/// A line, with those of the balise groups that are on it.
fn line_text(
    alloc: Global,
    index: usize,
    line: &LineDraft<'_>,
    groups: &[GroupDraft<'_>],
) -> Result<String, AllocError> {
    let mut list = ListText::new(alloc)?;
    for group in groups {
        if group.line as usize == index {
            list.add(&group_text(alloc, group)?)?;
        }
    }
    let (name, length, groups) = (shown_text(alloc, line.name)?, line.length, list.ended()?);
    format!(in alloc;
        "{{\"line\":{index},\"name\":{name},\"length\":{length},\"balise_groups\":{groups}}}"
    )
}

/// A balise group: its number, and NID_C and NID_BG, of which that is made.
fn group_text(alloc: Global, group: &GroupDraft<'_>) -> Result<String, AllocError> {
    let (nid, at, name) = (group.nid, group.at, shown_text(alloc, group.name)?);
    let (country, number) = (nid / 16_384, nid % 16_384);
    let nominal = quoted(alloc, group.nominal)?;
    format!(in alloc;
        "{{\"balise_group\":{nid},\"nid_c\":{country},\"nid_bg\":{number},\"at\":{at},\"nominal\":{nominal},\
         \"name\":{name}}}"
    )
}

/// A name that can be shown. `null` if there is none.
fn shown_text(alloc: Global, name: Option<&str>) -> Result<String, AllocError> {
    match name {
        Some(name) => quoted(alloc, name),
        None => String::from_str(alloc, "null"),
    }
}
