//! Where a refused track breaks its rule first.

use crate::named_document::{Draft, GroupDraft, Misfit};
use rbc_track::{MAX_LENGTH, TrackError};

/// Where a document breaks a rule first. Tables of one kind are counted from 0 in their order.
#[derive(Clone, Copy)]
pub enum Breach<'a> {
    /// A value is missing, or is not what it has to be.
    Shape(Misfit<'a>),
    /// There are this many lines.
    TooManyLines(usize),
    /// There are this many balise groups.
    TooManyGroups(usize),
    /// The length of this line is outside its range.
    BadLength {
        line: usize,
        length: u32,
    },
    /// This balise group is on none of so many lines, or beyond the end of its line, which has this length.
    GroupOffLine {
        index: usize,
        group: GroupDraft<'a>,
        lines: usize,
        length: Option<u32>,
    },
    /// This balise group has the number of an earlier one, which is at `first`.
    GroupTwice {
        index: usize,
        nid: u32,
        first: usize,
    },
}

/// Where a document breaks a rule first. `None` if it does not.
pub fn breach_of<'a>(draft: &Draft<'a>, rule: TrackError) -> Option<Breach<'a>> {
    match rule {
        TrackError::Shape => match draft.misfit {
            Some(misfit) => Some(Breach::Shape(misfit)),
            None => None,
        },
        TrackError::TooManyLines => Some(Breach::TooManyLines(draft.lines.len())),
        TrackError::TooManyGroups => Some(Breach::TooManyGroups(draft.groups.len())),
        TrackError::BadLength => bad_length(draft),
        TrackError::GroupOffLine => off_line(draft),
        TrackError::GroupTwice => twice(draft.groups.as_slice()),
        TrackError::Text | TrackError::OutOfMemory => None,
    }
}

/// The first line whose length is out of its range.
fn bad_length<'a>(draft: &Draft<'a>) -> Option<Breach<'a>> {
    for (line, row) in draft.lines.iter().enumerate() {
        let length = row.length;
        if !(1..=MAX_LENGTH).contains(&length) {
            return Some(Breach::BadLength { line, length });
        }
    }
    None
}

/// The first balise group that is on no line of the track, or beyond the end of its line.
fn off_line<'a>(draft: &Draft<'a>) -> Option<Breach<'a>> {
    let lines = draft.lines.len();
    for (index, group) in draft.groups.iter().enumerate() {
        let length = length_of(draft, group.line);
        if length.is_none_or(|length| group.at > length) {
            return Some(Breach::GroupOffLine {
                index,
                group: *group,
                lines,
                length,
            });
        }
    }
    None
}

/// The length of a line, if the document has that line.
fn length_of(draft: &Draft<'_>, line: u32) -> Option<u32> {
    match draft.lines.get(line as usize) {
        Some(line) => Some(line.length),
        None => None,
    }
}

/// The first balise group that has the number of an earlier one.
fn twice<'a>(groups: &[GroupDraft<'a>]) -> Option<Breach<'a>> {
    for (index, group) in groups.iter().enumerate() {
        let (nid, first) = (group.nid, first_with(groups, group.nid));
        if first < index {
            return Some(Breach::GroupTwice { index, nid, first });
        }
    }
    None
}

/// The index of the first balise group with a number.
fn first_with(groups: &[GroupDraft<'_>], nid: u32) -> usize {
    groups.iter().take_while(|group| group.nid != nid).count()
}
