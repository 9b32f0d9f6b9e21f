//! What a picture shows, and the windows of its panels.

use crate::selection::{LinePart, Selection};
use crate::train_state::TrainState;
use crate::window::{Reach, Window};
use rbc_track_report::{NamedLine, NamedTrack};
use rbc_zones::{Area, Limit, Segment};
use std::alloc::{AllocError, Global};

/// More trains than this crowd a panel.
const CROWD: usize = 40;

/// A track, and what stands on it after some inputs.
#[derive(Drop)]
pub(crate) struct Scene<'a> {
    /// The track, with its names.
    pub track: &'a NamedTrack,
    /// The active stops, ascending.
    pub stops: &'a [(u32, Area)],
    /// The active restrictions, ascending.
    pub limits: &'a [(u32, Limit)],
    /// The trains, ascending.
    pub trains: &'a [TrainState],
    /// What the picture counts.
    pub sums: Sums,
    /// What of it is drawn.
    pub selection: &'a Selection<'a>,
    /// The parts of lines that are drawn, one below the other.
    pub parts: &'a [LinePart],
    /// Whether the marks of a train begin with the nearest place and have its revocations.
    pub has_marks: bool,
}

/// What a picture counts.
#[derive(Clone, Copy)]
pub(crate) struct Sums {
    /// The inputs that were taken.
    pub taken: u64,
    /// The inputs of the batch.
    pub inputs: usize,
    /// The messages that are not acknowledged.
    pub acknowledgements: usize,
    /// The stops and restrictions that trains are not told.
    pub untold: usize,
    /// The stops that trains are not told again.
    pub untold_again: usize,
}

/// Whether more trains meet a part than have room for the places before which they are told to stop.
pub(crate) fn is_crowd(trains: &[TrainState], part: &LinePart) -> bool {
    trains.iter().filter(|train| train.is_in(part)).count() > CROWD
}

/// Whether the marks of trains begin with the nearest place and have revocations: in the picture of a selection, and in
/// one with a crowd.
pub(crate) fn has_marks(
    selection: &Selection<'_>,
    parts: &[LinePart],
    trains: &[TrainState],
) -> bool {
    !selection.is_whole() || parts.iter().any(|part| is_crowd(trains, part))
}

/// The places of each line that its window has to show: those of its trains, of their balise groups, before which they
/// are told to stop, and the ends of active stretches.
pub(crate) fn reaches_of(alloc: Global, scene: &Scene<'_>) -> Result<Vec<Reach>, AllocError> {
    let mut reaches = Vec::new(alloc);
    for line in 0..scene.track.lines.len() {
        let reach = stops_reach(scene.stops, line)
            .and(limits_reach(scene.limits, line))
            .and(trains_reach(scene.trains, line));
        reaches.push(reach)?;
    }
    Ok(reaches)
}

/// The ends of the stretches of a line that stops close.
fn stops_reach(stops: &[(u32, Area)], line: usize) -> Reach {
    let mut reach = Reach::NONE;
    for (_number, area) in stops {
        reach = reach.and(area_reach(area.segments(), line));
    }
    reach
}

/// The ends of the segments that lie on a line.
pub(crate) fn area_reach(segments: &[Segment], line: usize) -> Reach {
    let mut reach = Reach::NONE;
    for segment in segments {
        reach = reach.and(segment_reach(segment, line));
    }
    reach
}

/// The ends of a segment, if it lies on a line.
pub(crate) fn segment_reach(segment: &Segment, line: usize) -> Reach {
    if segment.line as usize == line {
        Reach::NONE.with(segment.from).with(segment.to)
    } else {
        Reach::NONE
    }
}

/// The ends of the stretches of a line on which restrictions apply.
fn limits_reach(limits: &[(u32, Limit)], line: usize) -> Reach {
    let mut reach = Reach::NONE;
    for (_number, limit) in limits {
        reach = reach.and(segment_reach(&limit.segment(), line));
    }
    reach
}

/// The places of the trains of a line, with their balise groups and the places before which they are told to stop.
fn trains_reach(trains: &[TrainState], line: usize) -> Reach {
    let mut reach = Reach::NONE;
    for train in trains {
        reach = reach.and(train_reach(train, line));
    }
    reach
}

/// The place of a train, if it is on a line, with its balise group and the places before which it is told to stop
/// there.
pub(crate) fn train_reach(train: &TrainState, line: usize) -> Reach {
    let Some(place) = train.place else {
        return Reach::NONE;
    };
    if place.line() as usize != line {
        return Reach::NONE;
    }
    let mut reach = Reach::NONE
        .with(place.lo())
        .with(place.hi())
        .with(place.at());
    for stop in &train.stops {
        if let Some(told) = stop.told
            && told.line as usize == line
        {
            reach = reach.with(told.at);
        }
    }
    reach
}

/// The window of a part: the part itself, or for a whole line what there is to show of it. Whole lines of one length
/// have the same window, which shows the places of all of them. If that is the whole line, each has a window for its
/// own places.
pub(crate) fn window_of(lines: &[NamedLine], reaches: &[Reach], part: &LinePart) -> Window {
    let line = part.line as usize;
    let length = lines.get(line).map_or(1, |line| line.length);
    if let Some((from, to)) = part.part {
        return Window::between(length, from, to);
    }
    let common = Window::of(length, common_reach(lines, reaches, length));
    if !common.is_whole(length) {
        return common;
    }
    let own = reaches.get(line).copied().unwrap_or(Reach::NONE);
    Window::of(length, own)
}

/// The places that the windows of all lines of one length have to show.
fn common_reach(lines: &[NamedLine], reaches: &[Reach], length: u32) -> Reach {
    let mut common = Reach::NONE;
    for (line, reach) in lines.iter().zip(reaches.iter()) {
        if line.length == length {
            common = common.and(*reach);
        }
    }
    common
}
