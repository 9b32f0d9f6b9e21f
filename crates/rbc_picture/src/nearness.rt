//! The marks of a train, the nearest place first, and the part of its line round a train.

ghost use Rattle.rbc_picture.specs.Selections.{Surrounds};

use crate::scene::{Scene, area_reach, segment_reach, train_reach};
use crate::short_words::ShortWord;
use crate::train_state::{StopSlot, TrainState};
use crate::window::Window;
use rbc_account::Waits;
use rbc_ids::Slot;
use rbc_place::Place;
use rbc_track_report::NamedTrack;
use rbc_zones::{Area, Limit, Segment};
use std::alloc::{AllocError, Global};

/// What the label of a train says in short.
#[derive(Drop)]
pub(crate) struct Marks {
    /// The stops and restrictions that it is told.
    pub told: Vec<ShortWord>,
    /// The stops and restrictions that it is not told.
    pub untold: Vec<ShortWord>,
    /// The revocations that it has not acknowledged.
    pub revoked: Vec<ShortWord>,
}

/// A short word, and how far its place is from where the train may be, in units of 10 cm.
#[derive(Clone, Copy)]
struct Near {
    distance: u32,
    word: ShortWord,
}

/// The marks of a train at its place: the nearest place first, and revocations, if the picture has such marks; else by
/// number, and without revocations.
pub(crate) fn marks_of(
    alloc: Global,
    scene: &Scene<'_>,
    train: &TrainState,
    place: &Place,
) -> Result<Marks, AllocError> {
    if !scene.has_marks {
        return Ok(Marks {
            told: train.told_words(alloc)?,
            untold: train.untold_words(alloc)?,
            revoked: Vec::new(alloc),
        });
    }
    Ok(Marks {
        told: told_by_place(alloc, scene, train, place)?,
        untold: untold_by_place(alloc, scene, train, place)?,
        revoked: train.revocations(alloc)?,
    })
}

/// The stops and restrictions that a train is told, the nearest first.
fn told_by_place(
    alloc: Global,
    scene: &Scene<'_>,
    train: &TrainState,
    place: &Place,
) -> Result<Vec<ShortWord>, AllocError> {
    let mut near = Vec::new(alloc);
    for stop in &train.stops {
        if let Slot::Used(used) = &stop.slot {
            near.push(Near {
                distance: distance_of_stop(place, stop),
                word: train.told_word(used),
            })?;
        }
    }
    for (_id, slot) in &train.limits {
        if let Slot::Used(used) = slot {
            near.push(Near {
                distance: distance_of_limit(scene.limits, place, used.number),
                word: train.told_word(used),
            })?;
        }
    }
    nearest_first(alloc, near)
}

/// The stops and restrictions that a train is not told, the nearest first.
fn untold_by_place(
    alloc: Global,
    scene: &Scene<'_>,
    train: &TrainState,
    place: &Place,
) -> Result<Vec<ShortWord>, AllocError> {
    let mut near = Vec::new(alloc);
    for waiting in &train.waiting {
        match waiting.what {
            Waits::Stop(number) => near.push(Near {
                distance: distance_of_area(scene.stops, place, number),
                word: ShortWord::stop(number),
            })?,
            Waits::Restriction(number) => near.push(Near {
                distance: distance_of_limit(scene.limits, place, number),
                word: ShortWord::restriction(number),
            })?,
            Waits::Again(_) => {}
        }
    }
    nearest_first(alloc, near)
}

/// Words by distance. At one distance stops come before restrictions, and lower numbers first.
fn nearest_first(alloc: Global, near: Vec<Near>) -> Result<Vec<ShortWord>, AllocError> {
    let mut near = near;
    near.sort_by_key(|one| (one.distance, !one.word.is_stop, one.word.number))?;
    near.iter().map(|one| one.word).collect(alloc)
}

/// The distance from where a train may be to a stretch of its line, in units of 10 cm. It is 0 where they meet.
fn gap(place: &Place, from: u32, to: u32) -> u32 {
    let before = place.lo().saturating_sub(to);
    let behind = from.saturating_sub(place.hi());
    before.max(behind)
}

/// The distance to the place before which a train is told to stop: 0 if it is told to stop at once, and the greatest
/// number if the place is on another line.
fn distance_of_stop(place: &Place, stop: &StopSlot) -> u32 {
    match stop.told {
        None => 0,
        Some(told) if told.line == place.line() => gap(place, told.at, told.at),
        Some(_) => u32::MAX,
    }
}

/// The distance to a restriction, or the greatest number if it is on another line or not active.
fn distance_of_limit(limits: &[(u32, Limit)], place: &Place, number: u32) -> u32 {
    let mut distance = u32::MAX;
    for (active, limit) in limits {
        if *active == number {
            distance = distance_of_segment(place, &limit.segment());
        }
    }
    distance
}

/// The distance to the nearest stretch of a stop, or the greatest number if it has none on the line or is not active.
fn distance_of_area(stops: &[(u32, Area)], place: &Place, number: u32) -> u32 {
    let mut distance = u32::MAX;
    for (active, area) in stops {
        if *active == number {
            distance = distance_of_segments(place, area.segments());
        }
    }
    distance
}

/// The distance to the nearest of some segments.
fn distance_of_segments(place: &Place, segments: &[Segment]) -> u32 {
    let mut distance = u32::MAX;
    for segment in segments {
        distance = distance.min(distance_of_segment(place, segment));
    }
    distance
}

/// The distance to a segment, or the greatest number if it is on another line.
fn distance_of_segment(place: &Place, segment: &Segment) -> u32 {
    if segment.line == u32::from(place.line()) {
        gap(place, segment.from, segment.to)
    } else {
        u32::MAX
    }
}

/// The part of its line that shows a train at its place, from one place to another, in units of 10 cm: where it may be,
/// its balise group, the places before which it is told to stop, and the stretches of what it is told or not told, with
/// a margin.
pub(crate) fn round_train(
    track: &NamedTrack,
    stops: &[(u32, Area)],
    limits: &[(u32, Limit)],
    train: &TrainState,
    place: &Place,
) -> (u32, u32)
    ensures { Surrounds result place.now }
{
    let line = place.line() as usize;
    let length = track.lines.get(line).map_or(1, |line| line.length);
    let mut reach = train_reach(train, line);
    for (number, area) in stops {
        if train.concerns_stop(*number) {
            reach = reach.and(area_reach(area.segments(), line));
        }
    }
    for (number, limit) in limits {
        if train.concerns_limit(*number) {
            reach = reach.and(segment_reach(&limit.segment(), line));
        }
    }
    let window = Window::of(length, reach);
    (window.low.min(place.lo()), window.high.max(place.hi()))
}
