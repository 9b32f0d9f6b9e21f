//! The parts of lines that are drawn, and how much is left out.

ghost use Rattle.std.specs.Prelude.{◌≡◌, ◌∷◌, [], ◌==◌, not, IfOk, IfErr, IfSome, OnOk, Some, None, true};
ghost use Rattle.std.specs.Prelude.{count_by, filter, length, map, option_copied, string_bytes};
ghost use Rattle.std.specs.List.{find, list_any, range_with_len};
ghost use Rattle.rbc_picture.specs.Selections.{AreParts, AreRound};
ghost use Rattle.rbc_picture.specs.Selections.{is_busy, is_limit_on, is_segment_on, is_stop_on, is_train_on};
ghost use Rattle.rbc_picture.specs.Selections.{is_left_line, is_named, left_text, left_words, part_round, whole_line};
ghost use Rattle.rbc_picture.specs.NotDrawn.{FailsFor, IsLacking};
ghost use Rattle.rbc_picture.specs.Selections.{IsOfLine, fault_beyond, fault_on, lines_fault, parts_fault};
ghost use Rattle.rbc_picture.specs.Trains.{is_drawn, is_in, is_on, train_shown};
ghost use Rattle.rbc_picture.specs.declared.selection.Selection.TheVariants.{Train};

use crate::fault::DrawError;
use crate::nearness::round_train;
use crate::selection::{LinePart, Selection};
use crate::train_state::TrainState;
use rbc_place::Place;
use rbc_track::Track;
use rbc_track_report::NamedTrack;
use rbc_words::Count;
use rbc_zones::{Area, Limit, Segment};
use std::alloc::{AllocError, Global};

/// Refuses a line that the track does not have, and a part that does not lie on its line. The first fault counts.
pub(crate) fn check_lines(track: &Track, selection: &Selection<'_>) -> Result<(), DrawError>
    ensures ok { OnOk result (lines_fault track.now selection.now ≡ None) }
    ensures err { IfErr result (λ fault. lines_fault track.now selection.now ≡ Some fault) }
    ensures lines { IfErr result IsOfLine }
{
    match selection {
        Selection::Lines(parts) => check_parts(track, parts),
        Selection::All | Selection::Busy | Selection::Train(_) => Ok(()),
    }
}

/// The same for parts.
fn check_parts(track: &Track, parts: &[LinePart]) -> Result<(), DrawError>
    ensures ok { OnOk result (parts_fault track.now parts.now ≡ None) }
    ensures err { IfErr result (λ fault. parts_fault track.now parts.now ≡ Some fault) }
    ensures lines { IfErr result IsOfLine }
{
    for part in parts {
        if let Some(fault) = part_fault(track.line_len(part.line), part) {
            return Err(fault);
        }
    }
    Ok(())
}

/// Why a part does not lie on its line, by the length of the line, if the track has the line.
fn part_fault(length: Option<u32>, part: &LinePart) -> Option<DrawError>
    ensures fault { result ≡ fault_on length part.now }
    ensures line { IfSome result IsOfLine }
{
    let line = part.line;
    match length {
        Some(length) => fault_beyond(line, length, part.part),
        None => Some(DrawError::NoLine { line }),
    }
}

/// Why a part does not lie on a line with this length.
fn fault_beyond(line: u32, length: u32, part: Option<(u32, u32)>) -> Option<DrawError>
    ensures fault { result ≡ fault_beyond line length part }
    ensures line { IfSome result IsOfLine }
{
    match part {
        Some((from, to)) => {
            if from < to && to <= length {
                None
            } else {
                Some(DrawError::BeyondLine { line })
            }
        }
        None => None,
    }
}

/// The parts that a selection draws, one below the other.
pub(crate) fn parts_of(
    alloc: Global,
    selection: &Selection<'_>,
    track: &NamedTrack,
    stops: &[(u32, Area)],
    limits: &[(u32, Limit)],
    trains: &[TrainState],
) -> Result<Vec<LinePart>, AllocError>
    ensures { IfOk result (λ parts. AreParts selection.now (length track.now.lines.items) stops.now limits.now
        (map train_shown trains.now) parts.items) }
{
    match selection {
        Selection::All => all_lines(alloc, track.lines.len()),
        Selection::Busy => busy_lines(alloc, track.lines.len(), stops, limits, trains),
        Selection::Lines(parts) => Vec::from_slice(alloc, parts),
        Selection::Train(engine) => lines_round(alloc, *engine, track, stops, limits, trains),
    }
}

/// All lines.
fn all_lines(alloc: Global, lines: usize) -> Result<Vec<LinePart>, AllocError>
    ensures { IfOk result (λ parts. parts.items ≡ map whole_line (range_with_len 0 lines)) }
{
    let Ok(lines) = u32::try_from(lines) else {
        return Err(AllocError);
    };
    (0..lines).map(LinePart::whole).collect(alloc)
}

/// The lines with a train, a stop or a restriction.
fn busy_lines(
    alloc: Global,
    lines: usize,
    stops: &[(u32, Area)],
    limits: &[(u32, Limit)],
    trains: &[TrainState],
) -> Result<Vec<LinePart>, AllocError>
    ensures { IfOk result (λ parts. parts.items ≡ map whole_line
        (filter (is_busy stops.now limits.now (map train_shown trains.now)) (range_with_len 0 lines))) }
{
    let Ok(lines) = u32::try_from(lines) else {
        return Err(AllocError);
    };
    (0..lines)
        .filter(|line| is_busy(stops, limits, trains, *line))
        .map(LinePart::whole)
        .collect(alloc)
}

/// Whether a line has a train, a stop or a restriction.
fn is_busy(stops: &[(u32, Area)], limits: &[(u32, Limit)], trains: &[TrainState], line: u32) -> bool
    ensures { result ≡ is_busy stops.now limits.now (map train_shown trains.now) line }
{
    let has_train = has_train(trains, line);
    has_stop(stops, line) || has_limit(limits, line) || has_train
}

/// Whether a stop closes a stretch of a line.
fn has_stop(stops: &[(u32, Area)], line: u32) -> bool
    ensures { result ≡ list_any (is_stop_on line) stops.now }
{
    stops
        .iter()
        .any(|(_number, area)| has_segment(area.segments(), line))
}

/// Whether a segment is on a line.
fn has_segment(segments: &[Segment], line: u32) -> bool
    ensures { result ≡ list_any (is_segment_on line) segments.now }
{
    segments.iter().any(|segment| segment.line == line)
}

/// Whether a restriction applies on a line.
fn has_limit(limits: &[(u32, Limit)], line: u32) -> bool
    ensures { result ≡ list_any (is_limit_on line) limits.now }
{
    limits
        .iter()
        .any(|(_number, limit)| limit.segment().line == line)
}

/// Whether a train is placed on a line.
fn has_train(trains: &[TrainState], line: u32) -> bool
    ensures { result ≡ list_any (is_train_on line) (map train_shown trains.now) }
{
    is_any_on(trains, line)
}

/// The same, of the trains as they are held.
fn is_any_on(trains: &[TrainState], line: u32) -> bool
    ensures { result ≡ list_any (is_on line) trains.now }
{
    trains.iter().any(|train| train.is_on(line))
}

/// The part of its line round the train with an engine number, if it has a place.
fn lines_round(
    alloc: Global,
    engine: u32,
    track: &NamedTrack,
    stops: &[(u32, Area)],
    limits: &[(u32, Limit)],
    trains: &[TrainState],
) -> Result<Vec<LinePart>, AllocError>
    ensures { IfOk result (λ parts. AreParts (Train engine) (length track.now.lines.items) stops.now limits.now
        (map train_shown trains.now) parts.items) }
{
    match train_named(trains, engine) {
        Some(train) => parts_round(alloc, track, stops, limits, train),
        None => Ok(Vec::new(alloc)),
    }
}

/// The part of its line round a train, if the train has a place.
fn parts_round(
    alloc: Global,
    track: &NamedTrack,
    stops: &[(u32, Area)],
    limits: &[(u32, Limit)],
    train: &TrainState,
) -> Result<Vec<LinePart>, AllocError>
    ensures { IfOk result (λ parts. AreRound train.now.place parts.items) }
{
    match train.place {
        Some(place) => {
            let around = round_train(track, stops, limits, train, &place);
            only(alloc, line_round(&place, around))
        }
        None => Ok(Vec::new(alloc)),
    }
}

/// The part of its line round a place, from one place to another.
fn line_round(place: &Place, around: (u32, u32)) -> LinePart
    ensures { result ≡ part_round around place.now }
{
    LinePart {
        line: u32::from(place.line()),
        part: Some(around),
    }
}

/// One part alone.
fn only(alloc: Global, part: LinePart) -> Result<Vec<LinePart>, AllocError>
    ensures { IfOk result (λ parts. parts.items ≡ part ∷ []) }
{
    let mut parts = Vec::new(alloc);
    parts.push(part)?;
    Ok(parts)
}

/// The train with an engine number.
fn train_named(trains: &[TrainState], engine: u32) -> Option<&TrainState>
    ensures { option_copied result ≡ find (λ train. train.engine == engine) trains.now }
{
    trains.iter().find(|train| train.engine == engine)
}

/// Refuses a train that is not there.
pub(crate) fn check_train(selection: &Selection<'_>, trains: &[TrainState]) -> Result<(), DrawError>
    ensures ok { OnOk result (is_named selection.now (map train_shown trains.now) ≡ true) }
    ensures err { IfErr result (FailsFor (IsLacking selection.now (map train_shown trains.now))) }
{
    match selection {
        Selection::Train(engine) => check_engine(trains, *engine),
        Selection::All | Selection::Busy | Selection::Lines(_) => Ok(()),
    }
}

/// Refuses an engine number that no train has.
fn check_engine(trains: &[TrainState], engine: u32) -> Result<(), DrawError>
    ensures ok { OnOk result (is_named (Train engine) (map train_shown trains.now) ≡ true) }
    ensures err { IfErr result (FailsFor (IsLacking (Train engine) (map train_shown trains.now))) }
{
    match train_named(trains, engine) {
        Some(_) => Ok(()),
        None => Err(DrawError::NoTrain { engine }),
    }
}

/// How much is left out: `; 3 lines and 1 train are left out`.
pub(crate) fn left_text(
    alloc: Global,
    selection: &Selection<'_>,
    parts: &[LinePart],
    lines: usize,
    trains: &[TrainState],
) -> Result<String, AllocError>
    ensures { IfOk result (λ text. string_bytes text
        ≡ left_text selection.now parts.now lines (map train_shown trains.now)) }
{
    let trains = trains_left(selection, parts, trains);
    left_words(alloc, lines_left(parts, lines), trains)
}

/// The words for how many lines and trains are left out.
fn left_words(alloc: Global, lines: usize, trains: usize) -> Result<String, AllocError>
    ensures { IfOk result (λ text. string_bytes text ≡ left_words lines trains) }
{
    let lines = Count {
        number: lines,
        noun: "line",
    };
    let trains = Count {
        number: trains,
        noun: "train",
    };
    format!(in alloc; "; {lines} and {trains} are left out")
}

/// How many lines are left out.
fn lines_left(parts: &[LinePart], lines: usize) -> usize
    ensures { result ≡ count_by (is_left_line parts.now) (range_with_len 0 lines) }
{
    (0..lines).filter(|line| !has_part(parts, *line)).count()
}

/// Whether something of a line is drawn.
pub(crate) fn has_part(parts: &[LinePart], line: usize) -> bool
    ensures { result ≡ list_any (λ part. part.line == line) parts.now }
{
    parts.iter().any(|part| part.line as usize == line)
}

/// How many trains are left out.
pub(crate) fn trains_left(
    selection: &Selection<'_>,
    parts: &[LinePart],
    trains: &[TrainState],
) -> usize
    ensures { result ≡ count_by (λ train. not (is_drawn selection.now parts.now train)) trains.now }
{
    trains
        .iter()
        .filter(|train| !is_drawn(selection, parts, train))
        .count()
}

/// Whether a train is drawn.
pub(crate) fn is_drawn(selection: &Selection<'_>, parts: &[LinePart], train: &TrainState) -> bool
    ensures { result ≡ is_drawn selection.now parts.now train.now }
{
    train.is_listed(selection) || is_in_any(parts, train)
}

/// Whether a train is placed on the line of one of some parts, and meets it.
fn is_in_any(parts: &[LinePart], train: &TrainState) -> bool
    ensures { result ≡ list_any (λ part. is_in part train.now) parts.now }
{
    parts.iter().any(|part| train.is_in(part))
}
