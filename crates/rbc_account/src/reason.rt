//! What a stop and a restriction mean for a train, case by case.

ghost use Rattle.std.specs.Prelude.{◌≡◌, ◌==◌, Some, false, option_copied};
ghost use Rattle.rbc_zones.specs.Concerns.{concern_of};
ghost use Rattle.rbc_zones.specs.Limits.{is_clear, is_for, lies_behind};
ghost use Rattle.rbc_account.specs.Reasons.{concern_by, clear_by, IsStopReason, IsLimitReason, is_met, first_met};
ghost use Rattle.rbc_account.specs.Reasons.{nearest_edge, nearer_on_line, distance_ahead};

use rbc_place::Place;
use rbc_track::Way;
use rbc_zones::{Area, Concern, Dirs, Limit, Segment, concern};

/// What a stop means for a train: the first case that applies.
#[derive(Clone, Copy)]
pub(crate) enum StopReason {
    /// The train has no place.
    NoPlace,
    /// The train stops for it at once, wherever it is.
    Forced,
    /// This stretch, the first such one, meets the place of the train.
    Overlaps(Segment),
    /// This is the nearest edge ahead, and it lies behind the balise group.
    BehindGroup(u32),
    /// The train has to stop before this edge.
    Before(u32),
    /// Nothing: no edge of the stop is ahead.
    Nothing,
}

/// What a stop means for a train. `forced` says that the train stops for it at once.
pub(crate) fn stop_reason(area: &Area, forced: bool, place: Option<&Place>) -> StopReason
    ensures concern { concern_by result ≡ concern_of area.now forced (option_copied place.entry) }
    ensures is { IsStopReason area.now forced (option_copied place.entry) result }
{
    match place {
        None => StopReason::NoPlace,
        Some(_) if forced => StopReason::Forced,
        Some(place) => reason_at(area, place),
    }
}

/// What a stop that is not forced on a train means for it at its place.
fn reason_at(area: &Area, place: &Place) -> StopReason
    ensures concern { concern_by result ≡ concern_of area.now false (Some place.now) }
    ensures is { IsStopReason area.now false (Some place.now) result }
{
    if let Some(segment) = first_met(area.segments(), place) {
        return StopReason::Overlaps(segment);
    }
    match concern(area, false, Some(place)) {
        Concern::None => StopReason::Nothing,
        Concern::Before(edge) => StopReason::Before(edge),
        Concern::Now => StopReason::BehindGroup(nearest_edge(area.segments(), place)),
    }
}

/// The first stretch that is on the line of a place and meets it.
fn first_met(segments: &[Segment], place: &Place) -> Option<Segment>
    ensures { result ≡ first_met segments.now place.now }
{
    segments
        .iter()
        .find(|segment| is_met(place, segment))
        .copied()
}

/// Whether a stretch is on the line of a place and meets it.
fn is_met(place: &Place, segment: &Segment) -> bool
    ensures { result ≡ is_met place.now segment.now }
{
    segment.line == u32::from(place.line())
        && segment.from <= place.hi()
        && place.lo() <= segment.to
}

/// The edge ahead that a train reaches first, or 0 if there is none.
fn nearest_edge(segments: &[Segment], place: &Place) -> u32
    ensures { result ≡ nearest_edge place.now segments.now }
{
    let mut nearest = None;
    for segment in segments {
        nearest = nearer(place, nearest, segment);
    }
    nearest.unwrap_or(0)
}

/// The nearest edge found so far, or that of a stretch, if it is on the line of the train, ahead of it and nearer.
fn nearer(place: &Place, found: Option<u32>, segment: &Segment) -> Option<u32>
    ensures { result ≡ nearer_on_line place.now found segment.now }
{
    if segment.line != u32::from(place.line()) {
        return found;
    }
    match place.facing() {
        Way::Up if segment.from > place.hi() => {
            Some(found.map_or(segment.from, |edge| edge.min(segment.from)))
        }
        Way::Down if segment.to < place.lo() => {
            Some(found.map_or(segment.to, |edge| edge.max(segment.to)))
        }
        _ => found,
    }
}

/// What a restriction means for a train at a place: the first case that applies.
#[derive(Clone, Copy)]
pub(crate) enum LimitReason {
    /// The restriction is on another line.
    OtherLine,
    /// The train faces the other way.
    OtherWay,
    /// The train has passed it.
    Passed,
    /// It overlaps the place of the train.
    Overlaps,
    /// It begins so far ahead of the place of the train.
    Ahead(u32),
}

/// What a restriction means for a train at a place.
pub(crate) fn limit_reason(limit: &Limit, place: &Place) -> LimitReason
    ensures clear { clear_by result ≡ is_clear limit.now place.now }
    ensures is { IsLimitReason limit.now place.now result }
{
    let segment = limit.segment();
    if !is_on_line(&segment, place) {
        LimitReason::OtherLine
    } else if !is_for(limit.dirs(), place.facing()) {
        LimitReason::OtherWay
    } else if lies_behind(&segment, place) {
        LimitReason::Passed
    } else if is_met(place, &segment) {
        LimitReason::Overlaps
    } else {
        LimitReason::Ahead(distance_ahead(&segment, place))
    }
}

/// Whether a stretch is on the line of a place.
fn is_on_line(segment: &Segment, place: &Place) -> bool
    ensures { result ≡ (segment.now.line == place.now.line) }
{
    segment.line == u32::from(place.line())
}

/// Whether a restriction applies to trains that face this way.
fn is_for(dirs: Dirs, facing: Way) -> bool
    ensures { result ≡ is_for dirs facing }
{
    match dirs {
        Dirs::Both => true,
        Dirs::Up => facing == Way::Up,
        Dirs::Down => facing == Way::Down,
    }
}

/// Whether a stretch lies wholly behind the interval in which a train may stand.
fn lies_behind(segment: &Segment, place: &Place) -> bool
    ensures { result ≡ lies_behind place.now.facing segment.now place.now }
{
    match place.facing() {
        Way::Up => segment.to < place.lo(),
        Way::Down => segment.from > place.hi(),
    }
}

/// How far ahead of the interval in which a train may stand a stretch begins.
fn distance_ahead(segment: &Segment, place: &Place) -> u32
    ensures { result ≡ distance_ahead place.now.facing segment.now place.now }
{
    match place.facing() {
        Way::Up => segment.from.saturating_sub(place.hi()),
        Way::Down => place.lo().saturating_sub(segment.to),
    }
}
