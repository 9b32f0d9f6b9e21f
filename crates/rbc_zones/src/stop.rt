//! What a stop means for a train.

ghost use Rattle.std.specs.Prelude.{◌≡◌, ◌≤◌, ℕ, false, option_copied};
ghost use Rattle.rbc_place.specs.Plan.{max_length};
ghost use Rattle.rbc_zones.specs.declared.stop_meaning.Concern.TheVariants.{Before};
ghost use Rattle.rbc_zones.specs.Concerns.{concern_of, concern_at, concern_by_edge, meets, is_behind_group};
ghost use Rattle.rbc_zones.specs.Nearer.{nearer};

use crate::area::Area;
use crate::segment::Segment;
use crate::stop_meaning::Concern;
use rbc_place::{Place, Way};

/// What a stop means for a train (own rule).
///
/// - `Now` if the train has no place, if the stop is forced on it, or if a segment on its line meets the interval
///   in which it may stand.
/// - Otherwise only the nearest edge ahead counts: `None` if there is none, `Now` if it is behind the balise group,
///   as no distance to it can be told, and `Before` that edge in all other cases.
pub fn concern(area: &Area, forced: bool, place: Option<&Place>) -> Concern
    ensures value { result ≡ concern_of area.now forced (option_copied place.entry) }
    ensures in_range { (edge : ℕ) → result ≡ Before edge → edge ≤ max_length }
{
    match place {
        None => Concern::Now,
        Some(_) if forced => Concern::Now,
        Some(place) => concern_at(area.segments(), place),
    }
}

/// What a stop that is not forced on a train means for it at its place.
fn concern_at(segments: &[Segment], place: &Place) -> Concern
    ensures { result ≡ concern_at segments.now false place.now }
{
    let line = u32::from(place.line());
    let mut nearest = None;
    for segment in segments {
        if segment.line != line {
            continue;
        }
        if meets(place, segment) {
            return Concern::Now;
        }
        nearest = nearer(place, nearest, segment);
    }
    concern_by_edge(place, nearest)
}

/// What a stop means if this is its nearest edge ahead.
fn concern_by_edge(place: &Place, nearest: Option<u32>) -> Concern
    ensures { result ≡ concern_by_edge place.now nearest }
{
    match nearest {
        None => Concern::None,
        Some(edge) if is_behind_group(place, edge) => Concern::Now,
        Some(edge) => Concern::Before(edge),
    }
}

/// Whether a segment and the interval in which the train may stand have a place in common.
fn meets(place: &Place, segment: &Segment) -> bool
    ensures { result ≡ meets place.now segment.now }
{
    segment.from <= place.hi() && place.lo() <= segment.to
}

/// Whether an edge lies behind the train's balise group.
fn is_behind_group(place: &Place, edge: u32) -> bool
    ensures { result ≡ is_behind_group place.now.facing place.now.at edge }
{
    match place.facing() {
        Way::Up => edge < place.at(),
        Way::Down => edge > place.at(),
    }
}

/// The nearest edge found so far, or the edge of a segment if that is ahead and nearer.
fn nearer(place: &Place, nearest: Option<u32>, segment: &Segment) -> Option<u32>
    ensures { result ≡ nearer place.now nearest segment.now }
{
    match place.facing() {
        Way::Up if segment.from > place.hi() => {
            Some(nearest.map_or(segment.from, |edge| edge.min(segment.from)))
        }
        Way::Down if segment.to < place.lo() => {
            Some(nearest.map_or(segment.to, |edge| edge.max(segment.to)))
        }
        _ => nearest,
    }
}
