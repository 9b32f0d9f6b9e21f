//! What a train has to be told, and how.

ghost use Rattle.std.specs.Prelude.{◌≡◌, ◌≤◌, ℕ, Some, option_copied};
ghost use Rattle.rbc_zones.specs.declared.stop_meaning.Concern.TheVariants.{Before};
ghost use Rattle.rbc_settle.specs.Settling.{direction_of, told_at, told_stop, limit_told_to, stop_to_tell};
ghost use Rattle.rbc_settle.specs.Settling.{limit_to_tell};

use crate::change::{ToldEdge, ToldLimit, ToldStop};
use crate::train::TrainRec;
use rbc_zones::{
    Area, Concern, Limit, Place, Way, concern, limit_concerns, limit_fields, stop_field,
};
use std::cell::Cell;

/// Returns a stop and how it is told, if it is not told yet and concerns the train. Whether it is told is searched for
/// from `near` on, which is moved.
pub fn stop_to_tell(
    train: &TrainRec,
    number: u32,
    area: &Area,
    near: &Cell<usize>,
) -> Option<(u32, ToldStop)>
    ensures { result ≡ stop_to_tell train.now (number, area.now) }
{
    let place = train.place.as_ref();
    let told = told_stop(place, concern(area, train.forced.has(number), place))?;
    if train.stops.tells(number, near) {
        return None;
    }
    Some((number, told))
}

/// How a stop is told, by its concern to a train. A train without a place is told to stop at once.
fn told_stop(place: Option<&Place>, concern: Concern) -> Option<ToldStop>
    requires { (edge : ℕ) → concern ≡ Before edge → edge ≤ 3000000 }
    ensures { result ≡ told_stop (option_copied place.entry) concern }
{
    match (concern, place) {
        (Concern::None, _) => None,
        (Concern::Before(edge), Some(place)) => Some(told_before(place, edge)),
        (Concern::Before(_), None) | (Concern::Now, _) => Some(ToldStop::AtOnce),
    }
}

/// How a stop before an edge is told: with the distance from the balise group to the edge.
fn told_before(place: &Place, edge: u32) -> ToldStop
    requires { edge ≤ 3000000 }
    ensures { Some result ≡ told_at place.now (Before edge) }
{
    let at = place.at();
    let distance = match place.facing() {
        Way::Up => edge.saturating_sub(at),
        Way::Down => at.saturating_sub(edge),
    };
    let (scale, distance) = stop_field(distance);
    ToldStop::Before(ToldEdge {
        dir: direction_of(place),
        scale,
        distance,
    })
}

/// Returns a restriction and how it is told, as `stop_to_tell` does a stop.
pub fn limit_to_tell(
    horizon: u32,
    train: &TrainRec,
    number: u32,
    limit: &Limit,
    near: &Cell<usize>,
) -> Option<(u32, ToldLimit)>
    ensures { result ≡ limit_to_tell horizon train.now (number, limit.now) }
{
    // Most restrictions on a train's line are told already, and in this order. One look shows that.
    if train.limits.tells_at(number, near) {
        return None;
    }
    let place = train.place.as_ref()?;
    if !limit_concerns(limit, place, horizon) {
        return None;
    }
    if train.limits.tells(number, near) {
        return None;
    }
    let told = told_limit(horizon, place, limit)?;
    Some((number, told))
}

/// How a restriction is told, if it concerns a train at this place. The horizon is in units of 10 cm.
fn told_limit(horizon: u32, place: &Place, limit: &Limit) -> Option<ToldLimit>
    ensures { result ≡ limit_told_to horizon (Some place.now) limit.now }
{
    if !limit_concerns(limit, place, horizon) {
        return None;
    }
    let (scale, start, length) = limit_fields(limit, place);
    Some(ToldLimit {
        dir: direction_of(place),
        scale,
        start,
        length,
        front: limit.front(),
        speed: (limit.speed() / 5) as u8,
    })
}

/// Q_DIR: 1 if the train faces in the nominal direction of its balise group, else 0.
fn direction_of(place: &Place) -> u8
    ensures value { result ≡ direction_of place.now }
    ensures small { result ≤ 1 }
{
    let up = place.facing() == Way::Up;
    u8::from(up == place.same())
}
