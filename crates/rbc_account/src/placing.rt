//! Where a report places a train.

ghost use Rattle.std.specs.Prelude.{◌≡◌, ◌≤◌};
ghost use Rattle.rbc_place.specs.Placing.{way_of};
ghost use Rattle.rbc_account.specs.Placed.{IsPlacing, IsWhyNowhere, estimated_front, nominal_of};
ghost use Rattle.rbc_account.specs.Places.{unit_of};

use ertms_codec::Position;
use rbc_place::{Place, place_of};
use rbc_track::{Track, Way};

/// Where a report places a train.
#[derive(Clone, Copy)]
pub enum Placing {
    /// It may be at this place, and its estimated front is at `front`, on the same line.
    At { place: Place, front: u32 },
    /// The report gives no place.
    Nowhere(NoPlace),
}

/// Why a report gives no place: the first reason that applies.
#[derive(Clone, Copy)]
pub enum NoPlace {
    /// It names two balise groups (packet 1).
    TwoGroups,
    /// The train's direction, or the side of the balise group on which it is, is unknown.
    Direction,
    /// The distance from the balise group, or a doubt of it, is unknown.
    Distance,
    /// The track has no balise group of this number.
    UnknownGroup(u32),
    /// The estimated front would lie off this line.
    OffLine(u8),
}

/// The least value of a distance that is unknown.
const UNKNOWN: u16 = 32_767;

/// Where a report places a train of this length by the rules (own rule; see `place_of` of rbc_place).
pub(crate) fn placing_of(track: &Track, position: &Position, length: u32) -> Placing
    ensures { IsPlacing track.now position.now length result }
{
    match place_of(track, position, length) {
        Some(place) => Placing::At {
            place,
            front: front_of(&place, position),
        },
        None => Placing::Nowhere(why_nowhere(track, position)),
    }
}

/// The estimated front of a train at its place: as far from the balise group as it reports.
fn front_of(place: &Place, position: &Position) -> u32
    ensures { result ≡ estimated_front place.now position.now }
{
    let distance = u32::from(position.distance) * unit_of(position.scale);
    match side_of(place, position) {
        Way::Up => place.at() + distance,
        Way::Down => place.at().saturating_sub(distance),
    }
}

/// The side of the balise group on which the estimated front is.
fn side_of(place: &Place, position: &Position) -> Way
    ensures { result ≡ way_of (nominal_of place.now) position.now.side }
{
    if (position.side == 1) == place.same() {
        Way::Up
    } else {
        Way::Down
    }
}

/// The unit of a scale, in units of 10 cm: 1, 10 or 100.
pub(crate) fn unit_of(scale: u8) -> u32
    ensures unit { result ≡ unit_of scale }
    ensures few { result ≤ 100 }
{
    match scale {
        0 => 1,
        1 => 10,
        _ => 100,
    }
}

/// Why a report gives no place. Only for a report that gives none.
fn why_nowhere(track: &Track, position: &Position) -> NoPlace
    ensures { IsWhyNowhere track.now position.now result }
{
    if position.previous.is_some() {
        NoPlace::TwoGroups
    } else if position.dir > 1 || position.side > 1 {
        NoPlace::Direction
    } else if position.distance >= UNKNOWN
        || position.over >= UNKNOWN
        || position.under >= UNKNOWN
    {
        NoPlace::Distance
    } else {
        match track.group(position.lrbg) {
            None => NoPlace::UnknownGroup(position.lrbg),
            Some(group) => NoPlace::OffLine(group.line),
        }
    }
}
