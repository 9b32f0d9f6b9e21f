//! The interval in a message with a temporary speed restriction.

ghost use Rattle.std.specs.Prelude.{◌≡◌, ◌-◌, ◌/◌, ◌<◌, ◌≤◌, ◌&&◌, false, nat_le, IsTrue};
ghost use Rattle.rbc_place.specs.Plan.{max_length};
ghost use Rattle.rbc_zones.specs.Concerns.{max_units};
ghost use Rattle.rbc_zones.specs.Limits.{is_clear, ends_beyond, ends_beyond_group, begins_at, ends_at, divided_up};
ghost use Rattle.rbc_zones.specs.Limits.{told_of_part, told_part, IsToldPart};

use crate::limit::Limit;
use crate::segment::Segment;
use crate::stop_distance::MAX_UNITS;
use rbc_place::{Place, Way};

/// The distances from the balise group at which a segment begins and ends, without the part that is behind the group.
fn distances(segment: Segment, place: &Place) -> (u32, u32)
    requires beyond { IsTrue (ends_beyond place.now.facing segment place.now.at) }
    requires within { segment.to ≤ max_length }
    ensures begin { result.0 ≡ begins_at place.now.facing segment place.now.at }
    ensures end { result.1 ≡ ends_at place.now.facing segment place.now.at }
    ensures within { result.1 ≤ max_length }
{
    let at = place.at();
    match place.facing() {
        Way::Up => (segment.from.max(at) - at, segment.to - at),
        Way::Down => (at - segment.to.min(at), at - segment.from),
    }
}

/// The start in whole units, rounded down, and the length up to the end, which is rounded up.
fn in_units(begin: u32, end: u32, unit: u32) -> (u32, u32)
    requires unit { 1 ≤ unit }
    requires ordered { begin < end }
    ensures start { result.0 ≡ begin / unit }
    ensures length { result.1 ≡ divided_up end unit - begin / unit }
{
    let start = begin / unit;
    (start, end.div_ceil(unit) - start)
}

/// Whether the start and the length in whole units have room in their fields.
fn fits(begin: u32, end: u32, unit: u32) -> bool
    requires unit { 1 ≤ unit }
    requires ordered { begin < end }
    ensures { result ≡ (nat_le (begin / unit) max_units && nat_le (divided_up end unit - begin / unit) max_units) }
{
    let (start, length) = in_units(begin, end, unit);
    start <= MAX_UNITS && length <= MAX_UNITS
}

/// Q_SCALE, D_TSR and L_TSR of an interval that begins and ends at these distances from the balise group. The start
/// is rounded down and the end up, in the finest unit in which both fields have room.
fn told_of_part(begin: u32, end: u32) -> (u8, u16, u16)
    requires ordered { begin < end }
    requires within { end ≤ max_length }
    ensures { result ≡ told_of_part begin end }
{
    let (scale, unit) = if fits(begin, end, 1) {
        (0, 1)
    } else if fits(begin, end, 10) {
        (1, 10)
    } else {
        (2, 100)
    };
    let (start, length) = in_units(begin, end, unit);
    (scale, start as u16, length as u16)
}

/// Q_SCALE, D_TSR and L_TSR of a restriction for a train that is not clear of it and beyond whose balise group it ends.
/// D_TSR is the distance from the balise group to its start, or 0 if it starts behind the group, rounded down. L_TSR is
/// the length from there to its end, which is rounded up. The unit is the finest of 10 cm, 1 m and 10 m in which both
/// are at most 32,766.
pub fn limit_fields(limit: &Limit, place: &Place) -> (u8, u16, u16)
    requires not_clear { is_clear limit.now place.now ≡ false }
    requires ends_beyond { IsTrue (ends_beyond_group limit.now place.now) }
    ensures fields { result ≡ told_part limit.now place.now }
    ensures told { IsToldPart limit.now place.now result.0 result.1 result.2 }
{
    let (begin, end) = distances(limit.segment(), place);
    told_of_part(begin, end)
}
