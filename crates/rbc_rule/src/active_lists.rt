//! The stops and the restrictions after one begins or ends.

ghost use Rattle.std.specs.Prelude.{◌≡◌, ◌≤◌, length, Ok, IfOk, IfErr};
ghost use Rattle.rbc_rule.specs.Codes.{IsReason};
ghost use Rattle.rbc_rule.specs.Effect.{stops_after, limits_after, after_removing};

use crate::input::Segments;
use crate::maxima::{MAX_LIMITS, MAX_STOPS};
use crate::refuse::{NotChanged, Refusal};
use crate::restriction::Restriction;
use rbc_maps::{Numbered, OnLines};
use rbc_track::Track;
use rbc_zones::{Area, Limit, Limits, Stops};
use std::alloc::Global;

/// Returns the stops with one more, or why it cannot be added.
pub(crate) fn stops_after(
    alloc: Global,
    track: &Track,
    number: u32,
    segments: &Segments,
    stops: &Stops,
) -> Result<Stops, NotChanged>
    requires { 1 ≤ length segments.now }
    ensures ok { IfOk result (λ after. Ok after ≡ stops_after track.now number segments.now stops.now) }
    ensures err { IfErr result (λ why. IsReason (stops_after track.now number segments.now stops.now) why) }
{
    if number <= stops.last() {
        return Err(NotChanged::Refused(Refusal::NumberUsed));
    }
    let Ok(area) = Area::new(track, segments.as_slice()) else {
        return Err(NotChanged::Refused(Refusal::BadArea));
    };
    if stops.count() >= MAX_STOPS {
        return Err(NotChanged::Refused(Refusal::TooManyActive));
    }
    let mut after = stops.copy(alloc)?;
    after.add(number, area)?;
    Ok(after)
}

/// Returns the restrictions with one more, or why it cannot be added.
pub(crate) fn limits_after(
    alloc: Global,
    track: &Track,
    new: &Restriction,
    limits: &Limits,
) -> Result<Limits, NotChanged>
    ensures ok { IfOk result (λ after. Ok after
        ≡ limits_after track.now new.now.number new.now.segment new.now.dirs new.now.speed new.now.front limits.now) }
    ensures err { IfErr result (λ why. IsReason (limits_after track.now new.now.number new.now.segment new.now.dirs
        new.now.speed new.now.front limits.now) why) }
{
    if new.number <= limits.last() {
        return Err(NotChanged::Refused(Refusal::NumberUsed));
    }
    let Ok(limit) = Limit::new(track, new.segment, new.dirs, new.speed, new.front) else {
        return Err(NotChanged::Refused(Refusal::BadArea));
    };
    if limits.count() >= MAX_LIMITS {
        return Err(NotChanged::Refused(Refusal::TooManyActive));
    }
    let mut after = limits.copy(alloc)?;
    after.add(new.number, limit)?;
    Ok(after)
}

/// Returns the stops, or the restrictions, without one, or why it cannot be taken out.
pub(crate) fn without<V: OnLines<N> + Copy + Drop, const N: usize>(
    alloc: Global,
    number: u32,
    active: &Numbered<V, N>,
) -> Result<Numbered<V, N>, NotChanged>
    ensures ok { IfOk result (λ after. Ok after ≡ after_removing number active.now) }
    ensures err { IfErr result (λ why. IsReason (after_removing number active.now) why) }
{
    if active.get(number).is_none() {
        return Err(NotChanged::Refused(Refusal::NoSuchNumber));
    }
    let mut after = active.copy(alloc)?;
    let _ = after.remove(number);
    Ok(after)
}
