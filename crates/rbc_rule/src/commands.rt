//! The signaller's commands.

ghost use Rattle.std.specs.Prelude.{◌+◌, ◌≤◌, ◌<◌, ◌^◌, length};
ghost use Rattle.rbc_rule.specs.Deciding.{IsDecided};

use crate::begin_and_end::{limit_begun, limit_ended, stop_begun, stop_ended};
use crate::fetch::fetch;
use crate::input::{Input, Segments};
use crate::outcome::{Outcome, RuleFault};
use crate::refuse::NotChanged;
use crate::restriction::Restriction;
use crate::{active_lists, read};
use rbc_records::{Key, Reader};
use rbc_track::Track;
use rbc_zones::{Limits, Stops};
use std::alloc::Global;

/// Decides that the signaller closes an area.
pub fn stop<S: Reader>(
    alloc: Global,
    track: &Track,
    number: u32,
    segments: &Segments,
    store: &mut S,
) -> Result<Outcome, RuleFault>
    requires room { S.failed store.old + 1 < 2 ^ 64 }
    requires some { 1 ≤ length segments.now }
    ensures { IsDecided track.now (Input.Stop number segments.now) (S.notes store.old) (S.notes store.new)
        (S.failed store.old) (S.failed store.new) result }
{
    fetch(store, Key::Stops)?;
    let none = Stops::new(alloc);
    let stops = read::stops(store, &none)?;
    match active_lists::stops_after(alloc, track, number, segments, stops) {
        Ok(stops) => stop_begun(alloc, track, number, segments, stops, store),
        Err(NotChanged::Refused(refusal)) => Ok(Outcome::refused(alloc, refusal)),
        Err(NotChanged::OutOfMemory) => Err(RuleFault::OutOfMemory),
    }
}

/// Decides that the signaller opens an area again.
pub fn release<S: Reader>(
    alloc: Global,
    track: &Track,
    number: u32,
    store: &mut S,
) -> Result<Outcome, RuleFault>
    requires { S.failed store.old + 1 < 2 ^ 64 }
    ensures { IsDecided track.now (Input.Release number) (S.notes store.old) (S.notes store.new)
        (S.failed store.old) (S.failed store.new) result }
{
    fetch(store, Key::Stops)?;
    let none = Stops::new(alloc);
    let stops = read::stops(store, &none)?;
    match active_lists::without(alloc, number, stops) {
        Ok(stops) => stop_ended(alloc, track, number, stops, store),
        Err(NotChanged::Refused(refusal)) => Ok(Outcome::refused(alloc, refusal)),
        Err(NotChanged::OutOfMemory) => Err(RuleFault::OutOfMemory),
    }
}

/// Decides that the signaller restricts the speed on a segment.
pub fn restrict<S: Reader>(
    alloc: Global,
    track: &Track,
    new: &Restriction,
    store: &mut S,
) -> Result<Outcome, RuleFault>
    requires { S.failed store.old + 1 < 2 ^ 64 }
    ensures { IsDecided track.now
        (Input.Restrict new.now.number new.now.segment new.now.dirs new.now.speed new.now.front)
        (S.notes store.old) (S.notes store.new) (S.failed store.old) (S.failed store.new) result }
{
    fetch(store, Key::Limits)?;
    let none = Limits::new(alloc);
    let limits = read::limits(store, &none)?;
    match active_lists::limits_after(alloc, track, new, limits) {
        Ok(limits) => limit_begun(alloc, track, new, limits, store),
        Err(NotChanged::Refused(refusal)) => Ok(Outcome::refused(alloc, refusal)),
        Err(NotChanged::OutOfMemory) => Err(RuleFault::OutOfMemory),
    }
}

/// Decides that the signaller lifts a restriction.
pub fn lift<S: Reader>(
    alloc: Global,
    track: &Track,
    number: u32,
    store: &mut S,
) -> Result<Outcome, RuleFault>
    requires { S.failed store.old + 1 < 2 ^ 64 }
    ensures { IsDecided track.now (Input.Lift number) (S.notes store.old) (S.notes store.new)
        (S.failed store.old) (S.failed store.new) result }
{
    fetch(store, Key::Limits)?;
    let none = Limits::new(alloc);
    let limits = read::limits(store, &none)?;
    match active_lists::without(alloc, number, limits) {
        Ok(limits) => limit_ended(alloc, track, number, limits, store),
        Err(NotChanged::Refused(refusal)) => Ok(Outcome::refused(alloc, refusal)),
        Err(NotChanged::OutOfMemory) => Err(RuleFault::OutOfMemory),
    }
}
