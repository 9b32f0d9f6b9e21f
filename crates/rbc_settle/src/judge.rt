//! What has to be done to a train. All of it is judged before the first action.

ghost use Rattle.std.specs.Prelude.{◌≡◌, [], ◌++◌, IfOk, OnOk, IfSome, option_copied};
ghost use Rattle.std.specs.List.{filter_map};
ghost use Rattle.rbc_maps.specs.Maps.{has};
ghost use Rattle.rbc_maps.specs.Numbered.{AreNumbered};
ghost use Rattle.rbc_ids.specs.Table.{IsTable};
ghost use Rattle.rbc_settle.specs.Trains.{stop_identifiers, limit_identifiers};
ghost use Rattle.rbc_settle.specs.Settling.{is_used_by, is_limit_gone, due_number, spare_identifiers, escalated};
ghost use Rattle.rbc_settle.specs.Settling.{is_stop_revoked, number_forced, next_to_tell, stops_revoked, stops_told};
ghost use Rattle.rbc_settle.specs.Settling.{limits_revoked, limits_told, in_messages, actions_with_stamp};
ghost use Rattle.rbc_settle.specs.Numbers.{has_number};
ghost use Rattle.rbc_settle.specs.OneLine.{IsJudgedOnLine};
ghost use Rattle.rbc_settle.specs.UpToDate.{HasTables};

use crate::change::{LimitChange, StopChange, ToldStop};
use crate::needed_changes::Changes;
use crate::telling::{limit_to_tell, stop_to_tell};
use crate::train::{LIMIT_IDENTIFIERS, TrainRec};
use ertms_codec::MOST_PACKETS;
use rbc_ids::Slot;
use rbc_track::Track;
use rbc_zones::{Area, Limits, Place, Stops, limit_clear};
use std::alloc::{AllocError, Global};
use std::cell::Cell;

/// The last stamp that a message may have. The number after it means that the time is unknown.
pub(crate) const LAST_STAMP: u32 = 4_294_967_294;

/// Returns the changes for which stamps are left, in their order (own rule). Takes memory only if there is something to
/// revoke or to tell.
pub fn changes(
    alloc: Global,
    track: &Track,
    stops: &Stops,
    limits: &Limits,
    train: &TrainRec,
) -> Result<Changes, AllocError>
    ensures actions { IfOk result (λ found. in_messages found.stops.items found.limits.items
        ≡ actions_with_stamp track.now stops.now limits.now train.now) }
    ensures sound { OnOk result (HasTables train.now × (AreNumbered stops.now × AreNumbered limits.now)) }
{
    let forced_now = escalated(alloc, stops, train)?;
    let mut of_stops = stops_revoked(alloc, stops, train, &forced_now)?;
    put_behind(&mut of_stops, stops_told(alloc, stops, train, &forced_now)?)?;
    let mut of_limits = limits_revoked(alloc, limits, train)?;
    put_behind(
        &mut of_limits,
        limits_told(alloc, track.horizon(), limits, train)?,
    )?;
    let room = LAST_STAMP.saturating_sub(train.stamp) as usize;
    of_stops.truncate(room);
    of_limits.truncate((room - of_stops.len()) * MOST_PACKETS);
    Ok(Changes {
        stops: of_stops,
        limits: of_limits,
    })
}

/// Appends changes to others. Takes no memory if there are no others, or none to append.
#[inline(always)]
fn put_behind<T: Drop>(changes: &mut Vec<T>, mut more: Vec<T>) -> Result<(), AllocError>
    ensures { OnOk result (changes.new.items ≡ changes.old.items ++ more.items) }
{
    if more.is_empty() {
        return Ok(());
    }
    if changes.is_empty() {
        *changes = more;
        return Ok(());
    }
    changes.append(&mut more)
}

/// Returns the numbers that are escalated (own rule): of the stops that the train was told conditionally and left
/// unanswered in three reports those with the least identifiers, as many as there are identifiers to spare. Takes no
/// memory if there is no such stop.
fn escalated(alloc: Global, stops: &Stops, train: &TrainRec) -> Result<Vec<u32>, AllocError>
    ensures { IfOk result (λ numbers. numbers.items ≡ escalated stops.now train.now) }
{
    let mut numbers = due_numbers(alloc, stops, train)?;
    if !numbers.is_empty() {
        numbers.truncate(spare_identifiers(stops, train));
    }
    Ok(numbers)
}

/// Returns the numbers of the slots that are due, in ascending order of the identifiers.
fn due_numbers(alloc: Global, stops: &Stops, train: &TrainRec) -> Result<Vec<u32>, AllocError>
    ensures { IfOk result (λ numbers. numbers.items
        ≡ filter_map (λ held. due_number stops.now held.1) train.now.stops) }
{
    if train.stops.held() == 0 {
        return Ok(Vec::new(alloc));
    }
    let near = Cell::new(0);
    train
        .stops
        .slots()
        .iter()
        .filter_map(|held| due_number(stops, held.1, &near))
        .collect(alloc)
}

/// The number of a slot that is due: it tells an active stop conditionally, and was left unanswered in three reports.
/// The stop is searched for from `near` on, which is moved.
fn due_number(stops: &Stops, slot: Slot, near: &Cell<usize>) -> Option<u32>
    ensures { result ≡ due_number stops.now slot }
{
    let Slot::Used(used) = slot else {
        return None;
    };
    if slot.is_ripe() && is_active(stops, used.number, near) {
        Some(used.number)
    } else {
        None
    }
}

/// Whether a stop is active. It is searched for from `near` on, which is moved.
fn is_active(stops: &Stops, number: u32, near: &Cell<usize>) -> bool
    ensures { result ≡ has stops.now.active number }
{
    stops.get_near(number, near).is_some()
}

/// Returns how many free identifiers are left once each stop that has to be told has one.
fn spare_identifiers(stops: &Stops, train: &TrainRec) -> usize
    ensures { result ≡ spare_identifiers stops.now train.now }
{
    let near = Cell::new(0);
    let free = (0..15).filter(|id| train.stops.slot(*id).is_none()).count();
    let needed = stops
        .active()
        .iter()
        .filter_map(|stop| stop_to_tell(train, stop.0, &stop.1, &near))
        .count();
    free.saturating_sub(needed)
}

/// Returns a revocation of each told stop that is not active or is escalated, in ascending order of the identifiers.
fn stops_revoked(
    alloc: Global,
    stops: &Stops,
    train: &TrainRec,
    forced_now: &[u32],
) -> Result<Vec<StopChange>, AllocError>
    ensures actions { IfOk result (λ found. found.items ≡ stops_revoked forced_now.now stops.now train.now) }
    ensures sound { IsTable stop_identifiers train.now.stops }
{
    let near = Cell::new(0);
    train
        .stops
        .slots()
        .iter()
        .filter(|held| is_used_by_revoked_stop(stops, forced_now, held.1, &near))
        .map(|held| StopChange::Revoke {
            id: held.0,
            number: number_forced(forced_now, held.1),
        })
        .collect(alloc)
}

/// Whether a slot is used by a stop that has to be revoked, since it is not active or is escalated. The stop is
/// searched for from `near` on, which is moved.
fn is_used_by_revoked_stop(
    stops: &Stops,
    forced_now: &[u32],
    slot: Slot,
    near: &Cell<usize>,
) -> bool
    ensures { result ≡ is_used_by (is_stop_revoked stops.now forced_now.now) slot }
{
    match slot {
        Slot::Used(used) => is_stop_revoked(stops, forced_now, used.number, near),
        Slot::Revoking { .. } => false,
    }
}

/// Whether a stop has to be revoked.
fn is_stop_revoked(stops: &Stops, forced_now: &[u32], number: u32, near: &Cell<usize>) -> bool
    ensures { result ≡ is_stop_revoked stops.now forced_now.now number }
{
    !is_active(stops, number, near) || is_escalated(forced_now, number)
}

/// Whether a number is one of those that are escalated. Mostly none is, which one comparison shows.
#[inline(always)]
fn is_escalated(forced_now: &[u32], number: u32) -> bool
    ensures { result ≡ has_number forced_now.now number }
{
    !forced_now.is_empty() && forced_now.contains(&number)
}

/// The number that becomes forced as its slot is revoked: one that is escalated.
fn number_forced(forced_now: &[u32], slot: Slot) -> Option<u32>
    ensures { result ≡ number_forced forced_now.now slot }
{
    let Slot::Used(used) = slot else {
        return None;
    };
    if is_escalated(forced_now, used.number) {
        Some(used.number)
    } else {
        None
    }
}

/// Pairs the stops that have to be told, in ascending order of the numbers, with the free identifiers, in ascending
/// order. The pairs end with the shorter list, so no stop is examined if no identifier is free.
fn stops_told(
    alloc: Global,
    stops: &Stops,
    train: &TrainRec,
    forced_now: &[u32],
) -> Result<Vec<StopChange>, AllocError>
    ensures actions { IfOk result (λ found. found.items ≡ stops_told forced_now.now stops.now train.now) }
    ensures sound { AreNumbered stops.now }
{
    if stops.count() == 0 || train.stops.least_free().is_none() {
        return Ok(Vec::new(alloc));
    }
    match line_to_judge(train) {
        Some(line) if forced_now.is_empty() => stops_told_on_line(alloc, stops, line, train),
        _ => stops_told_anywhere(alloc, stops, train, forced_now),
    }
}

/// The only line whose stops can concern a train: its own, if it has a place and rejected no stop. For a train without
/// a place all stops matter, and also for one that is told some at once, since those concern it wherever they are.
fn line_to_judge(train: &TrainRec) -> Option<u32>
    ensures { IfSome result (IsJudgedOnLine train.now) }
{
    if train.forced.len() > 0 {
        return None;
    }
    Some(u32::from(train.place.as_ref()?.line()))
}

/// The pairs of `stops_told`, for a train that is judged by the stops on its line, if none is escalated.
fn stops_told_on_line(
    alloc: Global,
    stops: &Stops,
    line: u32,
    train: &TrainRec,
) -> Result<Vec<StopChange>, AllocError>
    requires { IsJudgedOnLine train.now line }
    ensures { IfOk result (λ found. found.items ≡ stops_told [] stops.now train.now) }
{
    let near = Cell::new(0);
    let free = (0..15).filter(|id| train.stops.slot(*id).is_none());
    stops
        .on_line(line)
        .filter_map(|stop| stop_to_tell(train, stop.0, &stop.1, &near))
        .zip(free)
        .map(|((number, told), id)| StopChange::Tell { id, number, told })
        .collect(alloc)
}

/// The pairs of `stops_told`, for any train.
fn stops_told_anywhere(
    alloc: Global,
    stops: &Stops,
    train: &TrainRec,
    forced_now: &[u32],
) -> Result<Vec<StopChange>, AllocError>
    ensures { IfOk result (λ found. found.items ≡ stops_told forced_now.now stops.now train.now) }
{
    let near = Cell::new(0);
    let free = (0..15).filter(|id| train.stops.slot(*id).is_none());
    stops
        .active()
        .iter()
        .filter_map(|stop| next_to_tell(forced_now, train, stop.0, &stop.1, &near))
        .zip(free)
        .map(|((number, told), id)| StopChange::Tell { id, number, told })
        .collect(alloc)
}

/// Returns a stop and how it is told: an escalated one at once, any other as `stop_to_tell` says.
fn next_to_tell(
    forced_now: &[u32],
    train: &TrainRec,
    number: u32,
    area: &Area,
    near: &Cell<usize>,
) -> Option<(u32, ToldStop)>
    ensures { result ≡ next_to_tell forced_now.now train.now (number, area.now) }
{
    if is_escalated(forced_now, number) {
        return Some((number, ToldStop::AtOnce));
    }
    stop_to_tell(train, number, area, near)
}

/// Returns a revocation of each told restriction that is not active, or is clear of the train, in ascending order of
/// the identifiers.
fn limits_revoked(
    alloc: Global,
    limits: &Limits,
    train: &TrainRec,
) -> Result<Vec<LimitChange>, AllocError>
    ensures actions { IfOk result (λ found. found.items ≡ limits_revoked limits.now train.now) }
    ensures sound { IsTable limit_identifiers train.now.limits }
{
    let near = Cell::new(0);
    train
        .limits
        .slots()
        .iter()
        .filter(|held| is_used_by_gone_limit(limits, train.place.as_ref(), held.1, &near))
        .map(|held| LimitChange::Revoke { id: held.0 })
        .collect(alloc)
}

/// Whether a slot is used by a restriction that has to be revoked. The restriction is searched for from `near` on,
/// which is moved.
fn is_used_by_gone_limit(
    limits: &Limits,
    place: Option<&Place>,
    slot: Slot,
    near: &Cell<usize>,
) -> bool
    ensures { result ≡ is_used_by (is_limit_gone limits.now (option_copied place.entry)) slot }
{
    match slot {
        Slot::Used(used) => is_limit_gone(limits, place, used.number, near),
        Slot::Revoking { .. } => false,
    }
}

/// Pairs the restrictions that have to be told with the free identifiers, as `stops_told` does with stops. Only
/// restrictions on its line concern a train, and none concerns a train without a place.
fn limits_told(
    alloc: Global,
    horizon: u32,
    limits: &Limits,
    train: &TrainRec,
) -> Result<Vec<LimitChange>, AllocError>
    ensures actions { IfOk result (λ found. found.items ≡ limits_told horizon limits.now train.now) }
    ensures sound { AreNumbered limits.now }
{
    if limits.count() == 0 || train.limits.slots().len() == LIMIT_IDENTIFIERS {
        return Ok(Vec::new(alloc));
    }
    let Some(place) = &train.place else {
        return Ok(Vec::new(alloc));
    };
    let near = Cell::new(0);
    let free = (0..255).filter(|id| train.limits.slot(*id).is_none());
    limits
        .on_line(u32::from(place.line()))
        .filter_map(|limit| limit_to_tell(horizon, train, limit.0, &limit.1, &near))
        .zip(free)
        .map(|((number, told), id)| LimitChange::Tell { id, number, told })
        .collect(alloc)
}

/// Whether a told restriction has to be revoked, because it is not active or is clear of the train.
fn is_limit_gone(limits: &Limits, place: Option<&Place>, number: u32, near: &Cell<usize>) -> bool
    ensures { result ≡ is_limit_gone limits.now (option_copied place.entry) number }
{
    match (limits.get_near(number, near), place) {
        (None, _) => true,
        (Some(_), None) => false,
        (Some(limit), Some(place)) => limit_clear(limit, place),
    }
}
