//! Fetches records from the reader.

ghost use Rattle.std.specs.Prelude.{◌≡◌, ℕ, ◌+◌, ◌*◌, ◌<◌, ◌≤◌, ◌^◌, IsTrue, IfOk, IfErr, IfSome, OnOk, None, length};
ghost use Rattle.std.specs.Prelude.{true};
ghost use Rattle.std.specs.List.{All};
ghost use Rattle.rbc_track.specs.Plan.{Plan};
ghost use Rattle.rbc_zones.specs.Segments.{is_good_segment, is_good_area};
ghost use Rattle.rbc_settle.specs.Numbers.{IsUnion, has_number};
ghost use Rattle.rbc_records.specs.Notes.{Learns};
ghost use Rattle.rbc_rule.specs.Bounds.{max_trains};
ghost use Rattle.rbc_rule.specs.World.{World};
ghost use Rattle.rbc_rule.specs.Right.{MayBe};
ghost use Rattle.rbc_rule.specs.Faults.{IsFaultOf};
ghost use Rattle.rbc_rule.specs.Touching.{HasBegun};
ghost use Rattle.rbc_rule.specs.Gathered.{IsEnough};
ghost use Rattle.rbc_rule.specs.Deciding.{Reads};
ghost use Rattle.rbc_rule.specs.Lists.{AreEnginesOf, AreTrainsKnown, HaveSought, engines_at, is_list, may_stop};

use crate::input::Segments;
use crate::lists::line_of;
use crate::maxima::MAX_TRAINS;
use crate::outcome::RuleFault;
use crate::read;
use rbc_records::{Key, ReadFault, Reader, Sought, Writes};
use rbc_settle::Numbers;
use rbc_track::Track;
use rbc_zones::{Segment, Stops};
use std::alloc::Global;

/// Fetches one record.
pub(crate) fn fetch<S: Reader>(store: &mut S, key: Key) -> Result<(), RuleFault>
    requires { S.failed store.old + 1 < 2 ^ 64 }
    ensures learns { OnOk result (Learns (S.notes store.old) key (S.notes store.new)) }
    ensures reads { Reads (S.notes store.old) (S.notes store.new) (S.failed store.old) (S.failed store.new) result }
{
    match store.fetch(key) {
        Ok(()) => Ok(()),
        Err(ReadFault::OutOfMemory) => Err(RuleFault::OutOfMemory),
        Err(ReadFault::Failed) => Err(RuleFault::Reader),
    }
}

/// Fetches one record, and takes the spare writes of the reader.
pub(crate) fn fetch_with_spare<S: Reader>(
    store: &mut S,
    key: Key,
) -> Result<Option<Writes>, RuleFault>
    requires { S.failed store.old + 1 < 2 ^ 64 }
    ensures learns { OnOk result (Learns (S.notes store.old) key (S.notes store.new)) }
    ensures reads { Reads (S.notes store.old) (S.notes store.new) (S.failed store.old) (S.failed store.new) result }
{
    fetch(store, key)?;
    Ok(store.spare())
}

/// Fetches the train of each of these engines.
fn fetch_trains<S: Reader>(store: &mut S, engines: &Numbers) -> Result<(), RuleFault>
    requires { S.failed store.old + 1 < 2 ^ 64 }
    ensures known { OnOk result (AreTrainsKnown (S.notes store.new) engines.now) }
    ensures reads { Reads (S.notes store.old) (S.notes store.new) (S.failed store.old) (S.failed store.new) result }
{
    for engine in engines.as_slice() {
        fetch(store, Key::Train(*engine))?;
    }
    Ok(())
}

/// Fetches a list, and returns its engines together with others.
fn with_list<S: Reader>(
    alloc: Global,
    list: Key,
    engines: &Numbers,
    store: &mut S,
) -> Result<Numbers, RuleFault>
    requires room { S.failed store.old + 1 < 2 ^ 64 }
    requires list { IsTrue (is_list list) }
    ensures both { IfOk result (λ both. (plan : Plan) (w : World) → MayBe plan (S.notes store.new) w
        → IsUnion both engines.now (engines_at w list)) }
    ensures few { IfOk result (λ both. length both ≤ length engines.now + max_trains) }
    ensures reads { Reads (S.notes store.old) (S.notes store.new) (S.failed store.old) (S.failed store.new) result }
{
    fetch(store, list)?;
    let nobody = Numbers::new(alloc);
    let others = read::engines(store, list, &nobody)?;
    Ok(engines.union(alloc, others)?)
}

/// Fetches the lists of the trains that a stop on these segments can concern, and returns their engines.
fn stop_lists<S: Reader>(
    alloc: Global,
    track: &Track,
    segments: &[Segment],
    store: &mut S,
) -> Result<Numbers, RuleFault>
    requires room { S.failed store.old + 1 < 2 ^ 64 }
    requires good { All (λ segment. IsTrue (is_good_segment track.now segment)) segments.now }
    ensures engines { IfOk result (λ engines. (plan : Plan) (w : World) → MayBe plan (S.notes store.new) w
        → AreEnginesOf (may_stop segments.now) w engines) }
    ensures few { IfOk result (λ engines. length engines ≤ (length segments.now + 1) * max_trains) }
    ensures reads { Reads (S.notes store.old) (S.notes store.new) (S.failed store.old) (S.failed store.new) result }
{
    let nobody = Numbers::new(alloc);
    let mut engines = with_list(alloc, Key::Unplaced, &nobody, store)?;
    for segment in segments {
        engines = with_list(alloc, line_of(track, segment), &engines, store)?;
    }
    Ok(engines)
}

/// Fetches the trains that a stop on these segments can concern: those without a place, and those on the lines of the
/// segments. Returns their engines.
fn fetch_stoppable<S: Reader>(
    alloc: Global,
    track: &Track,
    segments: &[Segment],
    store: &mut S,
) -> Result<Numbers, RuleFault>
    requires room { S.failed store.old + 1 < 2 ^ 64 }
    requires good { All (λ segment. IsTrue (is_good_segment track.now segment)) segments.now }
    ensures known { IfOk result (λ engines. AreTrainsKnown (S.notes store.new) engines) }
    ensures engines { IfOk result (λ engines. (plan : Plan) (w : World) → MayBe plan (S.notes store.new) w
        → AreEnginesOf (may_stop segments.now) w engines) }
    ensures few { IfOk result (λ engines. length engines ≤ (length segments.now + 1) * max_trains) }
    ensures reads { Reads (S.notes store.old) (S.notes store.new) (S.failed store.old) (S.failed store.new) result }
{
    let engines = stop_lists(alloc, track, segments, store)?;
    fetch_trains(store, &engines)?;
    Ok(engines)
}

/// Fetches a list, and the train of each engine in it. Returns the engines.
pub(crate) fn fetch_list<S: Reader>(
    alloc: Global,
    list: Key,
    store: &mut S,
) -> Result<Numbers, RuleFault>
    requires room { S.failed store.old + 1 < 2 ^ 64 }
    requires list { IsTrue (is_list list) }
    ensures known { IfOk result (λ engines. AreTrainsKnown (S.notes store.new) engines) }
    ensures engines { IfOk result (λ engines. (plan : Plan) (w : World) → MayBe plan (S.notes store.new) w
        → (engine : ℕ) → has_number engines engine ≡ has_number (engines_at w list) engine) }
    ensures few { IfOk result (λ engines. length engines ≤ max_trains) }
    ensures reads { Reads (S.notes store.old) (S.notes store.new) (S.failed store.old) (S.failed store.new) result }
{
    let nobody = Numbers::new(alloc);
    let engines = with_list(alloc, list, &nobody, store)?;
    fetch_trains(store, &engines)?;
    Ok(engines)
}

/// Asks the reader for the trains that a command seeks. `None` if it keeps no record of them, or finds too many.
fn search<S: Reader>(
    alloc: Global,
    sought: Sought<'_>,
    store: &S,
) -> Result<Option<Numbers>, RuleFault>
    ensures known { IfOk result (λ found. IfSome found (λ engines. AreTrainsKnown (S.notes store.now) engines)) }
    ensures sought { IfOk result (λ found. IfSome found (λ engines. (plan : Plan) (w : World)
        → MayBe plan (S.notes store.now) w → HaveSought sought.entry w engines)) }
    ensures few { IfOk result (λ found. IfSome found (λ engines. length engines ≤ max_trains)) }
    ensures fault { (plan : Plan) → IfErr result (λ fault. IsFaultOf plan fault (S.notes store.now)) }
{
    match store.search(alloc, sought)? {
        Some(engines) if engines.len() <= MAX_TRAINS => Ok(Some(engines)),
        _ => Ok(None),
    }
}

/// Fetches trains that include all that a command seeks, and returns their engines: those that the reader finds, or
/// else all.
pub(crate) fn fetch_told<S: Reader>(
    alloc: Global,
    sought: Sought<'_>,
    store: &mut S,
) -> Result<Numbers, RuleFault>
    requires { S.failed store.old + 1 < 2 ^ 64 }
    ensures known { IfOk result (λ engines. AreTrainsKnown (S.notes store.new) engines) }
    ensures sought { IfOk result (λ engines. (plan : Plan) (w : World) → MayBe plan (S.notes store.new) w
        → HaveSought sought.entry w engines) }
    ensures few { IfOk result (λ engines. length engines ≤ max_trains) }
    ensures reads { Reads (S.notes store.old) (S.notes store.new) (S.failed store.old) (S.failed store.new) result }
{
    if let Some(engines) = search(alloc, sought, store)? {
        return Ok(engines);
    }
    fetch_list(alloc, Key::Roster, store)
}

/// Fetches trains that include all that a new stop concerns, and returns their engines: those that the reader finds, or
/// else those without a place and those on the lines of its segments. `stops` already has it.
pub(crate) fn fetch_concerned<S: Reader>(
    alloc: Global,
    track: &Track,
    number: u32,
    segments: &Segments,
    stops: &Stops,
    store: &mut S,
) -> Result<Numbers, RuleFault>
    requires room { S.failed store.old + 1 < 2 ^ 64 }
    requires good { IsTrue (is_good_area track.now segments.now) }
    requires begun { (w : World) → MayBe track.now (S.notes store.old) w
        → HasBegun number segments.now w.stops stops.now }
    ensures known { IfOk result (λ engines. AreTrainsKnown (S.notes store.new) engines) }
    ensures enough { IfOk result (λ engines. (w : World) → MayBe track.now (S.notes store.new) w
        → IsEnough track.now stops.now w.limits None w.trains engines) }
    ensures few { IfOk result (λ engines. length engines ≤ 9 * max_trains) }
    ensures reads { Reads (S.notes store.old) (S.notes store.new) (S.failed store.old) (S.failed store.new) result }
{
    if let Some(area) = stops.get(number) {
        if let Some(engines) = search(alloc, Sought::Stoppable(number, area), store)? {
            return Ok(engines);
        }
    }
    let engines = fetch_stoppable(alloc, track, segments.as_slice(), store)?;
    Ok(engines)
}
