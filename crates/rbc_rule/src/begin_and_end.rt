//! Settles the trains that are touched when a stop or a restriction begins or ends.

ghost use Rattle.std.specs.Prelude.{◌≡◌, ◌+◌, ◌*◌, ◌≤◌, ◌<◌, ◌^◌, IsTrue, length, Some, None};
ghost use Rattle.rbc_zones.specs.Segments.{is_good_area};
ghost use Rattle.rbc_zones.specs.Limits.{is_good_limit};
ghost use Rattle.rbc_records.specs.declared.record.Key.TheVariants as key;
ghost use Rattle.rbc_records.specs.declared.record.Rec.TheVariants as rec;
ghost use Rattle.rbc_rule.specs.Bounds.{max_trains};
ghost use Rattle.rbc_rule.specs.World.{World};
ghost use Rattle.rbc_rule.specs.Effect.{with_less};
ghost use Rattle.rbc_rule.specs.Right.{MayBe};
ghost use Rattle.rbc_rule.specs.Touching.{BeginsOrEnds, HasBegun, limit_of, released_from};
ghost use Rattle.rbc_rule.specs.Lists.{AreTrainsKnown};
ghost use Rattle.rbc_rule.specs.Gathered.{IsEnough, settled_outcome};
ghost use Rattle.rbc_rule.specs.Deciding.{GivesOutcome, MakesOutcome};

use crate::fetch::{fetch_concerned, fetch_list, fetch_told};
use crate::input::Segments;
use crate::lists::line_of;
use crate::outcome::{Outcome, RuleFault, SentList};
use crate::restriction::Restriction;
use crate::touched_trains::settle_trains;
use rbc_records::{Key, Reader, Rec, Sought};
use rbc_settle::{Change, Numbers};
use rbc_track::Track;
use rbc_zones::{Limits, Stops};
use std::alloc::Global;

/// Reads the trains and settles those that a new stop can concern. `stops` already has it.
pub(crate) fn stop_begun<S: Reader>(
    alloc: Global,
    track: &Track,
    number: u32,
    segments: &Segments,
    stops: Stops,
    store: &mut S,
) -> Result<Outcome, RuleFault>
    requires room { S.failed store.old + 1 < 2 ^ 64 }
    requires good { IsTrue (is_good_area track.now segments.now) }
    requires begun { (w : World) → MayBe track.now (S.notes store.old) w → HasBegun number segments.now w.stops stops }
    ensures { GivesOutcome track.now (S.notes store.old) (S.notes store.new) (S.failed store.old) (S.failed store.new)
        (λ w. settled_outcome track.now stops w.limits None w.trains key.Stops (rec.Stops stops)) result }
{
    let engines = fetch_concerned(alloc, track, number, segments, &stops, store)?;
    settled_with_stops(alloc, track, number, stops, &engines, store)
}

/// Reads the trains and settles those that a stop that has ended was told to. `stops` no longer has it.
pub(crate) fn stop_ended<S: Reader>(
    alloc: Global,
    track: &Track,
    number: u32,
    stops: Stops,
    store: &mut S,
) -> Result<Outcome, RuleFault>
    requires room { S.failed store.old + 1 < 2 ^ 64 }
    requires ended { (w : World) → MayBe track.now (S.notes store.old) w → stops ≡ with_less number w.stops }
    ensures { GivesOutcome track.now (S.notes store.old) (S.notes store.new) (S.failed store.old) (S.failed store.new)
        (λ w. settled_outcome track.now stops w.limits (Some number) w.trains key.Stops (rec.Stops stops)) result }
{
    let engines = fetch_told(alloc, Sought::ToldOfStop(number), store)?;
    settled_with_stops(alloc, track, number, stops, &engines, store)
}

/// Settles the trains of these engines after a stop has begun or ended, by the records that were read, and writes the
/// stops too.
fn settled_with_stops<S: Reader>(
    alloc: Global,
    track: &Track,
    number: u32,
    stops: Stops,
    engines: &Numbers,
    store: &S,
) -> Result<Outcome, RuleFault>
    requires trains { AreTrainsKnown (S.notes store.now) engines.now }
    requires few { length engines.now ≤ 9 * max_trains }
    requires changed { (w : World) → MayBe track.now (S.notes store.now) w → BeginsOrEnds number w.stops stops }
    requires enough { (w : World) → MayBe track.now (S.notes store.now) w
        → IsEnough track.now stops w.limits (released_from number stops) w.trains engines.now }
    ensures { MakesOutcome track.now (S.notes store.now)
        (λ w. settled_outcome track.now stops w.limits (released_from number stops) w.trains key.Stops
        (rec.Stops stops)) result }
{
    let change = Change::Stop(number, stops.get(number));
    let mut gathered = settle_trains(alloc, track, store, engines, change)?;
    gathered.writes.set(Key::Stops, Some(Rec::Stops(stops)))?;
    let messages = SentList::from_vec(gathered.messages);
    Ok(Outcome::done(gathered.writes, messages))
}

/// Reads the trains and settles those that a new restriction can concern. `limits` already has it.
pub(crate) fn limit_begun<S: Reader>(
    alloc: Global,
    track: &Track,
    new: &Restriction,
    limits: Limits,
    store: &mut S,
) -> Result<Outcome, RuleFault>
    requires room { S.failed store.old + 1 < 2 ^ 64 }
    requires good { IsTrue (is_good_limit track.now new.now.segment new.now.speed) }
    requires begun { (w : World) → MayBe track.now (S.notes store.old) w
        → HasBegun new.now.number (limit_of new.now) w.limits limits }
    ensures { GivesOutcome track.now (S.notes store.old) (S.notes store.new) (S.failed store.old) (S.failed store.new)
        (λ w. settled_outcome track.now w.stops limits None w.trains key.Limits (rec.Limits limits)) result }
{
    let engines = fetch_list(alloc, line_of(track, &new.segment), store)?;
    settled_with_limits(alloc, track, new.number, limits, &engines, store)
}

/// Reads the trains and settles those that a restriction that has ended was told to. `limits` no longer has it.
pub(crate) fn limit_ended<S: Reader>(
    alloc: Global,
    track: &Track,
    number: u32,
    limits: Limits,
    store: &mut S,
) -> Result<Outcome, RuleFault>
    requires room { S.failed store.old + 1 < 2 ^ 64 }
    requires ended { (w : World) → MayBe track.now (S.notes store.old) w → limits ≡ with_less number w.limits }
    ensures { GivesOutcome track.now (S.notes store.old) (S.notes store.new) (S.failed store.old) (S.failed store.new)
        (λ w. settled_outcome track.now w.stops limits None w.trains key.Limits (rec.Limits limits)) result }
{
    let engines = fetch_told(alloc, Sought::ToldOfLimit(number), store)?;
    settled_with_limits(alloc, track, number, limits, &engines, store)
}

/// Settles the trains of these engines after a restriction has begun or ended, by the records that were read, and
/// writes the restrictions too.
fn settled_with_limits<S: Reader>(
    alloc: Global,
    track: &Track,
    number: u32,
    limits: Limits,
    engines: &Numbers,
    store: &S,
) -> Result<Outcome, RuleFault>
    requires trains { AreTrainsKnown (S.notes store.now) engines.now }
    requires few { length engines.now ≤ 9 * max_trains }
    requires changed { (w : World) → MayBe track.now (S.notes store.now) w → BeginsOrEnds number w.limits limits }
    requires enough { (w : World) → MayBe track.now (S.notes store.now) w
        → IsEnough track.now w.stops limits None w.trains engines.now }
    ensures { MakesOutcome track.now (S.notes store.now)
        (λ w. settled_outcome track.now w.stops limits None w.trains key.Limits (rec.Limits limits)) result }
{
    let change = Change::Limit(number, limits.get(number));
    let mut gathered = settle_trains(alloc, track, store, engines, change)?;
    gathered.writes.set(Key::Limits, Some(Rec::Limits(limits)))?;
    let messages = SentList::from_vec(gathered.messages);
    Ok(Outcome::done(gathered.writes, messages))
}
