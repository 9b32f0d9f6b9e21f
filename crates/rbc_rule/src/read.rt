//! Looks up records that were read.

ghost use Rattle.std.specs.Prelude.{◌≡◌, ◌≤◌, [], IsTrue, IfOk, IfErr, option_copied, length};
ghost use Rattle.rbc_track.specs.Plan.{Plan};
ghost use Rattle.rbc_maps.specs.Maps.{value_of};
ghost use Rattle.rbc_maps.specs.Numbered.{none_numbered};
ghost use Rattle.rbc_records.specs.declared.record.Key.TheVariants as key;
ghost use Rattle.rbc_records.specs.Notes.{knows, noted};
ghost use Rattle.rbc_rule.specs.Bounds.{max_trains};
ghost use Rattle.rbc_rule.specs.World.{World};
ghost use Rattle.rbc_rule.specs.Right.{MayBe};
ghost use Rattle.rbc_rule.specs.Faults.{IsFaultOf};
ghost use Rattle.rbc_rule.specs.Lists.{engines_at, is_list};

use crate::maxima::MAX_TRAINS;
use crate::outcome::RuleFault;
use rbc_records::{Key, Reader, Rec};
use rbc_settle::{Numbers, TrainRec};
use rbc_zones::{Limits, Stops};

/// Returns the engines of a list, or `nobody`, which the caller lends, if the list has no record.
pub fn engines<'a, S: Reader>(
    store: &'a S,
    list: Key,
    nobody: &'a Numbers,
) -> Result<&'a Numbers, RuleFault>
    requires known { IsTrue (knows (S.notes store.now) list) }
    requires list { IsTrue (is_list list) }
    requires nobody { nobody.now ≡ [] }
    ensures engines { IfOk result (λ engines. (plan : Plan) (w : World) → MayBe plan (S.notes store.now) w
        → engines.now ≡ engines_at w list) }
    ensures few { IfOk result (λ engines. length engines.now ≤ max_trains) }
    ensures fault { (plan : Plan) → IfErr result (λ fault. IsFaultOf plan fault (S.notes store.now)) }
{
    match store.seen(list) {
        None => Ok(nobody),
        Some(Rec::Engines(engines)) if engines.len() > MAX_TRAINS => Err(RuleFault::Torn),
        Some(Rec::Engines(engines)) => Ok(engines),
        Some(Rec::Train(_) | Rec::Stops(_) | Rec::Limits(_)) => Err(RuleFault::Torn),
    }
}

/// Returns the train with this engine number, if it is enrolled.
pub fn train<S: Reader>(store: &S, engine: u32) -> Result<Option<&TrainRec>, RuleFault>
    requires { IsTrue (knows (S.notes store.now) (key.Train engine)) }
    ensures train { IfOk result (λ train. (plan : Plan) (w : World) → MayBe plan (S.notes store.now) w
        → option_copied train ≡ value_of w.trains engine) }
    ensures fault { (plan : Plan) → IfErr result (λ fault. IsFaultOf plan fault (S.notes store.now)) }
{
    match store.seen(Key::Train(engine)) {
        None => Ok(None),
        Some(Rec::Train(train)) => Ok(Some(train)),
        Some(_) => Err(RuleFault::Torn),
    }
}

/// Returns the stops, or `none`, which the caller lends, if there never was one.
pub fn stops<'a, S: Reader>(store: &'a S, none: &'a Stops) -> Result<&'a Stops, RuleFault>
    requires known { IsTrue (knows (S.notes store.now) key.Stops) }
    requires none { none.now ≡ none_numbered }
    ensures stops { IfOk result (λ stops. (plan : Plan) (w : World) → MayBe plan (S.notes store.now) w
        → stops.now ≡ w.stops) }
    ensures fault { (plan : Plan) → IfErr result (λ fault. IsFaultOf plan fault (S.notes store.now)) }
{
    match store.seen(Key::Stops) {
        None => Ok(none),
        Some(Rec::Stops(stops)) => Ok(stops),
        Some(_) => Err(RuleFault::Torn),
    }
}

/// Returns the restrictions, or `none`, which the caller lends, if there never was one.
pub fn limits<'a, S: Reader>(store: &'a S, none: &'a Limits) -> Result<&'a Limits, RuleFault>
    requires known { IsTrue (knows (S.notes store.now) key.Limits) }
    requires none { none.now ≡ none_numbered }
    ensures limits { IfOk result (λ limits. (plan : Plan) (w : World) → MayBe plan (S.notes store.now) w
        → limits.now ≡ w.limits) }
    ensures fault { (plan : Plan) → IfErr result (λ fault. IsFaultOf plan fault (S.notes store.now)) }
{
    match store.seen(Key::Limits) {
        None => Ok(none),
        Some(Rec::Limits(limits)) => Ok(limits),
        Some(_) => Err(RuleFault::Torn),
    }
}

/// Returns the stops and the restrictions, or what the caller lends for those of which there never was one.
pub fn stops_and_limits<'a, S: Reader>(
    store: &'a S,
    no_stops: &'a Stops,
    no_limits: &'a Limits,
) -> Result<(&'a Stops, &'a Limits), RuleFault>
    requires stops_known { IsTrue (knows (S.notes store.now) key.Stops) }
    requires limits_known { IsTrue (knows (S.notes store.now) key.Limits) }
    requires no_stops { no_stops.now ≡ none_numbered }
    requires no_limits { no_limits.now ≡ none_numbered }
    ensures stops { IfOk result (λ both. (plan : Plan) (w : World) → MayBe plan (S.notes store.now) w
        → both.0.now ≡ w.stops) }
    ensures limits { IfOk result (λ both. (plan : Plan) (w : World) → MayBe plan (S.notes store.now) w
        → both.1.now ≡ w.limits) }
    ensures fault { (plan : Plan) → IfErr result (λ fault. IsFaultOf plan fault (S.notes store.now)) }
{
    let stops = stops(store, no_stops)?;
    let limits = limits(store, no_limits)?;
    Ok((stops, limits))
}
