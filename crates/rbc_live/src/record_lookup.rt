//! Looking up records.

ghost use Rattle.std.specs.Prelude.{◌≡◌, option_copied};
ghost use Rattle.rbc_records.specs.declared.record.Key.TheVariants as key;
ghost use Rattle.rbc_records.specs.Notes.{record_in};
ghost use Rattle.rbc_maps.specs.Maps.{value_of};
ghost use Rattle.rbc_live.specs.Known.{train_in, active_stops, active_limits, last_stop, last_limit, engines_in};

use rbc_records::{Key, PlainStore, Rec};
use rbc_settle::TrainRec;
use rbc_zones::{Area, Limit};

/// The train with this engine number, if it is enrolled.
pub fn train_in(records: &PlainStore, engine: u32) -> Option<&TrainRec>
    ensures { option_copied result ≡ train_in records.now engine }
{
    match records.get(Key::Train(engine)) {
        Some(Rec::Train(train)) => Some(train),
        _ => None,
    }
}

/// The engines that are enrolled, ascending.
pub fn engines_in(records: &PlainStore) -> &[u32]
    ensures { result.now ≡ engines_in records.now }
{
    match records.get(Key::Roster) {
        Some(Rec::Engines(engines)) => engines.as_slice(),
        _ => &[],
    }
}

/// The active stops with their numbers, ascending.
pub fn active_stops(records: &PlainStore) -> &[(u32, Area)]
    ensures { result.now ≡ active_stops records.now }
{
    match records.get(Key::Stops) {
        Some(Rec::Stops(stops)) => stops.active(),
        _ => &[],
    }
}

/// The active restrictions with their numbers, ascending.
pub fn active_limits(records: &PlainStore) -> &[(u32, Limit)]
    ensures { result.now ≡ active_limits records.now }
{
    match records.get(Key::Limits) {
        Some(Rec::Limits(limits)) => limits.active(),
        _ => &[],
    }
}

/// The last number that was given to a stop, or 0 if none was.
pub fn last_stop(records: &PlainStore) -> u32
    ensures { result ≡ last_stop records.now }
{
    match records.get(Key::Stops) {
        Some(Rec::Stops(stops)) => stops.last(),
        _ => 0,
    }
}

/// The last number that was given to a restriction, or 0 if none was.
pub fn last_limit(records: &PlainStore) -> u32
    ensures { result ≡ last_limit records.now }
{
    match records.get(Key::Limits) {
        Some(Rec::Limits(limits)) => limits.last(),
        _ => 0,
    }
}

/// The area of a stop, if it is active.
pub fn active_stop(records: &PlainStore, number: u32) -> Option<&Area>
    ensures { option_copied result ≡ value_of (active_stops records.now) number }
{
    match records.get(Key::Stops) {
        Some(Rec::Stops(stops)) => stops.get(number),
        _ => None,
    }
}

/// A restriction, if it is active.
pub fn active_limit(records: &PlainStore, number: u32) -> Option<&Limit>
    ensures { option_copied result ≡ value_of (active_limits records.now) number }
{
    match records.get(Key::Limits) {
        Some(Rec::Limits(limits)) => limits.get(number),
        _ => None,
    }
}
