//! The alarms that stand, followed from input to input.
//!
//! After an input only the trains that may have changed are looked at.

ghost use Rattle.std.specs.Prelude.{◌≡◌, ◌+◌, ◌<◌, ◌^◌, ◌||◌, ℕ, List, None, [], ◌∷◌, false, true, OnOk, IfOk, IfSome};
ghost use Rattle.std.specs.List.{flat_map};
ghost use Rattle.rbc_maps.specs.Maps.{has};
ghost use Rattle.rbc_settle.specs.Numbers.{AreNumbers, has_number, and_number};
ghost use Rattle.rbc_records.specs.declared.record.Key.{Key};
ghost use Rattle.rbc_records.specs.declared.record.Rec.{Rec};
ghost use Rattle.rbc_live.specs.Watching.{AreSeenLines, IsAlarmPart, IsWatch, IsWatchFor, StayBut, are_zones_written, may_alarm, none_seen};
ghost use Rattle.rbc_live.specs.Watching.{engine_of, is_train_written, is_zone, or_none, seen_in, seen_lines, seen_of};
ghost use Rattle.rbc_live.specs.Watching.{seen_with};

use crate::alarm::{Alarm, alarms_at, push_changes};
use crate::desk::LiveDesk;
use crate::record_lookup::{active_limits, active_stops, train_in};
use crate::waiting::lacks_something;
use crate::wanted::Wanted;
use indexmap::IndexMap;
use rbc_records::{Key, PlainStore, Writes};
use rbc_settle::{Numbers, TrainRec};
use std::alloc::{AllocError, Global};
use std::marker::Model;

/// The alarms of one train, in their order.
#[derive(Drop)]
pub struct AlarmList {
    all: Vec<Alarm>,
}

impl Model for AlarmList {
    ghost use Rattle.std.specs.Prelude.{List};
    ghost use Rattle.rbc_live.specs.declared.alarm.Alarm.{Alarm};

    ghost Value = { List Alarm };

    ghost view = { λ list. list.all.items };
}

impl AlarmList {
    /// The alarms.
    pub(crate) fn as_slice(&self) -> &[Alarm]
        ensures { result.now ≡ self.now }
    {
        &self.all
    }
}

/// The alarms of the trains that may have any, as they are after the inputs that were followed. A train may have alarms
/// only while it has no place, all its identifiers of a kind are held, or no stamp is left for it.
#[derive(Drop)]
pub struct Watch {
    alarms: IndexMap<u32, AlarmList>,
}

impl Model for Watch {
    ghost use Rattle.std.specs.Prelude.{ℕ, List};
    ghost use Rattle.rbc_live.specs.declared.alarm.Alarm.{Alarm};

    ghost Value = { List (ℕ × List Alarm) };

    ghost view = { λ watch. watch.alarms.entries };
}

/// Whether a train may have alarms: it has no place, or it lacks something for a message.
fn may_alarm(train: &TrainRec) -> bool
    ensures { result ≡ may_alarm train.now }
{
    train.place.is_none() || lacks_something(train)
}

/// The alarms of the train with this engine number, if it is enrolled and may have any.
pub(crate) fn seen_of(
    alloc: Global,
    horizon: u32,
    records: &PlainStore,
    engine: u32,
) -> Result<Option<AlarmList>, AllocError>
    ensures { IfOk result (λ seen. seen ≡ seen_of horizon records.now engine) }
{
    match train_in(records, engine) {
        Some(train) if may_alarm(train) => {
            let (stops, limits) = (active_stops(records), active_limits(records));
            let all = alarms_at(alloc, horizon, stops, limits, train)?;
            Ok(Some(AlarmList { all }))
        }
        _ => Ok(None),
    }
}

/// Whether a key is that of the active stops or restrictions.
fn is_zone(key: Key) -> bool
    ensures { result ≡ is_zone key }
{
    match key {
        Key::Stops | Key::Limits => true,
        Key::Roster | Key::Train(_) | Key::Line(_) | Key::Unplaced => false,
    }
}

/// The engine number of a train's key.
fn engine_of(key: Key) -> Option<u32>
    ensures { result ≡ engine_of key }
{
    match key {
        Key::Train(engine) => Some(engine),
        Key::Roster | Key::Stops | Key::Limits | Key::Line(_) | Key::Unplaced => None,
    }
}

/// Whether the active stops or restrictions are written.
fn are_zones_written(writes: &Writes) -> bool
    ensures { result ≡ are_zones_written writes.now }
{
    for index in 0..writes.len() {
        if is_zone(writes.at(index).0) {
            return true;
        }
    }
    false
}

/// The engine of the train that is written, if nothing else is.
fn only_train_written(writes: &Writes) -> Option<u32>
    ensures trains { IfSome result (λ engine. (other : ℕ) → has_number (engine ∷ []) other ≡ false
        → is_train_written writes.now other ≡ false) }
    ensures zones { IfSome result (λ engine. are_zones_written writes.now ≡ false) }
{
    if writes.len() == 1 {
        engine_of(writes.at(0).0)
    } else {
        None
    }
}

/// The engines of the trains that are written.
fn trains_written(alloc: Global, writes: &Writes) -> Result<Numbers, AllocError>
    ensures { IfOk result (λ engines. (engine : ℕ) → has_number engines engine ≡ is_train_written writes.now engine) }
{
    let mut engines = Numbers::new(alloc);
    for index in 0..writes.len() {
        if let Some(engine) = engine_of(writes.at(index).0) {
            note(&mut engines, engine)?;
        }
    }
    Ok(engines)
}

/// Adds a number, unless it is already there.
fn note(engines: &mut Numbers, engine: u32) -> Result<(), AllocError>
    ensures { OnOk result (engines.new ≡ and_number engine engines.old) }
{
    if engines.has(engine) {
        return Ok(());
    }
    engines.add(engine)
}

impl Watch {
    /// Begins with no train enrolled.
    pub fn new(alloc: Global) -> Self
        ensures { result ≡ [] }
    {
        Watch {
            alarms: IndexMap::new(alloc),
        }
    }

    /// The alarms that are kept of a train, or none.
    fn alarms_of(&self, engine: u32) -> &[Alarm]
        ensures { result.now ≡ or_none (seen_in self.now engine) }
    {
        match self.alarms.get(&engine) {
            Some(list) => list.as_slice(),
            None => &[],
        }
    }

    /// Keeps these alarms of a train, or none.
    fn keep(&mut self, engine: u32, alarms: Option<AlarmList>) -> Result<(), AllocError>
        ensures { OnOk result ((other : ℕ) → seen_in self.new other
            ≡ seen_with engine alarms (seen_in self.old) other) }
    {
        match alarms {
            Some(list) => {
                self.alarms.insert(engine, list)?;
            }
            None => {
                let _ = self.alarms.swap_remove(&engine);
            }
        }
        Ok(())
    }

    /// Adds the engines of the trains whose alarms are kept.
    fn note_kept(&self, engines: &mut Numbers) -> Result<(), AllocError>
        ensures { OnOk result ((engine : ℕ) → has_number engines.new engine
            ≡ has_number engines.old engine || has self.now engine) }
    {
        for index in 0..self.alarms.len() {
            let (engine, _) = self.alarms.get_index(index).unwrap();
            note(engines, *engine)?;
        }
        Ok(())
    }

    /// The trains whose alarms may have changed after writes: the trains that are written and, if the active stops or
    /// restrictions are written, also all trains whose alarms are kept.
    fn concerned_by(&self, alloc: Global, writes: &Writes) -> Result<Numbers, AllocError>
        ensures trains { IfOk result (λ engines. (engine : ℕ) → has_number engines engine ≡ false
            → is_train_written writes.now engine ≡ false) }
        ensures zones { IfOk result (λ engines. are_zones_written writes.now ≡ true → (engine : ℕ)
            → has_number engines engine ≡ false → has self.now engine ≡ false) }
    {
        let mut engines = trains_written(alloc, writes)?;
        if are_zones_written(writes) {
            self.note_kept(&mut engines)?;
        }
        Ok(engines)
    }

    /// Updates the alarms of some trains to the present records, and returns the lines of those that change.
    fn see_all(
        &mut self,
        alloc: Global,
        horizon: u32,
        records: &PlainStore,
        engines: &[u32],
        input: u64,
    ) -> Result<Vec<u8>, AllocError>
        requires { AreNumbers engines.now }
        ensures seen { OnOk result ((engine : ℕ) → has_number engines.now engine ≡ true
            → seen_in self.new engine ≡ seen_of horizon records.now engine) }
        ensures others { OnOk result ((engine : ℕ) → has_number engines.now engine ≡ false
            → seen_in self.new engine ≡ seen_in self.old engine) }
        ensures lines { IfOk result (λ text. text.items
            ≡ flat_map (seen_lines input (seen_in self.old) (seen_of horizon records.now)) engines.now) }
    {
        let mut text = Vec::new(alloc);
        for engine in engines {
            let alarms = seen_of(alloc, horizon, records, *engine)?;
            let new = match &alarms {
                Some(list) => list.as_slice(),
                None => &[],
            };
            push_changes(&mut text, input, *engine, self.alarms_of(*engine), new)?;
            self.keep(*engine, alarms)?;
        }
        Ok(text)
    }

    /// Follows an input to the records that its writes led to; only the keys of the writes are looked at. Returns the
    /// lines of the alarms that change. After an error the watch is of no further use.
    pub fn follow(
        &mut self,
        alloc: Global,
        horizon: u32,
        records: &PlainStore,
        writes: &Writes,
        input: u64,
    ) -> Result<Vec<u8>, AllocError>
        ensures watch { (before : List (Key × Rec)) → IsWatch horizon before self.old
            → StayBut writes.now before records.now → OnOk result (IsWatch horizon records.now self.new) }
        ensures lines { (before : List (Key × Rec)) → IsWatch horizon before self.old
            → StayBut writes.now before records.now → IfOk result (λ text.
            AreSeenLines input (seen_of horizon before) (seen_of horizon records.now) text.items) }
    {
        if let Some(engine) = only_train_written(writes) {
            return self.see_all(alloc, horizon, records, &[engine], input);
        }
        let engines = self.concerned_by(alloc, writes)?;
        self.see_all(alloc, horizon, records, engines.as_slice(), input)
    }

    /// A line for each alarm that stands, as raised by an input.
    pub fn standing(&self, alloc: Global, input: u64) -> Result<Vec<u8>, AllocError>
        ensures { IfOk result (λ text. AreSeenLines input none_seen (seen_in self.now) text.items) }
    {
        let mut engines = Numbers::new(alloc);
        self.note_kept(&mut engines)?;
        let mut text = Vec::new(alloc);
        for engine in engines.as_slice() {
            push_changes(&mut text, input, *engine, &[], self.alarms_of(*engine))?;
        }
        Ok(text)
    }
}

/// A watch, if alarms are wanted.
pub(crate) fn watch_for(alloc: Global, wanted: Wanted) -> Option<Watch>
    ensures { (horizon : ℕ) → IsWatchFor wanted.alarms horizon [] result }
{
    if wanted.alarms {
        Some(Watch::new(alloc))
    } else {
        None
    }
}

/// The alarm lines that are written with the answer to an input, whose writes led to the records of a desk. If alarms
/// are wanted, the watch follows the input.
pub(crate) fn alarm_part(
    alloc: Global,
    watch: &mut Option<Watch>,
    desk: &LiveDesk,
    writes: &Writes,
    input: u64,
    wanted: Wanted,
) -> Result<Vec<u8>, AllocError>
    requires { input + 1 < 2 ^ 64 }
    ensures watch { (before : List (Key × Rec))
        → IsWatchFor wanted.alarms desk.now.track.horizon before watch.old → StayBut writes.now before desk.now.records
        → OnOk result (IsWatchFor wanted.alarms desk.now.track.horizon desk.now.records watch.new) }
    ensures part { (before : List (Key × Rec))
        → IsWatchFor wanted.alarms desk.now.track.horizon before watch.old → StayBut writes.now before desk.now.records
        → IfOk result (λ text. IsAlarmPart wanted input (seen_of desk.now.track.horizon before)
        (seen_of desk.now.track.horizon desk.now.records) text.items) }
{
    let Some(watch) = watch else {
        return Ok(Vec::new(alloc));
    };
    let horizon = desk.track.horizon();
    let changed = watch.follow(alloc, horizon, &desk.records, writes, input)?;
    if input >= wanted.from {
        Ok(changed)
    } else if input + 1 == wanted.from {
        watch.standing(alloc, input)
    } else {
        Ok(Vec::new(alloc))
    }
}
