//! The alarms that stand on a desk.

ghost use Rattle.std.specs.Prelude.{◌≡◌, IfOk};
ghost use Rattle.std.specs.List.{flat_map};
ghost use Rattle.rbc_live.specs.Known.{engines_in};
ghost use Rattle.rbc_live.specs.Alarms.{with_engine};
ghost use Rattle.rbc_live.specs.Watching.{AreAlarmsOn, or_none, seen_of};

use crate::alarm::Alarm;
use crate::desk::LiveDesk;
use crate::record_lookup::engines_in;
use crate::watch::seen_of;
use rbc_records::PlainStore;
use std::alloc::{AllocError, Global};

impl LiveDesk {
    /// The alarms that stand, each with the engine number of its train: engines ascending, and those of one train in
    /// their order.
    pub fn alarms(&self, alloc: Global) -> Result<Vec<(u32, Alarm)>, AllocError>
        ensures { IfOk result (λ alarms. AreAlarmsOn self.now.track self.now.records alarms.items) }
    {
        alarms_in(alloc, self.track.horizon(), &self.records)
    }
}

/// The alarms of all trains, by records.
fn alarms_in(
    alloc: Global,
    horizon: u32,
    records: &PlainStore,
) -> Result<Vec<(u32, Alarm)>, AllocError>
    ensures { IfOk result (λ alarms. alarms.items ≡ flat_map
        (λ engine. with_engine engine (or_none (seen_of horizon records.now engine))) (engines_in records.now)) }
{
    let mut all = Vec::new(alloc);
    for engine in engines_in(records) {
        all.append(&mut alarms_of(alloc, horizon, records, *engine)?)?;
    }
    Ok(all)
}

/// The alarms of the train with this engine number, each with that number.
fn alarms_of(
    alloc: Global,
    horizon: u32,
    records: &PlainStore,
    engine: u32,
) -> Result<Vec<(u32, Alarm)>, AllocError>
    ensures { IfOk result (λ alarms. alarms.items ≡ with_engine engine (or_none (seen_of horizon records.now engine))) }
{
    match seen_of(alloc, horizon, records, engine)? {
        Some(list) => with_engine(alloc, engine, list.as_slice()),
        None => Ok(Vec::new(alloc)),
    }
}

/// Alarms with the engine number of their train.
fn with_engine(
    alloc: Global,
    engine: u32,
    alarms: &[Alarm],
) -> Result<Vec<(u32, Alarm)>, AllocError>
    ensures { IfOk result (λ all. all.items ≡ with_engine engine alarms.now) }
{
    alarms.iter().map(|alarm| (engine, *alarm)).collect(alloc)
}
