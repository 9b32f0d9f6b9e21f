//! Alarms as C has them.

ghost use Rattle.std.specs.Prelude.{◌≡◌, IfOk, map};
ghost use Rattle.rbc_c.specs.Alarms.{alarm_of};

use crate::given::Entry;
use rbc_live::{Alarm as Stands, LiveDesk};
use std::alloc::{AllocError, Global};

/// An alarm that stands.
#[repr(C)]
#[derive(Clone, Copy, Drop)]
pub struct Alarm {
    /// NID_ENGINE of the train.
    pub engine: u32,
    /// 0 no place, 1 a stop, 2 a restriction, 3 an answer.
    pub kind: u32,
    /// The number of the stop or the restriction; 0 if the train has no place.
    pub number: u32,
}

/// An alarm of a train, as C has it.
fn alarm_of(engine: u32, alarm: Stands) -> Alarm
    ensures { result ≡ alarm_of (engine, alarm) }
{
    Alarm {
        engine,
        kind: u32::from(alarm.kind()),
        number: alarm.number(),
    }
}

/// Alarms as C has them.
fn alarms_of(alloc: Global, alarms: &[(u32, Stands)]) -> Result<Vec<Alarm>, AllocError>
    ensures { IfOk result (λ all. all.items ≡ map alarm_of alarms.now) }
{
    alarms
        .iter()
        .map(|stands| alarm_of(stands.0, stands.1))
        .collect(alloc)
}

impl Entry for Alarm {
    ghost use Rattle.rbc_c.specs.Alarms.{AreAlarms};

    ghost is_of = { AreAlarms };

    fn list(desk: &LiveDesk, alloc: Global) -> Result<Vec<Alarm>, AllocError> {
        let alarms = desk.alarms(alloc)?;
        alarms_of(alloc, alarms.as_slice())
    }
}
