//! Trains as C has them.

ghost use Rattle.std.specs.Prelude.{◌≡◌, IfOk};
ghost use Rattle.rbc_c.specs.Trains.{AreTrains, code_of_way, train_at, train_of};

use crate::given::Entry;
use rbc_live::{LiveDesk, engines_in, train_in};
use rbc_settle::TrainRec;
use rbc_zones::Way;
use std::alloc::{AllocError, Global};

/// A train that is enrolled. Places and lengths are in units of 10 cm.
#[repr(C)]
#[derive(Clone, Copy, Drop)]
pub struct Train {
    /// NID_ENGINE.
    pub engine: u32,
    /// Its length, from its enrolment.
    pub length: u32,
    /// The later of T_TRAIN of the last message to it and T_TRAIN of its own messages, in units of 10 ms.
    pub stamp: u32,
    /// 1 if its place is known; if it is 0, so are the next four fields.
    pub placed: u32,
    /// The number of its line.
    pub line: u32,
    /// The lowest place at which a part of it may stand.
    pub from: u32,
    /// The highest such place.
    pub to: u32,
    /// How it faces: 0 down, 1 up.
    pub facing: u32,
    /// How many of its stop identifiers are held.
    pub stops: u32,
    /// How many of its restriction identifiers are held.
    pub restrictions: u32,
}

/// The code of a way.
pub fn code_of_way(way: Way) -> u32
    ensures { result ≡ code_of_way way }
{
    match way {
        Way::Down => 0,
        Way::Up => 1,
    }
}

/// A train with the number of its engine, as C has it.
fn train_at(engine: u32, train: &TrainRec) -> Train
    ensures { result ≡ train_at engine train.now train.now.place }
{
    let unplaced = Train {
        engine,
        length: train.length,
        stamp: train.stamp,
        placed: 0,
        line: 0,
        from: 0,
        to: 0,
        facing: 0,
        stops: train.stops.held() as u32,
        restrictions: train.limits.held() as u32,
    };
    match &train.place {
        None => unplaced,
        Some(place) => Train {
            placed: 1,
            line: u32::from(place.line()),
            from: place.lo(),
            to: place.hi(),
            facing: code_of_way(place.facing()),
            ..unplaced
        },
    }
}

/// The train with an engine number, if it is enrolled.
fn train_of(desk: &LiveDesk, engine: u32) -> Option<Train>
    ensures { result ≡ train_of desk.now engine }
{
    match train_in(&desk.records, engine) {
        Some(train) => Some(train_at(engine, train)),
        None => None,
    }
}

impl Entry for Train {
    ghost use Rattle.rbc_c.specs.Trains.{AreTrains};

    ghost is_of = { AreTrains };

    fn list(desk: &LiveDesk, alloc: Global) -> Result<Vec<Train>, AllocError> {
        engines_in(&desk.records)
            .iter()
            .filter_map(|engine| train_of(desk, *engine))
            .collect(alloc)
    }
}
