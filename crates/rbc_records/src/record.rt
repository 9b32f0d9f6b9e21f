//! Keys and records.

ghost use Rattle.std.specs.Prelude.{◌≡◌, IfOk};

use rbc_settle::{Limits, Numbers, Stops, TrainRec};
use std::alloc::{AllocError, Global};

/// The key under which a record is kept.
#[derive(Clone, Copy, Debug, PartialEq, Eq, Hash)]
pub enum Key {
    /// The list of enrolled engines.
    Roster,
    /// The train with this engine number (NID_ENGINE).
    Train(u32),
    /// The emergency stops.
    Stops,
    /// The temporary speed restrictions.
    Limits,
    /// The engines of the trains that are placed on the line with this number.
    Line(u8),
    /// The engines of the trains that have no place.
    Unplaced,
}

/// A record.
#[derive(Drop)]
pub enum Rec {
    /// Numbers of engines, ascending.
    Engines(Numbers),
    /// What is known of one train.
    Train(TrainRec),
    /// The active emergency stops, and the last number given to a stop.
    Stops(Stops),
    /// The active temporary speed restrictions, and the last number given to a restriction.
    Limits(Limits),
}

impl Rec {
    /// Copies the record.
    pub fn copy(&self, alloc: Global) -> Result<Self, AllocError>
        ensures { IfOk result (λ copy. copy ≡ self.now) }
    {
        match self {
            Rec::Engines(engines) => Ok(Rec::Engines(engines.copy(alloc)?)),
            Rec::Train(train) => Ok(Rec::Train(train.copy(alloc)?)),
            Rec::Stops(stops) => Ok(Rec::Stops(stops.copy(alloc)?)),
            Rec::Limits(limits) => Ok(Rec::Limits(limits.copy(alloc)?)),
        }
    }
}
