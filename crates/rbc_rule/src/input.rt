//! Inputs.

ghost use Rattle.std.specs.Prelude.{◌≡◌, ◌↔◌, ◌∷◌, ◌++◌, [], OnOk, OnErr, IsTrue};
ghost use Rattle.rbc_rule.specs.Inputs.{Fits};

use crate::maxima::{MAX_ENGINE, MAX_LENGTH};
use ertms_codec::FromTrain;
use rbc_zones::{Dirs, Segment};
use std::alloc::{AllocError, Global};
use std::marker::Model;

/// The greatest code of a bad line (own rule).
const MAX_BAD: u8 = 6;

/// The segments of a stop, in the order in which they were given. Contracts see a list.
#[derive(Drop)]
pub struct Segments {
    all: Vec<Segment>,
}

impl Model for Segments {
    ghost use Rattle.std.specs.Prelude.{List};
    ghost use Rattle.rbc_zones.specs.declared.segment.Segment.{Segment};

    ghost Value = { List Segment };

    ghost view = { λ segments. segments.all.items };
}

impl Segments {
    /// Makes an empty list.
    pub fn new(alloc: Global) -> Self
        ensures { result ≡ [] }
    {
        Segments {
            all: Vec::new(alloc),
        }
    }

    /// Adds a segment at the end. An error changes nothing.
    pub fn push(&mut self, segment: Segment) -> Result<(), AllocError>
        ensures ok { OnOk result (self.new ≡ self.old ++ segment ∷ []) }
        ensures err { OnErr result (self.new ≡ self.old) }
    {
        self.all.push(segment)?;
        Ok(())
    }

    /// Returns the segments in the order in which they were given.
    pub fn as_slice(&self) -> &[Segment]
        ensures { result.now ≡ self.now }
    {
        self.all.as_slice()
    }
}

/// An input: an enrolment, a command of the signaller, or a message from a train.
#[derive(Drop)]
pub enum Input {
    /// A train is enrolled: its engine number, at most 16,777,215, and its length, 1 to 40,000 units of 10 cm.
    Enrol {
        engine: u32,
        length: u32,
    },
    /// A train is withdrawn.
    Withdraw {
        engine: u32,
    },
    /// The signaller closes an area of 1 to 8 segments at once. The number has to be above that of each earlier stop.
    Stop {
        number: u32,
        segments: Segments,
    },
    /// The signaller opens the area of a stop again.
    Release {
        number: u32,
    },
    /// The signaller restricts the speed on a segment, in km/h, for trains that face these directions. The number has
    /// to be above that of each earlier restriction. `front` is Q_FRONT: true if the restriction ends as soon as the
    /// train's front has left it.
    Restrict {
        number: u32,
        segment: Segment,
        dirs: Dirs,
        speed: u32,
        front: bool,
    },
    /// The signaller lifts a restriction.
    Lift {
        number: u32,
    },
    /// A message from a train.
    Received(FromTrain),
    /// A line that is not an input, with its refusal code, 1 to 6 (`Refusal::code`).
    Bad(u8),
}

impl Input {
    /// Whether each number is in the range stated above and a stop has at least one segment.
    pub fn fits(&self) -> bool
        ensures { IsTrue result ↔ Fits self.now }
    {
        match self {
            Input::Enrol { engine, length } => {
                *engine <= MAX_ENGINE && 1 <= *length && *length <= MAX_LENGTH
            }
            Input::Withdraw { engine } => *engine <= MAX_ENGINE,
            Input::Stop { segments, .. } => !segments.as_slice().is_empty(),
            Input::Bad(code) => 1 <= *code && *code <= MAX_BAD,
            Input::Release { .. }
            | Input::Restrict { .. }
            | Input::Lift { .. }
            | Input::Received(_) => true,
        }
    }
}
