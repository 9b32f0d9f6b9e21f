//! What is known of one train, and a change to its stops.

ghost use Rattle.std.specs.Prelude.{◌≡◌, ◌+◌, ◌^◌, ◌<◌, IfOk, OnOk, OnErr, IsTrue, IsFalse, Some, None};
ghost use Rattle.rbc_settle.specs.Actions.{ChangesStop};
ghost use Rattle.rbc_settle.specs.Following.{Allows};
ghost use Rattle.rbc_settle.specs.Settling.{kind_of, and_forced, carried_out};
ghost use Rattle.rbc_settle.specs.Trains.{after_ack, new_train};

use crate::change::{StopChange, ToldStop};
use crate::numbers::Numbers;
use rbc_ids::{IdTable, Kind, StampAck};
use rbc_zones::Place;
use std::alloc::{AllocError, Global};

/// How many stop identifiers (NID_EM) a train has.
pub const STOP_IDENTIFIERS: usize = 15;

/// How many restriction identifiers (NID_TSR) a train has.
pub const LIMIT_IDENTIFIERS: usize = 255;

/// An enrolled train.
#[derive(Drop)]
pub struct TrainRec {
    /// The number of its on-board equipment (NID_ENGINE).
    pub engine: u32,
    /// Its length in units of 10 cm, from its enrolment.
    pub length: u32,
    /// The later of T_TRAIN of the last message to it and T_TRAIN of its own messages, in units of 10 ms.
    pub stamp: u32,
    /// The interval in which it stands, if that is known.
    pub place: Option<Place>,
    /// The numbers of the stops that it rejected, or did not answer. Each of them is told as a stop at once.
    pub forced: Numbers,
    /// Its stop identifiers (NID_EM), 0 to 14.
    pub stops: IdTable<15>,
    /// Its restriction identifiers (NID_TSR), 0 to 254.
    pub limits: IdTable<255>,
}

impl TrainRec {
    /// Makes the record of a train without a place, to which nothing was told. The length is in units of 10 cm, the
    /// stamp in units of 10 ms.
    pub fn new(alloc: Global, engine: u32, length: u32, stamp: u32) -> Self
        ensures { result ≡ new_train engine length stamp }
    {
        TrainRec {
            engine,
            length,
            stamp,
            place: None,
            forced: Numbers::new(alloc),
            stops: IdTable::new(alloc),
            limits: IdTable::new(alloc),
        }
    }

    /// Copies the record.
    pub fn copy(&self, alloc: Global) -> Result<Self, AllocError>
        ensures { IfOk result (λ copy. copy ≡ self.now) }
    {
        Ok(TrainRec {
            engine: self.engine,
            length: self.length,
            stamp: self.stamp,
            place: self.place,
            forced: self.forced.copy(alloc)?,
            stops: self.stops.copy(alloc)?,
            limits: self.limits.copy(alloc)?,
        })
    }

    /// Copies the record into the memory of one that is no longer needed, if there is one.
    pub fn copy_over(&self, alloc: Global, spare: Option<Self>) -> Result<Self, AllocError>
        ensures { IfOk result (λ copy. copy ≡ self.now) }
    {
        let Some(mut copy) = spare else {
            return self.copy(alloc);
        };
        copy.forced.copy_from(&self.forced)?;
        copy.stops.copy_from(&self.stops)?;
        copy.limits.copy_from(&self.limits)?;
        Ok(TrainRec {
            engine: self.engine,
            length: self.length,
            stamp: self.stamp,
            place: self.place,
            forced: copy.forced,
            stops: copy.stops,
            limits: copy.limits,
        })
    }

    /// Takes the train's acknowledgement of the message with this stamp (own rule). It is looked up among the stops
    /// first, and then among the restrictions. Returns whether there was something to acknowledge; if not, nothing
    /// changes.
    pub fn acknowledge(&mut self, stamp: u32) -> bool
        ensures acked { IsTrue result → after_ack stamp self.old ≡ Some self.new }
        ensures nothing { IsFalse result → self.new ≡ self.old }
        ensures refused { IsFalse result → after_ack stamp self.old ≡ None }
    {
        match self.stops.ack_stamp(stamp) {
            StampAck::Answered { .. } => true,
            StampAck::Nothing => match self.limits.ack_stamp(stamp) {
                StampAck::Answered { .. } => true,
                StampAck::Nothing => false,
            },
        }
    }

    /// Makes a change to the stops, under the identifier that it names.
    pub fn change_stop(&mut self, change: &StopChange) -> Result<(), AllocError>
        requires stamp { self.old.stamp + 1 < 2 ^ 32 }
        requires allowed { Allows self.old (ChangesStop change.now) }
        ensures { OnOk result (self.new ≡ carried_out self.old (ChangesStop change.now)) }
    {
        let stamp = self.stamp + 1;
        match *change {
            StopChange::Revoke { id, number } => {
                self.force(number)?;
                self.stops.revoke(id, stamp)
            }
            StopChange::Tell { id, number, told } => {
                self.stops.tell(id, number, stamp, kind_of(told))?
            }
        }
        self.stamp = stamp;
        Ok(())
    }

    /// Adds a number, if there is one, to those that the train is told at once. An error leaves the train as it was.
    fn force(&mut self, number: Option<u32>) -> Result<(), AllocError>
        ensures ok { OnOk result (self.new ≡ record self.old { forced = and_forced number self.old.forced }) }
        ensures err { OnErr result (self.new ≡ self.old) }
    {
        match number {
            Some(number) if !self.forced.has(number) => self.forced.add(number),
            _ => Ok(()),
        }
    }
}

/// Returns the kind of message that tells a stop.
fn kind_of(told: ToldStop) -> Kind
    ensures { result ≡ kind_of told }
{
    match told {
        ToldStop::AtOnce => Kind::Unconditional,
        ToldStop::Before(_) => Kind::Conditional,
    }
}
