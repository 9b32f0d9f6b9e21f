//! What an input did.

ghost use Rattle.std.specs.Prelude.{◌≡◌, Option, Some, IfOk, option_copied};
ghost use Rattle.std.specs.List.{filter_map};
ghost use Rattle.rbc_track.specs.Plan.{Plan};
ghost use Rattle.rbc_settle.specs.declared.train.TrainRec.{TrainRec};
ghost use Rattle.rbc_account.specs.Deeds.{IsDeed, acked_by, stop_acked, limit_acked};

use crate::detail::{Detail, detail_of};
use crate::placing::{Placing, placing_of};
use crate::record_lookup::{engine_of, number_under};
use ertms_codec::{FromTrain, Position};
use rbc_ids::Slot;
use rbc_live::LiveDesk;
use rbc_rule::{Input, Reply, Segments};
use rbc_settle::TrainRec;
use rbc_track::Track;
use rbc_zones::{Dirs, Segment};
use std::alloc::{AllocError, Global};

/// What an input did, or why it did nothing. A stamp of 4294967295 is unknown.
#[derive(Drop)]
pub enum Deed {
    /// A train is enrolled, and has no place.
    Enrolled {
        engine: u32,
        length: u32,
    },
    /// A train is withdrawn.
    Withdrawn {
        engine: u32,
    },
    /// A stop is active on these stretches, in the order in which they were given.
    Stopped {
        number: u32,
        segments: Vec<Segment>,
    },
    /// A restriction is active, with its speed in km/h and Q_FRONT.
    Restricted {
        number: u32,
        segment: Segment,
        dirs: Dirs,
        speed: u32,
        front: bool,
    },
    /// A stop is released.
    Released {
        number: u32,
    },
    /// A restriction is lifted.
    Lifted {
        number: u32,
    },
    /// A train reported its position (message 136).
    Reported {
        engine: u32,
        stamp: u32,
        placing: Placing,
    },
    /// A train answered a stop (message 147), under the identifier by which it was told before. The answer is
    /// Q_EMERGENCYSTOP, 0 to 3; after 3 the identifier is free again.
    Answered {
        engine: u32,
        stamp: u32,
        id: u8,
        number: u32,
        answer: u8,
        placing: Placing,
    },
    /// A train acknowledged its message of stamp `acked` (message 146): what it acknowledges, stops first, each by
    /// identifier.
    Acknowledged {
        engine: u32,
        stamp: u32,
        acked: u32,
        all: Vec<Acked>,
    },
    /// The input was refused, with the code in the reply.
    Refused(Detail),
}

/// What the acknowledgement of a message did to one identifier.
#[derive(Clone, Copy)]
pub enum Acked {
    /// The stop identifier is free again.
    StopFreed { id: u8 },
    /// The restriction identifier is free again.
    RestrictionFreed { id: u8 },
    /// The restriction of this number is acknowledged.
    Restriction { id: u8, number: u32 },
}

/// What an input with this reply did. `before` is the train that sent the message, as it was before the input; `desk`
/// is the desk after the input.
pub(crate) fn deed_of(
    alloc: Global,
    desk: &LiveDesk,
    input: &Input,
    reply: Reply,
    before: Option<&TrainRec>,
) -> Result<Deed, AllocError>
    ensures { IfOk result (IsDeed desk.now.track (option_copied before.entry) input.now) }
{
    match reply {
        Reply::Done(_) => done(alloc, &desk.track, input, before),
        Reply::Refused(code) => Ok(Deed::Refused(detail_of(alloc, desk, input, code)?)),
    }
}

/// What an accepted input did.
fn done(
    alloc: Global,
    track: &Track,
    input: &Input,
    before: Option<&TrainRec>,
) -> Result<Deed, AllocError>
    ensures { IfOk result (IsDeed track.now (option_copied before.entry) input.now) }
{
    match input {
        Input::Stop { number, segments } => stopped(alloc, *number, segments),
        Input::Received(message) => heard(alloc, track, message, before),
        Input::Enrol { .. }
        | Input::Withdraw { .. }
        | Input::Release { .. }
        | Input::Restrict { .. }
        | Input::Lift { .. }
        | Input::Bad(_) => Ok(as_given(input)),
    }
}

/// What an accepted input did, if the input itself says all of it.
fn as_given(input: &Input) -> Deed
    ensures { (plan : Plan) (before : Option TrainRec) → IsDeed plan before input.now result }
{
    match input {
        Input::Enrol { engine, length } => Deed::Enrolled {
            engine: *engine,
            length: *length,
        },
        Input::Withdraw { engine } => Deed::Withdrawn { engine: *engine },
        Input::Release { number } => Deed::Released { number: *number },
        Input::Restrict {
            number,
            segment,
            dirs,
            speed,
            front,
        } => Deed::Restricted {
            number: *number,
            segment: *segment,
            dirs: *dirs,
            speed: *speed,
            front: *front,
        },
        Input::Lift { number } => Deed::Lifted { number: *number },
        Input::Stop { .. } | Input::Received(_) | Input::Bad(_) => Deed::Refused(Detail::Nothing),
    }
}

/// A stop is active on these stretches.
fn stopped(alloc: Global, number: u32, segments: &Segments) -> Result<Deed, AllocError>
    ensures { (plan : Plan) (before : Option TrainRec)
        → IfOk result (IsDeed plan before (Input.Stop number segments.now)) }
{
    let segments = Vec::from_slice(alloc, segments.as_slice())?;
    Ok(Deed::Stopped { number, segments })
}

/// What an accepted message did, judged by its train as it was before, if there was one.
fn heard(
    alloc: Global,
    track: &Track,
    message: &FromTrain,
    before: Option<&TrainRec>,
) -> Result<Deed, AllocError>
    ensures { IfOk result (IsDeed track.now (option_copied before.entry) (Input.Received message.now)) }
{
    match before {
        Some(train) => heard_from(alloc, track, message, train),
        None => {
            let engine = engine_of(message);
            Ok(Deed::Refused(Detail::NotEnrolled { engine }))
        }
    }
}

/// What an accepted message did, judged by its train as it was before.
fn heard_from(
    alloc: Global,
    track: &Track,
    message: &FromTrain,
    train: &TrainRec,
) -> Result<Deed, AllocError>
    ensures { IfOk result (IsDeed track.now (Some train.now) (Input.Received message.now)) }
{
    match message {
        FromTrain::Report {
            stamp,
            engine,
            position,
        } => Ok(Deed::Reported {
            engine: *engine,
            stamp: *stamp,
            placing: placing_of(track, position, train.length),
        }),
        FromTrain::Ack {
            stamp,
            engine,
            acked,
        } => Ok(Deed::Acknowledged {
            engine: *engine,
            stamp: *stamp,
            acked: *acked,
            all: acked_by(alloc, train, *acked)?,
        }),
        FromTrain::StopAck {
            stamp,
            engine,
            id,
            answer,
            position,
        } => Ok(answered(track, train, *stamp, *engine, *id, *answer, position)),
    }
}

/// A train answered the stop under an identifier.
fn answered(
    track: &Track,
    train: &TrainRec,
    stamp: u32,
    engine: u32,
    id: u8,
    answer: u8,
    position: &Position,
) -> Deed
    ensures { IsDeed track.now (Some train.now)
        (Input.Received (FromTrain.StopAck stamp engine id answer position.now)) result }
{
    match number_under(&train.stops, id) {
        Some(number) => Deed::Answered {
            engine,
            stamp,
            id,
            number,
            answer,
            placing: placing_of(track, position, train.length),
        },
        None => Deed::Refused(Detail::FreeIdentifier { engine, id }),
    }
}

/// What the acknowledgement of the message with a stamp does to the identifiers of a train: stops first, each by
/// identifier.
fn acked_by(alloc: Global, train: &TrainRec, stamp: u32) -> Result<Vec<Acked>, AllocError>
    ensures { IfOk result (λ all. all.items ≡ acked_by stamp train.now) }
{
    let mut all = stops_acked(alloc, train.stops.slots(), stamp)?;
    all.append(&mut limits_acked(alloc, train.limits.slots(), stamp)?)?;
    Ok(all)
}

/// What the acknowledgement does to the stop identifiers.
fn stops_acked(alloc: Global, slots: &[(u8, Slot)], stamp: u32) -> Result<Vec<Acked>, AllocError>
    ensures { IfOk result (λ all. all.items ≡ filter_map (stop_acked stamp) slots.now) }
{
    slots
        .iter()
        .filter_map(|held| stop_acked(held.0, held.1, stamp))
        .collect(alloc)
}

/// What the acknowledgement does to the restriction identifiers.
fn limits_acked(alloc: Global, slots: &[(u8, Slot)], stamp: u32) -> Result<Vec<Acked>, AllocError>
    ensures { IfOk result (λ all. all.items ≡ filter_map (limit_acked stamp) slots.now) }
{
    slots
        .iter()
        .filter_map(|held| limit_acked(held.0, held.1, stamp))
        .collect(alloc)
}

/// What the acknowledgement does to a stop identifier: the identifier is free if the message revoked it.
fn stop_acked(id: u8, slot: Slot, stamp: u32) -> Option<Acked>
    ensures { result ≡ stop_acked stamp (id, slot) }
{
    match slot {
        Slot::Revoking { stamp: own } if own == stamp => Some(Acked::StopFreed { id }),
        Slot::Revoking { .. } | Slot::Used(_) => None,
    }
}

/// What the acknowledgement does to a restriction identifier: the identifier is free if the message revoked it, and the
/// restriction is acknowledged if the message told it.
fn limit_acked(id: u8, slot: Slot, stamp: u32) -> Option<Acked>
    ensures { result ≡ limit_acked stamp (id, slot) }
{
    match slot {
        Slot::Revoking { stamp: own } if own == stamp => Some(Acked::RestrictionFreed { id }),
        Slot::Used(used) if used.stamp == stamp => Some(Acked::Restriction {
            id,
            number: used.number,
        }),
        Slot::Revoking { .. } | Slot::Used(_) => None,
    }
}
