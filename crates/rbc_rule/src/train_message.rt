//! Takes a message from a train into the train's record.

ghost use Rattle.std.specs.Prelude.{◌≡◌, Ok, IfOk, IfErr};
ghost use Rattle.rbc_rule.specs.Codes.{IsReason};
ghost use Rattle.rbc_rule.specs.Effect.{is_too_high, raised, placed, acknowledged, answered, stamp_of, engine_of};
ghost use Rattle.rbc_rule.specs.Effect.{heard};

use crate::maxima::MAX_STAMP;
use crate::refuse::{NotChanged, Refusal};
use ertms_codec::{FromTrain, Position};
use rbc_place::place_of;
use rbc_settle::{IdAck, TrainRec};
use rbc_track::Track;
use std::alloc::Global;

/// T_TRAIN of a message whose time is unknown (SUBSET-026, chapter 7).
pub const UNKNOWN_STAMP: u32 = 4_294_967_295;

/// Returns the engine number in a message.
pub fn engine_of(message: &FromTrain) -> u32
    ensures { result ≡ engine_of message.now }
{
    match message {
        FromTrain::Report { engine, .. }
        | FromTrain::Ack { engine, .. }
        | FromTrain::StopAck { engine, .. } => *engine,
    }
}

/// Returns T_TRAIN of a message.
fn stamp_of(message: &FromTrain) -> u32
    ensures { result ≡ stamp_of message.now }
{
    match message {
        FromTrain::Report { stamp, .. }
        | FromTrain::Ack { stamp, .. }
        | FromTrain::StopAck { stamp, .. } => *stamp,
    }
}

/// Whether T_TRAIN leaves no room for later messages. An unknown one does not count.
pub(crate) fn is_too_high(stamp: u32) -> bool
    ensures { result ≡ is_too_high stamp }
{
    stamp != UNKNOWN_STAMP && stamp > MAX_STAMP
}

/// Raises the train's stamp to T_TRAIN of its message, if that is known.
fn raise(train: &mut TrainRec, stamp: u32)
    ensures { train.new ≡ raised stamp train.old }
{
    if stamp != UNKNOWN_STAMP {
        train.stamp = train.stamp.max(stamp);
    }
}

/// Takes over the position that the train reports.
fn place(track: &Track, train: &mut TrainRec, position: &Position)
    ensures { train.new ≡ placed track.now position.now train.old }
{
    train.place = place_of(track, position, train.length);
}

/// Returns the train after it has acknowledged the message with this stamp, or why it cannot.
fn acknowledged(train: TrainRec, acked: u32) -> Result<TrainRec, NotChanged>
    ensures ok { IfOk result (λ after. Ok after ≡ acknowledged acked train) }
    ensures err { IfErr result (λ why. IsReason (acknowledged acked train) why) }
{
    let mut train = train;
    if train.acknowledge(acked) {
        Ok(train)
    } else {
        Err(NotChanged::Refused(Refusal::NothingToAcknowledge))
    }
}

/// Returns the train after it has answered the stop with this identifier, or why it cannot. `answer` is
/// Q_EMERGENCYSTOP.
fn answered(train: TrainRec, id: u8, answer: u8) -> Result<TrainRec, NotChanged>
    ensures ok { IfOk result (λ after. Ok after ≡ answered id answer train) }
    ensures err { IfErr result (λ why. IsReason (answered id answer train) why) }
{
    let mut train = train;
    match train.stops.ack_id(id, answer) {
        IdAck::Marked => Ok(train),
        IdAck::Rejected(number) => {
            if !train.forced.has(number) {
                train.forced.add(number)?;
            }
            Ok(train)
        }
        IdAck::Nothing => Err(NotChanged::Refused(Refusal::NothingToAcknowledge)),
    }
}

/// Returns the train after its message, or why the message is refused. The record is made in the memory of a spare one,
/// if there is one. The given record is unchanged.
pub fn heard(
    alloc: Global,
    track: &Track,
    message: &FromTrain,
    train: &TrainRec,
    spare: Option<TrainRec>,
) -> Result<TrainRec, NotChanged>
    ensures ok { IfOk result (λ after. Ok after ≡ heard track.now message.now train.now) }
    ensures err { IfErr result (λ why. IsReason (heard track.now message.now train.now) why) }
{
    if is_too_high(stamp_of(message)) {
        return Err(NotChanged::Refused(Refusal::StampTooHigh));
    }
    let mut train = train.copy_over(alloc, spare)?;
    raise(&mut train, stamp_of(message));
    match message {
        FromTrain::Report { position, .. } => {
            place(track, &mut train, position);
            train.stops.reported();
            Ok(train)
        }
        FromTrain::Ack { acked, .. } => acknowledged(train, *acked),
        FromTrain::StopAck {
            id,
            answer,
            position,
            ..
        } => {
            place(track, &mut train, position);
            answered(train, *id, *answer)
        }
    }
}
