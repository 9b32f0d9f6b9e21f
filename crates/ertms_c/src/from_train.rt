//! The fields of a message from a train, as C has them.

ghost use Rattle.std.specs.Prelude.{◌≡◌, ◌↔◌, IsTrue, IfSome, IfNone};
ghost use Rattle.ertms_codec.specs.FromTrainWritten.{IsInRange, PositionIsInRange, IsNumberOfGroup};
ghost use Rattle.ertms_c.specs.FromTrainFields.{begun, placed, fields_of, position_in, named_by, AreOfNone};

use ertms_codec::{FromTrain, Position};

/// The greatest number of an on-board equipment, and of a balise group.
const MAX_NUMBER: u32 = 16_777_215;

/// The greatest number of units of a distance or a doubt.
const MAX_DISTANCE: u16 = 32_767;

/// A message from a train. A variable that its kind does not have is 0.
#[repr(C)]
#[derive(Clone, Copy, Drop, PartialEq, Eq)]
pub struct FromTrainFields {
    /// NID_MESSAGE: 136, 146 or 147.
    pub kind: u8,
    /// NID_EM of 147: 0 to 15.
    pub id: u8,
    /// Q_EMERGENCYSTOP of 147: 0 to 3.
    pub answer: u8,
    /// NID_PACKET of the position in 136 and 147: 0 or 1.
    pub packet: u8,
    /// Q_SCALE of the position: 0 is 10 cm, 1 is 1 m, 2 is 10 m.
    pub scale: u8,
    /// Q_DIRLRBG: 0 reverse, 1 nominal, 2 unknown.
    pub dir: u8,
    /// Q_DLRBG: 0 reverse, 1 nominal, 2 unknown.
    pub side: u8,
    /// D_LRBG: 0 to 32767 in units of `scale`; 32767 is unknown.
    pub distance: u16,
    /// L_DOUBTOVER: 0 to 32767 in units of `scale`; 32767 is taken as unknown.
    pub over: u16,
    /// L_DOUBTUNDER: 0 to 32767 in units of `scale`; 32767 is taken as unknown.
    pub under: u16,
    /// T_TRAIN, in units of 10 ms; 4294967295 is unknown.
    pub stamp: u32,
    /// NID_ENGINE: 0 to 16777215.
    pub engine: u32,
    /// T_TRAIN of the message that 146 acknowledges.
    pub acked: u32,
    /// NID_LRBG: 0 to 16777215, which is unknown.
    pub lrbg: u32,
    /// NID_PRVLRBG of packet 1.
    pub previous: u32,
}

/// The fields of a kind of message, its stamp and its engine, with no other.
fn begun(kind: u8, stamp: u32, engine: u32) -> FromTrainFields
    ensures { result ≡ begun kind stamp engine }
{
    FromTrainFields {
        kind,
        id: 0,
        answer: 0,
        packet: 0,
        scale: 0,
        dir: 0,
        side: 0,
        distance: 0,
        over: 0,
        under: 0,
        stamp,
        engine,
        acked: 0,
        lrbg: 0,
        previous: 0,
    }
}

/// Fields with those of a position.
fn placed(position: Position, fields: FromTrainFields) -> FromTrainFields
    ensures { result ≡ placed position fields }
{
    let (packet, previous) = match position.previous {
        Some(previous) => (1, previous),
        None => (0, 0),
    };
    FromTrainFields {
        packet,
        previous,
        scale: position.scale,
        dir: position.dir,
        side: position.side,
        distance: position.distance,
        over: position.over,
        under: position.under,
        lrbg: position.lrbg,
        ..fields
    }
}

/// The fields of a message.
pub fn fields_of(message: &FromTrain) -> FromTrainFields
    ensures { result ≡ fields_of message.now }
{
    match *message {
        FromTrain::Report {
            stamp,
            engine,
            position,
        } => placed(position, begun(136, stamp, engine)),
        FromTrain::Ack {
            stamp,
            engine,
            acked,
        } => FromTrainFields {
            acked,
            ..begun(146, stamp, engine)
        },
        FromTrain::StopAck {
            stamp,
            engine,
            id,
            answer,
            position,
        } => FromTrainFields {
            id,
            answer,
            ..placed(position, begun(147, stamp, engine))
        },
    }
}

/// The position that fields name.
fn position_in(fields: &FromTrainFields) -> Position
    ensures { result ≡ position_in fields.now }
{
    Position {
        previous: if fields.packet == 1 {
            Some(fields.previous)
        } else {
            None
        },
        scale: fields.scale,
        lrbg: fields.lrbg,
        distance: fields.distance,
        dir: fields.dir,
        side: fields.side,
        over: fields.over,
        under: fields.under,
    }
}

/// The message that the fields name by their kind, whether or not it is in range and has all these fields.
fn named_by(fields: &FromTrainFields) -> Option<FromTrain>
    ensures { result ≡ named_by fields.now }
{
    let stamp = fields.stamp;
    let engine = fields.engine;
    match fields.kind {
        136 => Some(FromTrain::Report {
            stamp,
            engine,
            position: position_in(fields),
        }),
        146 => Some(FromTrain::Ack {
            stamp,
            engine,
            acked: fields.acked,
        }),
        147 => Some(FromTrain::StopAck {
            stamp,
            engine,
            id: fields.id,
            answer: fields.answer,
            position: position_in(fields),
        }),
        _ => None,
    }
}

/// Whether each variable of a position is in its range, and no spare value.
fn is_position_in_range(position: &Position) -> bool
    ensures { IsTrue result ↔ PositionIsInRange position.now }
{
    position.scale <= 2
        && position.dir <= 2
        && position.side <= 2
        && is_number_of_group(position.previous)
        && position.lrbg <= MAX_NUMBER
        && position.distance <= MAX_DISTANCE
        && position.over <= MAX_DISTANCE
        && position.under <= MAX_DISTANCE
}

/// Whether the number of a balise group, if there is one, is in its range.
fn is_number_of_group(group: Option<u32>) -> bool
    ensures { IsTrue result ↔ IsNumberOfGroup group }
{
    match group {
        Some(group) => group <= MAX_NUMBER,
        None => true,
    }
}

/// Whether each variable of a message is in its range, and no spare value.
fn is_in_range(message: FromTrain) -> bool
    ensures { IsTrue result ↔ IsInRange message }
{
    match message {
        FromTrain::Report {
            engine,
            position,
            ..
        } => engine <= MAX_NUMBER && is_position_in_range(&position),
        FromTrain::Ack { engine, .. } => engine <= MAX_NUMBER,
        FromTrain::StopAck {
            engine,
            id,
            answer,
            position,
            ..
        } => engine <= MAX_NUMBER && id <= 15 && answer <= 3 && is_position_in_range(&position),
    }
}

/// Whether all fields are the same.
fn are_same(fields: &FromTrainFields, others: &FromTrainFields) -> bool
    ensures { IsTrue result ↔ (fields.now ≡ others.now) }
{
    fields == others
}

/// The message that has exactly these fields, if there is one and it is in range.
pub fn message_of(fields: &FromTrainFields) -> Option<FromTrain>
    ensures range { IfSome result IsInRange }
    ensures same { IfSome result (λ m. fields.now ≡ fields_of m) }
    ensures none { IfNone result (AreOfNone fields.now) }
{
    match named_by(fields) {
        Some(message) if is_in_range(message) && are_same(fields, &fields_of(&message)) => {
            Some(message)
        }
        _ => None,
    }
}
