//! Writing a message from a train.

ghost use Rattle.std.specs.Prelude.{◌≡◌, ◌≤◌, ◌∷◌, ◌<◌, [], take, drop};
ghost use Rattle.ertms_codec.specs.FromTrain.{Spells, fields_of_train, fields_of_position};
ghost use Rattle.ertms_codec.specs.FromTrainWritten.{IsInRange, PositionIsInRange, length_of_message, spelling_of};
ghost use Rattle.ertms_codec.specs.FromTrainWritten.{fields_of_message, groups_of, size_of_position, standing};
ghost use Rattle.ertms_codec.specs.Variables.{l_message, nid_engine, nid_message, t_train};
ghost use Rattle.ertms_codec.specs.Written.{Writes};

use crate::from_train::{FromTrain, Position};
use crate::variable::{
    D_LRBG, L_DOUBTOVER, L_DOUBTUNDER, L_MESSAGE, L_PACKET, M_LEVEL, M_MODE, NID_EM, NID_ENGINE,
    NID_LRBG, NID_MESSAGE, NID_PACKET, NID_PRVLRBG, Q_DIRLRBG, Q_DIRTRAIN, Q_DLRBG,
    Q_EMERGENCYSTOP, Q_LENGTH, Q_SCALE, T_TRAIN, V_TRAIN,
};
use crate::write::{put, put_fill_bits};
use ertms_bits::BitWriter;

/// Writes the bytes of a message from a train to the front of a buffer, and gives their number: at most 28. The bytes of
/// the buffer behind them stay. What the message does not hold is as in a train that stands: no length and no speed, the
/// direction of movement nominal, mode 0, level 3. There are no further packets, and fill bits are 0.
pub fn write_from_train(message: &FromTrain, buffer: &mut [u8; 1024]) -> usize
    requires { IsInRange message.now }
    ensures used { result ≡ length_of_message message.now }
    ensures most { result ≤ 28 }
    ensures written { take result buffer.new ≡ spelling_of message.now }
    ensures spelled { Spells (take result buffer.new) message.now }
    ensures behind { drop result buffer.new ≡ drop result buffer.old }
{
    let mut place = BitWriter::new();
    put_message(&mut place, buffer, message);
    put_fill_bits(place, buffer)
}

/// Puts all variables of a message, at the start of a buffer.
fn put_message(place: &mut BitWriter, buffer: &mut [u8; 1024], message: &FromTrain)
    requires start { place.old ≡ 0 }
    requires range { IsInRange message.now }
    ensures { Writes (fields_of_message message.now) place.old buffer.old place.new buffer.new }
{
    match message {
        FromTrain::Report {
            stamp,
            engine,
            position,
        } => {
            let length = (74 + position_width(position)).div_ceil(8);
            put_header(place, buffer, 136, length, *stamp, *engine);
            put_position(place, buffer, position);
        }
        FromTrain::Ack {
            stamp,
            engine,
            acked,
        } => {
            put_header(place, buffer, 146, 14, *stamp, *engine);
            put(place, buffer, T_TRAIN, u64::from(*acked));
        }
        FromTrain::StopAck {
            stamp,
            engine,
            id,
            answer,
            position,
        } => {
            let length = (80 + position_width(position)).div_ceil(8);
            put_header(place, buffer, 147, length, *stamp, *engine);
            put(place, buffer, NID_EM, u64::from(*id));
            put(place, buffer, Q_EMERGENCYSTOP, u64::from(*answer));
            put_position(place, buffer, position);
        }
    }
}

/// Puts what begins every message, at the start of a buffer.
fn put_header(
    place: &mut BitWriter,
    buffer: &mut [u8; 1024],
    number: u64,
    length: u64,
    stamp: u32,
    engine: u32,
)
    requires start { place.old ≡ 0 }
    requires number { number < 256 }
    requires length { length < 1024 }
    requires engine { engine ≤ 16777215 }
    ensures { Writes (nid_message number ∷ l_message length ∷ t_train stamp ∷ nid_engine engine ∷ [])
        place.old buffer.old place.new buffer.new }
{
    put(place, buffer, NID_MESSAGE, number);
    put(place, buffer, L_MESSAGE, length);
    put(place, buffer, T_TRAIN, u64::from(stamp));
    put(place, buffer, NID_ENGINE, u64::from(engine));
}

/// Puts packet 0, or packet 1 where the position names two balise groups.
fn put_position(place: &mut BitWriter, buffer: &mut [u8; 1024], position: &Position)
    requires range { PositionIsInRange position.now }
    requires start { place.old ≤ 80 }
    ensures { Writes (fields_of_position (size_of_position position.now) position.now standing)
        place.old buffer.old place.new buffer.new }
{
    put_groups(place, buffer, position);
    put(place, buffer, D_LRBG, u64::from(position.distance));
    put(place, buffer, Q_DIRLRBG, u64::from(position.dir));
    put(place, buffer, Q_DLRBG, u64::from(position.side));
    put(place, buffer, L_DOUBTOVER, u64::from(position.over));
    put(place, buffer, L_DOUBTUNDER, u64::from(position.under));
    put_standing(place, buffer);
}

/// Puts the head of the packet of a position, its scale and its balise groups.
fn put_groups(place: &mut BitWriter, buffer: &mut [u8; 1024], position: &Position)
    requires range { PositionIsInRange position.now }
    requires start { place.old ≤ 80 }
    ensures { Writes (groups_of position.now) place.old buffer.old place.new buffer.new }
{
    let scale = u64::from(position.scale);
    let lrbg = u64::from(position.lrbg);
    match position.previous {
        None => {
            put(place, buffer, NID_PACKET, 0);
            put(place, buffer, L_PACKET, 114);
            put(place, buffer, Q_SCALE, scale);
            put(place, buffer, NID_LRBG, lrbg);
        }
        Some(previous) => {
            put(place, buffer, NID_PACKET, 1);
            put(place, buffer, L_PACKET, 138);
            put(place, buffer, Q_SCALE, scale);
            put(place, buffer, NID_LRBG, lrbg);
            put(place, buffer, NID_PRVLRBG, u64::from(previous));
        }
    }
}

/// Puts what a train that stands tells of itself.
fn put_standing(place: &mut BitWriter, buffer: &mut [u8; 1024])
    requires { place.old ≤ 200 }
    ensures { Writes (fields_of_train standing) place.old buffer.old place.new buffer.new }
{
    put(place, buffer, Q_LENGTH, 0);
    put(place, buffer, V_TRAIN, 0);
    put(place, buffer, Q_DIRTRAIN, 1);
    put(place, buffer, M_MODE, 0);
    put(place, buffer, M_LEVEL, 3);
}

/// How many bits the packet of a position takes.
fn position_width(position: &Position) -> u64
    ensures value { result ≡ size_of_position position.now }
    ensures small { result ≤ 138 }
{
    match position.previous {
        None => 114,
        Some(_) => 138,
    }
}
