//! Writing a message to a train.

ghost use Rattle.std.specs.Prelude.{◌≡◌, ◌+◌, ◌-◌, ◌*◌, ◌<◌, ◌≤◌, ◌^◌, [], ◌∷◌, ◌++◌, length, take, drop, replicate};
ghost use Rattle.std.specs.List.{flat_map, All};
ghost use Rattle.ertms_bits.specs.Bits.{bits_of_bytes, bytes_for, bytes_of};
ghost use Rattle.ertms_codec.specs.Layout.{field, width_of};
ghost use Rattle.ertms_codec.specs.PacketsToTrain.{fields_of_packet, PacketFits, most_packets};
ghost use Rattle.ertms_codec.specs.declared.to_train.ToTrain.TheVariants as sent;
ghost use Rattle.ertms_codec.specs.ToTrain.{Fits, Spells, HoldsReference, number_of_message, body_of};
ghost use Rattle.ertms_codec.specs.ToTrain.{length_of_message, spelling_of};
ghost use Rattle.ertms_codec.specs.Written.{Writes, header_of};

use crate::packets::Part;
use crate::to_train::{Head, ToTrain};
use crate::variable::{
    D_EMERGENCYSTOP, D_REF, D_TSR, L_MESSAGE, L_PACKET, L_TSR, M_ACK, NID_EM, NID_LRBG,
    NID_MESSAGE, NID_PACKET, NID_TSR, Q_DIR, Q_FRONT, Q_SCALE, T_TRAIN, V_TSR,
};
use ertms_bits::BitWriter;

/// NID_MESSAGE of the general message.
const GENERAL: u64 = 24;

/// How many bits the header takes.
const HEADER_WIDTH: u64 = 75;

/// How many bits packet 65 takes up to the identifier of the restriction.
const OPENING_WIDTH: u32 = NID_PACKET + Q_DIR + L_PACKET + Q_SCALE + NID_TSR;

/// How many bits packet 65 takes behind that: where the restriction holds, and its speed.
const STRETCH_WIDTH: u32 = D_TSR + L_TSR + Q_FRONT + V_TSR;

/// How many bits packet 66 takes.
const REVOCATION_WIDTH: u32 = NID_PACKET + Q_DIR + L_PACKET + NID_TSR;

/// Writes the bytes of a message, fill bits 0, to the front of a buffer, and gives their number: at most 897, of 100
/// packets. The bytes of the buffer behind them stay.
pub fn write_to_train(message: &ToTrain, buffer: &mut [u8; 1024]) -> usize
    requires { Fits message.now }
    ensures used { result ≡ length_of_message message.now }
    ensures most { result ≤ 897 }
    ensures written { take result buffer.new ≡ spelling_of message.now }
    ensures spelled { Spells (take result buffer.new) message.now }
    ensures behind { drop result buffer.new ≡ drop result buffer.old }
{
    let mut place = BitWriter::new();
    put_header(
        &mut place,
        buffer,
        number_of(message),
        length_of(message),
        message.head(),
    );
    put_body(&mut place, buffer, message);
    put_fill_bits(place, buffer)
}

/// Writes a message 24 as `write_to_train` does, with the packets of a slice. So its caller needs no memory for them.
pub fn write_general(head: Head, packets: &[Part], buffer: &mut [u8; 1024]) -> usize
    requires { Fits (sent.General head packets.now) }
    ensures used { result ≡ length_of_message (sent.General head packets.now) }
    ensures most { result ≤ 897 }
    ensures written { take result buffer.new ≡ spelling_of (sent.General head packets.now) }
    ensures spelled { Spells (take result buffer.new) (sent.General head packets.now) }
    ensures behind { drop result buffer.new ≡ drop result buffer.old }
{
    let mut place = BitWriter::new();
    let length = (HEADER_WIDTH + packets_width(packets)).div_ceil(8);
    put_header(&mut place, buffer, GENERAL, length, head);
    put_packets(&mut place, buffer, packets);
    put_fill_bits(place, buffer)
}

/// Puts what begins every message, at the start of a buffer.
fn put_header(place: &mut BitWriter, buffer: &mut [u8; 1024], number: u64, length: u64, head: Head)
    requires start { place.old ≡ 0 }
    requires number { number < 256 }
    requires length { length < 1024 }
    requires lrbg { head.lrbg ≤ 16777215 }
    ensures { Writes (header_of number length head) place.old buffer.old place.new buffer.new }
{
    put(place, buffer, NID_MESSAGE, number);
    put(place, buffer, L_MESSAGE, length);
    put(place, buffer, T_TRAIN, u64::from(head.stamp));
    put(place, buffer, M_ACK, u64::from(head.ack));
    put(place, buffer, NID_LRBG, u64::from(head.lrbg));
}

/// Puts what stands behind the header of a message.
fn put_body(place: &mut BitWriter, buffer: &mut [u8; 1024], message: &ToTrain)
    requires start { place.old ≡ HEADER_WIDTH }
    requires fits { Fits message.now }
    ensures written { Writes (body_of message.now) place.old buffer.old place.new buffer.new }
    ensures reference { HoldsReference message.now }
{
    match message {
        ToTrain::Stop { id, .. } | ToTrain::Revoke { id, .. } => {
            put(place, buffer, NID_EM, u64::from(*id));
        }
        ToTrain::StopAt {
            id,
            scale,
            reference,
            dir,
            distance,
            ..
        } => {
            put(place, buffer, NID_EM, u64::from(*id));
            put(place, buffer, Q_SCALE, u64::from(*scale));
            put(place, buffer, D_REF, u64::from(reference.cast_unsigned()));
            put(place, buffer, Q_DIR, u64::from(*dir));
            put(place, buffer, D_EMERGENCYSTOP, u64::from(*distance));
        }
        ToTrain::General { packets, .. } => {
            let (first, more) = packets.parts();
            put_packet(place, buffer, first);
            put_packets(place, buffer, more);
        }
    }
}

/// Puts packets, one behind the other.
fn put_packets(place: &mut BitWriter, buffer: &mut [u8; 1024], packets: &[Part])
    requires fit { All PacketFits packets.now }
    requires room { place.old + 71 * length packets.now ≤ 8 * length buffer.old }
    ensures { Writes (flat_map fields_of_packet packets.now) place.old buffer.old place.new buffer.new }
{
    for part in packets {
        put_packet(place, buffer, *part);
    }
}

/// Puts one packet.
fn put_packet(place: &mut BitWriter, buffer: &mut [u8; 1024], part: Part)
    requires fits { PacketFits part }
    requires room { place.old + 71 ≤ 8 * length buffer.old }
    ensures { Writes (fields_of_packet part) place.old buffer.old place.new buffer.new }
{
    match part {
        Part::Restrict {
            dir,
            scale,
            id,
            start,
            length,
            front,
            speed,
        } => {
            // The 71 bits of packet 65 do not fit one number, so two are put.
            let opening = joined(65, Q_DIR, u64::from(dir));
            let opening = joined(opening, L_PACKET, 71);
            let opening = joined(opening, Q_SCALE, u64::from(scale));
            let opening = joined(opening, NID_TSR, u64::from(id));
            put(place, buffer, OPENING_WIDTH, opening);
            let stretch = joined(u64::from(start), L_TSR, u64::from(length));
            let stretch = joined(stretch, Q_FRONT, u64::from(front));
            let stretch = joined(stretch, V_TSR, u64::from(speed));
            put(place, buffer, STRETCH_WIDTH, stretch);
        }
        Part::Lift { dir, id } => {
            let packet = joined(66, Q_DIR, u64::from(dir));
            let packet = joined(packet, L_PACKET, 31);
            let packet = joined(packet, NID_TSR, u64::from(id));
            put(place, buffer, REVOCATION_WIDTH, packet);
        }
    }
}

/// The values of two variables that stand side by side, as one number. The second has `width` bits. Putting this number
/// takes hardly longer than putting one of the two.
#[inline(always)]
fn joined(first: u64, width: u32, second: u64) -> u64
    requires width { width < 64 }
    requires second { second < 2 ^ width }
    requires room { first * 2 ^ width + second < 2 ^ 64 }
    ensures { result ≡ first * 2 ^ width + second }
{
    first << width | second
}

/// Fills the last byte up with 0, and gives the number of bytes used.
pub(crate) fn put_fill_bits(place: BitWriter, buffer: &mut [u8]) -> usize
    requires { place ≤ 8 * length buffer.old }
    ensures used { result ≡ bytes_for place }
    ensures bytes { take result buffer.new ≡ bytes_of result (take place (bits_of_bytes buffer.old)) }
    ensures bits { bits_of_bytes (take result buffer.new)
        ≡ take place (bits_of_bytes buffer.old) ++ replicate (8 * result - place) 0 }
    ensures behind { drop result buffer.new ≡ drop result buffer.old }
{
    place.finish(buffer)
}

/// Puts one variable, in so many bits.
#[inline(always)]
pub(crate) fn put(place: &mut BitWriter, buffer: &mut [u8; 1024], width: u32, value: u64)
    requires value { value < 2 ^ width }
    requires room { place.old + width ≤ 8 * length buffer.old }
    ensures { Writes (field width value ∷ []) place.old buffer.old place.new buffer.new }
{
    place.put(buffer, value, width).unwrap();
}

/// NID_MESSAGE: the number of the kind of a message.
fn number_of(message: &ToTrain) -> u64
    ensures value { result ≡ number_of_message message.now }
    ensures small { result < 256 }
{
    match message {
        ToTrain::StopAt { .. } => 15,
        ToTrain::Stop { .. } => 16,
        ToTrain::Revoke { .. } => 18,
        ToTrain::General { .. } => GENERAL,
    }
}

/// L_MESSAGE: how many bytes a message takes.
fn length_of(message: &ToTrain) -> u64
    ensures value { result ≡ length_of_message message.now }
    ensures small { result ≤ 897 }
{
    (HEADER_WIDTH + body_width(message)).div_ceil(8)
}

/// How many bits a message takes behind its header.
fn body_width(message: &ToTrain) -> u64
    ensures value { result ≡ width_of (body_of message.now) }
    ensures small { result ≤ 7100 }
{
    match message {
        ToTrain::StopAt { .. } => 39,
        ToTrain::Stop { .. } | ToTrain::Revoke { .. } => 4,
        ToTrain::General { packets, .. } => {
            let (first, more) = packets.parts();
            packet_width(first) + packets_width(more)
        }
    }
}

/// How many bits packets take.
fn packets_width(packets: &[Part]) -> u64
    requires { length packets.now ≤ most_packets }
    ensures value { result ≡ width_of (flat_map fields_of_packet packets.now) }
    ensures small { result ≤ 71 * length packets.now }
{
    let mut width = 0;
    for part in packets {
        width += packet_width(*part);
    }
    width
}

/// How many bits a packet takes.
fn packet_width(part: Part) -> u64
    ensures value { result ≡ width_of (fields_of_packet part) }
    ensures small { result ≤ 71 }
{
    match part {
        Part::Restrict { .. } => 71,
        Part::Lift { .. } => 31,
    }
}
