//! Reading messages to a train.

ghost use Rattle.std.specs.Prelude.{◌≡◌, ◌⊎◌, ◌+◌, ◌<◌, ◌≤◌, ◌==◌, List, ℕ, IfOk, IfErr, OnOk, length, drop};
ghost use Rattle.std.specs.Int.{w16, cast_signed};
ghost use Rattle.ertms_codec.specs.declared.error.DecodeError.{DecodeError as Refusal};
ghost use Rattle.ertms_codec.specs.declared.error.DecodeError.TheVariants.{Message as message_refusal};
ghost use Rattle.ertms_codec.specs.declared.error.DecodeError.TheVariants.{Length as length_refusal};
ghost use Rattle.ertms_codec.specs.declared.error.DecodeError.TheVariants.{Packet as packet_refusal};
ghost use Rattle.ertms_codec.specs.declared.error.ReadError.TheVariants.{Decode};
ghost use Rattle.ertms_codec.specs.declared.packets.Part.TheVariants as packet;
ghost use Rattle.ertms_codec.specs.declared.to_train.ToTrain.{ToTrain as Sent};
ghost use Rattle.ertms_codec.specs.declared.to_train.ToTrain.TheVariants as sent;
ghost use Rattle.ertms_codec.specs.Layout.{value_at};
ghost use Rattle.ertms_codec.specs.PacketsToTrain.{most_packets};
ghost use Rattle.ertms_codec.specs.ToTrain.{Spells};
ghost use Rattle.ertms_codec.specs.Refusals.{Unless, Never};
ghost use Rattle.ertms_codec.specs.RefusalsToTrain.{Refuses, IsReadFault, IsWantOfMemory, IsToTrain, IsLongEnough};
ghost use Rattle.ertms_codec.specs.RefusalsToTrain.{BeginWithPacket, ArePackets, behind_packet};
ghost use Rattle.ertms_codec.specs.ToTrainAtPlaces.{head_at, packet_at, packets_at, message_at, IsFaultAtPlaces};
ghost use Rattle.ertms_codec.specs.Reading.{IsReadToTrain, IsPacketsFault};

use crate::error::{DecodeError, ReadError};
use crate::packets::{MOST_PACKETS, Packets, Part};
use crate::reading::{message_number, next};
use crate::to_train::{Head, ToTrain};
use crate::variable::{
    D_EMERGENCYSTOP, D_REF, D_TSR, L_PACKET, L_TSR, M_ACK, NID_EM, NID_LRBG, NID_PACKET, NID_TSR,
    Q_DIR, Q_FRONT, Q_SCALE, T_TRAIN, V_TSR,
};
use ertms_bits::BitReader;
use std::alloc::Global;

/// The message to a train that some bytes encode, all of them; fill bits are ignored. It takes memory only for the
/// packets of message 24 after the first (SUBSET-026, chapters 7 and 8).
///
/// # Errors
///
/// The first step that fails: `Length`, `Message`, `Length` (of that message), `Packet`, `Field`. For message 24 a lack
/// of memory may take the place of any answer after the first three steps.
pub fn read_to_train(alloc: Global, bytes: &[u8]) -> Result<ToTrain, ReadError>
    // The bytes encode the message that is read.
    ensures found { IfOk result (λ m. Spells bytes.now m) }
    // A message that the bytes encode is read, unless memory runs out. So no bytes encode two messages.
    ensures only { (m : Sent) → Spells bytes.now m → (result ≡ Ok m) ⊎ IsWantOfMemory bytes.now result }
    // A refusal is the first step that fails.
    ensures refused { IfErr result (λ fault. IsReadFault bytes.now fault) }
    // The first step that fails is the refusal, unless memory runs out.
    ensures exact { (e : Refusal) → Refuses bytes.now e → (result ≡ Err (Decode e)) ⊎ IsWantOfMemory bytes.now result }
{
    read(alloc, bytes)
}

/// What `read_to_train` does, by the places of the variables.
fn read(alloc: Global, bytes: &[u8]) -> Result<ToTrain, ReadError>
    ensures ok { IfOk result (λ m. IsReadToTrain bytes.now m) }
    ensures err { IfErr result (λ fault. IsFaultAtPlaces bytes.now fault) }
{
    let mut bits = BitReader::new(bytes);
    let number = message_number(bytes, &mut bits)?;
    check_length(number, bytes.len())?;
    let head = head(&mut bits);
    let message = body(alloc, &mut bits, number, head)?;
    if message.fits() {
        Ok(message)
    } else {
        Err(ReadError::Decode(DecodeError::Field))
    }
}

/// Whether a message of this number can have this many bytes.
fn check_length(number: u64, len: usize) -> Result<(), DecodeError>
    ensures ok { IfOk result (λ _. IsToTrain number × IsLongEnough number len) }
    ensures err { IfErr result (Unless (IsToTrain number) message_refusal
        (Unless (IsLongEnough number len) length_refusal Never)) }
{
    let is_enough = match number {
        15 => len == 15,
        16 | 18 => len == 10,
        24 => len >= 10,
        _ => return Err(DecodeError::Message),
    };
    if is_enough {
        Ok(())
    } else {
        Err(DecodeError::Length)
    }
}

/// What follows L_MESSAGE in every message to a train.
fn head(bits: &mut BitReader<'_>) -> Head
    requires { 57 ≤ length bits.old }
    ensures { (whole : List ℕ) → bits.old ≡ drop 18 whole → (result ≡ head_at whole) × (bits.new ≡ drop 75 whole) }
{
    Head {
        stamp: next(bits, T_TRAIN) as u32,
        ack: next(bits, M_ACK) == 1,
        lrbg: next(bits, NID_LRBG) as u32,
    }
}

/// What follows the header of a message of this number.
fn body(
    alloc: Global,
    bits: &mut BitReader<'_>,
    number: u64,
    head: Head,
) -> Result<ToTrain, ReadError>
    requires known { IsToTrain number }
    requires least { 4 ≤ length bits.old }
    requires conditional { number ≡ 15 → 39 ≤ length bits.old }
    ensures packets { IfOk result (λ _. number ≡ 24 → ArePackets most_packets bits.old) }
    ensures ok { IfOk result (λ m. (whole : List ℕ) → bits.old ≡ drop 75 whole → head ≡ head_at whole
        → number ≡ value_at 0 8 whole → m ≡ message_at whole) }
    ensures err { IfErr result (λ fault. (number ≡ 24) × IsPacketsFault bits.old fault) }
{
    match number {
        15 => Ok(stop_at(bits, head)),
        16 => Ok(stop(bits, head)),
        18 => Ok(revoke(bits, head)),
        _ => general(alloc, bits, head),
    }
}

/// Message 15, after its header.
fn stop_at(bits: &mut BitReader<'_>, head: Head) -> ToTrain
    requires { 39 ≤ length bits.old }
    ensures { (whole : List ℕ) → bits.old ≡ drop 75 whole
        → result ≡ sent.StopAt head (value_at 75 4 whole) (value_at 79 2 whole)
        (cast_signed w16 (value_at 81 16 whole)) (value_at 97 2 whole) (value_at 99 15 whole) }
{
    ToTrain::StopAt {
        head,
        id: next(bits, NID_EM) as u8,
        scale: next(bits, Q_SCALE) as u8,
        reference: (next(bits, D_REF) as u16).cast_signed(),
        dir: next(bits, Q_DIR) as u8,
        distance: next(bits, D_EMERGENCYSTOP) as u16,
    }
}

/// Message 16, after its header.
fn stop(bits: &mut BitReader<'_>, head: Head) -> ToTrain
    requires { 4 ≤ length bits.old }
    ensures { (whole : List ℕ) → bits.old ≡ drop 75 whole → result ≡ sent.Stop head (value_at 75 4 whole) }
{
    ToTrain::Stop {
        head,
        id: next(bits, NID_EM) as u8,
    }
}

/// Message 18, after its header.
fn revoke(bits: &mut BitReader<'_>, head: Head) -> ToTrain
    requires { 4 ≤ length bits.old }
    ensures { (whole : List ℕ) → bits.old ≡ drop 75 whole → result ≡ sent.Revoke head (value_at 75 4 whole) }
{
    ToTrain::Revoke {
        head,
        id: next(bits, NID_EM) as u8,
    }
}

/// Message 24, after its header.
fn general(alloc: Global, bits: &mut BitReader<'_>, head: Head) -> Result<ToTrain, ReadError>
    ensures packets { IfOk result (λ _. ArePackets most_packets bits.old) }
    ensures ok { IfOk result (λ m. m ≡ sent.General head (packets_at most_packets bits.old)) }
    ensures err { IfErr result (λ fault. IsPacketsFault bits.old fault) }
{
    Ok(ToTrain::General {
        head,
        packets: packets(alloc, bits)?,
    })
}

/// All packets, to the fill bits.
fn packets(alloc: Global, bits: &mut BitReader<'_>) -> Result<Packets, ReadError>
    ensures packets { IfOk result (λ _. ArePackets most_packets bits.old) }
    ensures ok { IfOk result (λ packets. packets ≡ packets_at most_packets bits.old) }
    ensures err { IfErr result (λ fault. IsPacketsFault bits.old fault) }
{
    let mut packets = Packets::of(alloc, packet(bits)?)?;
    while bits.left() >= 8 {
        if packets.count() == MOST_PACKETS {
            return Err(ReadError::Decode(DecodeError::Packet));
        }
        packets.push(packet(bits)?)?;
    }
    Ok(packets)
}

/// One packet.
fn packet(bits: &mut BitReader<'_>) -> Result<Part, DecodeError>
    ensures begins { IfOk result (λ _. BeginWithPacket bits.old) }
    ensures value { IfOk result (λ part. part ≡ packet_at bits.old) }
    ensures rest { OnOk result (bits.new ≡ behind_packet bits.old) }
    ensures err { IfErr result (λ e. (¬ BeginWithPacket bits.old) × (e ≡ packet_refusal)) }
{
    let left = bits.left();
    if left < 23 {
        return Err(DecodeError::Packet);
    }
    let number = next(bits, NID_PACKET);
    let dir = next(bits, Q_DIR) as u8;
    let size = next(bits, L_PACKET);
    match number {
        65 if size == 71 && left >= 71 => Ok(restrict(bits, dir)),
        66 if size == 31 && left >= 31 => Ok(lift(bits, dir)),
        _ => Err(DecodeError::Packet),
    }
}

/// Packet 65, after L_PACKET.
fn restrict(bits: &mut BitReader<'_>, dir: u8) -> Part
    requires { 48 ≤ length bits.old }
    ensures { (whole : List ℕ) → bits.old ≡ drop 23 whole
        → (result ≡ packet.Restrict dir (value_at 23 2 whole) (value_at 25 8 whole) (value_at 33 15 whole)
        (value_at 48 15 whole) (value_at 63 1 whole == 1) (value_at 64 7 whole))
        × (bits.new ≡ drop 71 whole) }
{
    Part::Restrict {
        dir,
        scale: next(bits, Q_SCALE) as u8,
        id: next(bits, NID_TSR) as u8,
        start: next(bits, D_TSR) as u16,
        length: next(bits, L_TSR) as u16,
        front: next(bits, Q_FRONT) == 1,
        speed: next(bits, V_TSR) as u8,
    }
}

/// Packet 66, after L_PACKET.
fn lift(bits: &mut BitReader<'_>, dir: u8) -> Part
    requires { 8 ≤ length bits.old }
    ensures { (whole : List ℕ) → bits.old ≡ drop 23 whole
        → (result ≡ packet.Lift dir (value_at 23 8 whole)) × (bits.new ≡ drop 31 whole) }
{
    Part::Lift {
        dir,
        id: next(bits, NID_TSR) as u8,
    }
}
