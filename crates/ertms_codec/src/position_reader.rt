//! Reading the packets of a message from a train.

ghost use Rattle.std.specs.Prelude.{◌≡◌, ◌+◌, ◌-◌, ◌^◌, ◌<◌, ◌≤◌, ◌==◌, List, ℕ, IfOk, IfErr, OnOk, length, drop};
ghost use Rattle.std.specs.Prelude.{if◌then◌else◌};
ghost use Rattle.ertms_codec.specs.declared.error.DecodeError.TheVariants.{Packet as packet_refusal};
ghost use Rattle.ertms_codec.specs.Layout.{value_at};
ghost use Rattle.ertms_codec.specs.FromTrain.{ArePackets, has_length, has_system};
ghost use Rattle.ertms_codec.specs.RefusalsFromTrain.{BeginWithPosition, shift_in, train_place};
ghost use Rattle.ertms_codec.specs.FromTrainAtPlaces.{previous_at, position_at};
ghost use Rattle.ertms_codec.specs.Reading.{BeginsWithPacket, ReadsPosition, RefusesPosition, Takes, train_more};

use crate::error::DecodeError;
use crate::from_train::Position;
use crate::reading::{apart, next, next_two, pass_over};
use crate::variable::{
    D_LRBG, L_DOUBTOVER, L_DOUBTUNDER, L_PACKET, L_TRAININT, M_LEVEL, M_MODE, NID_LRBG, NID_NTC,
    NID_PACKET, NID_PRVLRBG, Q_DIRLRBG, Q_DIRTRAIN, Q_DLRBG, Q_LENGTH, Q_SCALE, V_TRAIN,
};
use ertms_bits::BitReader;

/// How many bits packet 0 has at least.
const POSITION_WIDTH: u64 = 114;

/// How many bits NID_PACKET and L_PACKET have.
const HEADER_WIDTH: u32 = NID_PACKET + L_PACKET;

/// How many bits Q_SCALE and NID_LRBG have, which are taken at once with the two before them.
const GROUP_WIDTH: u32 = Q_SCALE + NID_LRBG;

/// How many bits the variables from D_LRBG to L_DOUBTUNDER have, which are taken at once with Q_LENGTH.
const TO_UNDER_WIDTH: u32 = D_LRBG + Q_DIRLRBG + Q_DLRBG + L_DOUBTOVER + L_DOUBTUNDER;

/// The position packet with which the bits begin. All packets after it are skipped, whatever they are.
///
/// # Errors
///
/// `Packet` only if the bits are not packets to their end, and `Field` only if they are, and the position has a spare
/// value.
pub fn position(bits: &mut BitReader<'_>) -> Result<Position, DecodeError>
    ensures read { IfOk result (λ _. ReadsPosition bits.old) }
    ensures value { IfOk result (λ p. p ≡ position_at bits.old) }
    ensures err { IfErr result (RefusesPosition bits.old) }
{
    let position = position_packet(bits)?;
    pass_over_packets(bits)?;
    if position.scale <= 2 && position.dir <= 2 && position.side <= 2 {
        Ok(position)
    } else {
        Err(DecodeError::Field)
    }
}

/// Packet 0 or 1, with all that L_PACKET counts.
fn position_packet(bits: &mut BitReader<'_>) -> Result<Position, DecodeError>
    ensures packet { IfOk result (λ _. BeginWithPosition bits.old) }
    ensures value { IfOk result (λ p. p ≡ position_at bits.old) }
    ensures rest { OnOk result (bits.new ≡ drop (value_at 8 13 bits.old) bits.old) }
    ensures err { IfErr result (λ e. (¬ BeginWithPosition bits.old) × (e ≡ packet_refusal)) }
{
    let left = bits.left() as u64;
    if left < POSITION_WIDTH {
        return Err(DecodeError::Packet);
    }
    let (number, size, group) = header(bits);
    let least = POSITION_WIDTH + previous_width(number);
    if number > 1 || size < least || size > left {
        return Err(DecodeError::Packet);
    }
    let (position, integrity) = variables(bits, number, group);
    pass_over_train(bits, integrity, size - least)?;
    Ok(position)
}

/// NID_PACKET, L_PACKET, and Q_SCALE and NID_LRBG taken as one.
fn header(bits: &mut BitReader<'_>) -> (u64, u64, u64)
    requires { 47 ≤ length bits.old }
    ensures number { result.0 ≡ value_at 0 8 bits.old }
    ensures size { result.1 ≡ value_at 8 13 bits.old }
    ensures group { Takes 26 (drop 21 bits.old) result.2 bits.new }
    ensures left { length bits.new + 47 ≡ length bits.old }
{
    let (both, group) = next_two(bits, HEADER_WIDTH, GROUP_WIDTH);
    let (number, size) = apart(both, L_PACKET);
    (number, size, group)
}

/// How many bits the variable takes that packet 1 has and packet 0 lacks.
fn previous_width(number: u64) -> u64
    ensures { result ≡ (if number == 1 then 24 else 0) }
{
    if number == 1 {
        u64::from(NID_PRVLRBG)
    } else {
        0
    }
}

/// The variables from Q_SCALE to L_DOUBTUNDER of the packet of this number, and Q_LENGTH after them. `group` is Q_SCALE
/// and NID_LRBG, which were taken as one.
fn variables(bits: &mut BitReader<'_>, number: u64, group: u64) -> (Position, u64)
    requires small { group < 2 ^ 26 }
    requires there { 51 + (if number == 1 then 24 else 0) ≤ length bits.old }
    ensures value { (packet : List ℕ) → Takes 26 (drop 21 packet) group bits.old → number ≡ value_at 0 8 packet
        → (result.0 ≡ position_at packet) × Takes 2 (drop (train_place packet) packet) result.1 bits.new }
    ensures left { length bits.new + (51 + (if number == 1 then 24 else 0)) ≡ length bits.old }
{
    let (scale, lrbg) = apart(group, NID_LRBG);
    let previous = previous_group(bits, number);
    let (to_under, integrity) = next_two(bits, TO_UNDER_WIDTH, Q_LENGTH);
    let (to_over, under) = apart(to_under, L_DOUBTUNDER);
    let (to_side, over) = apart(to_over, L_DOUBTOVER);
    let (to_dir, side) = apart(to_side, Q_DLRBG);
    let (distance, dir) = apart(to_dir, Q_DIRLRBG);
    let position = Position {
        previous,
        scale: scale as u8,
        lrbg: lrbg as u32,
        distance: distance as u16,
        dir: dir as u8,
        side: side as u8,
        over: over as u16,
        under: under as u16,
    };
    (position, integrity)
}

/// NID_PRVLRBG, which packet 1 has and packet 0 lacks.
fn previous_group(bits: &mut BitReader<'_>, number: u64) -> Option<u32>
    requires { (if number == 1 then 24 else 0) ≤ length bits.old }
    ensures value { (packet : List ℕ) → bits.old ≡ drop 47 packet → number ≡ value_at 0 8 packet
        → (result ≡ previous_at packet) × (bits.new ≡ drop (47 + shift_in packet) packet) }
    ensures left { length bits.new + (if number == 1 then 24 else 0) ≡ length bits.old }
{
    if number == 1 {
        Some(next(bits, NID_PRVLRBG) as u32)
    } else {
        None
    }
}

/// The variables after Q_LENGTH, which is `integrity`, to NID_NTC, and what is after them in the packet, which is
/// `more` bits longer than its variables without the optional ones.
fn pass_over_train(bits: &mut BitReader<'_>, integrity: u64, more: u64) -> Result<(), DecodeError>
    requires { more + 16 ≤ length bits.old }
    ensures enough { IfOk result (λ _. train_more integrity bits.old ≤ more) }
    ensures rest { OnOk result (bits.new ≡ drop (16 + more) bits.old) }
    ensures err { IfErr result (λ e. (more < train_more integrity bits.old) × (e ≡ packet_refusal)) }
{
    let length = length_width(integrity);
    if more < u64::from(length) {
        return Err(DecodeError::Packet);
    }
    pass_over(bits, (length + V_TRAIN + Q_DIRTRAIN + M_MODE) as usize);
    let system = system_width(next(bits, M_LEVEL));
    if more < u64::from(length + system) {
        return Err(DecodeError::Packet);
    }
    pass_over(bits, (more - u64::from(length)) as usize);
    Ok(())
}

/// How many bits L_TRAININT takes, by Q_LENGTH.
fn length_width(integrity: u64) -> u32
    ensures { result ≡ (if has_length integrity then 15 else 0) }
{
    match integrity {
        1 | 2 => L_TRAININT,
        _ => 0,
    }
}

/// How many bits NID_NTC takes, by M_LEVEL.
fn system_width(level: u64) -> u32
    ensures { result ≡ (if has_system level then 8 else 0) }
{
    match level {
        1 => NID_NTC,
        _ => 0,
    }
}

/// Any packets, to the fill bits.
fn pass_over_packets(bits: &mut BitReader<'_>) -> Result<(), DecodeError>
    ensures ok { IfOk result (λ _. ArePackets bits.old) }
    ensures err { IfErr result (λ e. (¬ ArePackets bits.old) × (e ≡ packet_refusal)) }
{
    while bits.left() >= 8 {
        pass_over_packet(bits)?;
    }
    Ok(())
}

/// One packet, by its L_PACKET.
fn pass_over_packet(bits: &mut BitReader<'_>) -> Result<(), DecodeError>
    ensures ok { IfOk result (λ _. BeginsWithPacket bits.old) }
    ensures rest { OnOk result (bits.new ≡ drop (value_at 8 13 bits.old) bits.old) }
    ensures err { IfErr result (λ e. (¬ BeginsWithPacket bits.old) × (e ≡ packet_refusal)) }
{
    let left = bits.left();
    if left < 21 {
        return Err(DecodeError::Packet);
    }
    let (_, size) = next_two(bits, NID_PACKET, L_PACKET);
    let size = size as usize;
    if size < 21 || size > left {
        return Err(DecodeError::Packet);
    }
    pass_over(bits, size - 21);
    Ok(())
}
