//! Reading messages from a train.

ghost use Rattle.std.specs.Prelude.{◌≡◌, ◌≤◌, List, ℕ, IfOk, IfErr, length, drop};
ghost use Rattle.ertms_codec.specs.declared.error.DecodeError.{DecodeError as Refusal};
ghost use Rattle.ertms_codec.specs.declared.error.DecodeError.TheVariants.{Message as message_refusal};
ghost use Rattle.ertms_codec.specs.declared.error.DecodeError.TheVariants.{Length as length_refusal};
ghost use Rattle.ertms_codec.specs.declared.error.DecodeError.TheVariants.{Packet as packet_refusal};
ghost use Rattle.ertms_codec.specs.declared.error.DecodeError.TheVariants.{Field as field_refusal};
ghost use Rattle.ertms_codec.specs.declared.from_train.FromTrain.{FromTrain as Received};
ghost use Rattle.ertms_codec.specs.declared.from_train.FromTrain.TheVariants as received;
ghost use Rattle.ertms_codec.specs.Layout.{value_at};
ghost use Rattle.ertms_codec.specs.FromTrain.{Spells};
ghost use Rattle.ertms_codec.specs.Refusals.{Unless, Never};
ghost use Rattle.ertms_codec.specs.RefusalsFromTrain.{Refuses, IsFromTrain, IsLongEnough, HasItsPackets};
ghost use Rattle.ertms_codec.specs.FromTrainAtPlaces.{HasNoSpare, RefusesAtPlaces};
ghost use Rattle.ertms_codec.specs.Reading.{IsReadFromTrain, IsReadBehind, IsReport, IsStopAcknowledgement};
ghost use Rattle.ertms_codec.specs.Reading.{RefusesPosition};

use crate::error::DecodeError;
use crate::from_train::FromTrain;
use crate::position_reader::position;
use crate::reading::{message_number, next, next_two};
use crate::variable::{NID_EM, NID_ENGINE, Q_EMERGENCYSTOP, T_TRAIN};
use ertms_bits::BitReader;

/// The message from a train that some bytes encode, all of them; fill bits are ignored, and packets after the position
/// are skipped (SUBSET-026, chapters 7 and 8).
///
/// # Errors
///
/// The first step that fails: `Length`, `Message`, `Length` (of that message), `Packet`, `Field`.
pub fn read_from_train(bytes: &[u8]) -> Result<FromTrain, DecodeError>
    // The bytes encode the message that is read.
    ensures found { IfOk result (λ m. Spells bytes.now m) }
    // A message that the bytes encode is read. So no bytes encode two messages.
    ensures only { (m : Received) → Spells bytes.now m → result ≡ Ok m }
    // A refusal is the first step that fails.
    ensures refused { IfErr result (λ e. Refuses bytes.now e) }
    // The first step that fails is the refusal.
    ensures exact { (e : Refusal) → Refuses bytes.now e → result ≡ Err e }
{
    read(bytes)
}

/// What `read_from_train` does, by the places of the variables.
fn read(bytes: &[u8]) -> Result<FromTrain, DecodeError>
    ensures ok { IfOk result (λ m. IsReadFromTrain bytes.now m) }
    ensures err { IfErr result (λ e. RefusesAtPlaces bytes.now e) }
{
    let mut bits = BitReader::new(bytes);
    let number = message_number(bytes, &mut bits)?;
    check_length(number, bytes.len())?;
    let (stamp, engine) = next_two(&mut bits, T_TRAIN, NID_ENGINE);
    body(&mut bits, number, stamp as u32, engine as u32)
}

/// Whether a message of this number can have this many bytes.
fn check_length(number: u64, len: usize) -> Result<(), DecodeError>
    ensures ok { IfOk result (λ _. IsFromTrain number × IsLongEnough number len) }
    ensures err { IfErr result (Unless (IsFromTrain number) message_refusal
        (Unless (IsLongEnough number len) length_refusal Never)) }
{
    let is_enough = match number {
        136 | 147 => len >= 10,
        146 => len == 14,
        _ => return Err(DecodeError::Message),
    };
    if is_enough {
        Ok(())
    } else {
        Err(DecodeError::Length)
    }
}

/// What follows the header of a message of this number.
fn body(
    bits: &mut BitReader<'_>,
    number: u64,
    stamp: u32,
    engine: u32,
) -> Result<FromTrain, DecodeError>
    requires known { IsFromTrain number }
    requires acknowledgement { number ≡ 146 → 32 ≤ length bits.old }
    requires of_a_stop { number ≡ 147 → 6 ≤ length bits.old }
    ensures ok { IfOk result (λ m. (whole : List ℕ) → bits.old ≡ drop 74 whole → number ≡ value_at 0 8 whole
        → stamp ≡ value_at 18 32 whole → engine ≡ value_at 50 24 whole → IsReadBehind number whole m) }
    ensures err { IfErr result (λ e. (whole : List ℕ) → bits.old ≡ drop 74 whole
        → Unless (HasItsPackets number whole) packet_refusal (Unless (HasNoSpare number whole) field_refusal Never) e) }
{
    match number {
        136 => report(bits, stamp, engine),
        146 => Ok(acknowledgement(bits, stamp, engine)),
        _ => stop_acknowledgement(bits, stamp, engine),
    }
}

/// Message 136, after its header.
fn report(bits: &mut BitReader<'_>, stamp: u32, engine: u32) -> Result<FromTrain, DecodeError>
    ensures ok { IfOk result (IsReport bits.old stamp engine) }
    ensures err { IfErr result (RefusesPosition bits.old) }
{
    let position = position(bits)?;
    Ok(FromTrain::Report {
        stamp,
        engine,
        position,
    })
}

/// Message 146, after its header.
fn acknowledgement(bits: &mut BitReader<'_>, stamp: u32, engine: u32) -> FromTrain
    requires { 32 ≤ length bits.old }
    ensures { result ≡ received.Ack stamp engine (value_at 0 32 bits.old) }
{
    FromTrain::Ack {
        stamp,
        engine,
        acked: next(bits, T_TRAIN) as u32,
    }
}

/// Message 147, after its header.
fn stop_acknowledgement(
    bits: &mut BitReader<'_>,
    stamp: u32,
    engine: u32,
) -> Result<FromTrain, DecodeError>
    requires { 6 ≤ length bits.old }
    ensures ok { IfOk result (IsStopAcknowledgement bits.old stamp engine) }
    ensures err { IfErr result (RefusesPosition (drop 6 bits.old)) }
{
    let id = next(bits, NID_EM) as u8;
    let answer = next(bits, Q_EMERGENCYSTOP) as u8;
    let position = position(bits)?;
    Ok(FromTrain::StopAck {
        stamp,
        engine,
        id,
        answer,
        position,
    })
}
