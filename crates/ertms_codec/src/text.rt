//! Messages as text.

ghost use Rattle.std.specs.Prelude.{◌≡◌, ◌⊎◌, Some, IfOk, IfErr, true, false, slice_get, string_bytes};
ghost use Rattle.std.specs.Fmt.{DisplaysOnOk};
ghost use Rattle.std.specs.List.{flat_map};
ghost use Rattle.ertms_codec.specs.declared.error.DecodeError.{DecodeError as Refusal};
ghost use Rattle.ertms_codec.specs.declared.text.DescribeError.TheVariants.{Decode};
ghost use Rattle.ertms_codec.specs.Texts.{head_text, packet_text, packet_behind, text_to_train, position_text};
ghost use Rattle.ertms_codec.specs.Texts.{text_from_train, is_to_train, HasText, HasTextOf, IsRefused, IsRefusedOf};
ghost use Rattle.ertms_codec.specs.Texts.{IsFault, IsFaultOf, IsWantOfMemory, fault_of_reading};

use crate::error::{DecodeError, ReadError};
use crate::from_train::{FromTrain, Position};
use crate::from_train_reader::read_from_train;
use crate::packets::{Packets, Part};
use crate::to_train::{Head, ToTrain};
use crate::to_train_reader::read_to_train;
use std::alloc::{AllocError, Global};
use std::fmt;
use thiserror::Error;

/// Why bytes have no text.
#[derive(Clone, Copy, Debug, PartialEq, Eq, Error)]
pub enum DescribeError {
    /// They are no message, by the reader that their first byte chooses.
    #[error("{0}")]
    Decode(DecodeError),
    /// Memory ran out. It may come in place of the text, and in place of a refusal of message 24 alone.
    #[error("out of memory")]
    OutOfMemory,
}

impl From<DecodeError> for DescribeError {
    ghost from_gives = { λ refusal e. e ≡ Decode refusal };

    fn from(refusal: DecodeError) -> DescribeError {
        DescribeError::Decode(refusal)
    }
}

impl From<ReadError> for DescribeError {
    ghost from_gives = { λ fault e. e ≡ fault_of_reading fault };

    fn from(fault: ReadError) -> DescribeError {
        match fault {
            ReadError::Decode(refusal) => DescribeError::Decode(refusal),
            ReadError::OutOfMemory => DescribeError::OutOfMemory,
        }
    }
}

impl From<AllocError> for DescribeError {
    ghost use Rattle.ertms_codec.specs.declared.text.DescribeError.TheVariants.{OutOfMemory};

    ghost from_gives = { λ _ e. e ≡ OutOfMemory };

    fn from(_: AllocError) -> DescribeError {
        DescribeError::OutOfMemory
    }
}

impl fmt::Display for Head {
    ghost output = { λ head. Some (head_text head) };

    fn fmt<W: fmt::Write>(&self, f: &mut fmt::Formatter<W>) -> fmt::Result {
        let Head { stamp, ack, lrbg } = *self;
        let ack = u8::from(ack);
        write!(f, "stamp {stamp} ack {ack} lrbg {lrbg}")
    }
}

impl fmt::Display for Part {
    ghost output = { λ part. Some (packet_text part) };

    fn fmt<W: fmt::Write>(&self, f: &mut fmt::Formatter<W>) -> fmt::Result {
        match *self {
            Part::Restrict {
                dir,
                scale,
                id,
                start,
                length,
                front,
                speed,
            } => {
                let front = u8::from(front);
                write!(
                    f,
                    "65 dir {dir} scale {scale} tsr {id} start {start} length {length} front {front} speed {speed}"
                )
            }
            Part::Lift { dir, id } => write!(f, "66 dir {dir} tsr {id}"),
        }
    }
}

impl fmt::Display for ToTrain {
    ghost output = { λ m. Some (text_to_train m) };

    fn fmt<W: fmt::Write>(&self, f: &mut fmt::Formatter<W>) -> fmt::Result {
        match self {
            ToTrain::StopAt {
                head,
                id,
                scale,
                reference,
                dir,
                distance,
            } => {
                write!(
                    f,
                    "15 {head} em {id} scale {scale} ref {reference} dir {dir} stop {distance}"
                )
            }
            ToTrain::Stop { head, id } => write!(f, "16 {head} em {id}"),
            ToTrain::Revoke { head, id } => write!(f, "18 {head} em {id}"),
            ToTrain::General { head, packets } => {
                write!(f, "24 {head}")?;
                write_packets(f, packets)
            }
        }
    }
}

/// Writes packets, each with a space before it.
fn write_packets<W: fmt::Write>(f: &mut fmt::Formatter<W>, packets: &Packets) -> fmt::Result
    ensures { DisplaysOnOk W.write_str_gives f.old result (Some (flat_map packet_behind packets.now)) f.new }
{
    for index in 0..packets.count() {
        let part = packets.at(index);
        write!(f, " {part}")?;
    }
    Ok(())
}

impl fmt::Display for Position {
    ghost output = { λ p. Some (position_text p) };

    fn fmt<W: fmt::Write>(&self, f: &mut fmt::Formatter<W>) -> fmt::Result {
        let Position {
            previous,
            scale,
            lrbg,
            distance,
            dir,
            side,
            over,
            under,
        } = *self;
        match previous {
            None => write!(f, "0 scale {scale} lrbg {lrbg}")?,
            Some(previous) => write!(f, "1 scale {scale} lrbg {lrbg} previous {previous}")?,
        }
        write!(
            f,
            " distance {distance} dir {dir} side {side} over {over} under {under}"
        )
    }
}

impl fmt::Display for FromTrain {
    ghost output = { λ m. Some (text_from_train m) };

    fn fmt<W: fmt::Write>(&self, f: &mut fmt::Formatter<W>) -> fmt::Result {
        match *self {
            FromTrain::Report {
                stamp,
                engine,
                position,
            } => { write!(f, "136 stamp {stamp} engine {engine} {position}") }
            FromTrain::Ack {
                stamp,
                engine,
                acked,
            } => { write!(f, "146 stamp {stamp} engine {engine} acked {acked}") }
            FromTrain::StopAck {
                stamp,
                engine,
                id,
                answer,
                position,
            } => {
                write!(
                    f,
                    "147 stamp {stamp} engine {engine} em {id} answer {answer} {position}"
                )
            }
        }
    }
}

/// The message whose encoding some bytes are, as one line of text: 15, 16, 18 or 24 as the first byte is for a
/// message to a train, all else for one from a train (own rule).
pub fn describe(alloc: Global, bytes: &[u8]) -> Result<Vec<u8>, DescribeError>
    ensures text { IfOk result (λ text. HasText bytes.now text.items) }
    ensures fault { IfErr result (λ fault. IsFault bytes.now fault) }
    ensures refused { (e : Refusal) → IsRefused bytes.now e
        → (result ≡ Err (Decode e)) ⊎ IsWantOfMemory bytes.now result }
{
    let line = if is_to_train(bytes) {
        line_to_train(alloc, bytes)?
    } else {
        line_from_train(alloc, bytes)?
    };
    Ok(line.into_bytes())
}

/// Whether the first byte is the number of a message to a train.
fn is_to_train(bytes: &[u8]) -> bool
    ensures { result ≡ is_to_train (slice_get bytes.now 0) }
{
    matches!(bytes.first(), Some(15 | 16 | 18 | 24))
}

/// The line of a message to a train.
fn line_to_train(alloc: Global, bytes: &[u8]) -> Result<String, DescribeError>
    ensures text { IfOk result (λ line. HasTextOf true bytes.now (string_bytes line)) }
    ensures fault { IfErr result (λ fault. IsFaultOf true bytes.now fault) }
    ensures refused { (e : Refusal) → IsRefusedOf true bytes.now e
        → (result ≡ Err (Decode e)) ⊎ IsWantOfMemory bytes.now result }
{
    Ok(format!(in alloc; "{}\n", read_to_train(alloc, bytes)?)?)
}

/// The line of a message from a train.
fn line_from_train(alloc: Global, bytes: &[u8]) -> Result<String, DescribeError>
    ensures text { IfOk result (λ line. HasTextOf false bytes.now (string_bytes line)) }
    ensures fault { IfErr result (λ fault. IsFaultOf false bytes.now fault) }
    ensures refused { (e : Refusal) → IsRefusedOf false bytes.now e → result ≡ Err (Decode e) }
{
    Ok(format!(in alloc; "{}\n", read_from_train(bytes)?)?)
}
