//! Reading a message to a train from its text.

ghost use Rattle.std.specs.Prelude.{◌≡◌, ◌≤◌, ◌∷◌, [], IfOk, IfErr, IsTrue, ℕ, List};
ghost use Rattle.std.specs.Fmt.{decimal};
ghost use Rattle.std.specs.List.{flat_map, AllByRecursion};
ghost use Rattle.ertms_codec.specs.Encoding.{IsEncodeFault};
ghost use Rattle.ertms_codec.specs.Grammar.{Grammar, Ends, FirstWrong, behind_to_train, head_then, named, packet_then};
ghost use Rattle.ertms_codec.specs.Grammar.{restrict_then, lift_then, one, first_packets};
ghost use Rattle.ertms_codec.specs.Grammar.{stop_at as stop_at_grammar};
ghost use Rattle.ertms_codec.specs.Names.{name_text};
ghost use Rattle.ertms_codec.specs.PacketsToTrain.{ArePacketsThatFit, IdFits, PacketFits};
ghost use Rattle.ertms_codec.specs.Texts.{flag_text, is_number_to_train};
ghost use Rattle.ertms_codec.specs.ToTrain.{BodyFits, Fits, HoldsReference, head_of};
ghost use Rattle.ertms_codec.specs.Words.{Passes, body_words, head_words, kind_to_train, packet_words, words_to_train};
ghost use Rattle.ertms_codec.specs.Words.{part_number, part_words};
ghost use Rattle.ertms_codec.specs.declared.wrong_word.Expected.TheVariants.{Packet as a_packet};
ghost use Rattle.ertms_codec.specs.declared.name.Name.TheVariants.{Em};
ghost use Rattle.ertms_codec.specs.declared.wrong_word.EncodeError.TheVariants.{OutOfMemory};

use crate::name::Name;
use crate::packets::{MOST_PACKETS, Packets, Part};
use crate::to_train::{Head, ToTrain};
use crate::words::Words;
use crate::wrong_word::{EncodeError, Expected, WrongWord};
use std::alloc::Global;

/// Reads what stands behind the number of a message, to the end of the text.
///
/// # Errors
///
/// The first wrong word, or `OutOfMemory`.
pub fn message_of(alloc: Global, words: &mut Words<'_>, number: u32) -> Result<ToTrain, EncodeError>
    requires { IsTrue (is_number_to_train number) }
    ensures fits { IfOk result (λ m. Fits m × HoldsReference m) }
    ensures kind { IfOk result (λ m. kind_to_train m ≡ decimal number) }
    ensures ok { IfOk result (λ m. words.old.words ≡ words_to_train m) }
    ensures err { IfErr result (IsEncodeFault
        (FirstWrong words.old.next (behind_to_train (decimal number)) words.old.words)) }
    // Only packets take memory.
    ensures memory { IfErr result (λ e. e ≡ OutOfMemory → number ≡ 24) }
{
    let head = head(words)?;
    match number {
        15 => Ok(stop_at(words, head)?),
        16 => {
            let id = last_id(words)?;
            Ok(ToTrain::Stop { head, id })
        }
        18 => {
            let id = last_id(words)?;
            Ok(ToTrain::Revoke { head, id })
        }
        _ => {
            let packets = packets(alloc, words)?;
            Ok(ToTrain::General { head, packets })
        }
    }
}

/// Reads what begins every message, behind its number.
///
/// # Errors
///
/// The first wrong word.
fn head(words: &mut Words<'_>) -> Result<Head, WrongWord>
    ensures range { IfOk result (λ head. (head.stamp ≤ 4294967295) × (head.lrbg ≤ 16777215)) }
    ensures ok { IfOk result (λ head. Passes (head_words head) words.old words.new) }
    ensures err { IfErr result (λ wrong. (next : Grammar)
        → FirstWrong words.old.next (head_then next) words.old.words wrong) }
{
    let stamp = words.named(Name::Stamp, u32::MAX)?;
    let ack = words.flag(Name::Ack)?;
    let lrbg = words.named(Name::Lrbg, 16_777_215)?;
    Ok(Head { stamp, ack, lrbg })
}

/// Reads the body of message 15, to the end of the text.
///
/// # Errors
///
/// The first wrong word.
fn stop_at(words: &mut Words<'_>, head: Head) -> Result<ToTrain, WrongWord>
    ensures fits { IfOk result (λ m. BodyFits m × HoldsReference m) }
    ensures kind { IfOk result (λ m. kind_to_train m ≡ decimal 15) }
    ensures head { IfOk result (λ m. head_of m ≡ head) }
    ensures ok { IfOk result (λ m. words.old.words ≡ body_words m) }
    ensures err { IfErr result (FirstWrong words.old.next stop_at_grammar words.old.words) }
{
    let id = words.named(Name::Em, 15)?;
    let scale = words.named(Name::Scale, 2)?;
    let reference = words.reference()?;
    let dir = words.named(Name::Dir, 2)?;
    let distance = words.named(Name::Stop, 32_767)?;
    words.end()?;
    Ok(ToTrain::StopAt {
        head,
        id: id as u8,
        scale: scale as u8,
        reference,
        dir: dir as u8,
        distance: distance as u16,
    })
}

/// Reads the identifier of an emergency stop, to the end of the text.
///
/// # Errors
///
/// The first wrong word.
fn last_id(words: &mut Words<'_>) -> Result<u8, WrongWord>
    ensures range { IfOk result (λ id. id ≤ 15) }
    ensures ok { IfOk result (λ id. words.old.words ≡ name_text Em ∷ decimal id ∷ []) }
    ensures err { IfErr result (FirstWrong words.old.next (named Em 15 Ends) words.old.words) }
{
    let id = words.named(Name::Em, 15)?;
    words.end()?;
    Ok(id as u8)
}

/// Reads 1 to 100 packets, to the end of the text.
///
/// # Errors
///
/// The first wrong word, or `OutOfMemory`.
fn packets(alloc: Global, words: &mut Words<'_>) -> Result<Packets, EncodeError>
    ensures fit { IfOk result ArePacketsThatFit }
    ensures ids { IfOk result (AllByRecursion IdFits) }
    ensures ok { IfOk result (λ packets. words.old.words ≡ flat_map packet_words packets) }
    ensures err { IfErr result (IsEncodeFault (FirstWrong words.old.next first_packets words.old.words)) }
{
    let first = packet(words)?;
    let mut packets = Packets::of(alloc, first)?;
    while packets.count() < MOST_PACKETS && !words.is_empty() {
        let part = packet(words)?;
        packets.push(part)?;
    }
    words.end()?;
    Ok(packets)
}

/// Reads a packet, from its number on.
///
/// # Errors
///
/// The first wrong word.
fn packet(words: &mut Words<'_>) -> Result<Part, WrongWord>
    ensures fits { IfOk result PacketFits }
    ensures id { IfOk result IdFits }
    ensures ok { IfOk result (λ part. Passes (packet_words part) words.old words.new) }
    ensures err { IfErr result (λ wrong. (next : Grammar)
        → FirstWrong words.old.next (one a_packet (λ number. packet_then number next)) words.old.words wrong) }
{
    let number = words.number(Expected::Packet)?;
    match number {
        65 => restriction(words),
        _ => revocation(words),
    }
}

/// Reads packet 65, behind its number.
///
/// # Errors
///
/// The first wrong word.
fn restriction(words: &mut Words<'_>) -> Result<Part, WrongWord>
    ensures fits { IfOk result PacketFits }
    ensures id { IfOk result IdFits }
    ensures number { IfOk result (λ part. part_number part ≡ decimal 65) }
    ensures ok { IfOk result (λ part. Passes (part_words part) words.old words.new) }
    ensures err { IfErr result (λ wrong. (next : Grammar)
        → FirstWrong words.old.next (restrict_then next) words.old.words wrong) }
{
    let dir = words.named(Name::Dir, 2)?;
    let scale = words.named(Name::Scale, 2)?;
    let id = words.named(Name::Tsr, 255)?;
    let start = words.named(Name::Start, 32_767)?;
    let length = words.named(Name::Length, 32_767)?;
    let front = words.flag(Name::Front)?;
    let speed = words.named(Name::Speed, 120)?;
    Ok(Part::Restrict {
        dir: dir as u8,
        scale: scale as u8,
        id: id as u8,
        start: start as u16,
        length: length as u16,
        front,
        speed: speed as u8,
    })
}

/// Reads packet 66, behind its number.
///
/// # Errors
///
/// The first wrong word.
fn revocation(words: &mut Words<'_>) -> Result<Part, WrongWord>
    ensures fits { IfOk result PacketFits }
    ensures id { IfOk result IdFits }
    ensures number { IfOk result (λ part. part_number part ≡ decimal 66) }
    ensures ok { IfOk result (λ part. Passes (part_words part) words.old words.new) }
    ensures err { IfErr result (λ wrong. (next : Grammar)
        → FirstWrong words.old.next (lift_then next) words.old.words wrong) }
{
    let dir = words.named(Name::Dir, 2)?;
    let id = words.named(Name::Tsr, 255)?;
    Ok(Part::Lift {
        dir: dir as u8,
        id: id as u8,
    })
}
