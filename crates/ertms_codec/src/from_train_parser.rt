//! Reading a message from a train from its text.

ghost use Rattle.std.specs.Prelude.{◌≡◌, ◌≤◌, ◌∷◌, ◌++◌, IfOk, IfErr, IsTrue, ◌==◌, ℕ, List};
ghost use Rattle.std.specs.Fmt.{decimal};
ghost use Rattle.std.specs.List.{slice_split};
ghost use Rattle.ertms_codec.specs.declared.from_train.FromTrain.{FromTrain as Received};
ghost use Rattle.ertms_codec.specs.FromTrainWritten.{IsInRange, PositionIsInRange, IsNumberOfGroup};
ghost use Rattle.ertms_codec.specs.Grammar.{Grammar, FirstWrong, is_number_from_train, behind_from_train, from_train};
ghost use Rattle.ertms_codec.specs.Grammar.{train_then, report_then, ack_then, stop_ack_then, position_then, previous_then};
ghost use Rattle.ertms_codec.specs.Texts.{text_from_train};
ghost use Rattle.ertms_codec.specs.Words.{Passes, train_words, position_words, packet_word, previous_words, kind_from_train, words_from_train};

use crate::from_train::{FromTrain, Position};
use crate::name::Name;
use crate::words::Words;
use crate::wrong_word::{Expected, WrongWord};

/// The greatest number of an on-board equipment, and of a balise group.
const MAX_NUMBER: u32 = 16_777_215;

/// The greatest number of units of a distance.
const MAX_DISTANCE: u32 = 32_767;

/// The message from a train whose text this is, as `describe` writes it but for the line feed.
///
/// # Errors
///
/// The first wrong word.
pub fn parse_from_train(text: &[u8]) -> Result<FromTrain, WrongWord>
    // The text is that of the message.
    ensures found { IfOk result (λ m. IsInRange m × (text.now ≡ text_from_train m)) }
    // The text of each message is read.
    ensures only { (m : Received) → IsInRange m → text.now ≡ text_from_train m → result ≡ Ok m }
    // A refusal is the first word that is wrong.
    ensures refused { IfErr result (λ wrong.
        FirstWrong 1 from_train (slice_split (λ byte. byte == 32) text.now) wrong) }
{
    message(&mut Words::new(text))
}

/// Reads a message, and nothing behind it.
///
/// # Errors
///
/// The first wrong word.
fn message(words: &mut Words<'_>) -> Result<FromTrain, WrongWord>
    ensures range { IfOk result IsInRange }
    ensures ok { IfOk result (λ m. words.old.words ≡ kind_from_train m ∷ words_from_train m) }
    ensures err { IfErr result (FirstWrong words.old.next from_train words.old.words) }
{
    let number = words.number(Expected::FromTrain)?;
    let message = message_of(words, number)?;
    words.end()?;
    Ok(message)
}

/// Reads what stands behind the number of a message.
///
/// # Errors
///
/// The first wrong word.
pub fn message_of(words: &mut Words<'_>, number: u32) -> Result<FromTrain, WrongWord>
    requires { IsTrue (is_number_from_train number) }
    ensures range { IfOk result IsInRange }
    ensures kind { IfOk result (λ m. kind_from_train m ≡ decimal number) }
    ensures ok { IfOk result (λ m. Passes (words_from_train m) words.old words.new) }
    ensures err { IfErr result (λ wrong. (next : Grammar)
        → FirstWrong words.old.next (behind_from_train next (decimal number)) words.old.words wrong) }
{
    match number {
        136 => report(words),
        146 => acknowledgement(words),
        _ => stop_acknowledgement(words),
    }
}

/// Reads message 136, behind its number.
///
/// # Errors
///
/// The first wrong word.
fn report(words: &mut Words<'_>) -> Result<FromTrain, WrongWord>
    ensures range { IfOk result IsInRange }
    ensures kind { IfOk result (λ m. kind_from_train m ≡ decimal 136) }
    ensures ok { IfOk result (λ m. Passes (words_from_train m) words.old words.new) }
    ensures err { IfErr result (λ wrong. (next : Grammar)
        → FirstWrong words.old.next (report_then next) words.old.words wrong) }
{
    let (stamp, engine) = train(words)?;
    let position = position(words)?;
    Ok(FromTrain::Report {
        stamp,
        engine,
        position,
    })
}

/// Reads message 146, behind its number.
///
/// # Errors
///
/// The first wrong word.
fn acknowledgement(words: &mut Words<'_>) -> Result<FromTrain, WrongWord>
    ensures range { IfOk result IsInRange }
    ensures kind { IfOk result (λ m. kind_from_train m ≡ decimal 146) }
    ensures ok { IfOk result (λ m. Passes (words_from_train m) words.old words.new) }
    ensures err { IfErr result (λ wrong. (next : Grammar)
        → FirstWrong words.old.next (ack_then next) words.old.words wrong) }
{
    let (stamp, engine) = train(words)?;
    let acked = words.named(Name::Acked, u32::MAX)?;
    Ok(FromTrain::Ack {
        stamp,
        engine,
        acked,
    })
}

/// Reads message 147, behind its number.
///
/// # Errors
///
/// The first wrong word.
fn stop_acknowledgement(words: &mut Words<'_>) -> Result<FromTrain, WrongWord>
    ensures range { IfOk result IsInRange }
    ensures kind { IfOk result (λ m. kind_from_train m ≡ decimal 147) }
    ensures ok { IfOk result (λ m. Passes (words_from_train m) words.old words.new) }
    ensures err { IfErr result (λ wrong. (next : Grammar)
        → FirstWrong words.old.next (stop_ack_then next) words.old.words wrong) }
{
    let (stamp, engine) = train(words)?;
    let id = words.named(Name::Em, 15)?;
    let answer = words.named(Name::Answer, 3)?;
    let position = position(words)?;
    Ok(FromTrain::StopAck {
        stamp,
        engine,
        id: id as u8,
        answer: answer as u8,
        position,
    })
}

/// Reads the stamp of a message and the number of the on-board equipment.
///
/// # Errors
///
/// The first wrong word.
fn train(words: &mut Words<'_>) -> Result<(u32, u32), WrongWord>
    ensures range { IfOk result (λ read. (read.0 ≤ 4294967295) × (read.1 ≤ 16777215)) }
    ensures ok { IfOk result (λ read. Passes (train_words read.0 read.1) words.old words.new) }
    ensures err { IfErr result (λ wrong. (next : Grammar)
        → FirstWrong words.old.next (train_then next) words.old.words wrong) }
{
    let stamp = words.named(Name::Stamp, u32::MAX)?;
    let engine = words.named(Name::Engine, MAX_NUMBER)?;
    Ok((stamp, engine))
}

/// Reads a position, from the number of its packet on.
///
/// # Errors
///
/// The first wrong word.
fn position(words: &mut Words<'_>) -> Result<Position, WrongWord>
    ensures range { IfOk result PositionIsInRange }
    ensures ok { IfOk result (λ p. Passes (position_words p) words.old words.new) }
    ensures err { IfErr result (λ wrong. (next : Grammar)
        → FirstWrong words.old.next (position_then next) words.old.words wrong) }
{
    let packet = words.number(Expected::PositionPacket)?;
    let scale = words.named(Name::Scale, 2)?;
    let lrbg = words.named(Name::Lrbg, MAX_NUMBER)?;
    let previous = previous(words, packet)?;
    let distance = words.named(Name::Distance, MAX_DISTANCE)?;
    let dir = words.named(Name::Dir, 2)?;
    let side = words.named(Name::Side, 2)?;
    let over = words.named(Name::Over, MAX_DISTANCE)?;
    let under = words.named(Name::Under, MAX_DISTANCE)?;
    Ok(Position {
        previous,
        scale: scale as u8,
        lrbg,
        distance: distance as u16,
        dir: dir as u8,
        side: side as u8,
        over: over as u16,
        under: under as u16,
    })
}

/// Reads the balise group before the last relevant one, where the packet of the position is packet 1.
///
/// # Errors
///
/// The first wrong word.
fn previous(words: &mut Words<'_>, packet: u32) -> Result<Option<u32>, WrongWord>
    requires { packet ≤ 1 }
    ensures range { IfOk result IsNumberOfGroup }
    ensures packet { IfOk result (λ previous. packet_word previous ≡ decimal packet) }
    ensures ok { IfOk result (λ previous. Passes (previous_words previous) words.old words.new) }
    ensures err { IfErr result (λ wrong. (next : Grammar)
        → FirstWrong words.old.next (previous_then (decimal packet) next) words.old.words wrong) }
{
    if packet == 0 {
        return Ok(None);
    }
    let previous = words.named(Name::Previous, MAX_NUMBER)?;
    Ok(Some(previous))
}
