//! The text of messages in place of their digits.

ghost use Rattle.std.specs.Prelude.{◌≡◌, ◌∷◌, [], IfOk, true, false};
ghost use Rattle.rbc_text.specs.BatchText.{words_of};
ghost use Rattle.rbc_words.specs.Decoding.{Decodes, Says, HasText, IsFound, digits_in, is_to_train, shown_digits};
ghost use Rattle.rbc_words.specs.Rules.{IsTurned};
ghost use Rattle.rbc_words.specs.Filters.{Filters};

use crate::filter::{FilterError, filter_lines};
use crate::line_fault::LineFault;
use crate::rule::{LineRule, Outlook, RuleError};
use ertms_codec::{ReadError, cut, read_from_train, read_to_train};
use hex::FromHexError;
use rbc_text::decimal;
use std::alloc::{AllocError, Global};
use std::io::{Read, Write};

/// No line that ends in a message has more bytes: two decimals of 10 digits, and the digits of 1,023 bytes.
const LONGEST: usize = 2_068;

/// From whom to whom a message is.
#[derive(Clone, Copy, Debug, PartialEq, Eq)]
pub enum Direction {
    /// From a train.
    FromTrain,
    /// To a train.
    ToTrain,
    /// As its first byte says.
    Either,
}

/// Puts the text of a message in place of its digits, where they are all of a line, or stand behind `recv` (the message
/// is from a train), or behind two decimals (it is to a train). Any other line stays as it is.
struct Decoding;

impl LineRule for Decoding {
    type Fault = LineFault;

    ghost becomes = { λ _ line text. Decodes line text };

    ghost is_wrong = { λ _ _ _. ⊥ };

    fn turn(&self, alloc: Global, line: &[u8]) -> Result<Option<Vec<u8>>, RuleError<LineFault>> {
        Ok(decoded(alloc, line)?)
    }

    fn outlook(&self, begun: &[u8]) -> Outlook<LineFault> {
        if begun.len() > LONGEST {
            Outlook::Itself
        } else {
            Outlook::Open
        }
    }
}

/// Reads lines to the end of the reader, and writes each with the text of its message in place of the digits, if it
/// ends in a message. Each line is written with a line feed, also a last one that lacks it. What has been read is
/// written and flushed before the reader is asked for more. However long a line is, at most 69,632 bytes of it are
/// kept: a long one is passed on as it comes.
///
/// # Errors
///
/// See [`FilterError`]. No line is wrong.
pub fn decode_lines<R: Read, W: Write>(
    alloc: Global,
    reader: &mut R,
    writer: &mut W,
) -> Result<(), FilterError<LineFault>>
    ensures { Filters Decodes (λ _ _. ⊥) (R.remaining reader.old) (R.remaining reader.new)
        (W.contents writer.old) (W.contents writer.new) result }
{
    filter_lines(alloc, &Decoding, reader, writer)
}

/// What a line becomes, or `None` where that is the line itself. Fails only for lack of memory.
fn decoded(alloc: Global, line: &[u8]) -> Result<Option<Vec<u8>>, AllocError>
    ensures { IfOk result (IsTurned Decodes line.now) }
{
    let Some((digits, direction)) = digits_in(line) else {
        return Ok(None);
    };
    let Some(text) = text_of_digits(alloc, digits, direction)? else {
        return Ok(None);
    };
    let front = &line[..line.len() - digits.len()];
    let mut whole = Vec::new(alloc);
    whole.extend_from_slice(front)?;
    whole.extend_from_slice(&text)?;
    Ok(Some(whole))
}

/// The word of a line that may be the digits of a message, and the direction of that message.
fn digits_in(line: &[u8]) -> Option<(&[u8], Direction)>
    ensures { shown_digits result ≡ digits_in (words_of line.now) }
{
    let (first, behind) = cut(line, b' ');
    let Some(behind) = behind else {
        return Some((first, Direction::Either));
    };
    let (second, behind) = cut(behind, b' ');
    let Some(behind) = behind else {
        return digits_received(first, second);
    };
    match cut(behind, b' ') {
        (third, None) => digits_sent(first, second, third),
        (_, Some(_)) => None,
    }
}

/// The word behind `recv`.
fn digits_received<'a>(command: &[u8], word: &'a [u8]) -> Option<(&'a [u8], Direction)>
    ensures { shown_digits result ≡ digits_in (command.now ∷ word.now ∷ []) }
{
    if command == b"recv".as_slice() {
        Some((word, Direction::FromTrain))
    } else {
        None
    }
}

/// The word behind the numbers of an engine and of an input.
fn digits_sent<'a>(engine: &[u8], input: &[u8], word: &'a [u8]) -> Option<(&'a [u8], Direction)>
    ensures { shown_digits result ≡ digits_in (engine.now ∷ input.now ∷ word.now ∷ []) }
{
    if decimal(engine).is_some() && decimal(input).is_some() {
        Some((word, Direction::ToTrain))
    } else {
        None
    }
}

/// The text of the message that digits spell, if they spell one. Fails only for lack of memory.
fn text_of_digits(
    alloc: Global,
    digits: &[u8],
    direction: Direction,
) -> Result<Option<Vec<u8>>, AllocError>
    ensures { IfOk result (IsFound (HasText direction digits.now)) }
{
    match hex::decode(alloc, digits) {
        Ok(bytes) => text_of(alloc, &bytes, direction),
        Err(FromHexError::OutOfMemory) => Err(AllocError),
        Err(_) => Ok(None),
    }
}

/// The text of the message that bytes spell, if they spell one in this direction. Fails only for lack of memory.
fn text_of(alloc: Global, bytes: &[u8], direction: Direction) -> Result<Option<Vec<u8>>, AllocError>
    ensures { IfOk result (IsFound (Says (is_to_train direction bytes.now) bytes.now)) }
{
    if is_to_train(direction, bytes) {
        text_to_train(alloc, bytes)
    } else {
        text_from_train(alloc, bytes)
    }
}

/// Whether the message of these bytes is one to a train.
fn is_to_train(direction: Direction, bytes: &[u8]) -> bool
    ensures { result ≡ is_to_train direction bytes.now }
{
    match direction {
        Direction::FromTrain => false,
        Direction::ToTrain => true,
        Direction::Either => matches!(bytes.first(), Some(15 | 16 | 18 | 24)),
    }
}

/// The text of the message to a train that bytes spell, if they spell one. Fails only for lack of memory.
fn text_to_train(alloc: Global, bytes: &[u8]) -> Result<Option<Vec<u8>>, AllocError>
    ensures { IfOk result (IsFound (Says true bytes.now)) }
{
    match read_to_train(alloc, bytes) {
        Ok(message) => Ok(Some(format!(in alloc; "{message}")?.into_bytes())),
        Err(ReadError::OutOfMemory) => Err(AllocError),
        Err(ReadError::Decode(_)) => Ok(None),
    }
}

/// The text of the message from a train that bytes spell, if they spell one. Fails only for lack of memory.
fn text_from_train(alloc: Global, bytes: &[u8]) -> Result<Option<Vec<u8>>, AllocError>
    ensures { IfOk result (IsFound (Says false bytes.now)) }
{
    match read_from_train(bytes) {
        Ok(message) => Ok(Some(format!(in alloc; "{message}")?.into_bytes())),
        Err(_) => Ok(None),
    }
}
