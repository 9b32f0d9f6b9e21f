//! A message from a train, in hexadecimal digits.

ghost use Rattle.std.specs.Prelude.{◌≡◌, ◌≤◌, length, IfOk, IfSome, ◌==◌, if◌then◌else◌, true, false};
ghost use Rattle.std.specs.List.{list_all};
ghost use Rattle.std.specs.Option.{unwrap_or};
ghost use Rattle.hex.specs.Hex.{decode_of};
ghost use Rattle.rbc_rule.specs.declared.input.Input.TheVariants.{Bad};
ghost use Rattle.rbc_text.specs.BatchText.{Spelled, is_hex_word, line_of_hex, message_of, words_of, refusal_of};
ghost use Rattle.rbc_text.specs.BatchText.{AreHeard, IsInput};

use crate::digits::bytes_of_digits;
use crate::line::{bad_hex, bad_line};
use ertms_codec::{DecodeError, cut, read_from_train};
use hex::FromHexError;
use memchr::memchr;
use rbc_rule::{Input, Refusal};
use std::alloc::{AllocError, Global};

/// A message of at most this many bytes is read without taking memory. A position report has 23 bytes, or 37 at the
/// most.
const SHORT_MESSAGE: usize = 64;

/// Why bytes that are not a message are refused.
fn refusal_of(fault: DecodeError) -> Refusal
    ensures { result ≡ refusal_of fault }
{
    match fault {
        DecodeError::Length => Refusal::Length,
        DecodeError::Message => Refusal::Message,
        DecodeError::Packet => Refusal::Packet,
        DecodeError::Field => Refusal::Field,
    }
}

/// The input of bytes that a train sent: the message, or a refusal with its code.
fn heard(bytes: &[u8]) -> Input
    ensures { AreHeard bytes.now result }
{
    match read_from_train(bytes) {
        Ok(message) => Input::Received(message),
        Err(fault) => Input::Bad(refusal_of(fault).code()),
    }
}

/// Whether there is no carriage return in a word.
fn has_no_return(word: &[u8]) -> bool
    ensures { result ≡ list_all (λ byte. if byte == 13 then false else true) word.now }
{
    memchr(b'\r', word).is_none()
}

/// Whether a word may be hexadecimal text: it is not empty, and has no carriage return.
fn is_hex_word(word: &[u8]) -> bool
    ensures { result ≡ is_hex_word word.now }
{
    !word.is_empty() && has_no_return(word)
}

/// The input of a text that is a short message in hexadecimal digits and nothing else. Most texts are, and then no
/// separator has to be searched.
fn short_message(text: &[u8]) -> Option<Input>
    ensures { IfSome result (λ input. IsInput (unwrap_or (message_of (words_of text.now)) (Spelled (Bad 1))) input) }
{
    if text.is_empty() || text.len() % 2 != 0 || text.len() > 2 * SHORT_MESSAGE {
        return None;
    }
    let mut buffer = [0u8; SHORT_MESSAGE];
    let bytes = &mut buffer[..text.len() / 2];
    if bytes_of_digits(text, bytes) {
        Some(heard(bytes))
    } else {
        None
    }
}

/// The input of a short word that should be hexadecimal digits.
fn short_word(word: &[u8]) -> Input
    requires { length word.now ≤ 128 }
    ensures { IsInput (line_of_hex (decode_of word.now)) result }
{
    let mut buffer = [0u8; SHORT_MESSAGE];
    let bytes = &mut buffer[..word.len() / 2];
    match hex::decode_to_slice(word, bytes) {
        Ok(()) => heard(bytes),
        Err(_) => bad_hex(),
    }
}

/// The input of a word of any length that should be hexadecimal digits.
fn long_word(alloc: Global, word: &[u8]) -> Result<Input, AllocError>
    ensures { IfOk result (λ input. IsInput (line_of_hex (decode_of word.now)) input) }
{
    match hex::decode(alloc, word) {
        Ok(bytes) => Ok(heard(&bytes)),
        Err(FromHexError::OutOfMemory) => Err(AllocError),
        Err(_) => Ok(bad_hex()),
    }
}

/// The input of a word that should be hexadecimal digits. A short word takes no memory.
fn message_from(alloc: Global, word: &[u8]) -> Result<Input, AllocError>
    ensures { IfOk result (λ input. IsInput (line_of_hex (decode_of word.now)) input) }
{
    if word.len() <= 2 * SHORT_MESSAGE {
        Ok(short_word(word))
    } else {
        long_word(alloc, word)
    }
}

/// The input of the words after `recv`, cut one by one.
fn message_in_words(alloc: Global, arguments: &[u8]) -> Result<Input, AllocError>
    ensures { IfOk result (λ input. IsInput (unwrap_or (message_of (words_of arguments.now)) (Spelled (Bad 1))) input) }
{
    let (word, behind) = cut(arguments, b' ');
    if behind.is_none() && is_hex_word(word) {
        message_from(alloc, word)
    } else {
        Ok(bad_line())
    }
}

/// The input of the words after `recv`.
pub fn message(alloc: Global, arguments: &[u8]) -> Result<Input, AllocError>
    ensures { IfOk result (λ input. IsInput (unwrap_or (message_of (words_of arguments.now)) (Spelled (Bad 1))) input) }
{
    match short_message(arguments) {
        Some(input) => Ok(input),
        None => message_in_words(alloc, arguments),
    }
}
