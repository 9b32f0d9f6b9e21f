//! From the text of a message to its bytes.

ghost use Rattle.std.specs.Prelude.{◌≡◌, ◌≤◌, ◌==◌, ◌⊎◌, Err, IfOk, IfErr, take};
ghost use Rattle.std.specs.List.{slice_split};
ghost use Rattle.ertms_codec.specs.declared.from_train.FromTrain.{FromTrain as Received};
ghost use Rattle.ertms_codec.specs.declared.to_train.ToTrain.{ToTrain as Sent};
ghost use Rattle.ertms_codec.specs.declared.wrong_word.EncodeError.TheVariants.{OutOfMemory, Word};
ghost use Rattle.ertms_codec.specs.declared.wrong_word.WrongWord.{WrongWord};
ghost use Rattle.ertms_codec.specs.Encoding.{Encodes, EncodesWords, IsEncodeFault, IsInRangeToTrain, IsOfGeneral, IsWantOfMemory};
ghost use Rattle.ertms_codec.specs.FromTrainWritten.{IsInRange};
ghost use Rattle.ertms_codec.specs.Grammar.{FirstWrong, message};
ghost use Rattle.ertms_codec.specs.Texts.{text_from_train, text_to_train, is_number_to_train};

use crate::from_train_writer::write_from_train;
use crate::words::Words;
use crate::write::write_to_train;
use crate::wrong_word::{EncodeError, Expected};
use crate::{from_train_parser, to_train_parser};
use std::alloc::Global;

/// The bytes of the message whose text this is, as `describe` writes it but for the line feed: those that
/// `write_to_train` or `write_from_train` write of it.
///
/// # Errors
///
/// The first wrong word, or `OutOfMemory`.
pub fn encode(alloc: Global, text: &[u8]) -> Result<Vec<u8>, EncodeError>
    // The bytes are the one spelling of a message with this text.
    ensures encodes { IfOk result (λ bytes. Encodes text.now bytes.items) }
    // The text of each message is encoded, unless memory runs out.
    ensures to_train { (m : Sent) → IsInRangeToTrain m → text.now ≡ text_to_train m
        → IfErr result (λ e. e ≡ OutOfMemory) }
    ensures from_train { (m : Received) → IsInRange m → text.now ≡ text_from_train m
        → IfErr result (λ e. e ≡ OutOfMemory) }
    // A refusal is the first word that is wrong.
    ensures refused { IfErr result (IsEncodeFault
        (FirstWrong 1 message (slice_split (λ byte. byte == 32) text.now))) }
    // A text with a wrong word is refused with it, unless memory runs out over the packets of message 24.
    ensures wrong { (wrong : WrongWord) → FirstWrong 1 message (slice_split (λ byte. byte == 32) text.now) wrong
        → (result ≡ Err (Word wrong)) ⊎ IsWantOfMemory (slice_split (λ byte. byte == 32) text.now) result }
{
    let mut buffer = [0; 1024];
    let used = write_message(alloc, &mut Words::new(text), &mut buffer)?;
    Ok(Vec::from_slice(alloc, &buffer[..used])?)
}

/// Writes the bytes of the message whose words these are to the front of a buffer, and gives their number.
///
/// # Errors
///
/// The first wrong word, or `OutOfMemory`.
fn write_message(
    alloc: Global,
    words: &mut Words<'_>,
    buffer: &mut [u8; 1024],
) -> Result<usize, EncodeError>
    ensures within { IfOk result (λ used. used ≤ 1024) }
    ensures ok { IfOk result (λ used. EncodesWords words.old.words (take used buffer.new)) }
    ensures err { IfErr result (IsEncodeFault (FirstWrong words.old.next message words.old.words)) }
    ensures memory { IfErr result (λ e. e ≡ OutOfMemory → IsOfGeneral words.old.words) }
{
    let number = words.number(Expected::Message)?;
    if is_to_train(number) {
        let message = to_train_parser::message_of(alloc, words, number)?;
        Ok(write_to_train(&message, buffer))
    } else {
        let message = from_train_parser::message_of(words, number)?;
        words.end()?;
        Ok(write_from_train(&message, buffer))
    }
}

/// Whether a number is that of a message to a train.
fn is_to_train(number: u32) -> bool
    ensures { result ≡ is_number_to_train number }
{
    matches!(number, 15 | 16 | 18 | 24)
}
