//! The bytes of messages in place of their text.

ghost use Rattle.std.specs.Prelude.{◌≡◌, ◌∷◌, ◌++◌, ℕ, List, IfOk, OnOk, map, string_bytes};
ghost use Rattle.std.specs.List.{flat_map};
ghost use Rattle.rbc_dispatch.specs.Decoding.{IsUntouched};
ghost use Rattle.rbc_dispatch.specs.Filtering.{EncodesLinesBy, EncodesText};
ghost use Rattle.rbc_dispatch.specs.TextWords.{names_track, spaced, spaced_text, texts_in};
ghost use Rattle.rbc_words.specs.Encoding.{plan_given};

use crate::fault::Fault;
use crate::show::show;
use rbc_track::Track;
use rbc_words::encode_lines;
use std::alloc::{AllocError, Global};
use std::io::{Read, Write};

/// Writes the lines of a reader as they come, with the bytes of a message from a train in place of its text, and in place
/// of a report on a track. Any other line stays as it is.
///
/// # Errors
///
/// `Lines`. What was written before stands.
pub fn encode_input<I: Read, O: Write>(
    alloc: Global,
    track: Option<&Track>,
    input: &mut I,
    output: &mut O,
) -> Result<(), Fault>
    ensures { EncodesLinesBy (plan_given track.entry) (I.remaining input.old) (I.remaining input.new)
        (O.contents output.old) (O.contents output.new) result }
{
    encode_lines(alloc, track, input, output)?;
    Ok(())
}

/// Writes the bytes of the message whose text this is, in hexadecimal digits, as one line.
///
/// # Errors
///
/// `Text` or `OutOfMemory`, with nothing written, or that the line was cut short.
pub fn encode_text<O: Write>(alloc: Global, text: &[u8], output: &mut O) -> Result<(), Fault>
    ensures encodes { EncodesText text.now (O.contents output.old) (O.contents output.new) result }
    ensures untouched { IsUntouched result output.old output.new }
{
    let bytes = ertms_codec::encode(alloc, text)?;
    let digits = hex::encode_upper(alloc, &bytes)?;
    let line = format!(in alloc; "{digits}\n")?;
    show(output, line.as_bytes())
}

/// What the next argument is.
#[derive(Clone, Copy, Debug, PartialEq, Eq)]
pub enum Next {
    /// A word of the text, or an option.
    Word,
    /// The name of the track file.
    File,
    /// A word of the text, as all that follow.
    Rest,
}

/// The words of the text among all arguments, each with a space before it: those behind the name of the command without
/// `--track FILE`, `--track=FILE` and the first `--`.
pub fn spaced_text(alloc: Global, words: &[String]) -> Result<Vec<u8>, AllocError>
    ensures { IfOk result (λ text. text.items ≡ spaced_text (map string_bytes words.now)) }
{
    let mut text = Vec::new(alloc);
    let Some((_, mut left)) = words.split_first() else {
        return Ok(text);
    };
    let mut next = Next::Word;
    while let Some((word, behind)) = left.split_first() {
        next = read_word(&mut text, next, word.as_str())?;
        left = behind;
    }
    Ok(text)
}

/// Puts a word behind a text, with a space before it, if it is one of the text, and says what comes next.
fn read_word(text: &mut Vec<u8>, next: Next, word: &str) -> Result<Next, AllocError>
    ensures { IfOk result (λ after. (words : List (List ℕ))
        → text.new.items ++ flat_map spaced (texts_in after words)
        ≡ text.old.items ++ flat_map spaced (texts_in next (word.now ∷ words))) }
{
    match next {
        Next::File => Ok(Next::Word),
        Next::Rest => {
            push_word(text, word)?;
            Ok(Next::Rest)
        }
        Next::Word => {
            if word == "--" {
                return Ok(Next::Rest);
            }
            if word == "--track" {
                return Ok(Next::File);
            }
            if names_track(word) {
                return Ok(Next::Word);
            }
            push_word(text, word)?;
            Ok(Next::Word)
        }
    }
}

/// Puts a word behind a text, with a space before it.
fn push_word(text: &mut Vec<u8>, word: &str) -> Result<(), AllocError>
    ensures { OnOk result (text.new.items ≡ text.old.items ++ spaced word.now) }
{
    text.push(b' ')?;
    text.extend_from_slice(word.as_bytes())
}

/// Whether a word names a track by itself, as `--track=FILE`.
fn names_track(word: &str) -> bool
    ensures { result ≡ names_track word.now }
{
    let bytes = word.as_bytes();
    let front = &bytes[..bytes.len().min(8)];
    front == b"--track=".as_slice()
}
