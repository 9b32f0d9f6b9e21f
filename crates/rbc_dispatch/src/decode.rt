//! The text of messages in place of their bytes.

ghost use Rattle.std.specs.Prelude.{◌≡◌, ℕ, List};
ghost use Rattle.hex.specs.Hex.{decode_of};
ghost use Rattle.ertms_codec.specs.Texts.{IsRefused};
ghost use Rattle.ertms_codec.specs.declared.error.DecodeError.{DecodeError};
ghost use Rattle.rbc_dispatch.specs.Decoding.{Decodes, DecodesLong, IsUntouched, MeetsRefusal};
ghost use Rattle.rbc_dispatch.specs.Filtering.{DecodesLines};

use crate::fault::Fault;
use crate::long::long_text;
use crate::show::show;
use ertms_codec::describe;
use rbc_words::decode_lines;
use std::alloc::Global;
use std::io::{Read, Write};

/// Writes the lines of a reader as they come, with the text of a message in place of its bytes. Any other line stays as it
/// is.
///
/// # Errors
///
/// `Lines`. What was written before stands.
pub fn decode_input<I: Read, O: Write>(
    alloc: Global,
    input: &mut I,
    output: &mut O,
) -> Result<(), Fault>
    ensures { DecodesLines (I.remaining input.old) (I.remaining input.new)
        (O.contents output.old) (O.contents output.new) result }
{
    decode_lines(alloc, input, output)?;
    Ok(())
}

/// Writes the text of the message whose bytes a hexadecimal word gives.
///
/// # Errors
///
/// `BadHex`, `Decode` or `OutOfMemory`, with nothing written, or that the text was cut short.
pub fn decode<O: Write>(alloc: Global, word: &str, output: &mut O) -> Result<(), Fault>
    ensures decodes { Decodes word.now (O.contents output.old) (O.contents output.new) result }
    ensures refused { (bytes : List ℕ) (e : DecodeError) → decode_of word.now ≡ Ok bytes
        → IsRefused bytes e → MeetsRefusal e result }
    ensures untouched { IsUntouched result output.old output.new }
{
    let bytes = hex::decode(alloc, word)?;
    let text = describe(alloc, &bytes)?;
    show(output, &text)
}

/// Writes the same message in lines, one for each variable. Refuses what `decode` refuses.
///
/// # Errors
///
/// As those of `decode`.
pub fn decode_long<O: Write>(alloc: Global, word: &str, output: &mut O) -> Result<(), Fault>
    ensures decodes { DecodesLong word.now (O.contents output.old) (O.contents output.new) result }
    ensures refused { (bytes : List ℕ) (e : DecodeError) → decode_of word.now ≡ Ok bytes
        → IsRefused bytes e → MeetsRefusal e result }
    ensures untouched { IsUntouched result output.old output.new }
{
    let bytes = hex::decode(alloc, word)?;
    let _ = describe(alloc, &bytes)?;
    let text = long_text(alloc, &bytes)?;
    show(output, text.as_bytes())
}
