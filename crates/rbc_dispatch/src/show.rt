//! Writing a text for people, whose reader may go away before its end.

ghost use Rattle.std.specs.Prelude.{IfErr, OnOk};
ghost use Rattle.std.specs.Io.KnownBytes.{Appends};
ghost use Rattle.rbc_dispatch.specs.Telling.{IsCutShort};

use crate::fault::Fault;
use rbc_text::write_text;
use std::io::Write;

/// Writes the whole text.
///
/// # Errors
///
/// `ReaderGone` if nobody reads any more, as behind a pipe into `head`; `Write` if the text is cut short otherwise. The
/// first `sent` bytes are out, and no more.
pub fn show<O: Write>(output: &mut O, text: &[u8]) -> Result<(), Fault>
    ensures ok { OnOk result (Appends (O.contents output.old) (O.contents output.new) text.now) }
    ensures part { IfErr result (λ fault. IsCutShort fault (O.contents output.old) (O.contents output.new) text.now) }
{
    Ok(write_text(output, text)?)
}
