//! Writing the whole of a text.

ghost use Rattle.std.specs.Prelude.{◌≤◌, ◌<◌, take, length, IfErr, OnOk};
ghost use Rattle.std.specs.Io.KnownBytes.{Appends};

use std::io::{ErrorKind, Write};

/// Writing fails once the writer has been interrupted this many times.
const MAX_INTERRUPTIONS: u32 = 1_000;

/// A text that is not all written.
#[derive(Clone, Copy, Debug, PartialEq, Eq)]
pub struct Unwritten {
    /// The number of bytes that are out, from the beginning of the text.
    pub sent: usize,
    /// Whether nobody reads any more, as behind a pipe into `head`.
    pub gone: bool,
}

/// Writes the whole text. It fails if the writer fails, takes no bytes, or is interrupted `MAX_INTERRUPTIONS` times.
/// Exactly the first `sent` bytes are out then.
pub fn write_text<W: Write>(writer: &mut W, text: &[u8]) -> Result<(), Unwritten>
    ensures ok { OnOk result (Appends (W.contents writer.old) (W.contents writer.new) text.now) }
    ensures part { IfErr result (λ unwritten. (unwritten.sent ≤ length text.now)
        × Appends (W.contents writer.old) (W.contents writer.new) (take unwritten.sent text.now)) }
{
    let mut interruptions = 0;
    write_on(writer, text, &mut interruptions)
}

/// Writes the whole of a text with a writer that was interrupted this many times before, as `write_text` does.
pub fn write_on<W: Write>(
    writer: &mut W,
    text: &[u8],
    interruptions: &mut u32,
) -> Result<(), Unwritten>
    requires { interruptions.old < 1000 }
    ensures ok { OnOk result (Appends (W.contents writer.old) (W.contents writer.new) text.now) }
    ensures fewer { OnOk result (interruptions.new < 1000) }
    ensures part { IfErr result (λ unwritten. (unwritten.sent ≤ length text.now)
        × Appends (W.contents writer.old) (W.contents writer.new) (take unwritten.sent text.now)) }
{
    let mut sent = 0;
    while sent < text.len() {
        match writer.write(&text[sent..]) {
            Ok(0) => return Err(Unwritten { sent, gone: false }),
            Ok(count) => sent += count,
            Err(error) => {
                *interruptions += 1;
                let kind = error.kind();
                if kind != ErrorKind::Interrupted || *interruptions >= MAX_INTERRUPTIONS {
                    let gone = kind == ErrorKind::BrokenPipe;
                    return Err(Unwritten { sent, gone });
                }
            }
        }
    }
    Ok(())
}
