//! What a writer has taken.

ghost use Rattle.std.specs.Prelude.{◌≡◌, ◌+◌, ◌&&◌, ◌==◌, length, true, OnOk, IfErr};
ghost use Rattle.std.specs.Io.KnownBytes.{Appends, Keeps};
ghost use Rattle.rbc_text.specs.Streams.{IsCutShort, count_of};

use crate::writing::write_text;
use std::io::{ErrorKind, Write};

/// Why a text is not out: the writer failed, took no bytes, was interrupted 1,000 times over it, or could not be flushed.
#[derive(Clone, Copy, Debug, PartialEq, Eq)]
pub struct WriteFault {
    /// The number of bytes that are out, of all texts, or 2 ^ 64 - 1 if there are more.
    pub sent: u64,
    /// Whether nobody reads any more, as behind a pipe into `head`.
    pub gone: bool,
}

/// How many bytes a writer has taken, and whether it was flushed since.
#[derive(Drop)]
pub struct Outlet {
    /// The number of bytes, or 2 ^ 64 - 1 if it is more.
    pub sent: u64,
    pub flushed: bool,
}

impl Outlet {
    /// No byte was written.
    pub fn new() -> Outlet
        ensures sent { result.sent ≡ 0 }
        ensures flushed { result.flushed ≡ true }
    {
        Outlet {
            sent: 0,
            flushed: true,
        }
    }

    /// Writes a text.
    ///
    /// # Errors
    ///
    /// `WriteFault`: exactly the first bytes of the text are out, behind the texts before it.
    pub fn write<W: Write>(&mut self, writer: &mut W, text: &[u8]) -> Result<(), WriteFault>
        ensures whole { OnOk result (Appends (W.contents writer.old) (W.contents writer.new) text.now) }
        ensures sent { OnOk result (self.new.sent ≡ count_of (self.old.sent + length text.now)) }
        ensures flushed { self.new.flushed ≡ (self.old.flushed && (length text.now == 0)) }
        ensures part { IfErr result (IsCutShort self.old.sent text.now
            (W.contents writer.old) (W.contents writer.new)) }
    {
        self.flushed = self.flushed && text.is_empty();
        match write_text(writer, text) {
            Ok(()) => {
                self.sent = self.sent.saturating_add(text.len() as u64);
                Ok(())
            }
            Err(unwritten) => Err(WriteFault {
                sent: self.sent.saturating_add(unwritten.sent as u64),
                gone: unwritten.gone,
            }),
        }
    }

    /// Flushes the writer, if anything was written since the last flush.
    ///
    /// # Errors
    ///
    /// `WriteFault`, with all texts out.
    pub fn flush<W: Write>(&mut self, writer: &mut W) -> Result<(), WriteFault>
        ensures kept { Keeps (W.contents writer.old) (W.contents writer.new) }
        ensures sent { self.new.sent ≡ self.old.sent }
        ensures flushed { OnOk result (self.new.flushed ≡ true) }
        ensures fault { IfErr result (λ fault. fault.sent ≡ self.old.sent) }
    {
        if self.flushed {
            return Ok(());
        }
        match writer.flush() {
            Ok(()) => {
                self.flushed = true;
                Ok(())
            }
            Err(error) => Err(WriteFault {
                sent: self.sent,
                gone: error.kind() == ErrorKind::BrokenPipe,
            }),
        }
    }
}
