//! Answering lines, from a reader to a writer.

ghost use Rattle.std.specs.Prelude.{◌≡◌, []};
ghost use Rattle.rbc_live.specs.Answers.{Answers};
ghost use Rattle.rbc_live.specs.Calls.{AreCallsAt};

use crate::desk::LiveDesk;
use crate::session::Session;
use crate::wanted::Wanted;
use rbc_text::{Calls, WriteFault};
use std::alloc::Global;
use std::error::Error;
use std::fmt;
use std::io::{Read, Write};

/// The number of bytes asked for in one call.
const PIECE: usize = 65_536;

/// Why not all lines were answered. What was written before stands.
#[derive(Clone, Copy, Debug, PartialEq, Eq)]
pub enum PromptError {
    /// The reader failed, or did not end within 2 ^ 47 calls. All lines that had ended are answered.
    Read,
    /// There was not enough memory for a line. The lines before it are answered.
    Memory,
    /// The writer failed, took no bytes, was interrupted 1,000 times over one piece of text, or could not be flushed.
    /// Exactly the first `sent` bytes of the answers are out, or at least that many if `sent` is 2 ^ 64 - 1.
    Write { sent: u64 },
}

impl fmt::Display for PromptError {
    ghost use Rattle.std.specs.Prelude.{Some};
    ghost use Rattle.rbc_live.specs.Answers.{fault_text};

    ghost output = { λ error. Some (fault_text error) };

    fn fmt<W: fmt::Write>(&self, f: &mut fmt::Formatter<W>) -> fmt::Result {
        match self {
            PromptError::Read => write!(f, "read fault"),
            PromptError::Memory => write!(f, "out of memory"),
            PromptError::Write { sent } => write!(f, "write fault after {sent} bytes"),
        }
    }
}

impl Error for PromptError {}

impl From<WriteFault> for PromptError {
    ghost use Rattle.std.specs.Prelude.{◌≡◌};
    ghost use Rattle.rbc_live.specs.declared.prompt.PromptError.TheVariants.{Write};

    ghost from_gives = { λ fault e. e ≡ Write fault.sent };

    fn from(fault: WriteFault) -> PromptError {
        PromptError::Write { sent: fault.sent }
    }
}

/// Reads lines to the end of the reader, and takes each on a desk that has taken none. What is wanted of them, the
/// answers from a number on and alarms, is written and flushed before the reader is asked for more. The last line may
/// lack its line feed. However long a line is, at most 131,072 bytes of it are kept.
///
/// # Errors
///
/// See [`PromptError`].
pub fn answer_lines<R: Read, W: Write>(
    alloc: Global,
    desk: LiveDesk,
    reader: &mut R,
    writer: &mut W,
    wanted: Wanted,
) -> Result<(), PromptError>
    requires { desk.records ≡ [] }
    ensures { Answers desk.track wanted (R.remaining reader.old) (R.remaining reader.new)
        (W.contents writer.old) (W.contents writer.new) result }
{
    answer_counted(alloc, desk, reader, writer, wanted, &mut Calls::new())
}

/// Does what `answer_lines` does, and counts the calls of the reader.
///
/// # Errors
///
/// Those of `answer_lines`: `Read` exactly if a call failed, or 2 ^ 47 calls gave no end.
fn answer_counted<R: Read, W: Write>(
    alloc: Global,
    desk: LiveDesk,
    reader: &mut R,
    writer: &mut W,
    wanted: Wanted,
    calls: &mut Calls,
) -> Result<(), PromptError>
    requires empty { desk.records ≡ [] }
    requires uncalled { calls.old.made ≡ 0 }
    ensures answers { Answers desk.track wanted (R.remaining reader.old) (R.remaining reader.new)
        (W.contents writer.old) (W.contents writer.new) result }
    ensures called { AreCallsAt result calls.new }
{
    let mut session = Session::new(alloc, desk, wanted);
    let mut piece = [0u8; PIECE];
    while calls.may_go_on() {
        match calls.read(reader, &mut piece) {
            Ok(0) => return session.finish(alloc, writer),
            Ok(count) => session.take_piece(alloc, &piece[..count], writer)?,
            Err(_) => (),
        }
    }
    Err(PromptError::Read)
}
