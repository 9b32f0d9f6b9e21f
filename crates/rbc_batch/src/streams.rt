//! Reading the whole of a batch, and writing the whole of an output text.

ghost use Rattle.std.specs.Prelude.{◌≡◌, ◌++◌, ◌≤◌, ◌<◌, ◌^◌, take, length, IfOk, IfErr, OnOk, IsErrOf, IfSome};
ghost use Rattle.std.specs.Io.KnownBytes.{Appends};
ghost use Rattle.rbc_batch.specs.Parts.{joined};
ghost use Rattle.rbc_text.specs.Streams.{IsAllRead};
ghost use Rattle.rbc_batch.specs.Process.{IsBeforeWriting, max_batch};

use crate::batch::ProcessError;
use rbc_text::write_on;
use std::alloc::Global;
use std::io::{ErrorKind, Read, Write};

/// The greatest length of a batch, in bytes.
const MAX_BYTES: usize = 16_777_216;

/// The greatest number of calls of a reader. One of them has to give the end.
const MAX_CALLS: u32 = 20_000_000;

/// The number of bytes asked for in one call.
const PIECE: usize = 65_536;

/// Reads to the end of the reader, at most `MAX_BYTES`. An interrupted call is made again.
pub fn read_batch<R: Read>(alloc: Global, reader: &mut R) -> Result<Vec<u8>, ProcessError>
    ensures read { IfOk result (λ batch. IsAllRead (R.remaining reader.old) (R.remaining reader.new) batch.items) }
    ensures short { IfOk result (λ batch. length batch.items ≤ max_batch) }
    ensures too_long { IsErrOf result ProcessError.TooLong
        → IfSome (R.remaining reader.old) (λ bytes. max_batch < length bytes) }
    ensures before { IfErr result (λ e. IsBeforeWriting e) }
{
    let mut batch = Vec::new(alloc);
    let mut piece = [0u8; PIECE];
    for _ in 0..MAX_CALLS {
        match reader.read(&mut piece) {
            Ok(0) => return Ok(batch),
            Ok(count) => {
                if MAX_BYTES - batch.len() < count {
                    return Err(ProcessError::TooLong);
                }
                batch.extend_from_slice(&piece[..count])?;
            }
            Err(error) => {
                if error.kind() != ErrorKind::Interrupted {
                    return Err(ProcessError::Read);
                }
            }
        }
    }
    Err(ProcessError::Read)
}

/// Writes texts one after another, as `write_text` writes one.
pub(crate) fn write_texts<W: Write>(writer: &mut W, texts: &[Vec<u8>]) -> Result<(), usize>
    requires { length (joined texts.now) < 2 ^ 64 }
    ensures ok { OnOk result (Appends (W.contents writer.old) (W.contents writer.new) (joined texts.now)) }
    ensures part { IfErr result (λ sent. (sent ≤ length (joined texts.now))
        × Appends (W.contents writer.old) (W.contents writer.new) (take sent (joined texts.now))) }
{
    let mut sent = 0;
    let mut interruptions = 0;
    for text in texts {
        match write_on(writer, text, &mut interruptions) {
            Ok(()) => sent += text.len(),
            Err(unwritten) => return Err(sent + unwritten.sent),
        }
    }
    Ok(())
}
