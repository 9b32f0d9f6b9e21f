//! The codes that calls answer.

ghost use Rattle.std.specs.Prelude.{◌≡◌, ◌<◌};
ghost use Rattle.ertms_c.specs.Faults.{code_of, read_code_of};

use ertms_codec::{DecodeError, ReadError};

/// The call succeeded.
pub const DONE: u32 = 0;

/// Memory was refused.
pub const MEMORY: u32 = 5;

/// No message in range has these fields.
pub const NO_MESSAGE: u32 = 6;

/// A message has more bytes than there is room for.
pub const ROOM: u32 = 7;

/// A word of a text is wrong.
pub const WRONG_WORD: u32 = 8;

/// The code of a refusal.
pub fn code_of(fault: DecodeError) -> u32
    ensures value { result ≡ code_of fault }
    ensures positive { 0 < result }
{
    match fault {
        DecodeError::Length => 1,
        DecodeError::Message => 2,
        DecodeError::Packet => 3,
        DecodeError::Field => 4,
    }
}

/// The code of why a message to a train is not read.
pub fn read_code_of(fault: ReadError) -> u32
    ensures value { result ≡ read_code_of fault }
    ensures positive { 0 < result }
{
    match fault {
        ReadError::Decode(refusal) => code_of(refusal),
        ReadError::OutOfMemory => MEMORY,
    }
}
