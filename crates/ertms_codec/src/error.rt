//! Why bytes are not a message, or are not read.

ghost use Rattle.std.specs.Prelude.{◌≡◌};
ghost use Rattle.ertms_codec.specs.declared.error.ReadError.TheVariants.{Decode, OutOfMemory};

use std::alloc::AllocError;
use std::error::Error;
use std::fmt;

/// The first step that fails, if bytes are not a message that the reader takes, in the order in which the steps are
/// taken: length, message, length of the message, packet, field (own rule).
#[derive(Clone, Copy, Debug, PartialEq, Eq)]
pub enum DecodeError {
    /// Fewer than 3 bytes, or L_MESSAGE is not their number; or fewer or more bytes than NID_MESSAGE
    /// can have.
    Length,
    /// NID_MESSAGE is not the number of a message that the reader takes.
    Message,
    /// A packet is missing, is another than the message can have, or has a wrong L_PACKET; or there are more packets
    /// than the message can have.
    Packet,
    /// A variable has a spare value.
    Field,
}

impl fmt::Display for DecodeError {
    ghost use Rattle.std.specs.Prelude.{Some};
    ghost use Rattle.ertms_codec.specs.RefusalNames.{name_of};

    ghost output = { λ error. Some (name_of error) };

    fn fmt<W: fmt::Write>(&self, f: &mut fmt::Formatter<W>) -> fmt::Result {
        match self {
            DecodeError::Length => write!(f, "Length"),
            DecodeError::Message => write!(f, "Message"),
            DecodeError::Packet => write!(f, "Packet"),
            DecodeError::Field => write!(f, "Field"),
        }
    }
}

impl Error for DecodeError {}

/// Why bytes are not read as a message to a train.
#[derive(Clone, Copy, Debug, PartialEq, Eq, thiserror::Error)]
pub enum ReadError {
    /// They are not a message that the reader takes.
    #[error("{0}")]
    Decode(DecodeError),
    /// Memory ran out. It may come only for message 24, in place of the message or of a refusal.
    #[error("out of memory")]
    OutOfMemory,
}

impl From<DecodeError> for ReadError {
    ghost from_gives = { λ refusal e. e ≡ Decode refusal };

    fn from(refusal: DecodeError) -> ReadError {
        ReadError::Decode(refusal)
    }
}

impl From<AllocError> for ReadError {
    ghost from_gives = { λ _ e. e ≡ OutOfMemory };

    fn from(_: AllocError) -> ReadError {
        ReadError::OutOfMemory
    }
}
