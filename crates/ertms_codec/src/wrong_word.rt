//! Why a text is the text of no message.

use crate::name::Name;
use std::alloc::AllocError;
use std::fmt;

/// What can stand as a word of the text of a message (own rule). A number stands in decimal digits without leading zeros.
#[derive(Clone, Copy, Debug, PartialEq, Eq)]
pub enum Expected {
    /// The name of a variable.
    Name(Name),
    /// A number from 0 to this one.
    Number(u32),
    /// D_REF: a number from -32768 to 32767.
    Reference,
    /// The number of a message from a train: 136, 146 or 147.
    FromTrain,
    /// The number of a message, to a train or from one: 15, 16, 18, 24, 136, 146 or 147.
    Message,
    /// The number of the packet that holds a position: 0 or 1.
    PositionPacket,
    /// The number of a packet of message 24: 65 or 66.
    Packet,
    /// Nothing: the text ends.
    End,
}

impl fmt::Display for Expected {
    ghost use Rattle.std.specs.Prelude.{Some};
    ghost use Rattle.ertms_codec.specs.Grammar.{expected_text};

    ghost output = { λ expected. Some (expected_text expected) };

    fn fmt<W: fmt::Write>(&self, f: &mut fmt::Formatter<W>) -> fmt::Result {
        match self {
            Expected::Name(name) => write!(f, "'{name}'"),
            Expected::Number(most) => write!(f, "a number, 0 to {most}"),
            Expected::Reference => write!(f, "a number, -32768 to 32767"),
            Expected::FromTrain => write!(f, "'136' or '146' or '147'"),
            Expected::Message => {
                write!(f, "'15' or '16' or '18' or '24' or '136' or '146' or '147'")
            }
            Expected::PositionPacket => write!(f, "'0' or '1'"),
            Expected::Packet => write!(f, "'65' or '66'"),
            Expected::End => write!(f, "the end of the line"),
        }
    }
}

/// The first word of a text that is wrong: no text of a message begins with it and the words before it.
#[derive(Clone, Copy, Debug, PartialEq, Eq)]
pub struct WrongWord {
    /// Its number; the first word has number 1. A word that is missing has the number behind the last one.
    pub index: u64,
    /// What can stand there.
    pub expected: Expected,
}

impl fmt::Display for WrongWord {
    ghost use Rattle.std.specs.Prelude.{Some};
    ghost use Rattle.ertms_codec.specs.Grammar.{wrong_word_text};

    ghost output = { λ wrong. Some (wrong_word_text wrong) };

    fn fmt<W: fmt::Write>(&self, f: &mut fmt::Formatter<W>) -> fmt::Result {
        let WrongWord { index, expected } = *self;
        write!(f, "word {index}: {expected}")
    }
}

/// Why a text is not encoded.
#[derive(Clone, Copy, Debug, PartialEq, Eq, thiserror::Error)]
pub enum EncodeError {
    /// It is the text of no message.
    #[error("{0}")]
    Word(WrongWord),
    /// Memory ran out.
    #[error("out of memory")]
    OutOfMemory,
}

impl From<WrongWord> for EncodeError {
    ghost use Rattle.std.specs.Prelude.{◌≡◌};
    ghost use Rattle.ertms_codec.specs.declared.wrong_word.EncodeError.TheVariants.{Word};

    ghost from_gives = { λ wrong e. e ≡ Word wrong };

    fn from(wrong: WrongWord) -> EncodeError {
        EncodeError::Word(wrong)
    }
}

impl From<AllocError> for EncodeError {
    ghost use Rattle.std.specs.Prelude.{◌≡◌};
    ghost use Rattle.ertms_codec.specs.declared.wrong_word.EncodeError.TheVariants.{OutOfMemory};

    ghost from_gives = { λ _ e. e ≡ OutOfMemory };

    fn from(_: AllocError) -> EncodeError {
        EncodeError::OutOfMemory
    }
}
