//! Why an input is refused, and with which code.

ghost use Rattle.std.specs.Prelude.{◌≡◌};
ghost use Rattle.rbc_rule.specs.Codes.{code_of};

use std::alloc::AllocError;

/// Why an input is refused (own rule). If several reasons apply, the one with the least code is given. The first six
/// are about the line or the message, and are found before the input is decided.
#[derive(Clone, Copy, Debug, PartialEq, Eq)]
pub enum Refusal {
    /// The line is not an input.
    BadLine,
    /// The message is not written as hexadecimal digits of whole bytes.
    BadHex,
    /// The message has a wrong length.
    Length,
    /// The message is not of a type that this program reads.
    Message,
    /// A packet is missing, wrong for the message, or of a wrong length.
    Packet,
    /// A variable of the message has a spare value.
    Field,
    /// The train is not enrolled.
    UnknownTrain,
    /// The train is already enrolled.
    AlreadyEnrolled,
    /// 2,000 trains are enrolled.
    TooManyTrains,
    /// The train still holds the identifier of a stop.
    StopsOutstanding,
    /// The number of the stop, or of the restriction, is not above the last one.
    NumberUsed,
    /// The area of the stop, or the restriction, is not valid on the track.
    BadArea,
    /// 64 stops, or 300 restrictions, are active.
    TooManyActive,
    /// No stop, or restriction, with this number is active.
    NoSuchNumber,
    /// T_TRAIN of the message is above 4,200,000,000.
    StampTooHigh,
    /// There is nothing to acknowledge.
    NothingToAcknowledge,
}

impl Refusal {
    /// Returns the code, 1 to 16, in the order of the variants.
    pub fn code(self) -> u8
        ensures { result ≡ code_of self }
    {
        match self {
            Refusal::BadLine => 1,
            Refusal::BadHex => 2,
            Refusal::Length => 3,
            Refusal::Message => 4,
            Refusal::Packet => 5,
            Refusal::Field => 6,
            Refusal::UnknownTrain => 7,
            Refusal::AlreadyEnrolled => 8,
            Refusal::TooManyTrains => 9,
            Refusal::StopsOutstanding => 10,
            Refusal::NumberUsed => 11,
            Refusal::BadArea => 12,
            Refusal::TooManyActive => 13,
            Refusal::NoSuchNumber => 14,
            Refusal::StampTooHigh => 15,
            Refusal::NothingToAcknowledge => 16,
        }
    }
}

/// Why the stops, the restrictions or a train's record cannot change.
#[derive(Clone, Copy, Debug, PartialEq, Eq)]
pub enum NotChanged {
    /// The input is refused.
    Refused(Refusal),
    /// Memory was refused.
    OutOfMemory,
}

impl From<AllocError> for NotChanged {
    ghost use Rattle.std.specs.Prelude.{◌≡◌};
    ghost use Rattle.rbc_rule.specs.declared.refuse.NotChanged.TheVariants.{OutOfMemory};

    ghost from_gives = { λ _ why. why ≡ OutOfMemory };

    fn from(_: AllocError) -> NotChanged {
        NotChanged::OutOfMemory
    }
}
