//! The slot of a held identifier, and the outcomes of changes to it.

use std::alloc::AllocFailed;
use thiserror::Error;

/// How many reports without an answer are counted.
pub(crate) const MOST_REPORTS: u8 = 3;

/// The kind of message that told a number.
#[derive(Clone, Copy, Debug, PartialEq, Eq)]
pub enum Kind {
    /// Message 15, conditional emergency stop.
    Conditional,
    /// Message 16, unconditional emergency stop.
    Unconditional,
    /// Message 24 with packet 65, temporary speed restriction.
    Restriction,
}

/// What an identifier is used for.
#[derive(Clone, Copy, Debug, PartialEq, Eq)]
pub struct UsedSlot {
    /// The number of the stop or the restriction that was told.
    pub number: u32,
    /// The stamp of the message that told it (T_TRAIN, 10 ms).
    pub stamp: u32,
    /// The kind of that message.
    pub kind: Kind,
    /// Whether the train has acknowledged that message.
    pub acked: bool,
    /// How often the train has reported its position since it was told to stop before a place, without an answer: 0 to
    /// 3, and 0 for any other message.
    pub count: u8,
}

/// What a held identifier is held for.
#[derive(Clone, Copy, Debug, PartialEq, Eq)]
pub enum Slot {
    /// It is used by a number that the train was told.
    Used(UsedSlot),
    /// It is being revoked by a message with this stamp (T_TRAIN, 10 ms), which the train has not acknowledged yet. It
    /// is not free.
    Revoking { stamp: u32 },
}

impl UsedSlot {
    ghost use Rattle.std.specs.Prelude.{◌≡◌};
    ghost use Rattle.rbc_ids.specs.Table.{is_unanswered};

    /// Whether it tells a stop conditionally (message 15), and the train has not acknowledged that.
    pub fn is_unanswered(&self) -> bool
        ensures { result ≡ is_unanswered self.now }
    {
        self.kind == Kind::Conditional && !self.acked
    }
}

impl Slot {
    ghost use Rattle.std.specs.Prelude.{◌≡◌};
    ghost use Rattle.rbc_ids.specs.Table.{tells, is_ripe, is_freed_by, is_marked_by};

    /// Whether the slot is used by a stop that the train was told conditionally, and has left unanswered in three
    /// reports.
    pub fn is_ripe(&self) -> bool
        ensures { result ≡ is_ripe self.now }
    {
        matches!(self, Slot::Used(used) if used.is_unanswered() && used.count == MOST_REPORTS)
    }

    /// Whether the message with this stamp revoked its identifier.
    pub(crate) fn is_freed_by(&self, stamp: u32) -> bool
        ensures { result ≡ is_freed_by stamp self.now }
    {
        matches!(self, Slot::Revoking { stamp: own } if *own == stamp)
    }

    /// Whether the slot is used by a restriction that the message with this stamp told.
    pub(crate) fn is_marked_by(&self, stamp: u32) -> bool
        ensures { result ≡ is_marked_by stamp self.now }
    {
        matches!(self, Slot::Used(used) if used.kind == Kind::Restriction && used.stamp == stamp)
    }

    /// Whether the slot is used by a number. A slot that is being revoked is not.
    pub fn tells(&self, number: u32) -> bool
        ensures { result ≡ tells number self.now }
    {
        matches!(self, Slot::Used(used) if used.number == number)
    }
}

/// Why no identifier was issued. The table is unchanged.
#[derive(Clone, Copy, Debug, PartialEq, Eq, Error)]
pub enum IssueError {
    /// Every identifier is held.
    #[error("every identifier is held")]
    Full,
    /// Memory ran out.
    #[error("out of memory")]
    OutOfMemory,
}

/// What the acknowledgement of the message with a stamp did.
#[derive(Clone, Copy, Debug, PartialEq, Eq)]
pub enum StampAck {
    /// It answered a revocation or a restriction, or several of them. At least one of both counts is above 0.
    Answered {
        /// How many identifiers that the message revoked are free now.
        freed: u8,
        /// How many restrictions that the message told are acknowledged. They may have been acknowledged before.
        marked: u8,
    },
    /// There was nothing to acknowledge, and nothing changed.
    Nothing,
}

/// What the train's answer to the emergency stop under an identifier did.
#[derive(Clone, Copy, Debug, PartialEq, Eq)]
pub enum IdAck {
    /// The stop is acknowledged. It may have been acknowledged before.
    Marked,
    /// The train has rejected the stop of this number, and its identifier is free now.
    Rejected(u32),
    /// There was nothing to acknowledge, and nothing changed.
    Nothing,
}

impl<T: Drop> From<AllocFailed<T>> for IssueError {
    ghost use Rattle.std.specs.Prelude.{◌≡◌};
    ghost use Rattle.rbc_ids.specs.declared.slot.IssueError.TheVariants.{OutOfMemory};

    ghost from_gives = { λ _ error. error ≡ OutOfMemory };

    fn from(_failed: AllocFailed<T>) -> IssueError {
        IssueError::OutOfMemory
    }
}
