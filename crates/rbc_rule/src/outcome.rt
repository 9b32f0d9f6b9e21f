//! The outcome of an input.

ghost use Rattle.std.specs.Prelude.{◌≡◌, ◌<◌, ◌^◌, [], length, IfOk};
ghost use Rattle.std.specs.Prelude.{slice_get, Some};
ghost use Rattle.rbc_rule.specs.declared.outcome.Reply.TheVariants.{Done, Refused};
ghost use Rattle.rbc_rule.specs.Codes.{code_of};
ghost use Rattle.rbc_rule.specs.Right.{IsSilentIfRefused};

use crate::refuse::Refusal;
use rbc_records::Writes;
use rbc_settle::Sent;
use std::alloc::{AllocError, AllocFailed, Global};
use std::marker::Model;

/// The answer to one input.
#[derive(Clone, Copy, Debug, PartialEq, Eq)]
pub enum Reply {
    /// It was accepted; this many messages were sent, to all trains together.
    Done(u32),
    /// It was refused with this code (`Refusal::code`), and changed nothing.
    Refused(u8),
}

/// Messages to trains, in the order in which they are sent. Contracts see a list.
#[derive(Drop)]
pub struct SentList {
    all: Vec<Sent>,
}

impl Model for SentList {
    ghost use Rattle.std.specs.Prelude.{List};
    ghost use Rattle.rbc_settle.specs.declared.sent.Sent.{Sent};

    ghost Value = { List Sent };

    ghost view = { λ sent. sent.all.items };
}

impl SentList {
    /// Makes an empty list.
    pub fn new(alloc: Global) -> Self
        ensures { result ≡ [] }
    {
        SentList {
            all: Vec::new(alloc),
        }
    }

    /// Makes a list of these messages.
    pub fn from_vec(all: Vec<Sent>) -> Self
        ensures { result ≡ all.items }
    {
        SentList { all }
    }

    /// Returns the number of messages.
    pub fn len(&self) -> usize
        ensures { result ≡ length self.now }
    {
        self.all.len()
    }

    /// Returns the message at an index below `len`; the first has index 0.
    pub fn at(&self, index: usize) -> &Sent
        requires { index < length self.now }
        ensures { slice_get self.now index ≡ Some result.now }
    {
        &self.all[index]
    }

    /// Returns the messages as a vector.
    pub fn into_vec(self) -> Vec<Sent>
        ensures { result.items ≡ self }
    {
        self.all
    }
}

/// The answer to an input, the records that it writes and the messages that it sends.
#[derive(Drop)]
pub struct Outcome {
    pub result: Reply,
    pub writes: Writes,
    pub messages: SentList,
}

impl Outcome {
    /// Makes the outcome of an input that is refused: nothing is written or sent.
    pub fn refused(alloc: Global, refusal: Refusal) -> Self
        ensures outcome { result ≡ record { result = Refused (code_of refusal); writes = []; messages = [] } }
        ensures silent { IsSilentIfRefused result.result result.writes result.messages }
    {
        Outcome::refused_with(alloc, refusal.code())
    }

    /// Makes the outcome of an input that is refused with a code.
    pub fn refused_with(alloc: Global, code: u8) -> Self
        ensures outcome { result ≡ record { result = Refused code; writes = []; messages = [] } }
        ensures silent { IsSilentIfRefused result.result result.writes result.messages }
    {
        Outcome {
            result: Reply::Refused(code),
            writes: Writes::new(alloc),
            messages: SentList::new(alloc),
        }
    }

    /// Makes the outcome of an input that is accepted.
    pub fn done(writes: Writes, messages: SentList) -> Self
        requires { length messages < 2 ^ 32 }
        ensures outcome { result ≡ record { result = Done (length messages); writes = writes; messages = messages } }
        ensures silent { IsSilentIfRefused result.result result.writes result.messages }
    {
        Outcome {
            result: Reply::Done(messages.len() as u32),
            writes,
            messages,
        }
    }
}

/// Why an input could not be decided.
#[derive(Clone, Copy, Debug, PartialEq, Eq)]
pub enum RuleFault {
    /// Memory was refused.
    OutOfMemory,
    /// No valid state has the records that were read.
    Torn,
    /// The reader failed.
    Reader,
}

impl From<AllocError> for RuleFault {
    ghost use Rattle.std.specs.Prelude.{◌≡◌};
    ghost use Rattle.rbc_rule.specs.declared.outcome.RuleFault.TheVariants.{OutOfMemory};

    ghost from_gives = { λ _ fault. fault ≡ OutOfMemory };

    fn from(_: AllocError) -> RuleFault {
        RuleFault::OutOfMemory
    }
}

impl<T: Drop> From<AllocFailed<T>> for RuleFault {
    ghost use Rattle.std.specs.Prelude.{◌≡◌};
    ghost use Rattle.rbc_rule.specs.declared.outcome.RuleFault.TheVariants.{OutOfMemory};

    ghost from_gives = { λ _ fault. fault ≡ OutOfMemory };

    fn from(_: AllocFailed<T>) -> RuleFault {
        RuleFault::OutOfMemory
    }
}
