//! What a log tells of a run, and in which form.

ghost use Rattle.std.specs.Prelude.{ℕ, List, OnOk};
ghost use Rattle.rbc_account.specs.LogSections.{LogSection, Head, OfInput, AtEnd, IsLastBlock, IsPushed};

use crate::account::Account;
use crate::block::Block;
use std::alloc::{AllocError, Global};

/// What a log tells of a run.
#[derive(Clone, Copy, Debug, PartialEq, Eq)]
pub struct LogWanted {
    /// The number of the first input that is told, from 1 on.
    pub from: u64,
    /// The number of the last input that is run. If there are fewer inputs, or it is `None`, all are run.
    pub to: Option<u64>,
    pub parts: LogParts,
}

/// Which parts a log has.
#[derive(Clone, Copy, Debug, PartialEq, Eq)]
pub enum LogParts {
    /// The head, each input that is told, and the end.
    All,
    /// Each refused input that is told, without head and end.
    Refused,
    /// The end alone.
    End,
}

/// A form of a log, in words or as objects.
pub trait LogForm {
    // a text is that of a part of the log
    ghost is_text: { Self → LogSection → List ℕ → Type 0 };

    /// Adds the head of a log that tells inputs from this number on.
    fn push_head(&self, alloc: Global, log: &mut Vec<u8>, from: u64) -> Result<(), AllocError>
        ensures { OnOk result (IsPushed (is_text self.now (Head from)) log.old.items log.new.items) };

    /// Adds what came of a line, the last one that the account took.
    fn push_block(
        &self,
        alloc: Global,
        log: &mut Vec<u8>,
        account: &Account,
        line: &[u8],
        block: &Block,
    ) -> Result<(), AllocError>
        requires { IsLastBlock account.now line.now block.now }
        ensures { OnOk result (IsPushed (is_text self.now (OfInput account.now line.now block.now))
            log.old.items log.new.items) };

    /// Adds what stands after the last line that the account took.
    fn push_end(
        &self,
        alloc: Global,
        log: &mut Vec<u8>,
        account: &Account,
    ) -> Result<(), AllocError>
        ensures { OnOk result (IsPushed (is_text self.now (AtEnd account.now)) log.old.items log.new.items) };
}
