//! The log of a run under way: an account, and the text that is not written yet.

ghost use Rattle.std.specs.Prelude.{◌≡◌, ◌≤◌, ◌<◌, ◌+◌, ◌^◌, ◌++◌, ◌∷◌, [], ℕ, List, Option, length, true, false};
ghost use Rattle.std.specs.Prelude.{OnOk, OnErr, IfErr};
ghost use Rattle.std.specs.Io.KnownBytes.{Appends};
ghost use Rattle.rbc_text.specs.Streams.{count_of};
ghost use Rattle.rbc_rule.specs.declared.outcome.Reply.{Reply};
ghost use Rattle.rbc_account.specs.declared.account.Account.{Account};
ghost use Rattle.rbc_account.specs.LogSections.{AtEnd, IsLastBlock, IsPushed, OfInput};
ghost use Rattle.rbc_account.specs.RunLogs.{IsPartIf, IsWithin, has_block, has_end, is_told};
ghost use Rattle.rbc_account.specs.Sums.{input_count};
ghost use Rattle.rbc_account.specs.UnderWay.{GoesOn, IsHeadAdded, IsReached};
ghost use Rattle.rbc_account.specs.UnderWay.{IsStop, IsTooLate, IsUnderWay, IsWhole, IsWriteFault, AreAdded, taken_by};

use crate::account::Account;
use crate::block::Block;
use crate::fault::TellError;
use crate::log_form::{LogForm, LogParts, LogWanted};
use rbc_rule::Reply;
use rbc_text::Outlet;
use std::alloc::{AllocError, Global};
use std::io::Write;

/// The log is written once there are this many bytes of it.
const ENOUGH: usize = 65_536;

/// A run that is told.
#[derive(Drop)]
pub(crate) struct RunLog {
    account: Account,
    wanted: LogWanted,
    /// Whether the head has been added, if one is wanted.
    headed: bool,
    /// The part that is being added.
    part: Vec<u8>,
    /// What is not written yet.
    text: Vec<u8>,
    outlet: Outlet,
}

/// Whether a log with these parts has a block for an input with this reply.
fn has_block(parts: LogParts, reply: Reply) -> bool
    ensures { result ≡ has_block parts reply }
{
    match (parts, reply) {
        (LogParts::All, _) | (LogParts::Refused, Reply::Refused(_)) => true,
        (LogParts::Refused, Reply::Done(_)) | (LogParts::End, _) => false,
    }
}

/// Adds the head to a text, unless it was added before or is not wanted.
fn push_missing_head<F: LogForm>(
    alloc: Global,
    form: &F,
    text: &mut Vec<u8>,
    wanted: LogWanted,
    headed: bool,
) -> Result<(), AllocError>
    ensures { OnOk result (IsPushed (IsHeadAdded headed (F.is_text form.now) wanted) text.old.items text.new.items) }
{
    if !headed && wanted.parts == LogParts::All {
        form.push_head(alloc, text, wanted.from)?;
    }
    Ok(())
}

/// Adds the end to a text, if it is wanted.
fn push_wanted_end<F: LogForm>(
    alloc: Global,
    form: &F,
    text: &mut Vec<u8>,
    parts: LogParts,
    account: &Account,
) -> Result<(), AllocError>
    ensures { OnOk result (IsPushed (IsPartIf (has_end parts) (F.is_text form.now (AtEnd account.now)))
        text.old.items text.new.items) }
{
    if parts != LogParts::Refused {
        form.push_end(alloc, text, account)?;
    }
    Ok(())
}

impl RunLog {
    /// Begins before the first line. It takes no memory.
    pub fn new(alloc: Global, account: Account, wanted: LogWanted) -> RunLog
        ensures account { result.account ≡ account }
        ensures wanted { result.wanted ≡ wanted }
        ensures headed { result.headed ≡ false }
        ensures text { result.text.items ≡ [] }
        ensures sent { result.outlet.sent ≡ 0 }
    {
        RunLog {
            account,
            wanted,
            headed: false,
            part: Vec::new(alloc),
            text: Vec::new(alloc),
            outlet: Outlet::new(),
        }
    }

    /// Whether as many lines were taken as are to be run.
    pub fn is_full(&self) -> bool
        ensures open { result ≡ false → IsWithin self.now.wanted.to (input_count self.now.account.sums + 1) }
        ensures full { result ≡ true → IsReached self.now.wanted.to (input_count self.now.account.sums) }
    {
        match self.wanted.to {
            Some(to) => to <= self.account.inputs(),
            None => false,
        }
    }

    /// Checks, behind the last line, that there is the first input that is to be told. For no input it may be 1.
    ///
    /// # Errors
    ///
    /// `OnlyInputs`.
    pub fn check_first(&self) -> Result<(), TellError>
        ensures { IsTooLate self.now.wanted.from (input_count self.now.account.sums) result }
    {
        let count = self.account.inputs();
        if count.max(1) < self.wanted.from {
            return Err(TellError::OnlyInputs { count });
        }
        Ok(())
    }

    /// Takes a line. The log is written if there is enough of it.
    ///
    /// # Errors
    ///
    /// `Memory`, with the log of the lines before it written, or those of `write_out`.
    pub fn take_line<F: LogForm, W: Write>(
        &mut self,
        alloc: Global,
        form: &F,
        line: &[u8],
        writer: &mut W,
    ) -> Result<(), TellError>
        requires few { taken_by self.old.account + 1 < 2 ^ 64 }
        ensures taken { (wanted : LogWanted) (start : Account) (lines : List (List ℕ)) (old : Option (List ℕ))
            → IsUnderWay (F.is_text form.now) wanted start lines self.old old (W.contents writer.old)
            → IsWithin wanted.to (length lines + 1)
            → GoesOn (F.is_text form.now) wanted start (lines ++ line.now ∷ []) old (W.contents writer.new) result
            (IsUnderWay (F.is_text form.now) wanted start (lines ++ line.now ∷ []) self.new old (W.contents writer.new)) }
        ensures count { OnOk result (taken_by self.new.account ≡ taken_by self.old.account + 1) }
    {
        if self.add_line(alloc, form, line).is_err() {
            return Err(self.stop(writer, TellError::Memory));
        }
        if self.text.len() < ENOUGH {
            return Ok(());
        }
        self.write_out(writer)
    }

    /// Whether the next line is not told, whatever comes of it.
    fn passes_next(&self) -> bool
        requires { taken_by self.now.account + 1 < 2 ^ 64 }
        ensures passed { result ≡ true → (answer : Reply) → is_told self.now.wanted (taken_by self.now.account + 1) answer
            ≡ false }
        ensures told { result ≡ false → (answer : Reply) → is_told self.now.wanted (taken_by self.now.account + 1) answer
            ≡ has_block self.now.wanted.parts answer }
    {
        let number = self.account.inputs().saturating_add(1);
        number < self.wanted.from || self.wanted.parts == LogParts::End
    }

    /// Takes a line, and adds what is told of it to the text. After an error the text is as it was.
    fn add_line<F: LogForm>(
        &mut self,
        alloc: Global,
        form: &F,
        line: &[u8],
    ) -> Result<(), AllocError>
        requires few { taken_by self.old.account + 1 < 2 ^ 64 }
        ensures added { (wanted : LogWanted) (start : Account) (lines : List (List ℕ)) (old new : Option (List ℕ))
            → IsUnderWay (F.is_text form.now) wanted start lines self.old old new
            → IsWithin wanted.to (length lines + 1)
            → OnOk result (IsUnderWay (F.is_text form.now) wanted start (lines ++ line.now ∷ []) self.new old new) }
        ensures count { OnOk result (taken_by self.new.account ≡ taken_by self.old.account + 1) }
        ensures text { OnErr result (self.new.text.items ≡ self.old.text.items) }
        ensures sent { self.new.outlet.sent ≡ self.old.outlet.sent }
    {
        if self.passes_next() {
            let _answer = self.account.pass(alloc, line)?;
            return Ok(());
        }
        let block = self.account.step(alloc, line)?;
        if !has_block(self.wanted.parts, block.reply) {
            return Ok(());
        }
        self.add_block(alloc, form, line, &block)
    }

    /// Adds the block of the line that was taken last to the text, behind the head. After an error the text is as it
    /// was.
    fn add_block<F: LogForm>(
        &mut self,
        alloc: Global,
        form: &F,
        line: &[u8],
        block: &Block,
    ) -> Result<(), AllocError>
        requires { IsLastBlock self.old.account line.now block.now }
        ensures added { OnOk result (IsPushed (AreAdded (IsHeadAdded self.old.headed (F.is_text form.now) self.old.wanted)
            (F.is_text form.now (OfInput self.old.account line.now block.now))) self.old.text.items self.new.text.items) }
        ensures headed { OnOk result (self.new.headed ≡ true) }
        ensures text { OnErr result (self.new.text.items ≡ self.old.text.items) }
        ensures sent { self.new.outlet.sent ≡ self.old.outlet.sent }
        ensures account { self.new.account ≡ self.old.account }
        ensures wanted { self.new.wanted ≡ self.old.wanted }
    {
        self.part.clear();
        push_missing_head(alloc, form, &mut self.part, self.wanted, self.headed)?;
        form.push_block(alloc, &mut self.part, &self.account, line, block)?;
        self.text.extend_from_slice(&self.part)?;
        self.headed = true;
        Ok(())
    }

    /// Adds the end to the text, behind the head if no input is told. After an error the text is as it was.
    fn add_end<F: LogForm>(&mut self, alloc: Global, form: &F) -> Result<(), AllocError>
        ensures added { OnOk result (IsPushed (AreAdded (IsHeadAdded self.old.headed (F.is_text form.now) self.old.wanted)
            (IsPartIf (has_end self.old.wanted.parts) (F.is_text form.now (AtEnd self.old.account))))
            self.old.text.items self.new.text.items) }
        ensures text { OnErr result (self.new.text.items ≡ self.old.text.items) }
        ensures sent { self.new.outlet.sent ≡ self.old.outlet.sent }
    {
        self.part.clear();
        push_missing_head(alloc, form, &mut self.part, self.wanted, self.headed)?;
        push_wanted_end(
            alloc,
            form,
            &mut self.part,
            self.wanted.parts,
            &self.account,
        )?;
        self.text.extend_from_slice(&self.part)
    }

    /// Writes what is not written yet, and flushes it.
    ///
    /// # Errors
    ///
    /// `Write` or `ReaderGone`.
    fn write_out<W: Write>(&mut self, writer: &mut W) -> Result<(), TellError>
        ensures whole { OnOk result (Appends (W.contents writer.old) (W.contents writer.new) self.old.text.items) }
        ensures part { IfErr result (IsWriteFault self.old.outlet.sent self.old.text.items
            (W.contents writer.old) (W.contents writer.new)) }
        ensures sent { OnOk result (self.new.outlet.sent
            ≡ count_of (self.old.outlet.sent + length self.old.text.items)) }
        ensures text { OnOk result (self.new.text.items ≡ []) }
        ensures account { self.new.account ≡ self.old.account }
        ensures wanted { self.new.wanted ≡ self.old.wanted }
        ensures headed { self.new.headed ≡ self.old.headed }
    {
        self.outlet.write(writer, &self.text)?;
        self.outlet.flush(writer)?;
        self.text.clear();
        Ok(())
    }

    /// The fault that ends the run. What is not written yet is written first; if that fails, this is the fault.
    pub fn stop<W: Write>(&mut self, writer: &mut W, fault: TellError) -> TellError
        ensures { IsStop self.old fault (W.contents writer.old) (W.contents writer.new) result }
    {
        match self.write_out(writer) {
            Ok(()) => fault,
            Err(fault) => fault,
        }
    }

    /// Adds the end, and writes all that is not written yet.
    ///
    /// # Errors
    ///
    /// `Memory`, with the log of all lines written, or those of `write_out`.
    pub fn finish<F: LogForm, W: Write>(
        mut self,
        alloc: Global,
        form: &F,
        writer: &mut W,
    ) -> Result<(), TellError>
        ensures { (wanted : LogWanted) (start : Account) (lines : List (List ℕ)) (old : Option (List ℕ))
            → IsUnderWay (F.is_text form.now) wanted start lines self old (W.contents writer.old)
            → GoesOn (F.is_text form.now) wanted start lines old (W.contents writer.new) result
            (IsWhole (F.is_text form.now) wanted start lines old (W.contents writer.new)) }
    {
        if self.add_end(alloc, form).is_err() {
            return Err(self.stop(writer, TellError::Memory));
        }
        self.write_out(writer)
    }
}
