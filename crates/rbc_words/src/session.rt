//! Lines under way: the line that has not ended, and what is not written yet.

ghost use Rattle.std.specs.Prelude.{◌≡◌, ◌≤◌, ◌<◌, ◌+◌, ◌^◌, ◌++◌, ◌∷◌, [], ℕ, List, Option};
ghost use Rattle.std.specs.Prelude.{length, OnOk, IfErr, false};
ghost use Rattle.std.specs.Io.KnownBytes.{Appends};
ghost use Rattle.std.specs.List.{slice_split};
ghost use Rattle.rbc_text.specs.BatchText.{is_line_feed, without_empty_end};
ghost use Rattle.rbc_text.specs.EndedLines.{joined};
ghost use Rattle.rbc_text.specs.Streams.{IsCutShort, count_of};
ghost use Rattle.rbc_words.specs.UnderWay.{IsUnderWay, IsWaiting, IsDone, GoesOn, HasTaken, IsStop};
ghost use Rattle.rbc_words.specs.UnderWay.{IsWriteFault, fault_of};

use crate::filter::FilterError;
use crate::line::UnfinishedLine;
use crate::rule::{LineRule, RuleError};
use ertms_codec::cut;
use rbc_text::{Outlet, WriteFault};
use std::alloc::Global;
use std::io::Write;

/// What lines become is written once there are so many bytes of it, and at the end of each piece that is read.
const ENOUGH: usize = 65_536;

/// Lines that go through a filter.
#[derive(Drop)]
pub struct Session {
    /// The number of the next line; the first has number 1.
    number: u64,
    line: UnfinishedLine,
    /// What is not written yet.
    text: Vec<u8>,
    outlet: Outlet,
}

impl Session {
    /// Begins before the first line. It takes no memory.
    pub fn new(alloc: Global) -> Session
        ensures number { result.number ≡ 1 }
        ensures line { (result.line.passed_on ≡ false) × (result.line.bytes.items ≡ []) }
        ensures waiting { IsWaiting result }
        ensures sent { result.outlet.sent ≡ 0 }
    {
        Session {
            number: 1,
            line: UnfinishedLine::new(alloc),
            text: Vec::new(alloc),
            outlet: Outlet::new(),
        }
    }

    /// Writes what is not written yet, and flushes it.
    ///
    /// # Errors
    ///
    /// `WriteFault`.
    fn deliver<W: Write>(&mut self, writer: &mut W) -> Result<(), WriteFault>
        ensures whole { OnOk result (Appends (W.contents writer.old) (W.contents writer.new) self.old.text.items) }
        ensures part { IfErr result (IsCutShort self.old.outlet.sent self.old.text.items
            (W.contents writer.old) (W.contents writer.new)) }
        ensures sent { OnOk result (self.new.outlet.sent
            ≡ count_of (self.old.outlet.sent + length self.old.text.items)) }
        ensures waiting { OnOk result (IsWaiting self.new) }
        ensures number { self.new.number ≡ self.old.number }
        ensures line { self.new.line ≡ self.old.line }
    {
        self.outlet.write(writer, &self.text)?;
        self.outlet.flush(writer)?;
        self.text.clear();
        Ok(())
    }

    /// Writes what is not written yet, and flushes it.
    ///
    /// # Errors
    ///
    /// `Write`.
    fn write_out<F: Copy + Drop, W: Write>(&mut self, writer: &mut W) -> Result<(), FilterError<F>>
        ensures whole { OnOk result (Appends (W.contents writer.old) (W.contents writer.new) self.old.text.items) }
        ensures part { IfErr result (IsWriteFault self.old (W.contents writer.old) (W.contents writer.new)) }
        ensures sent { OnOk result (self.new.outlet.sent
            ≡ count_of (self.old.outlet.sent + length self.old.text.items)) }
        ensures waiting { OnOk result (IsWaiting self.new) }
        ensures number { self.new.number ≡ self.old.number }
        ensures line { self.new.line ≡ self.old.line }
    {
        match self.deliver(writer) {
            Ok(()) => Ok(()),
            Err(fault) => Err(FilterError::Write { sent: fault.sent }),
        }
    }

    /// The fault of the line under way: what is not written yet is written first.
    fn stop<F: Copy + Drop, W: Write>(
        &mut self,
        error: RuleError<F>,
        writer: &mut W,
    ) -> FilterError<F>
        ensures { IsStop self.old error (W.contents writer.old) (W.contents writer.new) result }
    {
        match self.write_out(writer) {
            Err(fault) => fault,
            Ok(()) => self.fault_of(error),
        }
    }

    /// The fault of the line under way.
    fn fault_of<F: Copy + Drop>(&self, error: RuleError<F>) -> FilterError<F>
        ensures { result ≡ fault_of self.now.number error }
    {
        match error {
            RuleError::Memory => FilterError::Memory,
            RuleError::Wrong(fault) => FilterError::Line {
                number: self.number,
                fault,
            },
        }
    }

    /// Takes the line to its end, which these bytes are. What it becomes is written if there is enough to write.
    ///
    /// # Errors
    ///
    /// Those of a line, with what the lines before it become written, and `Write`.
    fn end_line<L: LineRule, W: Write>(
        &mut self,
        alloc: Global,
        rule: &L,
        end: &[u8],
        writer: &mut W,
    ) -> Result<(), FilterError<L::Fault>>
        requires { self.old.number + 1 < 2 ^ 64 }
        ensures taken { (old : Option (List ℕ)) (ended : List (List ℕ)) (rest : List ℕ)
            → IsUnderWay (L.becomes rule.now) self.old old (W.contents writer.old) ended rest
            → GoesOn (L.becomes rule.now) (L.is_wrong rule.now) (ended ++ (rest ++ end.now) ∷ [])
            old (W.contents writer.new) result (IsUnderWay (L.becomes rule.now) self.new
            old (W.contents writer.new) (ended ++ (rest ++ end.now) ∷ []) []) }
        ensures number { OnOk result (self.new.number ≡ self.old.number + 1) }
    {
        if let Err(error) = self.line.end(alloc, rule, end, &mut self.text) {
            return Err(self.stop(error, writer));
        }
        self.number += 1;
        if self.text.len() < ENOUGH {
            return Ok(());
        }
        self.write_out(writer)
    }

    /// Adds bytes of a line that they do not end.
    ///
    /// # Errors
    ///
    /// Those of a line, with what the lines before it become written, and `Write`.
    fn go_on_line<L: LineRule, W: Write>(
        &mut self,
        rule: &L,
        more: &[u8],
        writer: &mut W,
    ) -> Result<(), FilterError<L::Fault>>
        ensures added { (old : Option (List ℕ)) (ended : List (List ℕ)) (rest : List ℕ)
            → IsUnderWay (L.becomes rule.now) self.old old (W.contents writer.old) ended rest
            → GoesOn (L.becomes rule.now) (L.is_wrong rule.now) (without_empty_end (ended ++ (rest ++ more.now) ∷ []))
            old (W.contents writer.new) result
            (IsUnderWay (L.becomes rule.now) self.new old (W.contents writer.new) ended (rest ++ more.now)) }
        ensures number { OnOk result (self.new.number ≡ self.old.number) }
    {
        match self.line.add(rule, more, &mut self.text) {
            Ok(()) => Ok(()),
            Err(error) => Err(self.stop(error, writer)),
        }
    }

    /// Takes the lines of a piece of what is read, in which the last one may go on, and writes what they become.
    ///
    /// # Errors
    ///
    /// Those of a line, with what the lines before it become written, and `Write`.
    pub fn take_piece<L: LineRule, W: Write>(
        &mut self,
        alloc: Global,
        rule: &L,
        piece: &[u8],
        writer: &mut W,
    ) -> Result<(), FilterError<L::Fault>>
        requires { self.old.number + length piece.now < 2 ^ 64 }
        ensures taken { (old : Option (List ℕ)) (ended : List (List ℕ)) (rest : List ℕ)
            → IsUnderWay (L.becomes rule.now) self.old old (W.contents writer.old) ended rest
            → HasTaken (L.becomes rule.now) (L.is_wrong rule.now)
            (ended ++ joined rest (slice_split is_line_feed piece.now)) old (W.contents writer.new) self.new result }
        ensures waiting { OnOk result (IsWaiting self.new) }
        ensures number { OnOk result (self.new.number ≤ self.old.number + length piece.now) }
    {
        let mut left = Some(piece);
        while let Some(bytes) = left {
            let (line, behind) = cut(bytes, b'\n');
            match behind {
                Some(_) => self.end_line(alloc, rule, line, writer)?,
                None => self.go_on_line(rule, line, writer)?,
            }
            left = behind;
        }
        self.write_out(writer)
    }

    /// Takes what is left as a line, if there is anything, and writes what it becomes.
    ///
    /// # Errors
    ///
    /// Those of a line, with what the lines before it become written, and `Write`.
    pub fn finish<L: LineRule, W: Write>(
        mut self,
        alloc: Global,
        rule: &L,
        writer: &mut W,
    ) -> Result<(), FilterError<L::Fault>>
        requires number { self.number + 1 < 2 ^ 64 }
        requires waiting { IsWaiting self }
        ensures { (old : Option (List ℕ)) (ended : List (List ℕ)) (rest : List ℕ)
            → IsUnderWay (L.becomes rule.now) self old (W.contents writer.old) ended rest
            → GoesOn (L.becomes rule.now) (L.is_wrong rule.now) (without_empty_end (ended ++ rest ∷ []))
            old (W.contents writer.new) result
            (IsDone (L.becomes rule.now) (without_empty_end (ended ++ rest ∷ [])) [] old (W.contents writer.new)) }
    {
        if self.line.is_empty() {
            return Ok(());
        }
        self.end_line(alloc, rule, &[], writer)?;
        self.write_out(writer)
    }
}
