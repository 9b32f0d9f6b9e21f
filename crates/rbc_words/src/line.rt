//! The line that has not ended yet.

ghost use Rattle.std.specs.Prelude.{◌≡◌, ◌==◌, ◌&&◌, not, length, ◌++◌, ◌∷◌, [], List, ℕ};
ghost use Rattle.std.specs.Prelude.{OnOk, OnErr, IfErr, true, false};
ghost use Rattle.rbc_words.specs.UnderWay.{IsShownBy, IsPutBehind, IsStopped, IsStoppedMidway};
ghost use Rattle.rbc_words.specs.UnderWay.{IsRefusedUnless, passed_on};

use crate::rule::{LineRule, Outlook, RuleError};
use std::alloc::Global;

/// Of a line that has so many bytes it is asked whether it becomes itself however it goes on.
const MANY: usize = 4_096;

/// The bytes of a line that has begun, or none of one that was passed on.
#[derive(Drop)]
pub struct UnfinishedLine {
    bytes: Vec<u8>,
    passed_on: bool,
}

impl UnfinishedLine {
    /// No byte of a line. It takes no memory.
    pub fn new(alloc: Global) -> UnfinishedLine
        ensures kept { result.passed_on ≡ false }
        ensures none { result.bytes.items ≡ [] }
    {
        UnfinishedLine {
            bytes: Vec::new(alloc),
            passed_on: false,
        }
    }

    /// Adds bytes of the same line. What becomes itself, however it goes on, is put behind the text.
    ///
    /// # Errors
    ///
    /// `Wrong` where the line is wrong however it goes on, and `Memory`. The text is then as it was.
    pub fn add<L: LineRule>(
        &mut self,
        rule: &L,
        more: &[u8],
        text: &mut Vec<u8>,
    ) -> Result<(), RuleError<L::Fault>>
        ensures added { (line : List ℕ) → IsShownBy (L.becomes rule.now) line self.old
            → OnOk result (IsShownBy (L.becomes rule.now) (line ++ more.now) self.new) }
        ensures text { (line : List ℕ) → IsShownBy (L.becomes rule.now) line self.old
            → OnOk result (IsPutBehind text.old.items text.new.items
            (passed_on line self.old) (passed_on (line ++ more.now) self.new)) }
        ensures stopped { (line : List ℕ) → IsShownBy (L.becomes rule.now) line self.old
            → IfErr result (IsStoppedMidway (L.is_wrong rule.now) (line ++ more.now) (passed_on line self.old)) }
        ensures unchanged { OnErr result (text.new.items ≡ text.old.items) }
    {
        if self.passed_on {
            text.extend_from_slice(more)?;
            return Ok(());
        }
        self.bytes.extend_from_slice(more)?;
        if self.bytes.len() < MANY {
            return Ok(());
        }
        match rule.outlook(&self.bytes) {
            Outlook::Open => Ok(()),
            Outlook::Wrong(fault) => Err(RuleError::Wrong(fault)),
            Outlook::Itself => {
                text.extend_from_slice(&self.bytes)?;
                self.bytes.clear();
                self.passed_on = true;
                Ok(())
            }
        }
    }

    /// Whether no byte was added.
    pub fn is_empty(&self) -> bool
        ensures { result ≡ (not self.now.passed_on && (length self.now.bytes.items == 0)) }
    {
        !self.passed_on && self.bytes.is_empty()
    }

    /// Takes the line to its end, which these bytes are, and puts what it becomes behind the text, as far as that was
    /// not passed on. A new line begins.
    ///
    /// # Errors
    ///
    /// `Wrong` and `Memory`. The text is then as it was.
    pub fn end<L: LineRule>(
        &mut self,
        alloc: Global,
        rule: &L,
        end: &[u8],
        text: &mut Vec<u8>,
    ) -> Result<(), RuleError<L::Fault>>
        ensures begun { OnOk result ((self.new.passed_on ≡ false) × (self.new.bytes.items ≡ [])) }
        ensures text { (line : List ℕ) → IsShownBy (L.becomes rule.now) line self.old
            → OnOk result ((turned : List ℕ) × L.becomes rule.now (line ++ end.now) turned
            × IsPutBehind text.old.items text.new.items (passed_on line self.old) (turned ++ 10 ∷ [])) }
        ensures stopped { (line : List ℕ) → IsShownBy (L.becomes rule.now) line self.old
            → IfErr result (IsStopped (L.is_wrong rule.now) (line ++ end.now) (passed_on line self.old)) }
        ensures unchanged { OnErr result (text.new.items ≡ text.old.items) }
    {
        self.bytes.extend_from_slice(end)?;
        self.turn(alloc, rule)?;
        self.bytes.extend_from_slice(b"\n")?;
        text.extend_from_slice(&self.bytes)?;
        self.bytes.clear();
        self.passed_on = false;
        Ok(())
    }

    /// Puts what the line becomes in its place, unless it was passed on.
    ///
    /// # Errors
    ///
    /// `Wrong` and `Memory`. What is kept is then of no use.
    fn turn<L: LineRule>(&mut self, alloc: Global, rule: &L) -> Result<(), RuleError<L::Fault>>
        ensures passed_on { self.old.passed_on ≡ true → OnOk result (self.new.bytes.items ≡ self.old.bytes.items) }
        ensures kept { self.old.passed_on ≡ false
            → OnOk result (L.becomes rule.now self.old.bytes.items self.new.bytes.items) }
        ensures wrong { IfErr result (IsRefusedUnless self.old.passed_on (L.is_wrong rule.now) self.old.bytes.items) }
    {
        if self.passed_on {
            return Ok(());
        }
        if let Some(text) = rule.turn(alloc, &self.bytes)? {
            self.bytes = text;
        }
        Ok(())
    }
}
