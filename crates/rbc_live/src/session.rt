//! Lines under way: a desk, the line that has not ended, and the answers that are not written yet.

ghost use Rattle.std.specs.Prelude.{◌≡◌, ◌≤◌, ◌<◌, ◌+◌, ◌^◌, ◌++◌, ◌∷◌, [], ℕ, List, Option, length, OnOk, OnErr};
ghost use Rattle.std.specs.List.{slice_split};
ghost use Rattle.rbc_track.specs.Plan.{Plan};
ghost use Rattle.rbc_text.specs.BatchText.{is_line_feed, without_empty_end};
ghost use Rattle.rbc_text.specs.EndedLines.{but_last, joined};
ghost use Rattle.rbc_live.specs.UnderWay.{ArePending, IsUnderWay, IsWaiting, IsDone, GoesOn, IsEnded, HasTaken};
ghost use Rattle.rbc_live.specs.declared.wanted.Wanted.{Wanted};

use crate::desk::{LiveDesk, LiveFault};
use crate::line::UnfinishedLine;
use crate::prompt::PromptError;
use crate::wanted::Wanted;
use crate::watch::{Watch, alarm_part, watch_for};
use ertms_codec::cut;
use rbc_text::{Outlet, render_answer};
use std::alloc::{AllocError, Global};
use std::io::Write;

/// Answers are written once there are this many bytes of them, and at the end of each piece that is read.
const ENOUGH: usize = 65_536;

/// A desk that takes lines, with the answers that are not written yet.
#[derive(Drop)]
pub struct Session {
    desk: LiveDesk,
    wanted: Wanted,
    /// The alarms that stand, if they are wanted.
    watch: Option<Watch>,
    /// The number of the next line; the first has number 1.
    number: u64,
    line: UnfinishedLine,
    /// The answers that are not written yet.
    text: Vec<u8>,
    outlet: Outlet,
}

impl Session {
    /// Begins at a desk that has taken no line.
    pub fn new(alloc: Global, desk: LiveDesk, wanted: Wanted) -> Session
        requires { desk.records ≡ [] }
        ensures under_way { (known : Option (List ℕ)) → IsUnderWay desk.track wanted result known known [] [] }
        ensures waiting { IsWaiting result }
        ensures number { result.number ≡ 1 }
    {
        Session {
            desk,
            wanted,
            watch: watch_for(alloc, wanted),
            number: 1,
            line: UnfinishedLine::new(alloc),
            text: Vec::new(alloc),
            outlet: Outlet::new(),
        }
    }

    /// Ends the current line with these bytes, takes it, and appends its answer to the text. After an error the text is
    /// as it was.
    fn take_line(&mut self, alloc: Global, end: &[u8]) -> Result<(), AllocError>
        requires { self.old.number + 1 < 2 ^ 64 }
        ensures taken { (plan : Plan) (wanted : Wanted) (old new : Option (List ℕ)) (ended : List (List ℕ)) (rest : List ℕ)
            → IsUnderWay plan wanted self.old old new ended rest
            → OnOk result (IsUnderWay plan wanted self.new old new (ended ++ (rest ++ end.now) ∷ []) []) }
        ensures number { OnOk result (self.new.number ≡ self.old.number + 1) }
        ensures text { OnErr result (self.new.text.items ≡ self.old.text.items) }
        ensures sent { self.new.outlet.sent ≡ self.old.outlet.sent }
    {
        self.line.add(alloc, end)?;
        let line = self.line.bytes();
        let (answer, replaced) = match self.desk.feed_replacing(alloc, line, usize::MAX) {
            Ok(taken) => taken,
            Err(LiveFault::Memory) => return Err(AllocError),
            // There is room for as many messages as can be counted.
            Err(LiveFault::Room(_)) => unreachable!(),
        };
        let (desk, number) = (&self.desk, self.number);
        let alarms = alarm_part(alloc, &mut self.watch, desk, &replaced, number, self.wanted)?;
        self.desk.keep_spare(replaced);
        self.number += 1;
        self.line.clear();
        if number < self.wanted.from {
            return self.text.extend_from_slice(&alarms);
        }
        let mut text = render_answer(alloc, number, answer.reply, &answer.messages)?;
        text.extend_from_slice(&alarms)?;
        self.text.extend_from_slice(&text)
    }

    /// Writes the answers that are not written yet, and flushes them.
    ///
    /// # Errors
    ///
    /// `Write`.
    fn write_out<W: Write>(&mut self, writer: &mut W) -> Result<(), PromptError>
        ensures written { (plan : Plan) (wanted : Wanted) (old : Option (List ℕ)) (ended : List (List ℕ))
            → ArePending plan wanted self.old.text.items self.old.outlet.sent old (W.contents writer.old) ended
            → GoesOn plan wanted ended old (W.contents writer.new) result
            (IsDone plan wanted ended old (W.contents writer.new)) }
        ensures under_way { (plan : Plan) (wanted : Wanted) (old : Option (List ℕ)) (ended : List (List ℕ)) (rest : List ℕ)
            → IsUnderWay plan wanted self.old old (W.contents writer.old) ended rest
            → OnOk result (IsUnderWay plan wanted self.new old (W.contents writer.new) ended rest) }
        ensures waiting { OnOk result (IsWaiting self.new) }
        ensures number { self.new.number ≡ self.old.number }
    {
        self.outlet.write(writer, &self.text)?;
        self.text.clear();
        self.outlet.flush(writer)?;
        Ok(())
    }

    /// The fault of a line for which memory was refused. The answers to the lines before it are written first.
    fn out_of_memory<W: Write>(&mut self, writer: &mut W) -> PromptError
        ensures { (plan : Plan) (wanted : Wanted) (old : Option (List ℕ)) (ended : List (List ℕ))
            → ArePending plan wanted self.old.text.items self.old.outlet.sent old (W.contents writer.old) ended
            → IsEnded plan wanted ended old (W.contents writer.new) result }
    {
        match self.write_out(writer) {
            Ok(()) => PromptError::Memory,
            Err(fault) => fault,
        }
    }

    /// Ends the current line with these bytes, and takes it. The answers are written once there are enough of them.
    ///
    /// # Errors
    ///
    /// `Memory`, with the answers to the lines before it written, or `Write`.
    fn end_line<W: Write>(
        &mut self,
        alloc: Global,
        end: &[u8],
        writer: &mut W,
    ) -> Result<(), PromptError>
        requires { self.old.number + 1 < 2 ^ 64 }
        ensures taken { (plan : Plan) (wanted : Wanted) (old : Option (List ℕ)) (ended : List (List ℕ)) (rest : List ℕ)
            → IsUnderWay plan wanted self.old old (W.contents writer.old) ended rest
            → GoesOn plan wanted (ended ++ (rest ++ end.now) ∷ []) old (W.contents writer.new) result
            (IsUnderWay plan wanted self.new old (W.contents writer.new) (ended ++ (rest ++ end.now) ∷ []) []) }
        ensures number { OnOk result (self.new.number ≡ self.old.number + 1) }
    {
        if self.take_line(alloc, end).is_err() {
            return Err(self.out_of_memory(writer));
        }
        if self.text.len() < ENOUGH {
            return Ok(());
        }
        self.write_out(writer)
    }

    /// Adds bytes to the current line, which goes on after them.
    ///
    /// # Errors
    ///
    /// `Memory`, with the answers to the lines before it written, or `Write`.
    fn go_on_line<W: Write>(
        &mut self,
        alloc: Global,
        more: &[u8],
        writer: &mut W,
    ) -> Result<(), PromptError>
        ensures added { (plan : Plan) (wanted : Wanted) (old : Option (List ℕ)) (ended : List (List ℕ)) (rest : List ℕ)
            → IsUnderWay plan wanted self.old old (W.contents writer.old) ended rest
            → GoesOn plan wanted ended old (W.contents writer.new) result
            (IsUnderWay plan wanted self.new old (W.contents writer.new) ended (rest ++ more.now)) }
        ensures number { OnOk result (self.new.number ≡ self.old.number) }
    {
        if self.line.add(alloc, more).is_err() {
            return Err(self.out_of_memory(writer));
        }
        Ok(())
    }

    /// Takes the lines in a piece of the input, and writes their answers. The last line may go on in the next piece.
    ///
    /// # Errors
    ///
    /// `Memory`, with the answers to the lines before it written, or `Write`.
    pub fn take_piece<W: Write>(
        &mut self,
        alloc: Global,
        piece: &[u8],
        writer: &mut W,
    ) -> Result<(), PromptError>
        requires { self.old.number + length piece.now < 2 ^ 64 }
        ensures taken { (plan : Plan) (wanted : Wanted) (old : Option (List ℕ)) (ended : List (List ℕ)) (rest : List ℕ)
            → IsUnderWay plan wanted self.old old (W.contents writer.old) ended rest
            → HasTaken plan wanted (ended ++ joined rest (slice_split is_line_feed piece.now))
            old (W.contents writer.new) self.new result }
        ensures waiting { OnOk result (IsWaiting self.new) }
        ensures number { OnOk result (self.new.number ≤ self.old.number + length piece.now) }
    {
        let mut left = Some(piece);
        while let Some(bytes) = left {
            let (line, behind) = cut(bytes, b'\n');
            match behind {
                Some(_) => self.end_line(alloc, line, writer)?,
                None => self.go_on_line(alloc, line, writer)?,
            }
            left = behind;
        }
        self.write_out(writer)
    }

    /// Takes what is left as a line, if there is anything, and writes its answer.
    ///
    /// # Errors
    ///
    /// `Memory` or `Write`.
    pub fn finish<W: Write>(mut self, alloc: Global, writer: &mut W) -> Result<(), PromptError>
        requires number { self.number + 1 < 2 ^ 64 }
        requires waiting { IsWaiting self }
        ensures { (plan : Plan) (wanted : Wanted) (old : Option (List ℕ)) (ended : List (List ℕ)) (rest : List ℕ)
            → IsUnderWay plan wanted self old (W.contents writer.old) ended rest
            → GoesOn plan wanted (without_empty_end (ended ++ rest ∷ [])) old (W.contents writer.new) result
            (IsDone plan wanted (without_empty_end (ended ++ rest ∷ [])) old (W.contents writer.new)) }
    {
        if self.line.is_empty() {
            return Ok(());
        }
        self.end_line(alloc, &[], writer)?;
        self.write_out(writer)
    }
}
