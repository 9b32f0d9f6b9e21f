//! Why a line is refused, in words.

ghost use Rattle.std.specs.Prelude.{◌≡◌, ◌<◌, ◌⊎◌, ◌++◌, ℕ, List, length, Some, IfOk, OnOk};
ghost use Rattle.rbc_c.specs.Given.{fronted};
ghost use Rattle.rbc_rule.specs.Inputs.{Fits};
ghost use Rattle.rbc_c.specs.Reasons.{AreWordsOn, IsReason, IsReplyOn, IsRowFor, is_bad_restriction, words_of};

use crate::given::give;
use rbc_live::LiveDesk;
use rbc_records::{Key, PlainStore, ReadFault, Reader, Rec};
use rbc_rule::{Input, Refusal, Reply, RuleFault};
use rbc_text::{decide, parse_line};
use rbc_words::{Row, other_row_of, row_of_code};
use std::alloc::{AllocError, Global};

/// The records of a desk, for reading only.
#[derive(Drop)]
struct Reading<'a> {
    records: &'a PlainStore,
}

impl Reader for Reading<'_> {
    ghost use Rattle.rbc_records.specs.Notes.{Whole};

    ghost notes = { λ reading. Whole reading.records.now };

    ghost failed = { λ _. 0 };

    fn fetch(&mut self, _key: Key) -> Result<(), ReadFault> {
        Ok(())
    }

    fn seen(&self, key: Key) -> Option<&Rec> {
        self.records.get(key)
    }

    fn failures(&self) -> u64 {
        0
    }
}

/// The answer to an input on a desk.
fn reply_on(desk: &LiveDesk, alloc: Global, input: &Input) -> Result<Reply, AllocError>
    requires { Fits input.now }
    ensures { IfOk result (λ reply. IsReplyOn desk.now input.now reply) }
{
    let mut reading = Reading {
        records: &desk.records,
    };
    match decide(alloc, &desk.track, input, &mut reading) {
        Ok(outcome) => Ok(outcome.result),
        Err(RuleFault::OutOfMemory) => Err(AllocError),
        // The records of a desk are those of a world, and this reader never fails.
        Err(RuleFault::Torn) => unreachable!(),
        Err(RuleFault::Reader) => unreachable!(),
    }
}

/// Whether an input that is refused with a code is a restriction whose stretch or speed is bad.
fn is_bad_restriction(input: &Input, code: u8) -> bool
    ensures { result ≡ is_bad_restriction input.now code }
{
    match input {
        Input::Restrict { .. } => code == Refusal::BadArea.code(),
        _ => false,
    }
}

/// The row for an input that is refused with a code.
fn row_for(input: &Input, code: u8) -> Option<Row>
    ensures { IsRowFor input.now code result }
{
    if is_bad_restriction(input, code) {
        other_row_of(Refusal::BadArea)
    } else {
        row_of_code(code)
    }
}

/// Adds the words of a row.
fn push_row(text: &mut Vec<u8>, row: Row) -> Result<(), AllocError>
    ensures { OnOk result (text.new.items ≡ text.old.items ++ words_of (Some row)) }
{
    text.extend_from_slice(row.name.as_bytes())?;
    text.extend_from_slice(b": ")?;
    text.extend_from_slice(row.sentence.as_bytes())?;
    text.extend_from_slice(b"\n")
}

/// The words on an answer to an input.
fn words_on(alloc: Global, input: &Input, reply: Reply) -> Result<Vec<u8>, AllocError>
    ensures { IfOk result (λ text. AreWordsOn input.now reply text.items) }
{
    let mut text = Vec::new(alloc);
    if let Reply::Refused(code) = reply
        && let Some(row) = row_for(input, code)
    {
        push_row(&mut text, row)?;
    }
    Ok(text)
}

/// The words on the answer to a line on a desk: none if it would be accepted.
fn reason_on(desk: &LiveDesk, alloc: Global, line: &[u8]) -> Result<Vec<u8>, AllocError>
    ensures { IfOk result (λ text. IsReason line.now desk.now text.items) }
{
    let input = parse_line(alloc, line)?;
    let reply = reply_on(desk, alloc, &input)?;
    words_on(alloc, &input, reply)
}

/// Writes the words on the answer to a line on a desk to the front of `out`, as far as there is room, and says how many
/// bytes they have. Answers 0, or the code of a fault.
pub fn explain_to(
    desk: &LiveDesk,
    alloc: Global,
    line: &[u8],
    out: &mut [u8],
    count: &mut usize,
) -> u32
    ensures codes { (result ≡ 0) ⊎ (result ≡ 1) }
    ensures given { result ≡ 0 → (text : List ℕ) × IsReason line.now desk.now text × (out.new ≡ fronted text out.old)
        × (count.new ≡ length text) }
    ensures stays { 0 < result → (out.new ≡ out.old) × (count.new ≡ count.old) }
{
    give(reason_on(desk, alloc, line), out, count)
}
