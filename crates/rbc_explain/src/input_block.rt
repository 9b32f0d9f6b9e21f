//! One input in a log: its line, what came of it, and each message with its reason.

ghost use Rattle.std.specs.Prelude.{◌≡◌, ◌<◌, length, slice_get, Some, OnOk};
ghost use Rattle.rbc_rule.specs.Gathered.{AreSendable};
ghost use Rattle.rbc_text.specs.OutputText.{answer_of};
ghost use Rattle.rbc_explain.specs.Telling.{IsBlockOn};

use crate::deed_in_words::push_deed;
use crate::echo::push_echo;
use crate::log::{push_line, push_words};
use crate::message::push_message;
use crate::refused::{RefusedInput, push_refused};
use crate::waiting_in_words::push_waiting_at;
use rbc_account::{Block, Counts, Deed, Told};
use rbc_rule::{Input, Reply};
use rbc_text::{first_line, render_answer};
use rbc_track::Track;
use rbc_words::Count;
use std::alloc::{AllocError, Global};
use std::fmt::Write;

/// The room for what is said of most inputs, in bytes. A text that needs more grows.
const ROOM: usize = 256;

/// The track of a run.
#[derive(Clone, Copy)]
pub(crate) struct TrackOfRun<'a> {
    pub track: &'a Track,
    /// How many lines it has.
    pub lines: usize,
}

/// Adds what came of the input of a line. The lines of its answer stand there in their order, each with `= ` before it,
/// and before the line of a message what the message says.
pub(crate) fn push_block(
    alloc: Global,
    log: &mut Vec<u8>,
    of: TrackOfRun<'_>,
    line: &[u8],
    block: &Block,
) -> Result<(), AllocError>
    requires sendable { AreSendable block.now.messages }
    requires paired { length block.now.told.items ≡ length block.now.messages }
    ensures { OnOk result (IsBlockOn of.entry.track.now block.now.number block.now.reply block.now.messages
        block.now.told.items log.old.items log.new.items) }
{
    let answer = render_answer(alloc, block.number, block.reply, &block.messages)?;
    push_words(log, heading(alloc, line, block)?.as_bytes())?;
    push_answer(alloc, log, of, line, block, &answer)?;
    push_words(log, afterwards(alloc, block)?.as_bytes())
}

/// Adds each line of the answer to an input: after the first one what came of the input, and before each other one what
/// is said of its message.
fn push_answer(
    alloc: Global,
    log: &mut Vec<u8>,
    of: TrackOfRun<'_>,
    line: &[u8],
    block: &Block,
    answer: &[u8],
) -> Result<(), AllocError>
    requires answer { answer.now ≡ answer_of block.now.number block.now.reply block.now.messages }
    requires paired { length block.now.told.items ≡ length block.now.messages }
    ensures { OnOk result (IsBlockOn of.entry.track.now block.now.number block.now.reply block.now.messages
        block.now.told.items log.old.items log.new.items) }
{
    let (reply, behind) = first_line(answer);
    push_line(log, reply)?;
    push_words(log, outcome(alloc, of, line, block)?.as_bytes())?;
    let mut rest = behind;
    for index in 0..block.messages.len() {
        let told = told_of(&block.told, index);
        push_message(alloc, log, of.track, block.messages.at(index), told)?;
        let (first, behind) = first_line(rest);
        push_line(log, first)?;
        rest = behind;
    }
    Ok(())
}

/// What is told of the message at an index.
fn told_of(told: &[Told], index: usize) -> &Told
    requires { index < length told.now }
    ensures { slice_get told.now index ≡ Some result.now }
{
    &told[index]
}

/// The line of an input with its number, after an empty line.
fn heading(alloc: Global, line: &[u8], block: &Block) -> Result<String, AllocError> {
    let number = block.number;
    let mut text = String::with_capacity(alloc, ROOM)?;
    write!(text, "\nINPUT {number}: ")?;
    push_echo(alloc, &mut text, line)?;
    text.push_str("\n")?;
    Ok(text)
}

/// Whether the input was accepted, and what it did, or why it was refused.
fn outcome(
    alloc: Global,
    of: TrackOfRun<'_>,
    line: &[u8],
    block: &Block,
) -> Result<String, AllocError> {
    let mut text = String::with_capacity(alloc, ROOM)?;
    match (block.reply, &block.deed) {
        (Reply::Done(sent), deed) => {
            push_accepted(&mut text, sent)?;
            push_deed(&mut text, deed)?;
        }
        (Reply::Refused(code), Deed::Refused(detail)) => {
            let refused = RefusedInput {
                line,
                input: &block.input,
                track_lines: of.lines,
            };
            push_refused(&mut text, refused, code, detail)?;
        }
        (Reply::Refused(_), _) => {}
    }
    Ok(text)
}

fn push_accepted(text: &mut String, sent: u32) -> Result<(), AllocError> {
    match sent {
        0 => text.push_str("  Accepted; nothing is sent.\n"),
        1 => text.push_str("  Accepted; 1 message is sent.\n"),
        _ => write!(text, "  Accepted; {sent} messages are sent.\n"),
    }
}

/// What a stop or a restriction that began means for the trains, and what began to wait.
fn afterwards(alloc: Global, block: &Block) -> Result<String, AllocError> {
    let mut text = String::new(alloc);
    if let Some(counts) = block.counts {
        push_counts(&mut text, &counts, is_restriction(&block.input))?;
    }
    for (engine, waiting) in &block.waiting {
        push_waiting_at(&mut text, *engine, waiting)?;
    }
    Ok(text)
}

fn is_restriction(input: &Input) -> bool {
    matches!(input, Input::Restrict { .. })
}

/// Adds how many trains were told. Only a restriction takes no notice of trains without a place.
fn push_counts(text: &mut String, counts: &Counts, is_restriction: bool) -> Result<(), AllocError> {
    let trains = Count {
        number: counts.trains,
        noun: "train",
    };
    let Counts {
        told,
        untold,
        unplaced,
        unconcerned,
        ..
    } = *counts;
    write!(
        text,
        "  Of {trains}: {told} told, {untold} not told though concerned, "
    )?;
    if is_restriction {
        write!(text, "{unplaced} without a place, ")?;
    }
    write!(text, "{unconcerned} not concerned.\n")
}
