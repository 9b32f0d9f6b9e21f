//! The object of an input: its line, what came of it, its messages, and what began to wait.

ghost use Rattle.std.specs.Prelude.{◌≡◌, ◌<◌, List, length, map, slice_get, take, Some, IfOk, string_bytes};
ghost use Rattle.rbc_rule.specs.Gathered.{AreSendable};
ghost use Rattle.rbc_json.specs.Json.{Json, array, json_text, opened, closed};
ghost use Rattle.rbc_json.specs.Lists.{IsListText, IsTextOf};
ghost use Rattle.rbc_json.specs.Messages.{AreOfMessages};
ghost use Rattle.rbc_json.specs.Objects.{IsObjectOf, not_told_at, line_fields, answer_fields};

use crate::effect::effect_text;
use crate::list::{ListText, element};
use crate::message::message_text;
use crate::not_told::NotToldObject;
use crate::refused::refused_text;
use crate::shapes::VERSION;
use crate::text::quoted_bytes;
use rbc_account::{Block, Told, Waiting};
use rbc_track::Track;
use std::alloc::{AllocError, Global};

/// How many bytes of a line an object has.
const MOST_BYTES: usize = 4096;

/// The object of the input of a line. The track has this many lines.
pub(crate) fn input_text(
    alloc: Global,
    track: &Track,
    track_lines: usize,
    line: &[u8],
    block: &Block,
) -> Result<String, AllocError>
    requires sendable { AreSendable block.now.messages }
    requires paired { length block.now.told.items ≡ length block.now.messages }
    ensures { IfOk result (λ text. IsTextOf (IsObjectOf track.now line.now block.now) (string_bytes text)) }
{
    let refused = refused_text(alloc, track_lines, line, block)?;
    let effect = effect_text(alloc, &block.deed, block.counts)?;
    let messages = messages_text(alloc, track, block)?;
    let not_told = not_told_text(alloc, &block.waiting)?;
    let front = line_text(alloc, block.number, line)?;
    let came = came_text(
        alloc,
        refused.as_str(),
        effect.as_str(),
        messages.as_str(),
        not_told.as_str(),
    )?;
    format!(in alloc; "{front}{came}")
}

/// How the object of an input begins: its line.
fn line_text(alloc: Global, input: u64, line: &[u8]) -> Result<String, AllocError>
    ensures { IfOk result (λ text. string_bytes text ≡ opened (line_fields input line.now)) }
{
    let text = quoted_bytes(alloc, first_bytes(line))?;
    let bytes = line.len();
    format!(in alloc;
        "{{\"version\":{VERSION},\"type\":\"input\",\"input\":{input},\"text\":{text},\"bytes\":{bytes}"
    )
}

/// How it ends: what came of the input, from the texts of its parts.
fn came_text(
    alloc: Global,
    refused: &str,
    effect: &str,
    messages: &str,
    not_told: &str,
) -> Result<String, AllocError>
    ensures { (why did : Json) (sent waiting : List Json) → refused.now ≡ json_text why → effect.now ≡ json_text did
        → messages.now ≡ json_text (array sent) → not_told.now ≡ json_text (array waiting)
        → IfOk result (λ text. string_bytes text ≡ closed (answer_fields why did sent waiting)) }
{
    format!(in alloc;
        ",\"refused\":{refused},\"effect\":{effect},\"messages\":{messages},\"not_told\":{not_told}}}"
    )
}

/// The bytes of a line that an object has.
#[tactic(auto, using(crate::proofs::Quoting::take_at_most))]
fn first_bytes(line: &[u8]) -> &[u8]
    ensures { result.now ≡ take 4096 line.now }
{
    &line[..MOST_BYTES.min(line.len())]
}

/// The list of the messages of an input.
fn messages_text(alloc: Global, track: &Track, block: &Block) -> Result<String, AllocError>
    requires sendable { AreSendable block.now.messages }
    requires paired { length block.now.told.items ≡ length block.now.messages }
    ensures { IfOk result (λ text. IsListText (AreOfMessages track.now block.now.number block.now.messages
        block.now.told.items) (string_bytes text)) }
{
    let mut list = ListText::new(alloc)?;
    for index in 0..block.messages.len() {
        let (sent, told) = (block.messages.at(index), told_of(&block.told, index));
        let message = message_text(alloc, track, block.number, sent, told)?;
        list.add(&message)?;
    }
    list.ended()
}

/// What is told of the message at an index.
fn told_of(told: &[Told], index: usize) -> &Told
    requires { index < length told.now }
    ensures { slice_get told.now index ≡ Some result.now }
{
    &told[index]
}

/// The list of what began to wait, each with the engine of its train.
fn not_told_text(alloc: Global, all: &[(u32, Waiting)]) -> Result<String, AllocError>
    ensures { IfOk result (λ text. string_bytes text ≡ json_text (array (map not_told_at all.now))) }
{
    let mut list = ListText::new(alloc)?;
    for index in 0..all.len() {
        let (engine, waiting) = element(all, index);
        list.add(&NotToldObject { engine, waiting })?;
    }
    list.ended()
}
