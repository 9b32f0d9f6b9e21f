//! Why an input was refused, as an object.

ghost use Rattle.std.specs.Prelude.{◌≡◌, map, IfOk, string_bytes};
ghost use Rattle.rbc_json.specs.Json.{array, json_text, number};
ghost use Rattle.rbc_json.specs.Lists.{IsAnyText, IsTextOf};
ghost use Rattle.rbc_json.specs.Objects.{IsRefusal};

use crate::effect::AnswerWord;
use crate::list::{ListText, element};
use crate::shapes::{NumberOrNull, SegmentObject};
use crate::text::{null_text, quoted};
use ertms_codec::FromTrain;
use rbc_account::{Block, Deed, Detail};
use rbc_explain::{BadLine, row_for};
use rbc_rule::{Input, Refusal, Reply};
use std::alloc::{AllocError, Global};

/// Why the input of a line was refused. `null` if it was accepted. The track has this many lines.
pub(crate) fn refused_text(
    alloc: Global,
    track_lines: usize,
    line: &[u8],
    block: &Block,
) -> Result<String, AllocError>
    ensures { IfOk result (λ text. IsTextOf (IsRefusal block.now.reply) (string_bytes text)) }
{
    match block.reply {
        Reply::Done(_) => null_text(alloc),
        Reply::Refused(code) => {
            let name = code_name(alloc, &block.input, code)?;
            let why = reason_text(alloc, track_lines, line, block, code)?;
            format!(in alloc; "{{\"code\":{code},\"name\":{name},\"why\":{why}}}")
        }
    }
}

/// The name of the code with which an input was refused.
fn code_name(alloc: Global, input: &Input, code: u8) -> Result<String, AllocError>
    ensures { IfOk result (λ text. IsAnyText (string_bytes text)) }
{
    match row_for(input, code) {
        Some(row) => quoted(alloc, row.name),
        None => null_text(alloc),
    }
}

/// What is wrong with an input that was refused with a code.
fn reason_text(
    alloc: Global,
    track_lines: usize,
    line: &[u8],
    block: &Block,
    code: u8,
) -> Result<String, AllocError>
    ensures { IfOk result (λ text. IsAnyText (string_bytes text)) }
{
    if code == Refusal::BadLine.code() {
        return bad_line_text(alloc, BadLine::of(line));
    }
    match &block.deed {
        Deed::Refused(detail) => why_text(alloc, track_lines, &block.input, detail),
        _ => null_text(alloc),
    }
}

/// What is wrong with a line that is no input.
fn bad_line_text(alloc: Global, bad: BadLine) -> Result<String, AllocError>
    ensures { IfOk result (λ text. IsAnyText (string_bytes text)) }
{
    match bad {
        BadLine::CarriageReturn => format!(in alloc; "{{\"reason\":\"carriage_return\"}}"),
        BadLine::Empty => format!(in alloc; "{{\"reason\":\"empty\"}}"),
        BadLine::Spaces => format!(in alloc; "{{\"reason\":\"spaces\"}}"),
        BadLine::FirstWord => format!(in alloc; "{{\"reason\":\"first_word\"}}"),
        BadLine::Form { word, .. } => {
            let word = quoted(alloc, word)?;
            format!(in alloc; "{{\"reason\":\"form\",\"word\":{word}}}")
        }
    }
}

/// The figures of a refusal. `null` if there are none.
fn why_text(
    alloc: Global,
    track_lines: usize,
    input: &Input,
    detail: &Detail,
) -> Result<String, AllocError>
    ensures { IfOk result (λ text. IsAnyText (string_bytes text)) }
{
    match detail {
        Detail::Nothing => null_text(alloc),
        Detail::NotEnrolled { engine } => {
            format!(in alloc; "{{\"reason\":\"not_enrolled\",\"engine\":{engine}}}")
        }
        Detail::Enrolled { engine, length } => format!(in alloc;
            "{{\"reason\":\"enrolled\",\"engine\":{engine},\"length\":{length}}}"
        ),
        Detail::Held { id, by, more } => {
            let (engine, stop) = (engine_of(input), NumberOrNull::of(*by));
            format!(in alloc;
                "{{\"reason\":\"held\",\"engine\":{engine},\"identifier\":{id},\"stop\":{stop},\
                 \"counts\":{{\"more\":{more}}}}}"
            )
        }
        Detail::LastStop(stop) => {
            format!(in alloc; "{{\"reason\":\"last_stop\",\"stop\":{stop}}}")
        }
        Detail::LastRestriction(restriction) => format!(in alloc;
            "{{\"reason\":\"last_restriction\",\"restriction\":{restriction}}}"
        ),
        Detail::ActiveStops(numbers) => {
            let active = numbers_text(alloc, numbers)?;
            format!(in alloc; "{{\"reason\":\"active_stops\",\"active\":{active}}}")
        }
        Detail::ActiveRestrictions(numbers) => {
            let active = numbers_text(alloc, numbers)?;
            format!(in alloc; "{{\"reason\":\"active_restrictions\",\"active\":{active}}}")
        }
        _ => area_text(alloc, track_lines, input, detail),
    }
}

/// What is wrong with the stretches or the speed of an input.
fn area_text(
    alloc: Global,
    track_lines: usize,
    input: &Input,
    detail: &Detail,
) -> Result<String, AllocError>
    ensures { IfOk result (λ text. IsAnyText (string_bytes text)) }
{
    match detail {
        Detail::TooManyStretches(count) => format!(in alloc;
            "{{\"reason\":\"too_many_segments\",\"counts\":{{\"segments\":{count}}}}}"
        ),
        Detail::NoLine(segment) => {
            let segment = SegmentObject(*segment);
            format!(in alloc;
                "{{\"reason\":\"no_line\",\"segment\":{segment},\"counts\":{{\"lines\":{track_lines}}}}}"
            )
        }
        Detail::Crossed(segment) => {
            let segment = SegmentObject(*segment);
            format!(in alloc; "{{\"reason\":\"crossed\",\"segment\":{segment}}}")
        }
        Detail::BeyondEnd(segment, length) => {
            let segment = SegmentObject(*segment);
            format!(in alloc;
                "{{\"reason\":\"beyond_line\",\"segment\":{segment},\"length\":{length}}}"
            )
        }
        Detail::NoLength(at) => format!(in alloc; "{{\"reason\":\"no_length\",\"at\":{at}}}"),
        Detail::Speed(speed) => {
            format!(in alloc; "{{\"reason\":\"bad_speed\",\"speed\":{speed}}}")
        }
        _ => answer_text(alloc, input, detail),
    }
}

/// What is wrong with a message of a train: its stamp, or what it answers.
fn answer_text(alloc: Global, input: &Input, detail: &Detail) -> Result<String, AllocError>
    ensures { IfOk result (λ text. IsAnyText (string_bytes text)) }
{
    match detail {
        Detail::Stamp(stamp) => {
            let engine = engine_of(input);
            format!(in alloc; "{{\"reason\":\"stamp\",\"engine\":{engine},\"stamp\":{stamp}}}")
        }
        Detail::AckOfStop {
            engine,
            stamp,
            number,
        } => format!(in alloc;
            "{{\"reason\":\"stamp_of_stop\",\"engine\":{engine},\"stamp\":{stamp},\"stop\":{number}}}"
        ),
        Detail::AckOfNothing { engine, stamp } => format!(in alloc;
            "{{\"reason\":\"no_such_stamp\",\"engine\":{engine},\"stamp\":{stamp}}}"
        ),
        Detail::FreeIdentifier { engine, id } => format!(in alloc;
            "{{\"reason\":\"identifier_free\",\"engine\":{engine},\"identifier\":{id}}}"
        ),
        Detail::RevokedIdentifier { engine, id } => format!(in alloc;
            "{{\"reason\":\"identifier_being_revoked\",\"engine\":{engine},\"identifier\":{id}}}"
        ),
        Detail::OtherAnswer {
            engine,
            number,
            conditional,
            answer,
        } => {
            let (id, message) = (identifier_of(input), message_of(*conditional));
            let answer = AnswerWord(*answer);
            format!(in alloc;
                "{{\"reason\":\"other_answer\",\"engine\":{engine},\"identifier\":{id},\"stop\":{number},\
                 \"message\":{message},\"answer\":{answer}}}"
            )
        }
        _ => null_text(alloc),
    }
}

/// The message by which a stop was told: 15 if it was told conditionally, or 16.
fn message_of(conditional: bool) -> u8 {
    if conditional { 15 } else { 16 }
}

/// The list of numbers.
fn numbers_text(alloc: Global, numbers: &[u32]) -> Result<String, AllocError>
    ensures { IfOk result (λ text. string_bytes text ≡ json_text (array (map number numbers.now))) }
{
    let mut list = ListText::new(alloc)?;
    for index in 0..numbers.len() {
        list.add(&element(numbers, index))?;
    }
    list.ended()
}

/// The engine that an input names, or 0 if it names none.
fn engine_of(input: &Input) -> u32 {
    match input {
        Input::Enrol { engine, .. } | Input::Withdraw { engine } => *engine,
        Input::Received(
            FromTrain::Report { engine, .. }
            | FromTrain::Ack { engine, .. }
            | FromTrain::StopAck { engine, .. },
        ) => *engine,
        _ => 0,
    }
}

/// The stop identifier that an input answers, or 0 if it answers none.
fn identifier_of(input: &Input) -> u8 {
    match input {
        Input::Received(FromTrain::StopAck { id, .. }) => *id,
        _ => 0,
    }
}
