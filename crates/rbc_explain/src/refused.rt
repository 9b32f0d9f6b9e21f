//! Why an input was refused, in words.

use crate::bad_line::BadLine;
use rbc_account::Detail;
use rbc_rule::{Input, Refusal};
use rbc_words::{Km, Metres, Row, other_row_of, row_of_code};
use rbc_zones::Segment;
use std::alloc::AllocError;
use std::fmt::Write;

/// How many of the active numbers are shown.
const MOST_NUMBERS: usize = 4;

/// What is shown of a refused input: its line, its input, and the number of lines of the track.
#[derive(Clone, Copy)]
pub(crate) struct RefusedInput<'a> {
    pub line: &'a [u8],
    pub input: &'a Input,
    pub track_lines: usize,
}

/// Adds that an input was refused with a code, what the code means, and the figures of this refusal.
pub(crate) fn push_refused(
    text: &mut String,
    refused: RefusedInput<'_>,
    code: u8,
    detail: &Detail,
) -> Result<(), AllocError> {
    if let Some(row) = row_for(refused.input, code) {
        let name = row.name;
        write!(
            text,
            "  Refused, {name}. Nothing is changed, and nothing is sent.\n  "
        )?;
        push_sentence(text, row.sentence)?;
    }
    if code == Refusal::BadLine.code() {
        let fault = BadLine::of(refused.line).sentence();
        return write!(text, "  {fault}\n");
    }
    push_detail(text, detail, refused.track_lines)
}

/// The row of the code with which an input was refused. Code 12 means another thing of a restriction.
pub fn row_for(input: &Input, code: u8) -> Option<Row> {
    match input {
        Input::Restrict { .. } if code == Refusal::BadArea.code() => {
            other_row_of(Refusal::BadArea)
        }
        _ => row_of_code(code),
    }
}

/// Adds a sentence. Its further lines are indented like the first.
fn push_sentence(text: &mut String, sentence: &str) -> Result<(), AllocError> {
    for (index, line) in sentence.lines().enumerate() {
        if index != 0 {
            text.push_str("  ")?;
        }
        text.push_str(line.trim_start())?;
        text.push_str("\n")?;
    }
    Ok(())
}

/// Adds the line on the figures of a refusal, if it has one. `track_lines` is the number of lines of the track.
fn push_detail(text: &mut String, detail: &Detail, track_lines: usize) -> Result<(), AllocError> {
    match detail {
        Detail::NotEnrolled { engine } => write!(text, "  Engine {engine} is not enrolled.\n"),
        Detail::Enrolled { engine, length } => {
            let metres = Metres(*length);
            write!(
                text,
                "  Train {engine} is enrolled with a length of {metres} m.\n"
            )
        }
        Detail::Held { id, by, more } => push_held(text, *id, *by, *more),
        Detail::LastStop(number) => write!(text, "  The last stop number is {number}.\n"),
        Detail::LastRestriction(number) => {
            write!(text, "  The last restriction number is {number}.\n")
        }
        Detail::Stamp(stamp) => write!(text, "  Its stamp is {stamp}.\n"),
        Detail::ActiveStops(numbers) => push_active(text, "stop", numbers),
        Detail::ActiveRestrictions(numbers) => push_active(text, "restriction", numbers),
        _ => push_bad_stretch(text, detail, track_lines),
    }
}

/// Adds the line on a stretch or a speed that is not taken, or on an acknowledgement for which nothing waits.
fn push_bad_stretch(
    text: &mut String,
    detail: &Detail,
    track_lines: usize,
) -> Result<(), AllocError> {
    match detail {
        Detail::TooManyStretches(count) => {
            write!(
                text,
                "  It has {count} stretches, and at most 8 are taken.\n"
            )
        }
        Detail::NoLine(segment) => {
            push_as_given(text, segment)?;
            push_no_line(text, segment.line, track_lines)
        }
        Detail::Crossed(segment) => {
            push_as_given(text, segment)?;
            text.push_str("the first place is above the second.\n")
        }
        Detail::BeyondEnd(segment, length) => {
            let (line, km) = (segment.line, Km(*length));
            push_as_given(text, segment)?;
            write!(text, "line {line} ends at {length} (km {km}).\n")
        }
        Detail::NoLength(at) => write!(text, "  It begins and ends at {at}.\n"),
        Detail::Speed(speed) => write!(text, "  The speed is {speed}.\n"),
        _ => push_no_answer(text, detail),
    }
}

/// Adds why there is nothing to acknowledge.
fn push_no_answer(text: &mut String, detail: &Detail) -> Result<(), AllocError> {
    match detail {
        Detail::AckOfStop {
            engine,
            stamp,
            number,
        } => {
            write!(
                text,
                "  Stamp {stamp} is that of stop {number}, which train {engine} acknowledges by message 147.\n"
            )
        }
        Detail::AckOfNothing { engine, stamp } => {
            write!(
                text,
                "  No message with stamp {stamp} to train {engine} waits for an acknowledgement.\n"
            )
        }
        Detail::FreeIdentifier { engine, id } => {
            write!(text, "  Stop identifier {id} of train {engine} is free.\n")
        }
        Detail::RevokedIdentifier { engine, id } => {
            write!(
                text,
                "  Stop identifier {id} of train {engine} is being revoked: that is acknowledged by message 146.\n"
            )
        }
        Detail::OtherAnswer {
            engine,
            number,
            conditional,
            answer,
        } => {
            let how = if *conditional {
                "conditionally"
            } else {
                "unconditionally"
            };
            write!(
                text,
                "  Train {engine} was told stop {number} {how}, and the answer is {answer}.\n"
            )
        }
        _ => Ok(()),
    }
}

/// Adds which stop identifier is not free, by which stop it is used if it is, and how many more are not free.
fn push_held(text: &mut String, id: u8, by: Option<u32>, more: usize) -> Result<(), AllocError> {
    match by {
        Some(number) => write!(text, "  Stop identifier {id} is used by stop {number}")?,
        None => write!(text, "  Stop identifier {id} is being revoked")?,
    }
    match more {
        0 => text.push_str(".\n"),
        1 => text.push_str(", and 1 more is not free.\n"),
        _ => write!(text, ", and {more} more are not free.\n"),
    }
}

/// Adds the first bad stretch, as it was given.
fn push_as_given(text: &mut String, segment: &Segment) -> Result<(), AllocError> {
    let Segment { line, from, to } = *segment;
    write!(text, "  {line}:{from}-{to}: ")
}

fn push_no_line(text: &mut String, line: u32, lines: usize) -> Result<(), AllocError> {
    let last = lines.saturating_sub(1);
    match lines {
        0 => write!(text, "there is no line {line}; the track has no line.\n"),
        1 => write!(text, "there is no line {line}; the one line is line 0.\n"),
        _ => write!(
            text,
            "there is no line {line}; the lines are 0 to {last}.\n"
        ),
    }
}

/// Adds the first numbers that are active, and how many more there are.
fn push_active(text: &mut String, noun: &str, numbers: &[u32]) -> Result<(), AllocError> {
    match numbers.len() {
        0 => return write!(text, "  No {noun} is active.\n"),
        1 => write!(text, "  The active {noun} is ")?,
        _ => write!(text, "  The active {noun}s are ")?,
    }
    for (index, number) in numbers.iter().take(MOST_NUMBERS).enumerate() {
        let comma = if index == 0 { "" } else { ", " };
        write!(text, "{comma}{number}")?;
    }
    let more = numbers.len().saturating_sub(MOST_NUMBERS);
    if more != 0 {
        write!(text, " and {more} more")?;
    }
    text.push_str(".\n")
}
