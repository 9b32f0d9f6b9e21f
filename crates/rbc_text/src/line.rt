//! One line, read as an input.

ghost use Rattle.std.specs.Prelude.{◌≡◌, IfOk};
ghost use Rattle.rbc_rule.specs.declared.input.Input.TheVariants.{Bad};
ghost use Rattle.rbc_text.specs.BatchText.{enrolment_from, enrolment_of, stop_from, stop_of, withdrawal_of};
ghost use Rattle.rbc_text.specs.BatchText.{restriction_of, command_of, words_of};
ghost use Rattle.rbc_text.specs.BatchText.{line_of, IsInput};
ghost use Rattle.rbc_rule.specs.Inputs.{Fits};

use crate::messages::message;
use crate::words::{decimal, dirs, front, number, segment, segments};
use ertms_codec::cut;
use rbc_rule::{Input, MAX_ENGINE, MAX_LENGTH, Refusal, Segments};
use std::alloc::{AllocError, Global};

/// The input of a line that spells none.
pub fn bad_line() -> Input
    ensures { result ≡ Bad 1 }
{
    Input::Bad(Refusal::BadLine.code())
}

/// The input of a message whose digits are no hexadecimal text.
pub fn bad_hex() -> Input
    ensures { result ≡ Bad 2 }
{
    Input::Bad(Refusal::BadHex.code())
}

/// The enrolment of an engine with a train of this length in units of 10 cm, if both are in their ranges.
fn enrolment_from(engine: Option<u32>, length: Option<u32>) -> Option<Input>
    ensures { result ≡ enrolment_from engine length }
{
    let (engine, length) = (engine?, length?);
    if engine <= MAX_ENGINE && 1 <= length && length <= MAX_LENGTH {
        Some(Input::Enrol { engine, length })
    } else {
        None
    }
}

/// The input of the words after `enrol`.
fn enrolment(arguments: &[u8]) -> Option<Input>
    ensures { result ≡ enrolment_of (words_of arguments.now) }
{
    let (engine, behind) = cut(arguments, b' ');
    let (length, more) = cut(behind?, b' ');
    match more {
        None => enrolment_from(decimal(engine), decimal(length)),
        Some(_) => None,
    }
}

/// The emergency stop of these segments under this number, if both are there.
fn stop_from(number: Option<u32>, segments: Option<Segments>) -> Option<Input>
    ensures { result ≡ stop_from number segments }
{
    match (number, segments) {
        (Some(number), Some(segments)) => Some(Input::Stop { number, segments }),
        _ => None,
    }
}

/// The input of the words after `stop`.
fn stop(alloc: Global, arguments: &[u8]) -> Result<Option<Input>, AllocError>
    ensures { IfOk result (λ found. found ≡ stop_of (words_of arguments.now)) }
{
    let (number, behind) = cut(arguments, b' ');
    match behind {
        Some(words) => Ok(stop_from(decimal(number), segments(alloc, words)?)),
        None => Ok(None),
    }
}

/// The input of the words after `withdraw`.
#[tactic(auto, using(crate::proofs::LineWords::withdrawal_is))]
fn withdrawal(arguments: &[u8]) -> Option<Input>
    ensures { result ≡ withdrawal_of (words_of arguments.now) }
{
    match number(arguments) {
        Some(engine) if engine <= MAX_ENGINE => Some(Input::Withdraw { engine }),
        _ => None,
    }
}

/// The input of the words after `restrict`. The speed is in km/h.
fn restriction(arguments: &[u8]) -> Option<Input>
    ensures { result ≡ restriction_of (words_of arguments.now) }
{
    let (number, behind) = cut(arguments, b' ');
    let (place, behind) = cut(behind?, b' ');
    let (way, behind) = cut(behind?, b' ');
    let (speed, behind) = cut(behind?, b' ');
    let (end, more) = cut(behind?, b' ');
    match more {
        None => Some(Input::Restrict {
            number: decimal(number)?,
            segment: segment(place)?,
            dirs: dirs(way)?,
            speed: decimal(speed)?,
            front: front(end)?,
        }),
        Some(_) => None,
    }
}

/// The input of a signaller's command and the words after it.
pub fn command(alloc: Global, word: &[u8], arguments: &[u8]) -> Result<Option<Input>, AllocError>
    ensures { IfOk result (λ found. found ≡ command_of word.now (words_of arguments.now)) }
{
    if word == b"enrol".as_slice() {
        Ok(enrolment(arguments))
    } else if word == b"withdraw".as_slice() {
        Ok(withdrawal(arguments))
    } else if word == b"stop".as_slice() {
        stop(alloc, arguments)
    } else if word == b"release".as_slice() {
        Ok(number(arguments).map(|number| Input::Release { number }))
    } else if word == b"restrict".as_slice() {
        Ok(restriction(arguments))
    } else if word == b"lift".as_slice() {
        Ok(number(arguments).map(|number| Input::Lift { number }))
    } else {
        Ok(None)
    }
}

/// The input of one line, without its line feed (own rule): what it spells, or a refusal with its code. A batch can
/// have this input.
pub fn parse_line(alloc: Global, line: &[u8]) -> Result<Input, AllocError>
    ensures spelled { IfOk result (λ input. IsInput (line_of line.now) input) }
    ensures fits { IfOk result (λ input. Fits input) }
{
    let (word, behind) = cut(line, b' ');
    match behind {
        None => Ok(bad_line()),
        Some(arguments) if word == b"recv".as_slice() => message(alloc, arguments),
        Some(arguments) => {
            let found = command(alloc, word, arguments)?;
            Ok(found.unwrap_or(bad_line()))
        }
    }
}
