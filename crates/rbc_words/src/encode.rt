//! The digits of messages in place of their text.

ghost use Rattle.std.specs.Prelude.{◌≡◌, IfOk, IfErr, MatchResult, slice_get, string_bytes};
ghost use Rattle.std.specs.List.{slice_split};
ghost use Rattle.hex.specs.Hex.{encode_upper};
ghost use Rattle.ertms_codec.specs.FromTrainWritten.{IsInRange};
ghost use Rattle.ertms_codec.specs.Texts.{text_from_train};
ghost use Rattle.rbc_text.specs.BatchText.{words_of};
ghost use Rattle.rbc_words.specs.Encoding.{Encodes, IsWrongLine, IsWrongText, IsWrongReport, IsReportedAs};
ghost use Rattle.rbc_words.specs.Encoding.{IsMessageOf, HasNoMessage, is_number, has_number};
ghost use Rattle.rbc_words.specs.Encoding.{received, plan_given, IsForm};
ghost use Rattle.rbc_words.specs.Filters.{Filters};
ghost use Rattle.rbc_words.specs.LastWord.{IsOutlookBy};
ghost use Rattle.rbc_words.specs.ReportWords.{IsReport};

use crate::filter::{FilterError, filter_lines};
use crate::last_word::is_settled;
use crate::line_fault::{LineFault, LineWord};
use crate::report::{Report, report_in};
use crate::rule::{LineRule, Outlook, RuleError};
use ertms_codec::{FromTrain, cut, parse_from_train, write_from_train};
use rbc_place::{NoReport, report_at};
use rbc_track::Track;
use std::alloc::{AllocError, Global};
use std::io::{Read, Write};

/// `report`, or `recv` and a number, and the spaces behind them have fewer bytes.
const LONGEST_COMMAND: usize = 16;

/// What a line is.
#[derive(Drop)]
enum Form<'a> {
    /// `recv TEXT`: this text, of two words or more, of which the first is the number of a message from a train.
    Text(&'a [u8]),
    /// `report ..`.
    Report,
    /// Any other line.
    Other,
}

/// Puts the digits of a message in place of its text, or of a report. Any other line stays as it is.
#[derive(Drop)]
struct Encoding<'a> {
    track: Option<&'a Track>,
}

impl LineRule for Encoding<'_> {
    type Fault = LineFault;

    ghost becomes = { λ encoding line out. Encodes (plan_given encoding.track) line out };

    ghost is_wrong = { λ encoding line fault. IsWrongLine (plan_given encoding.track) line fault };

    fn turn(&self, alloc: Global, line: &[u8]) -> Result<Option<Vec<u8>>, RuleError<LineFault>> {
        match form_of(line) {
            Form::Text(text) => Ok(Some(received(alloc, &message_of_text(text)?)?)),
            Form::Report => Ok(Some(received(alloc, &message_of_report(self.track, line)?)?)),
            Form::Other => Ok(None),
        }
    }

    fn outlook(&self, begun: &[u8]) -> Outlook<LineFault> {
        match form_of(begun) {
            Form::Text(text) => outlook_by(begun, message_of_text(text).err()),
            Form::Report => outlook_by(begun, report_in(begun).err()),
            Form::Other if begun.len() > LONGEST_COMMAND => Outlook::Itself,
            Form::Other => Outlook::Open,
        }
    }
}

/// Reads lines to the end of the reader, and writes `recv HEX` in place of a message from a train in words, and of a
/// report. Any other line is written as it is. Each is written with a line feed, also a last one that lacks it. What
/// has been read is written and flushed before the reader is asked for more. A long line is passed on as it comes, or
/// it is wrong, and then the filter ends before the line does.
///
/// # Errors
///
/// See [`FilterError`] and [`LineFault`].
pub fn encode_lines<R: Read, W: Write>(
    alloc: Global,
    track: Option<&Track>,
    reader: &mut R,
    writer: &mut W,
) -> Result<(), FilterError<LineFault>>
    ensures { Filters (Encodes (plan_given track.entry)) (IsWrongLine (plan_given track.entry))
        (R.remaining reader.old) (R.remaining reader.new) (W.contents writer.old) (W.contents writer.new) result }
{
    filter_lines(alloc, &Encoding { track }, reader, writer)
}

/// What is known of a line that has begun, by what is wrong with what has come.
fn outlook_by(begun: &[u8], fault: Option<LineFault>) -> Outlook<LineFault>
    ensures { IsOutlookBy (words_of begun.now) fault result }
{
    match fault {
        Some(LineFault::Word { index, expected }) if is_settled(begun, index) => {
            Outlook::Wrong(LineFault::Word { index, expected })
        }
        _ => Outlook::Open,
    }
}

/// What a line is.
fn form_of(line: &[u8]) -> Form<'_>
    ensures { IsForm line.now result }
{
    let (command, behind) = cut(line, b' ');
    if command == b"report".as_slice() {
        return Form::Report;
    }
    match behind {
        Some(text) if command == b"recv".as_slice() && is_text(text) => Form::Text(text),
        _ => Form::Other,
    }
}

/// Whether a text has two words or more, of which the first is the number of a message from a train.
fn is_text(text: &[u8]) -> bool
    ensures { result ≡ has_number (words_of text.now) }
{
    let (number, behind) = cut(text, b' ');
    behind.is_some() && is_number(number)
}

/// Whether a word is the number of a message from a train.
fn is_number(word: &[u8]) -> bool
    ensures { result ≡ is_number word.now }
{
    word == b"136".as_slice() || (word == b"146".as_slice() || word == b"147".as_slice())
}

/// The message from a train whose text this is.
///
/// # Errors
///
/// `Word`, where the words of the line are counted.
fn message_of_text(text: &[u8]) -> Result<FromTrain, LineFault>
    ensures found { IfOk result (λ m. IsInRange m × (text.now ≡ text_from_train m)) }
    ensures wrong { IfErr result (IsWrongText (words_of text.now)) }
{
    match parse_from_train(text) {
        Ok(message) => Ok(message),
        Err(wrong) => Err(LineFault::Word {
            index: wrong.index + 1,
            expected: LineWord::Text(wrong.expected),
        }),
    }
}

/// The message of a line `report`.
///
/// # Errors
///
/// `Word`, and then the others.
fn message_of_report(track: Option<&Track>, line: &[u8]) -> Result<FromTrain, LineFault>
    ensures range { IfOk result (λ m. IsInRange m) }
    ensures found { IfOk result (λ m. IsReportedAs (plan_given track.entry) (words_of line.now) m) }
    ensures wrong { IfErr result (IsWrongReport (plan_given track.entry) (words_of line.now)) }
{
    let report = report_in(line)?;
    match track {
        Some(track) => message_on(track, &report),
        None => Err(LineFault::NeedsTrack),
    }
}

/// The message of a report on a track.
///
/// # Errors
///
/// `NoLine`, `Beyond` or `NoGroup`.
fn message_on(track: &Track, report: &Report) -> Result<FromTrain, LineFault>
    requires { IsReport report.now }
    ensures range { IfOk result (λ m. IsInRange m) }
    ensures found { IfOk result (IsMessageOf track.now report.now) }
    ensures none { IfErr result (HasNoMessage (Some track.now) report.now) }
{
    let Report {
        engine,
        stamp,
        front,
        facing,
        doubt,
    } = *report;
    match report_at(track, front.line, front.at, facing, doubt) {
        Ok(position) => Ok(FromTrain::Report {
            stamp,
            engine,
            position,
        }),
        Err(NoReport::NoLine) => Err(LineFault::NoLine { line: front.line }),
        Err(NoReport::Beyond { end }) => Err(LineFault::Beyond {
            line: front.line,
            end,
        }),
        Err(NoReport::NoGroup) => Err(LineFault::NoGroup),
    }
}

/// `recv HEX` of a message. Fails only for lack of memory.
fn received(alloc: Global, message: &FromTrain) -> Result<Vec<u8>, AllocError>
    requires { IsInRange message.now }
    ensures { IfOk result (λ line. line.items ≡ received message.now) }
{
    let mut buffer = [0u8; 1_024];
    let count = write_from_train(message, &mut buffer);
    let digits = hex::encode_upper(alloc, &buffer[..count])?;
    let mut line = Vec::new(alloc);
    line.extend_from_slice(b"recv ")?;
    line.extend_from_slice(digits.as_bytes())?;
    Ok(line)
}
