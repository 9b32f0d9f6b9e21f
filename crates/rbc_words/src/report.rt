//! The words of a line `report ENGINE STAMP LINE:PLACE WAY DOUBT`.

ghost use Rattle.std.specs.Prelude.{◌≡◌, ◌≤◌, ◌+◌, slice_get, IfOk, IfSome};
ghost use Rattle.std.specs.List.{before_first, after_first};
ghost use Rattle.rbc_text.specs.BatchText.{words_of, is_colon};
ghost use Rattle.rbc_words.specs.ReportWords.{report_of, number_at, place_at, way_at, doubt_at, end_at, word_shown};
ghost use Rattle.rbc_words.specs.ReportWords.{number_of, place_of, way_of, IsReport};

use crate::line_fault::{LineFault, LineWord};
use ertms_codec::{Expected, cut};
use rbc_text::decimal;
use rbc_track::Way;

/// The greatest number of an engine.
const MAX_ENGINE: u32 = 16_777_215;

/// The greatest doubt, in units of 10 cm.
const MAX_DOUBT: u32 = 3_000_000;

/// A place on a line of the track, in units of 10 cm from its beginning.
#[derive(Clone, Copy, Debug, PartialEq, Eq)]
pub struct LinePlace {
    pub line: u32,
    pub at: u32,
}

/// What a line `report` says.
#[derive(Clone, Copy, Debug, PartialEq, Eq)]
pub struct Report {
    pub engine: u32,
    pub stamp: u32,
    /// Where the front of the train is.
    pub front: LinePlace,
    /// The way that the train faces.
    pub facing: Way,
    /// How far the front may be from there, either way, in units of 10 cm.
    pub doubt: u32,
}

/// What a line `report` says.
///
/// # Errors
///
/// `Word`.
pub fn report_in(line: &[u8]) -> Result<Report, LineFault>
    ensures said { result ≡ report_of (slice_get (words_of line.now)) }
    ensures range { IfOk result IsReport }
{
    let engine = number(line, 1, MAX_ENGINE)?;
    let stamp = number(line, 2, u32::MAX)?;
    let front = place(line, 3)?;
    let facing = way(line, 4)?;
    let doubt = doubt(line, 5)?;
    end(line, 6)?;
    Ok(Report {
        engine,
        stamp,
        front,
        facing,
        doubt,
    })
}

/// The word of a line behind so many others.
fn word_at(line: &[u8], behind: u8) -> Option<&[u8]>
    ensures { word_shown result ≡ slice_get (words_of line.now) behind }
{
    let mut left = Some(line);
    'words: for _ in 0..behind {
        left = cut(left?, b' ').1;
    }
    Some(cut(left?, b' ').0)
}

/// The fault of the word behind so many others.
fn wrong(behind: u8, expected: LineWord) -> LineFault
    ensures { result ≡ LineFault.Word (behind + 1) expected }
{
    LineFault::Word {
        index: u64::from(behind) + 1,
        expected,
    }
}

/// The number up to `most` that the word behind so many others is.
fn number(line: &[u8], behind: u8, most: u32) -> Result<u32, LineFault>
    ensures said { result ≡ number_at most behind (slice_get (words_of line.now) behind) }
    ensures range { IfOk result (λ number. number ≤ most) }
{
    let expected = LineWord::Text(Expected::Number(most));
    number_in(word_at(line, behind), most).ok_or(wrong(behind, expected))
}

/// The number up to `most` that a word is, if it is there.
fn number_in(word: Option<&[u8]>, most: u32) -> Option<u32>
    ensures said { result ≡ number_of most (word_shown word.entry) }
    ensures range { IfSome result (λ number. number ≤ most) }
{
    decimal(word?).filter(|number| *number <= most)
}

/// The place that the word behind so many others is.
fn place(line: &[u8], behind: u8) -> Result<LinePlace, LineFault>
    ensures { result ≡ place_at behind (slice_get (words_of line.now) behind) }
{
    place_in(word_at(line, behind)).ok_or(wrong(behind, LineWord::Place))
}

/// The place that a word is, if it is there.
fn place_in(word: Option<&[u8]>) -> Option<LinePlace>
    ensures { result ≡ place_of (word_shown word.entry) }
{
    let (line, at) = cut(word?, b':');
    Some(LinePlace {
        line: decimal(line)?,
        at: decimal(at?)?,
    })
}

/// The way that the word behind so many others is.
fn way(line: &[u8], behind: u8) -> Result<Way, LineFault>
    ensures { result ≡ way_at behind (slice_get (words_of line.now) behind) }
{
    way_in(word_at(line, behind)).ok_or(wrong(behind, LineWord::Way))
}

/// The way that a word is, if it is there.
fn way_in(word: Option<&[u8]>) -> Option<Way>
    ensures { result ≡ way_of (word_shown word.entry) }
{
    let word = word?;
    if word == b"up".as_slice() {
        Some(Way::Up)
    } else if word == b"down".as_slice() {
        Some(Way::Down)
    } else {
        None
    }
}

/// The doubt that the word behind so many others is, or none where there is no word.
fn doubt(line: &[u8], behind: u8) -> Result<u32, LineFault>
    ensures said { result ≡ doubt_at behind (slice_get (words_of line.now) behind) }
    ensures range { IfOk result (λ doubt. doubt ≤ 3000000) }
{
    if word_at(line, behind).is_none() {
        return Ok(0);
    }
    number(line, behind, MAX_DOUBT)
}

/// Checks that there are no more words than so many.
fn end(line: &[u8], count: u8) -> Result<(), LineFault>
    ensures { result ≡ end_at count (slice_get (words_of line.now) count) }
{
    match word_at(line, count) {
        None => Ok(()),
        Some(_) => Err(wrong(count, LineWord::Text(Expected::End))),
    }
}
