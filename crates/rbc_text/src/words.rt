//! Cutting a text at separators, and what the words after a command spell.

ghost use Rattle.std.specs.Prelude.{◌≡◌, ◌∷◌, ◌++◌, [], ◌<◌, ◌+◌, length, IfSome, IfNone, ◌==◌, IfOk};
ghost use Rattle.std.specs.List.{position, slice_split, before_first, after_first};
ghost use Rattle.rbc_text.specs.BatchText.{lines_of, decimal_of, segment_from, segment_of, segments_of, number_of};
ghost use Rattle.rbc_text.specs.BatchText.{dirs_of, front_of, words_of};
ghost use Rattle.ertms_codec.specs.Pieces.{pieces_behind, text_behind};

use ertms_codec::cut;
use memchr::memrchr;
use rbc_rule::Segments;
use rbc_zones::{Dirs, Segment};
use std::alloc::{AllocError, Global};

/// The first line of a text that is not empty, and the text after its line feed.
pub fn first_line(text: &[u8]) -> (&[u8], &[u8])
    requires { 0 < length text.now }
    ensures line { lines_of text.now ≡ result.0.now ∷ lines_of result.1.now }
    ensures shorter { length result.1.now < length text.now }
{
    let (line, behind) = cut(text, b'\n');
    match behind {
        Some(behind) => (line, behind),
        None => (line, &[]),
    }
}

/// What stands before the last space of a line, and the word after it. `None` if there is no space.
pub fn last_word(line: &[u8]) -> Option<(&[u8], &[u8])>
    ensures words { IfSome result (λ parts. words_of line.now ≡ words_of parts.0.now ++ parts.1.now ∷ []) }
    ensures whole { IfSome result (λ parts. words_of parts.1.now ≡ parts.1.now ∷ []) }
    ensures lengths { IfSome result (λ parts. length parts.0.now + length parts.1.now + 1 ≡ length line.now) }
    ensures none { IfNone result (words_of line.now ≡ line.now ∷ []) }
{
    match memrchr(b' ', line) {
        Some(at) => Some((&line[..at], &line[at + 1..])),
        None => None,
    }
}

/// The text before the first separator, and the text after it. Without a separator: the whole text, and an empty one.
pub fn halves(text: &[u8], separator: u8) -> (&[u8], &[u8])
    ensures before { result.0.now ≡ before_first (λ b. b == separator) text.now }
    ensures behind { result.1.now ≡ after_first (λ b. b == separator) text.now }
{
    let (before, behind) = cut(text, separator);
    match behind {
        Some(behind) => (before, behind),
        None => (before, &[]),
    }
}

/// The number that a word spells, if it is 1 to 10 decimal digits and at most 4,294,967,295.
pub fn decimal(word: &[u8]) -> Option<u32>
    ensures { result ≡ decimal_of word.now }
{
    if word.is_empty() || word.len() > 10 {
        return None;
    }
    let mut value = 0u64;
    for digit in word {
        if !digit.is_ascii_digit() {
            return None;
        }
        value = 10 * value + u64::from(*digit - b'0');
    }
    u32::try_from(value).ok()
}

/// The segment of a line, a first place and a last place, if all three are numbers.
fn segment_from(line: Option<u32>, from: Option<u32>, to: Option<u32>) -> Option<Segment>
    ensures { result ≡ segment_from line from to }
{
    match (line, from, to) {
        (Some(line), Some(from), Some(to)) => Some(Segment { line, from, to }),
        _ => None,
    }
}

/// The segment that a word spells as `LINE:FROM-TO`.
pub fn segment(word: &[u8]) -> Option<Segment>
    ensures { result ≡ segment_of word.now }
{
    let (line, places) = halves(word, b':');
    let (from, to) = halves(places, b'-');
    segment_from(decimal(line), decimal(from), decimal(to))
}

/// The segments that the words of a text spell, if every word is a segment.
pub fn segments(alloc: Global, text: &[u8]) -> Result<Option<Segments>, AllocError>
    ensures { IfOk result (λ found. found ≡ segments_of (words_of text.now)) }
{
    let mut segments = Segments::new(alloc);
    let mut rest = Some(text);
    while let Some(text) = rest {
        let (word, behind) = cut(text, b' ');
        match segment(word) {
            Some(segment) => segments.push(segment)?,
            None => return Ok(None),
        }
        rest = behind;
    }
    Ok(Some(segments))
}

/// The number that a single word spells.
pub fn number(arguments: &[u8]) -> Option<u32>
    ensures { result ≡ number_of (words_of arguments.now) }
{
    let (word, behind) = cut(arguments, b' ');
    match behind {
        None => decimal(word),
        Some(_) => None,
    }
}

/// The directions that a word names.
pub fn dirs(word: &[u8]) -> Option<Dirs>
    ensures { result ≡ dirs_of word.now }
{
    if word == b"up".as_slice() {
        Some(Dirs::Up)
    } else if word == b"down".as_slice() {
        Some(Dirs::Down)
    } else if word == b"both".as_slice() {
        Some(Dirs::Both)
    } else {
        None
    }
}

/// The Q_FRONT that a word names, `0` or `1`.
pub fn front(word: &[u8]) -> Option<bool>
    ensures { result ≡ front_of word.now }
{
    if word == b"0".as_slice() {
        Some(false)
    } else if word == b"1".as_slice() {
        Some(true)
    } else {
        None
    }
}
