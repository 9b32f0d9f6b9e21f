//! Short words beside a train, and how wide words are (own rule).

use std::alloc::{AllocError, Global};
use std::fmt;
use std::fmt::Write;

/// A remark on a stop or a restriction that a train is told.
#[derive(Clone, Copy)]
pub(crate) enum Remark {
    /// Nothing.
    Nothing,
    /// The train has not answered or acknowledged it.
    Unanswered,
    /// The train left it unanswered in three reports, and it is not told again yet.
    Due,
    /// It is being revoked, and the train has not acknowledged that. Its number is not known any more.
    Revoked,
}

/// A stop or a restriction, in short: `S1`, `S2?`, `S3!` or `R20`; `-S?` or `-R?` if it is being revoked.
#[derive(Clone, Copy)]
pub(crate) struct ShortWord {
    /// Whether it is a stop.
    pub is_stop: bool,
    /// Its number.
    pub number: u32,
    /// The remark on it.
    pub remark: Remark,
}

impl ShortWord {
    /// A stop without a remark.
    pub(crate) fn stop(number: u32) -> ShortWord {
        ShortWord {
            is_stop: true,
            number,
            remark: Remark::Nothing,
        }
    }

    /// A restriction without a remark.
    pub(crate) fn restriction(number: u32) -> ShortWord {
        ShortWord {
            is_stop: false,
            number,
            remark: Remark::Nothing,
        }
    }

    /// The revocation of a stop, or of a restriction.
    pub(crate) fn revocation(is_stop: bool) -> ShortWord {
        ShortWord {
            is_stop,
            number: 0,
            remark: Remark::Revoked,
        }
    }
}

impl fmt::Display for ShortWord {
    fn fmt<W: fmt::Write>(&self, f: &mut fmt::Formatter<W>) -> fmt::Result {
        let letter = if self.is_stop { "S" } else { "R" };
        let number = self.number;
        let sign = match self.remark {
            Remark::Nothing => "",
            Remark::Unanswered => "?",
            Remark::Due => "!",
            Remark::Revoked => return write!(f, "-{letter}?"),
        };
        write!(f, "{letter}{number}{sign}")
    }
}

/// The text `before`, then the first words of a list, at most `most`, and how many more there are, as in `S1 S2 +3`.
pub(crate) fn short_list(
    alloc: Global,
    before: &str,
    words: &[ShortWord],
    most: usize,
) -> Result<String, AllocError> {
    let mut list = String::from_str(alloc, before)?;
    for (index, word) in words.iter().take(most).enumerate() {
        push_word(&mut list, index, *word)?;
    }
    if words.len() > most {
        push_more(&mut list, most, words.len() - most)?;
    }
    Ok(list)
}

/// Adds a word at an index, with a space between it and one before.
fn push_word(list: &mut String, index: usize, word: ShortWord) -> Result<(), AllocError> {
    if index > 0 {
        list.push(' ')?;
    }
    write!(list, "{word}")
}

/// Adds how many more words there are.
fn push_more(list: &mut String, shown: usize, more: usize) -> Result<(), AllocError> {
    if shown > 0 {
        list.push(' ')?;
    }
    write!(list, "+{more}")
}

/// The short list with as many words, at most `most`, as fit into a room in tenths of a pixel, in size 11. Without
/// words it is empty.
pub(crate) fn fitting_list(
    alloc: Global,
    before: &str,
    words: &[ShortWord],
    most: usize,
    room: i64,
) -> Result<String, AllocError> {
    if words.is_empty() {
        return Ok(String::new(alloc));
    }
    for shown in (1..=most).rev() {
        let list = short_list(alloc, before, words, shown)?;
        if bold_width(list.as_str(), 11) <= room {
            return Ok(list);
        }
    }
    short_list(alloc, before, words, 0)
}

/// How many characters words in ASCII have.
fn count_of(words: &str) -> i64 {
    i64::try_from(words.len()).unwrap_or(i64::MAX)
}

/// A bound on the width of words in ASCII, in tenths of a pixel, if they are bold. The layout takes it for all words
/// but the numbers of balise groups.
pub(crate) fn bold_width(words: &str, size: i64) -> i64 {
    count_of(words).saturating_mul(size).saturating_mul(14) / 2
}

/// A bound on the width of words in ASCII, in tenths of a pixel, if they are not bold.
pub(crate) fn plain_width(words: &str, size: i64) -> i64 {
    count_of(words).saturating_mul(size).saturating_mul(13) / 2
}
