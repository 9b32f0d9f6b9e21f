//! The last word of a line that may go on.

ghost use Rattle.std.specs.Prelude.{◌≡◌, ◌++◌, ◌∷◌, [], length, IfSome, IfNone, true};
ghost use Rattle.std.specs.List.{count_by};
ghost use Rattle.rbc_text.specs.BatchText.{is_space, words_of};
ghost use Rattle.rbc_words.specs.LastWord.{IsSettled};

use rbc_text::last_word;

/// No word that can stand in a message or a report is longer: `LINE:PLACE`, with 10 digits each.
const LONGEST_WORD: usize = 21;

/// Whether it is settled that a word, which is wrong in what has come of a line, is wrong however the line goes on: it
/// stands before the last word, or the last word is too long. The first word of a line has number 1.
pub fn is_settled(begun: &[u8], index: u64) -> bool
    ensures { result ≡ true → IsSettled (words_of begun.now) index }
{
    let Some((front, last)) = last_word(begun) else {
        return false;
    };
    let before = count_words(front);
    index <= before || index == before + 1 && last.len() > LONGEST_WORD
}

/// The number of words of a text.
fn count_words(text: &[u8]) -> u64
    ensures { result ≡ length (words_of text.now) }
{
    count_spaces(text) as u64 + 1
}

/// The number of spaces in a text.
fn count_spaces(text: &[u8]) -> usize
    ensures { result ≡ count_by is_space text.now }
{
    text.iter().filter(|byte| **byte == b' ').count()
}
