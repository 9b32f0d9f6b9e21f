//! A short line that stands in for a long one that has not ended: however both go on, they lead to the same result.

ghost use Rattle.std.specs.Prelude.{◌≡◌, ◌≤◌, ◌<◌, ◌+◌, ◌==◌, ◌∷◌, ◌++◌, [], ℕ, List, codes, length};
ghost use Rattle.std.specs.Prelude.{if◌then◌else◌, false, true, IfOk};
ghost use Rattle.std.specs.List.{list_all};
ghost use Rattle.hex.specs.Hex.{is_hex_digit};
ghost use Rattle.rbc_text.specs.BatchText.{words_of};
ghost use Rattle.rbc_live.specs.GoingOn.{GoesOnAs, is_stop, max_kept};

use ertms_codec::cut;
use memchr::memchr;
use rbc_rule::Input;
use rbc_text::{last_word, parse_line};
use std::alloc::{AllocError, Global};

/// How many digits are kept of a long message, and one more if their number is odd. They spell more bytes than
/// L_MESSAGE can count, so the others do not matter.
const DIGITS: usize = 4_096;

/// The greatest length of a last word that is kept. No number and no segment is longer.
const MAX_WORD: usize = 64;

/// One segment more than a stop may have.
const NINE_SEGMENTS: &[u8] = b" 0:0-0 0:0-0 0:0-0 0:0-0 0:0-0 0:0-0 0:0-0 0:0-0 0:0-0 ";

/// Two texts, one after the other.
fn joined(alloc: Global, front: &[u8], behind: &[u8]) -> Result<Vec<u8>, AllocError>
    ensures { IfOk result (λ text. text.items ≡ front.now ++ behind.now) }
{
    let mut text = Vec::new(alloc);
    text.extend_from_slice(front)?;
    text.extend_from_slice(behind)?;
    Ok(text)
}

/// A line that is refused with code 1, whatever follows.
fn bad_line(alloc: Global) -> Result<Vec<u8>, AllocError>
    ensures { IfOk result (λ kept. kept.items ≡ 32 ∷ []) }
{
    joined(alloc, b" ", b"")
}

/// The second word of a line, or an empty one if there is none.
fn second_word(line: &[u8]) -> &[u8]
    ensures word { (first second : List ℕ) (more : List (List ℕ))
        → words_of line.now ≡ first ∷ second ∷ more
        → (result.now ≡ second) × (words_of result.now ≡ result.now ∷ []) }
{
    match cut(line, b' ').1 {
        Some(behind) => cut(behind, b' ').0,
        None => &[],
    }
}

/// Whether there is no carriage return in a word.
fn has_no_return(word: &[u8]) -> bool
    ensures { result ≡ list_all (λ byte. if byte == 13 then false else true) word.now }
{
    memchr(b'\r', word).is_none()
}

/// Whether all bytes of a word are hexadecimal digits.
fn are_digits(word: &[u8]) -> bool
    ensures { result ≡ list_all is_hex_digit word.now }
{
    word.iter().all(|byte| byte.is_ascii_hexdigit())
}

/// Whether an input is an emergency stop.
fn is_stop(input: &Input) -> bool
    ensures { result ≡ is_stop input.now }
{
    matches!(input, Input::Stop { .. })
}

/// Stands in for `recv` and a word that is too long for a message. All that matters is whether the word is made of
/// digits, and whether their number is even.
fn message(alloc: Global, word: &[u8]) -> Result<Vec<u8>, AllocError>
    requires { 4097 ≤ length word.now }
    ensures alike { (line : List ℕ) → words_of line ≡ codes "recv" ∷ word.now ∷ []
        → IfOk result (λ kept. GoesOnAs kept.items line) }
    ensures some { IfOk result (λ kept. 1 ≤ length kept.items) }
    ensures few { IfOk result (λ kept. length kept.items ≤ max_kept) }
{
    if !has_no_return(word) {
        return bad_line(alloc);
    }
    if !are_digits(word) {
        return joined(alloc, b"recv g", b"");
    }
    joined(alloc, b"recv ", &word[..DIGITS + word.len() % 2])
}

/// Stands in for `stop` and more words, of which the last one may go on. If there are more than eight segments, it does
/// not matter which.
fn stop(alloc: Global, front: &[u8], word: &[u8]) -> Result<Vec<u8>, AllocError>
    requires command { (arguments : List (List ℕ)) × (words_of front.now ≡ codes "stop" ∷ arguments) }
    requires whole { words_of word.now ≡ word.now ∷ [] }
    requires long { max_kept < length front.now + length word.now + 1 }
    ensures alike { (line : List ℕ) → words_of line ≡ words_of front.now ++ word.now ∷ []
        → IfOk result (λ kept. GoesOnAs kept.items line) }
    ensures some { IfOk result (λ kept. 1 ≤ length kept.items) }
    ensures few { IfOk result (λ kept. length kept.items ≤ max_kept) }
{
    if word.len() > MAX_WORD {
        return bad_line(alloc);
    }
    if !is_stop(&parse_line(alloc, front)?) {
        return bad_line(alloc);
    }
    let mut kept = joined(alloc, b"stop ", second_word(front))?;
    kept.extend_from_slice(NINE_SEGMENTS)?;
    kept.extend_from_slice(word)?;
    Ok(kept)
}

/// A line of few bytes that goes on as this long one does.
///
/// A long line is a message that is too long, a stop of too many segments, or a line that is refused with code 1,
/// whatever follows.
pub fn shortened(alloc: Global, line: &[u8]) -> Result<Vec<u8>, AllocError>
    requires { max_kept < length line.now }
    ensures alike { IfOk result (λ kept. GoesOnAs kept.items line.now) }
    ensures some { IfOk result (λ kept. 1 ≤ length kept.items) }
    ensures few { IfOk result (λ kept. length kept.items ≤ max_kept) }
{
    match last_word(line) {
        None => bad_line(alloc),
        Some((front, word)) if front == b"recv".as_slice() => message(alloc, word),
        Some((front, word)) if cut(front, b' ').0 == b"stop".as_slice() => stop(alloc, front, word),
        Some(_) => bad_line(alloc),
    }
}
