//! The text of a log while it is written: words, and lines of the output of a run, in whole lines.

ghost use Rattle.std.specs.Prelude.{◌≡◌, ◌++◌, [], ◌∷◌, ℕ, List, true, None, codes, OnOk};
ghost use Rattle.rbc_explain.specs.Marked.{AreAdded, IsLine, IsPlain, ended, indent_of, shown};
ghost use Rattle.rbc_explain.specs.Telling.{HasText, IsSaidOn};

use memchr::memchr;
use rbc_text::first_line;
use std::alloc::AllocError;

/// Adds words, in whole lines without a mark: a line that begins with `=` is indented. Nearly every text can be added
/// as it is.
pub(crate) fn push_words(log: &mut Vec<u8>, words: &[u8]) -> Result<(), AllocError>
    ensures { OnOk result (IsSaidOn (HasText words.now) log.old.items log.new.items) }
{
    if is_plain(words) {
        return log.extend_from_slice(words);
    }
    push_each_line(log, words)
}

/// Whether a text ends with a line feed and has no `=`.
fn is_plain(text: &[u8]) -> bool
    ensures { result ≡ true → IsPlain text.now }
{
    match text.split_last() {
        Some((last, _)) => *last == b'\n' && memchr(b'=', text).is_none(),
        None => false,
    }
}

/// Adds each line of a text without a mark.
fn push_each_line(log: &mut Vec<u8>, text: &[u8]) -> Result<(), AllocError>
    ensures { OnOk result (IsSaidOn (HasText text.now) log.old.items log.new.items) }
{
    let mut rest = text;
    while !rest.is_empty() {
        let (line, behind) = first_line(rest);
        push_other(log, line)?;
        rest = behind;
    }
    Ok(())
}

/// Adds a line, without its line feed, so that it has no mark.
fn push_other(log: &mut Vec<u8>, line: &[u8]) -> Result<(), AllocError>
    ensures { OnOk result (log.new.items ≡ log.old.items ++ ended (shown line.now)) }
{
    log.extend_from_slice(indent_of(line))?;
    log.extend_from_slice(line)?;
    log.extend_from_slice(b"\n")
}

/// The indent that keeps a line from having a mark.
fn indent_of(line: &[u8]) -> &'static [u8]
    ensures { result.now ≡ indent_of line.now }
{
    match line.first() {
        Some(b'=') => b" ",
        _ => b"",
    }
}

/// Adds a line of the output, without its line feed, as it is, with `= ` before it.
pub(crate) fn push_line(log: &mut Vec<u8>, line: &[u8]) -> Result<(), AllocError>
    ensures { IsLine line.now → OnOk result (AreAdded ((codes "= " ++ line.now) ∷ []) log.old.items log.new.items) }
{
    push_marked(log, line)
}

/// Adds a line with its mark.
fn push_marked(log: &mut Vec<u8>, line: &[u8]) -> Result<(), AllocError>
    ensures { OnOk result (log.new.items ≡ log.old.items ++ ended (codes "= " ++ line.now)) }
{
    log.extend_from_slice(b"= ")?;
    log.extend_from_slice(line)?;
    log.extend_from_slice(b"\n")
}
