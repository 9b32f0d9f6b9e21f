//! Lines through a filter, from a reader to a writer.

ghost use Rattle.std.specs.Prelude.{◌≡◌};
ghost use Rattle.rbc_words.specs.Filters.{Filters};
ghost use Rattle.rbc_words.specs.Calls.{AreCallsAt};

use crate::rule::LineRule;
use crate::session::Session;
use rbc_text::Calls;
use std::alloc::Global;
use std::fmt;
use std::io::{Read, Write};

/// The number of bytes asked for in one call.
const PIECE: usize = 65_536;

/// Why not all lines went through. What was written before stands.
#[derive(Clone, Copy, Debug, PartialEq, Eq)]
pub enum FilterError<F> {
    /// The reader failed, or did not end within 2 ^ 47 calls. All lines that had ended are out, and what was passed on
    /// of the next one.
    Read,
    /// There was not enough memory for a line. The lines before it are out, and what was passed on of it.
    Memory,
    /// The writer failed, took no bytes, was interrupted 1,000 times over one piece of text, or could not be flushed.
    /// Exactly the first `sent` bytes of the output are out, or at least that many where `sent` is 2 ^ 64 - 1.
    Write { sent: u64 },
    /// The line of this number, from 1 on, is the first that is wrong. The lines before it are out.
    Line { number: u64, fault: F },
}

impl<F: fmt::Display> fmt::Display for FilterError<F> {
    ghost use Rattle.std.specs.Prelude.{Some};
    ghost use Rattle.rbc_words.specs.FaultTexts.{filter_error_text};

    ghost output = { λ error. filter_error_text F.output error };

    fn fmt<W: fmt::Write>(&self, f: &mut fmt::Formatter<W>) -> fmt::Result {
        match self {
            FilterError::Read => write!(f, "read fault"),
            FilterError::Memory => write!(f, "out of memory"),
            FilterError::Write { sent } => write!(f, "write fault after {sent} bytes"),
            FilterError::Line { number, fault } => write!(f, "line {number}{fault}"),
        }
    }
}

/// Reads lines to the end of the reader, and writes what the rule makes of each, with a line feed behind it, also
/// behind a last line that lacks one. What has been read is written and flushed before the reader is asked for more.
///
/// # Errors
///
/// See [`FilterError`].
pub fn filter_lines<L: LineRule, R: Read, W: Write>(
    alloc: Global,
    rule: &L,
    reader: &mut R,
    writer: &mut W,
) -> Result<(), FilterError<L::Fault>>
    ensures { Filters (L.becomes rule.now) (L.is_wrong rule.now)
        (R.remaining reader.old) (R.remaining reader.new) (W.contents writer.old) (W.contents writer.new) result }
{
    filter_counted(alloc, rule, reader, writer, &mut Calls::new())
}

/// Does what `filter_lines` does, and counts the calls of the reader.
///
/// # Errors
///
/// Those of `filter_lines`: `Read` exactly where a call failed, or 2 ^ 47 calls gave no end.
fn filter_counted<L: LineRule, R: Read, W: Write>(
    alloc: Global,
    rule: &L,
    reader: &mut R,
    writer: &mut W,
    calls: &mut Calls,
) -> Result<(), FilterError<L::Fault>>
    requires uncalled { calls.old.made ≡ 0 }
    ensures filtered { Filters (L.becomes rule.now) (L.is_wrong rule.now)
        (R.remaining reader.old) (R.remaining reader.new) (W.contents writer.old) (W.contents writer.new) result }
    ensures called { AreCallsAt result calls.new }
{
    let mut session = Session::new(alloc);
    let mut piece = [0u8; PIECE];
    while calls.may_go_on() {
        match calls.read(reader, &mut piece) {
            Ok(0) => return session.finish(alloc, rule, writer),
            Ok(count) => session.take_piece(alloc, rule, &piece[..count], writer)?,
            Err(_) => (),
        }
    }
    Err(FilterError::Read)
}
