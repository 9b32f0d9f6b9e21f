//! What is wrong with a line.

ghost use Rattle.std.specs.Prelude.{Some};
ghost use Rattle.rbc_words.specs.FaultTexts.{line_word_text, line_fault_text};

use crate::rule::RuleError;
use ertms_codec::Expected;
use std::fmt;

/// What can stand as a word of a line.
#[derive(Clone, Copy, Debug, PartialEq, Eq)]
pub enum LineWord {
    /// What can stand as a word of the text of a message. In a report a number may have leading zeros.
    Text(Expected),
    /// `LINE:PLACE`, two decimals.
    Place,
    /// `up` or `down`.
    Way,
}

impl fmt::Display for LineWord {
    ghost output = { λ word. Some (line_word_text word) };

    fn fmt<W: fmt::Write>(&self, f: &mut fmt::Formatter<W>) -> fmt::Result {
        match self {
            LineWord::Text(expected) => write!(f, "{expected}"),
            LineWord::Place => write!(f, "LINE:PLACE"),
            LineWord::Way => write!(f, "'up' or 'down'"),
        }
    }
}

/// Why a line is not encoded.
#[derive(Clone, Copy, Debug, PartialEq, Eq)]
pub enum LineFault {
    /// This is the first word that is wrong; the first word of a line has number 1. A missing word is wrong too.
    Word { index: u64, expected: LineWord },
    /// It is a report, and no track is given.
    NeedsTrack,
    /// It is a report from a line that the track does not have.
    NoLine { line: u32 },
    /// It is a report from beyond the end of a line of the track.
    Beyond { line: u32, end: u32 },
    /// It is a report from where no balise group is at or behind the place.
    NoGroup,
}

/// What stands behind the number of the line.
impl fmt::Display for LineFault {
    ghost output = { λ fault. Some (line_fault_text fault) };

    fn fmt<W: fmt::Write>(&self, f: &mut fmt::Formatter<W>) -> fmt::Result {
        match self {
            LineFault::Word { index, expected } => write!(f, ", word {index}: {expected}"),
            LineFault::NeedsTrack => write!(f, ": a report needs --track"),
            LineFault::NoLine { line } => write!(f, ": no line {line} in the track"),
            LineFault::Beyond { line, end } => write!(f, ": line {line} ends at {end}"),
            LineFault::NoGroup => write!(f, ": no balise group at or behind the place"),
        }
    }
}

impl From<LineFault> for RuleError<LineFault> {
    ghost use Rattle.std.specs.Prelude.{◌≡◌};
    ghost use Rattle.rbc_words.specs.declared.rule.RuleError.TheVariants.{Wrong};

    ghost from_gives = { λ fault e. e ≡ Wrong fault };

    fn from(fault: LineFault) -> RuleError<LineFault> {
        RuleError::Wrong(fault)
    }
}
