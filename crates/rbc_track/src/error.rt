//! Why a text is not a track.

ghost use Rattle.std.specs.Prelude.{◌≡◌};

use std::alloc::AllocFailed;
use thiserror::Error;

/// The first rule of a track file that a text breaks, in the order in which the rules are checked (own rule).
#[derive(Clone, Copy, Debug, PartialEq, Eq, Error)]
pub enum TrackError {
    /// The text is not a TOML document, or has a number beyond 64 bits.
    #[error("the text is no TOML document, or has a number beyond 64 bits")]
    Text,
    /// A key is missing, or its value is of the wrong kind or out of its range.
    #[error("a key is missing or is not what it has to be: horizon (a whole number, 1 to 3000000), line (tables, each with length), group (tables, each with nid (0 to 16777214), line, at and nominal (\"up\" or \"down\")); whole numbers are 0 to 4294967295")]
    Shape,
    /// More than 64 lines.
    #[error("there are more than 64 lines")]
    TooManyLines,
    /// More than 8,000 balise groups.
    #[error("there are more than 8000 balise groups")]
    TooManyGroups,
    /// A line's length is outside 1 to 3,000,000 units of 10 cm.
    #[error("a line's length is outside 1 to 3000000 (in units of 10 cm)")]
    BadLength,
    /// A balise group is on a line that does not exist, or its place is above the line's length.
    #[error("a balise group's line is not there (lines are numbered from 0), or its place is above the line's length")]
    GroupOffLine,
    /// Two balise groups have the same number.
    #[error("two balise groups have the same nid")]
    GroupTwice,
    /// Memory ran out.
    #[error("out of memory")]
    OutOfMemory,
}

impl TrackError {
    ghost use Rattle.std.specs.Prelude.{◌≡◌};
    ghost use Rattle.rbc_track.specs.Plan.{name_of};

    /// The name of the variant, as a program prints it.
    pub fn name(&self) -> &'static str
        ensures { result.now ≡ name_of self.now }
    {
        match self {
            TrackError::Text => "Text",
            TrackError::Shape => "Shape",
            TrackError::TooManyLines => "TooManyLines",
            TrackError::TooManyGroups => "TooManyGroups",
            TrackError::BadLength => "BadLength",
            TrackError::GroupOffLine => "GroupOffLine",
            TrackError::GroupTwice => "GroupTwice",
            TrackError::OutOfMemory => "OutOfMemory",
        }
    }
}

impl<T: Drop> From<AllocFailed<T>> for TrackError {
    ghost use Rattle.std.specs.Prelude.{◌≡◌};
    ghost use Rattle.rbc_track.specs.declared.error.TrackError.TheVariants.{OutOfMemory};

    ghost from_gives = { λ _ e. e ≡ OutOfMemory };

    fn from(_failed: AllocFailed<T>) -> TrackError {
        TrackError::OutOfMemory
    }
}
