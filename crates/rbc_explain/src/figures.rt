//! Places, ways and stamps as all texts have them.

ghost use Rattle.std.specs.Prelude.{◌≡◌};
ghost use Rattle.rbc_explain.specs.Reasons.{way_word, ways_words};

use rbc_place::Place;
use rbc_track::Way;
use rbc_words::Km;
use rbc_zones::{Dirs, Segment};
use std::alloc::AllocError;
use std::fmt;
use std::fmt::Write;

/// T_TRAIN that is unknown.
const UNKNOWN_STAMP: u32 = 4_294_967_295;

/// The word for a way.
pub(crate) fn way_word(way: Way) -> &'static str
    ensures { result.now ≡ way_word way }
{
    match way {
        Way::Up => "up",
        Way::Down => "down",
    }
}

/// The words for the ways of the trains that a restriction is for.
pub(crate) fn ways_words(dirs: Dirs) -> &'static str
    ensures { result.now ≡ ways_words dirs }
{
    match dirs {
        Dirs::Up => "up",
        Dirs::Down => "down",
        Dirs::Both => "up or down",
    }
}

/// Where a stretch lies on its line: `km 15.200 to km 16.850`.
#[derive(Clone, Copy)]
pub(crate) struct Stretch(pub Segment);

impl fmt::Display for Stretch {
    ghost use Rattle.std.specs.Prelude.{Some};
    ghost use Rattle.rbc_explain.specs.Reasons.{stretch_text};

    ghost output = { λ stretch. Some (stretch_text stretch.0) };

    fn fmt<W: fmt::Write>(&self, f: &mut fmt::Formatter<W>) -> fmt::Result {
        let (from, to) = (Km(self.0.from), Km(self.0.to));
        write!(f, "km {from} to km {to}")
    }
}

/// Where a train may be: `km 7.9675 to km 8.1875 of line 0, facing up`.
#[derive(Clone, Copy)]
pub(crate) struct Whereabouts(pub Place);

impl fmt::Display for Whereabouts {
    ghost use Rattle.std.specs.Prelude.{Some};
    ghost use Rattle.rbc_explain.specs.Reasons.{place_text};

    ghost output = { λ whereabouts. Some (place_text whereabouts.0) };

    fn fmt<W: fmt::Write>(&self, f: &mut fmt::Formatter<W>) -> fmt::Result {
        let (low, high, line) = (Km(self.0.lo()), Km(self.0.hi()), self.0.line());
        let way = way_word(self.0.facing());
        write!(f, "km {low} to km {high} of line {line}, facing {way}")
    }
}

/// The balise group of a train's place: `balise group 100 at km 8.000`.
#[derive(Clone, Copy)]
pub(crate) struct GroupOf(pub Place);

impl fmt::Display for GroupOf {
    ghost use Rattle.std.specs.Prelude.{Some};
    ghost use Rattle.rbc_explain.specs.Reasons.{group_text};

    ghost output = { λ group. Some (group_text group.0) };

    fn fmt<W: fmt::Write>(&self, f: &mut fmt::Formatter<W>) -> fmt::Result {
        let (number, at) = (self.0.lrbg(), Km(self.0.at()));
        write!(f, "balise group {number} at km {at}")
    }
}

/// Adds stretches, each in a line of its own: `line 0, km 15.200 to km 16.850`, and a full stop after the last one.
pub(crate) fn push_segments(
    text: &mut String,
    beginning: &str,
    segments: &[Segment],
) -> Result<(), AllocError> {
    for (index, segment) in segments.iter().enumerate() {
        if index != 0 {
            write!(text, ",\n    and {beginning}")?;
        }
        let (line, stretch) = (segment.line, Stretch(*segment));
        write!(text, "line {line}, {stretch}")?;
    }
    text.push_str(".\n")
}

/// A stamp of a message from a train, which may be unknown.
#[derive(Clone, Copy)]
pub(crate) struct Stamp(pub u32);

impl fmt::Display for Stamp {
    fn fmt<W: fmt::Write>(&self, f: &mut fmt::Formatter<W>) -> fmt::Result {
        let stamp = self.0;
        if stamp == UNKNOWN_STAMP {
            return write!(f, "stamp unknown");
        }
        write!(f, "stamp {stamp}")
    }
}
