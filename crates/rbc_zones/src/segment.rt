//! Stretches of one line.

ghost use Rattle.std.specs.Prelude.{◌≡◌, IsTrue};
ghost use Rattle.rbc_zones.specs.Segments.{is_good_segment, IsSegment};

use rbc_place::Track;

/// A stretch of one line, from one place to another, both included. Places are whole units of 10 cm.
#[derive(Clone, Copy, Debug, PartialEq, Eq)]
pub struct Segment {
    pub line: u32,
    pub from: u32,
    pub to: u32,
}

/// Whether the track has the segment's line, its first place is not above its second, and both are on the line.
pub fn is_good_segment(track: &Track, segment: &Segment) -> bool
    ensures value { result ≡ is_good_segment track.now segment.now }
    ensures sound { IsTrue result → IsSegment segment.now }
{
    track.line_len(segment.line).is_some_and(|length| segment.from <= segment.to
        && segment.to <= length)
}
