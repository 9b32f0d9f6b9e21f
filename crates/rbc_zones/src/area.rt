//! The area of a stop.

ghost use Rattle.std.specs.Prelude.{◌≡◌, ◌<◌, ◌↔◌, length, IsTrue, IsOk, IfOk};
ghost use Rattle.rbc_zones.specs.Segments.{is_good_area, IsSegment, AreSegments};
ghost use Rattle.rbc_zones.specs.Marks.{mark_at};
ghost use Rattle.std.specs.List.{All};

use crate::segment::{Segment, is_good_segment};
use rbc_maps::{OnLines, mark_of};
use rbc_place::Track;
use std::array;
use std::marker::Model;

/// The most segments that an area has.
const MAX_SEGMENTS: usize = 8;

/// The mark for a segment that an area does not have. No line has it, since marks of lines are below 64.
const NO_MARK: u8 = 255;

/// Fills the array of an area that has fewer segments.
const NO_SEGMENT: Segment = Segment {
    line: 0,
    from: 0,
    to: 0,
};

/// The segments are not an area of the track: there are more than 8, one is on a line that the track does not have,
/// one has its ends the wrong way round, or one ends beyond its line.
#[derive(Clone, Copy, Debug, PartialEq, Eq)]
pub struct BadArea;

/// The area that a stop closes: 1 to 8 segments, in the order in which they were given. A copy takes no memory.
#[derive(Clone, Copy, Debug, PartialEq, Eq)]
pub struct Area {
    /// The segments, then segments of zeros.
    segments: [Segment; MAX_SEGMENTS],
    count: usize,
}

impl Model for Area {
    ghost use Rattle.std.specs.Prelude.{List, length, take};
    ghost use Rattle.rbc_zones.specs.declared.segment.Segment.{Segment};

    ghost Value = { List Segment };

    ghost use Rattle.rbc_zones.specs.Inside.{padded, IsAreaIn};
    ghost use Rattle.rbc_zones.specs.Padding.{inverse_ok};

    ghost view = { λ a. take a.count a.segments };

    ghost invariant = { IsAreaIn };

    ghost inverse = { λ segments. record { segments = padded segments; count = length segments } };

    ghost inverse_ok = { inverse_ok };
}

impl Area {
    /// Makes an area of segments on a track; there is at least one.
    ///
    /// # Errors
    ///
    /// `BadArea` exactly if a segment is not good for the track or there are more than 8.
    pub fn new(track: &Track, segments: &[Segment]) -> Result<Area, BadArea>
        requires { 0 < length segments.now }
        ensures area { IfOk result (λ area. area ≡ segments.now) }
        ensures good { IsOk result ↔ IsTrue (is_good_area track.now segments.now) }
    {
        if !is_good_area(track, segments) {
            return Err(BadArea);
        }
        Ok(Area::filled(segments))
    }

    /// Makes an area of 1 to 8 segments.
    fn filled(segments: &[Segment]) -> Area
        requires { AreSegments segments.now }
        ensures { result ≡ segments.now }
    {
        let mut all = [NO_SEGMENT; MAX_SEGMENTS];
        all[..segments.len()].copy_from_slice(segments);
        Area {
            segments: all,
            count: segments.len(),
        }
    }

    /// The segments, in the order in which they were given.
    pub fn segments(&self) -> &[Segment]
        ensures value { result.now ≡ self.now }
        ensures sound { AreSegments self.now }
    {
        &self.segments[..self.count]
    }
}

impl OnLines<8> for Area {
    ghost use Rattle.std.specs.Prelude.{refl};
    ghost use Rattle.std.proofs.Common.{arith};
    ghost use Rattle.rbc_zones.specs.Marks.{stop_marks};
    ghost use Rattle.rbc_zones.specs.Segments.{AreSegments};

    ghost marks = { stop_marks };

    ghost is_sound = { AreSegments };

    /// The marks of the lines of the segments, one for each segment that an area can have.
    fn marks(&self) -> [u8; 8] {
        let segments = self.segments();
        array::from_fn(|at| mark_at(segments, at))
    }

    ghost are_all = { λ area. refl };

    ghost are_few = { Prim.omega arith };
}

/// The mark of the line of the segment at an index.
fn mark_at(segments: &[Segment], at: usize) -> u8
    ensures { result ≡ mark_at segments.now at }
{
    segments
        .get(at)
        .map_or(NO_MARK, |segment| mark_of(segment.line))
}

/// Whether there are at most 8 segments, and each is good for the track.
fn is_good_area(track: &Track, segments: &[Segment]) -> bool
    ensures good { result ≡ is_good_area track.now segments.now }
    ensures sound { IsTrue result → All IsSegment segments.now }
{
    segments.len() <= MAX_SEGMENTS
        && segments
            .iter()
            .all(|segment| is_good_segment(track, segment))
}
