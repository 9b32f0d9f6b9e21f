//! Where a new stop has to lie to concern a train, in few bytes, so that a search can skip most trains.

ghost use Rattle.std.specs.Prelude.{◌≡◌, ℕ, ◌<◌, ◌≤◌, false, get_or, length, IsFalse};
ghost use Rattle.rbc_records.specs.Extents.{extent_of_train, ahead_of, extent_of_area, with_segment, meet, site_on};
ghost use Rattle.std.specs.List.{list_any};
ghost use Rattle.rbc_records.specs.Extents.{is_met, is_one_met};

use rbc_settle::{Area, Place, STOP_IDENTIFIERS, Segment, TrainRec, Way};

/// How many sites each line has: more than the greatest length of a line, in units of 10 cm.
const SITES: u32 = 1 << 22;

/// Places of the track, from the least to the greatest, both included. Each is a number, its site: the sites of a line
/// follow those of the line before it.
#[derive(Clone, Copy)]
pub struct Extent {
    /// The least site.
    pub least: u32,
    /// The greatest site.
    pub most: u32,
}

/// No place.
pub const NOWHERE: Extent = Extent {
    least: u32::MAX,
    most: 0,
};

/// All places.
const EVERYWHERE: Extent = Extent {
    least: 0,
    most: u32::MAX,
};

/// The site of a place on a line, which is in units of 10 cm. Lines whose numbers are a multiple of 64 apart, and all
/// places beyond the longest line, share sites; a track has neither.
fn site_on(line: u32, place: u32) -> u32
    ensures { result ≡ site_on line place }
{
    line % 64 * SITES + place.min(SITES - 1)
}

impl Extent {
    /// Where a new stop has to lie if a train may have to be told of it: nowhere if it has no free stop identifier
    /// (NID_EM), and anywhere if `concern` may give `Now` whatever its place.
    pub fn of_train(train: &TrainRec) -> Self
        ensures { result ≡ extent_of_train train.now }
    {
        if train.stops.held() >= STOP_IDENTIFIERS {
            return NOWHERE;
        }
        if train.forced.len() > 0 {
            return EVERYWHERE;
        }
        match &train.place {
            Some(place) => Extent::ahead_of(place),
            None => EVERYWHERE,
        }
    }

    /// Where a train at this place may stand, and what lies ahead of it on its line.
    fn ahead_of(place: &Place) -> Self
        ensures { result ≡ ahead_of place.now.facing place.now }
    {
        let line = u32::from(place.line());
        match place.facing() {
            Way::Up => Extent {
                least: site_on(line, place.lo().min(place.hi())),
                most: site_on(line, u32::MAX),
            },
            Way::Down => Extent {
                least: site_on(line, 0),
                most: site_on(line, place.lo().max(place.hi())),
            },
        }
    }

    /// The extent of an area: from the least end of its segments to the greatest. It has the lines between them as
    /// well. An area without segments extends everywhere.
    pub fn of_area(area: &Area) -> Self
        ensures { result ≡ extent_of_area area.now }
    {
        let segments = area.segments();
        if segments.is_empty() {
            return EVERYWHERE;
        }
        segments
            .iter()
            .fold(NOWHERE, |extent, segment| extent.with_segment(segment))
    }

    /// The extent with one more segment.
    fn with_segment(self, segment: &Segment) -> Self
        ensures { result ≡ with_segment self segment.now }
    {
        Extent {
            least: self
                .least
                .min(site_on(segment.line, segment.from.min(segment.to))),
            most: self
                .most
                .max(site_on(segment.line, segment.from.max(segment.to))),
        }
    }

    /// Whether this extent has a place in common with the one from `least` to `most`. It has no branch, so that a scan
    /// takes several of them at once.
    #[inline(always)]
    pub fn meets(&self, least: u32, most: u32) -> bool
        ensures { result ≡ meet self.now least most }
    {
        (self.least <= most) & (least <= self.most)
    }

    /// Whether this extent has a place in common with one of those from `least` to `most` at the indices from `begin`
    /// to before `end`. It asks all of them without a branch, so that the processor takes several at once.
    #[inline(always)]
    pub fn meets_some(&self, least: &[u32], most: &[u32], begin: usize, end: usize) -> bool
        requires least { end ≤ length least.now }
        requires most { end ≤ length most.now }
        ensures { IsFalse result → (index : ℕ) → begin ≤ index → index < end
            → meet self.now (get_or least.now index 0) (get_or most.now index 0) ≡ false }
    {
        let mut any = false;
        for index in begin..end {
            any |= self.meets(least[index], most[index]);
        }
        any
    }
}

/// Whether a segment has a place in common with the extent from `least` to `most`.
fn is_met(least: u32, most: u32, segment: &Segment) -> bool
    ensures { result ≡ is_met least most segment.now }
{
    NOWHERE.with_segment(segment).meets(least, most)
}

/// Whether one of the segments of an area has a place in common with the extent from `least` to `most`. An area without
/// segments counts as everywhere.
pub fn is_one_met(area: &Area, least: u32, most: u32) -> bool
    ensures { result ≡ is_one_met area.now least most }
{
    let segments = area.segments();
    if segments.is_empty() {
        return true;
    }
    has_met(segments, least, most)
}

/// Whether one of the segments has a place in common with the extent from `least` to `most`.
fn has_met(segments: &[Segment], least: u32, most: u32) -> bool
    ensures { result ≡ list_any (is_met least most) segments.now }
{
    segments.iter().any(|segment| is_met(least, most, segment))
}
