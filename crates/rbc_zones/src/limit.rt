//! Temporary speed restrictions.

ghost use Rattle.std.specs.Prelude.{◌≡◌, ◌≤◌, ◌↔◌, IsTrue, IsOk, IfOk};
ghost use Rattle.rbc_zones.specs.Limits.{Limit, IsLimit, is_good_limit, is_clear, concerns};

use crate::segment::{Segment, is_good_segment};
use rbc_maps::{OnLines, mark_of};
use rbc_place::{Place, Track, Way};
use std::marker::Model;

/// The greatest speed of a restriction, in km/h.
const MAX_SPEED: u32 = 600;

/// The direction or directions in which a restriction applies.
#[derive(Clone, Copy, Debug, PartialEq, Eq)]
pub enum Dirs {
    /// Trains that face towards rising places.
    Up,
    /// Trains that face towards falling places.
    Down,
    /// All trains.
    Both,
}

/// The segment and the speed are not a restriction of the track: the segment is on a line that the track does not
/// have, its ends are the same or the wrong way round, it ends beyond its line, or the speed is above 600 km/h or
/// not a multiple of 5.
#[derive(Clone, Copy, Debug, PartialEq, Eq)]
pub struct BadLimit;

/// A temporary speed restriction. A copy takes no memory.
#[derive(Clone, Copy, Debug, PartialEq, Eq)]
pub struct Limit {
    segment: Segment,
    dirs: Dirs,
    speed: u32,
    front: bool,
}

impl Model for Limit {
    ghost use Rattle.rbc_zones.specs.Limits as limits;

    ghost Value = { limits.Limit };

    ghost view = { λ l. record { segment = l.segment; dirs = l.dirs; speed = l.speed; front = l.front } };

    ghost invariant = { λ l. limits.IsLimit
        (record { segment = l.segment; dirs = l.dirs; speed = l.speed; front = l.front }) };

    ghost inverse = { λ v. record { segment = v.segment; dirs = v.dirs; speed = v.speed; front = v.front } };
}

impl Limit {
    /// Makes a restriction of a segment of a track to a speed in km/h. `front` is Q_FRONT: true if there is no train
    /// length delay at its end.
    ///
    /// # Errors
    ///
    /// `BadLimit` exactly if the segment is not good for the track, its ends are the same, or the speed is above
    /// 600 or not a multiple of 5.
    pub fn new(
        track: &Track,
        segment: Segment,
        dirs: Dirs,
        speed: u32,
        front: bool,
    ) -> Result<Limit, BadLimit>
        ensures limit { IfOk result (λ limit. limit
            ≡ record { segment = segment; dirs = dirs; speed = speed; front = front }) }
        ensures good { IsOk result ↔ IsTrue (is_good_limit track.now segment speed) }
    {
        let is_good = is_good_segment(track, &segment)
            && segment.from < segment.to
            && speed <= MAX_SPEED
            && speed % 5 == 0;
        if !is_good {
            return Err(BadLimit);
        }
        Ok(Limit {
            segment,
            dirs,
            speed,
            front,
        })
    }

    /// The segment on which it applies.
    pub fn segment(&self) -> Segment
        ensures value { result ≡ self.now.segment }
        ensures sound { IsLimit self.now }
    {
        self.segment
    }

    /// The direction or directions in which it applies.
    pub fn dirs(&self) -> Dirs
        ensures { result ≡ self.now.dirs }
    {
        self.dirs
    }

    /// The speed in km/h: a multiple of 5, at most 600.
    pub fn speed(&self) -> u32
        ensures value { result ≡ self.now.speed }
        ensures sound { IsLimit self.now }
    {
        self.speed
    }

    /// Q_FRONT: true if there is no train length delay at its end.
    pub fn front(&self) -> bool
        ensures { result ≡ self.now.front }
    {
        self.front
    }
}

impl OnLines<1> for Limit {
    ghost use Rattle.std.specs.Prelude.{refl};
    ghost use Rattle.std.proofs.Common.{arith};
    ghost use Rattle.rbc_zones.specs.Limits.{IsLimit};
    ghost use Rattle.rbc_zones.specs.Marks.{limit_marks};

    ghost marks = { limit_marks };

    ghost is_sound = { IsLimit };

    /// The mark of the line of the segment.
    fn marks(&self) -> [u8; 1] {
        [mark_of(self.segment.line)]
    }

    ghost are_all = { λ limit. refl };

    ghost are_few = { Prim.omega arith };
}

/// Whether a train has nothing more to do with a restriction (own rule): the restriction is on another line or applies
/// to trains that face the other way, or it lies wholly behind the interval in which the train may stand.
#[inline]
pub fn limit_clear(limit: &Limit, place: &Place) -> bool
    ensures { result ≡ is_clear limit.now place.now }
{
    let segment = &limit.segment;
    segment.line != u32::from(place.line())
        || match place.facing() {
            Way::Up => limit.dirs == Dirs::Down || segment.to < place.lo(),
            Way::Down => limit.dirs == Dirs::Up || segment.from > place.hi(),
        }
}

/// Whether a train has to be told of a restriction (own rule): the train is not clear of it, it ends beyond the train's
/// balise group, and it begins no farther ahead of the interval in which the train may stand than the horizon, in units
/// of 10 cm.
#[inline]
pub fn limit_concerns(limit: &Limit, place: &Place, horizon: u32) -> bool
    ensures { result ≡ concerns limit.now place.now horizon }
{
    let segment = limit.segment;
    !limit_clear(limit, place)
        && match place.facing() {
            Way::Up => {
                segment.to > place.at() && segment.from <= place.hi().saturating_add(horizon)
            }
            Way::Down => {
                segment.from < place.at() && segment.to.saturating_add(horizon) >= place.lo()
            }
        }
}
