//! Where a train may stand.

ghost use Rattle.std.specs.Prelude.{◌≡◌, IfSome};
ghost use Rattle.rbc_place.specs.Placing.{IsSound, LiesOnLine, place_of_report};

use crate::line::{back, onward, onward_on_line};
use crate::report::{in_units, is_known, way_of};
use ertms_codec::Position;
use rbc_track::{Track, Way};
use std::marker::Model;

/// Where a train may stand: an interval on a line, both ends included. Places are whole units of 10 cm from the lower
/// end of the line, at most 3,000,000.
#[derive(Clone, Copy, Debug, PartialEq, Eq)]
pub struct Place {
    line: u8,
    lrbg: u32,
    at: u32,
    same: bool,
    facing: Way,
    lo: u32,
    hi: u32,
}

impl Model for Place {
    ghost use Rattle.rbc_place.specs.Placing as placing;
    ghost use Rattle.rbc_place.specs.Placing.{IsSound};

    ghost Value = { placing.Place };

    ghost view = { λ p. record {
      line = p.line;
      lrbg = p.lrbg;
      at = p.at;
      same = p.same;
      facing = p.facing;
      lo = p.lo;
      hi = p.hi;
    } };

    ghost invariant = { λ p. IsSound
        (record { line = p.line; lrbg = p.lrbg; at = p.at; same = p.same; facing = p.facing; lo = p.lo; hi = p.hi }) };

    ghost inverse = { λ v. record {
      line = v.line;
      lrbg = v.lrbg;
      at = v.at;
      same = v.same;
      facing = v.facing;
      lo = v.lo;
      hi = v.hi;
    } };
}

impl Place {
    /// The number of the line.
    pub fn line(&self) -> u8
        ensures { result ≡ self.now.line }
    {
        self.line
    }

    /// NID_LRBG: the last relevant balise group, from which the train's report counts, at most 16,777,214.
    pub fn lrbg(&self) -> u32
        ensures value { result ≡ self.now.lrbg }
        ensures sound { IsSound self.now }
    {
        self.lrbg
    }

    /// The place of that balise group.
    pub fn at(&self) -> u32
        ensures value { result ≡ self.now.at }
        ensures sound { IsSound self.now }
    {
        self.at
    }

    /// Whether the nominal direction of that balise group is up.
    pub fn same(&self) -> bool
        ensures { result ≡ self.now.same }
    {
        self.same
    }

    /// The direction in which the train faces.
    pub fn facing(&self) -> Way
        ensures { result ≡ self.now.facing }
    {
        self.facing
    }

    /// The lowest place at which a part of the train may stand, at most `hi`.
    pub fn lo(&self) -> u32
        ensures value { result ≡ self.now.lo }
        ensures sound { IsSound self.now }
    {
        self.lo
    }

    /// The highest place at which a part of the train may stand.
    pub fn hi(&self) -> u32
        ensures value { result ≡ self.now.hi }
        ensures sound { IsSound self.now }
    {
        self.hi
    }
}

/// Where a train may stand according to its position report (own rule). The length of the train is in units of 10 cm.
/// None if the report is packet 1, its balise group is not on the track, a distance or direction in it is unknown or
/// spare, or the estimated front of the train is not on the line.
pub fn place_of(track: &Track, position: &Position, length: u32) -> Option<Place>
    ensures place { result ≡ place_of_report track.now position.now length }
    ensures on_line { IfSome result (LiesOnLine track.now) }
    ensures sound { IfSome result IsSound }
{
    let group = track.group(position.lrbg)?;
    let end = track.line_len(u32::from(group.line))?;
    if !is_known(position) {
        return None;
    }
    let scale = position.scale;
    let side = way_of(group.nominal, position.side);
    let front = onward(side, end, group.at, in_units(scale, position.distance))?;
    let facing = way_of(group.nominal, position.dir);
    let ahead = onward_on_line(facing, end, front, in_units(scale, position.under));
    let reach_behind = in_units(scale, position.over).saturating_add(length);
    let behind = onward_on_line(back(facing), end, front, reach_behind);
    Some(Place {
        line: group.line,
        lrbg: position.lrbg,
        at: group.at,
        same: group.nominal == Way::Up,
        facing,
        lo: ahead.min(behind),
        hi: ahead.max(behind),
    })
}
