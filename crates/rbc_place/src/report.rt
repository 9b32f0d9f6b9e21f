//! The values of a position report, as seen from its balise group (SUBSET-026, chapter 7).

ghost use Rattle.std.specs.Prelude.{◌≡◌, ◌≤◌, ◌^◌};
ghost use Rattle.rbc_place.specs.Placing.{is_known, way_of, in_units};

use crate::line::back;
use ertms_codec::Position;
use rbc_track::Way;

/// An unknown distance: in D_LRBG, and by own rule in L_DOUBTOVER and L_DOUBTUNDER.
pub const UNKNOWN: u16 = 32_767;

/// Whether a report is enough to place a train: it is packet 0, no distance or direction is unknown, and no value is
/// spare.
pub fn is_known(position: &Position) -> bool
    ensures { result ≡ is_known position.now }
{
    position.previous.is_none()
        && position.scale <= 2
        && position.dir <= 1
        && position.side <= 1
        && position.distance < UNKNOWN
        && position.over < UNKNOWN
        && position.under < UNKNOWN
}

/// The direction that a Q_DIRLRBG or Q_DLRBG gives at a balise group: 1 is its nominal direction, 0 the other one.
pub fn way_of(nominal: Way, code: u8) -> Way
    ensures { result ≡ way_of nominal code }
{
    if code == 1 { nominal } else { back(nominal) }
}

/// A distance of a report in units of 10 cm, from its Q_SCALE, which is not spare.
pub fn in_units(scale: u8, distance: u16) -> u32
    requires { scale ≤ 2 }
    ensures { result ≡ in_units scale distance }
{
    u32::from(distance) * unit_of(scale)
}

/// The unit of a Q_SCALE, which is not spare, in units of 10 cm.
pub fn unit_of(scale: u8) -> u32
    requires { scale ≤ 2 }
    ensures value { result ≡ 10 ^ scale }
    ensures least { 1 ≤ result }
    ensures greatest { result ≤ 100 }
{
    match scale {
        0 => 1,
        1 => 10,
        _ => 100,
    }
}
