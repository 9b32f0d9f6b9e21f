//! The report of a train at a place.

ghost use Rattle.std.specs.Prelude.{◌≡◌, ℕ, ◌≤◌, ◌↔◌, IsTrue, IfOk, IfErr};
ghost use Rattle.rbc_place.specs.Reporting.{told_at, code_of, CanBeTold, IsLeastScale};
ghost use Rattle.rbc_place.specs.Reporting.{IsReportAt, IsNoReportAt, LeadsBack};

use crate::report::{UNKNOWN, unit_of};
use ertms_codec::Position;
use rbc_track::{Track, Way};

/// Why no report places a train at a place.
#[derive(Clone, Copy, Debug, PartialEq, Eq)]
pub enum NoReport {
    /// The track has no such line.
    NoLine,
    /// The line ends before the place.
    Beyond {
        /// The length of the line, in units of 10 cm.
        end: u32,
    },
    /// No balise group of the line stands at the place or behind it.
    NoGroup,
}

/// What a report tells in units of its scale.
#[derive(Clone, Copy)]
struct Told {
    /// D_LRBG: from the balise group to the estimated front of the train.
    distance: u32,
    /// L_DOUBTOVER: how far the train may be behind its estimated front.
    over: u32,
    /// L_DOUBTUNDER: how far the train may be beyond its estimated front.
    under: u32,
}

/// The position report, packet 0, of a train whose front is at a place of a line, with a doubt of at most 3,000,000
/// either way (own rule). It counts from the nearest balise group at the place or behind it, or of those at one place
/// from the one with the least number, at the least scale at which all its values can be told. What the scale rounds
/// off the distance is added to the doubt under. So [`place_of`](crate::place_of) gives an interval with the place in
/// it. Takes no memory.
///
/// # Errors
///
/// The first that applies, in the order of the variants of [`NoReport`].
pub fn report_at(
    track: &Track,
    line: u32,
    place: u32,
    facing: Way,
    doubt: u32,
) -> Result<Position, NoReport>
    requires { doubt ≤ 3000000 }
    ensures report { IfOk result (IsReportAt track.now line place facing doubt) }
    ensures leads_back { IfOk result (λ report. (length : ℕ) → LeadsBack track.now line place facing report length) }
    ensures none { IfErr result (IsNoReportAt track.now line place facing) }
{
    let end = track.line_len(line).ok_or(NoReport::NoLine)?;
    if place > end {
        return Err(NoReport::Beyond { end });
    }
    let behind = track.group_behind(line, place, facing);
    let (lrbg, group) = behind.ok_or(NoReport::NoGroup)?;
    let distance = place.abs_diff(group.at);
    let scale = least_scale(distance, doubt);
    let told = told_at(scale, distance, doubt);
    let code = code_of(group.nominal, facing);
    Ok(Position {
        previous: None,
        scale,
        lrbg,
        distance: told.distance as u16,
        dir: code,
        side: code,
        over: told.over as u16,
        under: told.under as u16,
    })
}

/// The least Q_SCALE at which a distance and a doubt can be told.
fn least_scale(distance: u32, doubt: u32) -> u8
    requires distance { distance ≤ 3000000 }
    requires doubt { doubt ≤ 3000000 }
    ensures { IsLeastScale distance doubt result }
{
    if can_be_told(told_at(0, distance, doubt)) {
        0
    } else if can_be_told(told_at(1, distance, doubt)) {
        1
    } else {
        2
    }
}

/// What a report tells at a scale.
fn told_at(scale: u8, distance: u32, doubt: u32) -> Told
    requires scale { scale ≤ 2 }
    requires doubt { doubt ≤ 3000000 }
    ensures { result ≡ told_at scale distance doubt }
{
    let unit = unit_of(scale);
    Told {
        distance: distance / unit,
        over: doubt.div_ceil(unit),
        under: (doubt + distance % unit).div_ceil(unit),
    }
}

/// Whether each value differs from the one that means "unknown".
fn can_be_told(told: Told) -> bool
    ensures { IsTrue result ↔ CanBeTold told }
{
    let unknown = u32::from(UNKNOWN);
    told.distance < unknown && told.over < unknown && told.under < unknown
}

/// The Q_DIRLRBG or Q_DLRBG of a direction at a balise group: 1 is its nominal direction, 0 the other one.
fn code_of(nominal: Way, way: Way) -> u8
    ensures { result ≡ code_of nominal way }
{
    u8::from(nominal == way)
}
