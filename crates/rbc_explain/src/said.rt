//! What a message says to a train, from its own variables back to places on the track (SUBSET-026, 7.5 and 8).

ghost use Rattle.std.specs.Prelude.{◌≡◌, ◌≤◌, ◌<◌, ◌*◌, ℕ, [], ◌∷◌, true, is_some, IfSome};
ghost use Rattle.rbc_track.specs.Plan.{group_of, max_length};
ghost use Rattle.rbc_track.specs.declared.group.Way.{Way};
ghost use Rattle.rbc_rule.specs.Saying.{CountsFrom, IsSpotTold, IsStretchTold, PacketSays, Says};
ghost use Rattle.rbc_rule.specs.Saying as rule;
ghost use Rattle.rbc_explain.specs.Said.{IsSpokenBy, IsSpokenByPacket, IsSpotAhead, IsOriginOf, IsStopBefore};
ghost use Rattle.rbc_explain.specs.Said.{IsRestriction, IsOnStop, IsRevokedAs};

use ertms_codec::{Part, ToTrain};
use rbc_account::{unit_told, way_told};
use rbc_track::{Group, Track, Way};
use rbc_words::Km;
use std::fmt;

/// Q_DIR of the revocation of a restriction: it holds both ways.
const BOTH_WAYS: u8 = 2;

/// A place on a line, or one that lies so far before its beginning, in units of 10 cm: what is told of a restriction is
/// rounded outwards.
#[derive(Clone, Copy)]
pub struct Spot {
    /// Whether it lies before the beginning of the line.
    pub is_before: bool,
    /// How far it is from the beginning.
    pub units: u32,
}

impl fmt::Display for Spot {
    ghost use Rattle.std.specs.Prelude.{Some};
    ghost use Rattle.rbc_explain.specs.Sentences.{spot_text};

    ghost output = { λ spot. Some (spot_text spot) };

    fn fmt<W: fmt::Write>(&self, f: &mut fmt::Formatter<W>) -> fmt::Result {
        let km = Km(self.units);
        if self.is_before {
            return write!(f, "-{km}");
        }
        write!(f, "{km}")
    }
}

/// What a message, or a packet of one, says of a stop or a restriction. Places are in units of 10 cm.
#[derive(Clone, Copy)]
pub enum Spoken {
    /// To stop at once.
    StopAtOnce,
    /// To stop before a place of a line.
    StopBefore {
        line: u32,
        place: u32,
    },
    /// The stop is revoked.
    StopRevoked,
    /// An identifier is revoked, whose stop is still active.
    IdentifierRevoked {
        id: u8,
    },
    /// A speed in km/h, from a place of a line to another, in the order in which the train meets them.
    Restriction {
        line: u32,
        from: Spot,
        to: Spot,
        speed: u32,
    },
    /// The restriction is revoked.
    RestrictionRevoked,
}

impl fmt::Display for Spoken {
    ghost use Rattle.std.specs.Prelude.{Some};
    ghost use Rattle.rbc_explain.specs.Sentences.{spoken_text};

    ghost output = { λ spoken. Some (spoken_text spoken) };

    fn fmt<W: fmt::Write>(&self, f: &mut fmt::Formatter<W>) -> fmt::Result {
        match self {
            Spoken::StopAtOnce => write!(f, "stop at once."),
            Spoken::StopBefore { line, place } => {
                let km = Km(*place);
                write!(f, "stop before km {km} of line {line}.")
            }
            Spoken::StopRevoked => write!(f, "the stop is revoked."),
            Spoken::IdentifierRevoked { id } => write!(f, "identifier {id} is revoked."),
            Spoken::Restriction {
                line,
                from,
                to,
                speed,
            } => write!(f, "{speed} km/h, km {from} to km {to} of line {line}."),
            Spoken::RestrictionRevoked => write!(f, "the restriction is revoked."),
        }
    }
}

/// What the distances of a message count from: a place of a line, one way on, in units of 10 cm, 1 m or 10 m.
#[derive(Clone, Copy)]
struct Origin {
    line: u32,
    at: u32,
    way: Way,
    unit: u32,
}

/// What distances count from, if the message names a balise group of the track and its direction and unit are known.
fn origin_of(track: &Track, lrbg: u32, dir: u8, scale: u8) -> Option<Origin>
    ensures counts { IfSome result (IsOriginOf track.now lrbg dir scale) }
    ensures few { IfSome result (λ origin. (origin.unit ≤ 100) × (origin.at ≤ max_length)) }
    ensures all { (line at : ℕ) (way : Way) (unit : ℕ) → CountsFrom track.now lrbg dir scale line at way unit
        → is_some result ≡ true }
{
    let group = group_in(track, lrbg)?;
    let way = way_told(group.nominal, dir)?;
    let unit = unit_told(scale)?;
    Some(Origin {
        line: u32::from(group.line),
        at: group.at,
        way,
        unit,
    })
}

/// The balise group of this number. It stands on a line, of which none is longer than 300 km.
fn group_in(track: &Track, lrbg: u32) -> Option<Group>
    ensures is { result ≡ group_of track.now lrbg }
    ensures near { IfSome result (λ group. group.at ≤ max_length) }
{
    let _horizon = track.horizon();
    track.group(lrbg)
}

/// The place that lies this many units ahead of an origin, which may be before the beginning of the line.
fn spot_ahead(origin: &Origin, units: u32) -> Spot
    requires { (origin.now.unit ≤ 100) × (origin.now.at ≤ max_length) × (units ≤ 131070) }
    ensures ahead { IsSpotAhead origin.now.way origin.now.at (units * origin.now.unit) result.is_before result.units }
    ensures behind { result.is_before ≡ true → origin.now.at < units * origin.now.unit }
{
    let by = units * origin.unit;
    match origin.way {
        Way::Up => Spot {
            is_before: false,
            units: origin.at + by,
        },
        Way::Down if by <= origin.at => Spot {
            is_before: false,
            units: origin.at - by,
        },
        Way::Down => Spot {
            is_before: true,
            units: by - origin.at,
        },
    }
}

/// To stop before the place that lies this many units ahead, if it is on a line.
fn stop_before(track: &Track, lrbg: u32, dir: u8, scale: u8, distance: u16) -> Option<Spoken>
    ensures is { IfSome result (IsStopBefore track.now lrbg dir scale distance) }
    ensures all { (spot : rule.Spot) → IsSpotTold track.now lrbg dir scale distance spot → is_some result ≡ true }
{
    let origin = origin_of(track, lrbg, dir, scale)?;
    let spot = spot_ahead(&origin, u32::from(distance));
    if spot.is_before {
        return None;
    }
    Some(Spoken::StopBefore {
        line: origin.line,
        place: spot.units,
    })
}

/// What a message on a stop says. If the stop is escalated, its identifier is revoked, else the stop itself. `None` if
/// the message is not on a stop, or tells no place of the track.
pub fn spoken_by(track: &Track, message: &ToTrain, is_escalated: bool) -> Option<Spoken>
    ensures is { IfSome result (IsSpokenBy track.now message.now) }
    ensures revoked { IfSome result (IsRevokedAs is_escalated) }
    ensures all { (said : rule.Said) → IsOnStop said → Says track.now message.now (said ∷ []) → is_some result ≡ true }
{
    match message {
        ToTrain::StopAt {
            head,
            scale,
            reference,
            dir,
            distance,
            ..
        } => {
            if *reference != 0 {
                return None;
            }
            stop_before(track, head.lrbg, *dir, *scale, *distance)
        }
        ToTrain::Stop { .. } => Some(Spoken::StopAtOnce),
        ToTrain::Revoke { id, .. } => Some(if is_escalated {
            Spoken::IdentifierRevoked { id: *id }
        } else {
            Spoken::StopRevoked
        }),
        ToTrain::General { .. } => None,
    }
}

/// The restriction that begins this many units ahead and is this many units long. The speed is in units of 5 km/h.
fn restriction(
    track: &Track,
    lrbg: u32,
    dir: u8,
    scale: u8,
    start: u16,
    length: u16,
    speed: u8,
) -> Option<Spoken>
    ensures is { IfSome result (IsRestriction track.now lrbg dir scale start length (5 * speed)) }
    ensures all { (stretch : rule.Stretch) → IsStretchTold track.now lrbg dir scale start length stretch
        → is_some result ≡ true }
{
    let origin = origin_of(track, lrbg, dir, scale)?;
    let from = spot_ahead(&origin, u32::from(start));
    let to = spot_ahead(&origin, u32::from(start) + u32::from(length));
    Some(Spoken::Restriction {
        line: origin.line,
        from,
        to,
        speed: 5 * u32::from(speed),
    })
}

/// What a packet says in a message that names a balise group. `None` if it tells no place of the track.
pub fn spoken_by_packet(track: &Track, lrbg: u32, packet: &Part) -> Option<Spoken>
    ensures is { IfSome result (IsSpokenByPacket track.now lrbg packet.now) }
    ensures all { (said : rule.Said) → PacketSays track.now lrbg packet.now said → is_some result ≡ true }
{
    match packet {
        Part::Restrict {
            dir,
            scale,
            start,
            length,
            speed,
            ..
        } => restriction(track, lrbg, *dir, *scale, *start, *length, *speed),
        Part::Lift { dir, .. } => {
            if *dir != BOTH_WAYS {
                return None;
            }
            Some(Spoken::RestrictionRevoked)
        }
    }
}
