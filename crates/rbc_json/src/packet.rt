//! The packets of a message 24 as objects.

ghost use Rattle.std.specs.Prelude.{◌≡◌, ◌++◌, ◌∷◌, [], List, true, is_some, length};
ghost use Rattle.std.specs.Prelude.{IfOk, IfSome, OnOk, string_bytes};
ghost use Rattle.rbc_rule.specs.Saying.{Said, PacketSays};
ghost use Rattle.rbc_json.specs.Json.{Json, json_text, opened, closed};
ghost use Rattle.rbc_json.specs.Lists.{IsListOf, IsListText};
ghost use Rattle.rbc_json.specs.Packets.{ArePackets, IsOfPacket, IsStretchOf, IsRestriction, lesser, greater, place_of};
ghost use Rattle.rbc_json.specs.Packets.{restrict_object, stretch_fields, told_fields};

use crate::list::{ListText, element};
use crate::shapes::NullValue;
use crate::why::{RevokedObject, ToldObject};
use ertms_codec::{Packets, Part};
use rbc_account::{RestrictionTold, ToldRestriction, WhyRevoked, WhyTold};
use rbc_explain::{Spoken, Spot, spoken_by_packet};
use rbc_track::Track;
use rbc_zones::Segment;
use std::alloc::{AllocError, Global};
use std::fmt;

// NID_PACKET of the packets of message 24 (SUBSET-026, 7.4.2).
const RESTRICT: u8 = 65;

const LIFT: u8 = 66;

/// Packet 65: a speed in km/h on a stretch of a line, in units of 10 cm, and why.
#[derive(Clone, Copy)]
struct RestrictPacket {
    number: u32,
    id: u8,
    told: StretchTold,
    unit: u32,
    segment: Segment,
    why: WhyTold,
}

/// The object of a packet 65.
fn restrict_text(alloc: Global, packet: &RestrictPacket) -> Result<String, AllocError>
    ensures { IfOk result (λ text. string_bytes text ≡ json_text (restrict_object packet.now)) }
{
    let front = restrict_front(alloc, packet)?;
    let rest = restrict_rest(alloc, packet)?;
    format!(in alloc; "{front}{rest}")
}

/// How the object of a packet 65 begins.
fn restrict_front(alloc: Global, packet: &RestrictPacket) -> Result<String, AllocError>
    ensures { IfOk result (λ text. string_bytes text ≡ opened (stretch_fields packet.now)) }
{
    let (number, id, line) = (packet.number, packet.id, packet.told.line);
    format!(in alloc;
        "{{\"packet\":{RESTRICT},\"restriction\":{number},\"identifier\":{id},\"line\":{line}"
    )
}

/// How it ends.
fn restrict_rest(alloc: Global, packet: &RestrictPacket) -> Result<String, AllocError>
    ensures { IfOk result (λ text. string_bytes text ≡ closed (told_fields packet.now)) }
{
    let StretchTold {
        from,
        to,
        speed,
        ..
    } = packet.told;
    let (unit, segment, why) = (packet.unit, packet.segment, packet.why);
    let why = ToldObject { segment, why };
    format!(in alloc;
        ",\"from\":{from},\"to\":{to},\"speed\":{speed},\"step\":{unit},\"why\":{why}}}"
    )
}

/// Packet 66, and why.
#[derive(Clone, Copy)]
struct LiftObject {
    number: u32,
    id: u8,
    why: WhyRevoked,
}

impl fmt::Display for LiftObject {
    ghost use Rattle.std.specs.Prelude.{Some};
    ghost use Rattle.rbc_json.specs.Json.{json_text};
    ghost use Rattle.rbc_json.specs.Packets.{lift_object};

    ghost output = { λ shown. Some (json_text (lift_object shown.number shown.id shown.why)) };

    fn fmt<W: fmt::Write>(&self, f: &mut fmt::Formatter<W>) -> fmt::Result {
        let (number, id, why) = (self.number, self.id, RevokedObject(self.why));
        write!(
            f,
            "{{\"packet\":{LIFT},\"restriction\":{number},\"identifier\":{id},\"why\":{why}}}"
        )
    }
}

/// The list of the packets of a message that names a balise group, each with what is told of it.
pub(crate) fn packets_text(
    alloc: Global,
    track: &Track,
    lrbg: u32,
    packets: &Packets,
    all: &[ToldRestriction],
) -> Result<String, AllocError>
    requires { length all.now ≡ length packets.now }
    ensures { IfOk result (λ text. IsListText (ArePackets track.now lrbg packets.now all.now) (string_bytes text)) }
{
    let mut list = ListText::new(alloc)?;
    for index in 0..packets.count() {
        push_packet(
            alloc,
            &mut list,
            track,
            lrbg,
            packets.at(index),
            element(all, index),
        )?;
    }
    list.ended()
}

/// Adds a packet with what is told of it. For a packet that says nothing it adds `null`; none of a run is such a one.
fn push_packet(
    alloc: Global,
    list: &mut ListText,
    track: &Track,
    lrbg: u32,
    packet: Part,
    one: ToldRestriction,
) -> Result<(), AllocError>
    ensures { (values : List Json) → IsListOf values list.old → OnOk result ((value : Json)
        × IsListOf (values ++ value ∷ []) list.new
        × IsOfPacket track.now lrbg packet one value) }
{
    match packet {
        Part::Restrict { id, .. } => match one.what {
            RestrictionTold::Told {
                segment,
                unit,
                why,
                ..
            } => match stretch_told(track, lrbg, &packet) {
                Some(told) => {
                    let packet = RestrictPacket {
                        number: one.number,
                        id,
                        told,
                        unit,
                        segment,
                        why,
                    };
                    let text = restrict_text(alloc, &packet)?;
                    list.add(&text)
                }
                None => list.add(&NullValue),
            },
            RestrictionTold::Revoked(_) => list.add(&NullValue),
            RestrictionTold::Unknown => list.add(&NullValue),
        },
        Part::Lift { id, .. } => match one.what {
            RestrictionTold::Revoked(why) => list.add(&LiftObject {
                number: one.number,
                id,
                why,
            }),
            RestrictionTold::Told { .. } => list.add(&NullValue),
            RestrictionTold::Unknown => list.add(&NullValue),
        },
    }
}

/// A speed in km/h on a stretch of a line, in units of 10 cm, whichever way the train faces.
#[derive(Clone, Copy)]
struct StretchTold {
    line: u32,
    from: i64,
    to: i64,
    speed: u32,
}

/// What a packet 65 tells, if it tells a stretch of the track.
fn stretch_told(track: &Track, lrbg: u32, packet: &Part) -> Option<StretchTold>
    ensures is { IfSome result (IsStretchOf track.now lrbg packet.now) }
    ensures all { (said : Said) → PacketSays track.now lrbg packet.now said → IsRestriction said
        → is_some result ≡ true }
{
    match spoken_by_packet(track, lrbg, packet) {
        Some(
            Spoken::Restriction {
                line,
                from,
                to,
                speed,
            },
        ) => {
            let (from, to) = (place_of(from), place_of(to));
            Some(StretchTold {
                line,
                from: lesser(from, to),
                to: greater(from, to),
                speed,
            })
        }
        Some(Spoken::StopAtOnce) => None,
        Some(Spoken::StopBefore { .. }) => None,
        Some(Spoken::StopRevoked) => None,
        Some(Spoken::IdentifierRevoked { .. }) => None,
        Some(Spoken::RestrictionRevoked) => None,
        None => None,
    }
}

/// The place of a spot, in units of 10 cm from the beginning of its line.
fn place_of(spot: Spot) -> i64
    ensures { result ≡ place_of spot }
{
    let units = i64::from(spot.units);
    if spot.is_before { -units } else { units }
}

/// The lesser of two numbers.
fn lesser(one: i64, other: i64) -> i64
    ensures { result ≡ lesser one other }
{
    if one <= other { one } else { other }
}

/// The greater of two numbers.
fn greater(one: i64, other: i64) -> i64
    ensures { result ≡ greater one other }
{
    if one <= other { other } else { one }
}
