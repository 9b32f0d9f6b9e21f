//! A message to a train as an object: what it says, and why it was sent.

ghost use Rattle.std.specs.Prelude.{◌≡◌, ◌∷◌, [], List, true, is_some, length, IfOk, IfSome, string_bytes};
ghost use Rattle.ertms_codec.specs.ToTrain.{Fits};
ghost use Rattle.rbc_rule.specs.Saying.{Said, Says};
ghost use Rattle.rbc_explain.specs.Said.{IsSpokenBy};
ghost use Rattle.rbc_explain.specs.declared.said.Spoken.TheVariants.{StopBefore};
ghost use Rattle.rbc_json.specs.Json.{Json, json_text, array, opened, middle, closed};
ghost use Rattle.rbc_json.specs.Lists.{IsTextOf};
ghost use Rattle.rbc_json.specs.Messages.{IsBefore, hex_value, place_in};
ghost use Rattle.rbc_json.specs.Messages.{message_fields, stop_fields, stamp_fields, before_fields};
ghost use Rattle.rbc_json.specs.Messages.{why_fields, packed_fields};
ghost use Rattle.rbc_json.specs.Messages.{IsOfStopAt, IsOfStop, IsOfRevoke, IsOfGeneral, IsOfSent};
ghost use Rattle.rbc_json.specs.Messages.{before_object, stop_object, revoke_object, general_object};
ghost use Rattle.rbc_json.specs.Packets.{ArePackets};
ghost use Rattle.rbc_json.specs.Reasons.{edge_object, at_once_object, stop_revoked_object};

use crate::packet::packets_text;
use crate::shapes::PlaceOrNull;
use crate::text::{null_text, quoted_bytes};
use crate::why::{AtOnceObject, EdgeObject, StopRevokedObject};
use ertms_codec::{Head, Packets, ToTrain, write_to_train};
use hex::encode_upper;
use rbc_account::{Told, ToldRestriction, ToldWhat, WhyAtOnce};
use rbc_explain::{Spoken, spoken_by};
use rbc_place::Place;
use rbc_settle::Sent;
use rbc_track::Track;
use std::alloc::{AllocError, Global};

// NID_MESSAGE of the messages to a train, and of those that answer them (SUBSET-026, 8.7).
const STOP_AT: u8 = 15;

const STOP: u8 = 16;

const REVOKE: u8 = 18;

const GENERAL: u8 = 24;

const ACK: u8 = 146;

const STOP_ACK: u8 = 147;

/// The object of a message that an input sent. For a message that says nothing, or that no record accounts for, it is
/// `null`; none of a run is such a one.
pub(crate) fn message_text(
    alloc: Global,
    track: &Track,
    input: u64,
    sent: &Sent,
    told: &Told,
) -> Result<String, AllocError>
    requires { Fits sent.now.message }
    ensures { IfOk result (λ text. IsTextOf (IsOfSent track.now input sent.now told.now) (string_bytes text)) }
{
    let hex = hex_text(alloc, &sent.message)?;
    let of = MessageOf {
        input,
        engine: sent.engine,
        place: told.place,
        hex: hex.as_str(),
    };
    match &sent.message {
        ToTrain::StopAt { head, id, .. } => {
            stop_at_text(alloc, track, &of, &sent.message, *head, *id, &told.what)
        }
        ToTrain::Stop { head, id } => at_once_text(alloc, &of, *head, *id, &told.what),
        ToTrain::Revoke { head, id } => revoked_text(alloc, &of, *head, *id, &told.what),
        ToTrain::General { head, packets } => {
            packed_text(alloc, track, &of, *head, packets, &told.what)
        }
    }
}

/// The object of message 15, with what is told of it.
fn stop_at_text(
    alloc: Global,
    track: &Track,
    of: &MessageOf<'_>,
    message: &ToTrain,
    head: Head,
    id: u8,
    what: &ToldWhat,
) -> Result<String, AllocError>
    ensures { (hex : Json) → of.now.hex.now ≡ json_text hex → IfOk result (λ text. IsTextOf (IsOfStopAt track.now
        of.now.input of.now.engine of.now.place hex message.now head id what.now) (string_bytes text)) }
{
    match what {
        ToldWhat::StopBefore {
            number,
            edge,
            unit,
            ..
        } => match place_told(track, message) {
            Some(before) => before_text(alloc, of, head, id, *number, before, *edge, *unit),
            None => null_text(alloc),
        },
        ToldWhat::StopAtOnce { .. } => null_text(alloc),
        ToldWhat::StopRevoked { .. } => null_text(alloc),
        ToldWhat::Restrictions(_) => null_text(alloc),
        ToldWhat::Unknown => null_text(alloc),
    }
}

/// The object of message 16, with what is told of it.
fn at_once_text(
    alloc: Global,
    of: &MessageOf<'_>,
    head: Head,
    id: u8,
    what: &ToldWhat,
) -> Result<String, AllocError>
    ensures { (hex : Json) → of.now.hex.now ≡ json_text hex → IfOk result (λ text. IsTextOf (IsOfStop
        of.now.input of.now.engine of.now.place hex head id what.now) (string_bytes text)) }
{
    match what {
        ToldWhat::StopAtOnce { number, why } => stop_text(alloc, of, head, id, *number, *why),
        ToldWhat::StopBefore { .. } => null_text(alloc),
        ToldWhat::StopRevoked { .. } => null_text(alloc),
        ToldWhat::Restrictions(_) => null_text(alloc),
        ToldWhat::Unknown => null_text(alloc),
    }
}

/// The object of message 18, with what is told of it.
fn revoked_text(
    alloc: Global,
    of: &MessageOf<'_>,
    head: Head,
    id: u8,
    what: &ToldWhat,
) -> Result<String, AllocError>
    ensures { (hex : Json) → of.now.hex.now ≡ json_text hex → IfOk result (λ text. IsTextOf (IsOfRevoke
        of.now.input of.now.engine of.now.place hex head id what.now) (string_bytes text)) }
{
    match what {
        ToldWhat::StopRevoked { number, unanswered } => {
            revoke_text(alloc, of, head, id, *number, *unanswered)
        }
        ToldWhat::StopBefore { .. } => null_text(alloc),
        ToldWhat::StopAtOnce { .. } => null_text(alloc),
        ToldWhat::Restrictions(_) => null_text(alloc),
        ToldWhat::Unknown => null_text(alloc),
    }
}

/// The object of message 24, with what is told of it.
fn packed_text(
    alloc: Global,
    track: &Track,
    of: &MessageOf<'_>,
    head: Head,
    packets: &Packets,
    what: &ToldWhat,
) -> Result<String, AllocError>
    ensures { (hex : Json) → of.now.hex.now ≡ json_text hex → IfOk result (λ text. IsTextOf (IsOfGeneral track.now
        of.now.input of.now.engine of.now.place hex head packets.now what.now) (string_bytes text)) }
{
    match what {
        ToldWhat::Restrictions(all) => {
            if all.len() == packets.count() {
                general_text(alloc, track, of, head, packets, all)
            } else {
                null_text(alloc)
            }
        }
        ToldWhat::StopBefore { .. } => null_text(alloc),
        ToldWhat::StopAtOnce { .. } => null_text(alloc),
        ToldWhat::StopRevoked { .. } => null_text(alloc),
        ToldWhat::Unknown => null_text(alloc),
    }
}

/// What the objects of all messages have.
#[derive(Clone, Copy)]
struct MessageOf<'a> {
    input: u64,
    engine: u32,
    /// Where the train may be after the input.
    place: Option<Place>,
    /// The bytes of the message in hexadecimal digits, between quotation marks.
    hex: &'a str,
}

/// The bytes of a message in hexadecimal digits, between quotation marks.
fn hex_text(alloc: Global, message: &ToTrain) -> Result<String, AllocError>
    requires { Fits message.now }
    ensures { IfOk result (λ text. string_bytes text ≡ json_text (hex_value message.now)) }
{
    let mut buffer = [0u8; 1024];
    let used = write_to_train(message, &mut buffer);
    let digits = encode_upper(alloc, &buffer[..used])?;
    quoted_bytes(alloc, digits.as_bytes())
}

/// A place of a line, in units of 10 cm.
#[derive(Clone, Copy)]
struct PlaceTold {
    line: u32,
    at: u32,
}

/// The place before which a message tells a train to stop, if it tells a place of the track.
fn place_told(track: &Track, message: &ToTrain) -> Option<PlaceTold>
    ensures is { IfSome result (λ told. IsSpokenBy track.now message.now (StopBefore told.line told.at)) }
    ensures all { (said : Said) → IsBefore said → Says track.now message.now (said ∷ []) → is_some result ≡ true }
{
    match spoken_by(track, message, false) {
        Some(said) => place_in(said),
        None => None,
    }
}

/// The place in what a message says, if it says one.
fn place_in(said: Spoken) -> Option<PlaceTold>
    ensures { result ≡ place_in said }
{
    match said {
        Spoken::StopBefore { line, place } => Some(PlaceTold { line, at: place }),
        Spoken::StopAtOnce => None,
        Spoken::StopRevoked => None,
        Spoken::IdentifierRevoked { .. } => None,
        Spoken::Restriction { .. } => None,
        Spoken::RestrictionRevoked => None,
    }
}

/// How the object of a message on a stop begins.
fn stop_front(
    alloc: Global,
    of: &MessageOf<'_>,
    message: u8,
    number: u32,
    id: u8,
) -> Result<String, AllocError>
    ensures { IfOk result (λ text. string_bytes text
        ≡ opened (stop_fields of.now.input of.now.engine message number id)) }
{
    let (input, engine) = (of.input, of.engine);
    format!(in alloc;
        "{{\"input\":{input},\"engine\":{engine},\"message\":{message},\"stop\":{number},\"identifier\":{id}"
    )
}

/// The stamp of a message, and which message from the train acknowledges it.
fn stamp_text(alloc: Global, head: Head, answer: u8) -> Result<String, AllocError>
    ensures { IfOk result (λ text. string_bytes text ≡ middle (stamp_fields head.stamp answer)) }
{
    let stamp = head.stamp;
    format!(in alloc; ",\"stamp\":{stamp},\"acknowledged_by\":{answer}")
}

/// The place before which a train has to stop.
fn place_text(alloc: Global, before: PlaceTold, unit: u32) -> Result<String, AllocError>
    ensures { IfOk result (λ text. string_bytes text ≡ middle (before_fields before.line before.at unit)) }
{
    let PlaceTold { line, at } = before;
    format!(in alloc; ",\"line\":{line},\"before\":{at},\"step\":{unit}")
}

/// How the object of a message on a stop ends: where the train is, why the message was sent, and its bytes.
fn why_text(alloc: Global, of: &MessageOf<'_>, why: &str) -> Result<String, AllocError>
    ensures { (reason hex : Json) → why.now ≡ json_text reason → of.now.hex.now ≡ json_text hex
        → IfOk result (λ text. string_bytes text ≡ closed (why_fields of.now.place reason hex)) }
{
    let (there, hex) = (PlaceOrNull(of.place), of.hex);
    format!(in alloc; ",\"place\":{there},\"why\":{why},\"hex\":{hex}}}")
}

/// The object of message 15.
fn before_text(
    alloc: Global,
    of: &MessageOf<'_>,
    head: Head,
    id: u8,
    number: u32,
    before: PlaceTold,
    edge: u32,
    unit: u32,
) -> Result<String, AllocError>
    ensures { (hex : Json) → of.now.hex.now ≡ json_text hex → IfOk result (λ text. string_bytes text ≡ json_text
        (before_object of.now.input of.now.engine of.now.place hex head id number before.line before.at edge unit)) }
{
    let front = stop_front(alloc, of, STOP_AT, number, id)?;
    let stamp = stamp_text(alloc, head, STOP_ACK)?;
    let place = place_text(alloc, before, unit)?;
    let reason = edge_text(alloc, edge)?;
    let why = why_text(alloc, of, reason.as_str())?;
    format!(in alloc; "{front}{stamp}{place}{why}")
}

/// Why a train is told to stop before a place.
fn edge_text(alloc: Global, edge: u32) -> Result<String, AllocError>
    ensures { IfOk result (λ text. string_bytes text ≡ json_text (edge_object edge)) }
{
    let edge = EdgeObject(edge);
    format!(in alloc; "{edge}")
}

/// The object of message 16.
fn stop_text(
    alloc: Global,
    of: &MessageOf<'_>,
    head: Head,
    id: u8,
    number: u32,
    why: WhyAtOnce,
) -> Result<String, AllocError>
    ensures { (hex : Json) → of.now.hex.now ≡ json_text hex → IfOk result (λ text. string_bytes text ≡ json_text
        (stop_object of.now.input of.now.engine of.now.place hex head id number why)) }
{
    let front = stop_front(alloc, of, STOP, number, id)?;
    let stamp = stamp_text(alloc, head, STOP_ACK)?;
    let reason = at_once_reason(alloc, why)?;
    let why = why_text(alloc, of, reason.as_str())?;
    format!(in alloc; "{front}{stamp}{why}")
}

/// Why a train is told to stop at once.
fn at_once_reason(alloc: Global, why: WhyAtOnce) -> Result<String, AllocError>
    ensures { IfOk result (λ text. string_bytes text ≡ json_text (at_once_object why)) }
{
    let why = AtOnceObject(why);
    format!(in alloc; "{why}")
}

/// The object of message 18.
fn revoke_text(
    alloc: Global,
    of: &MessageOf<'_>,
    head: Head,
    id: u8,
    number: u32,
    unanswered: bool,
) -> Result<String, AllocError>
    ensures { (hex : Json) → of.now.hex.now ≡ json_text hex → IfOk result (λ text. string_bytes text ≡ json_text
        (revoke_object of.now.input of.now.engine of.now.place hex head id number unanswered)) }
{
    let front = stop_front(alloc, of, REVOKE, number, id)?;
    let stamp = stamp_text(alloc, head, ACK)?;
    let reason = revoked_reason(alloc, id, unanswered)?;
    let why = why_text(alloc, of, reason.as_str())?;
    format!(in alloc; "{front}{stamp}{why}")
}

/// Why a stop is revoked.
fn revoked_reason(alloc: Global, id: u8, unanswered: bool) -> Result<String, AllocError>
    ensures { IfOk result (λ text. string_bytes text ≡ json_text (stop_revoked_object id unanswered)) }
{
    let why = StopRevokedObject { id, unanswered };
    format!(in alloc; "{why}")
}

/// The object of message 24.
fn general_text(
    alloc: Global,
    track: &Track,
    of: &MessageOf<'_>,
    head: Head,
    packets: &Packets,
    all: &[ToldRestriction],
) -> Result<String, AllocError>
    requires { length all.now ≡ length packets.now }
    ensures { (hex : Json) → of.now.hex.now ≡ json_text hex → IfOk result (λ text. (values : List Json)
        × ArePackets track.now head.lrbg packets.now all.now values × (string_bytes text ≡ json_text
        (general_object of.now.input of.now.engine of.now.place hex head values))) }
{
    let packets = packets_text(alloc, track, head.lrbg, packets, all)?;
    let front = general_front(alloc, of)?;
    let stamp = stamp_text(alloc, head, ACK)?;
    let packed = packed_end(alloc, of, packets.as_str())?;
    format!(in alloc; "{front}{stamp}{packed}")
}

/// How the object of a message 24 begins.
fn general_front(alloc: Global, of: &MessageOf<'_>) -> Result<String, AllocError>
    ensures { IfOk result (λ text. string_bytes text
        ≡ opened (message_fields of.now.input of.now.engine 24)) }
{
    let (input, engine) = (of.input, of.engine);
    format!(in alloc; "{{\"input\":{input},\"engine\":{engine},\"message\":{GENERAL}")
}

/// How it ends: where the train is, the packets, and the bytes of the message.
fn packed_end(alloc: Global, of: &MessageOf<'_>, packets: &str) -> Result<String, AllocError>
    ensures { (values : List Json) (hex : Json) → packets.now ≡ json_text (array values)
        → of.now.hex.now ≡ json_text hex
        → IfOk result (λ text. string_bytes text ≡ closed (packed_fields of.now.place values hex)) }
{
    let (there, hex) = (PlaceOrNull(of.place), of.hex);
    format!(in alloc; ",\"place\":{there},\"packets\":{packets},\"hex\":{hex}}}")
}
