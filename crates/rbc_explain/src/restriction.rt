//! A message on restrictions in words: what each packet says, and why.

ghost use Rattle.std.specs.Prelude.{◌≡◌, ◌<◌, length, slice_get, Some, OnOk};
ghost use Rattle.rbc_explain.specs.Said.{IsRestrictionSentence, IsPacketSentence};
ghost use Rattle.rbc_explain.specs.Reasons.{packet_text, single_text};
ghost use Rattle.rbc_explain.specs.Telling.{IsSaidOn, TellsEach, TellsPacket, TellsPacketWhy, TellsRestrictions};

use crate::log::push_words;
use crate::packet_reason::{packet_text, several_text, single_text};
use crate::said::spoken_by_packet;
use crate::sentence::{packet_sentence, restriction_sentence};
use ertms_codec::{Head, Packets, Part, ToTrain};
use rbc_account::ToldRestriction;
use rbc_place::Place;
use rbc_settle::Sent;
use rbc_track::Track;
use std::alloc::{AllocError, Global};

/// Adds what a message 24 says, and why each of its packets was sent.
pub(crate) fn push_restrictions(
    alloc: Global,
    log: &mut Vec<u8>,
    track: &Track,
    sent: &Sent,
    place: &Option<Place>,
    all: &[ToldRestriction],
) -> Result<(), AllocError>
    ensures { OnOk result (IsSaidOn
        (TellsRestrictions track.now sent.now.engine sent.now.message place.now all.now)
        log.old.items log.new.items) }
{
    let ToTrain::General { head, packets } = &sent.message else {
        return Ok(());
    };
    if packets.count() > 1 {
        let several = several_text(alloc, sent.engine, *head, packets.count(), place)?;
        push_words(log, several.as_bytes())?;
        return push_each(alloc, log, track, head.lrbg, packets, place, all);
    }
    match all.first() {
        Some(one) => {
            let packet = packets.at(0);
            push_single(alloc, log, track, sent.engine, *head, &packet, place, one)
        }
        None => Ok(()),
    }
}

/// Adds what each of several packets says, and why.
fn push_each(
    alloc: Global,
    log: &mut Vec<u8>,
    track: &Track,
    lrbg: u32,
    packets: &Packets,
    place: &Option<Place>,
    all: &[ToldRestriction],
) -> Result<(), AllocError>
    ensures { OnOk result (IsSaidOn (TellsEach track.now lrbg place.now packets.now all.now)
        log.old.items log.new.items) }
{
    for index in 0..all.len() {
        if index >= packets.count() {
            return Ok(());
        }
        let packet = packets.at(index);
        push_packet(alloc, log, track, lrbg, &packet, place, one_of(all, index))?;
    }
    Ok(())
}

/// What is told of the packet at an index.
fn one_of(all: &[ToldRestriction], index: usize) -> &ToldRestriction
    requires { index < length all.now }
    ensures { slice_get all.now index ≡ Some result.now }
{
    &all[index]
}

/// Adds what one of several packets says, its kind and identifier, and why it was sent.
fn push_packet(
    alloc: Global,
    log: &mut Vec<u8>,
    track: &Track,
    lrbg: u32,
    packet: &Part,
    place: &Option<Place>,
    one: &ToldRestriction,
) -> Result<(), AllocError>
    ensures { OnOk result (IsSaidOn (TellsPacketWhy track.now lrbg packet.now
        (IsPacketSentence track.now lrbg one.now.number packet.now) (packet_text packet.now place.now one.now))
        log.old.items log.new.items) }
{
    push_packet_sentence(alloc, log, track, lrbg, packet, one.number)?;
    let reason = packet_text(alloc, packet, place, one)?;
    push_words(log, reason.as_bytes())
}

/// Adds the sentence on one of several packets, on the restriction of this number, from what the packet says.
fn push_packet_sentence(
    alloc: Global,
    log: &mut Vec<u8>,
    track: &Track,
    lrbg: u32,
    packet: &Part,
    number: u32,
) -> Result<(), AllocError>
    ensures { OnOk result (IsSaidOn (TellsPacket track.now lrbg packet.now
        (IsPacketSentence track.now lrbg number packet.now)) log.old.items log.new.items) }
{
    match spoken_by_packet(track, lrbg, packet) {
        Some(said) => {
            let sentence = packet_sentence(alloc, number, &said)?;
            log.extend_from_slice(sentence.as_bytes())
        }
        None => Ok(()),
    }
}

/// Adds what a message with one packet says, and why it was sent.
fn push_single(
    alloc: Global,
    log: &mut Vec<u8>,
    track: &Track,
    engine: u32,
    head: Head,
    packet: &Part,
    place: &Option<Place>,
    one: &ToldRestriction,
) -> Result<(), AllocError>
    ensures { OnOk result (IsSaidOn (TellsPacketWhy track.now head.lrbg packet.now
        (IsRestrictionSentence track.now head.lrbg engine one.now.number packet.now)
        (single_text head packet.now place.now one.now)) log.old.items log.new.items) }
{
    push_restriction_sentence(alloc, log, track, engine, head.lrbg, packet, one.number)?;
    let reason = single_text(alloc, head, packet, place, one)?;
    push_words(log, reason.as_bytes())
}

/// Adds the sentence on a message of one packet, on the restriction of this number, from what the packet says.
fn push_restriction_sentence(
    alloc: Global,
    log: &mut Vec<u8>,
    track: &Track,
    engine: u32,
    lrbg: u32,
    packet: &Part,
    number: u32,
) -> Result<(), AllocError>
    ensures { OnOk result (IsSaidOn (TellsPacket track.now lrbg packet.now
        (IsRestrictionSentence track.now lrbg engine number packet.now)) log.old.items log.new.items) }
{
    match spoken_by_packet(track, lrbg, packet) {
        Some(said) => {
            let sentence = restriction_sentence(alloc, engine, number, &said)?;
            log.extend_from_slice(sentence.as_bytes())
        }
        None => Ok(()),
    }
}
