//! The places before which trains were told to stop.

ghost use Rattle.std.specs.Prelude.{◌≡◌, ℕ, [], OnOk};
ghost use Rattle.rbc_account.specs.ToldPlaces.{place_ahead, told_from, told_by, number_of, kept_at, kept_with};
ghost use Rattle.rbc_account.specs.ToldPlaces.{kept_after, of_stamp};

use crate::distances::{unit_told, way_told};
use ertms_codec::ToTrain;
use indexmap::IndexMap;
use rbc_rule::SentList;
use rbc_settle::Sent;
use rbc_track::{Group, Track, Way};
use std::alloc::{AllocError, Global};
use std::marker::Model;

/// The place before which a train was told to stop, and the stamp of the message 15 that told it.
#[derive(Clone, Copy)]
pub struct ToldPlace {
    pub stamp: u32,
    /// The line on which the place lies: the line on which the train was then.
    pub line: u8,
    /// The place.
    pub at: u32,
}

/// For each stop identifier of each train, the place that the last message 15 under it told. In contracts a list of
/// pairs of a number, which stands for an engine and an identifier, and a place; the first pair with a number counts.
#[derive(Drop)]
pub struct ToldPlaces {
    last: IndexMap<u64, ToldPlace>,
}

impl Model for ToldPlaces {
    ghost use Rattle.std.specs.Prelude.{ℕ, List};
    ghost use Rattle.rbc_account.specs.declared.told_place.ToldPlace.{ToldPlace};

    ghost Value = { List (ℕ × ToldPlace) };

    ghost view = { λ places. places.last.entries };
}

impl ToldPlaces {
    /// Nothing was told.
    pub(crate) fn new(alloc: Global) -> Self
        ensures { result ≡ [] }
    {
        ToldPlaces {
            last: IndexMap::new(alloc),
        }
    }

    /// The place told under a stop identifier by the message with a stamp.
    pub(crate) fn get(&self, engine: u32, id: u8, stamp: u32) -> Option<ToldPlace>
        ensures { result ≡ of_stamp stamp (kept_at self.now (number_of engine id)) }
    {
        let told = *self.last.get(&number_of(engine, id))?;
        if told.stamp == stamp {
            Some(told)
        } else {
            None
        }
    }

    /// Notes what messages tell.
    pub(crate) fn note(&mut self, track: &Track, messages: &SentList) -> Result<(), AllocError>
        ensures { OnOk result ((number : ℕ) → kept_at self.new number
            ≡ kept_after track.now (kept_at self.old) messages.now number) }
    {
        for index in 0..messages.len() {
            self.note_one(track, messages.at(index))?;
        }
        Ok(())
    }

    /// Notes what one message tells.
    fn note_one(&mut self, track: &Track, sent: &Sent) -> Result<(), AllocError>
        ensures { OnOk result ((number : ℕ) → kept_at self.new number
            ≡ kept_with sent.now.engine (told_by track.now sent.now.message) (kept_at self.old) number) }
    {
        if let Some((id, told)) = told_by(track, &sent.message) {
            self.last.insert(number_of(sent.engine, id), told)?;
        }
        Ok(())
    }
}

/// The number that stands for a stop identifier of an engine. No other identifier has it.
fn number_of(engine: u32, id: u8) -> u64
    ensures { result ≡ number_of engine id }
{
    u64::from(engine) * 256 + u64::from(id)
}

/// The stop identifier of a message 15, and the place that it tells. `None` for any other message, and if the track
/// lacks its balise group or it tells no place.
fn told_by(track: &Track, message: &ToTrain) -> Option<(u8, ToldPlace)>
    ensures { result ≡ told_by track.now message.now }
{
    match message {
        ToTrain::StopAt {
            head,
            id,
            scale,
            dir,
            distance,
            ..
        } => {
            let group = track.group(head.lrbg)?;
            let told = told_from(head.stamp, *scale, *dir, *distance, &group)?;
            Some((*id, told))
        }
        ToTrain::Stop { .. } | ToTrain::Revoke { .. } | ToTrain::General { .. } => None,
    }
}

/// The place that a message tells, this many units ahead of its balise group.
fn told_from(stamp: u32, scale: u8, dir: u8, distance: u16, group: &Group) -> Option<ToldPlace>
    ensures { result ≡ told_from stamp scale dir distance group.now }
{
    let way = way_told(group.nominal, dir)?;
    let unit = unit_told(scale)?;
    let at = place_ahead(way, group.at, u32::from(distance) * unit)?;
    Some(ToldPlace {
        stamp,
        line: group.line,
        at,
    })
}

/// The place this far ahead of another, if it is not before the beginning of the line and fits in 32 bits.
fn place_ahead(way: Way, from: u32, by: u32) -> Option<u32>
    ensures { result ≡ place_ahead way from by }
{
    match way {
        Way::Up => from.checked_add(by),
        Way::Down => from.checked_sub(by),
    }
}
