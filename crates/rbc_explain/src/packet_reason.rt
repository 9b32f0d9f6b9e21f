//! Which packet of a message on restrictions was sent, and why, in words.

ghost use Rattle.std.specs.Prelude.{◌≡◌, IfOk, string_bytes};
ghost use Rattle.rbc_explain.specs.Reasons.{met_first, met_last, begins_behind, is_all, part_told};
ghost use Rattle.rbc_explain.specs.Reasons.{number_of_packet, id_of_packet, packet_text, single_text, several_text};

use crate::figures::{Stretch, Whereabouts, way_word, ways_words};
use ertms_codec::{Head, Part};
use rbc_account::{RestrictionTold, ToldRestriction, WhyRevoked, WhyTold};
use rbc_place::Place;
use rbc_track::Way;
use rbc_words::Metres;
use rbc_zones::Segment;
use std::alloc::{AllocError, Global};
use std::fmt;

/// The end of a stretch that a train meets first.
fn met_first(facing: Way, segment: &Segment) -> u32
    ensures { result ≡ met_first facing segment.now }
{
    match facing {
        Way::Up => segment.from,
        Way::Down => segment.to,
    }
}

/// The end of a stretch that a train meets last.
fn met_last(facing: Way, segment: &Segment) -> u32
    ensures { result ≡ met_last facing segment.now }
{
    match facing {
        Way::Up => segment.to,
        Way::Down => segment.from,
    }
}

/// Whether a stretch begins behind the balise group of a train's place, seen as the train faces.
fn begins_behind(place: &Place, segment: &Segment) -> bool
    ensures { result ≡ begins_behind place.now segment.now }
{
    let first = met_first(place.facing(), segment);
    match place.facing() {
        Way::Up => first < place.at(),
        Way::Down => first > place.at(),
    }
}

/// Whether a stretch that does not begin behind the balise group of a place begins and ends so far ahead of it.
fn is_all(place: &Place, segment: &Segment, begin: u32, end: u32) -> bool
    ensures { result ≡ is_all place.now segment.now begin end }
{
    let (at, facing) = (place.at(), place.facing());
    begin == at.abs_diff(met_first(facing, segment))
        && end == at.abs_diff(met_last(facing, segment))
}

/// Which part of a stretch is told.
#[derive(Clone, Copy)]
pub(crate) enum PartTold {
    /// All of it, to the unit.
    Exact,
    /// All of it, rounded outwards.
    Rounded,
    /// Only what lies beyond the balise group.
    Beyond,
}

/// Which part of a stretch is told to a train at a place, if what is told lies so far ahead of its balise group.
fn part_told(place: &Option<Place>, segment: &Segment, begin: u32, end: u32) -> PartTold
    ensures { result ≡ part_told place.now segment.now begin end }
{
    match place {
        Some(place) => {
            if begins_behind(place, segment) {
                PartTold::Beyond
            } else if is_all(place, segment, begin, end) {
                PartTold::Exact
            } else {
                PartTold::Rounded
            }
        }
        None => PartTold::Exact,
    }
}

/// How the stretch that is told differs from that of the restriction, if it does.
#[derive(Clone, Copy)]
struct Difference {
    part: PartTold,
    segment: Segment,
    unit: u32,
}

impl fmt::Display for Difference {
    ghost use Rattle.std.specs.Prelude.{Some};
    ghost use Rattle.rbc_explain.specs.Reasons.{difference_text};

    ghost output = { λ told. Some (difference_text told.part told.segment told.unit) };

    fn fmt<W: fmt::Write>(&self, f: &mut fmt::Formatter<W>) -> fmt::Result {
        let (stretch, unit) = (Stretch(self.segment), Metres(self.unit));
        match self.part {
            PartTold::Beyond => write!(
                f,
                "    Only the part of {stretch} beyond the balise group is told, in steps of {unit} m.\n"
            ),
            PartTold::Rounded => {
                write!(f, "    All of {stretch} is told, in steps of {unit} m.\n")
            }
            PartTold::Exact => Ok(()),
        }
    }
}

/// Why a restriction is told.
#[derive(Clone, Copy)]
struct Because(WhyTold);

impl fmt::Display for Because {
    ghost use Rattle.std.specs.Prelude.{Some};
    ghost use Rattle.rbc_explain.specs.Reasons.{told_text};

    ghost output = { λ because. Some (told_text because.0) };

    fn fmt<W: fmt::Write>(&self, f: &mut fmt::Formatter<W>) -> fmt::Result {
        match self.0 {
            WhyTold::Overlaps => write!(f, "the restriction overlaps its place.\n"),
            WhyTold::Ahead { distance } => {
                let ahead = Metres(distance);
                write!(
                    f,
                    "the restriction begins {ahead} m ahead of it, within the horizon.\n"
                )
            }
        }
    }
}

/// Why the restriction of a number is revoked.
#[derive(Clone, Copy)]
struct Lifted {
    number: u32,
    why: WhyRevoked,
}

impl fmt::Display for Lifted {
    ghost use Rattle.std.specs.Prelude.{Some};
    ghost use Rattle.rbc_explain.specs.Reasons.{lifted_text};

    ghost output = { λ lifted. Some (lifted_text lifted.number lifted.why) };

    fn fmt<W: fmt::Write>(&self, f: &mut fmt::Formatter<W>) -> fmt::Result {
        match self.why {
            WhyRevoked::Lifted => {
                let number = self.number;
                write!(f, "restriction {number} is lifted.\n")
            }
            WhyRevoked::OtherLine { train, restriction } => {
                write!(
                    f,
                    "the train is on line {train}, and the restriction on line {restriction}.\n"
                )
            }
            WhyRevoked::OtherWay { facing, dirs } => {
                let (way, ways) = (way_word(facing), ways_words(dirs));
                write!(
                    f,
                    "the train faces {way}, and the restriction is for trains facing {ways}.\n"
                )
            }
            WhyRevoked::Passed => write!(f, "the train has passed it.\n"),
        }
    }
}

/// Why a packet on the restriction of a number was sent, and how what it tells differs from the restriction.
#[derive(Clone, Copy)]
struct WhyPacket {
    place: Option<Place>,
    number: u32,
    what: RestrictionTold,
}

impl fmt::Display for WhyPacket {
    ghost use Rattle.std.specs.Prelude.{Some};
    ghost use Rattle.rbc_explain.specs.Reasons.{why_packet};

    ghost output = { λ why. Some (why_packet why.place why.number why.what) };

    fn fmt<W: fmt::Write>(&self, f: &mut fmt::Formatter<W>) -> fmt::Result {
        match self.what {
            RestrictionTold::Told {
                segment,
                begin,
                end,
                unit,
                why,
            } => {
                let part = part_told(&self.place, &segment, begin, end);
                let difference = Difference {
                    part,
                    segment,
                    unit,
                };
                let because = Because(why);
                write!(f, "{because}{difference}")
            }
            RestrictionTold::Revoked(why) => {
                let lifted = Lifted {
                    number: self.number,
                    why,
                };
                write!(f, "{lifted}")
            }
            // It never occurs in a block.
            RestrictionTold::Unknown => write!(f, "\n"),
        }
    }
}

/// Where the train may be, as the first part of the reason why it is told a restriction.
#[derive(Clone, Copy)]
struct There {
    place: Option<Place>,
    what: RestrictionTold,
}

impl fmt::Display for There {
    ghost use Rattle.std.specs.Prelude.{Some};
    ghost use Rattle.rbc_explain.specs.Reasons.{there_text};

    ghost output = { λ there. Some (there_text there.place there.what) };

    fn fmt<W: fmt::Write>(&self, f: &mut fmt::Formatter<W>) -> fmt::Result {
        let Some(place) = self.place else {
            return Ok(());
        };
        match self.what {
            RestrictionTold::Told { .. } => {
                let there = Whereabouts(place);
                write!(f, "it may be at {there};\n    ")
            }
            RestrictionTold::Revoked(_) => Ok(()),
            RestrictionTold::Unknown => Ok(()),
        }
    }
}

/// NID_PACKET.
fn number_of(packet: &Part) -> u8
    ensures { result ≡ number_of_packet packet.now }
{
    match packet {
        Part::Restrict { .. } => 65,
        Part::Lift { .. } => 66,
    }
}

/// NID_TSR.
fn id_of(packet: &Part) -> u8
    ensures { result ≡ id_of_packet packet.now }
{
    match packet {
        Part::Restrict { id, .. } => *id,
        Part::Lift { id, .. } => *id,
    }
}

/// One of several packets, and why it was sent.
pub(crate) fn packet_text(
    alloc: Global,
    packet: &Part,
    place: &Option<Place>,
    one: &ToldRestriction,
) -> Result<String, AllocError>
    ensures { IfOk result (λ text. string_bytes text ≡ packet_text packet.now place.now one.now) }
{
    let (kind, id) = (number_of(packet), id_of(packet));
    let why = WhyPacket {
        place: *place,
        number: one.number,
        what: one.what,
    };
    format!(in alloc; "    Packet {kind}, identifier {id}.\n    Why: {why}")
}

/// The packet of a message with one packet, and why it was sent.
pub(crate) fn single_text(
    alloc: Global,
    head: Head,
    packet: &Part,
    place: &Option<Place>,
    one: &ToldRestriction,
) -> Result<String, AllocError>
    ensures { IfOk result (λ text. string_bytes text ≡ single_text head packet.now place.now one.now) }
{
    let (kind, id, stamp) = (number_of(packet), id_of(packet), head.stamp);
    let there = There {
        place: *place,
        what: one.what,
    };
    let why = WhyPacket {
        place: *place,
        number: one.number,
        what: one.what,
    };
    format!(in alloc;
        "    Message 24 with packet {kind}, identifier {id}, stamp {stamp}; answer: message 146.\n    Why: {there}{why}"
    )
}

/// Where a train may be, as a sentence.
#[derive(Clone, Copy)]
struct PlaceSentence(Option<Place>);

impl fmt::Display for PlaceSentence {
    ghost use Rattle.std.specs.Prelude.{Some};
    ghost use Rattle.rbc_explain.specs.Reasons.{place_sentence};

    ghost output = { λ sentence. Some (place_sentence sentence.0) };

    fn fmt<W: fmt::Write>(&self, f: &mut fmt::Formatter<W>) -> fmt::Result {
        match self.0 {
            Some(place) => {
                let there = Whereabouts(place);
                write!(f, "    The train may be at {there}.\n")
            }
            None => Ok(()),
        }
    }
}

/// That a message has this many packets, and where its train may be.
pub(crate) fn several_text(
    alloc: Global,
    engine: u32,
    head: Head,
    count: usize,
    place: &Option<Place>,
) -> Result<String, AllocError>
    ensures { IfOk result (λ text. string_bytes text ≡ several_text engine head count place.now) }
{
    let (stamp, place) = (head.stamp, PlaceSentence(*place));
    format!(in alloc;
        "  To train {engine}, for {count} restrictions, in one message:\n    \
         Message 24 with {count} packets, stamp {stamp}; answer: message 146.\n{place}"
    )
}
