//! What an accepted input did, as an object.

ghost use Rattle.std.specs.Prelude.{◌≡◌, IfOk, string_bytes, map};
ghost use Rattle.rbc_json.specs.Json.{json_text, array, opened, closed};
ghost use Rattle.rbc_json.specs.Shapes.{segment_object};
ghost use Rattle.rbc_json.specs.Effects.{effect_object, stopped_object, reported_object, answered_object};
ghost use Rattle.rbc_json.specs.Effects.{acknowledged_object, affected_object, restricted_object};
ghost use Rattle.rbc_json.specs.Effects.{limit_fields, speed_fields, asked_fields, answer_fields};

use crate::counts::{RestrictCounts, StopCounts};
use crate::list::{ListText, element};
use crate::placing::{NoPlaceOrNull, front_in, place_in};
use crate::shapes::{EndWord, NumberOrNull, PlaceOrNull, SegmentObject, WaysWord};
use crate::text::null_text;
use rbc_account::{Acked, Counts, Deed, Placing};
use rbc_zones::{Dirs, Segment};
use std::alloc::{AllocError, Global};
use std::fmt;

/// What an accepted input did, with what a stop or a restriction that began means for the trains. `null` for a refused
/// input.
pub(crate) fn effect_text(
    alloc: Global,
    deed: &Deed,
    counts: Option<Counts>,
) -> Result<String, AllocError>
    ensures { IfOk result (λ text. string_bytes text ≡ json_text (effect_object counts deed.now)) }
{
    match deed {
        Deed::Enrolled { engine, length } => format!(in alloc;
            "{{\"kind\":\"enrol\",\"engine\":{engine},\"length\":{length}}}"
        ),
        Deed::Withdrawn { engine } => {
            format!(in alloc; "{{\"kind\":\"withdraw\",\"engine\":{engine}}}")
        }
        Deed::Stopped { number, segments } => stopped_text(alloc, *number, segments, counts),
        Deed::Restricted {
            number,
            segment,
            dirs,
            speed,
            front,
        } => restricted_text(alloc, *number, *segment, *dirs, *speed, *front, counts),
        Deed::Released { number } => {
            format!(in alloc; "{{\"kind\":\"release\",\"stop\":{number}}}")
        }
        Deed::Lifted { number } => {
            format!(in alloc; "{{\"kind\":\"lift\",\"restriction\":{number}}}")
        }
        Deed::Reported {
            engine,
            stamp,
            placing,
        } => reported_text(alloc, *engine, *stamp, placing),
        Deed::Answered {
            engine,
            stamp,
            id,
            number,
            answer,
            placing,
        } => answered_text(alloc, *engine, *stamp, *id, *number, *answer, placing),
        Deed::Acknowledged {
            engine,
            stamp,
            acked,
            all,
        } => acknowledged_text(alloc, *engine, *stamp, *acked, all),
        Deed::Refused(_) => null_text(alloc),
    }
}

/// That a stop is active.
fn stopped_text(
    alloc: Global,
    number: u32,
    segments: &[Segment],
    counts: Option<Counts>,
) -> Result<String, AllocError>
    ensures { IfOk result (λ text. string_bytes text ≡ json_text (stopped_object number segments.now counts)) }
{
    let (segments, counts) = (segments_text(alloc, segments)?, StopCounts(counts));
    format!(in alloc;
        "{{\"kind\":\"stop\",\"stop\":{number},\"segments\":{segments},\"counts\":{counts}}}"
    )
}

/// That a restriction is active.
fn restricted_text(
    alloc: Global,
    number: u32,
    segment: Segment,
    dirs: Dirs,
    speed: u32,
    front: bool,
    counts: Option<Counts>,
) -> Result<String, AllocError>
    ensures { IfOk result (λ text. string_bytes text
        ≡ json_text (restricted_object number segment dirs speed front counts)) }
{
    let limit = limit_text(alloc, number, segment, dirs)?;
    let speed = speed_text(alloc, speed, front, counts)?;
    format!(in alloc; "{limit}{speed}")
}

/// How the object of a restriction begins: which it is.
fn limit_text(
    alloc: Global,
    number: u32,
    segment: Segment,
    dirs: Dirs,
) -> Result<String, AllocError>
    ensures { IfOk result (λ text. string_bytes text ≡ opened (limit_fields number segment dirs)) }
{
    let (segment, ways) = (SegmentObject(segment), WaysWord(dirs));
    format!(in alloc;
        "{{\"kind\":\"restrict\",\"restriction\":{number},\"segment\":{segment},\"ways\":{ways}"
    )
}

/// How it ends: its speed, and what it means for the trains.
fn speed_text(
    alloc: Global,
    speed: u32,
    front: bool,
    counts: Option<Counts>,
) -> Result<String, AllocError>
    ensures { IfOk result (λ text. string_bytes text ≡ closed (speed_fields speed front counts)) }
{
    let (end, counts) = (EndWord(front), RestrictCounts(counts));
    format!(in alloc; ",\"speed\":{speed},\"ends_with\":{end},\"counts\":{counts}}}")
}

/// The list of stretches.
pub(crate) fn segments_text(alloc: Global, segments: &[Segment]) -> Result<String, AllocError>
    ensures { IfOk result (λ text. string_bytes text ≡ json_text (array (map segment_object segments.now))) }
{
    let mut list = ListText::new(alloc)?;
    for index in 0..segments.len() {
        list.add(&SegmentObject(element(segments, index)))?;
    }
    list.ended()
}

/// That a train reported its position (message 136).
fn reported_text(
    alloc: Global,
    engine: u32,
    stamp: u32,
    placing: &Placing,
) -> Result<String, AllocError>
    ensures { IfOk result (λ text. string_bytes text ≡ json_text (reported_object engine stamp placing.now)) }
{
    let (stamp, place) = (
        NumberOrNull::of_stamp(stamp),
        PlaceOrNull(place_in(placing)),
    );
    let (front, no_place) = (NumberOrNull::of(front_in(placing)), NoPlaceOrNull(*placing));
    format!(in alloc;
        "{{\"kind\":\"report\",\"engine\":{engine},\"stamp\":{stamp},\"place\":{place},\"front\":{front},\
         \"no_place\":{no_place}}}"
    )
}

/// That a train answered a stop (message 147).
fn answered_text(
    alloc: Global,
    engine: u32,
    stamp: u32,
    id: u8,
    number: u32,
    answer: u8,
    placing: &Placing,
) -> Result<String, AllocError>
    ensures { IfOk result (λ text. string_bytes text
        ≡ json_text (answered_object engine stamp id number answer placing.now)) }
{
    let asked = asked_text(alloc, engine, stamp, number)?;
    let answer = answer_text(alloc, id, answer, placing)?;
    format!(in alloc; "{asked}{answer}")
}

/// How the object of an answer begins: which stop is answered.
fn asked_text(alloc: Global, engine: u32, stamp: u32, number: u32) -> Result<String, AllocError>
    ensures { IfOk result (λ text. string_bytes text ≡ opened (asked_fields engine stamp number)) }
{
    let stamp = NumberOrNull::of_stamp(stamp);
    format!(in alloc;
        "{{\"kind\":\"answer\",\"engine\":{engine},\"stamp\":{stamp},\"stop\":{number}"
    )
}

/// How it ends: the answer, and where the train is.
fn answer_text(alloc: Global, id: u8, answer: u8, placing: &Placing) -> Result<String, AllocError>
    ensures { IfOk result (λ text. string_bytes text ≡ closed (answer_fields id answer placing.now)) }
{
    let (answer, place) = (AnswerWord(answer), PlaceOrNull(place_in(placing)));
    let (front, no_place) = (NumberOrNull::of(front_in(placing)), NoPlaceOrNull(*placing));
    format!(in alloc;
        ",\"identifier\":{id},\"answer\":{answer},\"place\":{place},\"front\":{front},\"no_place\":{no_place}}}"
    )
}

/// An answer to a stop, by its Q_EMERGENCYSTOP, 0 to 3.
#[derive(Clone, Copy)]
pub(crate) struct AnswerWord(pub u8);

impl fmt::Display for AnswerWord {
    ghost use Rattle.std.specs.Prelude.{Some};
    ghost use Rattle.rbc_json.specs.Json.{json_text};
    ghost use Rattle.rbc_json.specs.Effects.{answer_word};

    ghost output = { λ shown. Some (json_text (answer_word shown.0)) };

    fn fmt<W: fmt::Write>(&self, f: &mut fmt::Formatter<W>) -> fmt::Result {
        match self.0 {
            0 => write!(f, "\"accepted_changed\""),
            1 => write!(f, "\"accepted_unchanged\""),
            2 => write!(f, "\"accepted\""),
            _ => write!(f, "\"rejected\""),
        }
    }
}

/// That a train acknowledged its message of a stamp (message 146).
fn acknowledged_text(
    alloc: Global,
    engine: u32,
    stamp: u32,
    acked: u32,
    all: &[Acked],
) -> Result<String, AllocError>
    ensures { IfOk result (λ text. string_bytes text ≡ json_text (acknowledged_object engine stamp acked all.now)) }
{
    let (stamp, affected) = (NumberOrNull::of_stamp(stamp), affected_text(alloc, all)?);
    format!(in alloc;
        "{{\"kind\":\"acknowledge\",\"engine\":{engine},\"stamp\":{stamp},\"acknowledged_stamp\":{acked},\
         \"affected\":{affected}}}"
    )
}

/// The list of what an acknowledgement did to each identifier.
fn affected_text(alloc: Global, all: &[Acked]) -> Result<String, AllocError>
    ensures { IfOk result (λ text. string_bytes text ≡ json_text (array (map affected_object all.now))) }
{
    let mut list = ListText::new(alloc)?;
    for index in 0..all.len() {
        list.add(&AffectedObject(element(all, index)))?;
    }
    list.ended()
}

/// What an acknowledgement did to one identifier.
#[derive(Clone, Copy)]
struct AffectedObject(Acked);

impl fmt::Display for AffectedObject {
    ghost use Rattle.std.specs.Prelude.{Some};
    ghost use Rattle.rbc_json.specs.Json.{json_text};
    ghost use Rattle.rbc_json.specs.Effects.{affected_object};

    ghost output = { λ shown. Some (json_text (affected_object shown.0)) };

    fn fmt<W: fmt::Write>(&self, f: &mut fmt::Formatter<W>) -> fmt::Result {
        match self.0 {
            Acked::StopFreed { id } => {
                write!(f, "{{\"kind\":\"stop_revocation\",\"identifier\":{id}}}")
            }
            Acked::RestrictionFreed { id } => {
                write!(
                    f,
                    "{{\"kind\":\"restriction_revocation\",\"identifier\":{id}}}"
                )
            }
            Acked::Restriction { id, number } => write!(
                f,
                "{{\"kind\":\"restriction\",\"identifier\":{id},\"restriction\":{number}}}"
            ),
        }
    }
}
