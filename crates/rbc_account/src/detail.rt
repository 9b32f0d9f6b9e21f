//! The figures of a refusal.

ghost use Rattle.std.specs.Prelude.{◌≡◌, IfOk};
ghost use Rattle.rbc_maps.specs.Maps.{keys};
ghost use Rattle.rbc_settle.specs.WellFormed.{number_in};

use crate::record_lookup::engine_of;
use ertms_codec::FromTrain;
use rbc_ids::{Kind, Slot};
use rbc_live::{LiveDesk, active_limits, active_stops, last_limit, last_stop, train_in};
use rbc_records::PlainStore;
use rbc_rule::{Input, Refusal};
use rbc_settle::TrainRec;
use rbc_track::Track;
use rbc_zones::Segment;
use std::alloc::{AllocError, Global};

/// The most stretches that a stop has.
const MAX_SEGMENTS: usize = 8;

/// The figures of a refusal that its code does not tell.
#[derive(Drop)]
pub enum Detail {
    /// Codes 1 to 6, 9 and 13: none.
    Nothing,
    /// Code 7: no train has this engine number.
    NotEnrolled {
        engine: u32,
    },
    /// Code 8: a train of this length has the engine number.
    Enrolled {
        engine: u32,
        length: u32,
    },
    /// Code 10: the least stop identifier that is not free, the stop by which it is used, or `None` if it is being
    /// revoked, and how many more identifiers are not free.
    Held {
        id: u8,
        by: Option<u32>,
        more: usize,
    },
    /// Code 11: the last number that was given to a stop.
    LastStop(u32),
    /// Code 11: the last number that was given to a restriction.
    LastRestriction(u32),
    /// Code 12: a stop has this many stretches, more than are allowed.
    TooManyStretches(usize),
    /// Code 12: the line of this stretch, the first bad one, is not in the track.
    NoLine(Segment),
    /// Code 12: the first place of this stretch, the first bad one, is above its second.
    Crossed(Segment),
    /// Code 12: this stretch, the first bad one, ends beyond its line, which has this length.
    BeyondEnd(Segment, u32),
    /// Code 12: a restriction begins and ends at this place.
    NoLength(u32),
    /// Code 12: no restriction can have this speed, in km/h.
    Speed(u32),
    /// Code 14: the numbers of all active stops, ascending.
    ActiveStops(Vec<u32>),
    /// Code 14: the numbers of all active restrictions, ascending.
    ActiveRestrictions(Vec<u32>),
    /// Code 15: the stamp of the message.
    Stamp(u32),
    /// Code 16: the stamp is that of a stop, which is not acknowledged by message 146.
    AckOfStop {
        engine: u32,
        stamp: u32,
        number: u32,
    },
    /// Code 16: no message with this stamp waits for an acknowledgement.
    AckOfNothing {
        engine: u32,
        stamp: u32,
    },
    /// Code 16: the stop identifier is free.
    FreeIdentifier {
        engine: u32,
        id: u8,
    },
    /// Code 16: the stop identifier is being revoked.
    RevokedIdentifier {
        engine: u32,
        id: u8,
    },
    /// Code 16: the stop was told by message 15 (`conditional`) or 16, to which this is no answer.
    OtherAnswer {
        engine: u32,
        number: u32,
        conditional: bool,
        answer: u8,
    },
}

/// The figures of a refusal with this code. A refusal leaves the records unchanged.
pub(crate) fn detail_of(
    alloc: Global,
    desk: &LiveDesk,
    input: &Input,
    code: u8,
) -> Result<Detail, AllocError> {
    let records = &desk.records;
    match input {
        Input::Enrol { engine, .. } => Ok(of_enrolment(records, *engine)),
        Input::Withdraw { engine } => Ok(of_withdrawal(records, *engine)),
        Input::Stop { segments, .. } => Ok(of_stop(
            &desk.track,
            last_stop(records),
            segments.as_slice(),
            code,
        )),
        Input::Restrict { segment, speed, .. } => Ok(of_restriction(
            &desk.track,
            last_limit(records),
            *segment,
            *speed,
            code,
        )),
        Input::Release { .. } => Ok(Detail::ActiveStops(numbers_of(alloc, active_stops(records))?)),
        Input::Lift { .. } => Ok(Detail::ActiveRestrictions(numbers_of(
            alloc,
            active_limits(records),
        )?)),
        Input::Received(message) => Ok(of_message(records, message, code)),
        Input::Bad(_) => Ok(Detail::Nothing),
    }
}

/// For an enrolment: the train that has the engine number. There is none if the cause is that too many trains are
/// enrolled.
fn of_enrolment(records: &PlainStore, engine: u32) -> Detail {
    match train_in(records, engine) {
        Some(train) => Detail::Enrolled {
            engine,
            length: train.length,
        },
        None => Detail::Nothing,
    }
}

/// For a withdrawal: that there is no such train, or the first identifier that it holds.
fn of_withdrawal(records: &PlainStore, engine: u32) -> Detail {
    let Some(train) = train_in(records, engine) else {
        return Detail::NotEnrolled { engine };
    };
    match train.stops.slots() {
        [] => Detail::Nothing,
        [(id, slot), more @ ..] => Detail::Held {
            id: *id,
            by: number_in(*slot),
            more: more.len(),
        },
    }
}

/// The number that a slot tells. One that is being revoked tells none.
fn number_in(slot: Slot) -> Option<u32>
    ensures { result ≡ number_in slot }
{
    match slot {
        Slot::Used(used) => Some(used.number),
        Slot::Revoking { .. } => None,
    }
}

/// For a stop.
fn of_stop(track: &Track, last: u32, segments: &[Segment], code: u8) -> Detail {
    if code == Refusal::NumberUsed.code() {
        return Detail::LastStop(last);
    }
    if code != Refusal::BadArea.code() {
        return Detail::Nothing;
    }
    if segments.len() > MAX_SEGMENTS {
        return Detail::TooManyStretches(segments.len());
    }
    first_bad(track, segments)
}

/// The first stretch that is not good for the track.
fn first_bad(track: &Track, segments: &[Segment]) -> Detail {
    for segment in segments {
        if let Some(detail) = bad_stretch(track, *segment) {
            return detail;
        }
    }
    Detail::Nothing
}

/// What is wrong with a stretch, if anything is: its line is not there, its first place is above its second, or its
/// second place is beyond the end of the line.
fn bad_stretch(track: &Track, segment: Segment) -> Option<Detail> {
    match track.line_len(segment.line) {
        None => Some(Detail::NoLine(segment)),
        Some(_) if segment.from > segment.to => Some(Detail::Crossed(segment)),
        Some(length) if segment.to > length => Some(Detail::BeyondEnd(segment, length)),
        Some(_) => None,
    }
}

/// For a restriction.
fn of_restriction(track: &Track, last: u32, segment: Segment, speed: u32, code: u8) -> Detail {
    if code == Refusal::NumberUsed.code() {
        return Detail::LastRestriction(last);
    }
    if code != Refusal::BadArea.code() {
        return Detail::Nothing;
    }
    if let Some(detail) = bad_stretch(track, segment) {
        return detail;
    }
    if segment.from == segment.to {
        Detail::NoLength(segment.from)
    } else {
        Detail::Speed(speed)
    }
}

/// For a message: that there is no such train, its stamp, or what it does not answer.
fn of_message(records: &PlainStore, message: &FromTrain, code: u8) -> Detail {
    let engine = engine_of(message);
    let Some(train) = train_in(records, engine) else {
        return Detail::NotEnrolled { engine };
    };
    match message {
        FromTrain::Report { stamp, .. } => Detail::Stamp(*stamp),
        FromTrain::Ack { stamp, .. } | FromTrain::StopAck { stamp, .. }
            if code == Refusal::StampTooHigh.code() => { Detail::Stamp(*stamp) }
        FromTrain::Ack { acked, .. } => of_acknowledgement(train, *acked),
        FromTrain::StopAck { id, answer, .. } => of_answer(train, *id, *answer),
    }
}

/// For an acknowledgement: the stop whose stamp it names, if there is one.
fn of_acknowledgement(train: &TrainRec, stamp: u32) -> Detail {
    let engine = train.engine;
    for (_, slot) in train.stops.slots() {
        if let Slot::Used(used) = slot
            && used.stamp == stamp
        {
            return Detail::AckOfStop {
                engine,
                stamp,
                number: used.number,
            };
        }
    }
    Detail::AckOfNothing { engine, stamp }
}

/// For an answer: what the identifier is held for.
fn of_answer(train: &TrainRec, id: u8, answer: u8) -> Detail {
    let engine = train.engine;
    match train.stops.slot(id) {
        None => Detail::FreeIdentifier { engine, id },
        Some(Slot::Revoking { .. }) => Detail::RevokedIdentifier { engine, id },
        Some(Slot::Used(used)) => Detail::OtherAnswer {
            engine,
            number: used.number,
            conditional: used.kind == Kind::Conditional,
            answer,
        },
    }
}

/// The numbers of a list of pairs.
fn numbers_of<V>(alloc: Global, pairs: &[(u32, V)]) -> Result<Vec<u32>, AllocError>
    ensures { IfOk result (λ numbers. numbers.items ≡ keys pairs.now) }
{
    pairs.iter().map(|pair| pair.0).collect(alloc)
}
