//! Which message on a stop was sent, and why, in words.

ghost use Rattle.std.specs.Prelude.{◌≡◌, IfOk, string_bytes};
ghost use Rattle.rbc_explain.specs.Reasons.{before_text, at_once_text, left_under, revoked_text};

use crate::figures::{GroupOf, Stretch, Whereabouts};
use ertms_codec::ToTrain;
use rbc_account::WhyAtOnce;
use rbc_place::Place;
use rbc_words::{Km, Metres};
use std::alloc::{AllocError, Global};
use std::fmt;

/// Which message on a stop it is, its identifier, its stamp and what answers it.
#[derive(Clone, Copy)]
struct Kind<'a>(&'a ToTrain);

impl fmt::Display for Kind<'_> {
    ghost use Rattle.std.specs.Prelude.{Some};
    ghost use Rattle.rbc_explain.specs.Reasons.{kind_text};

    ghost output = { λ kind. Some (kind_text kind.0.now) };

    fn fmt<W: fmt::Write>(&self, f: &mut fmt::Formatter<W>) -> fmt::Result {
        match self.0 {
            ToTrain::StopAt { head, id, .. } => {
                let stamp = head.stamp;
                write!(
                    f,
                    "    Message 15, conditional emergency stop, identifier {id}, \
                     stamp {stamp}; answer: message 147.\n"
                )
            }
            ToTrain::Stop { head, id } => {
                let stamp = head.stamp;
                write!(
                    f,
                    "    Message 16, unconditional emergency stop, identifier {id}, \
                     stamp {stamp}; answer: message 147.\n"
                )
            }
            ToTrain::Revoke { head, id } => {
                let stamp = head.stamp;
                write!(
                    f,
                    "    Message 18, revocation of emergency stop, identifier {id}, \
                     stamp {stamp}; answer: message 146.\n"
                )
            }
            ToTrain::General { .. } => Ok(()),
        }
    }
}

/// Where the train may be, as the first part of a reason.
#[derive(Clone, Copy)]
struct WhyThere(Option<Place>);

impl fmt::Display for WhyThere {
    ghost use Rattle.std.specs.Prelude.{Some};
    ghost use Rattle.rbc_explain.specs.Reasons.{why_there};

    ghost output = { λ there. Some (why_there there.0) };

    fn fmt<W: fmt::Write>(&self, f: &mut fmt::Formatter<W>) -> fmt::Result {
        match self.0 {
            Some(place) => {
                let there = Whereabouts(place);
                write!(f, "    Why: it may be at {there};\n    ")
            }
            None => Ok(()),
        }
    }
}

/// How far the place told is short of the edge, if it is.
#[derive(Clone, Copy)]
struct Shortfall {
    before: u32,
    edge: u32,
    unit: u32,
}

impl fmt::Display for Shortfall {
    ghost use Rattle.std.specs.Prelude.{Some};
    ghost use Rattle.rbc_explain.specs.Reasons.{short_text};

    ghost output = { λ short. Some (short_text short.before short.edge short.unit) };

    fn fmt<W: fmt::Write>(&self, f: &mut fmt::Formatter<W>) -> fmt::Result {
        if self.before == self.edge {
            return Ok(());
        }
        let (short, unit) = (Metres(self.before.abs_diff(self.edge)), Metres(self.unit));
        write!(
            f,
            "    The place told is {short} m short of the edge: the message counts in steps of {unit} m.\n"
        )
    }
}

/// That a message tells a train to stop before a place, since `edge` is the nearest edge ahead of it.
pub(crate) fn before_text(
    alloc: Global,
    message: &ToTrain,
    place: &Option<Place>,
    before: u32,
    edge: u32,
    unit: u32,
) -> Result<String, AllocError>
    ensures { IfOk result (λ text. string_bytes text ≡ before_text message.now place.now before edge unit) }
{
    let (kind, there, km) = (Kind(message), WhyThere(*place), Km(edge));
    let short = Shortfall { before, edge, unit };
    format!(in alloc; "{kind}{there}km {km} is the nearest edge ahead of it.\n{short}")
}

/// That a train left a stop unanswered under an identifier.
#[derive(Clone, Copy)]
struct Unanswered {
    number: u32,
    id: u8,
}

impl fmt::Display for Unanswered {
    ghost use Rattle.std.specs.Prelude.{Some};
    ghost use Rattle.rbc_explain.specs.Reasons.{unanswered_text};

    ghost output = { λ left. Some (unanswered_text left.number left.id) };

    fn fmt<W: fmt::Write>(&self, f: &mut fmt::Formatter<W>) -> fmt::Result {
        let (number, id) = (self.number, self.id);
        write!(
            f,
            "    Why: it reported three times without answering stop {number} under identifier {id} (message 15)"
        )
    }
}

/// That the nearest edge ahead is behind the balise group of a train's place.
#[derive(Clone, Copy)]
struct EdgeBehind {
    place: Option<Place>,
    edge: u32,
}

impl fmt::Display for EdgeBehind {
    ghost use Rattle.std.specs.Prelude.{Some};
    ghost use Rattle.rbc_explain.specs.Reasons.{behind_text};

    ghost output = { λ behind. Some (behind_text behind.place behind.edge) };

    fn fmt<W: fmt::Write>(&self, f: &mut fmt::Formatter<W>) -> fmt::Result {
        match self.place {
            Some(place) => {
                let (edge, group) = (Km(self.edge), GroupOf(place));
                write!(f, "the nearest edge ahead, km {edge}, is behind {group}.\n")
            }
            None => Ok(()),
        }
    }
}

/// That a message tells a train to stop at once, and why.
pub(crate) fn at_once_text(
    alloc: Global,
    message: &ToTrain,
    place: &Option<Place>,
    number: u32,
    why: &WhyAtOnce,
) -> Result<String, AllocError>
    ensures { IfOk result (λ text. string_bytes text ≡ at_once_text message.now place.now number why.now) }
{
    let (kind, there) = (Kind(message), WhyThere(*place));
    match why {
        WhyAtOnce::Unanswered { id } => {
            let unanswered = Unanswered { number, id: *id };
            format!(in alloc; "{kind}{unanswered}.\n")
        }
        WhyAtOnce::NoPlace => {
            format!(in alloc;
                "{kind}    Why: it has no place, so nobody knows that it is not there.\n"
            )
        }
        WhyAtOnce::Rejected => format!(in alloc; "{kind}    Why: it rejected this stop before.\n"),
        WhyAtOnce::Overlaps(segment) => {
            let stretch = Stretch(*segment);
            format!(in alloc; "{kind}{there}this overlaps {stretch}.\n")
        }
        WhyAtOnce::BehindGroup { edge } => {
            let behind = EdgeBehind {
                place: *place,
                edge: *edge,
            };
            format!(in alloc; "{kind}{there}{behind}")
        }
    }
}

/// The identifier that a message revokes since its train left the stop unanswered.
pub(crate) fn left_under(message: &ToTrain, unanswered: bool) -> Option<u8>
    ensures { result ≡ left_under message.now unanswered }
{
    match message {
        ToTrain::Revoke { id, .. } => if unanswered { Some(*id) } else { None },
        ToTrain::StopAt { .. } => None,
        ToTrain::Stop { .. } => None,
        ToTrain::General { .. } => None,
    }
}

/// That a message revokes a stop: it is released, or was left unanswered under an identifier.
pub(crate) fn revoked_text(
    alloc: Global,
    message: &ToTrain,
    number: u32,
    left: Option<u8>,
) -> Result<String, AllocError>
    ensures { IfOk result (λ text. string_bytes text ≡ revoked_text message.now number left) }
{
    let kind = Kind(message);
    match left {
        Some(id) => {
            let unanswered = Unanswered { number, id };
            format!(in alloc;
                "{kind}{unanswered};\n    the stop is told again under another identifier, to stop at once.\n"
            )
        }
        None => format!(in alloc; "{kind}    Why: stop {number} is released.\n"),
    }
}
