//! The end of a log: the state after the last input.

ghost use Rattle.std.specs.Prelude.{◌≡◌, IfOk, string_bytes};
ghost use Rattle.rbc_explain.specs.Sentences.{sums_text};

use crate::figures::{Stretch, Whereabouts, push_segments};
use crate::waiting_in_words::push_waiting;
use rbc_account::{Account, Sharing, Standing, TrainStanding};
use rbc_ids::{Kind, Slot, UsedSlot};
use rbc_settle::TrainRec;
use rbc_words::{Count, Km, Metres};
use rbc_zones::{Dirs, Limit};
use std::alloc::{AllocError, Global};
use std::fmt::Write;

/// How many reports without an answer are counted.
const MOST_REPORTS: u8 = 3;

/// The first line of the end: how many inputs there were, and what came of them.
pub(crate) fn sums(alloc: Global, account: &Account) -> Result<String, AllocError>
    ensures { IfOk result (λ text. string_bytes text ≡ sums_text account.now.sums) }
{
    let (accepted, refused) = (account.sums.accepted, account.sums.refused);
    let inputs = Count {
        number: account.inputs() as usize,
        noun: "input",
    };
    let messages = Count {
        number: account.sums.messages as usize,
        noun: "message",
    };
    format!(in alloc;
        "AT THE END, after {inputs}: {accepted} accepted, {refused} refused, {messages} sent.\n"
    )
}

/// The rest of the end: the state after the last input.
pub(crate) fn end(
    alloc: Global,
    account: &Account,
    standing: &Standing,
) -> Result<String, AllocError> {
    let mut text = String::new(alloc);
    push_stops(&mut text, account, &standing.stops)?;
    push_limits(&mut text, account, &standing.limits)?;
    let trains = standing.trains.len();
    write!(text, "Trains: {trains} enrolled.\n")?;
    for train in &standing.trains {
        push_train(&mut text, account, train)?;
    }
    push_owing(&mut text, standing)?;
    Ok(text)
}

fn push_stops(text: &mut String, account: &Account, sharing: &[Sharing]) -> Result<(), AllocError> {
    let (count, last) = (account.stops().len(), account.last_stop());
    write!(
        text,
        "Stops: {count} active; the last number given is {last}.\n"
    )?;
    for (stop, shared) in account.stops().iter().zip(sharing) {
        let number = stop.0;
        write!(text, "  Stop {number}: ")?;
        push_segments(text, "", stop.1.segments())?;
        push_sharing(text, shared, "answered")?;
    }
    Ok(())
}

fn push_limits(
    text: &mut String,
    account: &Account,
    sharing: &[Sharing],
) -> Result<(), AllocError> {
    let (count, last) = (account.limits().len(), account.last_limit());
    write!(
        text,
        "Restrictions: {count} active; the last number given is {last}.\n"
    )?;
    for (limit, shared) in account.limits().iter().zip(sharing) {
        push_limit(text, limit.0, &limit.1)?;
        push_sharing(text, shared, "acknowledged")?;
    }
    Ok(())
}

fn push_limit(text: &mut String, number: u32, limit: &Limit) -> Result<(), AllocError> {
    let segment = limit.segment();
    let (line, stretch, speed) = (segment.line, Stretch(segment), limit.speed());
    let facing = facing_words(limit.dirs());
    write!(
        text,
        "  Restriction {number}: line {line}, {stretch}, {facing}, {speed} km/h.\n"
    )
}

fn facing_words(dirs: Dirs) -> &'static str {
    match dirs {
        Dirs::Up => "facing up",
        Dirs::Down => "facing down",
        Dirs::Both => "both ways",
    }
}

/// Adds to how many trains a stop or a restriction is told, and how many have answered it as required.
fn push_sharing(text: &mut String, shared: &Sharing, done: &str) -> Result<(), AllocError> {
    let (told, answered) = (
        Count {
            number: shared.told,
            noun: "train",
        },
        shared.answered,
    );
    write!(text, "    Told to {told}, {done} by {answered}")?;
    if shared.untold != 0 {
        let untold = shared.untold;
        write!(text, ", NOT told to {untold}")?;
    }
    text.push_str(".\n")
}

/// Adds a train: where it may be, what its identifiers are held for, and what waits.
fn push_train(
    text: &mut String,
    account: &Account,
    standing: &TrainStanding,
) -> Result<(), AllocError> {
    if let Some(train) = account.train(standing.engine) {
        push_whereabouts(text, train)?;
        for (id, slot) in train.stops.slots() {
            push_stop_identifier(text, account, train.engine, *id, slot)?;
        }
        for (id, slot) in train.limits.slots() {
            push_limit_identifier(text, *id, slot)?;
        }
    }
    for waiting in &standing.waiting {
        push_waiting(text, waiting)?;
    }
    Ok(())
}

fn push_whereabouts(text: &mut String, train: &TrainRec) -> Result<(), AllocError> {
    let (engine, length) = (train.engine, Metres(train.length));
    match &train.place {
        Some(place) => {
            let there = Whereabouts(*place);
            write!(
                text,
                "  Train {engine}, {length} m long, may be at {there}.\n"
            )
        }
        None => write!(text, "  Train {engine}, {length} m long, has no place.\n"),
    }
}

fn push_stop_identifier(
    text: &mut String,
    account: &Account,
    engine: u32,
    id: u8,
    slot: &Slot,
) -> Result<(), AllocError> {
    write!(text, "    Stop identifier {id}: ")?;
    match slot {
        Slot::Used(used) => {
            push_told_stop(text, account, engine, id, used)?;
            push_answered(text, used)
        }
        Slot::Revoking { stamp } => push_revoking(text, *stamp),
    }
}

/// Adds how a stop was told, and the stamp of the message that told it.
fn push_told_stop(
    text: &mut String,
    account: &Account,
    engine: u32,
    id: u8,
    used: &UsedSlot,
) -> Result<(), AllocError> {
    let (number, stamp) = (used.number, used.stamp);
    if used.kind == Kind::Conditional
        && let Some(told) = account.told_place(engine, id, stamp)
    {
        let before = Km(told.at);
        return write!(text, "stop {number}, before km {before}, stamp {stamp}");
    }
    write!(text, "stop {number}, at once, stamp {stamp}")
}

/// Adds whether a stop is answered, or in how many reports since it is not.
fn push_answered(text: &mut String, used: &UsedSlot) -> Result<(), AllocError> {
    if used.acked {
        text.push_str(", answered.\n")
    } else if used.count == 0 {
        text.push_str(", not answered.\n")
    } else {
        let reports = Count {
            number: used.count as usize,
            noun: "report",
        };
        let more = if used.count == MOST_REPORTS {
            " or more"
        } else {
            ""
        };
        write!(text, ",\n      not answered in {reports}{more}.\n")
    }
}

fn push_limit_identifier(text: &mut String, id: u8, slot: &Slot) -> Result<(), AllocError> {
    write!(text, "    Restriction identifier {id}: ")?;
    match slot {
        Slot::Used(used) => {
            let (number, stamp) = (used.number, used.stamp);
            let acked = if used.acked {
                "acknowledged"
            } else {
                "not acknowledged"
            };
            write!(text, "restriction {number}, stamp {stamp}, {acked}.\n")
        }
        Slot::Revoking { stamp } => push_revoking(text, *stamp),
    }
}

fn push_revoking(text: &mut String, stamp: u32) -> Result<(), AllocError> {
    write!(text, "being revoked, stamp {stamp}, not acknowledged.\n")
}

/// Adds how many acknowledgements are outstanding, and how much is not told.
fn push_owing(text: &mut String, standing: &Standing) -> Result<(), AllocError> {
    if standing.acknowledgements == 0 {
        text.push_str("Outstanding: no acknowledgement.\n")?;
    } else {
        let all = Count {
            number: standing.acknowledgements,
            noun: "acknowledgement",
        };
        let trains = Count {
            number: standing.owing,
            noun: "train",
        };
        write!(text, "Outstanding: {all} from {trains}.\n")?;
    }
    match standing.untold {
        0 => {}
        1 => text.push_str("NOT TOLD: 1 stop or restriction, as above.\n")?,
        untold => write!(
            text,
            "NOT TOLD: {untold} stops and restrictions, as above.\n"
        )?,
    }
    if standing.untold_again != 0 {
        let stops = Count {
            number: standing.untold_again,
            noun: "stop",
        };
        write!(text, "NOT TOLD AGAIN: {stops}, as above.\n")?;
    }
    Ok(())
}
