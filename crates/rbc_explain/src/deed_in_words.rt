//! What an accepted input did, in words.

use crate::figures::{GroupOf, Stamp, Stretch, Whereabouts, push_segments, ways_words};
use rbc_account::{Acked, Deed, NoPlace, Placing};
use rbc_words::{Km, Metres};
use std::alloc::AllocError;
use std::fmt::Write;

/// The answer with which a train rejects a stop (Q_EMERGENCYSTOP, own values).
const REJECTED: u8 = 3;

/// Adds what an accepted input did. For a refused input it adds nothing.
pub(crate) fn push_deed(text: &mut String, deed: &Deed) -> Result<(), AllocError> {
    match deed {
        Deed::Enrolled { engine, length } => {
            let metres = Metres(*length);
            write!(
                text,
                "  Train {engine} is enrolled, {metres} m long. It has no place until it reports.\n"
            )
        }
        Deed::Withdrawn { engine } => write!(text, "  Train {engine} is withdrawn.\n"),
        Deed::Stopped { number, segments } => {
            write!(text, "  Stop {number} is active on ")?;
            push_segments(text, "on ", segments)
        }
        Deed::Released { number } => write!(text, "  Stop {number} is released.\n"),
        Deed::Restricted { .. } => push_restriction(text, deed),
        Deed::Lifted { number } => write!(text, "  Restriction {number} is lifted.\n"),
        _ => push_heard(text, deed),
    }
}

/// Adds that a restriction is active: its speed, which trains it is for and with which end of a train it ends.
fn push_restriction(text: &mut String, deed: &Deed) -> Result<(), AllocError> {
    let Deed::Restricted {
        number,
        segment,
        dirs,
        speed,
        front,
    } = deed
    else {
        return Ok(());
    };
    let (line, stretch) = (segment.line, Stretch(*segment));
    let (ways, end) = (ways_words(*dirs), if *front { "front" } else { "rear" });
    write!(
        text,
        "  Restriction {number} is active on line {line}, {stretch}.\n"
    )?;
    write!(
        text,
        "  {speed} km/h for trains facing {ways}; it ends with the {end} of the train.\n"
    )
}

/// Adds what a message from a train did.
fn push_heard(text: &mut String, deed: &Deed) -> Result<(), AllocError> {
    match deed {
        Deed::Reported {
            engine,
            stamp,
            placing,
        } => {
            let stamp = Stamp(*stamp);
            write!(text, "  Train {engine} reports (message 136, {stamp}).\n")?;
            push_placing(text, placing)
        }
        Deed::Answered {
            engine,
            stamp,
            id,
            number,
            answer,
            placing,
        } => {
            let (stamp, meaning) = (Stamp(*stamp), answer_words(*answer));
            write!(
                text,
                "  Train {engine} answers stop {number}, identifier {id}: {meaning}.\n"
            )?;
            write!(text, "  Message 147, {stamp}.\n")?;
            if *answer == REJECTED {
                text.push_str(
                    "  The identifier is free again, and the train is to stop at once.\n",
                )?;
            }
            push_placing(text, placing)
        }
        Deed::Acknowledged {
            engine,
            stamp,
            acked,
            all,
        } => {
            let stamp = Stamp(*stamp);
            write!(
                text,
                "  Train {engine} acknowledges its message of stamp {acked} (message 146, {stamp}).\n"
            )?;
            push_acked(text, all)
        }
        _ => Ok(()),
    }
}

/// What an answer to a stop says (Q_EMERGENCYSTOP, own values).
fn answer_words(answer: u8) -> &'static str {
    match answer {
        0 => "accepted, the end of authority is changed",
        1 => "accepted, the end of authority stays",
        2 => "accepted",
        _ => "rejected",
    }
}

/// Adds where a report places a train, or why it does not.
fn push_placing(text: &mut String, placing: &Placing) -> Result<(), AllocError> {
    match placing {
        Placing::At { place, front } => {
            let (there, front) = (Whereabouts(*place), Km(*front));
            let group = GroupOf(*place);
            write!(text, "  It may be at {there}.\n")?;
            write!(text, "  Its front is at about km {front}, by {group}.\n")
        }
        Placing::Nowhere(why) => {
            text.push_str("  It has no place: ")?;
            push_no_place(text, why)?;
            text.push_str(".\n")
        }
    }
}

fn push_no_place(text: &mut String, why: &NoPlace) -> Result<(), AllocError> {
    match why {
        NoPlace::TwoGroups => text.push_str("the report is by two balise groups (packet 1)"),
        NoPlace::Direction => {
            text.push_str("its direction, or the side of the balise group it is on, is unknown")
        }
        NoPlace::Distance => {
            text.push_str("its distance from the balise group, or a doubt of it, is unknown")
        }
        NoPlace::UnknownGroup(nid) => write!(text, "balise group {nid} is not in the track"),
        NoPlace::OffLine(line) => write!(text, "its front would lie off line {line}"),
    }
}

/// Adds what an acknowledgement did to each identifier.
fn push_acked(text: &mut String, all: &[Acked]) -> Result<(), AllocError> {
    for acked in all {
        match acked {
            Acked::StopFreed { id } => write!(text, "  Stop identifier {id} is free again.\n")?,
            Acked::RestrictionFreed { id } => {
                write!(text, "  Restriction identifier {id} is free again.\n")?
            }
            Acked::Restriction { id, number } => {
                write!(
                    text,
                    "  Restriction {number}, identifier {id}, is acknowledged.\n"
                )?
            }
        }
    }
    Ok(())
}
