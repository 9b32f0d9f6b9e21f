//! A message to a train in words: what it says, and why it was sent.

ghost use Rattle.std.specs.Prelude.{OnOk};
ghost use Rattle.rbc_explain.specs.Telling.{IsSaidOn, Tells, TellsStop};

use crate::log::push_words;
use crate::restriction::push_restrictions;
use crate::said::spoken_by;
use crate::sentence::stop_sentence;
use crate::stop_reason::{at_once_text, before_text, left_under, revoked_text};
use rbc_account::{Told, ToldWhat};
use rbc_settle::Sent;
use rbc_track::Track;
use std::alloc::{AllocError, Global};

/// Adds what a message says, and why it was sent. For a message that no record accounts for it adds nothing.
pub(crate) fn push_message(
    alloc: Global,
    log: &mut Vec<u8>,
    track: &Track,
    sent: &Sent,
    told: &Told,
) -> Result<(), AllocError>
    ensures { OnOk result (IsSaidOn (Tells track.now sent.now told.now.place told.now.what)
        log.old.items log.new.items) }
{
    let (message, place) = (&sent.message, &told.place);
    match &told.what {
        ToldWhat::StopBefore {
            number,
            before,
            edge,
            unit,
        } => {
            push_stop_sentence(alloc, log, track, sent, *number, false)?;
            let reason = before_text(alloc, message, place, *before, *edge, *unit)?;
            push_words(log, reason.as_bytes())
        }
        ToldWhat::StopAtOnce { number, why } => {
            push_stop_sentence(alloc, log, track, sent, *number, false)?;
            let reason = at_once_text(alloc, message, place, *number, why)?;
            push_words(log, reason.as_bytes())
        }
        ToldWhat::StopRevoked { number, unanswered } => {
            push_stop_sentence(alloc, log, track, sent, *number, *unanswered)?;
            let left = left_under(message, *unanswered);
            let reason = revoked_text(alloc, message, *number, left)?;
            push_words(log, reason.as_bytes())
        }
        ToldWhat::Restrictions(all) => push_restrictions(alloc, log, track, sent, place, all),
        // It never occurs in a block.
        ToldWhat::Unknown => Ok(()),
    }
}

/// Adds the sentence on a message on a stop of this number, from what the message says.
fn push_stop_sentence(
    alloc: Global,
    log: &mut Vec<u8>,
    track: &Track,
    sent: &Sent,
    number: u32,
    is_escalated: bool,
) -> Result<(), AllocError>
    ensures { OnOk result (IsSaidOn (TellsStop track.now sent.now number is_escalated) log.old.items log.new.items) }
{
    match spoken_by(track, &sent.message, is_escalated) {
        Some(said) => {
            let sentence = stop_sentence(alloc, sent.engine, number, &said)?;
            log.extend_from_slice(sentence.as_bytes())
        }
        None => Ok(()),
    }
}
