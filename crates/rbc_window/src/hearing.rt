//! What a message makes of its train.

ghost use Rattle.std.specs.Prelude.{IfOk, IfErr};
ghost use Rattle.rbc_rule.specs.Codes.{IsReason, code_of};
ghost use Rattle.rbc_rule.specs.Effect.{heard};
ghost use Rattle.rbc_window.specs.Hearing.{IsHeard, IsRefused, setting};

use crate::kept::Kept;
use ertms_codec::FromTrain;
use rbc_desk::Answer;
use rbc_records::Key;
use rbc_rule::{NotChanged, Refusal, Reply, heard, list_of};
use rbc_settle::{TrainRec, settle};
use rbc_track::Track;
use rbc_zones::{Limits, Stops};
use std::alloc::Global;

/// What messages are judged by: the track, the stops and the restrictions, none of which a message changes.
#[derive(Drop)]
pub struct Scene<'a> {
    pub track: &'a Track,
    pub stops: &'a Stops,
    pub limits: &'a Limits,
}

/// The train after its message, settled, and what is kept of it, or why the message is refused. The record is made in
/// the memory of a spare one, if there is one. The given record is unchanged.
pub(crate) fn hear(
    alloc: Global,
    scene: &Scene<'_>,
    message: &FromTrain,
    before: &TrainRec,
    spare: Option<TrainRec>,
) -> Result<(TrainRec, Kept), NotChanged>
    ensures ok { IfOk result (λ done. IsHeard (setting scene.now) message.now before.now done.0 done.1) }
    ensures err { IfErr result (λ why. IsReason (heard scene.now.track.now message.now before.now) why) }
{
    let mut train = heard(alloc, scene.track, message, before, spare)?;
    let (left, entered) = (list_of(before), list_of(&train));
    let messages = settle(alloc, scene.track, scene.stops, scene.limits, &mut train)?;
    let result = Reply::Done(messages.len() as u32);
    let answer = Answer { result, messages };
    Ok((
        train,
        Kept {
            answer,
            left,
            entered,
        },
    ))
}

/// What is kept of a message that is refused.
pub(crate) fn refused(alloc: Global, refusal: Refusal) -> Kept
    ensures { IsRefused (code_of refusal) result }
{
    Kept {
        answer: Answer {
            result: Reply::Refused(refusal.code()),
            messages: Vec::new(alloc),
        },
        left: Key::Unplaced,
        entered: Key::Unplaced,
    }
}
