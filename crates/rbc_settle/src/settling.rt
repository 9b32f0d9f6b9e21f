//! Settling one train.

ghost use Rattle.std.specs.Prelude.{◌≡◌, ◌+◌, ◌≤◌, [], ◌++◌, map, length, IfOk, OnOk, OnErr, IfSome, IfNone, IsTrue};
ghost use Rattle.std.specs.Prelude.{false};
ghost use Rattle.std.specs.List.{All};
ghost use Rattle.ertms_codec.specs.ToTrain.{Fits};
ghost use Rattle.rbc_settle.specs.Settling.{most_messages, in_messages, actions_with_stamp, settled, messages_of};
ghost use Rattle.rbc_settle.specs.Settling.{to_engine};
ghost use Rattle.rbc_settle.specs.Sending.{CanTake, HasTaken, AreBehind};
ghost use Rattle.rbc_settle.specs.UpToDate.{IsUpToDateOrAtTheEnd};

use crate::carrying_out::{change_limits, change_stops};
use crate::judge::changes;
use crate::needed_changes::Changes;
use crate::sent::Sent;
use crate::train::TrainRec;
use rbc_track::Track;
use rbc_zones::{Limits, Stops};
use std::alloc::{AllocError, Global};

/// Brings a copy of a train up to date (own rule). Stops that are not active any more, or are escalated, are revoked,
/// and stops that concern the train are told, each by a message; then the same is done with restrictions, a hundred to
/// a message. All of it is judged before the first change, and each message takes the next stamp, as long as stamps are
/// left.
///
/// Returns the copy, and appends its 1 to 36 messages to `sent`, in their order. Returns `None` and leaves `sent` as it
/// is if there is nothing to do or no stamp is left. Takes memory only if there is something to do. An error leaves
/// `sent` as it is.
pub fn settled(
    alloc: Global,
    track: &Track,
    stops: &Stops,
    limits: &Limits,
    train: &TrainRec,
    sent: &mut Vec<Sent>,
) -> Result<Option<TrainRec>, AllocError>
    ensures none { IfOk result (λ found. IfNone found
        (actions_with_stamp track.now stops.now limits.now train.now ≡ [])) }
    ensures some { IfOk result (λ found. IfSome found
        (λ after. 1 ≤ length (actions_with_stamp track.now stops.now limits.now train.now))) }
    ensures train { IfOk result (λ found. IfSome found
        (λ after. after ≡ settled track.now stops.now limits.now train.now)) }
    ensures messages { OnOk result
        (sent.new.items ≡ sent.old.items
        ++ to_engine train.now.engine (messages_of track.now stops.now limits.now train.now)) }
    ensures err { OnErr result (sent.new.items ≡ sent.old.items) }
    ensures fit { All (λ one. Fits one.message) sent.old.items
        → OnOk result (All (λ one. Fits one.message) sent.new.items) }
    ensures few { OnOk result (length sent.new.items ≤ length sent.old.items + most_messages) }
    ensures up_to_date { OnOk result
        (IsUpToDateOrAtTheEnd track.now stops.now limits.now (settled track.now stops.now limits.now train.now)) }
{
    let changes = changes(alloc, track, stops, limits, train)?;
    if are_none(&changes) {
        return Ok(None);
    }
    let after = changed(alloc, train, &changes, sent)?;
    Ok(Some(after))
}

/// Whether a train is settled: nothing has to be told to it or revoked, or no stamp is left. Takes memory only if it is
/// not settled.
pub fn is_settled(
    alloc: Global,
    track: &Track,
    stops: &Stops,
    limits: &Limits,
    train: &TrainRec,
) -> Result<bool, AllocError>
    ensures settled { IfOk result (λ is. IsTrue is
        → actions_with_stamp track.now stops.now limits.now train.now ≡ []) }
    ensures unsettled { IfOk result (λ is. is ≡ false
        → 1 ≤ length (actions_with_stamp track.now stops.now limits.now train.now)) }
{
    let changes = changes(alloc, track, stops, limits, train)?;
    Ok(are_none(&changes))
}

/// Whether there is nothing to change.
fn are_none(changes: &Changes) -> bool
    ensures none { IsTrue result → in_messages changes.now.stops.items changes.now.limits.items ≡ [] }
    ensures some { result ≡ false → 1 ≤ length (in_messages changes.now.stops.items changes.now.limits.items) }
{
    changes.stops.is_empty() && changes.limits.is_empty()
}

/// Makes all changes to a copy of a train, which it returns, and appends their messages to `sent`. An error leaves
/// `sent` as it is.
fn changed(
    alloc: Global,
    train: &TrainRec,
    changes: &Changes,
    sent: &mut Vec<Sent>,
) -> Result<TrainRec, AllocError>
    requires { CanTake train.now (in_messages changes.now.stops.items changes.now.limits.items) }
    ensures taken { IfOk result (λ after. HasTaken train.now
        (in_messages changes.now.stops.items changes.now.limits.items) sent.old.items after sent.new.items) }
    ensures err { OnErr result (sent.new.items ≡ sent.old.items) }
{
    let mut after = train.copy(alloc)?;
    let before = sent.len();
    if change(alloc, &mut after, changes, sent).is_err() {
        sent.truncate(before);
        return Err(AllocError);
    }
    Ok(after)
}

/// Makes all changes to a train, and appends their messages to `sent`.
fn change(
    alloc: Global,
    train: &mut TrainRec,
    changes: &Changes,
    sent: &mut Vec<Sent>,
) -> Result<(), AllocError>
    requires { CanTake train.old (in_messages changes.now.stops.items changes.now.limits.items) }
    ensures taken { OnOk result (HasTaken train.old
        (in_messages changes.now.stops.items changes.now.limits.items) sent.old.items train.new sent.new.items) }
    ensures behind { AreBehind sent.old.items sent.new.items }
{
    change_stops(train, &changes.stops, sent)?;
    change_limits(alloc, train, &changes.limits, sent)
}

/// Brings a train up to date as `settled` does, and returns the messages that do it, in their order. Takes memory only
/// if there is something to do. An error leaves the train unchanged.
pub fn settle(
    alloc: Global,
    track: &Track,
    stops: &Stops,
    limits: &Limits,
    train: &mut TrainRec,
) -> Result<Vec<Sent>, AllocError>
    ensures train { OnOk result (train.new ≡ settled track.now stops.now limits.now train.old) }
    ensures messages { IfOk result
        (λ sent. map (λ one. one.message) sent.items ≡ messages_of track.now stops.now limits.now train.old) }
    ensures engine { IfOk result (λ sent. All (λ one. one.engine ≡ train.old.engine) sent.items) }
    ensures fit { IfOk result (λ sent. All (λ one. Fits one.message) sent.items) }
    ensures few { IfOk result (λ sent. length sent.items ≤ most_messages) }
    ensures up_to_date { OnOk result (IsUpToDateOrAtTheEnd track.now stops.now limits.now train.new) }
    ensures err { OnErr result (train.new ≡ train.old) }
{
    let mut sent = Vec::new(alloc);
    if let Some(after) = settled(alloc, track, stops, limits, train, &mut sent)? {
        *train = after;
    }
    Ok(sent)
}
