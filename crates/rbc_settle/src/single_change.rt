//! Settling a train that was settled before one stop or restriction began or ended: one message does it at most.

ghost use Rattle.std.specs.Prelude.{◌≡◌, ◌+◌, ◌≤◌, [], option_map, IfSome};
ghost use Rattle.std.specs.List.{cons_option};
ghost use Rattle.rbc_ids.specs.Table.{least_free, identifier_of};
ghost use Rattle.rbc_settle.specs.declared.change.StopChange.TheVariants as stop_change;
ghost use Rattle.rbc_settle.specs.declared.change.LimitChange.TheVariants as limit_change;
ghost use Rattle.rbc_settle.specs.Actions.{ChangesStop};
ghost use Rattle.rbc_settle.specs.Trains.{stop_identifiers, limit_identifiers};
ghost use Rattle.rbc_settle.specs.Settling.{last_stamp, tell_stop, tell_limit};
ghost use Rattle.rbc_settle.specs.Settling as settling;
ghost use Rattle.rbc_settle.specs.Following.{Allows};
ghost use Rattle.rbc_settle.specs.UpToDate.{HasTables};
ghost use Rattle.rbc_settle.specs.SingleChange.{both_of, in_one_packet, actions_for, IsCarriedOut};

use crate::carrying_out::{change_group, limits_message, stop_message};
use crate::change::{LimitChange, StopChange};
use crate::judge::LAST_STAMP;
use crate::sent::Sent;
use crate::telling::{limit_to_tell, stop_to_tell};
use crate::train::TrainRec;
use rbc_track::Track;
use rbc_zones::{Area, Limit};
use std::alloc::{AllocError, Global};
use std::cell::Cell;

/// The stop or the restriction that begins or ends, by its number: `Some` if it begins, `None` if it ends.
#[derive(Clone, Copy)]
pub enum Change<'a> {
    Stop(u32, Option<&'a Area>),
    Limit(u32, Option<&'a Limit>),
}

/// Does to a copy of a train what `settled` does, if the train was settled before this change: what begins is told, if
/// it has to be told and an identifier is free, and what ends is revoked. Judges nothing else. Returns the copy, and
/// appends its one message to `sent`. Returns `None` and leaves `sent` as it is if there is nothing to do or no stamp is
/// left. Takes memory only if there is something to do. An error leaves `sent` as it is.
pub fn settled_after(
    alloc: Global,
    track: &Track,
    change: Change<'_>,
    train: &TrainRec,
    sent: &mut Vec<Sent>,
) -> Result<Option<TrainRec>, AllocError>
    ensures { IsCarriedOut train.now (actions_for track.now change.entry train.now) sent.old.items result sent.new.items }
{
    if train.stamp >= LAST_STAMP {
        return Ok(None);
    }
    match change {
        Change::Stop(number, Some(area)) => {
            with_stop_change(alloc, train, stop_told(train, number, area), sent)
        }
        Change::Stop(number, None) => {
            with_stop_change(alloc, train, stop_revoked(train, number), sent)
        }
        Change::Limit(number, Some(limit)) => {
            let told = limit_told(track.horizon(), train, number, limit);
            with_limit_change(alloc, train, told, sent)
        }
        Change::Limit(number, None) => {
            with_limit_change(alloc, train, limit_revoked(train, number), sent)
        }
    }
}

/// Says in its contract what every train satisfies: both its tables are sound.
fn keeps(train: &TrainRec)
    ensures { HasTables train.now }
{
    let _ = train.stops.slots();
    let _ = train.limits.slots();
}

/// How a stop that begins is told, under the least free identifier, if it has to be told and there is one.
fn stop_told(train: &TrainRec, number: u32, area: &Area) -> Option<StopChange>
    ensures value { result ≡ option_map tell_stop
        (both_of (settling.stop_to_tell train.now (number, area.now)) (least_free stop_identifiers train.now.stops)) }
    ensures allowed { IfSome result (λ change. Allows train.now (ChangesStop change)) }
{
    keeps(train);
    let (number, told) = stop_to_tell(train, number, area, &Cell::new(0))?;
    let id = train.stops.least_free()?;
    Some(StopChange::Tell { id, number, told })
}

/// How a stop that ends is revoked, if it is told.
fn stop_revoked(train: &TrainRec, number: u32) -> Option<StopChange>
    ensures value { result ≡ option_map (λ id. stop_change.Revoke id None) (identifier_of train.now.stops number) }
    ensures allowed { IfSome result (λ change. Allows train.now (ChangesStop change)) }
{
    let id = train.stops.of_number(number)?;
    Some(StopChange::Revoke { id, number: None })
}

/// How a restriction that begins is told, as `stop_told` does with a stop.
fn limit_told(horizon: u32, train: &TrainRec, number: u32, limit: &Limit) -> Option<LimitChange>
    ensures value { result ≡ option_map tell_limit (both_of
        (settling.limit_to_tell horizon train.now (number, limit.now)) (least_free limit_identifiers train.now.limits)) }
    ensures allowed { IfSome result (λ change. Allows train.now (in_one_packet change)) }
{
    keeps(train);
    let (number, told) = limit_to_tell(horizon, train, number, limit, &Cell::new(0))?;
    let id = train.limits.least_free()?;
    Some(LimitChange::Tell { id, number, told })
}

/// How a restriction that ends is revoked, if it is told.
fn limit_revoked(train: &TrainRec, number: u32) -> Option<LimitChange>
    ensures value { result ≡ option_map limit_change.Revoke (identifier_of train.now.limits number) }
    ensures allowed { IfSome result (λ change. Allows train.now (in_one_packet change)) }
{
    let id = train.limits.of_number(number)?;
    Some(LimitChange::Revoke { id })
}

/// Makes a change to the stops of a copy of a train, if there is one.
fn with_stop_change(
    alloc: Global,
    train: &TrainRec,
    change: Option<StopChange>,
    sent: &mut Vec<Sent>,
) -> Result<Option<TrainRec>, AllocError>
    requires stamp { train.now.stamp + 1 ≤ last_stamp }
    requires allowed { IfSome change (λ change. Allows train.now (ChangesStop change)) }
    ensures { IsCarriedOut train.now (cons_option (option_map ChangesStop change) []) sent.old.items
        result sent.new.items }
{
    let Some(change) = change else {
        return Ok(None);
    };
    let mut after = train.copy(alloc)?;
    let message = stop_message(&after, &change);
    after.change_stop(&change)?;
    sent.push(Sent {
        engine: after.engine,
        message,
    })?;
    Ok(Some(after))
}

/// Makes a change to the restrictions of a copy of a train, if there is one.
fn with_limit_change(
    alloc: Global,
    train: &TrainRec,
    change: Option<LimitChange>,
    sent: &mut Vec<Sent>,
) -> Result<Option<TrainRec>, AllocError>
    requires stamp { train.now.stamp + 1 ≤ last_stamp }
    requires allowed { IfSome change (λ change. Allows train.now (in_one_packet change)) }
    ensures { IsCarriedOut train.now (cons_option (option_map in_one_packet change) []) sent.old.items
        result sent.new.items }
{
    let Some(change) = change else {
        return Ok(None);
    };
    let changes = [change];
    let mut after = train.copy(alloc)?;
    let message = limits_message(alloc, &after, &changes)?;
    change_group(&mut after, &changes)?;
    sent.push(Sent {
        engine: after.engine,
        message,
    })?;
    Ok(Some(after))
}
