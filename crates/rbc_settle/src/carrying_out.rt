//! Carrying out the changes to a train, and sending the messages that say so.

ghost use Rattle.std.specs.Prelude.{◌≡◌, ℕ, ◌+◌, ◌^◌, ◌<◌, ◌≤◌, length, map, fold, IfOk, OnOk};
ghost use Rattle.ertms_codec.specs.PacketsToTrain.{PacketFits, ArePacketsThatFit, most_packets};
ghost use Rattle.ertms_codec.specs.ToTrain.{Fits};
ghost use Rattle.rbc_settle.specs.declared.change.StopChange.TheVariants.{Tell};
ghost use Rattle.rbc_settle.specs.Trains.{stop_identifiers};
ghost use Rattle.rbc_settle.specs.Actions.{ChangesStop, ChangesLimits, groups};
ghost use Rattle.rbc_settle.specs.Settling.{head_of, limit_changed, packet_of, carried_out, message_of};
ghost use Rattle.rbc_settle.specs.Following.{CanChangeAll, Allows};
ghost use Rattle.rbc_settle.specs.Sending.{CanTake, HasTaken, AreBehind};
ghost use Rattle.rbc_settle.specs.UpToDate.{HasTables};

use crate::change::{LimitChange, StopChange, ToldStop};
use crate::sent::Sent;
use crate::train::TrainRec;
use ertms_codec::{Head, MOST_PACKETS, Packets, Part, ToTrain};
use rbc_ids::{IdTable, Kind};
use std::alloc::{AllocError, Global};

/// NID_LRBG of a message to a train without a place.
const UNKNOWN_GROUP: u32 = 16_777_215;

/// Q_DIR of a revoked restriction: both directions.
const BOTH: u8 = 2;

/// Makes changes to the stops, one after another, and appends the message of each to `sent`.
pub fn change_stops(
    train: &mut TrainRec,
    changes: &[StopChange],
    sent: &mut Vec<Sent>,
) -> Result<(), AllocError>
    requires { CanTake train.old (map ChangesStop changes.now) }
    ensures taken { OnOk result (HasTaken train.old
        (map ChangesStop changes.now) sent.old.items train.new sent.new.items) }
    ensures behind { AreBehind sent.old.items sent.new.items }
{
    for change in changes {
        let message = stop_message(train, change);
        train.change_stop(change)?;
        sent.push(Sent {
            engine: train.engine,
            message,
        })?;
    }
    Ok(())
}

/// Makes changes to the restrictions, one after another, and appends a message for each hundred of them to `sent`.
pub fn change_limits(
    alloc: Global,
    train: &mut TrainRec,
    changes: &[LimitChange],
    sent: &mut Vec<Sent>,
) -> Result<(), AllocError>
    requires { CanTake train.old (map ChangesLimits (groups changes.now)) }
    ensures taken { OnOk result (HasTaken train.old
        (map ChangesLimits (groups changes.now)) sent.old.items train.new sent.new.items) }
    ensures behind { AreBehind sent.old.items sent.new.items }
{
    let mut rest = changes;
    while !rest.is_empty() {
        let (group, behind) = rest.split_at(rest.len().min(MOST_PACKETS));
        let message = limits_message(alloc, train, group)?;
        change_group(train, group)?;
        sent.push(Sent {
            engine: train.engine,
            message,
        })?;
        rest = behind;
    }
    Ok(())
}

/// Returns the message that makes a change to the stops, with the next stamp.
pub(crate) fn stop_message(train: &TrainRec, change: &StopChange) -> ToTrain
    requires stamp { train.now.stamp + 1 < 2 ^ 32 }
    requires tables { HasTables train.now }
    requires allowed { Allows train.now (ChangesStop change.now) }
    ensures message { result ≡ message_of train.now (ChangesStop change.now) }
    ensures fits { Fits result }
{
    match *change {
        StopChange::Revoke { id, .. } => ToTrain::Revoke {
            head: head_of(train, true),
            id,
        },
        StopChange::Tell { id, told, .. } => told_message(train, id, told),
    }
}

/// Returns the message that tells a stop under an identifier.
fn told_message(train: &TrainRec, id: u8, told: ToldStop) -> ToTrain
    requires stamp { train.now.stamp + 1 < 2 ^ 32 }
    requires one_of_them { id < stop_identifiers }
    ensures message { (number : ℕ) → result ≡ message_of train.now (ChangesStop (Tell id number told)) }
    ensures fits { Fits result }
{
    let head = head_of(train, false);
    match told {
        ToldStop::AtOnce => ToTrain::Stop { head, id },
        ToldStop::Before(edge) => ToTrain::StopAt {
            head,
            id,
            scale: edge.scale,
            reference: 0,
            dir: edge.dir,
            distance: edge.distance,
        },
    }
}

/// Returns the message that makes 1 to 100 changes to the restrictions, with the next stamp.
pub(crate) fn limits_message(
    alloc: Global,
    train: &TrainRec,
    changes: &[LimitChange],
) -> Result<ToTrain, AllocError>
    requires stamp { train.now.stamp + 1 < 2 ^ 32 }
    requires some { 1 ≤ length changes.now }
    requires most { length changes.now ≤ most_packets }
    ensures message { IfOk result (λ message. message ≡ message_of train.now (ChangesLimits changes.now)) }
    ensures fits { IfOk result (λ message. Fits message) }
{
    let head = head_of(train, true);
    let packets = packets_of(alloc, changes)?;
    Ok(ToTrain::General { head, packets })
}

/// Returns the head of the next message.
fn head_of(train: &TrainRec, ack: bool) -> Head
    requires { train.now.stamp + 1 < 2 ^ 32 }
    ensures head { result ≡ head_of train.now ack }
    ensures group { result.lrbg ≤ 16777215 }
{
    Head {
        stamp: train.stamp + 1,
        ack,
        lrbg: train
            .place
            .as_ref()
            .map_or(UNKNOWN_GROUP, |place| place.lrbg()),
    }
}

/// Makes the changes of one message to the restrictions, under the identifiers that they name.
pub(crate) fn change_group(train: &mut TrainRec, changes: &[LimitChange]) -> Result<(), AllocError>
    requires stamp { train.old.stamp + 1 < 2 ^ 32 }
    requires allowed { Allows train.old (ChangesLimits changes.now) }
    ensures { OnOk result (train.new ≡ carried_out train.old (ChangesLimits changes.now)) }
{
    let stamp = train.stamp + 1;
    change_all(&mut train.limits, stamp, changes)?;
    train.stamp = stamp;
    Ok(())
}

/// Makes changes that have one stamp to a table of restrictions, one after another.
fn change_all(
    limits: &mut IdTable<255>,
    stamp: u32,
    changes: &[LimitChange],
) -> Result<(), AllocError>
    requires { CanChangeAll stamp limits.old changes.now }
    ensures { OnOk result (limits.new ≡ fold (limit_changed stamp) limits.old changes.now) }
{
    for change in changes {
        match *change {
            LimitChange::Revoke { id } => limits.revoke(id, stamp),
            LimitChange::Tell { id, number, .. } => {
                limits.tell(id, number, stamp, Kind::Restriction)?
            }
        }
    }
    Ok(())
}

/// Returns the packets of 1 to 100 changes, in their order.
fn packets_of(alloc: Global, changes: &[LimitChange]) -> Result<Packets, AllocError>
    requires some { 1 ≤ length changes.now }
    requires most { length changes.now ≤ most_packets }
    ensures packets { IfOk result (λ packets. packets ≡ map packet_of changes.now) }
    ensures fit { IfOk result (λ packets. ArePacketsThatFit packets) }
{
    let mut packets = Packets::of(alloc, packet_of(&changes[0]))?;
    for change in &changes[1..] {
        packets.push(packet_of(change))?;
    }
    Ok(packets)
}

/// Returns the packet of a change to the restrictions.
fn packet_of(change: &LimitChange) -> Part
    ensures packet { result ≡ packet_of change.now }
    ensures fits { PacketFits result }
{
    match *change {
        LimitChange::Revoke { id } => Part::Lift { dir: BOTH, id },
        LimitChange::Tell { id, told, .. } => Part::Restrict {
            dir: told.dir,
            scale: told.scale,
            id,
            start: told.start,
            length: told.length,
            front: told.front,
            speed: told.speed,
        },
    }
}
