//! Takes a message into the record of its train, where that stands in a store.

ghost use Rattle.std.specs.Prelude.{◌≡◌, [], Ok, Some, None, IsTrue, IfOk, IfSome, OnErr, option_copied, false};
ghost use Rattle.std.specs.List.{list_any};
ghost use Rattle.rbc_records.specs.declared.record.Key.TheVariants as key;
ghost use Rattle.rbc_records.specs.declared.record.Rec.TheVariants as rec;
ghost use Rattle.rbc_records.specs.Notes.{record_in};
ghost use Rattle.rbc_settle.specs.declared.train.TrainRec.{TrainRec};
ghost use Rattle.rbc_settle.specs.Settling.{actions_with_stamp};
ghost use Rattle.rbc_maps.specs.Numbered.{none_numbered};
ghost use Rattle.rbc_track.specs.Plan.{Plan};
ghost use Rattle.rbc_rule.specs.World.{World};
ghost use Rattle.rbc_rule.specs.WellFormed.{IsWellFormed};
ghost use Rattle.rbc_rule.specs.Records.{list_of, record_of};
ghost use Rattle.rbc_rule.specs.Codes.{code_of};
ghost use Rattle.rbc_rule.specs.Effect.{heard};
ghost use Rattle.rbc_rule.specs.declared.outcome.Reply.TheVariants.{Refused};
ghost use Rattle.rbc_rule.specs.declared.refuse.Refusal.TheVariants.{UnknownTrain};
ghost use Rattle.rbc_rule.specs.InPlace.{AreSame, IsHeardInPlace, has_room, is_counted, list_at, stamp_after};

use crate::outcome::Reply;
use crate::refuse::Refusal;
use crate::train_message::{UNKNOWN_STAMP, engine_of, is_too_high};
use ertms_codec::FromTrain;
use rbc_ids::IdTable;
use rbc_place::{Place, place_of};
use rbc_records::{Key, PlainStore, Rec};
use rbc_settle::{LIMIT_IDENTIFIERS, STOP_IDENTIFIERS, Slot, TrainRec, is_settled};
use rbc_track::Track;
use rbc_zones::{Limits, Stops};
use std::alloc::{AllocError, Global};

/// Takes a message into the record of its train where that stands, if the message changes nothing else, and nothing is
/// to be told to the train or revoked; or refuses it, if the train is not enrolled. Returns the reply. After `None`,
/// and after an error, each record is as before: then the message has to be decided.
pub fn hear_in_place(
    alloc: Global,
    track: &Track,
    message: &FromTrain,
    store: &mut PlainStore,
) -> Result<Option<Reply>, AllocError>
    ensures heard { IfOk result (λ reply. IfSome reply
        (λ reply. IsHeardInPlace track.now message.now reply store.old store.new)) }
    ensures same { IfOk result (λ reply. reply ≡ None → AreSame store.old store.new) }
    ensures err { OnErr result (AreSame store.old store.new) }
{
    match message {
        FromTrain::Report { .. } => move_in_place(alloc, track, message, store),
        FromTrain::Ack { .. } => Ok(acknowledge_in_place(message, store)),
        FromTrain::StopAck { .. } => Ok(None),
    }
}

/// The reply to a message from a train that is not enrolled.
fn unknown_train() -> Reply
    ensures { result ≡ Refused (code_of UnknownTrain) }
{
    Reply::Refused(Refusal::UnknownTrain.code())
}

/// Takes an acknowledgement of a message by its stamp into the record of its train, if the train holds neither all
/// identifiers for stops nor all for restrictions: then it frees none for which something waits.
fn acknowledge_in_place(message: &FromTrain, store: &mut PlainStore) -> Option<Reply>
    ensures heard { IfSome result (λ reply. (plan : Plan)
        → IsHeardInPlace plan message.now reply store.old store.new) }
    ensures same { result ≡ None → AreSame store.old store.new }
{
    let FromTrain::Ack {
        stamp,
        engine,
        acked,
    } = message
    else {
        return None;
    };
    let Some(before) = train_in(store, *engine) else {
        return Some(unknown_train());
    };
    if is_too_high(*stamp) || !has_room(before) {
        return None;
    }
    let raised = stamp_after(before.stamp, *stamp);
    if store.acknowledge(*engine, *acked, raised) {
        Some(Reply::Done(0))
    } else {
        None
    }
}

/// Whether a train holds neither all identifiers for stops nor all for restrictions.
fn has_room(train: &TrainRec) -> bool
    ensures { result ≡ has_room train.now }
{
    train.stops.held() < STOP_IDENTIFIERS && train.limits.held() < LIMIT_IDENTIFIERS
}

/// The stamp of a train after T_TRAIN of its message: the later one, or its own if T_TRAIN is unknown.
fn stamp_after(before: u32, stamp: u32) -> u32
    ensures { result ≡ stamp_after before stamp }
{
    if stamp == UNKNOWN_STAMP {
        before
    } else {
        before.max(stamp)
    }
}

/// Takes a position report into the record of its train where that stands, if the report changes nothing but the
/// train's place and its stamp: the train stays in its list, no stop counts the report, and nothing has to be told to
/// the train or revoked. Returns the reply. After `None`, and after an error, each record is as before.
fn move_in_place(
    alloc: Global,
    track: &Track,
    message: &FromTrain,
    store: &mut PlainStore,
) -> Result<Option<Reply>, AllocError>
    ensures heard { IfOk result (λ reply. IfSome reply
        (λ reply. IsHeardInPlace track.now message.now reply store.old store.new)) }
    ensures same { IfOk result (λ reply. reply ≡ None → AreSame store.old store.new) }
    ensures err { OnErr result (AreSame store.old store.new) }
{
    let engine = engine_of(message);
    let Some(before) = train_in(store, engine) else {
        return Ok(Some(unknown_train()));
    };
    let Some((place, stamp)) = moved(track, message, before) else {
        return Ok(None);
    };
    let (old_place, old_stamp) = (before.place, before.stamp);
    store.move_train(engine, place, stamp);
    let settled = is_settled_in(alloc, track, store, engine);
    if let Ok(true) = settled {
        return Ok(Some(Reply::Done(0)));
    }
    store.move_train(engine, old_place, old_stamp);
    settled?;
    Ok(None)
}

/// The train with this engine number, if it has a record.
fn train_in(store: &PlainStore, engine: u32) -> Option<&TrainRec>
    ensures found { IfSome (option_copied result)
        (λ train. record_in store.now (key.Train engine) ≡ Some (rec.Train train)) }
    ensures none { result ≡ None → (train : TrainRec) → record_in store.now (key.Train engine) ≡ Some (rec.Train train) → ⊥ }
{
    match store.get(Key::Train(engine)) {
        Some(Rec::Train(train)) => Some(train),
        _ => None,
    }
}

/// The place and the stamp of a train after its message, if that is a position report by which nothing else of its
/// record changes and it stays in its list.
fn moved(track: &Track, message: &FromTrain, before: &TrainRec) -> Option<(Option<Place>, u32)>
    ensures heard { IfSome result (λ to. heard track.now message.now before.now
        ≡ Ok (record before.now { place = to.0; stamp = to.1 })) }
    ensures list { IfSome result (λ to. list_of (record before.now { place = to.0; stamp = to.1 })
        ≡ list_of before.now) }
{
    let FromTrain::Report {
        stamp,
        position,
        ..
    } = message
    else {
        return None;
    };
    if is_too_high(*stamp) || counts_reports(&before.stops) {
        return None;
    }
    let place = place_of(track, position, before.length);
    if !is_same_list(&place, &before.place) {
        return None;
    }
    Some((place, stamp_after(before.stamp, *stamp)))
}

/// Whether a train at one place stands in the same list as at another.
fn is_same_list(one: &Option<Place>, other: &Option<Place>) -> bool
    ensures { IsTrue result → list_at one.now ≡ list_at other.now }
{
    match (one, other) {
        (Some(one), Some(other)) => one.line() == other.line(),
        (None, None) => true,
        _ => false,
    }
}

/// Whether a stop counts the reports of the train.
fn counts_reports(stops: &IdTable<15>) -> bool
    ensures { result ≡ list_any (λ held. is_counted held.1) stops.now }
{
    stops.slots().iter().any(|held| is_counted(held.1))
}

/// Whether a slot counts the reports of the train: it tells a stop conditionally, which the train has not acknowledged.
fn is_counted(slot: Slot) -> bool
    ensures { result ≡ is_counted slot }
{
    match slot {
        Slot::Used(used) => used.is_unanswered(),
        Slot::Revoking { .. } => false,
    }
}

/// Whether a train that is in a store is settled by the stops and the restrictions there.
fn is_settled_in(
    alloc: Global,
    track: &Track,
    store: &PlainStore,
    engine: u32,
) -> Result<bool, AllocError>
    ensures { IfOk result (λ is. IsTrue is → (w : World) (train : TrainRec) → IsWellFormed track.now w
        → record_in store.now key.Stops ≡ record_of w key.Stops
        → record_in store.now key.Limits ≡ record_of w key.Limits
        → record_in store.now (key.Train engine) ≡ Some (rec.Train train)
        → actions_with_stamp track.now w.stops w.limits train ≡ []) }
{
    let (no_stops, no_limits) = (Stops::new(alloc), Limits::new(alloc));
    let (stops, limits) = (stops_in(store, &no_stops), limits_in(store, &no_limits));
    match train_in(store, engine) {
        Some(train) => is_settled(alloc, track, stops, limits, train),
        None => Ok(false),
    }
}

/// The stops in a store, or `none`, which the caller lends, if there never was one.
fn stops_in<'a>(store: &'a PlainStore, none: &'a Stops) -> &'a Stops
    requires { none.now ≡ none_numbered }
    ensures { (plan : Plan) (w : World) → IsWellFormed plan w
        → record_in store.now key.Stops ≡ record_of w key.Stops → result.now ≡ w.stops }
{
    match store.get(Key::Stops) {
        Some(Rec::Stops(stops)) => stops,
        _ => none,
    }
}

/// The restrictions in a store, or `none`, which the caller lends, if there never was one.
fn limits_in<'a>(store: &'a PlainStore, none: &'a Limits) -> &'a Limits
    requires { none.now ≡ none_numbered }
    ensures { (plan : Plan) (w : World) → IsWellFormed plan w
        → record_in store.now key.Limits ≡ record_of w key.Limits → result.now ≡ w.limits }
{
    match store.get(Key::Limits) {
        Some(Rec::Limits(limits)) => limits,
        _ => none,
    }
}
