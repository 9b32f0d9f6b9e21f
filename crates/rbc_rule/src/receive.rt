//! Decides a message from a train.

ghost use Rattle.std.specs.Prelude.{◌≡◌, ◌+◌, ◌<◌, ◌^◌, [], ◌∷◌, ◌++◌, Some, IsTrue, IfOk, IfErr, false, ◌==◌, ◌&&◌};
ghost use Rattle.rbc_track.specs.Plan.{Plan};
ghost use Rattle.rbc_records.specs.declared.record.Key.TheVariants as key;
ghost use Rattle.rbc_records.specs.declared.record.Rec.TheVariants as rec;
ghost use Rattle.rbc_records.specs.Notes.{knows, same_key};
ghost use Rattle.rbc_settle.specs.Numbers.{has_number};
ghost use Rattle.rbc_rule.specs.declared.outcome.RuleFault.TheVariants.{OutOfMemory};
ghost use Rattle.rbc_rule.specs.World.{World};
ghost use Rattle.rbc_rule.specs.Effect.{engine_of};
ghost use Rattle.rbc_rule.specs.Right.{MayBe};
ghost use Rattle.rbc_rule.specs.Faults.{IsFaultOf};
ghost use Rattle.rbc_rule.specs.Lists.{engines_at, is_list, moves};
ghost use Rattle.rbc_rule.specs.Gathered.{heard_outcome};
ghost use Rattle.rbc_rule.specs.Touching.{has_made_room, may_be_told};
ghost use Rattle.rbc_rule.specs.declared.outcome.Reply.TheVariants.{Done};
ghost use Rattle.rbc_rule.specs.Deciding.{IsDecided, GivesOutcome, Reads};

use crate::fetch::{fetch, fetch_with_spare};
use crate::input::Input;
use crate::lists::{list_of, write_with, write_without};
use crate::outcome::{Outcome, RuleFault, SentList};
use crate::read;
use crate::refuse::{NotChanged, Refusal};
use crate::train_message::{engine_of, heard};
use ertms_codec::FromTrain;
use rbc_records::{Key, Reader, Rec, Writes};
use rbc_settle::{LIMIT_IDENTIFIERS, Numbers, STOP_IDENTIFIERS, TrainRec, settle};
use rbc_track::Track;
use rbc_zones::{Limits, Stops};
use std::alloc::Global;

/// Reads the records and decides a message from a train.
pub fn receive<S: Reader>(
    alloc: Global,
    track: &Track,
    message: &FromTrain,
    store: &mut S,
) -> Result<Outcome, RuleFault>
    requires { S.failed store.old + 1 < 2 ^ 64 }
    ensures { IsDecided track.now (Input.Received message.now) (S.notes store.old) (S.notes store.new)
        (S.failed store.old) (S.failed store.new) result }
{
    let engine = engine_of(message);
    let spare = fetch_with_spare(store, Key::Train(engine))?;
    let (writes, spare) = emptied(alloc, spare);
    let Some(before) = read::train(store, engine)? else {
        return Ok(Outcome::refused(alloc, Refusal::UnknownTrain));
    };
    let train = match heard(alloc, track, message, before, spare) {
        Ok(train) => train,
        Err(NotChanged::Refused(refusal)) => return Ok(Outcome::refused(alloc, refusal)),
        Err(NotChanged::OutOfMemory) => return Err(RuleFault::OutOfMemory),
    };
    let (left, entered) = (list_of(before), list_of(&train));
    let settles = may_be_told(message, before, &train);
    let moved = moves(alloc, engine, left, entered, writes, store)?;
    if settles {
        received(alloc, track, engine, train, moved, store)
    } else {
        noted(alloc, engine, train, moved)
    }
}

/// Whether something may have to be told to a train after its message, or revoked. A settled train that acknowledges a
/// message by its stamp stays settled, unless that frees an identifier where none was free.
fn may_be_told(message: &FromTrain, before: &TrainRec, after: &TrainRec) -> bool
    ensures { result ≡ may_be_told message.now before.now after.now }
{
    match message {
        FromTrain::Ack { .. } => {
            has_made_room(STOP_IDENTIFIERS, before.stops.held(), after.stops.held())
                || has_made_room(LIMIT_IDENTIFIERS, before.limits.held(), after.limits.held())
        }
        FromTrain::Report { .. } | FromTrain::StopAck { .. } => true,
    }
}

/// Whether all of `count` identifiers were held before, and fewer are held after.
fn has_made_room(count: usize, before: usize, after: usize) -> bool
    ensures { result ≡ has_made_room count before after }
{
    before == count && after < before
}

/// Makes the outcome for a train that stays settled after its message: its record is written, and nothing is sent. The
/// stops and the restrictions are not read. What the train writes if it moves from list to list comes first.
fn noted(alloc: Global, engine: u32, train: TrainRec, moved: Writes) -> Result<Outcome, RuleFault>
    ensures ok { IfOk result (λ outcome. outcome ≡ record {
      result = Done 0;
      writes = moved ++ (key.Train engine, Some (rec.Train train)) ∷ [];
      messages = [];
    }) }
    ensures err { IfErr result (λ fault. fault ≡ OutOfMemory) }
{
    let mut writes = moved;
    writes.set(Key::Train(engine), Some(Rec::Train(train)))?;
    Ok(Outcome::done(writes, SentList::new(alloc)))
}

/// An empty list of writes, and the record of a train that is no longer needed: both from spare writes, if there are
/// any.
fn emptied(alloc: Global, spare: Option<Writes>) -> (Writes, Option<TrainRec>)
    ensures { result.0 ≡ [] }
{
    let mut writes = spare.unwrap_or(Writes::new(alloc));
    let train = writes.empty();
    (writes, train)
}

/// Reads the two lists of a train that moves from one to the other, and returns what is written to them, in the given
/// empty list. A train that stays in its list writes nothing.
fn moves<S: Reader>(
    alloc: Global,
    engine: u32,
    left: Key,
    entered: Key,
    writes: Writes,
    store: &mut S,
) -> Result<Writes, RuleFault>
    requires room { S.failed store.old + 1 < 2 ^ 64 }
    requires empty { writes ≡ [] }
    requires left { IsTrue (is_list left) }
    requires entered { IsTrue (is_list entered) }
    requires comes { (plan : Plan) (w : World) → MayBe plan (S.notes store.old) w → same_key left entered ≡ false
        → has_number (engines_at w entered) engine ≡ false }
    ensures writes { IfOk result (λ writes. (plan : Plan) (w : World) → MayBe plan (S.notes store.new) w
        → writes ≡ moves w engine left entered) }
    ensures reads { Reads (S.notes store.old) (S.notes store.new) (S.failed store.old) (S.failed store.new) result }
{
    if left == entered {
        return Ok(writes);
    }
    fetch(store, left)?;
    fetch(store, entered)?;
    moved(alloc, engine, left, entered, writes, store)
}

/// Returns what is written to the two lists of a train that moves from one to the other, by the records that were read,
/// in the given empty list.
fn moved<S: Reader>(
    alloc: Global,
    engine: u32,
    left: Key,
    entered: Key,
    writes: Writes,
    store: &S,
) -> Result<Writes, RuleFault>
    requires empty { writes ≡ [] }
    requires left { IsTrue (is_list left) }
    requires entered { IsTrue (is_list entered) }
    requires left_known { IsTrue (knows (S.notes store.now) left) }
    requires entered_known { IsTrue (knows (S.notes store.now) entered) }
    requires apart { same_key left entered ≡ false }
    requires comes { (plan : Plan) (w : World) → MayBe plan (S.notes store.now) w
        → has_number (engines_at w entered) engine ≡ false }
    ensures writes { IfOk result (λ writes. (plan : Plan) (w : World) → MayBe plan (S.notes store.now) w
        → writes ≡ moves w engine left entered) }
    ensures fault { (plan : Plan) → IfErr result (λ fault. IsFaultOf plan fault (S.notes store.now)) }
{
    let nobody = Numbers::new(alloc);
    let others = read::engines(store, left, &nobody)?;
    let engines = read::engines(store, entered, &nobody)?;
    if engines.has(engine) {
        return Err(RuleFault::Torn);
    }
    let mut writes = writes;
    write_without(alloc, left, others, engine, &mut writes)?;
    write_with(alloc, entered, engines, engine, &mut writes)?;
    Ok(writes)
}

/// Reads the stops and the restrictions, settles a train after its message, and makes the outcome. What the train
/// writes if it moves from list to list comes first.
fn received<S: Reader>(
    alloc: Global,
    track: &Track,
    engine: u32,
    train: TrainRec,
    moved: Writes,
    store: &mut S,
) -> Result<Outcome, RuleFault>
    requires { S.failed store.old + 1 < 2 ^ 64 }
    ensures { GivesOutcome track.now (S.notes store.old) (S.notes store.new) (S.failed store.old) (S.failed store.new)
        (λ w. heard_outcome track.now w.stops w.limits engine train moved) result }
{
    fetch(store, Key::Stops)?;
    fetch(store, Key::Limits)?;
    let no_stops = Stops::new(alloc);
    let no_limits = Limits::new(alloc);
    let (stops, limits) = read::stops_and_limits(store, &no_stops, &no_limits)?;
    let mut train = train;
    let sent = settle(alloc, track, stops, limits, &mut train)?;
    let mut writes = moved;
    writes.set(Key::Train(engine), Some(Rec::Train(train)))?;
    Ok(Outcome::done(writes, SentList::from_vec(sent)))
}
