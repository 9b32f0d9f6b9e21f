//! Decides the enrolment of a train.

ghost use Rattle.std.specs.Prelude.{◌≡◌, ◌+◌, ◌<◌, ◌^◌, IsTrue, IfOk, IfErr, OnOk, false};
ghost use Rattle.rbc_records.specs.declared.record.Key.TheVariants as key;
ghost use Rattle.rbc_records.specs.Notes.{knows};
ghost use Rattle.rbc_settle.specs.Numbers.{has_number};
ghost use Rattle.rbc_settle.specs.Trains.{new_train};
ghost use Rattle.rbc_rule.specs.Inputs as inputs;
ghost use Rattle.rbc_rule.specs.Right.{EachWriteChanges, IsRight, IsSilentIfRefused};
ghost use Rattle.rbc_rule.specs.Faults.{IsFaultOf};
ghost use Rattle.rbc_rule.specs.Gathered.{AreSendable, enrolled_outcome};
ghost use Rattle.rbc_rule.specs.Deciding.{IsDecided};

use crate::fetch::fetch;
use crate::input::Input;
use crate::lists::write_with;
use crate::maxima::MAX_TRAINS;
use crate::outcome::{Outcome, RuleFault, SentList};
use crate::read;
use crate::refuse::Refusal;
use rbc_records::{Key, Reader, Rec, Writes};
use rbc_settle::{Numbers, TrainRec, settle};
use rbc_track::Track;
use rbc_zones::{Limits, Stops};
use std::alloc::{AllocError, Global};

/// Reads the records and decides the enrolment of a train.
pub fn enrol<S: Reader>(
    alloc: Global,
    track: &Track,
    engine: u32,
    train_length: u32,
    store: &mut S,
) -> Result<Outcome, RuleFault>
    requires room { S.failed store.old + 1 < 2 ^ 64 }
    requires fits { inputs.Fits (Input.Enrol engine train_length) }
    ensures { IsDecided track.now (Input.Enrol engine train_length) (S.notes store.old) (S.notes store.new)
        (S.failed store.old) (S.failed store.new) result }
{
    fetch(store, Key::Roster)?;
    fetch(store, Key::Unplaced)?;
    fetch(store, Key::Stops)?;
    fetch(store, Key::Limits)?;
    enrolled(alloc, track, engine, train_length, store)
}

/// Decides the enrolment of a train by the records that were read.
fn enrolled<S: Reader>(
    alloc: Global,
    track: &Track,
    engine: u32,
    train_length: u32,
    store: &S,
) -> Result<Outcome, RuleFault>
    requires fits { inputs.Fits (Input.Enrol engine train_length) }
    requires roster { IsTrue (knows (S.notes store.now) key.Roster) }
    requires unplaced { IsTrue (knows (S.notes store.now) key.Unplaced) }
    requires stops { IsTrue (knows (S.notes store.now) key.Stops) }
    requires limits { IsTrue (knows (S.notes store.now) key.Limits) }
    ensures right { IfOk result (λ outcome. IsRight track.now (Input.Enrol engine train_length)
        (S.notes store.now) outcome.result outcome.writes outcome.messages) }
    ensures changes { IfOk result (λ outcome. EachWriteChanges track.now (Input.Enrol engine train_length)
        (S.notes store.now) outcome.writes) }
    ensures refused { IfOk result (λ outcome. IsSilentIfRefused outcome.result outcome.writes outcome.messages) }
    ensures fit { IfOk result (λ outcome. AreSendable outcome.messages) }
    ensures fault { IfErr result (λ fault. IsFaultOf track.now fault (S.notes store.now)) }
{
    let nobody = Numbers::new(alloc);
    let engines = read::engines(store, Key::Roster, &nobody)?;
    if engines.has(engine) {
        return Ok(Outcome::refused(alloc, Refusal::AlreadyEnrolled));
    }
    if engines.len() >= MAX_TRAINS {
        return Ok(Outcome::refused(alloc, Refusal::TooManyTrains));
    }
    let unplaced = read::engines(store, Key::Unplaced, &nobody)?;
    if unplaced.has(engine) {
        return Err(RuleFault::Torn);
    }
    let no_stops = Stops::new(alloc);
    let no_limits = Limits::new(alloc);
    let (stops, limits) = read::stops_and_limits(store, &no_stops, &no_limits)?;
    let train = TrainRec::new(alloc, engine, train_length, 0);
    let outcome = enrolled_outcome(alloc, track, train, engines, unplaced, stops, limits)?;
    Ok(outcome)
}

/// Makes the outcome for a new train, beside the engines that are enrolled, and those of them without a place.
fn enrolled_outcome(
    alloc: Global,
    track: &Track,
    train: TrainRec,
    engines: &Numbers,
    unplaced: &Numbers,
    stops: &Stops,
    limits: &Limits,
) -> Result<Outcome, AllocError>
    requires new { has_number engines.now train.engine ≡ false }
    requires unplaced { has_number unplaced.now train.engine ≡ false }
    requires plain { train ≡ new_train train.engine train.length 0 }
    ensures outcome { IfOk result (λ outcome. outcome
        ≡ enrolled_outcome track.now stops.now limits.now train.engine train.length engines.now unplaced.now) }
    ensures refused { IfOk result (λ outcome. IsSilentIfRefused outcome.result outcome.writes outcome.messages) }
    ensures fit { IfOk result (λ outcome. AreSendable outcome.messages) }
{
    let mut train = train;
    let engine = train.engine;
    let sent = settle(alloc, track, stops, limits, &mut train)?;
    let mut writes = Writes::new(alloc);
    write_with(alloc, Key::Roster, engines, engine, &mut writes)?;
    writes.set(Key::Train(engine), Some(Rec::Train(train)))?;
    write_with(alloc, Key::Unplaced, unplaced, engine, &mut writes)?;
    Ok(Outcome::done(writes, SentList::from_vec(sent)))
}
