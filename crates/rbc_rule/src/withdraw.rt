//! Decides the withdrawal of a train.

ghost use Rattle.std.specs.Prelude.{◌≡◌, ◌+◌, ◌<◌, ◌^◌, IsTrue, IfOk, IfErr, OnOk};
ghost use Rattle.rbc_track.specs.Plan.{Plan};
ghost use Rattle.rbc_maps.specs.Maps.{keys};
ghost use Rattle.rbc_records.specs.declared.record.Key.TheVariants as key;
ghost use Rattle.rbc_records.specs.Notes.{knows};
ghost use Rattle.rbc_rule.specs.Right.{IsSilentIfRefused};
ghost use Rattle.rbc_rule.specs.Lists.{engines_at, is_list};
ghost use Rattle.rbc_rule.specs.Gathered.{AreSendable, withdrawn_outcome};
ghost use Rattle.rbc_rule.specs.Deciding.{IsDecided, MakesOutcome};

use crate::fetch::fetch;
use crate::input::Input;
use crate::lists::{list_of, write_without};
use crate::outcome::{Outcome, RuleFault, SentList};
use crate::read;
use crate::refuse::Refusal;
use rbc_records::{Key, Reader, Writes};
use rbc_settle::Numbers;
use rbc_track::Track;
use std::alloc::{AllocError, Global};

/// Reads the records and decides the withdrawal of a train.
pub fn withdraw<S: Reader>(
    alloc: Global,
    track: &Track,
    engine: u32,
    store: &mut S,
) -> Result<Outcome, RuleFault>
    requires { S.failed store.old + 1 < 2 ^ 64 }
    ensures { IsDecided track.now (Input.Withdraw engine) (S.notes store.old) (S.notes store.new)
        (S.failed store.old) (S.failed store.new) result }
{
    fetch(store, Key::Train(engine))?;
    let Some(train) = read::train(store, engine)? else {
        return Ok(Outcome::refused(alloc, Refusal::UnknownTrain));
    };
    if train.stops.held() != 0 {
        return Ok(Outcome::refused(alloc, Refusal::StopsOutstanding));
    }
    let list = list_of(train);
    fetch(store, Key::Roster)?;
    fetch(store, list)?;
    withdrawn(alloc, engine, list, store)
}

/// Takes a train out of the enrolled engines and out of its list, by the records that were read.
fn withdrawn<S: Reader>(
    alloc: Global,
    engine: u32,
    list: Key,
    store: &S,
) -> Result<Outcome, RuleFault>
    requires roster { IsTrue (knows (S.notes store.now) key.Roster) }
    requires list { IsTrue (is_list list) }
    requires others { IsTrue (knows (S.notes store.now) list) }
    ensures { (plan : Plan) → MakesOutcome plan (S.notes store.now)
        (λ w. withdrawn_outcome engine (keys w.trains) list (engines_at w list)) result }
{
    let nobody = Numbers::new(alloc);
    let engines = read::engines(store, Key::Roster, &nobody)?;
    let others = read::engines(store, list, &nobody)?;
    let outcome = withdrawn_outcome(alloc, engine, engines, list, others)?;
    Ok(outcome)
}

/// Makes the outcome for a train that leaves the enrolled engines and the list in which it stood.
fn withdrawn_outcome(
    alloc: Global,
    engine: u32,
    engines: &Numbers,
    list: Key,
    others: &Numbers,
) -> Result<Outcome, AllocError>
    ensures outcome { IfOk result (λ outcome. outcome ≡ withdrawn_outcome engine engines.now list others.now) }
    ensures refused { IfOk result (λ outcome. IsSilentIfRefused outcome.result outcome.writes outcome.messages) }
    ensures fit { IfOk result (λ outcome. AreSendable outcome.messages) }
{
    let mut writes = Writes::new(alloc);
    write_without(alloc, Key::Roster, engines, engine, &mut writes)?;
    writes.set(Key::Train(engine), None)?;
    write_without(alloc, list, others, engine, &mut writes)?;
    Ok(Outcome::done(writes, SentList::new(alloc)))
}
