//! What began to wait through an input.

ghost use Rattle.std.specs.Prelude.{◌≡◌, [], map, not, Some, IfOk, option_copied};
ghost use Rattle.std.specs.List.{filter, filter_map};
ghost use Rattle.std.specs.Option.{option_map_or};
ghost use Rattle.rbc_live.specs.Known.{engines_in, train_in};
ghost use Rattle.rbc_live.specs.Waits.{waiting_at, waits_in};
ghost use Rattle.rbc_account.specs.Coming.{come_to_wait, come_at, stop_come, stop_come_at, limit_come};
ghost use Rattle.rbc_account.specs.Coming.{limit_come_at};

use crate::record_lookup::engine_of;
use rbc_live::{
    LiveDesk, Waiting, Waits, active_limit, active_limits, active_stop, active_stops, all_waiting,
    engines_in, lacks_something, limit_waits, stop_waits, train_in, waiting_limit, waiting_stop,
};
use rbc_records::PlainStore;
use rbc_rule::{Input, Reply};
use rbc_settle::TrainRec;
use rbc_zones::{Area, Limit};
use std::alloc::{AllocError, Global};

/// What began to wait through an input, each entry with the engine of its train. Engines ascend; for one engine the
/// order is that of `all_waiting`. `desk` is the desk after the input; `before` is the train that sent it, as it was
/// before, if a train sent it. A stop or a restriction that begins can wait at any train, everything else only at the
/// train of the input.
pub(crate) fn come_to_wait(
    alloc: Global,
    desk: &LiveDesk,
    input: &Input,
    reply: Reply,
    before: Option<&TrainRec>,
) -> Result<Vec<(u32, Waiting)>, AllocError>
    ensures { IfOk result (λ come. come.items ≡ come_to_wait desk.now.track.horizon
        desk.now.records (option_copied before.entry) input.now reply) }
{
    if let Reply::Refused(_) = reply {
        return Ok(Vec::new(alloc));
    }
    match input {
        Input::Enrol { engine, .. } => come_at(alloc, desk, *engine, None),
        Input::Received(message) => come_at(alloc, desk, engine_of(message), before),
        Input::Stop { number, .. } => stop_come(alloc, desk, *number),
        Input::Restrict { number, .. } => limit_come(alloc, desk, *number),
        Input::Withdraw { .. } | Input::Release { .. } | Input::Lift { .. } | Input::Bad(_) => {
            Ok(Vec::new(alloc))
        }
    }
}

/// What waits at one train, and did not wait before.
fn come_at(
    alloc: Global,
    desk: &LiveDesk,
    engine: u32,
    before: Option<&TrainRec>,
) -> Result<Vec<(u32, Waiting)>, AllocError>
    ensures { IfOk result (λ come. come.items ≡ come_at desk.now.track.horizon
        desk.now.records engine (option_copied before.entry)) }
{
    let Some(train) = train_in(&desk.records, engine) else {
        return Ok(Vec::new(alloc));
    };
    let new = waiting_now(alloc, desk, engine, train)?;
    if new.is_empty() {
        return Ok(Vec::new(alloc));
    }
    let old = waiting_before(alloc, desk, before)?;
    added(alloc, engine, &old, &new)
}

/// What waits in a new list and not in an old one, with the engine.
fn added(
    alloc: Global,
    engine: u32,
    old: &[Waiting],
    new: &[Waiting],
) -> Result<Vec<(u32, Waiting)>, AllocError>
    ensures { IfOk result (λ come. come.items ≡ map (λ waiting. (engine, waiting))
        (filter (λ waiting. not (waits_in old.now waiting.what)) new.now)) }
{
    new.iter()
        .filter(|waiting| !has(old, waiting.what))
        .map(|waiting| (engine, *waiting))
        .collect(alloc)
}

/// What waited at a train before, or nothing if there was none.
fn waiting_before(
    alloc: Global,
    desk: &LiveDesk,
    before: Option<&TrainRec>,
) -> Result<Vec<Waiting>, AllocError>
    ensures { IfOk result (λ found. found.items ≡ option_map_or
        (waiting_at desk.now.track.horizon desk.now.records) (option_copied before.entry) []) }
{
    match before {
        Some(train) => waiting_at(alloc, desk, train),
        None => Ok(Vec::new(alloc)),
    }
}

/// What waits at the train with this engine number. If the train lacks nothing, nothing waits (`waiting_law`), and no
/// stop or restriction is searched.
pub(crate) fn waiting_now(
    alloc: Global,
    desk: &LiveDesk,
    engine: u32,
    train: &TrainRec,
) -> Result<Vec<Waiting>, AllocError>
    requires { train_in desk.now.records engine ≡ Some train.now }
    ensures { IfOk result (λ found. found.items
        ≡ waiting_at desk.now.track.horizon desk.now.records train.now) }
{
    if lacks_something(train) {
        waiting_at(alloc, desk, train)
    } else {
        Ok(Vec::new(alloc))
    }
}

/// What waits at a train, by the active stops and restrictions.
fn waiting_at(alloc: Global, desk: &LiveDesk, train: &TrainRec) -> Result<Vec<Waiting>, AllocError>
    ensures { IfOk result (λ found. found.items
        ≡ waiting_at desk.now.track.horizon desk.now.records train.now) }
{
    all_waiting(
        alloc,
        desk.track.horizon(),
        active_stops(&desk.records),
        active_limits(&desk.records),
        train,
    )
}

/// Whether something waits in a list.
pub(crate) fn has(all: &[Waiting], what: Waits) -> bool
    ensures { result ≡ waits_in all.now what }
{
    all.iter().any(|waiting| waiting.what.is(what))
}

/// At which trains a stop waits.
fn stop_come(alloc: Global, desk: &LiveDesk, number: u32) -> Result<Vec<(u32, Waiting)>, AllocError>
    ensures { IfOk result (λ come. come.items ≡ stop_come desk.now.records number) }
{
    match active_stop(&desk.records, number) {
        Some(area) => stop_come_to(alloc, &desk.records, number, area),
        None => Ok(Vec::new(alloc)),
    }
}

/// At which trains a stop of this area waits.
fn stop_come_to(
    alloc: Global,
    records: &PlainStore,
    number: u32,
    area: &Area,
) -> Result<Vec<(u32, Waiting)>, AllocError>
    ensures { IfOk result (λ come. come.items
        ≡ filter_map (stop_come_at records.now (number, area.now)) (engines_in records.now)) }
{
    engines_in(records)
        .iter()
        .filter_map(|engine| stop_come_at(records, *engine, number, area))
        .collect(alloc)
}

/// A stop that waits at the train with this engine number, if it waits there.
fn stop_come_at(
    records: &PlainStore,
    engine: u32,
    number: u32,
    area: &Area,
) -> Option<(u32, Waiting)>
    ensures { result ≡ stop_come_at records.now (number, area.now) engine }
{
    match train_in(records, engine) {
        Some(train) if stop_waits(train, number, area) => {
            Some((engine, waiting_stop(train, number)))
        }
        _ => None,
    }
}

/// At which trains a restriction waits.
fn limit_come(
    alloc: Global,
    desk: &LiveDesk,
    number: u32,
) -> Result<Vec<(u32, Waiting)>, AllocError>
    ensures { IfOk result (λ come. come.items
        ≡ limit_come desk.now.records desk.now.track.horizon number) }
{
    match active_limit(&desk.records, number) {
        Some(limit) => limit_come_to(alloc, &desk.records, desk.track.horizon(), number, limit),
        None => Ok(Vec::new(alloc)),
    }
}

/// At which trains this restriction waits.
fn limit_come_to(
    alloc: Global,
    records: &PlainStore,
    horizon: u32,
    number: u32,
    limit: &Limit,
) -> Result<Vec<(u32, Waiting)>, AllocError>
    ensures { IfOk result (λ come. come.items
        ≡ filter_map (limit_come_at records.now horizon (number, limit.now)) (engines_in records.now)) }
{
    engines_in(records)
        .iter()
        .filter_map(|engine| limit_come_at(records, *engine, horizon, number, limit))
        .collect(alloc)
}

/// A restriction that waits at the train with this engine number, if it waits there.
fn limit_come_at(
    records: &PlainStore,
    engine: u32,
    horizon: u32,
    number: u32,
    limit: &Limit,
) -> Option<(u32, Waiting)>
    ensures { result ≡ limit_come_at records.now horizon (number, limit.now) engine }
{
    match train_in(records, engine) {
        Some(train) if limit_waits(horizon, train, number, limit) => {
            Some((engine, waiting_limit(train, number)))
        }
        _ => None,
    }
}
