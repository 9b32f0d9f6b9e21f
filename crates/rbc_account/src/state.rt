//! The state after the inputs that were taken.

ghost use Rattle.std.specs.Prelude.{◌≡◌, ◌+◌, ◌≤◌, ◌<◌, drop, IfOk, Some, option_map, length, slice_get};
ghost use Rattle.std.specs.List.{cons_option, filter, list_any};
ghost use Rattle.rbc_account.specs.Owed.{different, is_owed_under, messages_owed, owed_stamp, stamps_owed};
ghost use Rattle.rbc_account.specs.Sums.{added};
ghost use Rattle.rbc_account.specs.Totals.{total, is_again, again_in, untold_in, owed_told, is_owing_told, untold_told};
ghost use Rattle.rbc_account.specs.Totals.{again_told};
ghost use Rattle.rbc_account.specs.Standings.{AreOwed, AreStandings, IsStanding, owed_by, waiting_of, waiting_told};
ghost use Rattle.rbc_account.specs.Standings.{stop_sharings, limit_sharings, sharing_of, is_told_at, is_answered_at};
ghost use Rattle.rbc_account.specs.Standings.{waits_at, answer_at, answer_of, answer_in, acked_under};

use crate::coming::{has, waiting_now};
use rbc_ids::{IdTable, Slot};
use rbc_live::{LiveDesk, Waiting, Waits, active_limits, active_stops, engines_in, train_in};
use rbc_records::PlainStore;
use rbc_settle::TrainRec;
use std::alloc::{AllocError, Global};

/// The state, without the records themselves.
#[derive(Drop)]
pub struct Standing {
    /// To how many trains each active stop is told, in ascending order of the numbers.
    pub stops: Vec<Sharing>,
    /// The same for each active restriction.
    pub limits: Vec<Sharing>,
    /// The state of each train, in ascending order of the engines.
    pub trains: Vec<TrainStanding>,
    /// How many messages wait for an answer or an acknowledgement.
    pub acknowledgements: usize,
    /// How many trains owe an answer or an acknowledgement.
    pub owing: usize,
    /// How many stops and restrictions are not told to a train that they concern, over all trains.
    pub untold: usize,
    /// How many stops are due and not told again, over all trains.
    pub untold_again: usize,
}

/// To how many trains a stop or a restriction is told.
#[derive(Clone, Copy)]
pub struct Sharing {
    pub number: u32,
    /// The trains to which it is told.
    pub told: usize,
    /// Those of them that answered or acknowledged it.
    pub answered: usize,
    /// The trains that it concerns and to which it is not told.
    pub untold: usize,
}

/// The state of one train.
#[derive(Drop)]
pub struct TrainStanding {
    pub engine: u32,
    /// How many messages to it wait for an answer or an acknowledgement. One with several packets counts once.
    pub acknowledgements: usize,
    /// What waits: stops, restrictions, and stops that are due, each by number.
    pub waiting: Vec<Waiting>,
}

/// The state of a desk.
pub(crate) fn standing_on(alloc: Global, desk: &LiveDesk) -> Result<Standing, AllocError>
    ensures { IfOk result (IsStanding desk.now.track.horizon desk.now.records) }
{
    let trains = standings(alloc, desk)?;
    let stops = stop_sharings(alloc, &desk.records, &trains)?;
    let limits = limit_sharings(alloc, &desk.records, &trains)?;
    let totals = totals_of(&trains);
    let owing = owing_of(&trains);
    Ok(Standing {
        stops,
        limits,
        trains,
        acknowledgements: totals.acknowledgements,
        owing,
        untold: totals.untold,
        untold_again: totals.untold_again,
    })
}

/// Sums over trains. A sum that reaches 2^64 - 1 stays there.
#[derive(Clone, Copy)]
struct Totals {
    acknowledgements: usize,
    untold: usize,
    untold_again: usize,
}

/// The sums over all trains.
fn totals_of(trains: &[TrainStanding]) -> Totals
    ensures owed { result.acknowledgements ≡ total owed_told trains.now }
    ensures untold { result.untold ≡ total untold_told trains.now }
    ensures again { result.untold_again ≡ total again_told trains.now }
{
    let mut totals = Totals {
        acknowledgements: 0,
        untold: 0,
        untold_again: 0,
    };
    for train in trains {
        totals.add(train);
    }
    totals
}

impl Totals {
    /// Adds the state of a train to the sums.
    fn add(&mut self, train: &TrainStanding)
        ensures owed { self.new.acknowledgements ≡ added self.old.acknowledgements (owed_told train.now) }
        ensures untold { self.new.untold ≡ added self.old.untold (untold_told train.now) }
        ensures again { self.new.untold_again ≡ added self.old.untold_again (again_told train.now) }
    {
        self.acknowledgements = self.acknowledgements.saturating_add(train.acknowledgements);
        self.untold = self.untold.saturating_add(untold_in(&train.waiting));
        self.untold_again = self.untold_again.saturating_add(again_in(&train.waiting));
    }
}

/// How many of the trains owe an answer or an acknowledgement.
fn owing_of(trains: &[TrainStanding]) -> usize
    ensures { result ≡ length (filter is_owing_told trains.now) }
{
    trains.iter().filter(|train| is_owing(train)).count()
}

/// Whether a train owes an answer or an acknowledgement.
fn is_owing(train: &TrainStanding) -> bool
    ensures { result ≡ is_owing_told train.now }
{
    train.acknowledgements > 0
}

/// How many of the waiting entries are stops that are due.
fn again_in(all: &[Waiting]) -> usize
    ensures { result ≡ again_in all.now }
{
    all.iter().filter(|waiting| is_again(waiting.what)).count()
}

/// How many of the waiting entries are stops or restrictions that are not told.
fn untold_in(all: &[Waiting]) -> usize
    ensures { result ≡ untold_in all.now }
{
    all.iter().filter(|waiting| !is_again(waiting.what)).count()
}

/// Whether the entry is a stop that is due.
fn is_again(what: Waits) -> bool
    ensures { result ≡ is_again what }
{
    match what {
        Waits::Again(_) => true,
        Waits::Stop(_) | Waits::Restriction(_) => false,
    }
}

/// The state of each train, engines ascending.
fn standings(alloc: Global, desk: &LiveDesk) -> Result<Vec<TrainStanding>, AllocError>
    ensures waits { IfOk result (λ all. AreStandings desk.now.track.horizon desk.now.records all.items) }
    ensures owed { IfOk result (λ all. AreOwed desk.now.records all.items) }
{
    let mut all = Vec::new(alloc);
    for engine in engines_in(&desk.records) {
        if let Some(standing) = standing_at(alloc, desk, *engine)? {
            all.push(standing)?;
        }
    }
    Ok(all)
}

/// The state of the train with this engine number, if it is enrolled.
fn standing_at(
    alloc: Global,
    desk: &LiveDesk,
    engine: u32,
) -> Result<Option<TrainStanding>, AllocError>
    ensures waits { IfOk result (λ standing. option_map waiting_told standing
        ≡ waiting_of desk.now.track.horizon desk.now.records engine) }
    ensures owed { IfOk result (λ standing. option_map owed_told standing ≡ owed_by desk.now.records engine) }
{
    match train_in(&desk.records, engine) {
        Some(train) => Ok(Some(TrainStanding {
            engine,
            acknowledgements: owed_by(train),
            waiting: waiting_now(alloc, desk, engine, train)?,
        })),
        None => Ok(None),
    }
}

/// How many messages to a train wait for an answer or an acknowledgement. Each message on a stop has a stamp of its
/// own; a message on restrictions counts once, however many packets it has.
fn owed_by(train: &TrainRec) -> usize
    ensures { result ≡ messages_owed train.now }
{
    let to_stops = owed_in(train.stops.slots());
    let to_limits = owed_in(train.limits.slots());
    to_stops + to_limits
}

/// How many different stamps the unanswered slots have.
fn owed_in(slots: &[(u8, Slot)]) -> usize
    ensures owed { result ≡ length (different (stamps_owed slots.now)) }
    ensures few { result ≤ length slots.now }
{
    let mut owed = 0;
    for index in 0..slots.len() {
        owed += owed_once(held_at(slots, index).1, behind(slots, index));
    }
    owed
}

/// The identifier and the slot at an index.
fn held_at(slots: &[(u8, Slot)], index: usize) -> &(u8, Slot)
    requires { index < length slots.now }
    ensures { slice_get slots.now index ≡ Some result.now }
{
    &slots[index]
}

/// The slots after an index.
fn behind(slots: &[(u8, Slot)], index: usize) -> &[(u8, Slot)]
    requires { index < length slots.now }
    ensures { result.now ≡ drop (index + 1) slots.now }
{
    &slots[index + 1..]
}

/// 1 if the message of a slot is not answered and no later slot has the same message, else 0.
fn owed_once(slot: Slot, behind: &[(u8, Slot)]) -> usize
    ensures once { length (different (cons_option (owed_stamp slot) (stamps_owed behind.now)))
        ≡ result + length (different (stamps_owed behind.now)) }
    ensures one { result ≤ 1 }
{
    match owed_stamp(slot) {
        None => 0,
        Some(stamp) if is_owed_in(behind, stamp) => 0,
        Some(_) => 1,
    }
}

/// Whether the slots show that the message with a stamp is not answered.
fn is_owed_in(slots: &[(u8, Slot)], stamp: u32) -> bool
    ensures { result ≡ list_any (λ held. is_owed_under stamp held.1) slots.now }
{
    slots.iter().any(|held| is_owed_under(held.1, stamp))
}

/// Whether a slot has the message with a stamp, and it is not answered.
fn is_owed_under(slot: Slot, stamp: u32) -> bool
    ensures { result ≡ is_owed_under stamp slot }
{
    match owed_stamp(slot) {
        Some(owed) => stamp == owed,
        None => false,
    }
}

/// The stamp of the message of a slot, if it is not answered or acknowledged.
fn owed_stamp(slot: Slot) -> Option<u32>
    ensures { result ≡ owed_stamp slot }
{
    match slot {
        Slot::Used(used) if used.acked => None,
        Slot::Used(used) => Some(used.stamp),
        Slot::Revoking { stamp } => Some(stamp),
    }
}

/// To how many trains each active stop is told.
fn stop_sharings(
    alloc: Global,
    records: &PlainStore,
    trains: &[TrainStanding],
) -> Result<Vec<Sharing>, AllocError>
    ensures { IfOk result (λ all. all.items ≡ stop_sharings records.now trains.now) }
{
    active_stops(records)
        .iter()
        .map(|stop| sharing_of(records, trains, Waits::Stop(stop.0)))
        .collect(alloc)
}

/// To how many trains each active restriction is told.
fn limit_sharings(
    alloc: Global,
    records: &PlainStore,
    trains: &[TrainStanding],
) -> Result<Vec<Sharing>, AllocError>
    ensures { IfOk result (λ all. all.items ≡ limit_sharings records.now trains.now) }
{
    active_limits(records)
        .iter()
        .map(|limit| sharing_of(records, trains, Waits::Restriction(limit.0)))
        .collect(alloc)
}

/// To how many of the trains a stop or a restriction is told.
fn sharing_of(records: &PlainStore, trains: &[TrainStanding], what: Waits) -> Sharing
    ensures { result ≡ sharing_of records.now trains.now what }
{
    Sharing {
        number: what.number(),
        told: told_to(records, trains, what),
        answered: answered_by(records, trains, what),
        untold: untold_to(trains, what),
    }
}

/// To how many trains a stop or a restriction is told.
fn told_to(records: &PlainStore, trains: &[TrainStanding], what: Waits) -> usize
    ensures { result ≡ length (filter (is_told_at records.now what) trains.now) }
{
    trains
        .iter()
        .filter(|train| is_told_at(records, train, what))
        .count()
}

/// How many trains answered a stop or acknowledged a restriction.
fn answered_by(records: &PlainStore, trains: &[TrainStanding], what: Waits) -> usize
    ensures { result ≡ length (filter (is_answered_at records.now what) trains.now) }
{
    trains
        .iter()
        .filter(|train| is_answered_at(records, train, what))
        .count()
}

/// At how many trains a stop or a restriction waits.
fn untold_to(trains: &[TrainStanding], what: Waits) -> usize
    ensures { result ≡ length (filter (waits_at what) trains.now) }
{
    trains.iter().filter(|train| waits_at(train, what)).count()
}

/// Whether a stop or a restriction is told to a train.
fn is_told_at(records: &PlainStore, train: &TrainStanding, what: Waits) -> bool
    ensures { result ≡ is_told_at records.now what train.now }
{
    answer_at(records, train.engine, what).is_some()
}

/// Whether a train answered a stop or acknowledged a restriction.
fn is_answered_at(records: &PlainStore, train: &TrainStanding, what: Waits) -> bool
    ensures { result ≡ is_answered_at records.now what train.now }
{
    answer_at(records, train.engine, what).unwrap_or(false)
}

/// Whether a stop or a restriction waits at a train.
fn waits_at(train: &TrainStanding, what: Waits) -> bool
    ensures { result ≡ waits_at what train.now }
{
    has(&train.waiting, what)
}

/// Whether the train with this engine number answered a stop or acknowledged a restriction. `None` if it is not told to
/// the train.
fn answer_at(records: &PlainStore, engine: u32, what: Waits) -> Option<bool>
    ensures { result ≡ answer_at records.now what engine }
{
    match train_in(records, engine) {
        Some(train) => answer_of(train, what),
        None => None,
    }
}

/// Whether a train answered a stop or acknowledged a restriction. `None` if it is not told to the train.
fn answer_of(train: &TrainRec, what: Waits) -> Option<bool>
    ensures { result ≡ answer_of what train.now }
{
    match what {
        Waits::Stop(number) => answer_in(&train.stops, number),
        Waits::Restriction(number) => answer_in(&train.limits, number),
        Waits::Again(_) => None,
    }
}

/// Whether the message that told a number is answered. `None` if no identifier tells it.
fn answer_in<const N: usize>(table: &IdTable<N>, number: u32) -> Option<bool>
    ensures { result ≡ answer_in table.now number }
{
    match table.of_number(number) {
        Some(id) => acked_under(table, id),
        None => None,
    }
}

/// Whether the message that told the number of an identifier is answered. `None` if the identifier tells none.
fn acked_under<const N: usize>(table: &IdTable<N>, id: u8) -> Option<bool>
    ensures { result ≡ acked_under table.now id }
{
    match table.slot(id) {
        Some(Slot::Used(used)) => Some(used.acked),
        Some(Slot::Revoking { .. }) | None => None,
    }
}
