//! What waits at a train: it has to be told, and is not.

ghost use Rattle.std.specs.Prelude.{◌≡◌, IfOk};
ghost use Rattle.rbc_live.specs.Waits.{stop_waits, limit_waits, is_due, stops_waiting, limits_waiting, stops_due};
ghost use Rattle.rbc_live.specs.Waits.{all_waiting, stop_cause, limit_cause, waiting_stop, waiting_limit};
ghost use Rattle.rbc_live.specs.Waits.{waiting_again, same_waits, kind_and_number, lacks_something};

use rbc_settle::{LIMIT_IDENTIFIERS, STOP_IDENTIFIERS, TrainRec};
use rbc_zones::{Area, Concern, Limit, concern, limit_concerns};
use std::alloc::{AllocError, Global};
use std::cell::Cell;

/// The last stamp that a message may have (T_TRAIN).
const LAST_STAMP: u32 = 4_294_967_294;

/// Something that waits at a train.
#[derive(Clone, Copy)]
pub struct Waiting {
    /// What waits.
    pub what: Waits,
    /// Why it waits.
    pub cause: Cause,
}

/// What waits, by its number.
#[derive(Clone, Copy, PartialEq, Eq)]
pub enum Waits {
    /// A stop that concerns the train and is not told to it.
    Stop(u32),
    /// A restriction that concerns the train and is not told to it.
    Restriction(u32),
    /// A stop that is told to the train, was left unanswered in three reports, and is not told again.
    Again(u32),
}

impl Waits {
    /// Whether it is the same as another.
    pub fn is(self, other: Waits) -> bool
        ensures { result ≡ same_waits self other }
    {
        self.kind() == other.kind() && self.number() == other.number()
    }

    /// Which kind it is of, as a number.
    fn kind(self) -> u8
        ensures { result ≡ (kind_and_number self).0 }
    {
        match self {
            Waits::Stop(_) => 0,
            Waits::Restriction(_) => 1,
            Waits::Again(_) => 2,
        }
    }

    /// The number of the stop or the restriction.
    pub fn number(self) -> u32
        ensures { result ≡ (kind_and_number self).1 }
    {
        match self {
            Waits::Stop(number) | Waits::Restriction(number) | Waits::Again(number) => number,
        }
    }
}

/// Why something waits.
#[derive(Clone, Copy)]
pub enum Cause {
    /// None of the identifiers is free: 15 of stops, or 255 of restrictions.
    NoIdentifier,
    /// The train has no stamp left.
    NoStamp,
}

/// Whether a train lacks something for a message: all identifiers of a kind are held, or no stamp is left.
pub fn lacks_something(train: &TrainRec) -> bool
    ensures { result ≡ lacks_something train.now }
{
    train.stops.held() == STOP_IDENTIFIERS
        || train.limits.held() == LIMIT_IDENTIFIERS
        || train.stamp >= LAST_STAMP
}

/// What waits at a train: the stops that concern it and are not told to it, the restrictions likewise, and the stops
/// that are due, each in ascending order of the numbers.
pub fn all_waiting(
    alloc: Global,
    horizon: u32,
    stops: &[(u32, Area)],
    limits: &[(u32, Limit)],
    train: &TrainRec,
) -> Result<Vec<Waiting>, AllocError>
    ensures { IfOk result (λ found. found.items ≡ all_waiting horizon stops.now limits.now train.now) }
{
    let mut all = stops_waiting(alloc, stops, train)?;
    all.append(&mut limits_waiting(alloc, horizon, limits, train)?)?;
    all.append(&mut stops_due(alloc, stops, train)?)?;
    Ok(all)
}

/// The active stops that concern a train and are not told to it.
fn stops_waiting(
    alloc: Global,
    stops: &[(u32, Area)],
    train: &TrainRec,
) -> Result<Vec<Waiting>, AllocError>
    ensures { IfOk result (λ found. found.items ≡ stops_waiting stops.now train.now) }
{
    stops
        .iter()
        .filter(|stop| stop_waits(train, stop.0, &stop.1))
        .map(|stop| waiting_stop(train, stop.0))
        .collect(alloc)
}

/// The active restrictions that concern a train and are not told to it.
fn limits_waiting(
    alloc: Global,
    horizon: u32,
    limits: &[(u32, Limit)],
    train: &TrainRec,
) -> Result<Vec<Waiting>, AllocError>
    ensures { IfOk result (λ found. found.items ≡ limits_waiting horizon limits.now train.now) }
{
    limits
        .iter()
        .filter(|limit| limit_waits(horizon, train, limit.0, &limit.1))
        .map(|limit| waiting_limit(train, limit.0))
        .collect(alloc)
}

/// The active stops that are due at a train.
fn stops_due(
    alloc: Global,
    stops: &[(u32, Area)],
    train: &TrainRec,
) -> Result<Vec<Waiting>, AllocError>
    ensures { IfOk result (λ found. found.items ≡ stops_due stops.now train.now) }
{
    stops
        .iter()
        .filter(|stop| is_due(train, stop.0))
        .map(|stop| waiting_again(train, stop.0))
        .collect(alloc)
}

/// Whether a stop concerns a train and is not told to it.
pub fn stop_waits(train: &TrainRec, number: u32, area: &Area) -> bool
    ensures { result ≡ stop_waits train.now (number, area.now) }
{
    let near = Cell::new(0);
    if train.stops.tells(number, &near) {
        return false;
    }
    match concern(area, train.forced.has(number), train.place.as_ref()) {
        Concern::None => false,
        Concern::Before(_) | Concern::Now => true,
    }
}

/// Whether a restriction concerns a train and is not told to it.
pub fn limit_waits(horizon: u32, train: &TrainRec, number: u32, limit: &Limit) -> bool
    ensures { result ≡ limit_waits horizon train.now (number, limit.now) }
{
    let near = Cell::new(0);
    if train.limits.tells(number, &near) {
        return false;
    }
    match &train.place {
        Some(place) => limit_concerns(limit, place, horizon),
        None => false,
    }
}

/// Whether a stop is told to a train under an identifier that is due: it was left unanswered in three reports.
fn is_due(train: &TrainRec, number: u32) -> bool
    ensures { result ≡ is_due train.now number }
{
    train
        .stops
        .slots()
        .iter()
        .any(|held| held.1.is_ripe() && held.1.tells(number))
}

/// A stop that waits at a train.
pub fn waiting_stop(train: &TrainRec, number: u32) -> Waiting
    ensures { result ≡ waiting_stop train.now number }
{
    Waiting {
        what: Waits::Stop(number),
        cause: stop_cause(train),
    }
}

/// A restriction that waits at a train.
pub fn waiting_limit(train: &TrainRec, number: u32) -> Waiting
    ensures { result ≡ waiting_limit train.now number }
{
    Waiting {
        what: Waits::Restriction(number),
        cause: limit_cause(train),
    }
}

/// A stop that is due at a train.
fn waiting_again(train: &TrainRec, number: u32) -> Waiting
    ensures { result ≡ waiting_again train.now number }
{
    Waiting {
        what: Waits::Again(number),
        cause: stop_cause(train),
    }
}

/// Why a stop waits at a train.
fn stop_cause(train: &TrainRec) -> Cause
    ensures { result ≡ stop_cause train.now }
{
    if train.stops.held() == STOP_IDENTIFIERS {
        Cause::NoIdentifier
    } else {
        Cause::NoStamp
    }
}

/// Why a restriction waits at a train.
fn limit_cause(train: &TrainRec) -> Cause
    ensures { result ≡ limit_cause train.now }
{
    if train.limits.held() == LIMIT_IDENTIFIERS {
        Cause::NoIdentifier
    } else {
        Cause::NoStamp
    }
}
