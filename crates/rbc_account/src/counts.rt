//! What a stop or a restriction that began means for the trains.

ghost use Rattle.std.specs.Prelude.{◌≡◌, IfOk, IfSome};
ghost use Rattle.rbc_account.specs.Counting.{stop_share, stop_share_at, stop_shares, limit_share, limit_share_at};
ghost use Rattle.rbc_account.specs.Counting.{limit_shares, how_many, is_share, place_of};
ghost use Rattle.rbc_account.specs.Counting.{counts_of, AddUp, stop_counts, limit_counts, counts_after};

use rbc_live::{
    LiveDesk, active_limit, active_stop, engines_in, limit_waits, stop_waits, train_in,
};
use rbc_records::PlainStore;
use rbc_rule::{Input, Reply};
use rbc_settle::TrainRec;
use rbc_zones::{Area, Limit};
use std::alloc::{AllocError, Global};
use std::cell::Cell;

/// How many trains are enrolled after a stop or a restriction began, and what it means for them: `told`, `untold`,
/// `unplaced` and `unconcerned` add up to `trains`.
#[derive(Clone, Copy)]
pub struct Counts {
    /// The enrolled trains.
    pub trains: usize,
    /// Those to which it is told.
    pub told: usize,
    /// Those that it concerns and to which it is not told.
    pub untold: usize,
    /// Those without a place, which no restriction concerns. After a stop there are none of them.
    pub unplaced: usize,
    /// All others.
    pub unconcerned: usize,
}

/// What a stop or a restriction means for one train.
#[derive(Clone, Copy)]
pub(crate) enum Share {
    /// It is told to the train.
    Told,
    /// It concerns the train and is not told to it.
    Untold,
    /// The train has no place, and no restriction concerns it.
    Unplaced,
    /// It does not concern the train.
    Unconcerned,
}

/// What a stop or a restriction that an input began means for the trains. `None` for any other input.
pub(crate) fn counts_after(
    alloc: Global,
    desk: &LiveDesk,
    input: &Input,
    reply: Reply,
) -> Result<Option<Counts>, AllocError>
    ensures counts { IfOk result (λ counts. counts
        ≡ counts_after desk.now.track.horizon desk.now.records input.now reply) }
    ensures add_up { IfOk result (λ counts. IfSome counts AddUp) }
{
    if let Reply::Refused(_) = reply {
        return Ok(None);
    }
    match input {
        Input::Stop { number, .. } => stop_counts(alloc, &desk.records, *number),
        Input::Restrict { number, .. } => {
            limit_counts(alloc, &desk.records, desk.track.horizon(), *number)
        }
        Input::Enrol { .. }
        | Input::Withdraw { .. }
        | Input::Release { .. }
        | Input::Lift { .. }
        | Input::Received(_)
        | Input::Bad(_) => Ok(None),
    }
}

/// What an active stop means for the trains. `None` if the stop is not active.
fn stop_counts(
    alloc: Global,
    records: &PlainStore,
    number: u32,
) -> Result<Option<Counts>, AllocError>
    ensures counts { IfOk result (λ counts. counts ≡ stop_counts records.now number) }
    ensures add_up { IfOk result (λ counts. IfSome counts AddUp) }
{
    let Some(area) = active_stop(records, number) else {
        return Ok(None);
    };
    let shares = stop_shares(alloc, records, number, area)?;
    Ok(Some(tally(&shares)))
}

/// What an active restriction means for the trains. `None` if the restriction is not active.
fn limit_counts(
    alloc: Global,
    records: &PlainStore,
    horizon: u32,
    number: u32,
) -> Result<Option<Counts>, AllocError>
    ensures counts { IfOk result (λ counts. counts ≡ limit_counts records.now horizon number) }
    ensures add_up { IfOk result (λ counts. IfSome counts AddUp) }
{
    let Some(limit) = active_limit(records, number) else {
        return Ok(None);
    };
    let shares = limit_shares(alloc, records, horizon, number, limit)?;
    Ok(Some(tally(&shares)))
}

/// What a stop means for each train, engines ascending.
fn stop_shares(
    alloc: Global,
    records: &PlainStore,
    number: u32,
    area: &Area,
) -> Result<Vec<Share>, AllocError>
    ensures { IfOk result (λ shares. shares.items ≡ stop_shares records.now (number, area.now)) }
{
    engines_in(records)
        .iter()
        .filter_map(|engine| stop_share_at(records, *engine, number, area))
        .collect(alloc)
}

/// What a stop means for the train with this engine number, if it is enrolled.
fn stop_share_at(records: &PlainStore, engine: u32, number: u32, area: &Area) -> Option<Share>
    ensures { result ≡ stop_share_at records.now (number, area.now) engine }
{
    match train_in(records, engine) {
        Some(train) => Some(stop_share(train, number, area)),
        None => None,
    }
}

/// What a restriction means for each train, engines ascending.
fn limit_shares(
    alloc: Global,
    records: &PlainStore,
    horizon: u32,
    number: u32,
    limit: &Limit,
) -> Result<Vec<Share>, AllocError>
    ensures { IfOk result (λ shares. shares.items ≡ limit_shares records.now horizon (number, limit.now)) }
{
    engines_in(records)
        .iter()
        .filter_map(|engine| limit_share_at(records, *engine, horizon, number, limit))
        .collect(alloc)
}

/// What a restriction means for the train with this engine number, if it is enrolled.
fn limit_share_at(
    records: &PlainStore,
    engine: u32,
    horizon: u32,
    number: u32,
    limit: &Limit,
) -> Option<Share>
    ensures { result ≡ limit_share_at records.now horizon (number, limit.now) engine }
{
    match train_in(records, engine) {
        Some(train) => Some(limit_share(horizon, train, number, limit)),
        None => None,
    }
}

/// What a stop means for a train.
fn stop_share(train: &TrainRec, number: u32, area: &Area) -> Share
    ensures { result ≡ stop_share (number, area.now) train.now }
{
    let near = Cell::new(0);
    if train.stops.tells(number, &near) {
        Share::Told
    } else if stop_waits(train, number, area) {
        Share::Untold
    } else {
        Share::Unconcerned
    }
}

/// What a restriction means for a train.
fn limit_share(horizon: u32, train: &TrainRec, number: u32, limit: &Limit) -> Share
    ensures { result ≡ limit_share horizon (number, limit.now) train.now }
{
    let near = Cell::new(0);
    if train.limits.tells(number, &near) {
        Share::Told
    } else if train.place.is_none() {
        Share::Unplaced
    } else if limit_waits(horizon, train, number, limit) {
        Share::Untold
    } else {
        Share::Unconcerned
    }
}

/// How many trains there are, and how many of them have each share.
fn tally(shares: &[Share]) -> Counts
    ensures counts { result ≡ counts_of shares.now }
    ensures add_up { AddUp result }
{
    Counts {
        trains: shares.len(),
        told: how_many(shares, Share::Told),
        untold: how_many(shares, Share::Untold),
        unplaced: how_many(shares, Share::Unplaced),
        unconcerned: how_many(shares, Share::Unconcerned),
    }
}

/// How many of the shares are the wanted one.
fn how_many(shares: &[Share], wanted: Share) -> usize
    ensures { result ≡ how_many wanted shares.now }
{
    shares
        .iter()
        .filter(|share| is_share(wanted, **share))
        .count()
}

/// Whether two shares are the same.
fn is_share(one: Share, other: Share) -> bool
    ensures { result ≡ is_share one other }
{
    place_of(one) == place_of(other)
}

/// The position of a share among all kinds.
fn place_of(share: Share) -> u8
    ensures { result ≡ place_of share }
{
    match share {
        Share::Told => 0,
        Share::Untold => 1,
        Share::Unplaced => 2,
        Share::Unconcerned => 3,
    }
}
