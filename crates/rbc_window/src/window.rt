//! A window: the shares take their messages in at the same time, and are then committed.

ghost use Rattle.std.specs.Prelude.{◌≡◌, ◌≤◌, ◌+◌, All, length, IfOk, OnOk, OnErr};
ghost use Rattle.rbc_track.specs.Plan.{IsPlan};
ghost use Rattle.rbc_records.specs.Notes.{record_in};
ghost use Rattle.rbc_rule.specs.Gathered.{AreSendable};
ghost use Rattle.rbc_desk.specs.Held.{IsInOrder, standing};
ghost use Rattle.rbc_window.specs.Answers.{AreDoneInAny, AreTakenIn};

use crate::gathering::answers_in_order;
use crate::hearing::Scene;
use crate::lists::Lists;
use crate::shares::{are_done, taken_in, write_trains};
use rbc_desk::{Answer, Desk, MAX_RESULTS};
use rbc_records::{PlainStore, Writes};
use rbc_rule::{Input, RuleFault, read};
use rbc_track::Track;
use rbc_zones::{Limits, Stops};
use std::alloc::{AllocError, AllocFailed, Global};
use std::sync::Wait;
use std::thread::Threads;

/// A window was not run, and nothing is changed: there was not enough memory, or not all inputs are messages.
#[derive(Clone, Copy, Debug, PartialEq, Eq)]
pub struct NotRun;

impl From<AllocError> for NotRun {
    fn from(_: AllocError) -> NotRun {
        NotRun
    }
}

impl<T: Drop> From<AllocFailed<T>> for NotRun {
    fn from(_: AllocFailed<T>) -> NotRun {
        NotRun
    }
}

impl From<RuleFault> for NotRun {
    fn from(_: RuleFault) -> NotRun {
        NotRun
    }
}

/// Takes in messages from trains. The trains are divided into shares, and each worker takes in the messages of one
/// share after another. The desk is then the one that the rules give for the messages one after another. There has to
/// be room for the results.
///
/// # Errors
///
/// See [`NotRun`].
pub fn run_window<R: Threads + Wait + Sync>(
    rt: &R,
    alloc: Global,
    track: &Track,
    desk: &mut Desk,
    inputs: &[Input],
    workers: u8,
) -> Result<(), NotRun>
    requires room { length desk.old.results + length inputs.now ≤ MAX_RESULTS }
    ensures ok { OnOk result (AreTakenIn track.now inputs.now (standing desk.old) (standing desk.new)) }
    ensures err { OnErr result (desk.new ≡ desk.old) }
{
    keeps(track);
    keeps_order(desk);
    let (answers, writes) = attempted(rt, alloc, track, desk.store(), inputs, workers)?;
    if answers.len() > inputs.len() {
        return Err(NotRun);
    }
    desk.take_over_all(alloc, answers, writes)?;
    Ok(())
}

/// The answers to all messages in order, and what is then to be written.
fn attempted<R: Threads + Wait + Sync>(
    rt: &R,
    alloc: Global,
    track: &Track,
    store: &PlainStore,
    inputs: &[Input],
    workers: u8,
) -> Result<(Vec<Answer>, Writes), NotRun>
    ensures done { IfOk result (λ done. AreDoneInAny track.now (record_in store.now) inputs.now done.0.items done.1) }
    ensures fit { IfOk result (λ done. All (λ answer. AreSendable answer.messages.items) done.0.items) }
{
    let no_stops = Stops::new(alloc);
    let no_limits = Limits::new(alloc);
    let (stops, limits) = read::stops_and_limits(store, &no_stops, &no_limits)?;
    let scene = Scene {
        track,
        stops,
        limits,
    };
    let mut all = taken_in(rt, alloc, &scene, store, inputs, workers)?;
    if !are_done(&all) {
        return Err(NotRun);
    }
    let mut lists = Lists::new(alloc);
    let answers = answers_in_order(alloc, store, inputs, &mut all, &mut lists)?;
    let mut writes = Writes::new(alloc);
    lists.write(&mut writes)?;
    write_trains(all, &mut writes)?;
    Ok((answers, writes))
}

/// Says in its contract what every track satisfies, because a commit requires it.
fn keeps(track: &Track)
    ensures { IsPlan track.now }
{
    let _ = track.horizon();
}

/// Says in its contract what every desk satisfies, because inputs are taken in only by such a desk.
fn keeps_order(desk: &Desk)
    ensures { IsInOrder desk.now }
{
    let _ = desk.results();
}
