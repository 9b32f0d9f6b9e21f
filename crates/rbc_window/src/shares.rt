//! The shares of a window, on their way from the committing thread to the workers and back.

ghost use Rattle.std.specs.Prelude.{◌≡◌, ◌++◌, List, All, IfOk, OnOk, IsTrue, length};
ghost use Rattle.std.specs.List.{flat_map};
ghost use Rattle.rbc_records.specs.Notes.{record_in};
ghost use Rattle.rbc_rule.specs.declared.input.Input.{Input};
ghost use Rattle.rbc_window.specs.Messages.{Records, Setting};
ghost use Rattle.rbc_window.specs.Hearing.{setting};
ghost use Rattle.rbc_window.specs.Shares.{AreInPlaces, HaveTakenIfDone, train_writes};

use crate::hearing::Scene;
use crate::share::{SHARES, Share};
use crossbeam_queue::ArrayQueue;
use rbc_records::{PlainStore, Writes};
use rbc_rule::Input;
use std::alloc::{AllocError, Global};
use std::sync::Wait;
use std::thread::{self, Threads};

/// The shares, after this number of workers has taken their messages in, all at the same time.
pub fn taken_in<R: Threads + Wait + Sync>(
    rt: &R,
    alloc: Global,
    scene: &Scene<'_>,
    store: &PlainStore,
    inputs: &[Input],
    workers: u8,
) -> Result<Vec<Share>, AllocError>
    ensures { IfOk result (λ all. HaveTakenIfDone (setting scene.now) (record_in store.now) inputs.now all.items) }
{
    let left = all_shares(rt, alloc)?;
    let workers = thread::map_indices(
        rt,
        alloc,
        usize::from(workers),
        &|_worker| work(rt, alloc, scene, store, inputs, &left),
    )?;
    in_order(alloc, workers)
}

/// The work of one worker: it takes one share after another until none is left. It ends earlier if memory is refused.
fn work<R: Wait>(
    rt: &R,
    alloc: Global,
    scene: &Scene<'_>,
    store: &PlainStore,
    inputs: &[Input],
    left: &ArrayQueue<Share>,
) -> Vec<Share>
    ensures { HaveTakenIfDone (setting scene.now) (record_in store.now) inputs.now result.items }
{
    let mut done = Vec::new(alloc);
    for _ in 0..SHARES {
        let Some(share) = left.pop(rt) else {
            break;
        };
        let share = share.take_in(alloc, scene, store, inputs);
        if done.push(share).is_err() {
            break;
        }
    }
    done
}

/// All shares, in a queue from which the workers take them.
fn all_shares<R: Wait>(rt: &R, alloc: Global) -> Result<ArrayQueue<Share>, AllocError> {
    let all = ArrayQueue::new(alloc, SHARES as usize)?;
    for number in 0..SHARES {
        let _ = all.push(rt, Share::new(alloc, number));
    }
    Ok(all)
}

/// All shares in their order, none of them done.
fn none_done(alloc: Global) -> Result<Vec<Share>, AllocError>
    ensures { IfOk result (λ all. (s : Setting) (records : Records) (inputs : List Input)
        → HaveTakenIfDone s records inputs all.items) }
{
    let mut all = Vec::with_capacity(alloc, SHARES as usize)?;
    for number in 0..SHARES {
        all.push(Share::new(alloc, number))?;
    }
    Ok(all)
}

/// All shares in their order, as the workers leave them. A share that a worker lost for lack of memory is not done.
fn in_order(alloc: Global, workers: Vec<Vec<Share>>) -> Result<Vec<Share>, AllocError>
    ensures { IfOk result (λ all. (s : Setting) (records : Records) (inputs : List Input)
        → All (λ worker. HaveTakenIfDone s records inputs worker.items) workers.items
        → HaveTakenIfDone s records inputs all.items) }
{
    let mut all = none_done(alloc)?;
    for worker in workers {
        put_all(&mut all, worker);
    }
    Ok(all)
}

/// Puts some shares in their places.
fn put_all(all: &mut Vec<Share>, shares: Vec<Share>)
    ensures { (s : Setting) (records : Records) (inputs : List Input) → HaveTakenIfDone s records inputs shares.items
        → HaveTakenIfDone s records inputs all.old.items → HaveTakenIfDone s records inputs all.new.items }
{
    for share in shares {
        let place = share.number() as usize;
        if place < all.len() {
            all[place] = share;
        }
    }
}

/// Whether these are all shares, each at its place and done.
pub fn are_done(all: &[Share]) -> bool
    ensures all { IsTrue result → length all.now ≡ SHARES }
    ensures places { IsTrue result → AreInPlaces all.now }
{
    if all.len() != SHARES as usize {
        return false;
    }
    for place in 0..all.len() {
        let share = &all[place];
        if share.number() as usize != place || !share.is_done() {
            return false;
        }
    }
    true
}

/// Appends writes of the trains of all shares under their keys.
pub fn write_trains(all: Vec<Share>, writes: &mut Writes) -> Result<(), AllocError>
    ensures { OnOk result (writes.new ≡ writes.old ++ flat_map (λ share. train_writes share.trains) all.items) }
{
    for share in all {
        share.write(writes)?;
    }
    Ok(())
}
