//! Runs by several workers, in stretches. A stretch is done by one worker, as a window, or on a book with a log of its
//! own, which is freed at the end of the stretch.

ghost use Rattle.std.specs.Prelude.{◌≡◌, ◌+◌, ◌<◌, ◌≤◌, ℕ, IsTrue, Ok, false, length};
ghost use Rattle.std.specs.List.{All};
ghost use Rattle.rbc_track.specs.Plan.{IsPlan};
ghost use Rattle.rbc_rule.specs.Inputs.{Fits};
ghost use Rattle.rbc_core.specs.Held.{IsInOrder};
ghost use Rattle.rbc_core.specs.Books.{state_of};
ghost use Rattle.rbc_core.specs.Core.{front};
ghost use Rattle.rbc_core.specs.Runs.{IsGoodRun};
ghost use Rattle.rbc_engine.specs.Answers.{AreFirst, IsOpening, IsRun, IsStretch, error_behind, plus};
ghost use Rattle.rbc_engine.specs.declared.workers.RunError.TheVariants.{OutOfMemory};
ghost use Rattle.rbc_engine.specs.Fronts.{IsWaiting, IsGivenUp, IsNext, IsAtItsEnd};

use crate::by_train::{Windows, run_alone, run_shared};
use crate::gate::{Behind, Gate, OpenGate};
use crate::job::work_together;
use crate::way::{Pace, Road, next_way};
use rbc_core::{Book, Commit, Desk, MAX_RESULTS, RunName, Stats};
use rbc_rule::{Input, MAX_INPUTS};
use rbc_track::Track;
use rbc_versions::VersionLog;
use std::alloc::Global;
use std::error::Error;
use std::marker::Brand;
use std::sync::Wait;
use std::thread::Threads;
use std::{fmt, mem};

/// The greatest number of workers.
pub const MAX_WORKERS: u8 = 16;

/// Why a run did not come to its end.
#[derive(Clone, Copy, Debug, PartialEq, Eq)]
pub enum RunError {
    /// The number of workers is not 1 to 16. The desk is as before.
    Workers,
    /// There are more than 100,000 inputs, or the desk would have more than 4,000,000,000 results. The desk is as
    /// before.
    TooManyInputs,
    /// There was not enough memory. The desk is that after the first `committed` inputs, and the rest can be run.
    OutOfMemory { committed: u32 },
}

impl fmt::Display for RunError {
    ghost use Rattle.std.specs.Prelude.{Some};
    ghost use Rattle.rbc_engine.specs.Answers.{fault_text};

    ghost output = { λ error. Some (fault_text error) };

    fn fmt<W: fmt::Write>(&self, f: &mut fmt::Formatter<W>) -> fmt::Result {
        match self {
            RunError::Workers => write!(f, "workers must be 1 to 16"),
            RunError::TooManyInputs => write!(f, "too many inputs"),
            RunError::OutOfMemory { committed } => {
                write!(f, "out of memory after {committed} inputs")
            }
        }
    }
}

impl Error for RunError {}

/// Gives up the next input to be committed, for which nobody will deposit an attempt any more. `false`, with nothing
/// changed, if it was not taken and is not the first.
fn give_up<N: RunName>(book: &mut Book<'_, N>, number: u32) -> bool
    requires waiting { IsWaiting N.run (state_of book.old) }
    requires front { number ≡ front (state_of book.old) }
    ensures given_up { IsTrue result → IsGivenUp (state_of book.old) (state_of book.new) }
    ensures not_taken { result ≡ false → IsNext N.run (state_of book.old) Commit.NotReady (state_of book.new) }
{
    if book.void(number) {
        return true;
    }
    if number > 1 {
        return false;
    }
    let _ = book.take();
    let _ = book.void(number);
    true
}

/// Commits the next input, if somebody has it or it is the first.
fn commit_front<N: RunName>(
    rt: &impl Wait,
    alloc: Global,
    track: &Track,
    book: &mut Book<'_, N>,
) -> Commit
    requires { track.now ≡ N.run.track }
    ensures { IsNext N.run (state_of book.old) result (state_of book.new) }
{
    let number = book.committed() + 1;
    let answer = book.commit(rt, alloc, track);
    if answer != Commit::NotReady {
        return answer;
    }
    if !give_up(book, number) {
        return Commit::NotReady;
    }
    book.commit(rt, alloc, track)
}

/// Closes the book of a stretch that is at its end, and puts the desk back.
fn put_back<N: RunName>(book: Book<'_, N>, desk: &mut Desk) -> Stats
    requires { IsAtItsEnd N.run (state_of book) }
    ensures { IsStretch N.run (Ok result) desk.new }
{
    let stats = book.stats();
    *desk = book.close();
    stats
}

/// Commits what the workers of a stretch left, and puts the desk back.
fn finish<N: RunName>(
    rt: &impl Wait,
    alloc: Global,
    track: &Track,
    mut book: Book<'_, N>,
    desk: &mut Desk,
) -> Result<Stats, RunError>
    requires { track.now ≡ N.run.track }
    ensures { IsStretch N.run result desk.new }
{
    loop {
        match commit_front(rt, alloc, track, &mut book) {
            Commit::Applied | Commit::Recomputed => {}
            Commit::Done => return Ok(put_back(book, desk)),
            Commit::NotReady => return Ok(put_back(book, desk)),
            Commit::Failed => {
                let committed = book.committed();
                *desk = book.close();
                return Err(RunError::OutOfMemory { committed });
            }
        }
    }
}

/// Runs as many of the first inputs of a run on one book as its log may hold, and one at least.
fn run_named<N: RunName + Send + Sync, G: Gate + Sync, R: Threads + Wait + Sync>(
    rt: &R,
    alloc: Global,
    track: &Track,
    desk: &mut Desk,
    inputs: &[Input],
    log: &VersionLog,
    workers: u8,
    gate: &G,
) -> Result<Stats, RunError>
    requires track { track.now ≡ N.run.track }
    requires desk { desk.old ≡ N.run.opening }
    requires inputs { inputs.now ≡ N.run.inputs }
    requires log { log.now ≡ N.log }
    requires good { IsGoodRun N.run }
    ensures { IsStretch N.run result desk.new }
{
    let opening = mem::replace(desk, Desk::new(alloc));
    match Book::<N>::new(rt, alloc, opening, inputs, log) {
        Ok(book) => {
            let book = work_together(rt, alloc, track, inputs, log, book, workers, gate);
            finish(rt, alloc, track, book, desk)
        }
        Err(opening) => {
            *desk = opening;
            Err(RunError::OutOfMemory { committed: 0 })
        }
    }
}

/// Runs a stretch of a run by all workers on a log of its own, which is freed at the end of the stretch.
fn run_on_book<G: Gate + Sync, R: Threads + Wait + Sync>(
    rt: &R,
    alloc: Global,
    track: &Track,
    desk: &mut Desk,
    inputs: &[Input],
    workers: u8,
    gate: &G,
) -> Result<Stats, RunError>
    requires good { IsGoodRun (record { track = track.now; opening = desk.old; inputs = inputs.now }) }
    ensures { IsStretch (record { track = track.now; opening = desk.old; inputs = inputs.now }) result desk.new }
{
    let Ok(log) = VersionLog::new(alloc) else {
        return Err(RunError::OutOfMemory { committed: 0 });
    };
    run_named::<Brand, G, R>(rt, alloc, track, desk, inputs, &log, workers, gate)
}

/// The workers of a run, of whom the calling thread is one; the gate for their attempts on a book; and the pace at
/// which they share messages by train, if they do that instead.
#[derive(Drop)]
struct Crew<'a, G> {
    workers: u8,
    gate: &'a G,
    pace: Option<Pace>,
}

/// The first inputs, as many as this, or all if there are fewer.
fn first_of(inputs: &[Input], count: usize) -> &[Input]
    requires { 0 < count }
    ensures { AreFirst inputs.now result.now }
{
    if count < inputs.len() {
        &inputs[..count]
    } else {
        inputs
    }
}

/// Runs the first of these inputs in one stretch, as many as go the same way, after this many earlier ones.
fn run_stretch<G: Gate + Sync, R: Threads + Wait + Sync>(
    rt: &R,
    alloc: Global,
    track: &Track,
    desk: &mut Desk,
    inputs: &[Input],
    before: u32,
    crew: &Crew<'_, G>,
    windows: &mut Windows,
) -> Result<Stats, RunError>
    requires good { IsGoodRun (record { track = track.now; opening = desk.old; inputs = inputs.now }) }
    ensures { IsStretch (record { track = track.now; opening = desk.old; inputs = inputs.now }) result desk.new }
{
    let way = next_way(desk, inputs, crew.workers, crew.pace);
    let first = first_of(inputs, way.count);
    match way.road {
        Road::Alone => run_alone(alloc, track, desk, first),
        Road::Window => run_shared(rt, alloc, track, desk, first, crew.workers, windows),
        Road::Book => {
            let behind = Behind {
                gate: crew.gate,
                before,
            };
            run_on_book(rt, alloc, track, desk, first, crew.workers, &behind)
        }
    }
}

/// The counts of some stretches and of one more.
fn with_more(all: Stats, more: Stats) -> Stats
    requires within { all.taken + more.taken ≤ MAX_INPUTS }
    requires some { (all.recomputed ≤ all.taken) × (more.recomputed ≤ more.taken) }
    ensures { result ≡ plus all more }
{
    Stats {
        taken: all.taken + more.taken,
        recomputed: all.recomputed + more.recomputed,
    }
}

/// The error of a run whose last stretch, after this many inputs, ended with an error.
fn behind(taken: u32, error: RunError) -> RunError
    requires { (committed : ℕ) → error ≡ OutOfMemory committed → taken + committed ≤ MAX_INPUTS }
    ensures { result ≡ error_behind taken error }
{
    match error {
        RunError::OutOfMemory { committed } => RunError::OutOfMemory {
            committed: taken + committed,
        },
        RunError::Workers | RunError::TooManyInputs => error,
    }
}

/// Says in its contract what every desk satisfies, because a stretch requires it.
fn keeps_order(desk: &Desk)
    ensures { IsInOrder desk.now }
{
    let _ = desk.results();
}

/// Says in its contract what every track satisfies, because a run requires it.
fn keeps(track: &Track)
    ensures { IsPlan track.now }
{
    let _ = track.horizon();
}

/// Runs inputs, one stretch after another on the same desk, if this number of workers is allowed and the inputs are not
/// too many.
fn run_admitted<G: Gate + Sync, R: Threads + Wait + Sync>(
    rt: &R,
    alloc: Global,
    track: &Track,
    desk: &mut Desk,
    inputs: &[Input],
    crew: &Crew<'_, G>,
    windows: &mut Windows,
) -> Result<Stats, RunError>
    requires opening { IsOpening track.now desk.old }
    requires fit { All Fits inputs.now }
    ensures run { IsRun (record { track = track.now; opening = desk.old; inputs = inputs.now })
        crew.now.workers result desk.new }
    ensures opening { IsOpening track.now desk.new }
{
    if crew.workers == 0 || crew.workers > MAX_WORKERS {
        return Err(RunError::Workers);
    }
    if inputs.len() > MAX_INPUTS || desk.results().len() + inputs.len() > MAX_RESULTS {
        return Err(RunError::TooManyInputs);
    }
    keeps(track);
    let mut all = Stats {
        taken: 0,
        recomputed: 0,
    };
    while (all.taken as usize) < inputs.len() {
        keeps_order(desk);
        let rest = &inputs[all.taken as usize..];
        match run_stretch(rt, alloc, track, desk, rest, all.taken, crew, windows) {
            Ok(more) => all = with_more(all, more),
            Err(error) => return Err(behind(all.taken, error)),
        }
    }
    Ok(all)
}

/// Runs inputs on a track, from a desk on, by this many workers, of which the calling thread is one. The workers
/// attempt many inputs at once, note the records that they read, publish what the attempts write, and commit in the
/// order of the inputs; an input is recomputed if something that its attempt read has changed. With `Ok` the desk is
/// the one that the rules give for the inputs one after another, whatever the workers did in between.
///
/// # Errors
///
/// See [`RunError`]. After `OutOfMemory` the same holds of the inputs that are committed.
pub fn run<G: Gate + Sync, R: AllocGlobal + Threads + Wait + Sync>(
    rt: &R,
    track: &Track,
    desk: &mut Desk,
    inputs: &[Input],
    workers: u8,
    gate: &G,
) -> Result<Stats, RunError>
    requires opening { IsOpening track.now desk.old }
    requires fit { All Fits inputs.now }
    ensures run { IsRun (record { track = track.now; opening = desk.old; inputs = inputs.now })
        workers result desk.new }
    ensures opening { IsOpening track.now desk.new }
{
    let mut windows = Windows::none();
    let crew = Crew {
        workers,
        gate,
        pace: None,
    };
    run_admitted(rt, rt.alloc(), track, desk, inputs, &crew, &mut windows)
}

/// Runs inputs as `run` does, with the same result, and without attempts: one worker takes them in order on the desk,
/// and long runs of messages are shared by train among all workers, at a pace. Counts the windows of messages.
///
/// # Errors
///
/// See [`RunError`]. After `OutOfMemory` the same holds of the inputs that are committed.
pub fn run_by_train<R: AllocGlobal + Threads + Wait + Sync>(
    rt: &R,
    track: &Track,
    desk: &mut Desk,
    inputs: &[Input],
    workers: u8,
    pace: Pace,
    windows: &mut Windows,
) -> Result<Stats, RunError>
    requires opening { IsOpening track.now desk.old }
    requires fit { All Fits inputs.now }
    ensures run { IsRun (record { track = track.now; opening = desk.old; inputs = inputs.now })
        workers result desk.new }
    ensures opening { IsOpening track.now desk.new }
{
    let crew = Crew {
        workers,
        gate: &OpenGate,
        pace: Some(pace),
    };
    run_admitted(rt, rt.alloc(), track, desk, inputs, &crew, windows)
}
