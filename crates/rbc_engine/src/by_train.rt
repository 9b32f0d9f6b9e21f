//! Inputs that are taken in on the desk itself: one after another, or the messages of a window shared by train.

ghost use Rattle.std.specs.Prelude.{◌≡◌};
ghost use Rattle.rbc_core.specs.Runs.{IsGoodRun};
ghost use Rattle.rbc_engine.specs.Answers.{IsStretch};

use crate::workers::RunError;
use rbc_core::{Desk, Stats};
use rbc_rule::Input;
use rbc_track::Track;
use rbc_window::run_window;
use std::alloc::Global;
use std::sync::Wait;
use std::thread::Threads;

/// How the messages of a run were shared by train.
#[derive(Clone, Copy, Debug, PartialEq, Eq)]
pub struct Windows {
    /// How many windows there were.
    pub count: u32,
    /// How many messages were shared in them.
    pub shared: u32,
    /// How many messages of windows were taken in order after all, for lack of memory.
    pub refused: u32,
}

impl Windows {
    /// There were none.
    pub fn none() -> Self {
        Windows {
            count: 0,
            shared: 0,
            refused: 0,
        }
    }
}

/// Takes all inputs of a stretch on the desk itself, one after another, without a book, a log or a lock. Nothing is
/// computed twice.
pub(crate) fn run_alone(
    alloc: Global,
    track: &Track,
    desk: &mut Desk,
    inputs: &[Input],
) -> Result<Stats, RunError>
    requires good { IsGoodRun (record { track = track.now; opening = desk.old; inputs = inputs.now }) }
    ensures { IsStretch (record { track = track.now; opening = desk.old; inputs = inputs.now }) result desk.new }
{
    let mut taken = 0u32;
    while (taken as usize) < inputs.len() {
        let input = &inputs[taken as usize];
        match desk.take_in(alloc, track, input) {
            Ok(()) => taken += 1,
            Err(_) => return Err(RunError::OutOfMemory { committed: taken }),
        }
    }
    Ok(Stats {
        taken,
        recomputed: 0,
    })
}

/// Takes all inputs of a stretch in as a window of several workers, no more than there are inputs; or by one worker if
/// there is not enough memory for a window.
pub(crate) fn run_shared<R: Threads + Wait + Sync>(
    rt: &R,
    alloc: Global,
    track: &Track,
    desk: &mut Desk,
    inputs: &[Input],
    workers: u8,
    windows: &mut Windows,
) -> Result<Stats, RunError>
    requires good { IsGoodRun (record { track = track.now; opening = desk.old; inputs = inputs.now }) }
    ensures { IsStretch (record { track = track.now; opening = desk.old; inputs = inputs.now }) result desk.new }
{
    let messages = inputs.len() as u32;
    windows.count = windows.count.saturating_add(1);
    let workers = messages.min(u32::from(workers)) as u8;
    if run_window(rt, alloc, track, desk, inputs, workers).is_err() {
        windows.refused = windows.refused.saturating_add(messages);
        return run_alone(alloc, track, desk, inputs);
    }
    windows.shared = windows.shared.saturating_add(messages);
    Ok(Stats {
        taken: messages,
        recomputed: 0,
    })
}
