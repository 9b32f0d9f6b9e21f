//! Calls of a book, one after another.

ghost use Rattle.std.specs.Prelude.{◌≡◌};
ghost use Rattle.rbc_core.specs.Runs.{IsGoodRun};

use super::same;
use crate::tests::attempting::{Ahead, Scene, Tried, attempt, read_ahead};
use crate::tests::numbers::{Numbers, Origin};
use crate::tests::setting::{all_fit, good_track};
use rbc_core::{Attempt, Book, Commit, RunName, Stats};
use rbc_desk::{Desk, MAX_RESULTS};
use rbc_records::Key;
use rbc_rule::Input;
use rbc_track::Track;
use rbc_versions::VersionLog;
use std::alloc::Global;
use std::marker::{Brand, PhantomData};
use std::mem;
use std::process::Abort;
use std::sync::Wait;

/// A call of a book, with what it has to answer.
#[derive(Clone, Copy)]
pub(crate) enum Call {
    /// An input is taken, or there is none to take.
    Take(Option<u32>),
    /// The number of what stands under a key is asked for: where it comes from.
    Number(Key, Origin),
    /// The number of what stands under a key, as an input is to see it, is asked for: where it comes from.
    Seen(u32, Key, Origin),
    /// A key is read for an input, whose attempt is made later.
    Read(u32, Key),
    /// An attempt is made at an input, and deposited: whether it is kept.
    Deposit(u32, bool),
    /// An input is given up: whether it could be.
    Void(u32, bool),
    /// The next input is committed.
    Commit(Commit),
}

/// What is kept from one call to the next: what was read for an attempt that is made later, and the numbers that are
/// known.
#[derive(Drop)]
struct Kept<N: RunName> {
    ahead: Ahead<N>,
    numbers: Numbers,
}

impl<N: RunName> Kept<N> {
    /// What was read for an input, which is not kept any more; nothing if another input was read for.
    fn take_ahead(&mut self, alloc: Global, input: u32) -> Ahead<N> {
        let nothing = Ahead::nothing(alloc, input);
        if self.ahead.input() == input {
            mem::replace(&mut self.ahead, nothing)
        } else {
            nothing
        }
    }
}

/// Makes an attempt at an input, and keeps the numbers that were published for it.
fn attempted<N: RunName, R: Abort + Wait>(
    scene: &Scene<'_, N, R>,
    book: &Book<'_, N>,
    kept: &mut Kept<N>,
    number: u32,
) -> Attempt<N> {
    let ahead = kept.take_ahead(scene.alloc, number);
    let Tried { attempt, numbers } = attempt(scene, book, ahead);
    kept.numbers.publish(scene.rt, number, &numbers);
    attempt
}

/// Makes an attempt at an input, and deposits it. Tells whether it is kept.
fn deposit<N: RunName, R: Abort + Wait>(
    scene: &Scene<'_, N, R>,
    book: &mut Book<'_, N>,
    kept: &mut Kept<N>,
    number: u32,
) -> bool {
    match book.deposit(attempted(scene, book, kept, number)) {
        Ok(()) => true,
        Err(back) => {
            same(scene.rt, back.number(), number);
            false
        }
    }
}

/// Asserts where the number comes from that stands under a key, as an input is to see it.
fn assert_origin<N: RunName, R: Abort>(
    scene: &Scene<'_, N, R>,
    book: &Book<'_, N>,
    kept: &mut Kept<N>,
    input: u32,
    key: Key,
    wanted: Origin,
) {
    let number = book.present(input, key);
    let origin = kept.numbers.origin(scene.rt, key, number);
    assert!(scene.rt; origin == wanted);
}

/// Makes a call, and asserts its answer.
fn make_call<N: RunName, R: Abort + Wait>(
    scene: &Scene<'_, N, R>,
    book: &mut Book<'_, N>,
    kept: &mut Kept<N>,
    call: Call,
) {
    let rt = scene.rt;
    match call {
        Call::Take(wanted) => same(rt, book.take(), wanted),
        Call::Number(key, wanted) => assert_origin(scene, book, kept, 1, key, wanted),
        Call::Seen(input, key, wanted) => assert_origin(scene, book, kept, input, key, wanted),
        Call::Read(input, key) => kept.ahead = read_ahead(scene, book, input, key),
        Call::Deposit(number, wanted) => same(rt, deposit(scene, book, kept, number), wanted),
        Call::Void(number, wanted) => same(rt, book.void(number), wanted),
        Call::Commit(wanted) => same(rt, book.commit(rt, scene.alloc, scene.track), wanted),
    }
}

/// Makes calls of a book. All inputs have to be committed then.
fn make_each<N: RunName, R: Abort + Wait>(
    scene: &Scene<'_, N, R>,
    book: &mut Book<'_, N>,
    calls: &[Call],
) {
    let mut kept = Kept {
        ahead: Ahead::nothing(scene.alloc, 0),
        numbers: Numbers::new(scene.alloc),
    };
    for call in calls {
        make_call(scene, book, &mut kept, *call);
    }
    same(scene.rt, book.committed() as usize, scene.inputs.len());
}

/// Makes calls of a new book, and closes it.
fn make_calls<N: RunName, R: Abort + Wait>(
    rt: &R,
    alloc: Global,
    track: &Track,
    desk: Desk,
    inputs: &[Input],
    log: &VersionLog,
    calls: &[Call],
) -> (Desk, Stats)
    requires track { track.now ≡ N.run.track }
    requires desk { desk ≡ N.run.opening }
    requires inputs { inputs.now ≡ N.run.inputs }
    requires log { log.now ≡ N.log }
    requires good { IsGoodRun N.run }
{
    let scene = Scene {
        rt,
        alloc,
        track,
        inputs,
        log,
        of: PhantomData,
    };
    let mut book = Book::<N>::new(rt, alloc, desk, inputs, log)
        .ok()
        .expect(rt, "memory");
    make_each(&scene, &mut book, calls);
    let stats = book.stats();
    (book.close(), stats)
}

/// Runs inputs from the empty state by these calls of a book.
pub(crate) fn run<R: Abort + AllocGlobal + Wait>(
    rt: &R,
    inputs: &[Input],
    calls: &[Call],
) -> (Desk, Stats) {
    let alloc = rt.alloc();
    let track = good_track(rt);
    let log = VersionLog::new(alloc).expect(rt, "memory");
    assert!(rt; all_fit(inputs));
    let desk = Desk::new(alloc);
    assert!(rt; inputs.len() <= MAX_RESULTS - desk.results().len());
    make_calls::<Brand, R>(rt, alloc, &track, desk, inputs, &log, calls)
}
