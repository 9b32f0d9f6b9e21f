//! What the workers of a stretch do.
//!
//! A book forwards: it answers the number that the latest earlier attempt puts under a key, so a later input may be
//! attempted before an earlier one is committed. The attempts of one chunk see each other through hand.rt. chunk.rt and
//! way.rt decide only who takes what, and when.

ghost use Rattle.std.specs.Prelude.{◌≡◌, ◌≤◌, IfOk, IfSome, length};
ghost use Rattle.std.specs.List.{All};
ghost use Rattle.rbc_rule.specs.Inputs.{Fits};
ghost use Rattle.rbc_versions.specs.Entries.{AreKeyedOf, AreOfWrites, numbered};
ghost use Rattle.rbc_core.specs.Books.{IsBook};
ghost use Rattle.rbc_engine.specs.Reading.{IsNumber};
ghost use Rattle.rbc_engine.specs.Facts.{all_fit_at_most_once};

use crate::chunk::{Chunk, first_key, next_chunk};
use crate::gate::Gate;
use crate::hand::Hand;
use crate::locking::{LOOKS, lock, unlocked};
use crate::recorder::Recorder;
use rbc_core::{Attempt, Book, Commit, Leavings, RunName, decide};
use rbc_records::Writes;
use rbc_rule::{Input, RuleFault};
use rbc_track::Track;
use rbc_versions::{OutOfMemory, Published, VersionLog, publish_all, publish_all_over};
use std::alloc::Global;
use std::hint;
use std::marker::PhantomData;
use std::sync::atomic::{AtomicU32, Ordering};
use std::sync::{Mutex, Wait};
use std::thread::{self, Threads};

/// The weight that the log of one stretch of a run may reach before no more inputs are taken in it. A record weighs
/// one, plus one for each item of its lists. The log is freed at the end of its stretch.
const MAX_WEIGHT: usize = 1_600_000;

/// What this many commits leave is freed outside the lock.
const ROOM: usize = 256;

/// The most inputs that are taken beyond the last committed one. A search may have to look at what each of them writes.
const MOST_AHEAD: u32 = 1_024;

/// How many records the log of one stretch may hold before no more inputs are taken in it, or four times as many as it
/// has when it is opened, if that is more. Up to slightly more than this, the log takes no further memory of its own.
const MAX_VERSIONS: usize = 15_000;

/// How often a worker that waits for inputs that were given up lets other threads run, before it takes the lock again.
const PAUSES: u32 = 10_000;

/// How often a worker that waits for its turn lets other threads run, before it goes on out of turn.
const TURN_PAUSES: u32 = 200;

/// How far workers are, for those that wait: how many inputs are committed, and which one was the last that was given
/// up as it was taken. Both are written under the lock of the book. They affect only speed.
#[derive(Drop)]
struct Progress {
    committed: AtomicU32,
    given_up: AtomicU32,
}

/// What all workers of a stretch of a run share: its track, its inputs and its log, the locked book, and the gate.
#[derive(Drop)]
struct Job<'a, 'b, N: RunName, G, R> {
    rt: &'a R,
    alloc: Global,
    track: &'a Track,
    inputs: &'a [Input],
    log: &'a VersionLog,
    book: &'a Mutex<Book<'b, N>>,
    gate: &'a G,
    progress: &'a Progress,
    most_versions: usize,
    workers: u8,
    ghost track_is: { track.now ≡ N.run.track },
    ghost inputs_are: { inputs.now ≡ N.run.inputs },
    ghost log_is: { log.now ≡ N.log },
    ghost fit: { All Fits inputs.now } by { all_fit_at_most_once inputs.now },
}

/// Inputs that a worker has taken, by their first and last number. It attempts them, or gives them up.
#[derive(Drop)]
struct Taken<N: RunName> {
    first: u32,
    last: u32,
    is_given_up: bool,
    of: PhantomData<N>,
    ghost above: { 1 ≤ first },
    ghost within: { last ≤ length N.run.inputs },
}

/// What a worker does next.
#[derive(Drop)]
enum Next<N: RunName> {
    /// It attempts these inputs, or gives them up.
    Try(Taken<N>),
    /// It comes back once this many inputs are committed.
    Wait(u32),
    /// It ends: no more inputs are to be taken, or memory was refused.
    Leave,
}

impl<'a, 'b, N: RunName, G: Gate, R: Wait> Job<'a, 'b, N, G, R> {
    /// Works until no more inputs are to be taken.
    fn work(&self) {
        let mut hand = Hand::new(self.alloc);
        let mut leavings = Leavings::new(self.alloc);
        let _refused = leavings.make_room(ROOM);
        let mut first = 0;
        for _ in self.rt.forever() {
            let next = self.next(first, &mut hand, &mut leavings);
            first = match next {
                Next::Try(taken) => {
                    self.bring(&taken, &mut hand, &mut leavings);
                    taken.first
                }
                Next::Wait(number) => {
                    leavings.free(ROOM);
                    self.wait_for_commits(number);
                    0
                }
                Next::Leave => return,
            };
        }
    }

    /// Under one lock: commits inputs in order, as far as they are ready, if the next one is the first that this worker
    /// brought last; then takes the next inputs. So if workers bring inputs in order, each commits its own attempts,
    /// which are still in its processor's cache.
    fn next(&self, first: u32, hand: &mut Hand<N>, leavings: &mut Leavings) -> Next<N> {
        let mut guard = lock(self.rt, self.book);
        let book = &mut *guard;
        if first == book.committed() + 1 && !self.commit_ready(book, leavings) {
            self.progress.committed.store(u32::MAX, Ordering::SeqCst);
        }
        let next = self.next_of(book, hand);
        // The others are told of the commits last, so that they do not come for the lock earlier than they have to.
        self.progress
            .committed
            .fetch_max(book.committed(), Ordering::SeqCst);
        next
    }

    /// What a worker does next, once it has committed what it could.
    fn next_of(&self, book: &mut Book<'_, N>, hand: &mut Hand<N>) -> Next<N> {
        let awaited = self.awaited(book);
        if self.committed(book) < awaited {
            return Next::Wait(awaited);
        }
        match self.take(book, hand) {
            Some(taken) => Next::Try(taken),
            None => Next::Leave,
        }
    }

    /// How many inputs have to be committed before more are taken: all that were given up, and enough that not too many
    /// are ahead.
    fn awaited(&self, book: &Book<'_, N>) -> u32 {
        let given_up = self.progress.given_up.load(Ordering::SeqCst);
        let behind = book.stats().taken.saturating_sub(MOST_AHEAD);
        given_up.max(behind)
    }

    /// How many inputs are committed; more than there are, if memory was refused.
    fn committed(&self, book: &Book<'_, N>) -> u32 {
        let told = self.progress.committed.load(Ordering::SeqCst);
        told.max(book.committed())
    }

    /// Commits inputs in their order, as far as they are ready, and keeps what they leave as far as there is room.
    /// `false` if memory was refused.
    fn commit_ready(&self, book: &mut Book<'_, N>, leavings: &mut Leavings) -> bool {
        book.exchange_leavings(leavings);
        let has_memory = self.commit_each(book);
        book.exchange_leavings(leavings);
        has_memory
    }

    /// Commits inputs in their order, as far as they are ready. `false` if memory was refused.
    fn commit_each(&self, book: &mut Book<'_, N>) -> bool {
        for _ in 0..self.inputs.len() {
            match book.commit(self.rt, self.alloc, self.track) {
                Commit::Applied | Commit::Recomputed => {}
                Commit::NotReady | Commit::Done => return true,
                Commit::Failed => return false,
            }
        }
        true
    }

    /// Takes the next inputs that nobody has taken, and reads the numbers that they ask for first. `None` if all are
    /// taken, or the log holds enough for one stretch.
    fn take(&self, book: &mut Book<'_, N>, hand: &mut Hand<N>) -> Option<Taken<N>> {
        let taken = book.stats().taken;
        let rest = &self.inputs[taken as usize..];
        let given_up = self.progress.given_up.load(Ordering::SeqCst);
        let since = taken.saturating_sub(given_up) as usize;
        let chunk = next_chunk(book.records(), rest, since, self.workers);
        if self.is_full(book, &chunk) {
            return None;
        }
        hand.begin(book);
        let first = take_one(book)?;
        let mut last = first;
        for _ in 1..chunk.count {
            let Some(number) = take_one(book) else {
                break;
            };
            last = number;
        }
        if chunk.is_given_up {
            self.progress.given_up.store(last, Ordering::SeqCst);
        } else {
            self.read_ahead(book, first, last, hand);
        }
        Some(in_hand(first, last, chunk.is_given_up))
    }

    /// Whether the log holds enough for one stretch, or would with these inputs. It is never full for the first.
    fn is_full(&self, book: &Book<'_, N>, chunk: &Chunk) -> bool {
        let versions = self.log.count().saturating_add(chunk.publishes);
        book.stats().taken > 0 && (book.weight() > MAX_WEIGHT || versions > self.most_versions)
    }

    /// Reads the numbers that some inputs ask for first.
    fn read_ahead(&self, book: &Book<'_, N>, first: u32, last: u32, hand: &mut Hand<N>)
        requires above { 1 ≤ first }
        requires within { last ≤ length N.run.inputs }
    {
        for number in first..=last {
            let input = &self.inputs[number as usize - 1];
            hand.read(book, number, first_key(input));
        }
    }

    /// Attempts inputs and deposits the attempts, or gives the inputs up. Before each attempt it frees some of what
    /// commits left, so `malloc` mostly returns memory that this thread has just freed, and seldom waits for another
    /// thread. Then it waits for some time until all inputs before these are committed, so it mostly commits its own
    /// attempts, and two workers seldom want the lock at the same time.
    fn bring(&self, taken: &Taken<N>, hand: &mut Hand<N>, leavings: &mut Leavings) {
        let count = taken.last.saturating_sub(taken.first) as usize + 1;
        let each = leavings.len().saturating_sub(count) / count;
        for number in taken.first..=taken.last {
            leavings.free(each);
            self.gate.before_rule(number);
            if !taken.is_given_up {
                self.try_one(number, hand, leavings);
            }
        }
        self.wait_for_turn(taken.first);
        self.deposit(taken, hand);
        for number in hand.attempted() {
            self.gate.after_deposit(*number);
        }
    }

    /// Deposits all attempts in hand, and gives up those inputs that have none: all under one lock.
    fn deposit(&self, taken: &Taken<N>, hand: &mut Hand<N>) {
        let mut guard = lock(self.rt, self.book);
        let book = &mut *guard;
        hand.deposit(book);
        for number in taken.first..=taken.last {
            let _was_out = book.void(number);
        }
    }

    /// Attempts an input, and keeps the attempt, if there is memory for it.
    fn try_one(&self, number: u32, hand: &mut Hand<N>, leavings: &mut Leavings)
        requires { IsNumber N.run number }
    {
        if let Ok(attempt) = self.attempt(number, hand, leavings) {
            self.gate.before_deposit(number);
            hand.keep(attempt);
        }
    }

    /// Attempts the input of a number: decides what it does by single records, and publishes what it writes. It takes
    /// the lock only to read numbers that are not in hand, and works in memory that an earlier commit left.
    fn attempt(
        &self,
        number: u32,
        hand: &Hand<N>,
        leavings: &mut Leavings,
    ) -> Result<Attempt<N>, RuleFault>
        requires { IsNumber N.run number }
    {
        let input = &self.inputs[number as usize - 1];
        let (notes, old) = leavings.reuse(self.alloc);
        let mut recorder = Recorder::knowing(
            self.rt,
            notes,
            self.book,
            self.log,
            self.gate,
            number,
            Some(hand),
        );
        let outcome = decide(self.alloc, self.track, input, &mut recorder)?;
        let Ok(published) = self.publish(&outcome.writes, old) else {
            return Err(RuleFault::OutOfMemory);
        };
        let notes = recorder.into_notes();
        Ok(Attempt::of(self.track, number, input, notes, outcome, published))
    }

    /// Publishes what an attempt writes, in the memory of an old publication, if there is one.
    fn publish(&self, writes: &Writes, old: Option<Published>) -> Result<Published, OutOfMemory>
        ensures here { IfOk result (AreKeyedOf N.log) }
        ensures writes { IfOk result (λ published. AreOfWrites (numbered published) writes.now) }
    {
        match old {
            Some(old) => publish_all_over(self.rt, self.alloc, self.log, writes, old),
            None => publish_all(self.rt, self.alloc, self.log, writes),
        }
    }

    /// Waits until all inputs before this one are committed, but not for long.
    fn wait_for_turn(&self, first: u32) {
        for _ in 0..TURN_PAUSES {
            for _ in 0..LOOKS {
                if self.progress.committed.load(Ordering::SeqCst) >= first.saturating_sub(1) {
                    return;
                }
                hint::spin_loop();
            }
            thread::yield_now();
        }
    }

    /// Waits until this many inputs are committed, and all that were given up meanwhile, but not for long.
    fn wait_for_commits(&self, number: u32) {
        for _ in 0..PAUSES {
            for _ in 0..LOOKS {
                let given_up = self.progress.given_up.load(Ordering::SeqCst);
                if self.progress.committed.load(Ordering::SeqCst) >= given_up.max(number) {
                    return;
                }
                hint::spin_loop();
            }
            thread::yield_now();
        }
    }
}

/// Takes the next input that nobody has taken.
fn take_one<N: RunName>(book: &mut Book<'_, N>) -> Option<u32>
    ensures { IfSome result (λ number. IsNumber N.run number) }
{
    book.take()
}

/// Inputs that were taken, from `first` to `last`.
fn in_hand<N: RunName>(first: u32, last: u32, is_given_up: bool) -> Taken<N>
    requires above { 1 ≤ first }
    requires within { last ≤ length N.run.inputs }
    ensures first { result.first ≡ first }
    ensures last { result.last ≡ last }
{
    Taken {
        first,
        last,
        is_given_up,
        of: PhantomData,
    }
}

impl<'a, 'b, N: RunName + Send + Sync, G: Gate + Sync, R: Threads + Wait + Sync> Job<
    'a,
    'b,
    N,
    G,
    R,
> {
    /// Works in this thread and in `workers - 1` others. A thread that cannot be started is left out.
    fn share(&self) {
        thread::scope(thread::scope_env(), self.rt, |scope| {
            for _ in 1..self.workers {
                let _ = scope.spawn(move || self.work());
            }
            self.work();
        });
    }
}

/// Lets workers attempt and commit the inputs of a book, as far as they get. The calling thread is one of them; a
/// thread that cannot be started is left out. Whatever they did, the book is still one of the run.
pub(crate) fn work_together<'b, N: RunName + Send + Sync, G: Gate + Sync, R: Threads + Wait + Sync>(
    rt: &R,
    alloc: Global,
    track: &Track,
    inputs: &[Input],
    log: &VersionLog,
    book: Book<'b, N>,
    workers: u8,
    gate: &G,
) -> Book<'b, N>
    requires track { track.now ≡ N.run.track }
    requires inputs { inputs.now ≡ N.run.inputs }
    requires log { log.now ≡ N.log }
    requires fit { All Fits inputs.now }
    ensures { IsBook N.run N.log result }
{
    let locked = Mutex::new(book);
    let progress = Progress {
        committed: AtomicU32::new(0),
        given_up: AtomicU32::new(0),
    };
    let job = Job {
        rt,
        alloc,
        track,
        inputs,
        log,
        book: &locked,
        gate,
        progress: &progress,
        most_versions: log.count().saturating_mul(4).max(MAX_VERSIONS),
        workers,
    };
    job.share();
    unlocked(locked)
}
