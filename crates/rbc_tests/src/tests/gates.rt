//! Gates that hold workers.

use rbc_engine::Gate;
use rbc_records::Key;
use std::sync::atomic::{AtomicBool, AtomicU32, AtomicU64, Ordering};
use std::thread;
use std::time::{Clock, Duration};

/// How many milliseconds a worker is held at most.
const TURNS: u32 = 10_000;

/// A moment in the attempt at an input, by the number of the input.
#[derive(Clone, Copy, PartialEq)]
pub(super) enum Moment {
    BeforeRule(u32),
    BeforeDeposit(u32),
    AfterDeposit(u32),
}

/// Holds the worker that comes to one moment until some worker has come to another one, but not for ever.
#[derive(Drop)]
pub(super) struct Hold<'a, R> {
    rt: &'a R,
    held: Moment,
    until: Moment,
    has_come: AtomicBool,
    was_late: AtomicBool,
}

impl<'a, R: Clock> Hold<'a, R> {
    pub(super) fn new(rt: &'a R, held: Moment, until: Moment) -> Self {
        Hold {
            rt,
            held,
            until,
            has_come: AtomicBool::new(false),
            was_late: AtomicBool::new(false),
        }
    }

    /// Whether both moments came, and the second in time.
    pub(super) fn was_passed(&self) -> bool {
        self.has_come.load(Ordering::SeqCst) && !self.was_late.load(Ordering::SeqCst)
    }

    fn wait(&self) {
        for _ in 0..TURNS {
            if self.has_come.load(Ordering::SeqCst) {
                return;
            }
            thread::sleep(self.rt, Duration::from_millis(1));
        }
        self.was_late.store(true, Ordering::SeqCst);
    }

    fn pass(&self, moment: Moment) {
        if moment == self.until {
            self.has_come.store(true, Ordering::SeqCst);
        }
        if moment == self.held {
            self.wait();
        }
    }
}

impl<'a, R: Clock> Gate for Hold<'a, R> {
    fn before_rule(&self, input: u32) {
        self.pass(Moment::BeforeRule(input));
    }

    fn after_read(&self, _input: u32, _key: Key) {}

    fn before_deposit(&self, input: u32) {
        self.pass(Moment::BeforeDeposit(input));
    }

    fn after_deposit(&self, input: u32) {
        self.pass(Moment::AfterDeposit(input));
    }
}

/// Two holds, the one before the other where a worker comes to a moment of both.
#[derive(Drop)]
pub(super) struct Both<'a, R> {
    pub(super) one: Hold<'a, R>,
    pub(super) other: Hold<'a, R>,
}

impl<'a, R: Clock> Gate for Both<'a, R> {
    fn before_rule(&self, input: u32) {
        self.one.before_rule(input);
        self.other.before_rule(input);
    }

    fn after_read(&self, _input: u32, _key: Key) {}

    fn before_deposit(&self, input: u32) {
        self.one.before_deposit(input);
        self.other.before_deposit(input);
    }

    fn after_deposit(&self, input: u32) {
        self.one.after_deposit(input);
        self.other.after_deposit(input);
    }
}

/// A call of a gate.
#[derive(Clone, Copy)]
enum Site {
    BeforeRule,
    AfterRead,
    BeforeDeposit,
    AfterDeposit,
}

/// Counts the calls for the inputs of a run that withdraws engine 7 first, then 8, and then 9, of which none is
/// enrolled: one hexadecimal digit for each call and input. Each input reads its own train and nothing else; what is
/// told of another input, or of another key, is counted beyond these digits.
#[derive(Drop)]
pub(super) struct Told {
    calls: AtomicU64,
}

impl Told {
    pub(super) fn new() -> Self {
        Told {
            calls: AtomicU64::new(0),
        }
    }

    /// The digits: four for each input, the first one rightmost, and of these the call before the rule rightmost.
    pub(super) fn calls(&self) -> u64 {
        self.calls.load(Ordering::SeqCst)
    }

    fn count(&self, site: Site, input: u32) {
        let digit = match site {
            Site::BeforeRule => 0x1u64,
            Site::AfterRead => 0x10,
            Site::BeforeDeposit => 0x100,
            Site::AfterDeposit => 0x1000,
        };
        let place = match input {
            1 => 0x1u64,
            2 => 0x1_0000,
            3 => 0x1_0000_0000,
            _ => 0x1_0000_0000_0000,
        };
        self.calls
            .fetch_add(digit.wrapping_mul(place), Ordering::SeqCst);
    }
}

impl Gate for Told {
    fn before_rule(&self, input: u32) {
        self.count(Site::BeforeRule, input);
    }

    fn after_read(&self, input: u32, key: Key) {
        let is_own = key == Key::Train(input.wrapping_add(6));
        self.count(Site::AfterRead, if is_own { input } else { 0 });
    }

    fn before_deposit(&self, input: u32) {
        self.count(Site::BeforeDeposit, input);
    }

    fn after_deposit(&self, input: u32) {
        self.count(Site::AfterDeposit, input);
    }
}

/// Holds each worker that begins an input until more than this many are at one, or once until that took too long.
/// Counts the most that were at the same time between their calls before the rule and after the deposit.
#[derive(Drop)]
pub(super) struct Inside<'a, R> {
    rt: &'a R,
    wanted: u32,
    inside: AtomicU32,
    most: AtomicU32,
    was_late: AtomicBool,
}

/// How many milliseconds it holds one.
const INSIDE_TURNS: u32 = 1_000;

impl<'a, R: Clock> Inside<'a, R> {
    pub(super) fn new(rt: &'a R, wanted: u32) -> Self {
        Inside {
            rt,
            wanted,
            inside: AtomicU32::new(0),
            most: AtomicU32::new(0),
            was_late: AtomicBool::new(false),
        }
    }

    /// How many were inside at most.
    pub(super) fn most(&self) -> u32 {
        self.most.load(Ordering::SeqCst)
    }
}

impl<'a, R: Clock> Gate for Inside<'a, R> {
    fn before_rule(&self, _input: u32) {
        let inside = self.inside.fetch_add(1, Ordering::SeqCst).wrapping_add(1);
        self.most.fetch_max(inside, Ordering::SeqCst);
        for _ in 0..INSIDE_TURNS {
            let is_late = self.was_late.load(Ordering::SeqCst);
            if is_late || self.most.load(Ordering::SeqCst) > self.wanted {
                return;
            }
            thread::sleep(self.rt, Duration::from_millis(1));
        }
        self.was_late.store(true, Ordering::SeqCst);
    }

    fn after_read(&self, _input: u32, _key: Key) {}

    fn before_deposit(&self, _input: u32) {}

    fn after_deposit(&self, _input: u32) {
        self.inside.fetch_sub(1, Ordering::SeqCst);
    }
}
