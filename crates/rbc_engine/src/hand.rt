//! What a worker has in hand of the inputs that it took at once.

ghost use Rattle.std.specs.Prelude.{◌≡◌, ◌<◌, IfSome};
ghost use Rattle.rbc_core.specs.Core.{IsRightTry};
ghost use Rattle.rbc_engine.specs.Reading.{IsPutBefore, IsPutBy, MaySee, WasLatest};

use rbc_core::{Attempt, Book, RunName};
use rbc_records::Key;
use std::alloc::{AllocError, Global};
use std::collections::VecDeque;
use std::marker::{Model, PhantomData};

/// A number that was read for an input as it was taken, under the same lock.
#[derive(Drop)]
struct Read<N: RunName> {
    input: u32,
    key: Key,
    number: u64,
    of: PhantomData<N>,
}

impl<N: RunName> Model for Read<N> {
    ghost use Rattle.rbc_engine.specs.Reading.{Numbered, WasLatest};

    ghost Value = { Numbered };

    ghost view = { λ r. record { input = r.input; key = r.key; number = r.number } };

    ghost invariant = { λ r. WasLatest N.run N.log r.input r.key r.number };
}

impl<N: RunName> Read<N> {
    /// Reads the number of what stands under a key as an input is to see it.
    fn new(book: &Book<'_, N>, input: u32, key: Key) -> Self {
        let number = book.present(input, key);
        Read {
            input,
            key,
            number,
            of: PhantomData,
        }
    }

    /// The number, if it was read for this input under this key.
    fn get(&self, input: u32, key: Key) -> Option<u64>
        ensures { IfSome result (WasLatest N.run N.log input key) }
    {
        if self.input == input && self.key == key {
            Some(self.number)
        } else {
            None
        }
    }
}

/// A number that was read for every input from one on, before any of them was taken. No attempt at any of them was
/// deposited then, so all of them see the same number.
#[derive(Drop)]
struct ReadForAll<N: RunName> {
    first: u32,
    key: Key,
    number: u64,
    of: PhantomData<N>,
}

impl<N: RunName> Model for ReadForAll<N> {
    ghost use Rattle.rbc_engine.specs.Reading.{Numbered, WasLatestFrom};

    ghost Value = { Numbered };

    ghost view = { λ r. record { input = r.first; key = r.key; number = r.number } };

    ghost invariant = { λ r. WasLatestFrom N.run N.log r.first r.key r.number };
}

impl<N: RunName> ReadForAll<N> {
    /// Reads the number of what stands under a key as every input that is not taken yet is to see it.
    fn new(book: &Book<'_, N>, key: Key) -> Self {
        let first = book.stats().taken + 1;
        let number = book.present(first, key);
        ReadForAll {
            first,
            key,
            number,
            of: PhantomData,
        }
    }

    /// The number, if it was read for this input under this key.
    fn get(&self, input: u32, key: Key) -> Option<u64>
        ensures { IfSome result (WasLatest N.run N.log input key) }
    {
        if self.first <= input && self.key == key {
            Some(self.number)
        } else {
            None
        }
    }
}

/// The number that the attempt at an input puts under a key.
#[derive(Drop)]
struct Written<N: RunName> {
    input: u32,
    key: Key,
    number: u64,
    of: PhantomData<N>,
}

impl<N: RunName> Model for Written<N> {
    ghost use Rattle.rbc_engine.specs.Reading.{IsPutBy, Numbered};

    ghost Value = { Numbered };

    ghost view = { λ w. record { input = w.input; key = w.key; number = w.number } };

    ghost invariant = { λ w. IsPutBy N.run w.input w.key w.number };
}

impl<N: RunName> Written<N> {
    /// What an attempt puts under a key, if it writes the key.
    fn by(attempt: &Attempt<N>, key: Key) -> Option<Self> {
        let input = attempt.number();
        let number = attempt.number_for(key)?;
        Some(Written {
            input,
            key,
            number,
            of: PhantomData,
        })
    }

    /// The number, if it is under this key.
    fn under(&self, key: Key) -> Option<u64>
        ensures { IfSome result (IsPutBy N.run self.now.input key) }
    {
        if self.key == key {
            Some(self.number)
        } else {
            None
        }
    }

    /// The number, if it is under this key and by an attempt at an input before this one.
    fn get(&self, input: u32, key: Key) -> Option<u64>
        ensures { IfSome result (IsPutBefore N.run input key) }
    {
        if self.input >= input {
            return None;
        }
        self.under(key)
    }
}

/// What a worker has in hand of the inputs that it took at once: the numbers that were read for them, its attempts at
/// them, and what these write. It sees what its own earlier attempts write before they are deposited. If memory was
/// refused it has less in hand; numbers are then read later, and inputs are given up.
#[derive(Drop)]
pub(crate) struct Hand<N: RunName> {
    first: u32,
    stops: Option<ReadForAll<N>>,
    limits: Option<ReadForAll<N>>,
    read: Vec<Read<N>>,
    written: Vec<Written<N>>,
    writes_trains_alone: bool,
    attempts: VecDeque<Attempt<N>>,
    attempted: Vec<u32>,
}

impl<N: RunName> Hand<N> {
    /// An empty hand.
    pub(crate) fn new(alloc: Global) -> Self {
        Hand {
            first: 0,
            stops: None,
            limits: None,
            read: Vec::new(alloc),
            written: Vec::new(alloc),
            writes_trains_alone: true,
            attempts: VecDeque::new(alloc),
            attempted: Vec::new(alloc),
        }
    }

    /// Drops all that was in hand, and keeps its memory for the next inputs, none of which is taken yet. Reads the
    /// numbers that each of them asks for.
    pub(crate) fn begin(&mut self, book: &Book<'_, N>) {
        let stops = ReadForAll::new(book, Key::Stops);
        self.first = stops.first;
        self.stops = Some(stops);
        self.limits = Some(ReadForAll::new(book, Key::Limits));
        self.read.clear();
        self.written.clear();
        self.writes_trains_alone = true;
        self.attempts.clear();
        self.attempted.clear();
    }

    /// Reads the number that an input asks for first. The inputs come in their order.
    pub(crate) fn read(&mut self, book: &Book<'_, N>, input: u32, key: Key) {
        let _refused = self.read.push(Read::new(book, input, key));
    }

    /// The number that an input is to see under a key, if it is in hand.
    pub(crate) fn number(&self, input: u32, key: Key) -> Option<u64>
        ensures { IfSome result (MaySee N.run N.log input key) }
    {
        if let Some(number) = self.number_written(input, key) {
            return Some(number);
        }
        self.number_read(input, key)
    }

    /// The number that the latest of the earlier attempts in hand puts under a key.
    fn number_written(&self, input: u32, key: Key) -> Option<u64>
        ensures { IfSome result (IsPutBefore N.run input key) }
    {
        if self.writes_trains_alone && !matches!(key, Key::Train(_)) {
            return None;
        }
        for written in self.written.iter().rev() {
            if let Some(number) = written.get(input, key) {
                return Some(number);
            }
        }
        None
    }

    /// The number that was read for an input under a key.
    fn number_read(&self, input: u32, key: Key) -> Option<u64>
        ensures { IfSome result (WasLatest N.run N.log input key) }
    {
        match key {
            Key::Stops => self.stops.as_ref()?.get(input, key),
            Key::Limits => self.limits.as_ref()?.get(input, key),
            Key::Roster | Key::Train(_) | Key::Line(_) | Key::Unplaced => {
                let behind = input.saturating_sub(self.first) as usize;
                self.read.get(behind)?.get(input, key)
            }
        }
    }

    /// Keeps an attempt, and notes what it writes. An attempt for which there is no memory is dropped.
    pub(crate) fn keep(&mut self, attempt: Attempt<N>) {
        let number = attempt.number();
        if self.attempted.push(number).is_err() {
            return;
        }
        if self.note_written(&attempt).is_err() || self.attempts.push_back(attempt).is_err() {
            let _ = self.attempted.pop();
        }
    }

    /// Notes what an attempt writes.
    fn note_written(&mut self, attempt: &Attempt<N>) -> Result<(), AllocError> {
        for index in 0..attempt.published().len() {
            let (key, _) = attempt.published().at(index);
            self.writes_trains_alone = self.writes_trains_alone && matches!(key, Key::Train(_));
            if let Some(written) = Written::by(attempt, key) {
                self.written.push(written)?;
            }
        }
        Ok(())
    }

    /// Deposits all attempts in hand, in the order of the inputs.
    pub(crate) fn deposit(&mut self, book: &mut Book<'_, N>) {
        for _ in 0..self.attempts.len() {
            if let Some(attempt) = self.attempts.pop_front() {
                let _refused = book.deposit(attempt);
            }
        }
    }

    /// The numbers of the inputs that were attempted.
    pub(crate) fn attempted(&self) -> &[u32] {
        self.attempted.as_slice()
    }
}
