//! Reading the records of a shared book, and noting what was read.

ghost use Rattle.std.specs.Prelude.{◌≡◌, [], IfSome};
ghost use Rattle.rbc_versions.specs.Log.{IsOf, number_of};
ghost use Rattle.rbc_versions.specs.Entries.{AreOf};
ghost use Rattle.rbc_engine.specs.Reading.{MaySee};

use crate::gate::Gate;
use crate::hand::Hand;
use crate::locking::lock;
use rbc_core::{Book, RunName};
use rbc_records::{Key, ReadFault, Reader, Rec};
use rbc_versions::{Notes, Ticket, VersionLog};
use std::alloc::Global;
use std::marker::Model;
use std::sync::{Mutex, Wait};

/// Reads the records of a book for one input: the number of each under the lock of the book, if its worker does not
/// have it in hand, and the record in the log of the run, without the lock and without a copy. What was read under a
/// key, also that there is no record, is read once; the notes stand in the order of first reading.
#[derive(Drop)]
pub struct Recorder<'a, 'b, N: RunName, G, R> {
    rt: &'a R,
    book: &'a Mutex<Book<'b, N>>,
    log: &'a VersionLog,
    gate: &'a G,
    input: u32,
    hand: Option<&'a Hand<N>>,
    notes: Notes,
    failures: u64,
}

impl<'a, 'b, N: RunName, G, R> Model for Recorder<'a, 'b, N, G, R> {
    ghost use Rattle.std.specs.Prelude.{◌≡◌};
    ghost use Rattle.rbc_versions.specs.Entries.{AreOf};
    ghost use Rattle.rbc_engine.specs.Reading.{Reading};

    ghost Value = { Reading };

    ghost view = { λ r. record { input = r.input; notes = r.notes; failures = r.failures } };

    // The log is that of the run, and so are the tickets.
    ghost invariant = { λ r. (r.log.now ≡ N.log) × AreOf N.log r.notes };
}

impl<'a, 'b, N: RunName, G: Gate, R: Wait> Recorder<'a, 'b, N, G, R> {
    /// Makes a recorder for the input of a number, which has read nothing yet. The log has to be that of the run.
    pub fn new(
        rt: &'a R,
        alloc: Global,
        book: &'a Mutex<Book<'b, N>>,
        log: &'a VersionLog,
        gate: &'a G,
        input: u32,
    ) -> Self
        requires { log.now ≡ N.log }
        ensures { result ≡ record { input = input; notes = []; failures = 0 } }
    {
        Recorder::knowing(rt, Notes::new(alloc), book, log, gate, input, None)
    }

    /// Makes a recorder for a worker that has numbers in hand, with notes in the memory of others.
    pub(crate) fn knowing(
        rt: &'a R,
        notes: Notes,
        book: &'a Mutex<Book<'b, N>>,
        log: &'a VersionLog,
        gate: &'a G,
        input: u32,
        hand: Option<&'a Hand<N>>,
    ) -> Self
        requires log { log.now ≡ N.log }
        requires notes { notes ≡ [] }
        ensures { result ≡ record { input = input; notes = []; failures = 0 } }
    {
        Recorder {
            rt,
            book,
            log,
            gate,
            input,
            hand,
            notes,
            failures: 0,
        }
    }

    /// The notes of all that was read.
    pub fn into_notes(self) -> Notes
        ensures notes { result ≡ self.entry.notes }
        ensures here { AreOf N.log result }
    {
        let Recorder {
            rt: _,
            book: _,
            log: _,
            gate: _,
            input: _,
            hand: _,
            notes,
            failures: _,
        } = self;
        notes
    }

    /// The number under a key, as the input is to see it, in hand or in the book; 0 if nothing stands there.
    fn number(&self, key: Key) -> u64
        ensures { MaySee N.run N.log self.now.input key result }
    {
        if let Some(hand) = self.hand
            && let Some(number) = hand.number(self.input, key)
        {
            return number;
        }
        lock(self.rt, self.book).present(self.input, key)
    }

    /// The ticket of what stands under a key, as the input is to see it, or that nothing does. `None` if the number is
    /// not in the log.
    fn read(&self, key: Key) -> Option<Option<Ticket>>
        ensures here { IfSome result (λ ticket. IfSome ticket (IsOf N.log)) }
        ensures stood { IfSome result (λ ticket. MaySee N.run N.log self.now.input key (number_of ticket)) }
    {
        let number = self.number(key);
        if number == 0 {
            return Some(None);
        }
        let ticket = self.log.look(number)?;
        Some(Some(ticket))
    }
}

impl<'a, 'b, N: RunName, G: Gate, R: Wait> Reader for Recorder<'a, 'b, N, G, R> {
    ghost use Rattle.rbc_records.specs.Notes.{Part};
    ghost use Rattle.rbc_versions.specs.Entries.{shown};

    ghost notes = { λ recorder. Part (shown recorder.notes) };

    ghost failed = { λ recorder. recorder.failures };

    /// Fails with `OutOfMemory` for lack of memory, and with `Failed` if a number that stood in the book is not found
    /// in the log.
    fn fetch(&mut self, key: Key) -> Result<(), ReadFault> {
        if self.notes.get(key).is_some() {
            return Ok(());
        }
        let Some(ticket) = self.read(key) else {
            self.failures += 1;
            return Err(ReadFault::Failed);
        };
        self.gate.after_read(self.input, key);
        match self.notes.add(key, ticket) {
            Ok(()) => Ok(()),
            Err(_) => Err(ReadFault::OutOfMemory),
        }
    }

    fn seen(&self, key: Key) -> Option<&Rec> {
        match self.notes.get(key).unwrap() {
            Some(ticket) => Some(&self.log.version(ticket).rec),
            None => None,
        }
    }

    fn failures(&self) -> u64 {
        self.failures
    }
}
