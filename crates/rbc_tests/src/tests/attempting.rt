//! Attempts at inputs, over what stands in a book.

ghost use Rattle.std.specs.Prelude.{◌≡◌, IfSome};
ghost use Rattle.rbc_versions.specs.Log.{IsOf};
ghost use Rattle.rbc_versions.specs.Entries.{AreOf};
ghost use Rattle.rbc_core.specs.Runs.{IsInput};

use rbc_core::{Attempt, Book, RunName};
use rbc_desk::decide;
use rbc_records::{Key, ReadFault, Reader, Rec};
use rbc_rule::Input;
use rbc_track::Track;
use rbc_versions::{Notes, Published, Ticket, VersionLog, publish_all};
use std::alloc::{AllocError, Global};
use std::marker::{Model, PhantomData};
use std::process::Abort;
use std::sync::Wait;

/// What a run is about: its track, its inputs, and the log in which its records are published.
#[derive(Drop)]
pub(crate) struct Scene<'a, N: RunName, R> {
    pub(crate) rt: &'a R,
    pub(crate) alloc: Global,
    pub(crate) track: &'a Track,
    pub(crate) inputs: &'a [Input],
    pub(crate) log: &'a VersionLog,
    pub(crate) of: PhantomData<N>,
    ghost track_is: { track.now ≡ N.run.track },
    ghost inputs_are: { inputs.now ≡ N.run.inputs },
    ghost log_is: { log.now ≡ N.log },
}

impl<'a, N: RunName, R: Abort> Scene<'a, N, R> {
    /// The input of a number, which counts from 1.
    fn input(&self, number: u32) -> &'a Input
        ensures { IsInput N.run number result.now }
    {
        let inputs = self.inputs;
        assert!(self.rt; number > 0 && number as usize <= inputs.len());
        &inputs[number as usize - 1]
    }
}

/// What was read so far for the attempt at an input.
#[derive(Drop)]
pub(crate) struct Ahead<N: RunName> {
    input: u32,
    notes: Notes,
    of: PhantomData<N>,
}

impl<N: RunName> Model for Ahead<N> {
    ghost use Rattle.std.specs.Prelude.{List, Option};
    ghost use Rattle.rbc_records.specs.declared.record.Key.{Key};
    ghost use Rattle.rbc_versions.specs.Log.{Shown};
    ghost use Rattle.rbc_versions.specs.Entries.{AreOf};

    ghost Value = { List (Key × Option Shown) };

    ghost view = { λ ahead. ahead.notes };

    // The tickets are of the log of the run.
    ghost invariant = { λ ahead. AreOf N.log ahead.notes };
}

impl<N: RunName> Ahead<N> {
    /// Nothing was read yet for the input of a number.
    pub(crate) fn nothing(alloc: Global, input: u32) -> Self {
        Ahead {
            input,
            notes: Notes::new(alloc),
            of: PhantomData,
        }
    }

    /// The number of the input.
    pub(crate) fn input(&self) -> u32 {
        self.input
    }
}

/// Reads the number of what stands in a book, and looks the record up in the log.
#[derive(Drop)]
struct Direct<'a, 'b, N: RunName, R> {
    rt: &'a R,
    log: &'a VersionLog,
    book: &'a Book<'b, N>,
    input: u32,
    notes: Notes,
}

impl<'a, 'b, N: RunName, R> Model for Direct<'a, 'b, N, R> {
    ghost use Rattle.std.specs.Prelude.{◌≡◌, List, Option};
    ghost use Rattle.rbc_records.specs.declared.record.Key.{Key};
    ghost use Rattle.rbc_versions.specs.Log.{Shown};
    ghost use Rattle.rbc_versions.specs.Entries.{AreOf};

    ghost Value = { List (Key × Option Shown) };

    ghost view = { λ reader. reader.notes };

    // The log is that of the run, and so are the tickets.
    ghost invariant = { λ reader. (reader.log.now ≡ N.log) × AreOf N.log reader.notes };
}

impl<'a, 'b, N: RunName, R: Abort> Direct<'a, 'b, N, R> {
    /// Reads on for an attempt.
    fn new(rt: &'a R, log: &'a VersionLog, book: &'a Book<'b, N>, ahead: Ahead<N>) -> Self
        requires { log.now ≡ N.log }
    {
        let Ahead {
            input,
            notes,
            of: _,
        } = ahead;
        Direct {
            rt,
            log,
            book,
            input,
            notes,
        }
    }

    /// The notes of all that was read.
    fn into_notes(self) -> Notes
        ensures notes { result ≡ self.entry }
        ensures here { AreOf N.log result }
    {
        let Direct {
            rt: _,
            log: _,
            book: _,
            input: _,
            notes,
        } = self;
        notes
    }

    /// The ticket of what stands under a key, or that nothing does.
    fn read(&self, key: Key) -> Option<Ticket>
        ensures { IfSome result (IsOf N.log) }
    {
        let number = self.book.present(self.input, key);
        let ticket = self.log.look(number);
        assert!(self.rt; number == 0 || ticket.is_some());
        ticket
    }
}

impl<'a, 'b, N: RunName, R: Abort> Reader for Direct<'a, 'b, N, R> {
    ghost use Rattle.rbc_records.specs.Notes.{Part};
    ghost use Rattle.rbc_versions.specs.Entries.{shown};

    ghost notes = { λ reader. Part (shown reader) };

    ghost failed = { λ _. 0 };

    fn fetch(&mut self, key: Key) -> Result<(), ReadFault> {
        if self.notes.get(key).is_some() {
            return Ok(());
        }
        let ticket = self.read(key);
        match self.notes.add(key, ticket) {
            Ok(()) => Ok(()),
            Err(_) => Err(ReadFault::OutOfMemory),
        }
    }

    fn seen(&self, key: Key) -> Option<&Rec> {
        match self.notes.get(key).unwrap() {
            Some(ticket) => Some(&self.log.version(ticket).rec),
            None => None,
        }
    }

    fn failures(&self) -> u64 {
        0
    }
}

/// Reads what stands under a key now for an input, of which the rest is read later.
pub(crate) fn read_ahead<N: RunName, R: Abort>(
    scene: &Scene<'_, N, R>,
    book: &Book<'_, N>,
    input: u32,
    key: Key,
) -> Ahead<N> {
    let nothing = Ahead::nothing(scene.alloc, input);
    let mut reader = Direct::new(scene.rt, scene.log, book, nothing);
    reader.fetch(key).expect(scene.rt, "memory");
    Ahead {
        input,
        notes: reader.into_notes(),
        of: PhantomData,
    }
}

/// An attempt, and the numbers that were published for it.
#[derive(Drop)]
pub(crate) struct Tried<N: RunName> {
    pub(crate) attempt: Attempt<N>,
    pub(crate) numbers: Vec<(Key, u64)>,
}

/// The keys of a publication with the numbers of their records, and with 0 if there is none any more.
fn numbers_of(alloc: Global, published: &Published) -> Result<Vec<(Key, u64)>, AllocError> {
    let mut numbers = Vec::new(alloc);
    for index in 0..published.len() {
        let (key, ticket) = published.at(index);
        let number = match ticket {
            Some(ticket) => ticket.number(),
            None => 0,
        };
        numbers.push((key, number))?;
    }
    Ok(numbers)
}

/// Attempts the input for which something, or nothing yet, was read.
pub(crate) fn attempt<N: RunName, R: Abort + Wait>(
    scene: &Scene<'_, N, R>,
    book: &Book<'_, N>,
    ahead: Ahead<N>,
) -> Tried<N> {
    let (rt, alloc, track, log) = (scene.rt, scene.alloc, scene.track, scene.log);
    let number = ahead.input();
    let input = scene.input(number);
    assert!(rt; input.fits());
    let mut reader = Direct::new(rt, log, book, ahead);
    let outcome = decide(alloc, track, input, &mut reader).expect(rt, "memory");
    let notes = reader.into_notes();
    let published = publish_all(rt, alloc, log, &outcome.writes).expect(rt, "memory");
    let numbers = numbers_of(alloc, &published).expect(rt, "memory");
    let attempt = Attempt::of(track, number, input, notes, outcome, published);
    Tried { attempt, numbers }
}
