//! Attempts at inputs.

ghost use Rattle.std.specs.Prelude.{◌≡◌, ◌↔◌, ◌≤◌, ℕ, IsTrue, Some};
ghost use Rattle.std.specs.Option.{option_map};
ghost use Rattle.rbc_records.specs.declared.record.Key.{Key};
ghost use Rattle.rbc_records.specs.Notes.{Part, AreNow};
ghost use Rattle.rbc_versions.specs.Log.{number_of};
ghost use Rattle.rbc_versions.specs.Entries.{AreOf, AreKeyedOf, AreOfWrites, AreCurrent, StandIn, numbered, number_for};
ghost use Rattle.rbc_versions.specs.Entries.{records_of, shown, record_of, ticket_in};
ghost use Rattle.rbc_versions.specs.Entries.{CountsAll};
ghost use Rattle.rbc_rule.specs.Right.{IsRight};
ghost use Rattle.rbc_rule.specs.Gathered.{AreSendable};
ghost use Rattle.rbc_core.specs.Runs.{IsInput};
ghost use Rattle.rbc_core.specs.Core.{IsRightTry};
ghost use Rattle.rbc_core.specs.Searches.{bound_of};

use crate::bounds::Bounds;
use crate::run_name::RunName;
use rbc_records::Key;
use rbc_rule::{Input, Outcome};
use rbc_track::Track;
use rbc_versions::{Notes, Present, Published, VersionLog};
use std::marker::{Model, PhantomData};

/// An attempt at an input of a run: the numbers that were read, what the input does if they still stand, and the
/// numbers of what it writes. Each attempt is right: in every valid state that has the records that were read, its
/// outcome is that of the input's step, and its numbers mean what the outcome writes.
#[derive(Drop)]
pub struct Attempt<N: RunName> {
    number: u32,
    notes: Notes,
    outcome: Outcome,
    published: Published,
    of: PhantomData<N>,
}

impl<N: RunName> Model for Attempt<N> {
    ghost use Rattle.rbc_versions.specs.Entries as entries;
    ghost use Rattle.rbc_core.specs.Core as core;

    ghost Value = { core.Try };

    ghost view = { λ a. record {
      number = a.number;
      notes = entries.numbered a.notes;
      outcome = a.outcome;
      writes = entries.numbered a.published;
    } };

    // It is right, and its numbers are those of the run's log.
    ghost invariant = { λ a. core.IsRightTry N.run
        (record {
          number = a.number;
          notes = entries.numbered a.notes;
          outcome = a.outcome;
          writes = entries.numbered
              a.published;
        }) × entries.AreOf N.log a.notes × entries.AreKeyedOf N.log a.published };
}

impl<N: RunName> Attempt<N> {
    /// Makes an attempt at the input of a number, which counts from 1. `decide` gives an outcome that is right for the
    /// notes of its reader, and `publish_all` the publication of its writes.
    pub fn of(
        track: &Track,
        number: u32,
        input: &Input,
        notes: Notes,
        outcome: Outcome,
        published: Published,
    ) -> Self
        requires track { track.now ≡ N.run.track }
        requires input { IsInput N.run number input.now }
        requires right { IsRight track.now input.now
            (Part (shown notes)) outcome.result outcome.writes outcome.messages }
        requires fit { AreSendable outcome.messages }
        requires notes { AreOf N.log notes }
        requires published { AreKeyedOf N.log published }
        requires writes { AreOfWrites (numbered published) outcome.writes }
        ensures { result ≡ record {
          number = number;
          notes = numbered notes;
          outcome = outcome;
          writes = numbered
              published;
        } }
    {
        let _ = track;
        let _ = input;
        Attempt {
            number,
            notes,
            outcome,
            published,
            of: PhantomData,
        }
    }

    /// The number of its input.
    pub fn number(&self) -> u32
        ensures number { result ≡ self.now.number }
        ensures right { IsRightTry N.run self.now }
    {
        self.number
    }

    /// How much was published for it.
    pub(crate) fn weight(&self) -> usize
        ensures all { CountsAll result (records_of self.now.writes) }
        ensures right { IsRightTry N.run self.now }
    {
        self.published.weight()
    }

    /// The number that it puts under a key: 0 if it removes what stands there. `None` if it does not write the key.
    pub fn number_for(&self, key: Key) -> Option<u64>
        ensures number { result ≡ number_for self.now.writes key }
        ensures right { IsRightTry N.run self.now }
    {
        self.published.number(key)
    }

    /// What was published for it.
    pub fn published(&self) -> &Published
        ensures published { numbered result.now ≡ self.now.writes }
        ensures right { IsRightTry N.run self.now }
    {
        &self.published
    }

    /// Raises the bounds of the keys that it writes to the number of its input.
    pub(crate) fn raise(&self, bounds: &mut Bounds)
        ensures raised { (k : Key) (n : ℕ) → number_for self.now.writes k ≡ Some n
            → self.now.number ≤ bound_of bounds.new k }
        ensures rises { (k : Key) → bound_of bounds.old k ≤ bound_of bounds.new k }
    {
        bounds.raise_all(&self.published, self.number);
    }

    /// Whether every number that was read, also for absent records, is still the present one. Only numbers are
    /// compared.
    pub(crate) fn is_fresh(&self, log: &VersionLog, present: &Present) -> bool
        requires log { log.now ≡ N.log }
        requires present { StandIn log.now present.now.tickets }
        ensures numbers { IsTrue result ↔ AreCurrent self.now.notes (λ k. number_of (ticket_in present.now.tickets k)) }
        ensures records { IsTrue result
            → AreNow (records_of self.now.notes) (λ k. option_map record_of (ticket_in present.now.tickets k)) }
    {
        present.are_current(log, &self.notes)
    }

    /// What the input does if what was read still stands, the publication of what it writes, and what was read.
    pub(crate) fn into_parts(self) -> (Outcome, Published, Notes)
        ensures outcome { result.0 ≡ self.outcome }
        ensures writes { numbered result.1 ≡ self.writes }
        ensures published { AreKeyedOf N.log result.1 }
        ensures right { IsRightTry N.run self }
    {
        let Attempt {
            number: _,
            notes,
            outcome,
            published,
            of: _,
        } = self;
        (outcome, published, notes)
    }
}
