//! The log: any thread publishes records in it under numbers, and looks them up, with no lock.
//!
//! A ticket hides a token of `boxcar`, so no crate above names one. Publishing may wait for a thread that makes room in
//! the log; looking up never waits. `is_same` (present.rt) is the only comparison of numbers.

ghost use Rattle.std.specs.Prelude.{◌≡◌, ◌+◌, ◌<◌, IfOk, IfSome, None};
ghost use Rattle.rbc_versions.specs.Log.{IsOf};

use boxcar::Pushed;
use rbc_records::{Key, Rec};
use std::alloc::Global;
use std::marker::Model;
use std::sync::Wait;

/// Memory was refused.
#[derive(Clone, Copy, Debug, PartialEq, Eq)]
pub struct OutOfMemory;

/// A record, and the key under which it was published.
#[derive(Drop)]
pub struct Version {
    pub key: Key,
    pub rec: Rec,
}

/// Shows that a log holds a version under a number, for as long as the log lasts. Copying it takes no memory.
#[derive(Drop)]
pub struct Ticket {
    token: Pushed<Version>,
}

impl Model for Ticket {
    ghost use Rattle.std.specs.Prelude.{◌+◌, ◌<◌, ◌^◌};
    ghost use Rattle.rbc_versions.specs.Log.{Shown};

    ghost Value = { Shown };

    ghost view = { λ ticket. ticket.token };

    // The number is a `u64`.
    ghost invariant = { λ ticket. ticket.token.index + 1 < 2 ^ 64 };
}

impl Ticket {
    /// The number, which is above 0: 0 stands for a record that is absent, which has no ticket.
    pub fn number(&self) -> u64
        ensures number { result ≡ self.now.index + 1 }
        ensures above { 0 < result }
    {
        self.token.index() as u64 + 1
    }

    /// A copy of the ticket.
    pub fn again(&self) -> Ticket
        ensures { result ≡ self.now }
    {
        Ticket {
            token: self.token.again(),
        }
    }
}

/// The versions that were published. They stay where they are until the log is dropped.
#[derive(Drop)]
pub struct VersionLog {
    versions: boxcar::Vec<Version>,
}

impl Model for VersionLog {
    ghost use Rattle.boxcar.specs.Table.{Shelves, shelves_coded};

    ghost Value = { Shelves };

    ghost coded = { shelves_coded };

    ghost view = { λ log. log.versions };
}

impl VersionLog {
    /// Makes an empty log. Its contract does not say that it is empty: what threads share is known only through
    /// tickets.
    pub fn new(alloc: Global) -> Result<Self, OutOfMemory> {
        match boxcar::Vec::new(alloc) {
            Ok(versions) => Ok(VersionLog { versions }),
            Err(_) => Err(OutOfMemory),
        }
    }

    /// How many versions were published, or are about to be. Its contract says nothing, because other threads may
    /// publish meanwhile.
    pub fn count(&self) -> usize {
        self.versions.count()
    }

    /// Publishes a record under a number that no other record has. Fails also if no number is left.
    pub fn publish(&self, rt: &impl Wait, key: Key, rec: Rec) -> Result<Ticket, OutOfMemory>
        ensures { IfOk result (λ ticket. IsOf self.now ticket × (ticket.value ≡ record { key = key; rec = rec })) }
    {
        match self.versions.push_shown(rt, Version { key, rec }) {
            Ok(token) => {
                if token.index() == usize::MAX {
                    return Err(OutOfMemory);
                }
                Ok(Ticket { token })
            }
            Err(_) => Err(OutOfMemory),
        }
    }

    /// Publishes a copy of a record. Fails also if no number is left.
    pub(crate) fn publish_copy(
        &self,
        rt: &impl Wait,
        alloc: Global,
        key: Key,
        rec: &Rec,
    ) -> Result<Ticket, OutOfMemory>
        ensures { IfOk result (λ ticket. IsOf self.now ticket
            × (ticket.value ≡ record { key = key; rec = rec.now })) }
    {
        match rec.copy(alloc) {
            Ok(copy) => self.publish(rt, key, copy),
            Err(_) => Err(OutOfMemory),
        }
    }

    /// A ticket of a number, if it was given out; none for 0.
    pub fn look(&self, number: u64) -> Option<Ticket>
        ensures ticket { IfSome result (λ ticket. IsOf self.now ticket × (ticket.index + 1 ≡ number)) }
        ensures zero { number ≡ 0 → result ≡ None }
    {
        if number == 0 {
            return None;
        }
        let token = self.versions.witness((number - 1) as usize)?;
        Some(Ticket { token })
    }

    /// The version that a ticket of this log shows.
    pub fn version(&self, ticket: &Ticket) -> &Version
        requires { IsOf self.now ticket.now }
        ensures { result.now ≡ ticket.now.value }
    {
        self.versions.value(&ticket.token)
    }

    /// Says in its contract that two tickets of this log and of one number show one version, whichever threads got
    /// them.
    pub fn agree(&self, one: &Ticket, other: &Ticket)
        requires { IsOf self.now one.now × IsOf self.now other.now × (one.now.index ≡ other.now.index) }
        ensures { one.now.value ≡ other.now.value }
    {
        self.versions.agrees(&one.token, &other.token);
    }
}
