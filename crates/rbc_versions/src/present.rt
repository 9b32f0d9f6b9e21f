//! The present tickets: which version stands under each key now.

ghost use Rattle.std.specs.Prelude.{◌≡◌, ◌+◌, ◌<◌, ◌≤◌, ◌↔◌, if◌then◌else◌, length, IsTrue, IfOk, OnOk, option_copied};
ghost use Rattle.std.specs.Prelude.{IfSome};
ghost use Rattle.std.specs.Option.{option_map};
ghost use Rattle.rbc_records.specs.declared.record.Key.{Key};
ghost use Rattle.indexmap.specs.IndexMap.{spare};
ghost use Rattle.rbc_records.specs.Notes.{AreNow, record_in, same_key};
ghost use Rattle.rbc_versions.specs.Log.{IsOf, number_of};
ghost use Rattle.rbc_versions.specs.Entries.{AreOf, AreCurrent, StandIn, numbered, shown, record_of, ticket_in};
ghost use Rattle.rbc_versions.specs.Entries.{tickets_after};

use crate::log::{OutOfMemory, Ticket, VersionLog};
use crate::noted_numbers::Notes;
use crate::published::Published;
use indexmap::IndexMap;
use rbc_records::{Key, PlainStore};
use std::alloc::Global;
use std::marker::Model;
use std::sync::Wait;

/// For each key under which a record stands now, the ticket of its version. In contracts a list of pairs, of which the
/// first with a key counts, and how many more keys there is room for.
#[derive(Drop)]
pub struct Present {
    tickets: IndexMap<Key, Ticket>,
}

impl Model for Present {
    ghost use Rattle.indexmap.specs.IndexMap.{spare};
    ghost use Rattle.rbc_versions.specs.Entries.{PresentValue};

    ghost Value = { PresentValue };

    ghost view = { λ present. record { tickets = present.tickets.entries; room = spare present.tickets } };
}

/// Whether two tickets of the log have one number, or both are absent. Then they show the same record. Only here are
/// numbers compared in place of records.
fn is_same(log: &VersionLog, one: Option<&Ticket>, other: Option<&Ticket>) -> bool
    requires one { IfSome (option_copied one) (IsOf log.now) }
    requires other { IfSome (option_copied other) (IsOf log.now) }
    ensures numbers { IsTrue result ↔ (number_of (option_copied one.entry) ≡ number_of (option_copied other.entry)) }
    ensures records { IsTrue result
        → option_map record_of (option_copied one.entry) ≡ option_map record_of (option_copied other.entry) }
{
    match (one, other) {
        (None, None) => true,
        (Some(one), Some(other)) => {
            if one.number() != other.number() {
                return false;
            }
            log.agree(one, other);
            true
        }
        _ => false,
    }
}

/// Puts a ticket under a key, or takes away the one that stands there. There has to be room for one more ticket.
fn put(tickets: &mut IndexMap<Key, Ticket>, key: Key, ticket: Option<Ticket>)
    requires { 0 < spare tickets.old }
    ensures tickets { (k : Key) → ticket_in tickets.new.entries k
        ≡ (if same_key k key then ticket else ticket_in tickets.old.entries k) }
    ensures room { spare tickets.old ≤ spare tickets.new + 1 }
{
    match ticket {
        Some(ticket) => {
            tickets.insert(key, ticket).unwrap();
        }
        None => {
            tickets.swap_remove(&key);
        }
    }
}

impl Present {
    /// Publishes a copy of each record of a store, and takes their tickets for the present ones. An error may leave
    /// versions in the log that nothing names.
    pub fn of_store(
        rt: &impl Wait,
        alloc: Global,
        log: &VersionLog,
        store: &PlainStore,
    ) -> Result<Self, OutOfMemory>
        ensures here { IfOk result (λ present. StandIn log.now present.tickets) }
        ensures records { IfOk result (λ present. (k : Key)
            → option_map record_of (ticket_in present.tickets k) ≡ record_in store.now k) }
    {
        let Ok(mut tickets) = IndexMap::with_capacity(alloc, store.len()) else {
            return Err(OutOfMemory);
        };
        // The first record under a key counts, so it goes in last.
        for index in (0..store.len()).rev() {
            let (key, rec) = store.at(index);
            let ticket = log.publish_copy(rt, alloc, key, rec)?;
            put(&mut tickets, key, Some(ticket));
        }
        Ok(Present { tickets })
    }

    /// The number of the record that stands under a key now; 0 if there is none.
    pub fn number(&self, key: Key) -> u64
        ensures { result ≡ number_of (ticket_in self.now.tickets key) }
    {
        match self.tickets.get(&key) {
            Some(ticket) => ticket.number(),
            None => 0,
        }
    }

    /// Whether the number of every note is still the present one. Only numbers are compared; if they are the same, so
    /// are the records.
    pub fn are_current(&self, log: &VersionLog, notes: &Notes) -> bool
        requires notes { AreOf log.now notes.now }
        requires here { StandIn log.now self.now.tickets }
        ensures numbers { IsTrue result
            ↔ AreCurrent (numbered notes.now) (λ k. number_of (ticket_in self.now.tickets k)) }
        ensures records { IsTrue result
            → AreNow (shown notes.now) (λ k. option_map record_of (ticket_in self.now.tickets k)) }
    {
        for index in 0..notes.len() {
            let (key, ticket) = notes.at(index);
            if !is_same(log, ticket, self.tickets.get(&key)) {
                return false;
            }
        }
        true
    }

    /// Makes room for this many more keys.
    pub fn reserve(&mut self, additional: usize) -> Result<(), OutOfMemory>
        ensures tickets { self.new.tickets ≡ self.old.tickets }
        ensures room { OnOk result (additional ≤ self.new.room) }
    {
        match self.tickets.reserve(additional) {
            Ok(()) => Ok(()),
            Err(_) => Err(OutOfMemory),
        }
    }

    /// Makes the tickets of a publication the present ones, and takes away those of its removals. There has to be room.
    pub fn take_over(&mut self, published: &Published)
        requires { length published.now ≤ self.old.room }
        ensures { (k : Key) → ticket_in self.new.tickets k
            ≡ tickets_after published.now (ticket_in self.old.tickets) k }
    {
        for index in 0..published.len() {
            let (key, ticket) = published.at(index);
            put(&mut self.tickets, key, ticket.map(Ticket::again));
        }
    }
}
