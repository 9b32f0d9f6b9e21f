//! Publications of what is written.

ghost use Rattle.std.specs.Prelude.{◌+◌, ◌-◌, ◌^◌, min};
ghost use Rattle.std.specs.Prelude.{◌≡◌, ◌<◌, ◌≤◌, Some, length, slice_get, IfOk, OnOk, IfSome, option_copied};
ghost use Rattle.std.specs.Option.{option_map};
ghost use Rattle.indexmap.specs.IndexMap.{insert_entry, spare};
ghost use Rattle.rbc_records.specs.Notes.{IsNotedOnce, same_key};
ghost use Rattle.rbc_versions.specs.Log.{IsOf};
ghost use Rattle.rbc_versions.specs.Entries.{numbered, number_for, shown, record_of, AreKeyedOf, AreOfWrites};
ghost use Rattle.rbc_versions.specs.Entries.{note_weight, CountsAll};

use crate::log::{OutOfMemory, Ticket, VersionLog};
use crate::tickets::{Tickets, boxed};
use indexmap::IndexMap;
use rbc_records::{Key, Rec, Writes};
use std::alloc::Global;
use std::marker::Model;
use std::sync::Wait;

/// The publication of some writes: for each key that they name one entry, the ticket of its new record, or none for a
/// removal. In contracts a list of pairs.
#[derive(Drop)]
pub struct Published {
    all: Tickets,
    weight: usize,
}

impl Model for Published {
    ghost use Rattle.std.specs.Prelude.{List, Option};
    ghost use Rattle.rbc_records.specs.declared.record.Key.{Key};
    ghost use Rattle.rbc_records.specs.Notes.{IsNotedOnce};
    ghost use Rattle.rbc_versions.specs.Log.{Shown};
    ghost use Rattle.rbc_versions.specs.Entries.{shown, CountsAll};

    ghost Value = { List (Key × Option Shown) };

    ghost view = { λ published. published.all.value.entries };

    // Each key occurs once, and the weight counts all that was published.
    ghost invariant = { λ published. IsNotedOnce (shown published.all.value.entries)
        × CountsAll published.weight (shown published.all.value.entries) };
}

impl Published {
    /// How much was published: one for each record, and one for each item of its lists. Used only to bound the memory
    /// of a log.
    pub fn weight(&self) -> usize
        ensures all { CountsAll result (shown self.now) }
        ensures once { IsNotedOnce (shown self.now) }
    {
        self.weight
    }

    /// The number of entries.
    pub fn len(&self) -> usize
        ensures len { result ≡ length self.now }
        ensures once { IsNotedOnce (shown self.now) }
    {
        self.all.len()
    }

    /// The entry at an index, which counts from 0 and is below `len`: its key, and the ticket of its record, or none
    /// for a removal.
    pub fn at(&self, index: usize) -> (Key, Option<&Ticket>)
        requires { index < length self.now }
        ensures at { slice_get self.now index ≡ Some (result.0, option_copied result.1) }
        ensures once { IsNotedOnce (shown self.now) }
    {
        let (key, ticket) = self.all.get_index(index).unwrap();
        (*key, ticket.as_ref())
    }

    /// The number that the publication puts under a key: 0 if it removes what stands there. `None` if it names no such
    /// key.
    pub fn number(&self, key: Key) -> Option<u64>
        ensures { result ≡ number_for (numbered self.now) key }
    {
        match self.all.get(&key) {
            Some(Some(ticket)) => Some(ticket.number()),
            Some(None) => Some(0),
            None => None,
        }
    }
}

/// What the publication of a record adds to the weight: one, and one for each item of its lists.
fn weight_of(rec: Option<&Rec>) -> usize
    ensures { result ≡ min (note_weight (option_copied rec.entry)) (2 ^ 64 - 1) }
{
    let items = match rec {
        Some(Rec::Engines(engines)) => engines.len(),
        Some(Rec::Train(train)) => train.stops.held().saturating_add(train.limits.held()),
        Some(Rec::Stops(stops)) => stops.count(),
        Some(Rec::Limits(limits)) => limits.count(),
        None => return 0,
    };
    items.saturating_add(1)
}

/// Publishes a copy of what one write puts under its key, if it is no removal.
fn publish_one(
    rt: &impl Wait,
    alloc: Global,
    log: &VersionLog,
    key: Key,
    rec: Option<&Rec>,
) -> Result<Option<Ticket>, OutOfMemory>
    ensures here { IfOk result (λ ticket. IfSome ticket (λ t. IsOf log.now t × (t.value.key ≡ key))) }
    ensures rec { IfOk result (λ ticket. option_map record_of ticket ≡ option_copied rec.entry) }
{
    match rec {
        Some(rec) => Ok(Some(log.publish_copy(rt, alloc, key, rec)?)),
        None => Ok(None),
    }
}

/// Puts a ticket, or none for a removal, under a key, in place of what stands there. There has to be room for one more
/// entry.
fn put(all: &mut IndexMap<Key, Option<Ticket>>, key: Key, ticket: Option<Ticket>)
    requires { 0 < spare all.old }
    ensures entries { all.new.entries ≡ insert_entry same_key all.old.entries key ticket }
    ensures room { spare all.old ≤ spare all.new + 1 }
{
    all.insert(key, ticket).unwrap();
}

/// Publishes copies of what is written, in place of what a map held: one entry for each key, by its last write. Returns
/// their weight. An error may leave versions in the log that nothing names.
fn publish_into(
    rt: &impl Wait,
    alloc: Global,
    log: &VersionLog,
    writes: &Writes,
    all: &mut IndexMap<Key, Option<Ticket>>,
) -> Result<usize, OutOfMemory>
    ensures here { OnOk result (AreKeyedOf log.now all.new.entries) }
    ensures writes { OnOk result (AreOfWrites (numbered all.new.entries) writes.now) }
    ensures once { OnOk result (IsNotedOnce (shown all.new.entries)) }
    ensures weight { IfOk result (λ weight. CountsAll weight (shown all.new.entries)) }
{
    all.clear();
    let Ok(()) = all.reserve(writes.len()) else {
        return Err(OutOfMemory);
    };
    let mut weight = 0usize;
    for index in 0..writes.len() {
        let (key, rec) = writes.at(index);
        weight = weight.saturating_add(weight_of(rec));
        let ticket = publish_one(rt, alloc, log, key, rec)?;
        put(all, key, ticket);
    }
    Ok(weight)
}

/// Publishes copies of what is written: one entry for each key, by its last write. An error may leave versions in the
/// log that nothing names.
pub fn publish_all(
    rt: &impl Wait,
    alloc: Global,
    log: &VersionLog,
    writes: &Writes,
) -> Result<Published, OutOfMemory>
    ensures here { IfOk result (AreKeyedOf log.now) }
    ensures writes { IfOk result (λ published. AreOfWrites (numbered published) writes.now) }
    ensures once { IfOk result (λ published. IsNotedOnce (shown published)) }
{
    let mut all = IndexMap::new(alloc);
    let weight = publish_into(rt, alloc, log, writes, &mut all)?;
    let all = boxed(alloc, all)?;
    Ok(Published { all, weight })
}

/// Does the same in the memory of a publication that is no longer needed.
pub fn publish_all_over(
    rt: &impl Wait,
    alloc: Global,
    log: &VersionLog,
    writes: &Writes,
    old: Published,
) -> Result<Published, OutOfMemory>
    ensures here { IfOk result (AreKeyedOf log.now) }
    ensures writes { IfOk result (λ published. AreOfWrites (numbered published) writes.now) }
    ensures once { IfOk result (λ published. IsNotedOnce (shown published)) }
{
    let Published { mut all, weight: _ } = old;
    let weight = publish_into(rt, alloc, log, writes, &mut all)?;
    Ok(Published { all, weight })
}
