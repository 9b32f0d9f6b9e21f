//! Notes of which numbers were read.

ghost use Rattle.std.specs.Prelude.{◌≡◌, ◌<◌, [], ◌∷◌, ◌++◌, false, length, is_some, IfOk, IfSome, OnOk, OnErr, Some};
ghost use Rattle.std.specs.Prelude.{slice_get, option_copied};
ghost use Rattle.std.specs.Option.{option_map};
ghost use Rattle.rbc_records.specs.Notes.{Part, Learns, IsNotedOnce, is_noted, note_in};
ghost use Rattle.rbc_versions.specs.Log.{LogName, IsOf};
ghost use Rattle.rbc_versions.specs.Entries.{AreOf, shown, record_of};

use crate::log::{OutOfMemory, Ticket};
use crate::tickets::{Tickets, boxed};
use indexmap::IndexMap;
use rbc_records::Key;
use std::alloc::Global;
use std::marker::Model;

/// Notes of what was read under some keys: the ticket of a record, or that there is none. They stand in the order of
/// reading, and no key occurs twice. In contracts a list of pairs.
#[derive(Drop)]
pub struct Notes {
    /// `None` while nothing is noted.
    all: Option<Tickets>,
    alloc: Global,
}

impl Model for Notes {
    ghost use Rattle.std.specs.Prelude.{List, [], Option};
    ghost use Rattle.std.specs.Option.{option_map_or};
    ghost use Rattle.rbc_records.specs.declared.record.Key.{Key};
    ghost use Rattle.rbc_records.specs.Notes.{IsNotedOnce};
    ghost use Rattle.rbc_versions.specs.Log.{Shown};
    ghost use Rattle.rbc_versions.specs.Entries.{shown};

    ghost Value = { List (Key × Option Shown) };

    ghost view = { λ notes. option_map_or (λ all. all.value.entries) notes.all [] };

    // Each key occurs once.
    ghost invariant = { λ notes. IsNotedOnce (shown (option_map_or (λ all. all.value.entries) notes.all [])) };
}

impl Notes {
    /// Makes empty notes.
    pub fn new(alloc: Global) -> Self
        ensures { result ≡ [] }
    {
        Notes { all: None, alloc }
    }

    /// Adds a note after the others: what was read under a key that is not noted yet. An error changes nothing.
    pub fn add(&mut self, key: Key, ticket: Option<Ticket>) -> Result<(), OutOfMemory>
        requires { is_noted (shown self.old) key ≡ false }
        ensures ok { OnOk result (self.new ≡ self.old ++ (key, ticket) ∷ []) }
        ensures learns { OnOk result (Learns (Part (shown self.old)) key (Part (shown self.new))) }
        ensures err { OnErr result (self.new ≡ self.old) }
    {
        match &mut self.all {
            Some(all) => append(all, key, ticket),
            None => {
                self.all = Some(first_note(self.alloc, key, ticket)?);
                Ok(())
            }
        }
    }

    /// Takes all notes out. Their memory stays.
    pub fn clear(&mut self)
        ensures { self.new ≡ [] }
    {
        if let Some(all) = &mut self.all {
            all.clear();
        }
    }

    /// What was read under a key: the ticket of a record, or that there is none. `None` if the key is not noted.
    pub fn get(&self, key: Key) -> Option<Option<&Ticket>>
        ensures known { is_some result ≡ is_noted (shown self.now) key }
        ensures noted { IfSome result (λ ticket. option_map record_of (option_copied ticket)
            ≡ note_in (shown self.now) key) }
        ensures here { (log : LogName) → AreOf log self.now
            → IfSome result (λ ticket. IfSome (option_copied ticket) (IsOf log)) }
    {
        match &self.all {
            Some(all) => noted(all, key),
            None => None,
        }
    }

    /// The number of notes.
    pub fn len(&self) -> usize
        ensures len { result ≡ length self.now }
        ensures once { IsNotedOnce (shown self.now) }
    {
        match &self.all {
            Some(all) => all.len(),
            None => 0,
        }
    }

    /// The note at an index, which counts from 0 and is below `len`: its key, and the ticket that was read under it.
    pub fn at(&self, index: usize) -> (Key, Option<&Ticket>)
        requires { index < length self.now }
        ensures at { slice_get self.now index ≡ Some (result.0, option_copied result.1) }
        ensures once { IsNotedOnce (shown self.now) }
    {
        let (key, ticket) = self.all.as_ref().unwrap().get_index(index).unwrap();
        (*key, ticket.as_ref())
    }
}

/// The initial room for notes: most inputs read three records.
const FEW: usize = 4;

/// Adds a note after the others, under a key that none has. An error changes nothing.
fn append(
    all: &mut IndexMap<Key, Option<Ticket>>,
    key: Key,
    ticket: Option<Ticket>,
) -> Result<(), OutOfMemory>
    requires absent { is_noted (shown all.old.entries) key ≡ false }
    requires once { IsNotedOnce (shown all.old.entries) }
    ensures ok { OnOk result (all.new.entries ≡ all.old.entries ++ (key, ticket) ∷ []) }
    ensures learns { OnOk result (Learns (Part (shown all.old.entries)) key (Part (shown all.new.entries))) }
    ensures err { OnErr result (all.new.entries ≡ all.old.entries) }
    ensures once { IsNotedOnce (shown all.new.entries) }
{
    match all.insert(key, ticket) {
        Ok(_) => Ok(()),
        Err(_) => Err(OutOfMemory),
    }
}

/// What was read under a key: the ticket of a record, or that there is none. `None` if the key is not noted.
fn noted(all: &IndexMap<Key, Option<Ticket>>, key: Key) -> Option<Option<&Ticket>>
    ensures known { is_some result ≡ is_noted (shown all.now.entries) key }
    ensures noted { IfSome result (λ ticket. option_map record_of (option_copied ticket)
        ≡ note_in (shown all.now.entries) key) }
    ensures here { (log : LogName) → AreOf log all.now.entries
        → IfSome result (λ ticket. IfSome (option_copied ticket) (IsOf log)) }
{
    let ticket = all.get(&key)?;
    Some(ticket.as_ref())
}

/// A map of one note.
fn first_note(alloc: Global, key: Key, ticket: Option<Ticket>) -> Result<Tickets, OutOfMemory>
    ensures one { IfOk result (λ all. all.value.entries ≡ (key, ticket) ∷ []) }
    ensures learns { IfOk result (λ all. Learns (Part []) key (Part (shown all.value.entries))) }
    ensures once { IfOk result (λ all. IsNotedOnce (shown all.value.entries)) }
{
    let Ok(mut all) = IndexMap::with_capacity(alloc, FEW) else {
        return Err(OutOfMemory);
    };
    append(&mut all, key, ticket)?;
    boxed(alloc, all)
}
