//! The lists of trains while messages move trains from list to list.

ghost use Rattle.std.specs.Prelude.{◌≡◌, ◌<◌, [], IfOk, OnOk, length, option_copied};
ghost use Rattle.std.specs.List.{position_or_len};
ghost use Rattle.rbc_settle.specs.Numbers.{with_number, without_number};
ghost use Rattle.rbc_records.specs.declared.record.Key.{Key};
ghost use Rattle.rbc_records.specs.Notes.{record_in, same_key};
ghost use Rattle.rbc_records.specs.Writes.{written, write_over};
ghost use Rattle.rbc_rule.specs.Records.{engines_record};
ghost use Rattle.rbc_rule.specs.Lists.{engines_in};
ghost use Rattle.rbc_window.specs.Messages.{Records, moves_in};
ghost use Rattle.rbc_window.specs.Moving.{list_or};

use rbc_records::{Key, PlainStore, Rec, Writes};
use rbc_settle::Numbers;
use std::alloc::{AllocError, Global};
use std::marker::Model;

/// Those lists of engines that have changed since a window began, by their keys.
#[derive(Drop)]
pub struct Lists {
    all: Vec<(Key, Numbers)>,
}

impl Model for Lists {
    ghost use Rattle.std.specs.Prelude.{List, ℕ};
    ghost use Rattle.rbc_records.specs.declared.record.Key.{Key};

    ghost Value = { List (Key × List ℕ) };

    ghost view = { λ lists. lists.all.items };
}

impl Lists {
    /// No list has changed.
    pub fn new(alloc: Global) -> Self
        ensures { result ≡ [] }
    {
        Lists {
            all: Vec::new(alloc),
        }
    }

    /// Takes a train out of one list and puts it into another; nothing changes if both are the same. Lists that have
    /// not changed before are copied from the store. It would also fail if the list that the engine enters already had
    /// it, or if the record under a key were not a list; neither happens.
    pub fn move_train(
        &mut self,
        alloc: Global,
        store: &PlainStore,
        engine: u32,
        left: Key,
        entered: Key,
    ) -> Result<(), AllocError>
        ensures { OnOk result ((k : Key) → list_or self.new (record_in store.now) k
            ≡ written (moves_in (list_or self.old (record_in store.now)) engine left entered)
            (list_or self.old (record_in store.now)) k) }
    {
        if left == entered {
            return Ok(());
        }
        self.take_out(alloc, store, engine, left)?;
        self.put_in(alloc, store, engine, entered)
    }

    /// Takes a train out of a list. Fails as `own` does.
    fn take_out(
        &mut self,
        alloc: Global,
        store: &PlainStore,
        engine: u32,
        key: Key,
    ) -> Result<(), AllocError>
        ensures { OnOk result ((k : Key) → list_or self.new (record_in store.now) k
            ≡ write_over
            (key, engines_record (without_number engine (engines_in (list_or self.old (record_in store.now) key))))
            (list_or self.old (record_in store.now)) k) }
    {
        let index = self.own(alloc, store, key)?;
        let (_key, engines) = &mut self.all[index];
        let _ = engines.remove(engine);
        Ok(())
    }

    /// Puts a train into a list. Fails as `own` does, and if the train is already in the list.
    fn put_in(
        &mut self,
        alloc: Global,
        store: &PlainStore,
        engine: u32,
        key: Key,
    ) -> Result<(), AllocError>
        ensures { OnOk result ((k : Key) → list_or self.new (record_in store.now) k
            ≡ write_over
            (key, engines_record (with_number engine (engines_in (list_or self.old (record_in store.now) key))))
            (list_or self.old (record_in store.now)) k) }
    {
        let index = self.own(alloc, store, key)?;
        let (_key, engines) = &mut self.all[index];
        if engines.has(engine) {
            return Err(AllocError);
        }
        engines.add(engine)?;
        Ok(())
    }

    /// The index of the list under a key, which is first copied from the store if it has not changed before. Fails also
    /// if the store has no list of engines there.
    fn own(&mut self, alloc: Global, store: &PlainStore, key: Key) -> Result<usize, AllocError>
        ensures same { OnOk result ((k : Key) → list_or self.new (record_in store.now) k
            ≡ list_or self.old (record_in store.now) k) }
        ensures first { IfOk result (λ index. position_or_len (λ list. same_key list.0 key) self.new ≡ index) }
        ensures within { IfOk result (λ index. index < length self.new) }
    {
        let index = self.place_of(key);
        if index < self.all.len() {
            return Ok(index);
        }
        let engines = engines_of(alloc, store.get(key))?;
        self.all.push((key, engines))?;
        Ok(index)
    }

    /// The index of the list under a key, or how many lists there are if that has not changed.
    fn place_of(&self, key: Key) -> usize
        ensures { result ≡ position_or_len (λ list. same_key list.0 key) self.now }
    {
        for index in 0..self.all.len() {
            if self.all[index].0 == key {
                return index;
            }
        }
        self.all.len()
    }

    /// Appends a write of each list that has changed under its key.
    pub fn write(self, writes: &mut Writes) -> Result<(), AllocError>
        ensures { OnOk result ((records : Records) (k : Key) → written writes.new records k
            ≡ list_or self (written writes.old records) k) }
    {
        let Lists { mut all } = self;
        // The last list goes first, so that the first under a key counts.
        while let Some((key, engines)) = all.pop() {
            writes.set(key, record_of(engines))?;
        }
        Ok(())
    }
}

/// A list of engines as a record: an empty one has none.
fn record_of(engines: Numbers) -> Option<Rec>
    ensures { result ≡ engines_record engines }
{
    if engines.len() == 0 {
        return None;
    }
    Some(Rec::Engines(engines))
}

/// Copies the engines in a record; without a record there are none. Fails also if the record is not a list of engines.
fn engines_of(alloc: Global, found: Option<&Rec>) -> Result<Numbers, AllocError>
    ensures { IfOk result (λ engines. engines_record engines ≡ option_copied found.entry) }
{
    match found {
        None => Ok(Numbers::new(alloc)),
        Some(Rec::Engines(engines)) => {
            if engines.len() == 0 {
                return Err(AllocError);
            }
            Ok(engines.copy(alloc)?)
        }
        Some(_other) => Err(AllocError),
    }
}
