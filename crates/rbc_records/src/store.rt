//! A store of all records.

ghost use Rattle.std.specs.Prelude.{◌≡◌, ◌+◌, ◌<◌, ◌≤◌, [], length, slice_get, Some, OnOk, OnErr, IfOk, IfErr, IsOk};
ghost use Rattle.std.specs.Prelude.{IsTrue, IsFalse};
ghost use Rattle.std.specs.Prelude.{option_copied};
ghost use Rattle.rbc_settle.specs.declared.train.TrainRec.{TrainRec};
ghost use Rattle.rbc_records.specs.declared.record.Key.{Key};
ghost use Rattle.rbc_records.specs.declared.record.Key.TheVariants as key;
ghost use Rattle.rbc_records.specs.declared.record.Rec.TheVariants as rec;
ghost use Rattle.rbc_records.specs.Notes.{record_in};
ghost use Rattle.rbc_records.specs.Writes.{written, write_over, replaced, IsAcknowledged};

use crate::reader::{ReadFault, Reader};
use crate::record::{Key, Rec};
use crate::record_table::Table;
use crate::search::Sought;
use crate::writes::Writes;
use rbc_settle::{Numbers, Place};
use std::alloc::{AllocError, Global};
use std::marker::Model;

/// All records by their keys. In contracts a list of pairs, of which the first with a key counts.
#[derive(Drop)]
pub struct PlainStore {
    records: Table,
    /// What the last input replaced, if that was one record.
    spare: Option<Writes>,
}

impl Model for PlainStore {
    ghost use Rattle.std.specs.Prelude.{List};
    ghost use Rattle.rbc_records.specs.declared.record.Key.{Key};
    ghost use Rattle.rbc_records.specs.declared.record.Rec.{Rec};

    ghost Value = { List (Key × Rec) };

    ghost view = { λ store. store.records.entries };
}

impl PlainStore {
    /// Makes an empty store.
    pub fn new(alloc: Global) -> Self
        ensures { result ≡ [] }
    {
        PlainStore {
            records: Table::new(alloc),
            spare: None,
        }
    }

    /// The record under a key, or `None` if there is none.
    pub fn get(&self, key: Key) -> Option<&Rec>
        ensures { option_copied result ≡ record_in self.now key }
    {
        self.records.get(key)
    }

    /// Keeps what an input replaced, if that is one record, so that the next outcome can reuse its memory. After a
    /// message it is the record of a train.
    pub fn keep_spare(&mut self, replaced: Writes)
        ensures { self.new ≡ self.old }
    {
        if replaced.len() == 1 {
            self.spare = Some(replaced);
        }
    }

    /// Gives a train another place and another stamp, if its record is there. Nothing else changes.
    pub fn move_train(&mut self, engine: u32, place: Option<Place>, stamp: u32)
        ensures { (train : TrainRec) → record_in self.old (key.Train engine) ≡ Some (rec.Train train)
            → (k : Key) → record_in self.new k ≡ write_over
            (key.Train engine, Some (rec.Train (record train { place = place; stamp = stamp })))
            (record_in self.old) k }
    {
        self.records.move_train(engine, place, stamp);
    }

    /// Takes a train's acknowledgement of the message with stamp `acked` into its record, if the record is there, and
    /// gives the train the stamp `raised`. Returns whether there was something to acknowledge; if not, nothing changes.
    pub fn acknowledge(&mut self, engine: u32, acked: u32, raised: u32) -> bool
        ensures acked { IsTrue result → (train : TrainRec) → record_in self.old (key.Train engine) ≡ Some (rec.Train train)
            → IsAcknowledged engine acked raised train self.old self.new }
        ensures nothing { IsFalse result → self.new ≡ self.old }
    {
        self.records.acknowledge(engine, acked, raised)
    }

    /// The number of records.
    pub fn len(&self) -> usize
        ensures { result ≡ length self.now }
    {
        self.records.len()
    }

    /// The key and the record at an index, which counts from 0 and is below `len`.
    pub fn at(&self, index: usize) -> (Key, &Rec)
        requires { index < length self.now }
        ensures at { slice_get self.now index ≡ Some (result.0, result.1.now) }
    {
        self.records.at(index)
    }
}

impl Reader for PlainStore {
    ghost use Rattle.rbc_records.specs.Notes.{Whole};

    ghost notes = { λ store. Whole store };

    ghost failed = { λ _. 0 };

    /// Does nothing, and never fails: in a store every key is known.
    fn fetch(&mut self, _key: Key) -> Result<(), ReadFault>
        ensures succeeds { IsOk result }
        ensures same { self.new ≡ self.old }
    {
        Ok(())
    }

    fn seen(&self, key: Key) -> Option<&Rec> {
        self.get(key)
    }

    fn spare(&mut self) -> Option<Writes> {
        self.spare.take()
    }

    fn failures(&self) -> u64 {
        0
    }

    fn search(&self, alloc: Global, sought: Sought<'_>) -> Result<Option<Numbers>, AllocError> {
        self.records.search(alloc, sought)
    }
}

/// Does one write, and leaves in its place the record that stood under its key. There has to be room for one more
/// record.
fn write_one(records: &mut Table, key: Key, rec: &mut Option<Rec>)
    requires { 0 < records.old.room }
    ensures records { (k : Key) → record_in records.new.entries k
        ≡ write_over (key, rec.old) (record_in records.old.entries) k }
    ensures replaced { rec.new ≡ record_in records.old.entries key }
    ensures room { records.old.room ≤ records.new.room + 1 }
{
    if let Some(new) = rec
        && records.replace(key, new)
    {
        return;
    }
    *rec = match rec.take() {
        Some(new) => records.put(key, new),
        None => records.remove(key),
    };
}

/// Does the writes, one after another, and hands back under each key what stood there just before. Fails only for lack
/// of memory: the store is then unchanged, and the error hands the writes back.
#[inline(always)]
pub fn exchange(store: &mut PlainStore, mut writes: Writes) -> Result<Writes, Writes>
    ensures ok { OnOk result ((k : Key) → record_in store.new k ≡ written writes (record_in store.old) k) }
    ensures replaced { IfOk result (λ old. old ≡ replaced writes (record_in store.old)) }
    ensures err { OnErr result (store.new ≡ store.old) }
    ensures back { IfErr result (λ back. back ≡ writes) }
{
    if store.records.reserve(writes.len()).is_err() {
        return Err(writes);
    }
    for index in 0..writes.len() {
        let (key, rec) = &mut writes.all[index];
        write_one(&mut store.records, *key, rec);
    }
    Ok(writes)
}

/// Does the writes, one after another. Fails only for lack of memory: the store is then unchanged, and the error hands
/// the writes back.
pub fn apply(store: &mut PlainStore, writes: Writes) -> Result<(), Writes>
    ensures ok { OnOk result ((k : Key) → record_in store.new k ≡ written writes (record_in store.old) k) }
    ensures err { OnErr result (store.new ≡ store.old) }
    ensures back { IfErr result (λ back. back ≡ writes) }
{
    let replaced = exchange(store, writes)?;
    store.keep_spare(replaced);
    Ok(())
}
