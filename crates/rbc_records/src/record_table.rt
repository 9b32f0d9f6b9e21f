//! A table of records, with what a search reads of them beside it.
//!
//! A search scans columns that stand beside the records. told_bits.rt has one bit for each remainder of 64 of the
//! numbers that a train was told (a train with more than 16 restriction identifiers held counts as told of all);
//! extent.rt has where a new stop must lie to be told to a train. No record that is sought is missed
//! (proofs/Asked.antt).

ghost use Rattle.std.specs.Prelude.{◌≡◌, ℕ, ◌+◌, ◌<◌, ◌≤◌, [], length, slice_get, Some, None, is_some, IsTrue, IsFalse};
ghost use Rattle.std.specs.Prelude.{OnOk, IfOk, IfSome, option_copied};
ghost use Rattle.rbc_settle.specs.declared.train.TrainRec.{TrainRec};
ghost use Rattle.rbc_records.specs.declared.record.Key.{Key};
ghost use Rattle.rbc_records.specs.declared.record.Key.TheVariants as key;
ghost use Rattle.rbc_records.specs.declared.record.Rec.{Rec};
ghost use Rattle.rbc_records.specs.declared.record.Rec.TheVariants as rec;
ghost use Rattle.rbc_records.specs.Notes.{Whole, record_in};
ghost use Rattle.rbc_records.specs.Columns.{told_bits_of, extent_of, column_of, ArePassing};
ghost use Rattle.rbc_records.specs.ToldBits.{has_bit};
ghost use Rattle.rbc_records.specs.Seeking.{AreFound};
ghost use Rattle.rbc_records.specs.Writes.{write_over, IsAcknowledged};

use crate::extent::{Extent, NOWHERE, is_one_met};
use crate::record::{Key, Rec};
use crate::search::{Sought, passing};
use crate::told_bits::{ToldBits, has_bit, in_some};
use indexmap::IndexMap;
use rbc_settle::{Numbers, Place};
use std::alloc::{AllocError, Global};
use std::marker::Model;
use std::mem;

/// Records by their keys. Four columns, whose entries have the indices of the records, hold the little of each that a
/// search reads, so that it goes over contiguous memory.
#[derive(Drop)]
pub struct Table {
    entries: IndexMap<Key, Rec>,
    /// The stops that each was told.
    stops: Vec<u64>,
    /// The restrictions that each was told.
    limits: Vec<u64>,
    /// The least site of each extent.
    least: Vec<u32>,
    /// The greatest site of each extent.
    most: Vec<u32>,
}

impl Model for Table {
    ghost use Rattle.std.specs.Prelude.{◌-◌, min, vec_len, vec_capacity};
    ghost use Rattle.indexmap.specs.IndexMap.{spare};
    ghost use Rattle.rbc_records.specs.Columns.{Kept, AreBeside};

    ghost Value = { Kept };

    ghost view = { λ table. record {
      entries = table.entries.entries;
      room = min (spare table.entries) (min
          (min (vec_capacity table.stops - vec_len table.stops) (vec_capacity table.limits - vec_len table.limits))
          (min (vec_capacity table.least - vec_len table.least) (vec_capacity table.most - vec_len table.most)));
    } };

    ghost invariant = { λ table. AreBeside table.entries.entries
        table.stops.items table.limits.items table.least.items table.most.items };
}

impl Table {
    /// Makes an empty table.
    pub fn new(alloc: Global) -> Self
        ensures { result.entries ≡ [] }
    {
        Table {
            entries: IndexMap::new(alloc),
            stops: Vec::new(alloc),
            limits: Vec::new(alloc),
            least: Vec::new(alloc),
            most: Vec::new(alloc),
        }
    }

    /// The record under a key, or `None` if there is none.
    pub fn get(&self, key: Key) -> Option<&Rec>
        ensures { option_copied result ≡ record_in self.now.entries key }
    {
        self.entries.get(&key)
    }

    /// The number of records.
    pub fn len(&self) -> usize
        ensures { result ≡ length self.now.entries }
    {
        self.entries.len()
    }

    /// The key and the record at an index, which counts from 0 and is below `len`.
    pub fn at(&self, index: usize) -> (Key, &Rec)
        requires { index < length self.now.entries }
        ensures { slice_get self.now.entries index ≡ Some (result.0, result.1.now) }
    {
        let (key, rec) = self.entries.get_index(index).unwrap();
        (*key, rec)
    }

    /// Makes room for some more records. An error leaves the records unchanged.
    pub fn reserve(&mut self, additional: usize) -> Result<(), AllocError>
        ensures entries { self.new.entries ≡ self.old.entries }
        ensures ok { OnOk result (additional ≤ self.new.room) }
    {
        self.stops.reserve(additional)?;
        self.limits.reserve(additional)?;
        self.least.reserve(additional)?;
        self.most.reserve(additional)?;
        self.entries.reserve(additional)
    }

    /// Puts a record under a key, and returns the one that stood there. There has to be room for one more record.
    pub fn put(&mut self, key: Key, rec: Rec) -> Option<Rec>
        requires { 0 < self.old.room }
        ensures records { (k : Key) → record_in self.new.entries k
            ≡ write_over (key, Some rec) (record_in self.old.entries) k }
        ensures replaced { result ≡ record_in self.old.entries key }
        ensures room { self.old.room ≤ self.new.room + 1 }
    {
        let told = told_bits_of(&rec);
        let extent = extent_of(&rec);
        let (index, old) = self.entries.insert_full(key, rec).unwrap();
        if index < self.stops.len() {
            self.stops[index] = told.stops;
            self.limits[index] = told.limits;
            self.least[index] = extent.least;
            self.most[index] = extent.most;
        } else {
            self.stops.push(told.stops).unwrap();
            self.limits.push(told.limits).unwrap();
            self.least.push(extent.least).unwrap();
            self.most.push(extent.most).unwrap();
        }
        old
    }

    /// Exchanges the record under a key with another one, if a record stands there, and says whether one does. If none
    /// does, nothing changes. Takes no room.
    pub fn replace(&mut self, key: Key, rec: &mut Rec) -> bool
        ensures held { result ≡ is_some (record_in self.old.entries key) }
        ensures records { IsTrue result → (k : Key)
            → record_in self.new.entries k ≡ write_over (key, Some rec.old) (record_in self.old.entries) k }
        ensures replaced { IsTrue result → record_in self.old.entries key ≡ Some rec.new }
        ensures absent { IsFalse result → (self.new ≡ self.old) × (rec.new ≡ rec.old) }
        ensures room { self.old.room ≤ self.new.room }
    {
        let Some(index) = self.entries.get_index_of(&key) else {
            return false;
        };
        let told = told_bits_of(rec);
        let extent = extent_of(rec);
        self.stops[index] = told.stops;
        self.limits[index] = told.limits;
        self.least[index] = extent.least;
        self.most[index] = extent.most;
        mem::swap(self.entries.get_index_mut(index).unwrap(), rec);
        true
    }

    /// Gives a train another place and another stamp, if its record is there. Nothing else changes, and no room is
    /// taken.
    pub fn move_train(&mut self, engine: u32, place: Option<Place>, stamp: u32)
        ensures moved { (train : TrainRec) → record_in self.old.entries (key.Train engine) ≡ Some (rec.Train train)
            → (k : Key) → record_in self.new.entries k ≡ write_over
            (key.Train engine, Some (rec.Train (record train { place = place; stamp = stamp })))
            (record_in self.old.entries) k }
        ensures room { self.old.room ≤ self.new.room }
    {
        let Some(index) = self.entries.get_index_of(&Key::Train(engine)) else {
            return;
        };
        if let Rec::Train(train) = self.entries.get_index_mut(index).unwrap() {
            train.place = place;
            train.stamp = stamp;
            let extent = Extent::of_train(train);
            self.least[index] = extent.least;
            self.most[index] = extent.most;
        }
    }

    /// Takes a train's acknowledgement of the message with stamp `acked` into its record, if the record is there, and
    /// gives the train the stamp `raised`. Returns whether there was something to acknowledge; if not, nothing changes.
    /// No room is taken.
    pub fn acknowledge(&mut self, engine: u32, acked: u32, raised: u32) -> bool
        ensures acked { IsTrue result → (train : TrainRec)
            → record_in self.old.entries (key.Train engine) ≡ Some (rec.Train train)
            → IsAcknowledged engine acked raised train self.old.entries self.new.entries }
        ensures nothing { IsFalse result → self.new.entries ≡ self.old.entries }
        ensures room { self.old.room ≤ self.new.room }
    {
        let Some(index) = self.entries.get_index_of(&Key::Train(engine)) else {
            return false;
        };
        let Rec::Train(train) = self.entries.get_index_mut(index).unwrap() else {
            return false;
        };
        if !train.acknowledge(acked) {
            return false;
        }
        train.stamp = raised;
        let (told, extent) = (ToldBits::of(train), Extent::of_train(train));
        self.stops[index] = told.stops;
        self.limits[index] = told.limits;
        self.least[index] = extent.least;
        self.most[index] = extent.most;
        true
    }

    /// Removes the record under a key and returns it, or `None` if there is none.
    pub fn remove(&mut self, key: Key) -> Option<Rec>
        ensures records { (k : Key) → record_in self.new.entries k
            ≡ write_over (key, None) (record_in self.old.entries) k }
        ensures removed { result ≡ record_in self.old.entries key }
        ensures room { self.old.room ≤ self.new.room }
    {
        let (index, _, rec) = self.entries.swap_remove_full(&key)?;
        let _ = self.stops.swap_remove(index);
        let _ = self.limits.swap_remove(index);
        let _ = self.least.swap_remove(index);
        let _ = self.most.swap_remove(index);
        Some(rec)
    }

    /// The engines of the trains that a command may seek, among them all that it does seek. `None` if there are too
    /// many.
    pub fn search(&self, alloc: Global, sought: Sought<'_>) -> Result<Option<Numbers>, AllocError>
        ensures { IfOk result (λ found. IfSome found (AreFound (Whole self.now.entries) sought.entry)) }
    {
        let entries = &self.entries;
        match sought {
            Sought::ToldOfStop(number) => told(alloc, entries, &self.stops, number),
            Sought::ToldOfLimit(number) => told(alloc, entries, &self.limits, number),
            Sought::Stoppable(_, area) => {
                let of_area = Extent::of_area(area);
                let (least, most) = (self.least.as_slice(), self.most.as_slice());
                passing(
                    alloc,
                    entries,
                    |begin, end| of_area.meets_some(least, most, begin, end),
                    |index| {
                        let (least, most) = (least[index], most[index]);
                        of_area.meets(least, most) && is_one_met(area, least, most)
                    },
                )
            }
        }
    }
}

/// The engines of the trains that may have been told of a number, by the column of their bits. A block whose words have
/// the number's bit nowhere is passed over.
fn told(
    alloc: Global,
    entries: &IndexMap<Key, Rec>,
    bits: &[u64],
    number: u32,
) -> Result<Option<Numbers>, AllocError>
    requires { length bits.now ≡ length entries.now.entries }
    ensures { (bits_of : Rec → ℕ) → bits.now ≡ column_of bits_of entries.now.entries → IfOk result
        (λ found. IfSome found (ArePassing (λ rec. has_bit (bits_of rec) number) entries.now.entries)) }
{
    passing(
        alloc,
        entries,
        |begin, end| in_some(bits, begin, end, number),
        |index| has_bit(bits[index], number),
    )
}

/// What the train of a record was told; nothing if the record is not of a train.
fn told_bits_of(rec: &Rec) -> ToldBits
    ensures { result ≡ told_bits_of rec.now }
{
    match rec {
        Rec::Train(train) => ToldBits::of(train),
        Rec::Engines(_) | Rec::Stops(_) | Rec::Limits(_) => ToldBits {
            stops: 0,
            limits: 0,
        },
    }
}

/// Where a new stop has to lie if the train of a record may have to be told of it; nowhere if the record is not of a
/// train.
fn extent_of(rec: &Rec) -> Extent
    ensures { result ≡ extent_of rec.now }
{
    match rec {
        Rec::Train(train) => Extent::of_train(train),
        Rec::Engines(_) | Rec::Stops(_) | Rec::Limits(_) => NOWHERE,
    }
}
