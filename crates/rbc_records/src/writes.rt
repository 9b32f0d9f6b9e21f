//! Writes to be done to a store.

ghost use Rattle.std.specs.Prelude.{◌≡◌, ◌<◌, [], ◌∷◌, ◌++◌, length, IfOk, OnOk, OnErr, Some, slice_get, option_copied};

use crate::record::{Key, Rec};
use rbc_settle::TrainRec;
use std::alloc::{AllocError, Global};
use std::marker::Model;

/// Writes in order. Each puts a new record under a key, or removes the record there; the last write to a key counts. In
/// contracts a list of pairs.
#[derive(Drop)]
pub struct Writes {
    pub(crate) all: Vec<(Key, Option<Rec>)>,
}

impl Model for Writes {
    ghost use Rattle.std.specs.Prelude.{List, Option};
    ghost use Rattle.rbc_records.specs.declared.record.Key.{Key};
    ghost use Rattle.rbc_records.specs.declared.record.Rec.{Rec};

    ghost Value = { List (Key × Option Rec) };

    ghost view = { λ writes. writes.all.items };
}

impl Writes {
    /// Makes an empty list of writes.
    pub fn new(alloc: Global) -> Self
        ensures { result ≡ [] }
    {
        Writes {
            all: Vec::new(alloc),
        }
    }

    /// Makes an empty list with room for this many writes.
    pub fn with_room(alloc: Global, count: usize) -> Result<Self, AllocError>
        ensures { IfOk result (λ writes. writes ≡ []) }
    {
        Ok(Writes {
            all: Vec::with_capacity(alloc, count)?,
        })
    }

    /// Adds a write after the others: of a new record, or of a removal. An error changes nothing.
    pub fn set(&mut self, key: Key, rec: Option<Rec>) -> Result<(), AllocError>
        ensures ok { OnOk result (self.new ≡ self.old ++ (key, rec) ∷ []) }
        ensures err { OnErr result (self.new ≡ self.old) }
    {
        self.all.push((key, rec))?;
        Ok(())
    }

    /// Takes all writes out, and hands back the record of a train if the last of them had one. The memory of the list
    /// stays.
    pub fn empty(&mut self) -> Option<TrainRec>
        ensures { self.new ≡ [] }
    {
        let last = self.all.pop();
        self.all.clear();
        match last {
            Some((_key, Some(Rec::Train(train)))) => Some(train),
            _other => None,
        }
    }

    /// The number of writes.
    pub fn len(&self) -> usize
        ensures { result ≡ length self.now }
    {
        self.all.len()
    }

    /// The write at an index, which counts from 0 and is below `len`: its key, and its record, or `None` for a removal.
    pub fn at(&self, index: usize) -> (Key, Option<&Rec>)
        requires { index < length self.now }
        ensures { slice_get self.now index ≡ Some (result.0, option_copied result.1) }
    {
        let (key, rec) = &self.all[index];
        (*key, rec.as_ref())
    }
}
