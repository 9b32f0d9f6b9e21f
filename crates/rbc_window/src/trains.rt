//! The trains of a share that a window has changed.

ghost use Rattle.std.specs.Prelude.{◌≡◌, [], ◌++◌, OnErr, OnOk, option_copied};
ghost use Rattle.rbc_maps.specs.Maps.{value_of, with_value};
ghost use Rattle.rbc_window.specs.Shares.{train_writes};

use rbc_records::{Key, Rec, Writes};
use rbc_settle::TrainRec;
use std::alloc::{AllocError, Global};
use std::marker::Model;
use std::mem;

/// Records of trains by engine number (NID_ENGINE), in ascending order.
#[derive(Drop)]
pub(crate) struct Trains {
    all: Vec<(u32, TrainRec)>,
}

impl Model for Trains {
    ghost use Rattle.std.specs.Prelude.{List, ℕ};
    ghost use Rattle.rbc_settle.specs.declared.train.TrainRec.{TrainRec};
    ghost use Rattle.rbc_maps.specs.Maps.{IsMap};

    ghost Value = { List (ℕ × TrainRec) };

    ghost view = { λ trains. trains.all.items };

    ghost invariant = { λ trains. IsMap trains.all.items };
}

impl Trains {
    /// No trains.
    pub(crate) fn new(alloc: Global) -> Self
        ensures { result ≡ [] }
    {
        Trains {
            all: Vec::new(alloc),
        }
    }

    /// The train of an engine, if there is one.
    pub(crate) fn get(&self, engine: u32) -> Option<&TrainRec>
        ensures { option_copied result ≡ value_of self.now engine }
    {
        rbc_maps::value_of(&self.all, engine)
    }

    /// Puts a train under its engine, and returns the record that it replaces, if there is one. An error changes
    /// nothing.
    pub(crate) fn put(
        &mut self,
        engine: u32,
        train: TrainRec,
    ) -> Result<Option<TrainRec>, AllocError>
        ensures ok { OnOk result (self.new ≡ with_value engine train self.old) }
        ensures err { OnErr result (self.new ≡ self.old) }
    {
        let at = rbc_maps::index_for(&self.all, engine);
        if at < self.all.len() && self.all[at].0 == engine {
            let old = mem::replace(&mut self.all[at].1, train);
            return Ok(Some(old));
        }
        self.all.insert(at, (engine, train))?;
        Ok(None)
    }

    /// Appends a write of each train under its key.
    pub(crate) fn write(self, writes: &mut Writes) -> Result<(), AllocError>
        ensures { OnOk result (writes.new ≡ writes.old ++ train_writes self) }
    {
        for (engine, train) in self.all {
            writes.set(Key::Train(engine), Some(Rec::Train(train)))?;
        }
        Ok(())
    }
}
