//! Bounds above which no attempt writes a key, so that a search for the latest one can begin there.

ghost use Rattle.std.specs.Prelude.{◌≡◌, ◌≤◌, ◌<◌, ℕ, Some};
ghost use Rattle.rbc_records.specs.declared.record.Key.{Key};
ghost use Rattle.rbc_versions.specs.Entries.{numbered, number_for};
ghost use Rattle.rbc_core.specs.Searches.{bucket_of, bound_of};

use rbc_records::Key;
use rbc_versions::Published;
use std::alloc::{AllocError, Global};
use std::marker::Model;

/// How many buckets the keys are dealt out to.
const BUCKETS: usize = 16_384;

/// A bound for each bucket of keys: the greatest number of an input whose deposited attempt writes a key of the bucket,
/// or 0 if there is none. A bound is never lowered, since finding the next lower number would need a search. A bound
/// that is too high only costs time.
#[derive(Drop)]
pub struct Bounds {
    all: Vec<u32>,
}

impl Model for Bounds {
    ghost use Rattle.std.specs.Prelude.{◌≡◌, ℕ, List, length};

    ghost Value = { List ℕ };

    ghost view = { λ bounds. bounds.all.items };

    // Each bucket has a bound.
    ghost invariant = { λ bounds. length bounds.all.items ≡ 16384 };
}

impl Bounds {
    /// Makes the bounds of a book with no attempts.
    pub fn new(alloc: Global) -> Result<Self, AllocError> {
        let all = vec![in alloc; 0u32; BUCKETS]?;
        Ok(Bounds { all })
    }

    /// The bound of a key's bucket.
    pub fn of(&self, key: Key) -> u32
        ensures { result ≡ bound_of self.now key }
    {
        self.all[bucket(key)]
    }

    /// Raises the bound of a key's bucket to a number, if it is lower.
    fn raise(&mut self, key: Key, number: u32)
        ensures raised { number ≤ bound_of self.new key }
        ensures rises { (k : Key) → bound_of self.old k ≤ bound_of self.new k }
    {
        let index = bucket(key);
        if self.all[index] < number {
            self.all[index] = number;
        }
    }

    /// Raises the bounds of all keys that a publication names to the number of its input.
    pub fn raise_all(&mut self, published: &Published, number: u32)
        ensures raised { (k : Key) (n : ℕ) → number_for (numbered published.now) k ≡ Some n
            → number ≤ bound_of self.new k }
        ensures rises { (k : Key) → bound_of self.old k ≤ bound_of self.new k }
    {
        for index in 0..published.len() {
            let (key, _) = published.at(index);
            self.raise(key, number);
        }
    }
}

/// The bucket of a key. Trains are spread by the numbers of their engines. Keys that share a bucket only cost time.
fn bucket(key: Key) -> usize
    ensures bucket { result ≡ bucket_of key }
    ensures within { result < 16384 }
{
    match key {
        Key::Train(engine) => engine as usize % BUCKETS,
        Key::Line(line) => line as usize,
        Key::Roster => 16_380,
        Key::Stops => 16_381,
        Key::Limits => 16_382,
        Key::Unplaced => 16_383,
    }
}
