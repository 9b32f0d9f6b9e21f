//! Ascending lists of numbers.

ghost use Rattle.std.specs.Prelude.{◌≡◌, ◌<◌, ◌≤◌, ◌+◌, nat_le, false, [], length, Some, IfOk, OnOk, OnErr, slice_get};
ghost use Rattle.std.specs.List.{position_or_len};
ghost use Rattle.rbc_settle.specs.Numbers.{AreNumbers, has_number, with_number, without_number, IsUnion};

use std::alloc::{AllocError, Global};
use std::marker::Model;

/// Numbers in ascending order, each of them once.
#[derive(Drop)]
pub struct Numbers {
    all: Vec<u32>,
}

impl Model for Numbers {
    ghost use Rattle.std.specs.Prelude.{List, ℕ};
    ghost use Rattle.std.specs.List.{position_or_len};
    ghost use Rattle.rbc_settle.specs.Numbers.{AreNumbers};

    ghost Value = { List ℕ };

    ghost view = { λ n. n.all.items };

    ghost invariant = { λ n. AreNumbers n.all.items };
}

impl Numbers {
    /// Makes an empty list.
    pub fn new(alloc: Global) -> Self
        ensures { result ≡ [] }
    {
        Numbers {
            all: Vec::new(alloc),
        }
    }

    /// Returns how many numbers there are.
    pub fn len(&self) -> usize
        ensures value { result ≡ length self.now }
        ensures sound { AreNumbers self.now }
    {
        self.all.len()
    }

    /// Returns the numbers in ascending order.
    pub fn as_slice(&self) -> &[u32]
        ensures value { result.now ≡ self.now }
        ensures sound { AreNumbers self.now }
    {
        &self.all[..]
    }

    /// Returns the number at an index, in ascending order. The index must be below the length.
    pub fn at(&self, index: usize) -> u32
        requires { index < length self.now }
        ensures { slice_get self.now index ≡ Some result }
    {
        self.all[index]
    }

    /// Whether the list has a number.
    pub fn has(&self, n: u32) -> bool
        ensures { result ≡ has_number self.now n }
    {
        let at = self.index_of(n);
        at < self.all.len() && self.all[at] == n
    }

    /// Adds a number, which the list must not have yet. An error changes nothing.
    pub fn add(&mut self, n: u32) -> Result<(), AllocError>
        requires { has_number self.old n ≡ false }
        ensures ok { OnOk result (self.new ≡ with_number n self.old) }
        ensures err { OnErr result (self.new ≡ self.old) }
    {
        let at = self.index_of(n);
        self.all.insert(at, n)?;
        Ok(())
    }

    /// Removes a number, and returns whether the list had it.
    pub fn remove(&mut self, n: u32) -> bool
        ensures numbers { self.new ≡ without_number n self.old }
        ensures found { result ≡ has_number self.old n }
    {
        let found = self.has(n);
        if found {
            let at = self.index_of(n);
            let _ = self.all.remove(at);
        }
        found
    }

    /// Copies the list. The copy takes memory only for its numbers.
    pub fn copy(&self, alloc: Global) -> Result<Self, AllocError>
        ensures { IfOk result (λ copy. copy ≡ self.now) }
    {
        Ok(Numbers {
            all: Vec::from_slice(alloc, self.all.as_slice())?,
        })
    }

    /// Makes the list a copy of another. Takes memory only if the other has more numbers than this one has room for.
    /// After an error the list is empty.
    pub fn copy_from(&mut self, other: &Self) -> Result<(), AllocError>
        ensures ok { OnOk result (self.new ≡ other.now) }
        ensures err { OnErr result (self.new ≡ []) }
    {
        self.all.clear();
        if other.all.is_empty() {
            return Ok(());
        }
        self.all.extend_from_slice(other.all.as_slice())
    }

    /// Copies the list with one more number, which the list must not have. The copy takes memory once, and only for its
    /// numbers.
    pub fn copy_with(&self, alloc: Global, n: u32) -> Result<Self, AllocError>
        requires { has_number self.now n ≡ false }
        ensures { IfOk result (λ copy. copy ≡ with_number n self.now) }
    {
        let at = self.index_of(n);
        let mut all = Vec::with_capacity(alloc, self.all.len() + 1)?;
        all.extend_from_slice(&self.all[..at])?;
        all.push(n)?;
        all.extend_from_slice(&self.all[at..])?;
        Ok(Numbers { all })
    }

    /// Copies the list without a number, which it need not have. The copy takes memory once, and only for its numbers.
    pub fn copy_without(&self, alloc: Global, n: u32) -> Result<Self, AllocError>
        ensures { IfOk result (λ copy. copy ≡ without_number n self.now) }
    {
        if !self.has(n) {
            return self.copy(alloc);
        }
        let at = self.index_of(n);
        let mut all = Vec::with_capacity(alloc, self.all.len() - 1)?;
        all.extend_from_slice(&self.all[..at])?;
        all.extend_from_slice(&self.all[at + 1..])?;
        Ok(Numbers { all })
    }

    /// Makes the list of the numbers of both lists. It takes memory once, for as many numbers as both lists have
    /// together, and time by their lengths.
    pub fn union(&self, alloc: Global, other: &Self) -> Result<Self, AllocError>
        ensures union { IfOk result (λ both. IsUnion both self.now other.now) }
        ensures few { IfOk result (λ both. length both ≤ length self.now + length other.now) }
        ensures sound { IfOk result (λ both. AreNumbers both) }
    {
        let mut all = Vec::with_capacity(alloc, self.all.len() + other.all.len())?;
        let (mut i, mut j) = (0, 0);
        while i < self.all.len() && j < other.all.len() {
            let (ours, theirs) = (self.all[i], other.all[j]);
            all.push(ours.min(theirs))?;
            if ours <= theirs {
                i += 1;
            }
            if theirs <= ours {
                j += 1;
            }
        }
        all.extend_from_slice(&self.all[i..])?;
        all.extend_from_slice(&other.all[j..])?;
        Ok(Numbers { all })
    }

    /// Returns the index at which a number stands, or would stand.
    fn index_of(&self, n: u32) -> usize
        ensures { result ≡ position_or_len (λ other. nat_le n other) self.now }
    {
        self.all.partition_point(|other| *other < n)
    }
}
