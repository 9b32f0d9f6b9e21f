//! Active values under ascending numbers.

ghost use Rattle.std.specs.Prelude.{◌≡◌, ◌<◌, ◌∷◌, ◌++◌, [], OnOk, OnErr, IfOk, length, Some, slice_get, option_copied};
ghost use Rattle.std.specs.List.{All};
ghost use Rattle.rbc_maps.specs.Maps.{has, value_of, without};
ghost use Rattle.rbc_maps.specs.Numbered.{AreNumbered, none_numbered};
ghost use Rattle.rbc_maps.specs.OnLines.{mark_of, marked};

use crate::chain::{PLACES, chain, hint_of, note_hints};
use crate::lookup;
use crate::on_line::{OnLine, OnLines};
use std::alloc::{AllocError, Global};
use std::cell::Cell;
use std::marker::Model;

/// The active values by their numbers, which are above 0, and the last number that was ever given. A number that was
/// removed is not given again. Beside the values stand the marks of the lines on which they lie, `N` of each, and where
/// the next value stands that carries each of them, so that the values on one line are found without examining the
/// others.
#[derive(Drop)]
pub struct Numbered<V: OnLines<N>, const N: usize> {
    last: u32,
    active: Vec<(u32, V)>,
    /// The marks of the active values, in their order.
    marks: Vec<[u8; N]>,
    /// For each mark of a line, the place of the first active value that carries it, and then hints on where numbers
    /// stand. Empty until a value is added.
    first: Vec<u32>,
    /// For each active value and each of its marks, the place of the next one that carries it.
    next: Vec<[u32; N]>,
}

impl<V: OnLines<N>, const N: usize> Model for Numbered<V, N> {
    ghost use Rattle.rbc_maps.specs.Numbered as numbered;
    ghost use Rattle.rbc_maps.specs.Chains as chains;

    ghost Value = { numbered.Numbered V };

    ghost view = { λ n. record { last = n.last; active = n.active.items } };

    ghost invariant = { λ n. chains.AreMarked V.marks V.is_sound N
        (record { last = n.last; active = n.active.items }) n.marks.items n.first.items n.next.items };
}

impl<V: OnLines<N>, const N: usize> Numbered<V, N> {
    /// No value is active, and the last number is 0.
    pub fn new(alloc: Global) -> Self
        ensures { result ≡ none_numbered }
    {
        Numbered {
            last: 0,
            active: Vec::new(alloc),
            marks: Vec::new(alloc),
            first: Vec::new(alloc),
            next: Vec::new(alloc),
        }
    }

    /// The last number that was given, or 0 if none was.
    pub fn last(&self) -> u32
        ensures value { result ≡ self.now.last }
        ensures sound { AreNumbered self.now }
    {
        self.last
    }

    /// The number of active values.
    pub fn count(&self) -> usize
        ensures value { result ≡ length self.now.active }
        ensures sound { AreNumbered self.now }
    {
        self.active.len()
    }

    /// All active values with their numbers, in ascending order of the number.
    pub fn active(&self) -> &[(u32, V)]
        ensures value { result.now ≡ self.now.active }
        ensures sound { AreNumbered self.now }
    {
        self.active.as_slice()
    }

    /// The active values that carry the mark of a line, with their numbers, in ascending order of the number. They
    /// include each value that lies on the line. The others are not examined.
    #[inline]
    pub fn on_line(&self, line: u32) -> OnLine<'_, V, N>
        ensures line { result ≡ marked V.marks (mark_of line) self.now.active }
        ensures sound { All (λ pair. V.is_sound pair.1) self.now.active }
        ensures numbered { AreNumbered self.now }
    {
        OnLine::new(line, &self.active, &self.marks, &self.first, &self.next)
    }

    /// The value that is active under a number, if there is one.
    pub fn get(&self, number: u32) -> Option<&V>
        ensures { option_copied result ≡ value_of self.now.active number }
    {
        lookup::value_of(&self.active, number)
    }

    /// The value that is active under a number, if there is one, as `get` finds it.
    ///
    /// The index `near` among the active values is tried first. If the number is found, `near` is set to the index
    /// after it. So numbers that are sought in ascending order are found at once, and most others too. The answer is
    /// the same whatever `near` is.
    pub fn get_near(&self, number: u32, near: &Cell<usize>) -> Option<&V>
        ensures { option_copied result ≡ value_of self.now.active number }
    {
        let next = near.get();
        if let Some(value) = lookup::value_at(&self.active, number, next) {
            near.set(next + 1);
            return Some(value);
        }
        let hint = hint_of(&self.first, number);
        lookup::value_near(&self.active, number, near, hint)
    }

    /// The number and the active value at an index below the count, in ascending order of the number.
    pub fn at(&self, index: usize) -> (u32, &V)
        requires { index < length self.now.active }
        ensures { slice_get self.now.active index ≡ Some (result.0, result.1.now) }
    {
        let (number, value) = &self.active[index];
        (*number, value)
    }

    /// Adds a value under a number above the last one. That number is the last one from then on.
    /// An error changes nothing.
    pub fn add(&mut self, number: u32, value: V) -> Result<(), AllocError>
    where
        V: Drop,
        requires { self.old.last < number }
        ensures ok { OnOk result (self.new
            ≡ record { last = number; active = self.old.active ++ (number, value) ∷ [] }) }
        ensures err { OnErr result (self.new ≡ self.old) }
    {
        self.active.reserve(1)?;
        self.marks.reserve(1)?;
        self.next.reserve(1)?;
        self.first.resize(PLACES, 0)?;
        self.marks.push_reserved(value.marks());
        self.active.push_reserved((number, value));
        self.next.push_reserved([0; N]);
        self.last = number;
        chain(&self.marks, &mut self.first, &mut self.next);
        note_hints(&self.active, &mut self.first);
        Ok(())
    }

    /// Removes the value under a number. Returns whether there was one. The last number stays.
    pub fn remove(&mut self, number: u32) -> bool
    where
        V: Drop,
        ensures active { self.new ≡ record { last = self.old.last; active = without number self.old.active } }
        ensures found { result ≡ has self.old.active number }
    {
        let at = lookup::index_for(&self.active, number);
        let found = lookup::remove(&mut self.active, number);
        if found {
            let _ = self.marks.remove(at);
            self.next.truncate(self.marks.len());
            chain(&self.marks, &mut self.first, &mut self.next);
            note_hints(&self.active, &mut self.first);
        }
        found
    }

    /// Copies all of it, with room for one more value. Takes memory for the active values and that room and, once a
    /// value was added, for the 128 places beside them.
    pub fn copy(&self, alloc: Global) -> Result<Self, AllocError>
    where
        V: Copy,
        ensures { IfOk result (λ copy. copy ≡ self.now) }
    {
        let mut active = Vec::with_capacity(alloc, self.active.len() + 1)?;
        active.extend_from_slice(&self.active)?;
        let mut marks = Vec::with_capacity(alloc, self.marks.len() + 1)?;
        marks.extend_from_slice(&self.marks)?;
        let mut next = Vec::with_capacity(alloc, self.next.len() + 1)?;
        next.extend_from_slice(&self.next)?;
        let mut first = Vec::with_capacity(alloc, self.first.len())?;
        first.extend_from_slice(&self.first)?;
        Ok(Numbered {
            last: self.last,
            active,
            marks,
            first,
            next,
        })
    }
}
