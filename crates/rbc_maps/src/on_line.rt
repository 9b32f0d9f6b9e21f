//! Values that lie on lines, and those of a list that may lie on one of them.

ghost use Rattle.std.specs.Prelude.{◌≡◌, ◌≤◌, length, map};
ghost use Rattle.std.specs.Iterator.{YieldsFirstBy, item_count};
ghost use Rattle.memchr.specs.Find.{IsFirstByte, is_byte};
ghost use Rattle.rbc_maps.specs.OnLines.{mark_of, marked};
ghost use Rattle.rbc_maps.specs.Chains.{AreChained};

use crate::chain::first_of;
use memchr::memchr;
use std::marker::Model;

/// Values that lie on lines and carry `N` marks, at most 8: among them the mark of each line on which they lie. A value
/// may carry the mark of a line on which it does not lie, so a caller that seeks the values on a line has to check
/// those with its mark.
pub trait OnLines<const N: usize> {
    ghost use Rattle.std.specs.Prelude.{ℕ, List};

    // The marks that a value carries.
    ghost marks: { Self → List ℕ };

    // What is true of each value of the type.
    ghost is_sound: { Self → Type 0 };

    /// The marks of the value.
    fn marks(&self) -> [u8; N]
        ensures marks { result ≡ marks self.now }
        ensures sound { is_sound self.now };

    ghost are_all: { (value : Self) → length (marks value) ≡ N };

    ghost are_few: { N ≤ 8 };
}

/// The mark of a line: the last six bits of its number. A track has at most 64 lines, so each has a mark of its own.
#[inline]
pub fn mark_of(line: u32) -> u8
    ensures { result ≡ mark_of line }
{
    (line % 64) as u8
}

/// The values of a list that carry a mark, with their numbers, in the order of the list. In contracts the list of those
/// that are left.
#[derive(Drop)]
pub struct OnLine<'a, V: OnLines<N>, const N: usize> {
    mark: u8,
    /// The place of the first one that is left, or the place after the last value of the list.
    at: usize,
    pairs: &'a [(u32, V)],
    /// The marks of the values of the list.
    marks: &'a [[u8; N]],
    /// For each value and each of its marks, the place of the next value that carries it.
    next: &'a [[u32; N]],
}

impl<'a, V: OnLines<N>, const N: usize> Model for OnLine<'a, V, N> {
    ghost use Rattle.std.specs.Prelude.{ℕ, List, drop};
    ghost use Rattle.rbc_maps.specs.OnLines.{marked};
    ghost use Rattle.rbc_maps.specs.Chains.{IsInChain};

    ghost Value = { List (ℕ × V) };

    ghost view = { λ it. marked V.marks it.mark (drop it.at it.pairs.now) };

    ghost invariant = { λ it. IsInChain V.marks N it.mark it.at it.pairs.now it.marks.now it.next.now };
}

impl<'a, V: OnLines<N>, const N: usize> OnLine<'a, V, N> {
    /// The values that carry the mark of a line, of a list with these marks and chains.
    #[inline]
    pub(crate) fn new(
        line: u32,
        pairs: &'a [(u32, V)],
        marks: &'a [[u8; N]],
        first: &[u32],
        next: &'a [[u32; N]],
    ) -> Self
        requires kept { marks.now ≡ map (λ pair. V.marks pair.1) pairs.now }
        requires chained { AreChained N marks.now first.now next.now }
        ensures { result ≡ marked V.marks (mark_of line) pairs.now }
    {
        let mark = mark_of(line);
        OnLine {
            mark,
            at: first_of(first, mark) as usize,
            pairs,
            marks,
            next,
        }
    }
}

impl<'a, V: OnLines<N>, const N: usize> Iterator for OnLine<'a, V, N> {
    type Item = &'a (u32, V);

    ghost next_gives = { YieldsFirstBy (λ pair. pair.now) (λ rest. rest) };

    ghost remaining = { item_count (λ rest. rest) };

    #[inline]
    fn next(&mut self) -> Option<&'a (u32, V)> {
        let found = self.pairs.get(self.at)?;
        let slot = first_place(self.mark, &self.marks[self.at])?;
        self.at = self.next[self.at][slot] as usize;
        Some(found)
    }
}

/// The first place of a mark. If the first mark is that one, nothing is searched.
#[inline(always)]
fn first_place(mark: u8, marks: &[u8]) -> Option<usize>
    ensures { IsFirstByte (is_byte mark) marks.now result }
{
    match marks.first() {
        Some(first) if *first == mark => Some(0),
        _ => memchr(mark, marks),
    }
}
