//! Writing bit fields.

ghost use Rattle.std.specs.Prelude.{◌≡◌, ◌+◌, ◌*◌, ◌-◌, ◌<◌, ◌≤◌, ◌^◌, ◌/◌, ◌++◌, ◌↔◌, IsTrue, IsOk, OnOk, OnErr};
ghost use Rattle.std.specs.Prelude.{length, take, drop, replicate};
ghost use Rattle.ertms_bits.specs.Bits.{bits_of, bits_of_bytes, bytes_for};

use std::marker::Model;

/// The field does not fit what is left of the buffer.
#[derive(Clone, Copy, Debug, PartialEq, Eq)]
pub struct FullBits;

/// A place in a buffer, counted in bits from its start. The caller lends the buffer to each call.
#[derive(Drop)]
pub struct BitWriter {
    /// The byte at which the next bit goes.
    byte: usize,
    /// How many bits of that byte are taken already: 0 to 7.
    taken: u32,
}

impl Model for BitWriter {
    ghost use Rattle.std.specs.Prelude.{ℕ, ◌+◌, ◌*◌, ◌<◌};

    ghost Value = { ℕ };

    ghost view = { λ w. 8 * w.byte + w.taken };

    ghost invariant = { λ w. w.taken < 8 };
}

impl BitWriter {
    /// A place at the start of a buffer.
    pub fn new() -> Self
        ensures { result ≡ 0 }
    {
        BitWriter { byte: 0, taken: 0 }
    }

    /// Writes `value` in `width` bits at the place, and moves past them. The bits before the place stay, and so do the
    /// bytes after the one in which the field ends.
    ///
    /// # Errors
    ///
    /// `FullBits` only if the field does not fit the rest of the buffer. Nothing is then written, and the place stays.
    #[inline]
    pub fn put(&mut self, buffer: &mut [u8], value: u64, width: u32) -> Result<(), FullBits>
        requires { value < 2 ^ width }
        ensures fits { IsOk result ↔ (self.old + width ≤ 8 * length buffer.old) }
        ensures place { OnOk result (self.new ≡ self.old + width) }
        ensures bits { OnOk result (take (self.old + width) (bits_of_bytes buffer.new)
            ≡ take self.old (bits_of_bytes buffer.old) ++ bits_of width value) }
        ensures behind { drop (bytes_for (self.old + width)) buffer.new
            ≡ drop (bytes_for (self.old + width)) buffer.old }
        ensures err { OnErr result ((self.new ≡ self.old) × (buffer.new ≡ buffer.old)) }
    {
        if !self.has_room(buffer.len(), width) {
            return Err(FullBits);
        }
        let mut rest = width;
        while rest > 0 {
            rest = self.put_some(buffer, value, rest);
        }
        Ok(())
    }

    /// Fills the last byte that was begun with 0, and gives the number of bytes used. The bytes after it stay.
    pub fn finish(self, buffer: &mut [u8]) -> usize
        requires { self ≤ 8 * length buffer.old }
        ensures used { result ≡ bytes_for self }
        ensures bits { bits_of_bytes (take result buffer.new)
            ≡ take self (bits_of_bytes buffer.old) ++ replicate (8 * result - self) 0 }
        ensures behind { drop result buffer.new ≡ drop result buffer.old }
    {
        if self.taken == 0 {
            return self.byte;
        }
        buffer[self.byte] = first_bits(buffer[self.byte], self.taken);
        self.byte + 1
    }

    /// Whether this many bits fit behind the place in a buffer of `len` bytes.
    fn has_room(&self, len: usize, width: u32) -> bool
        ensures { IsTrue result ↔ (self.now + width ≤ 8 * len) }
    {
        let bits = u64::from(self.taken) + u64::from(width);
        self.byte <= len && bits.div_ceil(8) <= (len - self.byte) as u64
    }

    /// Writes the first of the low `rest` bits of `value`, up to 56 of them, with 0 after them in the last byte, and
    /// moves past them. Gives the number of bits that are left.
    #[inline]
    fn put_some(&mut self, buffer: &mut [u8], value: u64, rest: u32) -> u32
        requires some { 0 < rest }
        requires room { self.old + rest ≤ 8 * length buffer.old }
        ensures left { result < rest }
        ensures place { self.new + result ≡ self.old + rest }
        ensures bits { take self.new (bits_of_bytes buffer.new)
            ≡ take self.old (bits_of_bytes buffer.old) ++ bits_of (rest - result) (value / 2 ^ result) }
        ensures behind { drop (bytes_for self.new) buffer.new ≡ drop (bytes_for self.new) buffer.old }
    {
        let count = rest.min(56);
        let left = rest - count;
        let field = shifted_right(value, left);
        let window = window_of(buffer[self.byte], self.taken, field, count);
        let end = self.taken + count;
        put_bytes(buffer, self.byte, window, end.div_ceil(8) as usize);
        self.byte += (end / 8) as usize;
        self.taken = end % 8;
        left
    }
}

/// `value >> by`, or 0 if `by` is 64 or more.
#[inline]
fn shifted_right(value: u64, by: u32) -> u64
    ensures { result ≡ value / 2 ^ by }
{
    value.checked_shr(by).unwrap_or(0)
}

/// A byte of which the first bits are kept, and the others are 0.
#[inline]
fn first_bits(byte: u8, kept: u32) -> u8
    requires { kept ≤ 8 }
    ensures { result ≡ byte / 2 ^ (8 - kept) * 2 ^ (8 - kept) }
{
    let free = 8 - kept;
    (u32::from(byte) >> free << free) as u8
}

/// The first `taken` bits of a byte, with the low `count` bits of `field` after them, and 0 after those.
#[inline]
fn window_of(byte: u8, taken: u32, field: u64, count: u32) -> u64
    requires within { taken ≤ 8 }
    requires some { 0 < count }
    requires room { taken + count ≤ 64 }
    ensures { bits_of 64 result
        ≡ take taken (bits_of 8 byte) ++ (bits_of count field ++ replicate (64 - (taken + count)) 0) }
{
    let kept = u64::from(first_bits(byte, taken)) << 56;
    let field = field << (64 - count) >> taken;
    kept | field
}

/// Writes the first `count` bytes of `window` from the place `at` on.
#[inline]
fn put_bytes(buffer: &mut [u8], at: usize, window: u64, count: usize)
    requires within { count ≤ 8 }
    requires room { at + count ≤ length buffer.old }
    ensures bits { bits_of_bytes (take (at + count) buffer.new)
        ≡ bits_of_bytes (take at buffer.old) ++ take (8 * count) (bits_of 64 window) }
    ensures behind { drop (at + count) buffer.new ≡ drop (at + count) buffer.old }
{
    let mut rest = window;
    for i in at..at + count {
        buffer[i] = (rest >> 56) as u8;
        rest <<= 8;
    }
}
