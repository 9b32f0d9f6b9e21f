//! Reading bit fields.

ghost use Rattle.std.specs.Prelude.{◌≡◌, ◌+◌, ◌*◌, ◌-◌, ◌<◌, ◌≤◌, ◌^◌, ◌↔◌, IsOk, IfOk, OnOk, OnErr, length, drop, min};
ghost use Rattle.ertms_bits.specs.Bits.{bits_of_bytes, number_of, AreBits};

use std::marker::Model;

/// Fewer bits are left than were asked for.
#[derive(Clone, Copy, Debug, PartialEq, Eq)]
pub struct ShortBits;

/// The bits of some bytes that are not yet taken, most significant first.
#[derive(Drop)]
pub struct BitReader<'a> {
    bytes: &'a [u8],
    /// The byte in which the next bit is.
    byte: usize,
    /// How many bits of that byte are taken already: 0 to 7.
    taken: u32,
}

impl<'a> Model for BitReader<'a> {
    ghost use Rattle.std.specs.Prelude.{ℕ, ◌+◌, ◌*◌, ◌<◌, ◌≤◌, List, length, drop};
    ghost use Rattle.ertms_bits.specs.Bits.{bits_of_bytes};

    ghost Value = { List ℕ };

    ghost view = { λ r. drop (8 * r.byte + r.taken) (bits_of_bytes r.bytes.now) };

    ghost invariant = { λ r. (r.taken < 8) × (8 * r.byte + r.taken ≤ 8 * length r.bytes.now) };
}

impl<'a> BitReader<'a> {
    /// All bits of the bytes.
    pub fn new(bytes: &'a [u8]) -> Self
        ensures { result ≡ bits_of_bytes bytes.now }
    {
        BitReader {
            bytes,
            byte: 0,
            taken: 0,
        }
    }

    /// Returns the number that the next `width` bits stand for, and moves past them.
    ///
    /// # Errors
    ///
    /// `ShortBits` only if fewer bits are left; the reader is then unchanged.
    #[inline]
    pub fn take(&mut self, width: u32) -> Result<u64, ShortBits>
        requires { (1 ≤ width) × (width ≤ 64) }
        ensures fits { IsOk result ↔ (width ≤ length self.old) }
        ensures value { IfOk result (λ value. value ≡ number_of width self.old) }
        ensures small { IfOk result (λ value. value < 2 ^ width) }
        ensures rest { OnOk result (self.new ≡ drop width self.old) }
        ensures err { OnErr result (self.new ≡ self.old) }
        ensures bits { IfOk result (λ _. AreBits self.old) }
    {
        if width as usize > self.left() {
            return Err(ShortBits);
        }
        if width <= 56 {
            return Ok(self.take_some(width));
        }
        let high = self.take_some(width - 32);
        let low = self.take_some(32);
        Ok(high << 32 | low)
    }

    /// Moves past the next `count` bits.
    ///
    /// # Errors
    ///
    /// `ShortBits` only if fewer bits are left; the reader is then unchanged.
    pub fn skip(&mut self, count: usize) -> Result<(), ShortBits>
        ensures fits { IsOk result ↔ (count ≤ length self.old) }
        ensures rest { OnOk result (self.new ≡ drop count self.old) }
        ensures err { OnErr result (self.new ≡ self.old) }
    {
        if count > self.left() {
            return Err(ShortBits);
        }
        let end = self.taken + (count % 8) as u32;
        self.byte += count / 8 + (end / 8) as usize;
        self.taken = end % 8;
        Ok(())
    }

    /// How many bits are left, or `usize::MAX` if there are more.
    #[inline]
    pub fn left(&self) -> usize
        ensures { result ≡ min (length self.now) (2 ^ 64 - 1) }
    {
        let bytes = self.bytes.len() - self.byte;
        if bytes == 0 {
            return 0;
        }
        let begun = (8 - self.taken) as usize;
        (bytes - 1).saturating_mul(8).saturating_add(begun)
    }

    /// Returns the number that the next `width` bits stand for, up to 56 of them, and moves past them.
    #[inline]
    fn take_some(&mut self, width: u32) -> u64
        requires some { 1 ≤ width }
        requires within { width ≤ 56 }
        requires there { width ≤ length self.old }
        ensures value { result ≡ number_of width self.old }
        ensures small { result < 2 ^ width }
        ensures rest { self.new ≡ drop width self.old }
        ensures bits { AreBits self.old }
    {
        let end = self.taken + width;
        let first = first_bits(&self.bytes[self.byte..], end);
        self.byte += (end / 8) as usize;
        self.taken = end % 8;
        first % (1 << width)
    }
}

/// The number that the first `width` bits of the bytes stand for.
#[inline]
fn first_bits(bytes: &[u8], width: u32) -> u64
    requires some { 1 ≤ width }
    requires within { width ≤ 64 }
    requires there { width ≤ 8 * length bytes.now }
    ensures { result ≡ number_of width (bits_of_bytes bytes.now) }
{
    if bytes.len() >= 8 {
        return first_eight(bytes) >> (64 - width);
    }
    let count = width.div_ceil(8);
    let mut window = 0;
    for i in 0..count as usize {
        window = window << 8 | u64::from(bytes[i]);
    }
    window >> (8 * count - width)
}

/// The number that the bits of the first eight bytes stand for.
#[inline]
fn first_eight(bytes: &[u8]) -> u64
    requires { 8 ≤ length bytes.now }
    ensures { result ≡ number_of 64 (bits_of_bytes bytes.now) }
{
    u64::from_be_bytes([
        bytes[0], bytes[1], bytes[2], bytes[3], bytes[4], bytes[5], bytes[6], bytes[7],
    ])
}
