//! What both readers share.

ghost use Rattle.std.specs.Prelude.{◌≡◌, ◌+◌, ◌*◌, ◌/◌, ◌%◌, ◌<◌, ◌≤◌, ◌^◌, length, drop, IfOk, IfErr, OnOk};
ghost use Rattle.ertms_bits.specs.Bits.{bits_of_bytes};
ghost use Rattle.ertms_codec.specs.Layout.{value_at};
ghost use Rattle.ertms_codec.specs.Refusals.{number_in, HasItsLength};
ghost use Rattle.ertms_codec.specs.Reading.{Takes};
ghost use Rattle.ertms_codec.specs.declared.error.DecodeError.TheVariants.{Length as length_refusal};

use crate::error::DecodeError;
use crate::variable::{L_MESSAGE, NID_MESSAGE};
use ertms_bits::BitReader;

/// The next variable, of `width` bits, which the caller knows to be there.
pub fn next(bits: &mut BitReader<'_>, width: u32) -> u64
    requires some { 1 ≤ width }
    requires within { width ≤ 64 }
    requires there { width ≤ length bits.old }
    ensures { Takes width bits.old result bits.new }
{
    bits.take(width).unwrap()
}

/// The values of two variables that were taken as one. The second has `second` bits.
pub fn apart(both: u64, second: u32) -> (u64, u64)
    requires { second < 64 }
    ensures { (result.0 ≡ both / 2 ^ second) × (result.1 ≡ both % 2 ^ second) }
{
    (both >> second, both % (1 << second))
}

/// The next two variables, of `first` and `second` bits, which the caller knows to be there. They are taken at once.
pub fn next_two(bits: &mut BitReader<'_>, first: u32, second: u32) -> (u64, u64)
    requires some { (1 ≤ first) × (1 ≤ second) }
    requires within { first + second ≤ 64 }
    requires there { first + second ≤ length bits.old }
    ensures first { Takes first bits.old result.0 (drop first bits.old) }
    ensures second { Takes second (drop first bits.old) result.1 bits.new }
{
    let both = next(bits, first + second);
    apart(both, second)
}

/// Passes over `count` bits, which the caller knows to be there.
pub fn pass_over(bits: &mut BitReader<'_>, count: usize)
    requires { count ≤ length bits.old }
    ensures rest { bits.new ≡ drop count bits.old }
    ensures left { length bits.new + count ≡ length bits.old }
{
    bits.skip(count).unwrap();
}

/// NID_MESSAGE of a message of `len` bytes, after which L_MESSAGE is read.
///
/// # Errors
///
/// `Length` only if there are fewer than 3 bytes, or L_MESSAGE is not their number.
pub fn message_number(bytes: &[u8], bits: &mut BitReader<'_>) -> Result<u64, DecodeError>
    requires { bits.old ≡ bits_of_bytes bytes.now }
    ensures length { IfOk result (λ _. HasItsLength bytes.now) }
    ensures number { IfOk result (λ number. number ≡ number_in bytes.now) }
    ensures rest { OnOk result (bits.new ≡ drop 18 (bits_of_bytes bytes.now)) }
    ensures err { IfErr result (λ e. (¬ HasItsLength bytes.now) × (e ≡ length_refusal)) }
{
    if bytes.len() < 3 {
        return Err(DecodeError::Length);
    }
    let (number, length) = next_two(bits, NID_MESSAGE, L_MESSAGE);
    if length != bytes.len() as u64 {
        return Err(DecodeError::Length);
    }
    Ok(number)
}
