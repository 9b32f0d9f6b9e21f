//! A part of a line that a text names in kilometres.

ghost use Rattle.std.specs.Prelude.{◌≡◌};
ghost use Rattle.rbc_dispatch.specs.Kilometres.{part_between, part_of, place_at, place_of, units_of};

use rbc_text::{decimal, halves};

/// The greatest number of decimals: the last one stands for 10 cm.
const DECIMALS: usize = 4;

/// The number of units of 10 cm in a kilometre.
const UNITS: u32 = 10_000;

/// The part of a line that `FROM-TO` names in kilometres, in units of 10 cm: two numbers with up to four decimals, of
/// which the first is less.
pub fn part_in(text: &str) -> Option<(u32, u32)>
    ensures { result ≡ part_of text.now }
{
    let (from, to) = halves(text.as_bytes(), b'-');
    part_between(place_in(from), place_in(to))
}

/// The part between two places, if both are there and the first is less.
fn part_between(from: Option<u32>, to: Option<u32>) -> Option<(u32, u32)>
    ensures { result ≡ part_between from to }
{
    match (from, to) {
        (Some(from), Some(to)) if from < to => Some((from, to)),
        _ => None,
    }
}

/// The place that a number of kilometres names, in units of 10 cm.
fn place_in(word: &[u8]) -> Option<u32>
    ensures { result ≡ place_of word.now }
{
    let (km, decimals) = halves(word, b'.');
    place_at(decimal(km)?, units_in(decimals)?)
}

/// The place so many kilometres and units from the beginning of a line.
fn place_at(km: u32, units: u32) -> Option<u32>
    ensures { result ≡ place_at km units }
{
    km.checked_mul(UNITS)?.checked_add(units)
}

/// The decimals of a kilometre, in units of 10 cm.
fn units_in(decimals: &[u8]) -> Option<u32>
    ensures { result ≡ units_of decimals.now }
{
    if decimals.len() > DECIMALS {
        return None;
    }
    let mut padded = [b'0'; DECIMALS];
    padded[..decimals.len()].copy_from_slice(decimals);
    decimal(&padded)
}
