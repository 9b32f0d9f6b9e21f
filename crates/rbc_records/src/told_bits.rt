//! The numbers that a train was told, in few bytes, so that a search can skip most trains.

ghost use Rattle.std.specs.Prelude.{◌≡◌, ℕ, ◌<◌, ◌≤◌, false, fold, get_or, length, IsFalse};
ghost use Rattle.rbc_records.specs.ToldBits.{has_bit, with_bit, with_slot, bits_of_slots, bits_of_few, told_bits_of_train};

use rbc_settle::{IdTable, Slot, TrainRec};

/// The most restriction identifiers of a train that are examined. A train that holds more counts as told of every
/// restriction, so that writing its record takes only a few steps.
const FEW: usize = 16;

/// The numbers that a train was told, by bits: bit `n % 64` stands for the number n. So if a bit is not set, no such
/// number was told.
#[derive(Clone, Copy)]
pub struct ToldBits {
    /// The numbers of the stops that the train was told or that it rejected.
    pub stops: u64,
    /// The numbers of the temporary speed restrictions that it was told.
    pub limits: u64,
}

impl ToldBits {
    /// What a train was told.
    pub fn of(train: &TrainRec) -> Self
        ensures { result ≡ told_bits_of_train train.now }
    {
        ToldBits {
            stops: stop_bits(train),
            limits: limit_bits(&train.limits),
        }
    }
}

/// Whether the bit of a number is set.
#[inline(always)]
pub fn has_bit(bits: u64, number: u32) -> bool
    ensures { result ≡ has_bit bits number }
{
    bits >> (number % 64) & 1 == 1
}

/// Whether the bit of a number is set in one of the words from `begin` to before `end`. It has no branch for a word, so
/// that the processor takes several at once.
#[inline(always)]
pub fn in_some(words: &[u64], begin: usize, end: usize, number: u32) -> bool
    requires { end ≤ length words.now }
    ensures { IsFalse result → (index : ℕ) → begin ≤ index → index < end
        → has_bit (get_or words.now index 0) number ≡ false }
{
    let mut all = 0;
    for index in begin..end {
        all |= words[index];
    }
    has_bit(all, number)
}

/// Sets the bit of a number.
pub fn with_bit(bits: u64, number: u32) -> u64
    ensures { result ≡ with_bit bits number }
{
    bits | 1 << (number % 64)
}

/// Sets the bit of the number that a slot tells.
fn with_slot(bits: u64, slot: Slot) -> u64
    ensures { result ≡ with_slot bits slot }
{
    match slot {
        Slot::Used(used) => with_bit(bits, used.number),
        Slot::Revoking { .. } => bits,
    }
}

/// The bits of the numbers that slots tell.
fn bits_of_slots(slots: &[(u8, Slot)]) -> u64
    ensures { result ≡ bits_of_slots slots.now }
{
    slots.iter().fold(0, |bits, held| with_slot(bits, held.1))
}

/// The bits of the stops that a train was told or that it rejected.
fn stop_bits(train: &TrainRec) -> u64
    ensures { result ≡ fold with_bit (bits_of_slots train.now.stops) train.now.forced }
{
    let told = bits_of_slots(train.stops.slots());
    train
        .forced
        .as_slice()
        .iter()
        .fold(told, |bits, number| with_bit(bits, *number))
}

/// The bits of the restrictions that a train was told.
fn limit_bits(limits: &IdTable<255>) -> u64
    ensures { result ≡ bits_of_few limits.now }
{
    if limits.held() > FEW {
        u64::MAX
    } else {
        bits_of_slots(limits.slots())
    }
}
