//! Values in chains: each leads, by each of its marks, to the next one that carries it.

ghost use Rattle.std.specs.Prelude.{◌≡◌, ◌<◌, ◌+◌, ◌%◌, ℕ, length, slice_index};
ghost use Rattle.rbc_maps.specs.Chains.{AreChained, headed};

/// The number of marks that lines have.
pub(crate) const MARKS: usize = 64;

/// How many hints there are.
const HINTS: usize = 64;

/// The number of places that stand beside a table: a head for each mark, and then the hints.
pub(crate) const PLACES: usize = MARKS + HINTS;

/// Chains the values whose marks these are, from the last to the first. Afterwards `first` has, for each mark, the
/// place of the first value that carries it, and `next`, for each value and each of its marks, the place of the next
/// one; if there is none, the place after the last value.
pub(crate) fn chain<const N: usize>(
    marks: &[[u8; N]],
    first: &mut Vec<u32>,
    next: &mut Vec<[u32; N]>,
)
    requires count { length marks.now < 4294967296 }
    requires heads { length first.old.items ≡ 128 }
    requires long { length next.old.items ≡ length marks.now }
    ensures chained { AreChained N marks.now first.new.items next.new.items }
    ensures full { length first.new.items ≡ 128 }
{
    let mut at = marks.len() as u32;
    first.fill(at);
    while at > 0 {
        at -= 1;
        let own = &marks[at as usize];
        next[at as usize] = led_on(first, own);
        head(first, own, at);
    }
}

/// Where each mark of a value leads.
fn led_on<const N: usize>(first: &[u32], own: &[u8; N]) -> [u32; N]
    ensures { (slot : ℕ) → slot < N → slice_index result slot ≡ slice_index first.now (slice_index own.now slot) }
{
    let mut led = [0; N];
    for slot in 0..N {
        led[slot] = led_to(first, own, slot);
    }
    led
}

/// Where the mark at a slot leads.
fn led_to(first: &[u32], own: &[u8], slot: usize) -> u32
    ensures { result ≡ slice_index first.now (slice_index own.now slot) }
{
    first_of(first, own.get(slot).copied().unwrap_or(0))
}

/// Where the first value stands that carries the mark of a line.
#[inline]
pub(crate) fn first_of(first: &[u32], mark: u8) -> u32
    ensures { result ≡ slice_index first.now mark }
{
    first.get(usize::from(mark)).copied().unwrap_or(0)
}

/// Puts a value at the head of the chains of its marks.
fn head(first: &mut Vec<u32>, own: &[u8], place: u32)
    requires { length first.old.items ≡ 128 }
    ensures { first.new.items ≡ headed own.now place first.old.items }
{
    for mark in own {
        let mark = usize::from(*mark);
        if mark < MARKS {
            first[mark] = place;
        }
    }
}

/// Where a number may stand: a hint, by its last six bits. It is 0 if there is none.
#[inline]
pub(crate) fn hint_of(first: &[u32], number: u32) -> usize
    ensures { result ≡ slice_index first.now (64 + number % 64) }
{
    let place = first.get(MARKS + number as usize % HINTS);
    place.map_or(0, |place| *place as usize)
}

/// Notes after the heads where the numbers stand, by their last six bits. Only the last sixteen bits of a place are
/// noted.
pub(crate) fn note_hints<V>(pairs: &[(u32, V)], first: &mut Vec<u32>)
    requires { length first.old.items ≡ 128 }
    ensures heads { (mark : ℕ) → mark < 64 → slice_index first.new.items mark ≡ slice_index first.old.items mark }
    ensures full { length first.new.items ≡ 128 }
{
    for (place, pair) in pairs.iter().enumerate() {
        first[MARKS + pair.0 as usize % HINTS] = (place % 65_536) as u32;
    }
}
