//! Moving along a line. Places and lengths are whole units of 10 cm. The places of a line are 0 to its length.

ghost use Rattle.std.specs.Prelude.{◌≡◌, ◌≤◌, Some, None, nat_le, if◌then◌else◌};
ghost use Rattle.rbc_place.specs.Placing.{back, room, onward, onward_on_line};

use rbc_track::Way;

/// The other way.
pub fn back(way: Way) -> Way
    ensures { result ≡ back way }
{
    match way {
        Way::Up => Way::Down,
        Way::Down => Way::Up,
    }
}

/// The place at a distance `by` from `place`, going `way`, if it is on the line that ends at `end`.
pub fn onward(way: Way, end: u32, place: u32, by: u32) -> Option<u32>
    requires { place ≤ end }
    ensures { result ≡ (if nat_le by (room way end place) then Some (onward way place by) else None) }
{
    match way {
        Way::Up => place.checked_add(by).filter(|place| *place <= end),
        Way::Down => place.checked_sub(by),
    }
}

/// The place at a distance `by` from `place`, going `way`, or the last place of the line if that comes first.
pub fn onward_on_line(way: Way, end: u32, place: u32, by: u32) -> u32
    requires { place ≤ end }
    ensures { result ≡ onward_on_line way end place by }
{
    match way {
        Way::Up => place.saturating_add(by).min(end),
        Way::Down => place.saturating_sub(by),
    }
}
