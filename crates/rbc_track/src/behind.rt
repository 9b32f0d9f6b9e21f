//! The balise group that a train at a place has passed last.

ghost use Rattle.std.specs.Prelude.{◌≡◌};
ghost use Rattle.rbc_track.specs.Behind.{is_behind, stands_behind, nearer, nearest_of};

use crate::group::{Group, Way};

/// The nearest of the balise groups of a line that stand at a place or behind it, as a train faces, or the first of
/// those at one place.
pub fn nearest_of(
    groups: &[(u32, Group)],
    line: u32,
    place: u32,
    facing: Way,
) -> Option<(u32, Group)>
    ensures { result ≡ nearest_of line place facing groups.now }
{
    groups
        .iter()
        .copied()
        .filter(|entry| stands_behind(line, place, facing, entry.1))
        .reduce(|found, next| nearer(facing, found, next))
}

/// Whether a balise group stands on a line, at a place or behind it, as a train faces.
fn stands_behind(line: u32, place: u32, facing: Way, group: Group) -> bool
    ensures { result ≡ stands_behind line place facing group }
{
    u32::from(group.line) == line && is_behind(facing, place, group.at)
}

/// The nearer of two balise groups that stand behind a train, or the first one if they stand at the same place.
fn nearer(facing: Way, found: (u32, Group), next: (u32, Group)) -> (u32, Group)
    ensures { result ≡ nearer facing found next }
{
    if is_behind(facing, found.1.at, next.1.at) {
        found
    } else {
        next
    }
}

/// Whether the second place is the first one, or lies behind it, as a train faces.
fn is_behind(facing: Way, place: u32, at: u32) -> bool
    ensures { result ≡ is_behind facing place at }
{
    match facing {
        Way::Up => at <= place,
        Way::Down => place <= at,
    }
}
