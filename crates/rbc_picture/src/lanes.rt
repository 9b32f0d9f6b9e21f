//! Lanes, in which items stand beside one another and do not meet.

ghost use Rattle.std.specs.Prelude.{◌≡◌, IfOk, length};

use crate::pixels::Span;
use std::alloc::{AllocError, Global};

/// The least distance between two items in a lane, in tenths of a pixel.
const GAP: i64 = 120;

/// The lane of each item, in the order of the items, and how many lanes there are.
#[derive(Drop)]
pub(crate) struct Lanes {
    /// The lane of each item, from 0.
    pub of_items: Vec<usize>,
    /// How many there are.
    pub count: usize,
}

/// Puts items into lanes by their extents. Items are taken from left to right, then in their order, and each goes into
/// the first lane that is free there.
pub(crate) fn lanes_of(alloc: Global, extents: &[Span]) -> Result<Lanes, AllocError>
    ensures { IfOk result (λ lanes. length lanes.of_items.items ≡ length extents.now) }
{
    let mut from_left = Vec::new(alloc);
    for (item, extent) in extents.iter().enumerate() {
        from_left.push((extent.left, item, extent.right))?;
    }
    from_left.sort()?;
    let mut ends = Vec::new(alloc);
    let mut taken = Vec::new(alloc);
    for (left, item, right) in from_left {
        let lane = take_lane(&mut ends, Span { left, right })?;
        taken.push((item, lane))?;
    }
    taken.sort()?;
    Ok(Lanes {
        of_items: lanes_in(alloc, &taken)?,
        count: ends.len(),
    })
}

/// Takes the first lane that is free for an extent, or a new one. `ends` has the right end of the last item in each
/// lane.
fn take_lane(ends: &mut Vec<i64>, extent: Span) -> Result<usize, AllocError> {
    for (lane, end) in ends.iter_mut().enumerate() {
        if end.saturating_add(GAP) <= extent.left {
            *end = extent.right;
            return Ok(lane);
        }
    }
    let lane = ends.len();
    ends.push(extent.right)?;
    Ok(lane)
}

/// The lanes alone.
fn lanes_in(alloc: Global, taken: &[(usize, usize)]) -> Result<Vec<usize>, AllocError>
    ensures { IfOk result (λ lanes. length lanes.items ≡ length taken.now) }
{
    taken.iter().map(|(_item, lane)| *lane).collect(alloc)
}
