//! A temporary speed restriction, as the signaller gives it.

use rbc_zones::{Dirs, Segment};

/// A temporary speed restriction as the signaller gives it: the speed in km/h; `front` is Q_FRONT.
#[derive(Clone, Copy)]
pub struct Restriction {
    pub number: u32,
    pub segment: Segment,
    pub dirs: Dirs,
    pub speed: u32,
    pub front: bool,
}
