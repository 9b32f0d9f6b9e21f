//! Balise groups, and the directions along a line.

/// A direction along a line.
#[derive(Clone, Copy, Debug, PartialEq, Eq)]
pub enum Way {
    /// Towards rising places.
    Up,
    /// Towards falling places.
    Down,
}

/// A balise group: where it is, and its nominal direction.
#[derive(Clone, Copy, Debug, PartialEq, Eq)]
pub struct Group {
    /// The number of its line, from 0.
    pub line: u8,
    /// Its place on the line, in units of 10 cm.
    pub at: u32,
    /// Its nominal direction.
    pub nominal: Way,
}
