//! Lengths and coordinates on a picture (own rule). They are whole tenths of a pixel.

use std::fmt;

/// A length or a coordinate in tenths of a pixel, shown in pixels: 400 is `40`, and 405 is `40.5`.
#[derive(Clone, Copy)]
pub(crate) struct Pixels(pub u32);

impl fmt::Display for Pixels {
    ghost use Rattle.std.specs.Prelude.{Some};
    ghost use Rattle.rbc_picture.specs.Pixels.{pixels_text};

    ghost output = { λ pixels. Some (pixels_text pixels.0) };

    fn fmt<W: fmt::Write>(&self, f: &mut fmt::Formatter<W>) -> fmt::Result {
        let whole = self.0 / 10;
        let tenth = self.0 % 10;
        if tenth == 0 {
            return write!(f, "{whole}");
        }
        write!(f, "{whole}.{tenth}")
    }
}

/// An interval on the picture, from left to right, both ends included.
#[derive(Clone, Copy)]
pub(crate) struct Span {
    /// Its left end.
    pub left: i64,
    /// Its right end.
    pub right: i64,
}

impl Span {
    /// The interval between two places, in either order.
    pub(crate) fn between(one: i64, other: i64) -> Span {
        Span {
            left: one.min(other),
            right: one.max(other),
        }
    }

    /// The least interval that has this one and a place in it.
    pub(crate) fn with(self, x: i64) -> Span {
        Span {
            left: self.left.min(x),
            right: self.right.max(x),
        }
    }

    /// Whether it has a place in common with another.
    pub(crate) fn meets(self, other: Span) -> bool {
        self.left <= other.right && other.left <= self.right
    }

    /// Whether it lies within the picture, which is 12000 wide.
    pub(crate) fn is_inside(self) -> bool {
        0 <= self.left && self.right <= 12_000
    }
}

/// A side of a place on the picture.
#[derive(Clone, Copy)]
pub(crate) enum Side {
    /// Towards rising places.
    Right,
    /// Towards falling places.
    Left,
}

impl Side {
    /// The place so far to this side of another.
    pub(crate) fn from(self, x: i64, by: i64) -> i64 {
        match self {
            Side::Right => x.saturating_add(by),
            Side::Left => x.saturating_sub(by),
        }
    }

    /// The one of two places that lies farther to this side.
    pub(crate) fn farther(self, one: i64, other: i64) -> i64 {
        match self {
            Side::Right => one.max(other),
            Side::Left => one.min(other),
        }
    }

    /// The last place on this side at which a sign stands whole on the picture.
    pub(crate) fn edge(self) -> i64 {
        match self {
            Side::Right => 11_920,
            Side::Left => 80,
        }
    }

    /// The other side.
    pub(crate) fn other(self) -> Side {
        match self {
            Side::Right => Side::Left,
            Side::Left => Side::Right,
        }
    }
}
