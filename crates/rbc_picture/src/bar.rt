//! The bar that says what a kilometre is, where panels show their lines to different scales.

use crate::colours::DARK;
use crate::shapes::{Point, Stroke, moved};
use crate::svg::Svg;
use crate::texts::{Anchor, SMALL};
use crate::window::Window;

/// Where a bar begins, in tenths of a pixel.
const LEFT: i64 = 6_000;

/// The least width of a bar.
const LEAST_WIDTH: u64 = 60;

/// The greatest width of a bar, a tenth of the panel.
const GREATEST_WIDTH: u64 = 1_120;

/// The lengths that a bar can have, in units of 10 cm, with their words. The first one that fits is taken.
const LENGTHS: [(u32, &str); 5] = [
    (10_000, "1 km"),
    (100_000, "10 km"),
    (1_000, "100 m"),
    (100, "10 m"),
    (10, "1 m"),
];

/// The line of a bar, and its ends.
const STROKE: Stroke = Stroke {
    colour: DARK,
    width: "2",
    dashes: None,
};

/// A bar: a length of the line, and how wide it is on the picture.
#[derive(Clone, Copy)]
pub(crate) struct Bar {
    words: &'static str,
    width: i64,
}

impl Bar {
    /// The bar for a window, if one fits.
    pub(crate) fn of(window: Window) -> Option<Bar> {
        let shown = u64::from(window.length());
        for (length, words) in LENGTHS {
            let width = u64::from(length) * 11_200 / shown;
            if (LEAST_WIDTH..=GREATEST_WIDTH).contains(&width) {
                let width = i64::try_from(width).unwrap_or(i64::MAX);
                return Some(Bar { words, width });
            }
        }
        None
    }

    /// Draws the bar with its words, in the row of a heading.
    pub(crate) fn draw(&self, svg: &mut Svg, y: i64) {
        let left = Point {
            x: LEFT,
            y: y.saturating_sub(40),
        };
        let right = moved(left, self.width, 0);
        svg.line(left, right, STROKE);
        for end in [left, right] {
            svg.line(moved(end, 0, -30), moved(end, 0, 30), STROKE);
        }
        svg.text(moved(right, 60, 40), Anchor::Start, SMALL, self.words);
    }
}
