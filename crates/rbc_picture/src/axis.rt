//! The axis below a line.

ghost use Rattle.std.specs.Prelude.{◌<◌};

use crate::pixels::Span;
use crate::shapes::{Point, Stroke};
use crate::short_words::bold_width;
use crate::svg::Svg;
use crate::texts::{Anchor, SMALL};
use crate::window::Window;
use std::alloc::{AllocError, Global};
use std::fmt::Write;

/// A line of the grid behind a panel.
const GRID: Stroke = Stroke {
    colour: "#E0E0E0",
    width: "1",
    dashes: None,
};

/// The least distance between the words of two marks, in tenths of a pixel.
const GAP: i64 = 80;

/// A mark of the axis.
#[derive(Drop)]
pub(crate) struct Mark {
    /// Where it stands, in tenths of a pixel.
    pub x: i64,
    /// Its words, or nothing if there is no room for them.
    pub words: Option<String>,
}

/// The marks of the axis of a window.
pub(crate) fn axis_of(alloc: Global, window: Window) -> Result<Vec<Mark>, AllocError> {
    let step = window.step();
    let mut axis = Vec::new(alloc);
    let mut taken = i64::MIN;
    for (index, mark) in window.marks(alloc)?.iter().enumerate() {
        let before = if index == 0 { "km " } else { "" };
        let words = km_words(alloc, before, *mark, step)?;
        let x = window.x(*mark);
        let room = room_of(x, words.as_str());
        if taken.saturating_add(GAP) <= room.left {
            taken = room.right;
            axis.push(Mark {
                x,
                words: Some(words),
            })?;
        } else {
            axis.push(Mark { x, words: None })?;
        }
    }
    Ok(axis)
}

/// The room of words whose middle stands at a place.
fn room_of(x: i64, words: &str) -> Span {
    let half = bold_width(words, 11) / 2;
    Span {
        left: x.saturating_sub(half),
        right: x.saturating_add(half),
    }
}

/// A place in km, with as many decimals as the step of the axis needs.
fn km_words(alloc: Global, before: &str, mark: u32, step: u32) -> Result<String, AllocError> {
    let mut words = String::from_str(alloc, before)?;
    let whole = mark / 10_000;
    write!(words, "{whole}")?;
    let (width, grain) = decimals_of(step);
    if width > 0 {
        let decimals = mark % 10_000 / grain;
        write!(words, ".{decimals:0>width$}")?;
    }
    Ok(words)
}

/// How many decimals a multiple of a step has in km, and what the last decimal counts, in units of 10 cm.
fn decimals_of(step: u32) -> (usize, u32)
    ensures { 0 < result.1 }
{
    if step % 10_000 == 0 {
        (0, 10_000)
    } else if step % 1_000 == 0 {
        (1, 1_000)
    } else if step % 100 == 0 {
        (2, 100)
    } else if step % 10 == 0 {
        (3, 10)
    } else {
        (4, 1)
    }
}

/// Draws the lines of the grid, from above to below.
pub(crate) fn draw_grid(svg: &mut Svg, axis: &[Mark], top: i64, bottom: i64) {
    for mark in axis {
        let from = Point { x: mark.x, y: top };
        let to = Point {
            x: mark.x,
            y: bottom,
        };
        svg.line(from, to, GRID);
    }
}

/// Writes the words of the marks.
pub(crate) fn draw_axis(svg: &mut Svg, axis: &[Mark], y: i64) {
    for mark in axis {
        if let Some(words) = &mark.words {
            svg.text(
                Point { x: mark.x, y },
                Anchor::Middle,
                SMALL,
                words.as_str(),
            );
        }
    }
}
