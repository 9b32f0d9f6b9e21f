//! The label above a train: its engine, what it is not told, what it is told, and what is being revoked.

use crate::colours::DARK;
use crate::nearness::Marks;
use crate::pixels::{Side, Span};
use crate::shapes::{Point, Stroke, moved};
use crate::short_words::{ShortWord, bold_width, fitting_list, short_list};
use crate::svg::Svg;
use crate::texts::{Anchor, ENGINE, NOTE, Style, UNTOLD};
use crate::train_state::TrainState;
use std::alloc::{AllocError, Global};

/// The widest that a label is, in tenths of a pixel.
const WIDEST: i64 = 5_600;

/// The distance between two texts of a label.
const GAP: i64 = 60;

/// The line below the number of a train by which the picture was asked for.
const UNDERLINE: Stroke = Stroke {
    colour: DARK,
    width: "2",
    dashes: None,
};

/// A label.
#[derive(Drop)]
pub(crate) struct Label {
    /// The number of the train's on-board equipment.
    pub engine: String,
    /// Whether the picture was asked for by this number. It is then underlined.
    pub is_named: bool,
    /// What it is not told, or no text.
    pub untold: String,
    /// What it is told, or no text.
    pub told: String,
    /// The revocations that it has not acknowledged, or no text.
    pub revoked: String,
    /// Where the label begins.
    pub x: i64,
    /// The side to which it goes from there.
    pub side: Side,
}

/// The label of a train whose arrow has this body.
pub(crate) fn label_of(
    alloc: Global,
    train: &TrainState,
    body: Span,
    marks: &Marks,
    is_named: bool,
) -> Result<Label, AllocError> {
    let engine = engine_words(alloc, train.engine)?;
    let untold = untold_list(alloc, &marks.untold)?;
    let revoked = short_list(alloc, "", &marks.revoked, 2)?;
    let room = WIDEST
        .saturating_sub(bold_width(engine.as_str(), 13))
        .saturating_sub(GAP)
        .saturating_sub(need_of(untold.as_str()))
        .saturating_sub(need_of(revoked.as_str()));
    let told = fitting_list(alloc, "", &marks.told, 6, room)?;
    let mut label = Label {
        engine,
        is_named,
        untold,
        told,
        revoked,
        x: body.left,
        side: Side::Right,
    };
    if body.left.saturating_add(label.need()) > 11_600 {
        label.x = body.right.min(11_600);
        label.side = Side::Left;
    }
    Ok(label)
}

/// The number of a train's on-board equipment, in words.
pub(crate) fn engine_words(alloc: Global, engine: u32) -> Result<String, AllocError> {
    format!(in alloc; "{engine}")
}

/// What a train is not told, at most two of it.
fn untold_list(alloc: Global, words: &[ShortWord]) -> Result<String, AllocError> {
    if words.is_empty() {
        return Ok(String::new(alloc));
    }
    short_list(alloc, "NOT TOLD ", words, 2)
}

/// The revocations that a train has not acknowledged, at most two of them.
pub(crate) fn revoked_list(alloc: Global, train: &TrainState) -> Result<String, AllocError> {
    short_list(alloc, "", &train.revocations(alloc)?, 2)
}

/// The room of a text after another, if there is a text.
pub(crate) fn need_of(words: &str) -> i64 {
    if words.is_empty() {
        return 0;
    }
    bold_width(words, 11).saturating_add(GAP)
}

impl Label {
    /// The room of the whole label.
    fn need(&self) -> i64 {
        bold_width(self.engine.as_str(), 13)
            .saturating_add(need_of(self.untold.as_str()))
            .saturating_add(need_of(self.told.as_str()))
            .saturating_add(need_of(self.revoked.as_str()))
    }

    /// From its left end to its right end.
    pub(crate) fn extent(&self) -> Span {
        Span::between(self.x, self.side.from(self.x, self.need()))
    }

    /// Draws the label.
    pub(crate) fn draw(&self, svg: &mut Svg, y: i64) {
        let engine = self.engine.as_str();
        let width = bold_width(engine, 13);
        let x = self.draw_text(svg, Point { x: self.x, y }, ENGINE, engine, width);
        if self.is_named {
            let below = moved(Point { x: self.x, y }, 0, 30);
            svg.line(below, moved(below, self.side.from(0, width), 0), UNDERLINE);
        }
        let untold = self.untold.as_str();
        let x = self.draw_text(svg, Point { x, y }, UNTOLD, untold, bold_width(untold, 11));
        let told = self.told.as_str();
        let x = self.draw_text(svg, Point { x, y }, NOTE, told, bold_width(told, 11));
        let revoked = self.revoked.as_str();
        self.draw_text(svg, Point { x, y }, NOTE, revoked, bold_width(revoked, 11));
    }

    /// Draws one text of the label, if it has words. Returns where the next one begins.
    fn draw_text(&self, svg: &mut Svg, at: Point, style: Style, words: &str, width: i64) -> i64 {
        if words.is_empty() {
            return at.x;
        }
        svg.text_with_halo(at, Anchor::of(self.side), style, words);
        self.side.from(at.x, width.saturating_add(GAP))
    }
}
