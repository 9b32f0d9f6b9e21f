//! Words on the picture.

use crate::colours::{BROWN, DARK, GREY, RED};
use crate::pixels::Side;
use crate::shapes::Point;
use crate::svg::Svg;

/// How words look.
#[derive(Clone, Copy)]
pub(crate) struct Style {
    /// Their size in pixels.
    pub size: &'static str,
    pub is_bold: bool,
    pub colour: &'static str,
}

/// The title above the picture.
pub(crate) const TITLE: Style = Style {
    size: "20",
    is_bold: true,
    colour: DARK,
};

/// The summary below the title.
pub(crate) const SUMMARY: Style = Style {
    size: "13",
    is_bold: false,
    colour: DARK,
};

/// What is drawn of the track, and what is left out, below the title.
pub(crate) const SCOPE: Style = Style {
    size: "13",
    is_bold: true,
    colour: DARK,
};

/// How much is not told, below the summary.
pub(crate) const LACK: Style = Style {
    size: "13",
    is_bold: true,
    colour: RED,
};

/// The heading of a part.
pub(crate) const HEADING: Style = Style {
    size: "15",
    is_bold: true,
    colour: DARK,
};

/// The words of the legend and of an axis.
pub(crate) const SMALL: Style = Style {
    size: "11",
    is_bold: false,
    colour: DARK,
};

/// The stops and restrictions that a train is told, and remarks.
pub(crate) const NOTE: Style = Style {
    size: "11",
    is_bold: false,
    colour: GREY,
};

/// The stops and restrictions that a train is not told.
pub(crate) const UNTOLD: Style = Style {
    size: "11",
    is_bold: true,
    colour: RED,
};

/// The number of a train's on-board equipment.
pub(crate) const ENGINE: Style = Style {
    size: "13",
    is_bold: true,
    colour: DARK,
};

/// The words at a band.
pub(crate) const BAND: Style = Style {
    size: "11",
    is_bold: true,
    colour: DARK,
};

/// The words beside the sign of a stop.
pub(crate) const SIGN: Style = Style {
    size: "11",
    is_bold: true,
    colour: BROWN,
};

/// The number of a balise group.
pub(crate) const GROUP: Style = Style {
    size: "10",
    is_bold: false,
    colour: GREY,
};

/// The white edge behind words that may lie over something else.
const HALO: &str =
    " fill=\"#FFFFFF\" stroke=\"#FFFFFF\" stroke-width=\"4\" stroke-linejoin=\"round\" aria-hidden=\"true\">";

/// Which part of words stands at their place.
#[derive(Clone, Copy)]
pub(crate) enum Anchor {
    Start,
    Middle,
    End,
}

impl Anchor {
    /// The anchor of words that go to a side.
    pub(crate) fn of(side: Side) -> Anchor {
        match side {
            Side::Right => Anchor::Start,
            Side::Left => Anchor::End,
        }
    }

    fn word(self) -> &'static str {
        match self {
            Anchor::Start => "start",
            Anchor::Middle => "middle",
            Anchor::End => "end",
        }
    }
}

impl Svg {
    /// Begins a text, up to its colour.
    fn begin_text(&mut self, at: Point, anchor: Anchor, style: Style) {
        self.words("<text");
        self.length("x", at.x);
        self.length("y", at.y);
        self.attribute("font-size", style.size);
        self.attribute("text-anchor", anchor.word());
        if style.is_bold {
            self.attribute("font-weight", "bold");
        }
    }

    /// Begins a text, up to the end of its tag.
    pub(crate) fn begin_tag(&mut self, at: Point, anchor: Anchor, style: Style) {
        self.begin_text(at, anchor, style);
        self.attribute("fill", style.colour);
    }

    /// Begins a text; its words follow.
    pub(crate) fn begin_words(&mut self, at: Point, anchor: Anchor, style: Style) {
        self.begin_tag(at, anchor, style);
        self.words(">");
    }

    /// Ends a text.
    pub(crate) fn end_words(&mut self) {
        self.words("</text>\n");
    }

    /// Writes words as they are.
    pub(crate) fn text(&mut self, at: Point, anchor: Anchor, style: Style, words: &str) {
        self.begin_words(at, anchor, style);
        self.words(words);
        self.end_words();
    }

    /// Writes words as they are, with a white edge behind them.
    pub(crate) fn text_with_halo(&mut self, at: Point, anchor: Anchor, style: Style, words: &str) {
        self.begin_text(at, anchor, style);
        self.words(HALO);
        self.words(words);
        self.end_words();
        self.text(at, anchor, style, words);
    }
}
