//! The legend of a picture.

use crate::colours::{DARK, DARK_EDGE, DOTS, LIMIT_EDGE, STOP_EDGE, STRIPES, WHITE};
use crate::head::LEFT;
use crate::shapes::{Area, Point, moved};
use crate::short_words::ShortWord;
use crate::svg::Svg;
use crate::texts::{Anchor, NOTE, SMALL};
use crate::train_shape::{POST, TOLD};

/// What the remarks on a stop or a restriction mean.
const REMARKS: &str =
    " With ?, and a sign that is not filled: not acknowledged yet. With !: not answered in three reports.";

/// What NOT TOLD and NOT TOLD AGAIN mean.
const LACKS: &str = "NOT TOLD: it concerns the train, and no identifier is free. \
    NOT TOLD AGAIN: it was not answered, and no identifier is free.";

/// What the marks with revocations mean.
const MARKS: &str =
    ": a stop or a restriction is being revoked, and the train has not acknowledged that. \
    The marks of a train begin with the nearest place.";

/// The height of the legend, for a picture with marks of revocations or without them.
pub(crate) fn legend_height(has_marks: bool) -> i64 {
    if has_marks { 780 } else { 600 }
}

/// Draws the legend, from `top` downwards, for a picture with marks of revocations or without them.
pub(crate) fn draw_legend(svg: &mut Svg, top: i64, has_marks: bool) {
    let y = top.saturating_add(80);
    svg.begin_group();
    draw_train(svg, y);
    draw_signs(svg, y);
    draw_bands(svg, y);
    draw_balise_group(svg, y);
    draw_notes(svg, y);
    if has_marks {
        draw_marks(svg, y);
    }
    svg.end_group();
}

fn draw_train(svg: &mut Svg, y: i64) {
    let tail = Point { x: LEFT, y };
    let corners = [
        moved(tail, 0, -60),
        moved(tail, 250, -60),
        moved(tail, 340, 0),
        moved(tail, 250, 60),
        moved(tail, 0, 60),
    ];
    svg.polygon(&corners, DARK, "");
    legend_words(svg, 820, y, "where a train may be, and the way it faces");
}

fn draw_signs(svg: &mut Svg, y: i64) {
    svg.octagon(Point { x: 3_670, y }, 70, false);
    legend_words(svg, 3_800, y, "told to stop at once");
    let post = Point { x: 5_510, y };
    svg.line(moved(post, -260, 0), post, TOLD);
    svg.line(moved(post, 0, -100), moved(post, 0, 100), POST);
    svg.octagon(post, 60, false);
    legend_words(svg, 5_640, y, "told to stop before a place");
}

fn draw_bands(svg: &mut Svg, y: i64) {
    svg.filled_box(sample(7_600, y), STRIPES, STOP_EDGE);
    legend_words(svg, 8_020, y, "stop");
    svg.filled_box(sample(8_550, y), DOTS, LIMIT_EDGE);
    legend_words(svg, 8_970, y, "restriction");
}

/// The area of a band of the legend.
fn sample(x: i64, y: i64) -> Area {
    Area {
        x,
        y: y.saturating_sub(80),
        width: 340,
        height: 160,
    }
}

fn draw_balise_group(svg: &mut Svg, y: i64) {
    let at = Point { x: 9_900, y };
    let corners = [moved(at, 0, -60), moved(at, 0, 60), moved(at, 120, 0)];
    svg.polygon(&corners, WHITE, DARK_EDGE);
    legend_words(svg, 10_100, y, "balise group");
}

/// Writes the meaning of a sign.
fn legend_words(svg: &mut Svg, x: i64, y: i64, words: &str) {
    svg.text(moved(Point { x, y }, 0, 40), Anchor::Start, SMALL, words);
}

fn draw_notes(svg: &mut Svg, y: i64) {
    let at = Point { x: LEFT, y };
    svg.begin_words(moved(at, 0, 260), Anchor::Start, NOTE);
    svg.short_word(ShortWord::stop(1));
    svg.words(": told stop 1. ");
    svg.short_word(ShortWord::restriction(1));
    svg.words(": told restriction 1.");
    svg.words(REMARKS);
    svg.end_words();
    svg.text(moved(at, 0, 440), Anchor::Start, NOTE, LACKS);
}

/// Writes what the marks with revocations mean.
fn draw_marks(svg: &mut Svg, y: i64) {
    svg.begin_words(
        Point {
            x: LEFT,
            y: y.saturating_add(620),
        },
        Anchor::Start,
        NOTE,
    );
    svg.short_word(ShortWord::revocation(true));
    svg.words(", ");
    svg.short_word(ShortWord::revocation(false));
    svg.words(MARKS);
    svg.end_words();
}
