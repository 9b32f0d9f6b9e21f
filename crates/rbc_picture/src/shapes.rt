//! Lines, boxes and polygons.

use crate::colours::{SIGN_EDGE, STOP, WHITE};
use crate::svg::Svg;

/// A point on the picture, in tenths of a pixel from its left edge and from its upper edge.
#[derive(Clone, Copy)]
pub(crate) struct Point {
    pub x: i64,
    pub y: i64,
}

/// The area of a box, in tenths of a pixel.
#[derive(Clone, Copy)]
pub(crate) struct Area {
    /// Its left edge.
    pub x: i64,
    /// Its upper edge.
    pub y: i64,
    pub width: i64,
    pub height: i64,
}

/// How a line is drawn.
#[derive(Clone, Copy)]
pub(crate) struct Stroke {
    pub colour: &'static str,
    /// Its width in pixels.
    pub width: &'static str,
    /// Its dashes and gaps in pixels, if it has any.
    pub dashes: Option<&'static str>,
}

/// A point so far to the right of another and so far below it.
pub(crate) fn moved(point: Point, right: i64, down: i64) -> Point {
    Point {
        x: point.x.saturating_add(right),
        y: point.y.saturating_add(down),
    }
}

impl Svg {
    /// Draws a line.
    pub(crate) fn line(&mut self, from: Point, to: Point, stroke: Stroke) {
        self.words("<line");
        self.length("x1", from.x);
        self.length("y1", from.y);
        self.length("x2", to.x);
        self.length("y2", to.y);
        self.attribute("stroke", stroke.colour);
        self.attribute("stroke-width", stroke.width);
        if let Some(dashes) = stroke.dashes {
            self.attribute("stroke-dasharray", dashes);
        }
        self.words("/>\n");
    }

    /// Begins a box. `more` has further attributes, each with a space before it.
    pub(crate) fn begin_box(&mut self, area: Area, fill: &str, more: &str) {
        self.words("<rect");
        self.length("x", area.x);
        self.length("y", area.y);
        self.length("width", area.width);
        self.length("height", area.height);
        self.attribute("fill", fill);
        self.words(more);
    }

    /// Draws a box.
    pub(crate) fn filled_box(&mut self, area: Area, fill: &str, more: &str) {
        self.begin_box(area, fill, more);
        self.words("/>\n");
    }

    /// Begins a polygon. `more` has further attributes, each with a space before it.
    pub(crate) fn begin_polygon(&mut self, points: &[Point], fill: &str, more: &str) {
        self.words("<polygon points=\"");
        for (index, point) in points.iter().enumerate() {
            if index > 0 {
                self.words(" ");
            }
            self.point(*point);
        }
        self.words("\"");
        self.attribute("fill", fill);
        self.words(more);
    }

    fn point(&mut self, point: Point) {
        self.pixels(point.x);
        self.words(",");
        self.pixels(point.y);
    }

    /// Draws a polygon.
    pub(crate) fn polygon(&mut self, points: &[Point], fill: &str, more: &str) {
        self.begin_polygon(points, fill, more);
        self.words("/>\n");
    }

    /// Draws the octagon of a stop that a train is told. It reaches `radius` to all sides, and is filled if the train
    /// has answered.
    pub(crate) fn octagon(&mut self, centre: Point, radius: i64, is_filled: bool) {
        let fill = if is_filled { STOP } else { WHITE };
        self.polygon(&corners_of(centre, radius), fill, SIGN_EDGE);
    }
}

/// The corners of an octagon.
fn corners_of(centre: Point, radius: i64) -> [Point; 8] {
    let corner = radius.saturating_mul(4) / 10;
    let (left, right) = (0i64.saturating_sub(radius), radius);
    let (near_left, near_right) = (0i64.saturating_sub(corner), corner);
    [
        moved(centre, near_left, left),
        moved(centre, near_right, left),
        moved(centre, right, near_left),
        moved(centre, right, near_right),
        moved(centre, near_right, right),
        moved(centre, near_left, right),
        moved(centre, left, near_right),
        moved(centre, left, near_left),
    ]
}
