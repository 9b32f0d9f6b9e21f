//! The panel of a line.

ghost use Rattle.std.specs.Prelude.{◌≡◌, IfOk, OnOk, length, map, filter, string_bytes};
ghost use Rattle.rbc_picture.specs.Trains.{is_in};
ghost use Rattle.rbc_picture.specs.Panels.{ShowsPart, panel_texts, shapes_texts};
ghost use Rattle.rbc_picture.specs.Shown.{IsShownOn};

use crate::axis::{Mark, axis_of, draw_axis, draw_grid};
use crate::bands::{Bands, bands_of};
use crate::bar::Bar;
use crate::colours::{DARK_EDGE, STOP, WHITE};
use crate::document::{push_piece, push_text};
use crate::groups::{GroupSign, draw_groups, signs_of};
use crate::lanes::{Lanes, lanes_of};
use crate::pixels::Span;
use crate::scene::{Scene, is_crowd};
use crate::selection::LinePart;
use crate::shapes::{Area, Point, Stroke, moved};
use crate::stretches::{limit_stretches, meeting, stop_stretches};
use crate::svg::Svg;
use crate::texts::{Anchor, HEADING, NOTE};
use crate::titles::line_heading;
use crate::train_shape::{TrainShape, shape_of};
use crate::train_state::TrainState;
use crate::window::Window;
use rbc_track_report::NamedLine;
use std::alloc::{AllocError, Global};

/// The left end of what is shown of a line.
const LEFT: i64 = 400;

/// The right end of what is shown of a line.
const RIGHT: i64 = 11_600;

/// The height of a row of trains.
const ROW: i64 = 400;

/// What a crowded panel does not show.
const REMARK: &str = "More than 40 trains: the words above a train name the stops that it is told, \
    and the places before which it is told to stop are not drawn.";

/// The whole line above the part that is shown.
const OVERVIEW: Stroke = Stroke {
    colour: "#595959",
    width: "2",
    dashes: None,
};

/// The line.
const TRACK: Stroke = Stroke {
    colour: "#595959",
    width: "4",
    dashes: None,
};

/// The line beyond the part that is shown.
const TRACK_BEYOND: Stroke = Stroke {
    colour: "#595959",
    width: "4",
    dashes: Some("4 4"),
};

/// Where a panel stands, and what of a line it shows.
#[derive(Clone, Copy)]
pub(crate) struct Frame {
    pub window: Window,
    /// Whether each panel has a bar for its scale.
    pub has_bars: bool,
    /// Where the panel begins, in tenths of a pixel.
    pub top: i64,
}

/// The panel of a part of a line.
#[derive(Drop)]
pub(crate) struct Panel<'a> {
    /// The part that it shows.
    pub part: LinePart,
    about: &'a NamedLine,
    window: Window,
    bar: Option<Bar>,
    /// Where it begins, in tenths of a pixel.
    pub top: i64,
    /// Whether it has too many trains to show the places before which they are told to stop.
    is_crowded: bool,
    pub stops: Bands,
    pub limits: Bands,
    columns: Vec<Span>,
    pub trains: Vec<TrainShape<'a>>,
    rows: Lanes,
    groups: Vec<GroupSign>,
    axis: Vec<Mark>,
}

/// The panel of a part of a line.
pub(crate) fn panel_of<'a>(
    alloc: Global,
    scene: &Scene<'a>,
    part: LinePart,
    about: &'a NamedLine,
    frame: Frame,
) -> Result<Panel<'a>, AllocError>
    ensures shows { IfOk result (ShowsPart scene.now) }
    ensures of_part { IfOk result (λ panel. panel.part ≡ part) }
{
    let (line, window) = (part.line as usize, frame.window);
    let stops = bands_of(
        alloc,
        window,
        &meeting(alloc, &part, &stop_stretches(alloc, scene.stops, line)?)?,
    )?;
    let limits = bands_of(
        alloc,
        window,
        &meeting(alloc, &part, &limit_stretches(alloc, scene.limits, line)?)?,
    )?;
    let is_crowded = is_crowd(scene.trains, &part);
    let trains = shapes_on(alloc, scene, scene.trains, &part, window, is_crowded)?;
    let bar = bar_of(window, frame.has_bars);
    let columns = stops.columns(alloc)?;
    let rows = lanes_of(alloc, &extents_of(alloc, &trains)?)?;
    Ok(Panel {
        part,
        about,
        window,
        bar,
        top: frame.top,
        is_crowded,
        stops,
        limits,
        columns,
        trains,
        rows,
        groups: signs_of(alloc, &scene.track.groups, line, window)?,
        axis: axis_of(alloc, window)?,
    })
}

/// The bar for a window, if panels have bars.
fn bar_of(window: Window, has_bars: bool) -> Option<Bar> {
    if has_bars { Bar::of(window) } else { None }
}

/// The trains that are placed on the line of a part and meet the part, in their order.
fn shapes_on<'a>(
    alloc: Global,
    scene: &Scene<'a>,
    trains: &'a [TrainState],
    part: &LinePart,
    window: Window,
    is_crowded: bool,
) -> Result<Vec<TrainShape<'a>>, AllocError>
    ensures { IfOk result (λ shapes. map (λ shape. shape.train.now) shapes.items ≡ filter (is_in part.now) trains.now) }
{
    let mut shapes = Vec::new(alloc);
    for train in trains {
        if let Some(place) = train.place_in(part) {
            shapes.push(shape_of(alloc, scene, train, place, window, is_crowded)?)?;
        }
    }
    Ok(shapes)
}

/// The extents of trains.
fn extents_of(alloc: Global, trains: &[TrainShape<'_>]) -> Result<Vec<Span>, AllocError>
    ensures { IfOk result (λ extents. length extents.items ≡ length trains.now) }
{
    trains.iter().map(|train| train.extent()).collect(alloc)
}

impl Panel<'_> {
    /// Whether only a part of the line is shown.
    fn is_part(&self) -> bool {
        !self.window.is_whole(self.about.length)
    }

    /// Where the lanes of stops begin.
    fn stops_top(&self) -> i64 {
        let overview = if self.is_part() { 140 } else { 0 };
        let remark = if self.is_crowded { 180 } else { 0 };
        self.top
            .saturating_add(260)
            .saturating_add(overview)
            .saturating_add(remark)
    }

    /// Where the rows of trains begin.
    fn rows_top(&self) -> i64 {
        self.stops_top().saturating_add(self.stops.height())
    }

    /// Where a row of trains begins.
    fn row_top(&self, row: usize) -> i64 {
        let rows = i64::try_from(row).unwrap_or(i64::MAX);
        self.rows_top().saturating_add(rows.saturating_mul(ROW))
    }

    /// The height of the line.
    fn line_y(&self) -> i64 {
        self.row_top(self.rows.count).saturating_add(160)
    }

    /// The height of the words of the axis.
    fn axis_y(&self) -> i64 {
        let below = if self.groups.is_empty() { 220 } else { 340 };
        self.line_y().saturating_add(below)
    }

    /// Where the lanes of restrictions begin.
    fn limits_top(&self) -> i64 {
        self.axis_y().saturating_add(120)
    }

    /// Where the panel ends.
    pub(crate) fn end(&self) -> i64 {
        self.limits_top()
            .saturating_add(self.limits.height())
            .saturating_add(100)
    }

    /// Adds the panel to a document.
    pub(crate) fn push(&self, alloc: Global, document: &mut String) -> Result<(), AllocError>
        ensures { OnOk result (IsShownOn (panel_texts self.now) (string_bytes document.old)
            (string_bytes document.new)) }
    {
        push_piece(document, self.heading_tag(alloc))?;
        push_text(
            document,
            line_heading(alloc, self.part.line as usize)?.as_str(),
        )?;
        push_piece(document, self.above_stops(alloc))?;
        self.stops
            .push(alloc, document, self.part.line as usize, self.stops_top())?;
        push_piece(document, self.below_stops(alloc))?;
        self.push_trains(alloc, document)?;
        self.limits.push(alloc, document, self.part.line as usize, self.limits_top())?;
        push_piece(document, Svg::of(alloc, "</g>\n"))
    }

    /// Where the number of the line is written.
    fn heading_at(&self) -> Point {
        Point {
            x: LEFT,
            y: self.top.saturating_add(160),
        }
    }

    /// The panel up to the heading, without the end of its tag.
    fn heading_tag(&self, alloc: Global) -> Svg {
        let mut svg = Svg::new(alloc);
        svg.begin_group();
        svg.begin_tag(self.heading_at(), Anchor::Start, HEADING);
        svg
    }

    /// The panel from the number of the line to the bands of stops.
    fn above_stops(&self, alloc: Global) -> Svg {
        let mut svg = Svg::new(alloc);
        self.draw_heading(&mut svg);
        self.draw_overview(&mut svg);
        self.draw_remark(&mut svg);
        let y = self.line_y();
        draw_grid(&mut svg, &self.axis, self.stops_top(), y.saturating_add(80));
        self.draw_columns(&mut svg, y);
        svg
    }

    /// The panel from the bands of stops to the trains.
    fn below_stops(&self, alloc: Global) -> Svg {
        let mut svg = Svg::new(alloc);
        let y = self.line_y();
        self.draw_line(&mut svg, y);
        draw_groups(&mut svg, &self.groups, y);
        draw_axis(&mut svg, &self.axis, self.axis_y());
        svg
    }

    /// Writes the name and the length of the line, after its number, and which part of it is shown.
    fn draw_heading(&self, svg: &mut Svg) {
        let y = self.heading_at().y;
        svg.name(&self.about.name);
        svg.end_words();
        if let Some(bar) = &self.bar {
            bar.draw(svg, y);
        }
        svg.begin_words(Point { x: RIGHT, y }, Anchor::End, NOTE);
        svg.km(self.about.length);
        svg.words(" km");
        if self.is_part() {
            svg.words(", shown from ");
            svg.from_to(self.window.low, self.window.high);
        }
        svg.end_words();
    }

    /// Draws the whole line with a frame round the part that is shown, if only a part is.
    fn draw_overview(&self, svg: &mut Svg) {
        if !self.is_part() {
            return;
        }
        let y = self.top.saturating_add(260);
        let middle = y.saturating_add(30);
        svg.line(
            Point { x: LEFT, y: middle },
            Point {
                x: RIGHT,
                y: middle,
            },
            OVERVIEW,
        );
        let whole = Window::whole(self.about.length);
        let (left, right) = (whole.x(self.window.low), whole.x(self.window.high));
        let frame = Area {
            x: left,
            y,
            width: right.saturating_sub(left).max(30),
            height: 60,
        };
        svg.filled_box(frame, WHITE, DARK_EDGE);
    }

    /// Writes what a crowded panel does not show.
    fn draw_remark(&self, svg: &mut Svg) {
        if self.is_crowded {
            let at = Point {
                x: LEFT,
                y: self.stops_top().saturating_sub(60),
            };
            svg.text(at, Anchor::Start, NOTE, REMARK);
        }
    }

    /// Draws the columns from the bands of stops down to the line.
    fn draw_columns(&self, svg: &mut Svg, y: i64) {
        let top = self.stops_top();
        for column in &self.columns {
            let area = Area {
                x: column.left,
                y: top,
                width: column.right.saturating_sub(column.left),
                height: y.saturating_sub(top),
            };
            svg.filled_box(area, STOP, " fill-opacity=\"0.12\"");
        }
    }

    /// Draws the line and its ends.
    fn draw_line(&self, svg: &mut Svg, y: i64) {
        let (left, right) = (Point { x: LEFT, y }, Point { x: RIGHT, y });
        svg.line(left, right, TRACK);
        draw_end(svg, left, -200, self.window.low == 0);
        draw_end(svg, right, 200, self.window.high == self.about.length);
    }

    /// Adds each train to a document, in its row.
    fn push_trains(&self, alloc: Global, document: &mut String) -> Result<(), AllocError>
        ensures { OnOk result (IsShownOn (shapes_texts self.now.trains.items) (string_bytes document.old)
            (string_bytes document.new)) }
    {
        for (index, train) in self.trains.iter().enumerate() {
            let row = self.rows.of_items.get(index).copied().unwrap_or(0);
            train.push(alloc, document, self.row_top(row).saturating_add(270))?;
        }
        Ok(())
    }
}

/// Draws an end of what is shown of a line: a bar if the line ends there, else dashes outwards.
fn draw_end(svg: &mut Svg, at: Point, outwards: i64, is_last: bool) {
    if is_last {
        svg.line(moved(at, 0, -70), moved(at, 0, 70), TRACK);
    } else {
        svg.line(at, moved(at, outwards, 0), TRACK_BEYOND);
    }
}
