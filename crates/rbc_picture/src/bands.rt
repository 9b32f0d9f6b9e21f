//! Bands of stops and restrictions, and their words.

ghost use Rattle.std.specs.Prelude.{◌≡◌, ◌∷◌, [], IfOk, OnOk, length, map, string_bytes};
ghost use Rattle.rbc_picture.specs.Bands.{Covers};
ghost use Rattle.rbc_picture.specs.Panels.{bands_texts};
ghost use Rattle.rbc_picture.specs.Shown.{IsShownOn};
ghost use Rattle.rbc_picture.specs.Titles.{band_title};
ghost use Rattle.rbc_picture.specs.declared.bands.Band.{Band};

use crate::colours::{DOTS, LIMIT_EDGE, STOP_EDGE, STRIPES, WHITE};
use crate::document::{push_piece, push_text};
use crate::lanes::{Lanes, lanes_of};
use crate::pixels::{Side, Span};
use crate::shapes::{Area, Point};
use crate::short_words::bold_width;
use crate::stretches::{Active, Stretch};
use crate::svg::Svg;
use crate::texts::{Anchor, BAND};
use crate::titles::band_title;
use crate::window::Window;
use std::alloc::{AllocError, Global};

/// The least width of a band.
const LEAST_WIDTH: i64 = 20;

/// The height of a lane of bands.
const LANE: i64 = 220;

/// The height of a band.
const HEIGHT: i64 = 160;

/// Where the words of a band stand.
#[derive(Clone, Copy)]
pub(crate) enum Room {
    /// In the band.
    Inside,
    /// Beside the band.
    Beside(Side),
}

/// A band for a stretch.
#[derive(Drop)]
pub(crate) struct Band {
    pub stretch: Stretch,
    /// From its left edge to its right edge.
    pub body: Span,
    /// Its words.
    pub words: String,
    /// Where they stand.
    pub room: Room,
    /// The room of the band and its words.
    pub extent: Span,
}

/// Bands in lanes.
#[derive(Drop)]
pub(crate) struct Bands {
    pub all: Vec<Band>,
    pub lanes: Lanes,
}

/// The bands of stretches in a window, in lanes.
pub(crate) fn bands_of(
    alloc: Global,
    window: Window,
    stretches: &[Stretch],
) -> Result<Bands, AllocError>
    ensures { IfOk result (Covers stretches.now) }
{
    let all = all_bands(alloc, window, stretches)?;
    let lanes = lanes_of(alloc, &extents_of(alloc, &all)?)?;
    Ok(Bands { all, lanes })
}

/// The band of each stretch, in their order.
fn all_bands(alloc: Global, window: Window, stretches: &[Stretch]) -> Result<Vec<Band>, AllocError>
    ensures { IfOk result (λ bands. map (λ band. band.stretch) bands.items ≡ stretches.now) }
{
    let mut bands = Vec::new(alloc);
    for stretch in stretches {
        bands.push(band_of(alloc, window, *stretch)?)?;
    }
    Ok(bands)
}

/// The extents of bands.
fn extents_of(alloc: Global, bands: &[Band]) -> Result<Vec<Span>, AllocError>
    ensures { IfOk result (λ extents. length extents.items ≡ length bands.now) }
{
    bands.iter().map(|band| band.extent).collect(alloc)
}

/// The band of a stretch.
fn band_of(alloc: Global, window: Window, stretch: Stretch) -> Result<Band, AllocError>
    ensures { IfOk result (λ band. band.stretch ≡ stretch) }
{
    let words = format!(in alloc; "{stretch}")?;
    let left = window.x(stretch.from);
    let body = Span {
        left,
        right: window.x(stretch.to).max(left.saturating_add(LEAST_WIDTH)),
    };
    let need = bold_width(words.as_str(), 11).saturating_add(60);
    let (room, extent) = room_of(body, need);
    Ok(Band {
        stretch,
        body,
        words,
        room,
        extent,
    })
}

/// Where the words of a band stand, by the room that they need: in the band, else after it, else before it.
fn room_of(body: Span, need: i64) -> (Room, Span) {
    if body.right.saturating_sub(body.left) >= need.saturating_add(200) {
        return (Room::Inside, body);
    }
    let beyond = body.right.saturating_add(need);
    if beyond <= 11_600 {
        return (Room::Beside(Side::Right), body.with(beyond));
    }
    (
        Room::Beside(Side::Left),
        body.with(body.left.saturating_sub(need)),
    )
}

impl Bands {
    /// The height of all lanes.
    pub(crate) fn height(&self) -> i64 {
        lane_top(0, self.lanes.count)
    }

    /// Adds the bands of a line to a document, in lanes from `top` downwards.
    pub(crate) fn push(
        &self,
        alloc: Global,
        document: &mut String,
        line: usize,
        top: i64,
    ) -> Result<(), AllocError>
        ensures { OnOk result (IsShownOn (bands_texts line self.now) (string_bytes document.old)
            (string_bytes document.new)) }
    {
        for (index, band) in self.all.iter().enumerate() {
            let lane = self.lanes.of_items.get(index).copied().unwrap_or(0);
            band.push(alloc, document, line, lane_top(top, lane))?;
        }
        Ok(())
    }

    /// The parts of the panel that the bands cover. Bands that meet are one part.
    pub(crate) fn columns(&self, alloc: Global) -> Result<Vec<Span>, AllocError> {
        let mut from_left = Vec::new(alloc);
        for band in &self.all {
            from_left.push((band.body.left, band.body.right))?;
        }
        from_left.sort()?;
        let mut columns = Vec::new(alloc);
        let mut open_column: Option<Span> = None;
        for (left, right) in from_left {
            let next = Span { left, right };
            open_column = match open_column {
                Some(column) if column.meets(next) => Some(column.with(right)),
                Some(column) => {
                    columns.push(column)?;
                    Some(next)
                }
                None => Some(next),
            };
        }
        if let Some(column) = open_column {
            columns.push(column)?;
        }
        Ok(columns)
    }
}

/// The upper edge of a lane below a place.
fn lane_top(top: i64, lane: usize) -> i64 {
    let lanes = i64::try_from(lane).unwrap_or(i64::MAX);
    top.saturating_add(lanes.saturating_mul(LANE))
}

impl Band {
    /// Adds the band of a stretch of a line to a document.
    fn push(
        &self,
        alloc: Global,
        document: &mut String,
        line: usize,
        y: i64,
    ) -> Result<(), AllocError>
        ensures { OnOk result (IsShownOn (band_title line self.now.stretch ∷ []) (string_bytes document.old)
            (string_bytes document.new)) }
    {
        push_piece(document, Svg::of(alloc, "<g>\n"))?;
        push_text(document, band_title(alloc, line, self.stretch)?.as_str())?;
        push_piece(document, self.drawing(alloc, y))
    }

    /// The band below its title, with its words.
    fn drawing(&self, alloc: Global, y: i64) -> Svg {
        let mut svg = Svg::new(alloc);
        self.draw_body(&mut svg, y);
        self.draw_words(&mut svg, y);
        svg.end_group();
        svg
    }

    fn draw_body(&self, svg: &mut Svg, y: i64) {
        let area = Area {
            x: self.body.left,
            y,
            width: self.body.right.saturating_sub(self.body.left),
            height: HEIGHT,
        };
        match self.stretch.active {
            Active::Stop => svg.filled_box(area, STRIPES, STOP_EDGE),
            Active::Restriction { .. } => svg.filled_box(area, DOTS, LIMIT_EDGE),
        }
    }

    fn draw_words(&self, svg: &mut Svg, y: i64) {
        let (x, anchor) = match self.room {
            Room::Inside => {
                let middle = self.body.left.saturating_add(self.body.right) / 2;
                self.draw_ground(svg, middle, y);
                (middle, Anchor::Middle)
            }
            Room::Beside(Side::Right) => (self.body.right.saturating_add(50), Anchor::Start),
            Room::Beside(Side::Left) => (self.body.left.saturating_sub(50), Anchor::End),
        };
        let at = Point {
            x,
            y: y.saturating_add(120),
        };
        svg.text(at, anchor, BAND, self.words.as_str());
    }

    /// Draws the white ground below words in a band.
    fn draw_ground(&self, svg: &mut Svg, middle: i64, y: i64) {
        let half = (bold_width(self.words.as_str(), 11) / 2).saturating_add(30);
        let ground = Area {
            x: middle.saturating_sub(half),
            y: y.saturating_add(20),
            width: half.saturating_mul(2),
            height: 120,
        };
        svg.filled_box(ground, WHITE, " rx=\"3\"");
    }
}
