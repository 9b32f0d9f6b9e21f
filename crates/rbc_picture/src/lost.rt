//! The trains without a place.

ghost use Rattle.std.specs.Prelude.{◌≡◌, IfOk, OnOk, map, filter, string_bytes};
ghost use Rattle.rbc_picture.specs.Panels.{lost_texts};
ghost use Rattle.rbc_picture.specs.Shown.{IsShownOn};
ghost use Rattle.rbc_picture.specs.Titles.{train_texts};
ghost use Rattle.rbc_picture.specs.Trains.{is_listed_in, train_shown};

use crate::colours::{DASHED_EDGE, WHITE};
use crate::document::push_piece;
use crate::label::{engine_words, need_of, revoked_list};
use crate::selection::Selection;
use crate::shapes::{Area, Point, moved};
use crate::short_words::{bold_width, fitting_list};
use crate::svg::Svg;
use crate::texts::{Anchor, ENGINE, HEADING, NOTE, UNTOLD};
use crate::train_state::TrainState;
use crate::train_texts::push_train;
use std::alloc::{AllocError, Global};

/// How many boxes stand in a row.
const IN_A_ROW: usize = 4;

/// A train without a place, in a box.
#[derive(Drop)]
pub(crate) struct LostTrain<'a> {
    pub train: &'a TrainState,
    engine: String,
    /// The revocations that it has not acknowledged, or no text.
    revoked: String,
    /// The stops and restrictions that it is not told, or no text.
    untold: String,
    /// The stops and restrictions that it is told, or no text.
    told: String,
    /// Whether it has answered all stops that it is told by message 16, if it is told any.
    at_once: Option<bool>,
}

/// The trains without a place that a selection lists, in their order, with their revocations or without them.
pub(crate) fn lost_of<'a>(
    alloc: Global,
    trains: &'a [TrainState],
    selection: &Selection<'_>,
    has_revocations: bool,
) -> Result<Vec<LostTrain<'a>>, AllocError>
    ensures { IfOk result (λ lost. map (λ train. train.train.now) lost.items
        ≡ filter (is_listed_in selection.now) trains.now) }
{
    let mut lost = Vec::new(alloc);
    for train in trains {
        if train.is_listed(selection) {
            lost.push(lost_train(alloc, train, has_revocations)?)?;
        }
    }
    Ok(lost)
}

/// A train without a place, with its revocations or without them.
fn lost_train<'a>(
    alloc: Global,
    train: &'a TrainState,
    has_revocations: bool,
) -> Result<LostTrain<'a>, AllocError>
    ensures { IfOk result (λ lost. lost.train.now ≡ train.now) }
{
    let engine = engine_words(alloc, train.engine)?;
    let room = 2_340i64.saturating_sub(bold_width(engine.as_str(), 13));
    let revoked = if has_revocations {
        revoked_list(alloc, train)?
    } else {
        String::new(alloc)
    };
    let room = room.saturating_sub(need_of(revoked.as_str()));
    let untold = fitting_list(alloc, "NOT TOLD ", &train.untold_words(alloc)?, 2, room)?;
    let told = fitting_list(alloc, "", &train.told_words(alloc)?, 4, room)?;
    let at_once = match train.at_once(alloc)? {
        Some(stops) => Some(stops.is_answered),
        None => None,
    };
    Ok(LostTrain {
        train,
        engine,
        revoked,
        untold,
        told,
        at_once,
    })
}

/// Where the part with the trains without a place ends, if it begins at `top`.
pub(crate) fn lost_end(top: i64, trains: usize) -> i64 {
    row_top(top, trains.div_ceil(IN_A_ROW)).saturating_add(60)
}

/// Where a row of boxes begins.
fn row_top(top: i64, row: usize) -> i64 {
    let rows = i64::try_from(row).unwrap_or(i64::MAX);
    top.saturating_add(260)
        .saturating_add(rows.saturating_mul(300))
}

/// Where a box stands, by its index.
fn box_corner(top: i64, index: usize) -> Point {
    let column = i64::try_from(index % IN_A_ROW).unwrap_or(0);
    Point {
        x: column.saturating_mul(2_800).saturating_add(400),
        y: row_top(top, index / IN_A_ROW),
    }
}

/// Adds the trains without a place to a document, from `top` downwards.
pub(crate) fn push_lost(
    alloc: Global,
    document: &mut String,
    lost: &[LostTrain<'_>],
    top: i64,
) -> Result<(), AllocError>
    ensures { OnOk result (IsShownOn (lost_texts lost.now) (string_bytes document.old)
        (string_bytes document.new)) }
{
    push_piece(document, heading(alloc, top.saturating_add(160)))?;
    push_boxes(alloc, document, lost, top)?;
    push_piece(document, Svg::of(alloc, "</g>\n"))
}

/// The heading of the trains without a place.
fn heading(alloc: Global, y: i64) -> Svg {
    let mut svg = Svg::new(alloc);
    svg.begin_group();
    svg.text(
        Point { x: 400, y },
        Anchor::Start,
        HEADING,
        "Trains without a place",
    );
    svg.text(
        Point { x: 11_600, y },
        Anchor::End,
        NOTE,
        "they may be anywhere, so each is stopped at once by every stop",
    );
    svg
}

/// Adds the box of each train.
fn push_boxes(
    alloc: Global,
    document: &mut String,
    lost: &[LostTrain<'_>],
    top: i64,
) -> Result<(), AllocError>
    ensures { OnOk result (IsShownOn (lost_texts lost.now) (string_bytes document.old)
        (string_bytes document.new)) }
{
    for (index, train) in lost.iter().enumerate() {
        train.push(alloc, document, box_corner(top, index))?;
    }
    Ok(())
}

impl LostTrain<'_> {
    /// Adds the box of the train to a document.
    fn push(&self, alloc: Global, document: &mut String, corner: Point) -> Result<(), AllocError>
        ensures { OnOk result (IsShownOn (train_texts (train_shown self.now.train.now)) (string_bytes document.old)
            (string_bytes document.new)) }
    {
        push_piece(document, Svg::of(alloc, "<g>\n"))?;
        push_train(alloc, document, self.train)?;
        push_piece(document, self.drawing(alloc, corner))
    }

    /// The box of the train below its title.
    fn drawing(&self, alloc: Global, corner: Point) -> Svg {
        let mut svg = Svg::new(alloc);
        let area = Area {
            x: corner.x,
            y: corner.y,
            width: 2_700,
            height: 240,
        };
        svg.filled_box(area, WHITE, DASHED_EDGE);
        if let Some(is_answered) = self.at_once {
            svg.octagon(moved(corner, 130, 120), 70, is_answered);
        }
        self.draw_words(&mut svg, corner);
        svg.end_group();
        svg
    }

    /// Writes its engine, its revocations, and then the stops and restrictions that it is not told, or else those that
    /// it is told.
    fn draw_words(&self, svg: &mut Svg, corner: Point) {
        let engine = self.engine.as_str();
        svg.text(moved(corner, 260, 165), Anchor::Start, ENGINE, engine);
        let mut behind = moved(corner, bold_width(engine, 13).saturating_add(320), 165);
        let revoked = self.revoked.as_str();
        if !revoked.is_empty() {
            svg.text(behind, Anchor::Start, NOTE, revoked);
            behind = moved(behind, need_of(revoked), 0);
        }
        if !self.untold.is_empty() {
            svg.text(behind, Anchor::Start, UNTOLD, self.untold.as_str());
        } else if !self.told.is_empty() {
            svg.text(behind, Anchor::Start, NOTE, self.told.as_str());
        }
    }
}
