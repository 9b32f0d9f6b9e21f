//! The parts of a picture, one below the other, and the whole document.

ghost use Rattle.std.specs.Prelude.{IfOk, OnOk, string_bytes};
ghost use Rattle.std.specs.List.{flat_map};
ghost use Rattle.rbc_picture.specs.Panels.{ShowEachPart, ShowsAll, panel_texts, plan_texts, scene_texts};
ghost use Rattle.rbc_picture.specs.Shown.{IsShownOn, StandIn};

use crate::document::push_piece;
use crate::head::{head_end, push_head};
use crate::lost::{LostTrain, lost_end, lost_of, push_lost};
use crate::panel::{Frame, Panel, panel_of};
use crate::scene::{Scene, reaches_of, window_of};
use crate::shapes::{Point, Stroke};
use crate::svg::Svg;
use crate::window::Reach;
use std::alloc::{AllocError, Global};

/// The distance from the end of a part to the next part.
const BETWEEN: i64 = 100;

/// The line between two parts.
const RULE: Stroke = Stroke {
    colour: "#BFBFBF",
    width: "1",
    dashes: None,
};

/// The parts of a picture below its head.
#[derive(Drop)]
pub(crate) struct Plan<'a> {
    /// The panel of each part.
    pub panels: Vec<Panel<'a>>,
    /// The trains without a place that are listed.
    pub lost: Vec<LostTrain<'a>>,
    /// Where the trains without a place begin, in tenths of a pixel.
    lost_top: i64,
}

/// Plans a picture.
pub(crate) fn plan_of<'a>(alloc: Global, scene: &Scene<'a>) -> Result<Plan<'a>, AllocError>
    ensures { IfOk result (ShowsAll scene.now) }
{
    let panels = panels_of(alloc, scene)?;
    let lost = lost_of(alloc, scene.trains, scene.selection, scene.has_marks)?;
    let lost_top = next_top(last_end(&panels, scene));
    Ok(Plan {
        panels,
        lost,
        lost_top,
    })
}

/// The panels of all parts, one below the other.
fn panels_of<'a>(alloc: Global, scene: &Scene<'a>) -> Result<Vec<Panel<'a>>, AllocError>
    ensures { IfOk result (λ panels. ShowEachPart scene.now scene.now.parts.now panels.items) }
{
    let reaches = reaches_of(alloc, scene)?;
    let lines = scene.track.lines.as_slice();
    let has_bars = scales_differ(scene, &reaches);
    let parts = scene.parts;
    let mut panels = Vec::new(alloc);
    let mut top = next_top(head_end(scene));
    for part in parts {
        let window = window_of(lines, &reaches, part);
        let Some(about) = lines.get(part.line as usize) else {
            return Err(AllocError);
        };
        let panel = panel_of(
            alloc,
            scene,
            *part,
            about,
            Frame {
                window,
                has_bars,
                top,
            },
        )?;
        top = next_top(panel.end());
        panels.push(panel)?;
    }
    Ok(panels)
}

/// Whether the panels of a selection show their lines to different scales, so that each has a bar for its own.
fn scales_differ(scene: &Scene<'_>, reaches: &[Reach]) -> bool {
    if scene.selection.is_whole() {
        return false;
    }
    let lines = scene.track.lines.as_slice();
    let mut first = None;
    for part in scene.parts {
        let length = window_of(lines, reaches, part).length();
        if first.is_some_and(|first| first != length) {
            return true;
        }
        first = Some(length);
    }
    false
}

/// Where the next part begins, by where the last one ends.
fn next_top(end: i64) -> i64 {
    end.saturating_add(BETWEEN)
}

/// Where the last panel ends, or the head if there is no panel.
fn last_end(panels: &[Panel<'_>], scene: &Scene<'_>) -> i64 {
    match panels.last() {
        Some(panel) => panel.end(),
        None => head_end(scene),
    }
}

impl Plan<'_> {
    /// The height of the picture, in pixels.
    fn height(&self) -> u64 {
        let end = if self.lost.is_empty() {
            self.lost_top.saturating_sub(BETWEEN)
        } else {
            lost_end(self.lost_top, self.lost.len())
        };
        u64::try_from(end.saturating_add(200) / 10).unwrap_or(0)
    }

    /// Adds the panels to a document, and the trains without a place if there are any.
    fn push(&self, alloc: Global, document: &mut String) -> Result<(), AllocError>
        ensures { OnOk result (IsShownOn (plan_texts self.now) (string_bytes document.old)
            (string_bytes document.new)) }
    {
        self.push_panels(alloc, document)?;
        let lost = self.lost.as_slice();
        if lost.is_empty() {
            return Ok(());
        }
        push_piece(document, rule(alloc, self.lost_top))?;
        push_lost(alloc, document, lost, self.lost_top)
    }

    /// Adds the panels to a document.
    fn push_panels(&self, alloc: Global, document: &mut String) -> Result<(), AllocError>
        ensures { OnOk result (IsShownOn (flat_map panel_texts self.now.panels.items) (string_bytes document.old)
            (string_bytes document.new)) }
    {
        for panel in &self.panels {
            push_piece(document, rule(alloc, panel.top))?;
            panel.push(alloc, document)?;
        }
        Ok(())
    }
}

/// The line above a part.
fn rule(alloc: Global, top: i64) -> Svg {
    let mut svg = Svg::new(alloc);
    let y = top.saturating_sub(60);
    svg.line(Point { x: 400, y }, Point { x: 11_600, y }, RULE);
    svg
}

/// Writes the whole document.
pub(crate) fn document_of(alloc: Global, scene: &Scene<'_>) -> Result<String, AllocError>
    ensures { IfOk result (λ document. StandIn (scene_texts scene.now) (string_bytes document)) }
{
    let plan = plan_of(alloc, scene)?;
    let mut document = String::new(alloc);
    push_piece(&mut document, beginning(alloc, plan.height()))?;
    push_head(alloc, &mut document, scene, plan.height())?;
    plan.push(alloc, &mut document)?;
    push_piece(&mut document, Svg::of(alloc, "</svg>\n"))?;
    Ok(document)
}

/// The beginning of the document.
fn beginning(alloc: Global, height: u64) -> Svg {
    let mut svg = Svg::new(alloc);
    svg.words("<svg xmlns=\"http://www.w3.org/2000/svg\" viewBox=\"0 0 1200 ");
    svg.number(height);
    svg.words("\" width=\"1200\" height=\"");
    svg.number(height);
    svg.words("\" role=\"img\" aria-labelledby=\"title desc\" lang=\"en\"");
    svg.words(" font-family=\"DejaVu Sans, Verdana, Arial, sans-serif\">\n");
    svg
}
