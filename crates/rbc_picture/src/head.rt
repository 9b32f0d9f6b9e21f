//! What stands above the panels: the titles of the document, what is drawn and what is left out, the summary and the
//! legend.

ghost use Rattle.std.specs.Prelude.{OnOk, string_bytes};
ghost use Rattle.rbc_picture.specs.Panels.{scene_left};
ghost use Rattle.rbc_picture.specs.Selections.{left_texts};
ghost use Rattle.rbc_picture.specs.Shown.{IsShownOn};

use crate::document::{push_piece, push_text};
use crate::legend::{draw_legend, legend_height};
use crate::parts::{is_drawn, left_text, trains_left};
use crate::scene::{Scene, Sums};
use crate::selection::{LinePart, Selection};
use crate::shapes::Point;
use crate::svg::Svg;
use crate::texts::{Anchor, LACK, SCOPE, SUMMARY, TITLE};
use rbc_zones::Segment;
use std::alloc::{AllocError, Global};

/// The left edge of all words.
pub(crate) const LEFT: i64 = 400;

/// The height of the line that says what is drawn.
const SCOPE_HEIGHT: i64 = 240;

/// The height of a line that says how much is not told.
const LACK_HEIGHT: i64 = 220;

const PATTERNS: &str = "<defs>
<pattern id=\"stop\" width=\"8\" height=\"8\" patternUnits=\"userSpaceOnUse\" patternTransform=\"rotate(45)\">\
<rect width=\"8\" height=\"8\" fill=\"#FBE3D4\"/><rect width=\"3\" height=\"8\" fill=\"#D55E00\"/></pattern>
<pattern id=\"limit\" width=\"8\" height=\"8\" patternUnits=\"userSpaceOnUse\">\
<rect width=\"8\" height=\"8\" fill=\"#D6E8F5\"/><circle cx=\"4\" cy=\"4\" r=\"1.8\" fill=\"#0072B2\"/></pattern>
</defs>
";

/// Adds what stands above the panels: the titles, the ground and the head.
pub(crate) fn push_head(
    alloc: Global,
    document: &mut String,
    scene: &Scene<'_>,
    height: u64,
) -> Result<(), AllocError>
    ensures { OnOk result (IsShownOn (left_texts scene.now.selection.now (scene_left scene.now))
        (string_bytes document.old) (string_bytes document.new)) }
{
    if scene.selection.is_whole() {
        return push_piece(document, whole_head(alloc, scene, height));
    }
    let left = left_text(
        alloc,
        scene.selection,
        scene.parts,
        scene.track.lines.len(),
        scene.trains,
    )?;
    let left = left.as_str();
    push_piece(document, title_tag(alloc, scene))?;
    push_text(document, left)?;
    push_piece(document, below_title(alloc, scene, height, left))?;
    push_text(document, left)?;
    push_piece(document, below_scope(alloc, scene))
}

/// What stands above the panels of the whole track.
fn whole_head(alloc: Global, scene: &Scene<'_>, height: u64) -> Svg {
    let mut svg = title_tag(alloc, scene);
    write_description(&mut svg, scene, "");
    draw_ground(&mut svg, height);
    draw_title(&mut svg, scene);
    draw_head(&mut svg, scene);
    svg
}

/// The title of the document, up to what is left out.
fn title_tag(alloc: Global, scene: &Scene<'_>) -> Svg {
    let mut svg = Svg::of(alloc, "<title id=\"title\">");
    svg.title_words(scene);
    svg.scope_words(scene, ", ");
    svg
}

/// From the title to the line of the head that says what is drawn, up to what is left out.
fn below_title(alloc: Global, scene: &Scene<'_>, height: u64, left: &str) -> Svg {
    let mut svg = Svg::new(alloc);
    write_description(&mut svg, scene, left);
    draw_ground(&mut svg, height);
    draw_title(&mut svg, scene);
    begin_scope(&mut svg, scene);
    svg
}

/// The rest of the head.
fn below_scope(alloc: Global, scene: &Scene<'_>) -> Svg {
    let mut svg = Svg::of(alloc, ".");
    svg.end_words();
    draw_head(&mut svg, scene);
    svg
}

/// Draws the white ground of the whole picture, after the patterns.
fn draw_ground(svg: &mut Svg, height: u64) {
    svg.words(PATTERNS);
    svg.words("<rect width=\"1200\" height=\"");
    svg.number(height);
    svg.words("\" fill=\"#FFFFFF\"/>\n");
}

/// Ends the title, and writes the description of the document in words, with what is left out.
fn write_description(svg: &mut Svg, scene: &Scene<'_>, left: &str) {
    svg.words("</title>\n<desc id=\"desc\">");
    svg.title_words(scene);
    svg.scope_words(scene, ", ");
    svg.words(left);
    svg.words(". ");
    svg.summary_words(scene);
    for (number, area) in scene.stops {
        if draws_stop(scene.parts, area.segments()) {
            svg.stop_sentence(*number, area.segments());
        }
    }
    for (number, limit) in scene.limits {
        if draws_segment(scene.parts, &limit.segment()) {
            svg.limit_sentence(*number, limit);
        }
    }
    for train in scene.trains {
        if is_drawn(scene.selection, scene.parts, train) {
            svg.words(" ");
            svg.train_sentences(train);
        }
    }
    svg.words("</desc>\n");
}

/// Whether a stretch of a stop is drawn.
fn draws_stop(parts: &[LinePart], segments: &[Segment]) -> bool {
    segments.iter().any(|segment| draws_segment(parts, segment))
}

/// Whether a segment meets a part that is drawn.
fn draws_segment(parts: &[LinePart], segment: &Segment) -> bool {
    parts.iter().any(|part| part.line == segment.line && part.meets(segment.from, segment.to))
}

/// Where the head ends.
pub(crate) fn head_end(scene: &Scene<'_>) -> i64 {
    legend_top(scene).saturating_add(legend_height(scene.has_marks))
}

/// Where the legend begins.
fn legend_top(scene: &Scene<'_>) -> i64 {
    let sums = &scene.sums;
    lack_top(sums.untold_again, lack_top(sums.untold, summary_end(scene))).saturating_add(60)
}

/// Where the summary ends. What is drawn is said above it, unless that is the whole track.
fn summary_end(scene: &Scene<'_>) -> i64 {
    let scope = if scene.selection.is_whole() {
        0
    } else {
        SCOPE_HEIGHT
    };
    scope.saturating_add(580)
}

/// Where a line that says how much is not told ends. There is none if nothing is.
fn lack_top(number: usize, top: i64) -> i64 {
    if number == 0 {
        return top;
    }
    top.saturating_add(LACK_HEIGHT)
}

impl Svg {
    /// Adds the title of a picture: `Track "NAME" after 8 of 12 inputs`.
    fn title_words(&mut self, scene: &Scene<'_>) {
        self.words("Track");
        self.name(&scene.track.name);
        self.words(" after ");
        self.number(scene.sums.taken);
        self.words(" of ");
        self.count(scene.sums.inputs, "input");
    }

    /// Adds what is drawn of the track after other words, or nothing if that is the whole track.
    fn scope_words(&mut self, scene: &Scene<'_>, before: &str) {
        match scene.selection {
            Selection::All => {}
            Selection::Busy => {
                self.words(before);
                self.words("lines with a train, a stop or a restriction");
            }
            Selection::Lines(parts) => {
                self.words(before);
                self.parts_words(parts);
            }
            Selection::Train(engine) => {
                self.words(before);
                self.words("train ");
                self.number(u64::from(*engine));
                self.place_of_parts(scene.parts);
            }
        }
    }

    /// Adds which parts of lines are drawn, or how many, if there are several.
    fn parts_words(&mut self, parts: &[LinePart]) {
        if let [part] = parts {
            self.part_words(part);
        } else {
            self.number(parts.len() as u64);
            self.words(" lines or parts of lines");
        }
    }

    /// Adds where the train that is asked for is drawn.
    fn place_of_parts(&mut self, parts: &[LinePart]) {
        match parts {
            [part] => {
                self.words(" on ");
                self.part_words(part);
            }
            _ => self.words(", which has no place"),
        }
    }

    /// Adds a part of a line: `line 0 from km 8.400 to km 17.500`.
    fn part_words(&mut self, part: &LinePart) {
        self.words("line ");
        self.number(u64::from(part.line));
        if let Some((from, to)) = part.part {
            self.words(" from ");
            self.from_to(from, to);
        }
    }

    /// Adds the summary of a picture, which counts what is on the whole track.
    fn summary_words(&mut self, scene: &Scene<'_>) {
        if !scene.selection.is_whole() {
            self.words("On the whole track: ");
        }
        let unplaced = scene.trains.iter().filter(|train| train.is_unplaced());
        self.count(scene.trains.len(), "train");
        self.words(", ");
        self.number(unplaced.count() as u64);
        self.words(" without a place; ");
        self.count(scene.stops.len(), "stop");
        self.words(" and ");
        self.count(scene.limits.len(), "restriction");
        self.words(" active; ");
        match scene.sums.acknowledgements {
            0 => self.words("no acknowledgements"),
            number => self.count(number, "acknowledgement"),
        }
        self.words(" outstanding.");
    }
}

/// Draws the title.
fn draw_title(svg: &mut Svg, scene: &Scene<'_>) {
    svg.begin_words(Point { x: LEFT, y: 300 }, Anchor::Start, TITLE);
    svg.title_words(scene);
    svg.end_words();
}

/// Begins the line that says what is drawn, up to what is left out.
fn begin_scope(svg: &mut Svg, scene: &Scene<'_>) {
    svg.begin_words(Point { x: LEFT, y: 530 }, Anchor::Start, SCOPE);
    svg.scope_words(scene, "Drawn: ");
}

/// Draws the summary, what is not told, and the legend.
fn draw_head(svg: &mut Svg, scene: &Scene<'_>) {
    let top = summary_end(scene);
    let at = Point {
        x: LEFT,
        y: top.saturating_sub(50),
    };
    svg.begin_words(at, Anchor::Start, SUMMARY);
    svg.summary_words(scene);
    svg.end_words();
    draw_lacks(svg, &scene.sums, top, lacks_end(scene));
    draw_legend(svg, legend_top(scene), scene.has_marks);
}

/// The words after what is not told: all of it is marked below, unless trains are left out.
fn lacks_end(scene: &Scene<'_>) -> &'static str {
    if trains_left(scene.selection, scene.parts, scene.trains) == 0 {
        " below."
    } else {
        " below, or at trains that are left out."
    }
}

/// Writes how much is not told, and how much is not told again, if anything is, from `top` downwards.
fn draw_lacks(svg: &mut Svg, sums: &Sums, top: i64, end: &str) {
    if sums.untold > 0 {
        begin_lack(svg, top);
        svg.words("NOT TOLD: ");
        svg.number(sums.untold as u64);
        svg.words(if sums.untold == 1 {
            " stop or restriction"
        } else {
            " stops and restrictions"
        });
        svg.words(", marked");
        svg.words(end);
        svg.end_words();
    }
    if sums.untold_again > 0 {
        begin_lack(svg, lack_top(sums.untold, top));
        svg.words("NOT TOLD AGAIN: ");
        svg.count(sums.untold_again, "stop");
        svg.words(", marked with !");
        svg.words(end);
        svg.end_words();
    }
}

/// Begins a line that says how much is not told.
fn begin_lack(svg: &mut Svg, top: i64) {
    let at = Point {
        x: LEFT,
        y: top.saturating_add(160),
    };
    svg.begin_words(at, Anchor::Start, LACK);
}
