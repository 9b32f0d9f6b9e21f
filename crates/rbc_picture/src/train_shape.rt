//! How a train is drawn on its line.

ghost use Rattle.std.specs.Prelude.{◌≡◌, IfOk, OnOk, pos, string_bytes};
ghost use Rattle.rbc_picture.specs.Shown.{IsShownOn};
ghost use Rattle.rbc_picture.specs.Titles.{train_texts};
ghost use Rattle.rbc_picture.specs.Trains.{end_at, train_shown};
ghost use Rattle.rbc_picture.specs.Window.{x_at};

use crate::colours::DARK;
use crate::document::push_piece;
use crate::label::{Label, label_of};
use crate::nearness::marks_of;
use crate::pixels::{Side, Span};
use crate::posts::{Arrow, Posts, Taken, place_words, posts_of, spread_signs};
use crate::scene::Scene;
use crate::shapes::{Point, Stroke, moved};
use crate::short_words::{bold_width, short_list};
use crate::svg::Svg;
use crate::texts::{Anchor, SIGN};
use crate::train_state::TrainState;
use crate::train_texts::push_train;
use crate::window::Window;
use rbc_place::Place;
use rbc_track::Way;
use std::alloc::{AllocError, Global};

/// The least length of a train on the picture.
const LEAST_LENGTH: i64 = 120;

/// The line from a train to the place before which it is told to stop.
pub(crate) const TOLD: Stroke = Stroke {
    colour: "#D55E00",
    width: "2",
    dashes: Some("6 4"),
};

/// The post at such a place.
pub(crate) const POST: Stroke = Stroke {
    colour: "#D55E00",
    width: "3",
    dashes: None,
};

/// The sign of the stops that a train is told by message 16.
#[derive(Drop)]
pub(crate) struct NowSign {
    pub words: String,
    pub is_answered: bool,
}

/// A train on its line.
#[derive(Drop)]
pub(crate) struct TrainShape<'a> {
    /// The train.
    pub train: &'a TrainState,
    arrow: Arrow,
    /// Whether its front lies in the window, so that the arrow has a nose.
    has_nose: bool,
    label: Label,
    now: Option<NowSign>,
    posts: Posts,
}

/// The shape of a train at its place on a line. In a crowd it has no posts.
pub(crate) fn shape_of<'a>(
    alloc: Global,
    scene: &Scene<'_>,
    train: &'a TrainState,
    place: Place,
    window: Window,
    is_crowded: bool,
) -> Result<TrainShape<'a>, AllocError>
    ensures { IfOk result (λ shape. shape.train.now ≡ train.now) }
{
    let (body, side) = body_of(place, window);
    let arrow = Arrow { body, side };
    let marks = marks_of(alloc, scene, train, &place)?;
    let now = now_sign(alloc, train)?;
    let posts = if is_crowded {
        Posts::none(alloc)
    } else {
        placed_posts(alloc, scene, train, place, window, arrow)?
    };
    Ok(TrainShape {
        train,
        arrow,
        has_nose: window.has(front_place(place)),
        label: label_of(
            alloc,
            train,
            body,
            &marks,
            scene.selection.names(train.engine),
        )?,
        now,
        posts,
    })
}

/// The posts of a train, with room for their words.
fn placed_posts(
    alloc: Global,
    scene: &Scene<'_>,
    train: &TrainState,
    place: Place,
    window: Window,
    arrow: Arrow,
) -> Result<Posts, AllocError> {
    let is_whole = scene.selection.is_whole();
    let has_sign = train.is_told_at_once();
    let mut posts = posts_of(
        alloc,
        train,
        u32::from(place.line()),
        window,
        arrow,
        is_whole,
    )?;
    if !is_whole {
        spread_signs(posts.all.as_mut_slice(), arrow, has_sign);
    }
    let mut taken = Taken::by(alloc, &posts.all, parts_of(alloc, arrow, has_sign)?)?;
    place_words(&mut posts.all, &mut taken, arrow.side)?;
    Ok(posts)
}

/// Where a train has its front at the farthest.
fn front_place(place: Place) -> u32 {
    match place.facing() {
        Way::Up => place.hi(),
        Way::Down => place.lo(),
    }
}

/// Where a train stands on the picture, and the side to which it faces. Its front is exact. A train that would be too
/// short is drawn longer at its rear.
fn body_of(place: Place, window: Window) -> (Span, Side)
    ensures { end_at place.facing result.0.left result.0.right
        ≡ pos (x_at window.low window.high (end_at place.facing place.lo place.hi)) }
{
    let (left, right) = (window.x(place.lo()), window.x(place.hi()));
    match place.facing() {
        Way::Up => {
            let rear = left.min(right.saturating_sub(LEAST_LENGTH));
            (Span { left: rear, right }, Side::Right)
        }
        Way::Down => {
            let rear = right.max(left.saturating_add(LEAST_LENGTH));
            (Span { left, right: rear }, Side::Left)
        }
    }
}

/// The sign of the stops that a train is told by message 16, if there are any.
fn now_sign(alloc: Global, train: &TrainState) -> Result<Option<NowSign>, AllocError> {
    match train.at_once(alloc)? {
        Some(stops) => Ok(Some(NowSign {
            words: short_list(alloc, "", &stops.words, 2)?,
            is_answered: stops.is_answered,
        })),
        None => Ok(None),
    }
}

/// The parts that a train takes: the sign before its front, if there is one, and the train itself if it is short.
fn parts_of(alloc: Global, arrow: Arrow, has_sign: bool) -> Result<Vec<Span>, AllocError> {
    let mut parts = Vec::new(alloc);
    if has_sign {
        let (front, side) = (arrow.front(), arrow.side);
        parts.push(Span::between(side.from(front, 10), side.from(front, 170)))?;
    }
    if arrow.body.right.saturating_sub(arrow.body.left) <= 400 {
        parts.push(arrow.body)?;
    }
    Ok(parts)
}

impl TrainShape<'_> {
    /// The room of the train with its label, its signs and their words.
    pub(crate) fn extent(&self) -> Span {
        let label = self.label.extent();
        let mut extent = self.arrow.body.with(label.left).with(label.right);
        if let Some(sign) = &self.now {
            let (front, side) = (self.arrow.front(), self.arrow.side);
            extent = extent
                .with(side.from(front, 160))
                .with(side.from(front, sign.reach()));
        }
        for way in &self.posts.ways {
            extent = extent.with(*way);
        }
        for post in &self.posts.all {
            extent = extent.with(post.sign);
            if let Some(side) = post.side {
                let room = post.room(side);
                extent = extent.with(room.left).with(room.right);
            }
        }
        extent
    }

    /// Adds the train to a document, in a row.
    pub(crate) fn push(
        &self,
        alloc: Global,
        document: &mut String,
        y: i64,
    ) -> Result<(), AllocError>
        ensures { OnOk result (IsShownOn (train_texts (train_shown self.entry.now.train.now))
            (string_bytes document.old) (string_bytes document.new)) }
    {
        push_piece(document, Svg::of(alloc, "<g>\n"))?;
        push_train(alloc, document, self.train)?;
        push_piece(document, self.drawing(alloc, y))
    }

    /// The train below its title.
    fn drawing(&self, alloc: Global, y: i64) -> Svg {
        let mut svg = Svg::new(alloc);
        self.label.draw(&mut svg, y.saturating_sub(110));
        self.draw_ways(&mut svg, y);
        self.draw_arrow(&mut svg, y);
        self.draw_posts(&mut svg, y);
        self.draw_now(&mut svg, y);
        svg.end_group();
        svg
    }

    /// Draws a line to each post.
    fn draw_ways(&self, svg: &mut Svg, y: i64) {
        let front = self.arrow.front();
        for way in &self.posts.ways {
            svg.line(Point { x: front, y }, Point { x: *way, y }, TOLD);
        }
    }

    /// Draws the train itself.
    fn draw_arrow(&self, svg: &mut Svg, y: i64) {
        let Arrow { body, side } = self.arrow;
        let length = body.right.saturating_sub(body.left);
        let nose = if self.has_nose {
            (length.saturating_mul(6) / 10).min(90)
        } else {
            0
        };
        let (front, rear) = match side {
            Side::Right => (body.right, body.left),
            Side::Left => (body.left, body.right),
        };
        let tip = Point { x: front, y };
        let shoulder = Point {
            x: side.other().from(front, nose),
            y,
        };
        let tail = Point { x: rear, y };
        let corners = [
            moved(tail, 0, -60),
            moved(shoulder, 0, -60),
            tip,
            moved(shoulder, 0, 60),
            moved(tail, 0, 60),
        ];
        svg.polygon(&corners, DARK, "");
    }

    /// Draws each post with its sign and its words.
    fn draw_posts(&self, svg: &mut Svg, y: i64) {
        for post in &self.posts.all {
            let at = Point { x: post.x, y };
            svg.line(moved(at, 0, -110), moved(at, 0, 110), POST);
            svg.octagon(Point { x: post.sign, y }, 60, post.is_answered);
            if let Some(side) = post.side {
                let x = side.from(post.sign, 100);
                draw_sign_words(svg, side, Point { x, y }, post.words.as_str());
            }
        }
    }

    /// Draws the sign of the stops that the train is told by message 16, and its words if there is room for them.
    fn draw_now(&self, svg: &mut Svg, y: i64) {
        if let Some(sign) = &self.now {
            let (front, side) = (self.arrow.front(), self.arrow.side);
            let centre = Point {
                x: side.from(front, 90),
                y,
            };
            svg.octagon(centre, 70, sign.is_answered);
            if self.has_room(front, sign) {
                let x = side.from(front, 190);
                draw_sign_words(svg, side, Point { x, y }, sign.words.as_str());
            }
        }
    }

    /// Whether there is room for the words of the sign before the front.
    fn has_room(&self, front: i64, sign: &NowSign) -> bool {
        let end = self.arrow.side.from(front, sign.reach());
        let need = u64::try_from(sign.reach().saturating_add(100)).unwrap_or(u64::MAX);
        Span::between(end, end).is_inside()
            && self
                .posts
                .all
                .iter()
                .all(|post| post.sign.abs_diff(front) > need)
    }
}

impl NowSign {
    /// How far from the front its words end.
    fn reach(&self) -> i64 {
        bold_width(self.words.as_str(), 11).saturating_add(200)
    }
}

/// Writes the words beside a sign.
fn draw_sign_words(svg: &mut Svg, side: Side, at: Point, words: &str) {
    svg.text_with_halo(moved(at, 0, 40), Anchor::of(side), SIGN, words);
}
