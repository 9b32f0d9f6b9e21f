//! The places before which a train is told to stop.

use crate::pixels::{Side, Span};
use crate::short_words::{ShortWord, bold_width, short_list};
use crate::train_state::{StopSlot, TrainState};
use crate::window::Window;
use rbc_ids::Slot;
use std::alloc::{AllocError, Global};

/// The least distance between the middles of two signs that stand beside one another, in tenths of a pixel.
const SIGNS_APART: i64 = 130;

/// The arrow of a train on the picture.
#[derive(Clone, Copy)]
pub(crate) struct Arrow {
    /// From its left end to its right end.
    pub body: Span,
    /// The side to which it faces.
    pub side: Side,
}

impl Arrow {
    /// The end of the arrow at the front of the train.
    pub(crate) fn front(self) -> i64 {
        match self.side {
            Side::Right => self.body.right,
            Side::Left => self.body.left,
        }
    }
}

/// What shows the places before which a train is told to stop.
#[derive(Drop)]
pub(crate) struct Posts {
    /// Where the lines from the train to such places end. A place outside the window has its line, and no post.
    pub ways: Vec<i64>,
    /// The posts, in the order in which they get room.
    pub all: Vec<Post>,
}

/// A post at a place before which a train is told to stop.
#[derive(Drop)]
pub(crate) struct Post {
    /// Where it stands, in tenths of a pixel.
    pub x: i64,
    /// The middle of its sign.
    pub sign: i64,
    /// The stops before which the train is told to stop there.
    pub words: String,
    /// Whether the train has answered all of them.
    pub is_answered: bool,
    /// The side on which its words stand, if there is room for them.
    pub side: Option<Side>,
}

/// A stop that a train is told conditionally: where it is to stop, the number, and whether it has answered.
#[derive(Clone, Copy, PartialEq, Eq, PartialOrd, Ord)]
struct Told {
    x: i64,
    number: u32,
    is_answered: bool,
    /// Whether the place lies in the window.
    is_shown: bool,
}

/// Stops of one place.
#[derive(Drop)]
struct Signs {
    x: i64,
    words: Vec<ShortWord>,
    is_answered: bool,
    is_shown: bool,
}

impl Posts {
    /// No posts.
    pub(crate) fn none(alloc: Global) -> Posts {
        Posts {
            ways: Vec::new(alloc),
            all: Vec::new(alloc),
        }
    }
}

/// The posts of a train on its line. Stops before one place have one post. In a picture of the whole track they come
/// from left to right, each with its sign at its place; else the nearest comes first, and signs that would meet stand
/// beside one another.
pub(crate) fn posts_of(
    alloc: Global,
    train: &TrainState,
    line: u32,
    window: Window,
    arrow: Arrow,
    is_whole: bool,
) -> Result<Posts, AllocError> {
    let mut told = told_in(alloc, train, line, window)?;
    match arrow.side {
        Side::Left if !is_whole => {
            told.sort_by_key(|told| (0i64.saturating_sub(told.x), told.number))?;
        }
        _ => told.sort()?,
    }
    let mut posts = Posts::none(alloc);
    for signs in signs_of(alloc, &told)? {
        posts.ways.push(signs.x)?;
        if signs.is_shown {
            posts.all.push(Post {
                x: signs.x,
                sign: signs.x,
                words: short_list(alloc, "", &signs.words, 2)?,
                is_answered: signs.is_answered,
                side: None,
            })?;
        }
    }
    Ok(posts)
}

/// The stops that a train is told before places of this line.
fn told_in(
    alloc: Global,
    train: &TrainState,
    line: u32,
    window: Window,
) -> Result<Vec<Told>, AllocError> {
    let mut told = Vec::new(alloc);
    for stop in &train.stops {
        if let Some(stop) = told_on(stop, line, window) {
            told.push(stop)?;
        }
    }
    Ok(told)
}

/// The place that a stop identifier tells, if it lies on this line.
fn told_on(stop: &StopSlot, line: u32, window: Window) -> Option<Told> {
    match (&stop.slot, stop.told) {
        (Slot::Used(used), Some(told)) if u32::from(told.line) == line => Some(Told {
            x: window.x(told.at),
            number: used.number,
            is_answered: used.acked,
            is_shown: window.has(told.at),
        }),
        _ => None,
    }
}

/// Moves the signs of posts outwards from a train, the nearest first, so that they stand beside one another and beside
/// the sign before its front, if it has one. At the edge of the picture they move back.
pub(crate) fn spread_signs(posts: &mut [Post], arrow: Arrow, has_sign: bool) {
    let side = arrow.side;
    let mut last = if has_sign {
        Some(side.from(arrow.front(), 100))
    } else {
        None
    };
    for post in posts.iter_mut() {
        if let Some(last) = last {
            post.sign = side.farther(post.sign, side.from(last, SIGNS_APART));
        }
        last = Some(post.sign);
    }
    let mut edge = side.edge();
    for post in posts.iter_mut().rev() {
        post.sign = side.other().farther(post.sign, edge);
        edge = side.other().from(post.sign, SIGNS_APART);
    }
}

/// The stops of each place.
fn signs_of(alloc: Global, told: &[Told]) -> Result<Vec<Signs>, AllocError> {
    let mut all: Vec<Signs> = Vec::new(alloc);
    for stop in told {
        let word = ShortWord::stop(stop.number);
        match all.last_mut() {
            Some(signs) if signs.x == stop.x && signs.is_shown == stop.is_shown => {
                signs.words.push(word)?;
                signs.is_answered = signs.is_answered && stop.is_answered;
            }
            _ => all.push(Signs {
                x: stop.x,
                words: Vec::from_slice(alloc, &[word])?,
                is_answered: stop.is_answered,
                is_shown: stop.is_shown,
            })?,
        }
    }
    Ok(all)
}

/// What words beside posts must not meet.
#[derive(Drop)]
pub(crate) struct Taken {
    /// The part that each post takes.
    posts: Vec<Span>,
    /// The parts of the train, of its sign, and of words that were placed before.
    others: Vec<Span>,
}

impl Taken {
    /// The parts that posts take, and other parts.
    pub(crate) fn by(
        alloc: Global,
        posts: &[Post],
        others: Vec<Span>,
    ) -> Result<Taken, AllocError> {
        let posts = posts.iter().map(|post| around(post.sign)).collect(alloc)?;
        Ok(Taken { posts, others })
    }

    /// Whether a part is free for the words of a post.
    fn is_free(&self, own: usize, part: Span) -> bool {
        part.is_inside()
            && self.others.iter().all(|other| !part.meets(*other))
            && self
                .posts
                .iter()
                .enumerate()
                .all(|(index, other)| index == own || !part.meets(*other))
    }

    /// The side of a post that has room for its words: this side, or else the other.
    fn side_of(&self, own: usize, post: &Post, side: Side) -> Option<Side> {
        if self.is_free(own, post.room(side)) {
            return Some(side);
        }
        if self.is_free(own, post.room(side.other())) {
            return Some(side.other());
        }
        None
    }
}

/// The part that the sign of a post takes.
fn around(x: i64) -> Span {
    Span {
        left: x.saturating_sub(80),
        right: x.saturating_add(80),
    }
}

impl Post {
    /// The room of its words on a side.
    pub(crate) fn room(&self, side: Side) -> Span {
        let end = bold_width(self.words.as_str(), 11).saturating_add(100);
        Span::between(side.from(self.sign, 90), side.from(self.sign, end))
    }
}

/// Finds room for the words of posts, one post after another.
pub(crate) fn place_words(
    posts: &mut Vec<Post>,
    taken: &mut Taken,
    side: Side,
) -> Result<(), AllocError> {
    for (index, post) in posts.iter_mut().enumerate() {
        if let Some(free) = taken.side_of(index, post, side) {
            post.side = Some(free);
            taken.others.push(post.room(free))?;
        }
    }
    Ok(())
}
