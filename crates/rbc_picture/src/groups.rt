//! The balise groups of a line.

use crate::colours::{DARK, DARK_EDGE, WHITE};
use crate::shapes::{Area, Point, moved};
use crate::short_words::plain_width;
use crate::svg::Svg;
use crate::texts::{Anchor, GROUP};
use crate::window::Window;
use rbc_track::Way;
use rbc_track_report::NamedGroup;
use std::alloc::{AllocError, Global};

/// The least distance to both neighbours of a balise group that has a triangle.
const APART: i64 = 140;

/// The least distance between two ticks.
const TICKS_APART: i64 = 20;

/// The least distance between two numbers.
const NUMBERS_APART: i64 = 60;

/// How a balise group is drawn.
#[derive(Clone, Copy)]
pub(crate) enum Form {
    /// As a triangle towards its nominal direction.
    Triangle,
    /// As a tick.
    Tick,
    /// Not at all, since there is no room for it.
    Hidden,
}

/// A balise group on the picture.
#[derive(Drop)]
pub(crate) struct GroupSign {
    group: NamedGroup,
    /// Where it stands, in tenths of a pixel.
    x: i64,
    form: Form,
    /// Its number, if there is room for it.
    number: Option<String>,
}

/// The balise groups of a line that lie in a window, from left to right. `groups` are in ascending order.
pub(crate) fn signs_of(
    alloc: Global,
    groups: &[NamedGroup],
    line: usize,
    window: Window,
) -> Result<Vec<GroupSign>, AllocError> {
    let mut signs = Vec::new(alloc);
    for group in groups {
        if group.line as usize == line && window.has(group.at) {
            signs.push(GroupSign {
                group: *group,
                x: window.x(group.at),
                form: Form::Hidden,
                number: None,
            })?;
        }
    }
    let places = places_of(alloc, &signs)?;
    give_forms(&mut signs, &places);
    give_numbers(alloc, &mut signs)?;
    Ok(signs)
}

/// Where balise groups stand.
fn places_of(alloc: Global, signs: &[GroupSign]) -> Result<Vec<i64>, AllocError> {
    signs.iter().map(|sign| sign.x).collect(alloc)
}

/// Chooses how each balise group is drawn. `places` are the places of all of them.
fn give_forms(signs: &mut [GroupSign], places: &[i64]) {
    let mut last_tick = i64::MIN;
    for (index, sign) in signs.iter_mut().enumerate() {
        if is_apart(places, index, sign.x) {
            sign.form = Form::Triangle;
        } else if last_tick.saturating_add(TICKS_APART) <= sign.x {
            sign.form = Form::Tick;
            last_tick = sign.x;
        }
    }
}

/// Whether both neighbours of the place at an index are far enough away.
fn is_apart(places: &[i64], index: usize, x: i64) -> bool {
    let before = match index.checked_sub(1) {
        Some(before) => places.get(before),
        None => None,
    };
    let after = places.get(index.saturating_add(1));
    before.is_none_or(|place| x.saturating_sub(*place) >= APART)
        && after.is_none_or(|place| place.saturating_sub(x) >= APART)
}

/// Gives numbers to the balise groups that have room for them.
fn give_numbers(alloc: Global, signs: &mut [GroupSign]) -> Result<(), AllocError> {
    let mut taken = i64::MIN;
    for sign in signs.iter_mut() {
        let nid = sign.group.nid;
        let number = format!(in alloc; "{nid}")?;
        let half = plain_width(number.as_str(), 10) / 2;
        if taken.saturating_add(NUMBERS_APART) <= sign.x.saturating_sub(half) {
            taken = sign.x.saturating_add(half);
            sign.number = Some(number);
        }
    }
    Ok(())
}

/// Draws balise groups at the height of their line.
pub(crate) fn draw_groups(svg: &mut Svg, signs: &[GroupSign], y: i64) {
    for sign in signs {
        let at = Point { x: sign.x, y };
        match sign.form {
            Form::Triangle => draw_triangle(svg, &sign.group, at),
            Form::Tick => draw_tick(svg, &sign.group, at),
            Form::Hidden => {}
        }
        if let Some(number) = &sign.number {
            svg.text(moved(at, 0, 190), Anchor::Middle, GROUP, number.as_str());
        }
    }
}

fn draw_triangle(svg: &mut Svg, group: &NamedGroup, at: Point) {
    let tip = match group.nominal {
        Way::Up => 60,
        Way::Down => -60,
    };
    let back = 0i64.saturating_sub(tip);
    let corners = [moved(at, back, -60), moved(at, back, 60), moved(at, tip, 0)];
    svg.begin_polygon(&corners, WHITE, DARK_EDGE);
    svg.words(">");
    write_title(svg, group);
    svg.words("</polygon>\n");
}

fn draw_tick(svg: &mut Svg, group: &NamedGroup, at: Point) {
    let area = Area {
        x: at.x.saturating_sub(7),
        y: at.y.saturating_sub(60),
        width: 15,
        height: 120,
    };
    svg.begin_box(area, DARK, "");
    svg.words(">");
    write_title(svg, group);
    svg.words("</rect>\n");
}

/// Writes what a balise group is.
fn write_title(svg: &mut Svg, group: &NamedGroup) {
    svg.words("<title>balise group ");
    svg.number(u64::from(group.nid));
    svg.words(", km ");
    svg.km(group.at);
    svg.words(", nominal direction ");
    svg.words(match group.nominal {
        Way::Up => "up",
        Way::Down => "down",
    });
    svg.words("</title>");
}
