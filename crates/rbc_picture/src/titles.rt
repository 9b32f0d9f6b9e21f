//! The texts that a picture has to show.

ghost use Rattle.std.specs.Prelude.{◌≡◌, Some, IfOk, string_bytes};
ghost use Rattle.rbc_picture.specs.Titles.{line_heading, band_title, train_title, waiting_sentence, way_word};

use crate::stretches::Stretch;
use rbc_account::Waits;
use rbc_place::Place;
use rbc_track::Way;
use rbc_words::Km;
use std::alloc::{AllocError, Global};

/// How the heading of the panel of a line begins: `>Line 0`, with the end of the tag before it.
pub(crate) fn line_heading(alloc: Global, line: usize) -> Result<String, AllocError>
    ensures { IfOk result (λ text. string_bytes text ≡ line_heading line) }
{
    format!(in alloc; ">Line {line}")
}

/// The title of the band of a stretch of a line: `stop 1: line 0, km 15.200 to km 16.850`.
pub(crate) fn band_title(alloc: Global, line: usize, stretch: Stretch) -> Result<String, AllocError>
    ensures { IfOk result (λ text. string_bytes text ≡ band_title line stretch) }
{
    let (from, to) = (Km(stretch.from), Km(stretch.to));
    format!(in alloc; "<title>{stretch}: line {line}, km {from} to km {to}</title>\n")
}

/// How the title of a train begins: `Train 7 has no place.`, or where it may be and how it faces.
pub(crate) fn train_title(
    alloc: Global,
    engine: u32,
    place: &Option<Place>,
) -> Result<String, AllocError>
    ensures { IfOk result (λ text. string_bytes text ≡ train_title engine place.now) }
{
    match place {
        Some(place) => placed_title(alloc, engine, place),
        None => format!(in alloc; "<title>Train {engine} has no place."),
    }
}

/// How the title of a train that has a place begins.
fn placed_title(alloc: Global, engine: u32, place: &Place) -> Result<String, AllocError>
    ensures { IfOk result (λ text. string_bytes text ≡ train_title engine (Some place.now)) }
{
    let (low, high, line) = (Km(place.lo()), Km(place.hi()), place.line());
    let way = way_word(place.facing());
    format!(in alloc;
        "<title>Train {engine} may be at km {low} to km {high} of line {line}, facing {way}."
    )
}

/// The word for a way.
fn way_word(way: Way) -> &'static str
    ensures { result.now ≡ way_word way }
{
    match way {
        Way::Up => "up",
        Way::Down => "down",
    }
}

/// The sentence on a stop or a restriction that a train is not told, or on a stop that it is not told again, with a
/// space before it.
pub(crate) fn waiting_sentence(alloc: Global, waits: Waits) -> Result<String, AllocError>
    ensures { IfOk result (λ text. string_bytes text ≡ waiting_sentence waits) }
{
    match waits {
        Waits::Stop(number) => format!(in alloc; " NOT TOLD: stop {number}."),
        Waits::Restriction(number) => format!(in alloc; " NOT TOLD: restriction {number}."),
        Waits::Again(number) => format!(in alloc; " NOT TOLD AGAIN: stop {number}."),
    }
}
