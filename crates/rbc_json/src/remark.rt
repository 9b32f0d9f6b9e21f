//! What is doubtful about a track file, as objects.

use crate::list::ListText;
use crate::refused_track::{nth_of, table_word};
use crate::text::quoted;
use rbc_track_report::{Kind, Place, Remark};
use std::alloc::{AllocError, Global};

/// The list of remarks.
pub(crate) fn remarks_text(alloc: Global, remarks: &[Remark<'_>]) -> Result<String, AllocError> {
    let mut list = ListText::new(alloc)?;
    for remark in remarks {
        list.add(&remark_text(alloc, *remark)?)?;
    }
    list.ended()
}

/// A remark.
fn remark_text(alloc: Global, remark: Remark<'_>) -> Result<String, AllocError> {
    match remark {
        Remark::UnknownKey {
            key,
            kind,
            tables,
            first,
        } => unknown_key_text(alloc, key, place_of(kind, first), tables),
        Remark::HiddenName(place) => {
            let (table, nth) = (table_word(place), nth_of(place));
            format!(in alloc; "{{\"kind\":\"hidden_name\",\"table\":\"{table}\",\"nth\":{nth}}}")
        }
        Remark::NoLine => format!(in alloc; "{{\"kind\":\"no_line\"}}"),
        Remark::NoGroup => format!(in alloc; "{{\"kind\":\"no_balise_group\"}}"),
        Remark::BareLine(line) => {
            format!(in alloc; "{{\"kind\":\"line_without_balise_group\",\"line\":{line}}}")
        }
        Remark::SamePlace { nids, line, at } => {
            let (one, other) = nids;
            format!(in alloc;
                "{{\"kind\":\"same_place\",\"balise_group\":{one},\"other\":{other},\"line\":{line},\"at\":{at}}}"
            )
        }
        Remark::FarHorizon(_) => format!(in alloc; "{{\"kind\":\"far_horizon\"}}"),
        Remark::NearHorizon(_) => format!(in alloc; "{{\"kind\":\"near_horizon\"}}"),
        Remark::WideGap { gap, .. } => {
            let (line, from, to) = (gap.line, gap.from, gap.to);
            format!(in alloc;
                "{{\"kind\":\"wide_gap\",\"line\":{line},\"from\":{from},\"to\":{to}}}"
            )
        }
    }
}

/// That an unknown key stands in so many tables of a kind, the first of them at a place.
fn unknown_key_text(
    alloc: Global,
    key: &str,
    first: Place,
    tables: usize,
) -> Result<String, AllocError> {
    let (table, nth, key) = (table_word(first), nth_of(first), quoted(alloc, key)?);
    format!(in alloc;
        "{{\"kind\":\"unknown_key\",\"table\":\"{table}\",\"nth\":{nth},\"key\":{key},\
         \"counts\":{{\"tables\":{tables}}}}}"
    )
}

/// The table of a kind at an index.
fn place_of(kind: Kind, index: usize) -> Place {
    match kind {
        Kind::Document => Place::Document,
        Kind::Line => Place::Line(index),
        Kind::Group => Place::Group(index),
    }
}
