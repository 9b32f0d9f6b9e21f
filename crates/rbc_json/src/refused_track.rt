//! Which rule a refused track breaks, and where, as an object.

use crate::shapes::NumberOrNull;
use crate::text::quoted;
use rbc_track::TrackError;
use rbc_track_report::{Breach, Misfit, Place, position};
use std::alloc::{AllocError, Global};
use toml::Value;

/// That a text is no document: where the reader stopped, and its message.
pub(crate) fn no_document_text(
    alloc: Global,
    text: &str,
    start: Option<usize>,
    message: &str,
) -> Result<String, AllocError> {
    let (row, column) = match start {
        Some(start) => {
            let (row, column) = position(text, start);
            (Some(row as u64), Some(column as u64))
        }
        None => (None, None),
    };
    let (row, column, says) = (
        NumberOrNull(row),
        NumberOrNull(column),
        quoted(alloc, message)?,
    );
    format!(in alloc; "{{\"rule\":\"Text\",\"row\":{row},\"column\":{column},\"says\":{says}}}")
}

/// The rule that a document breaks, and where.
pub(crate) fn refused_text(
    alloc: Global,
    rule: TrackError,
    breach: &Option<Breach<'_>>,
) -> Result<String, AllocError> {
    match breach {
        Some(breach) => breach_text(alloc, breach),
        None => {
            let rule = quoted(alloc, rule.name())?;
            format!(in alloc; "{{\"rule\":{rule}}}")
        }
    }
}

/// Where a document breaks its rule.
fn breach_text(alloc: Global, breach: &Breach<'_>) -> Result<String, AllocError> {
    match breach {
        Breach::Shape(misfit) => misfit_text(alloc, misfit),
        Breach::TooManyLines(lines) => format!(in alloc;
            "{{\"rule\":\"TooManyLines\",\"counts\":{{\"lines\":{lines}}}}}"
        ),
        Breach::TooManyGroups(groups) => format!(in alloc;
            "{{\"rule\":\"TooManyGroups\",\"counts\":{{\"balise_groups\":{groups}}}}}"
        ),
        Breach::BadLength { line, length } => format!(in alloc;
            "{{\"rule\":\"BadLength\",\"line\":{line},\"length\":{length}}}"
        ),
        Breach::GroupOffLine {
            index,
            group,
            lines,
            length,
        } => {
            let (nth, length) = (index.saturating_add(1), NumberOrNull::of(*length));
            let (nid, line, at) = (group.nid, group.line, group.at);
            format!(in alloc;
                "{{\"rule\":\"GroupOffLine\",\"nth\":{nth},\"balise_group\":{nid},\"line\":{line},\"at\":{at},\
                 \"length\":{length},\"counts\":{{\"lines\":{lines}}}}}"
            )
        }
        Breach::GroupTwice { index, nid, first } => {
            let (nth, first) = (index.saturating_add(1), first.saturating_add(1));
            format!(in alloc;
                "{{\"rule\":\"GroupTwice\",\"nth\":{nth},\"balise_group\":{nid},\"first\":{first}}}"
            )
        }
    }
}

/// A value that is missing, or is not what it has to be.
fn misfit_text(alloc: Global, misfit: &Misfit<'_>) -> Result<String, AllocError> {
    let (table, nth) = (table_word(misfit.place), nth_of(misfit.place));
    let key = match misfit.key {
        Some(key) => quoted(alloc, key)?,
        None => String::from_str(alloc, "null")?,
    };
    let (found, value) = (found_word(misfit.value), value_text(alloc, misfit.value)?);
    format!(in alloc;
        "{{\"rule\":\"Shape\",\"table\":\"{table}\",\"nth\":{nth},\"key\":{key},\"found\":\"{found}\",\
         \"value\":{value}}}"
    )
}

/// The word for the kind of a table.
pub(crate) fn table_word(place: Place) -> &'static str {
    match place {
        Place::Document => "document",
        Place::Line(_) => "line",
        Place::Group(_) => "group",
    }
}

/// The number of a table among those of its kind, from 1. The document has none.
pub(crate) fn nth_of(place: Place) -> NumberOrNull {
    match place {
        Place::Document => NumberOrNull(None),
        Place::Line(index) | Place::Group(index) => {
            NumberOrNull(Some((index as u64).saturating_add(1)))
        }
    }
}

/// The word for what a value is.
fn found_word(value: Option<&Value>) -> &'static str {
    match value {
        None => "missing",
        Some(Value::Integer(_)) => "integer",
        Some(Value::Float(_)) => "float",
        Some(Value::Boolean(_)) => "boolean",
        Some(Value::String(_)) => "text",
        Some(Value::Array(_)) => "array",
        Some(Value::Table(_)) => "table",
        Some(Value::Datetime(_)) => "time",
    }
}

/// A whole number or a text as it stands in the file. `null` for any other value.
fn value_text(alloc: Global, value: Option<&Value>) -> Result<String, AllocError> {
    match value {
        Some(Value::Integer(number)) => format!(in alloc; "{number}"),
        Some(Value::String(text)) => quoted(alloc, text.as_str()),
        _ => String::from_str(alloc, "null"),
    }
}
