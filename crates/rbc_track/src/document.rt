//! Reads a track's document key by key. Only the kind and the range of each value are checked here.

ghost use Rattle.std.specs.Prelude.{◌≡◌, ◌⊎◌, Some, None, option_map, option_and_then, IfOk, IfErr, MatchResult};
ghost use Rattle.toml.specs.Parse.{parse_document};
ghost use Rattle.rbc_track.specs.declared.error.TrackError.TheVariants.{Text, OutOfMemory};
ghost use Rattle.toml.specs.Data.{as_table, get_member};
ghost use Rattle.toml.specs.View.{view, items_view, table_view};
ghost use Rattle.rbc_track.specs.Document.{number_within, number_at, horizon_in, way_in, length_in, site_from, site_in};
ghost use Rattle.rbc_track.specs.Document.{lengths_under, sites_under, in_each};
ghost use Rattle.rbc_track.specs.Outcomes.{Misses};

use crate::error::TrackError;
use crate::group::Way;
use std::alloc::Global;
use toml::{Table, Value};

/// The greatest horizon, in units of 10 cm.
const MAX_HORIZON: u32 = 3_000_000;

/// The greatest number of a balise group.
pub const MAX_NID: u32 = 16_777_214;

/// A balise group as it is written in a document.
#[derive(Clone, Copy)]
pub struct Site {
    /// Its number, 0 to 16,777,214.
    pub nid: u32,
    /// The number of its line, not checked yet.
    pub line: u32,
    /// Its place, in units of 10 cm, not checked yet.
    pub at: u32,
    /// Its nominal direction.
    pub nominal: Way,
}

/// Parses a text as a TOML document.
///
/// # Errors
///
/// `Text` if the text is not a TOML document, or `OutOfMemory`.
pub fn document_from(alloc: Global, text: &str) -> Result<Table, TrackError>
    ensures { MatchResult result
        (λ document. parse_document text.now ≡ Some (table_view document))
        (λ e. (e ≡ OutOfMemory) ⊎ ((e ≡ Text) × (parse_document text.now ≡ None))) }
{
    match toml::table_from_str(alloc, text) {
        Ok(document) => Ok(document),
        Err(fault) => Err(if fault.is_memory() {
            TrackError::OutOfMemory
        } else {
            TrackError::Text
        }),
    }
}

/// The value as a whole number from `low` to `high`, if it is one.
fn number_within(value: &Value, low: u32, high: u32) -> Option<u32>
    ensures { result ≡ number_within low high (view value.now) }
{
    match value {
        Value::Integer(number) => match u32::try_from(*number) {
            Ok(number) if (low..=high).contains(&number) => Some(number),
            _ => None,
        },
        _ => None,
    }
}

/// The value under a key, if there is one.
fn value_at<'a>(table: &'a Table, key: &str) -> Option<&'a Value>
    ensures { option_map (λ value. view value.now) result ≡ get_member key.now (table_view table.now) }
{
    table.get(key)
}

/// The whole number from `low` to `high` under a key, if there is one.
fn number_at(table: &Table, key: &str, low: u32, high: u32) -> Option<u32>
    ensures { result ≡ number_at key.now low high (table_view table.now) }
{
    match value_at(table, key) {
        Some(value) => number_within(value, low, high),
        None => None,
    }
}

/// The horizon, under the key `horizon`.
pub fn horizon_in(document: &Table) -> Option<u32>
    ensures { result ≡ horizon_in (table_view document.now) }
{
    number_at(document, "horizon", 1, MAX_HORIZON)
}

/// The direction that a value names, if it names one.
fn way_in(value: &Value) -> Option<Way>
    ensures { result ≡ way_in (view value.now) }
{
    match value {
        Value::String(word) => {
            if word.as_str() == "up" {
                Some(Way::Up)
            } else if word.as_str() == "down" {
                Some(Way::Down)
            } else {
                None
            }
        }
        _ => None,
    }
}

/// The balise group with these values of its four keys, if all are present.
fn site_from(
    nid: Option<u32>,
    line: Option<u32>,
    at: Option<u32>,
    nominal: Option<Way>,
) -> Option<Site>
    ensures { result ≡ site_from nid line at nominal }
{
    match (nid, line, at, nominal) {
        (Some(nid), Some(line), Some(at), Some(nominal)) => Some(Site {
            nid,
            line,
            at,
            nominal,
        }),
        _ => None,
    }
}

/// The balise group in a table of `group`.
fn site_in_table(table: &Table) -> Option<Site>
    ensures { result ≡ site_in (table_view table.now) }
{
    let nominal = match value_at(table, "nominal") {
        Some(value) => way_in(value),
        None => None,
    };
    site_from(
        number_at(table, "nid", 0, MAX_NID),
        number_at(table, "line", 0, u32::MAX),
        number_at(table, "at", 0, u32::MAX),
        nominal,
    )
}

/// The balise group in a row of `group`.
fn site_in(row: &Value) -> Option<Site>
    ensures { result ≡ option_and_then site_in (as_table (view row.now)) }
{
    match row.as_table() {
        Some(table) => site_in_table(table),
        None => None,
    }
}

/// The length in a row of `line`.
fn length_in(row: &Value) -> Option<u32>
    ensures { result ≡ option_and_then length_in (as_table (view row.now)) }
{
    match row.as_table() {
        Some(table) => number_at(table, "length", 0, u32::MAX),
        None => None,
    }
}

/// The length in each row of `line`.
///
/// # Errors
///
/// `Shape` if a row is not a table or has no length, or `OutOfMemory`.
fn lengths_in(alloc: Global, rows: &[Value]) -> Result<Vec<u32>, TrackError>
    ensures ok { IfOk result (λ lengths. in_each length_in (items_view rows.now) ≡ Some lengths.items) }
    ensures err { IfErr result (Misses (in_each length_in (items_view rows.now))) }
{
    let mut lengths = Vec::new(alloc);
    for row in rows {
        let length = length_in(row).ok_or(TrackError::Shape)?;
        lengths.push(length)?;
    }
    Ok(lengths)
}

/// The balise group in each row of `group`.
///
/// # Errors
///
/// `Shape` if a row is not a table or not a balise group, or `OutOfMemory`.
fn sites_in(alloc: Global, rows: &[Value]) -> Result<Vec<Site>, TrackError>
    ensures ok { IfOk result (λ sites. in_each site_in (items_view rows.now) ≡ Some sites.items) }
    ensures err { IfErr result (Misses (in_each site_in (items_view rows.now))) }
{
    let mut sites = Vec::new(alloc);
    for row in rows {
        let site = site_in(row).ok_or(TrackError::Shape)?;
        sites.push(site)?;
    }
    Ok(sites)
}

/// The lengths of the lines, under the key `line`.
///
/// # Errors
///
/// `Shape` if the key is missing or is anything but tables with a length, or `OutOfMemory`.
pub fn lengths_under(alloc: Global, document: &Table) -> Result<Vec<u32>, TrackError>
    ensures ok { IfOk result (λ lengths. lengths_under (table_view document.now) ≡ Some lengths.items) }
    ensures err { IfErr result (Misses (lengths_under (table_view document.now))) }
{
    match value_at(document, "line") {
        Some(Value::Array(rows)) => lengths_in(alloc, rows.as_slice()),
        _ => Err(TrackError::Shape),
    }
}

/// The balise groups under the key `group`, or none without the key.
///
/// # Errors
///
/// `Shape` if the key is anything but tables of balise groups, or `OutOfMemory`.
pub fn sites_under(alloc: Global, document: &Table) -> Result<Vec<Site>, TrackError>
    ensures ok { IfOk result (λ sites. sites_under (table_view document.now) ≡ Some sites.items) }
    ensures err { IfErr result (Misses (sites_under (table_view document.now))) }
{
    match value_at(document, "group") {
        None => Ok(Vec::new(alloc)),
        Some(Value::Array(rows)) => sites_in(alloc, rows.as_slice()),
        Some(_) => Err(TrackError::Shape),
    }
}
