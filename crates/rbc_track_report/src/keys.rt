//! Unknown keys of a track file.

ghost use Rattle.std.specs.Prelude.{◌≡◌};
ghost use Rattle.rbc_track_report.specs.Growth.{AreOnKeys};
ghost use Rattle.rbc_track_report.specs.Keys.{is_known};

use crate::named_document::{Place, rows_under};
use crate::remark::{Remark, Remarks};
use std::alloc::Global;
use std::collections::BTreeMap;
use toml::{Table, Value};

/// The kinds of tables in a track file.
#[derive(Clone, Copy)]
pub enum Kind {
    /// The document itself.
    Document,
    /// A table of `line`.
    Line,
    /// A table of `group`.
    Group,
}

/// Whether tables of a kind have such a key.
pub fn is_known(kind: Kind, key: &str) -> bool
    ensures { result ≡ is_known kind key.now }
{
    match kind {
        Kind::Document => ["group", "horizon", "line", "name"].contains(&key),
        Kind::Line => ["length", "name"].contains(&key),
        Kind::Group => ["at", "line", "name", "nid", "nominal"].contains(&key),
    }
}

/// How often a key stands in tables of one kind.
#[derive(Clone, Copy)]
struct Found {
    tables: usize,
    first: usize,
}

/// Keeps the unknown keys of one table.
fn keep_unknown<'a>(
    remarks: &mut Remarks<'_>,
    found: &mut BTreeMap<&'a str, Found>,
    kind: Kind,
    index: usize,
    table: &'a Table,
)
    ensures { AreOnKeys remarks.old remarks.new }
{
    for key in table.keys() {
        let key = key.as_str();
        if !is_known(kind, key) {
            let at = found_once_more(found.get(key), index);
            if found.insert(key, at).is_err() {
                remarks.is_cut = true;
            }
        }
    }
}

/// How often a key stands, once it is also found in the table at an index. `before` is what was found of it before.
fn found_once_more(before: Option<&Found>, index: usize) -> Found {
    match before {
        Some(before) => Found {
            tables: before.tables.saturating_add(1),
            first: before.first,
        },
        None => Found {
            tables: 1,
            first: index,
        },
    }
}

/// Adds a remark for each key that was kept, in the order of the keys.
fn push_found<'a>(remarks: &mut Remarks<'a>, kind: Kind, found: &BTreeMap<&'a str, Found>)
    ensures { AreOnKeys remarks.old remarks.new }
{
    for (key, at) in found {
        remarks.unknown_key(Remark::UnknownKey {
            key: *key,
            kind,
            tables: at.tables,
            first: at.first,
        });
    }
}

#[tactic(auto, using(crate::proofs::Written::on_keys_none, crate::proofs::Written::on_keys_then))]
fn push_unknown_in_rows<'a>(alloc: Global, remarks: &mut Remarks<'a>, kind: Kind, rows: &'a [Value])
    ensures { AreOnKeys remarks.old remarks.new }
{
    let mut found = BTreeMap::new(alloc);
    for (index, row) in rows.iter().enumerate() {
        if let Value::Table(table) = row {
            keep_unknown(remarks, &mut found, kind, index, table);
        }
    }
    push_found(remarks, kind, &found);
}

/// Adds a remark for each unknown key: of the document, of lines, of balise groups, each in the order of the keys.
pub fn push_unknown<'a>(alloc: Global, remarks: &mut Remarks<'a>, document: &'a Table)
    ensures { AreOnKeys remarks.old remarks.new }
{
    let mut found = BTreeMap::new(alloc);
    keep_unknown(remarks, &mut found, Kind::Document, 0, document);
    push_found(remarks, Kind::Document, &found);
    push_unknown_in_rows(alloc, remarks, Kind::Line, rows_under(document, "line"));
    push_unknown_in_rows(alloc, remarks, Kind::Group, rows_under(document, "group"));
}
