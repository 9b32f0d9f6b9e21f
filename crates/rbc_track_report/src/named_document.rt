//! A document read table by table, with names, and the first value that is missing or wrong.

ghost use Rattle.std.specs.Prelude.{◌≡◌, ◌≤◌, false, IsPermutation, OnOk, Some, None, IsSome, IfSome, option_copied};
ghost use Rattle.std.specs.List.Sorted.{IsSorted};
ghost use Rattle.toml.specs.View.{items_view, table_view, view};
ghost use Rattle.rbc_track.specs.Document.{number_within, number_at, horizon_in};
ghost use Rattle.rbc_track_report.specs.Drafts.{IsMissed, IsReadOn, IsInRange, IsReordered, group_order};
ghost use Rattle.rbc_track_report.specs.Shown.{rows_under, shown_name};

use crate::names::{name_in, value_at};
use rbc_track::{MAX_LENGTH, MAX_NID};
use std::alloc::{AllocError, Global};
use toml::{Table, Value};

/// Where something stands in a document. Tables of one kind are counted from 0 in their order.
#[derive(Clone, Copy)]
pub enum Place {
    /// At the top of the document.
    Document,
    /// In a table of `line`.
    Line(usize),
    /// In a table of `group`.
    Group(usize),
}

/// What a value has to be.
#[derive(Clone, Copy)]
pub enum Wanted {
    /// A length of a line, or the horizon.
    Length,
    /// The number of a balise group.
    Nid,
    /// The number of a line.
    Line,
    /// A place on a line.
    At,
    /// `up` or `down`.
    Way,
    /// The tables of `line`.
    Lines,
    /// The tables of `group`.
    Groups,
    /// One table of `line` or `group`.
    Table,
}

/// A value of a document that is missing, or is not what it has to be.
#[derive(Clone, Copy)]
pub struct Misfit<'a> {
    /// Where its key belongs.
    pub place: Place,
    /// Its key, or nothing if it is a whole table.
    pub key: Option<&'static str>,
    /// The value there, if there is one.
    pub value: Option<&'a Value>,
    /// What the value has to be.
    pub wanted: Wanted,
}

/// A line, as the document has it. The length is in units of 10 cm.
#[derive(Clone, Copy)]
pub struct LineDraft<'a> {
    pub length: u32,
    pub name: Option<&'a str>,
}

/// A balise group, as the document has it. The place is in units of 10 cm.
#[derive(Clone, Copy)]
pub struct GroupDraft<'a> {
    pub nid: u32,
    pub line: u32,
    pub at: u32,
    pub nominal: &'a str,
    pub name: Option<&'a str>,
}

/// What a document has. With no misfit each value is of the right kind, and only rules on whole lists may be broken.
#[derive(Drop)]
pub struct Draft<'a> {
    pub name: Option<&'a str>,
    pub horizon: u32,
    pub lines: Vec<LineDraft<'a>>,
    pub groups: Vec<GroupDraft<'a>>,
    /// The first value that is missing, or is not what it has to be. It counts as 0, or as an empty text.
    pub misfit: Option<Misfit<'a>>,
    /// Whether memory was refused for a line or a balise group.
    pub is_cut: bool,
}

/// A table, where it stands.
#[derive(Clone, Copy)]
struct Here<'a> {
    place: Place,
    table: &'a Table,
}

/// The rows under a key that should be tables. Without the key there are none.
pub fn rows_under<'a>(document: &'a Table, key: &str) -> &'a [Value]
    ensures { items_view result.now ≡ rows_under key.now (table_view document.now) }
{
    match value_at(document, key) {
        Some(Value::Array(rows)) => rows.as_slice(),
        _ => &[],
    }
}

/// The value as a whole number from 0 to `high`, if it is one.
fn number_within(value: &Value, high: u32) -> Option<u32>
    ensures below { IfSome result (λ number. number ≤ high) }
    ensures exact { result ≡ number_within 0 high (view value.now) }
{
    match value {
        Value::Integer(number) => match u32::try_from(*number) {
            Ok(number) if number <= high => Some(number),
            _ => None,
        },
        _ => None,
    }
}

/// The whole number from 0 to `high` under a key, if there is one.
fn number_at(table: &Table, key: &str, high: u32) -> Option<u32>
    ensures exact { result ≡ number_at key.now 0 high (table_view table.now) }
    ensures below { IfSome result (λ number. number ≤ high) }
{
    match value_at(table, key) {
        Some(value) => number_within(value, high),
        None => None,
    }
}

impl<'a> Draft<'a> {
    /// Keeps a misfit, unless there was one before.
    fn keep(&mut self, misfit: Misfit<'a>)
        ensures missed { IsMissed self.old self.new }
        ensures noted { IsSome self.new.misfit }
    {
        if self.misfit.is_none() {
            self.misfit = Some(misfit);
        }
    }

    /// Keeps the misfit of a key.
    fn miss(&mut self, here: Here<'a>, key: &'static str, wanted: Wanted)
        ensures missed { IsMissed self.old self.new }
        ensures noted { IsSome self.new.misfit }
    {
        self.keep(Misfit {
            place: here.place,
            key: Some(key),
            value: here.table.get(key),
            wanted,
        });
    }

    /// The whole number from 0 to `high` under a key. Without one it is 0, and that is a misfit.
    fn number(&mut self, here: Here<'a>, key: &'static str, high: u32, wanted: Wanted) -> u32
        ensures missed { IsMissed self.old self.new }
        ensures below { result ≤ high }
        ensures exact { self.new.misfit ≡ None
            → number_at key.now 0 high (table_view here.entry.table.now) ≡ Some result }
    {
        match number_at(here.table, key, high) {
            Some(number) => number,
            None => {
                self.miss(here, key, wanted);
                0
            }
        }
    }

    /// Reads the horizon, which is not 0.
    fn read_horizon(&mut self, document: Here<'a>)
        ensures range { IsInRange self.old → IsInRange self.new }
        ensures name { self.new.name ≡ self.old.name }
        ensures exact { self.new.misfit ≡ None
            → horizon_in (table_view document.entry.table.now) ≡ Some self.new.horizon }
    {
        let horizon = self.number(document, "horizon", MAX_LENGTH, Wanted::Length);
        self.horizon = horizon;
        if horizon == 0 {
            self.miss(document, "horizon", Wanted::Length);
        }
    }

    /// The direction under the key `nominal`.
    fn nominal(&mut self, here: Here<'a>) -> &'a str
        ensures { IsMissed self.old self.new }
    {
        if let Some(Value::String(word)) = here.table.get("nominal")
            && ["up", "down"].contains(&word.as_str())
        {
            return word.as_str();
        }
        self.miss(here, "nominal", Wanted::Way);
        ""
    }

    /// A row of an array as a table, where it stands.
    fn table_at(&mut self, row: &'a Value, place: Place) -> Option<Here<'a>>
        ensures { IsMissed self.old self.new }
    {
        match row {
            Value::Table(table) => Some(Here { place, table }),
            _ => {
                self.keep(Misfit {
                    place,
                    key: None,
                    value: Some(row),
                    wanted: Wanted::Table,
                });
                None
            }
        }
    }

    fn read_lines(&mut self, document: Here<'a>)
        ensures range { IsInRange self.old → IsInRange self.new }
        ensures read { IsReadOn self.old self.new }
    {
        if !matches!(document.table.get("line"), Some(Value::Array(_))) {
            self.miss(document, "line", Wanted::Lines);
        }
        for (index, row) in rows_under(document.table, "line").iter().enumerate() {
            self.read_line(index, row);
        }
    }

    /// Reads a row of `line`, if it is a table. Its length is checked with the others.
    fn read_line(&mut self, index: usize, row: &'a Value)
        ensures range { IsInRange self.old → IsInRange self.new }
        ensures read { IsReadOn self.old self.new }
    {
        let Some(here) = self.table_at(row, Place::Line(index)) else {
            return;
        };
        let length = self.number(here, "length", u32::MAX, Wanted::Length);
        let name = name_in(here.table);
        if self.lines.push(LineDraft { length, name }).is_err() {
            self.is_cut = true;
        }
    }

    fn read_groups(&mut self, document: Here<'a>)
        ensures range { IsInRange self.old → IsInRange self.new }
        ensures read { IsReadOn self.old self.new }
    {
        if !matches!(document.table.get("group"), None | Some(Value::Array(_))) {
            self.miss(document, "group", Wanted::Groups);
        }
        for (index, row) in rows_under(document.table, "group").iter().enumerate() {
            self.read_group(index, row);
        }
    }

    /// Reads a row of `group`, if it is a table. Its line and place are checked with the others.
    fn read_group(&mut self, index: usize, row: &'a Value)
        ensures range { IsInRange self.old → IsInRange self.new }
        ensures read { IsReadOn self.old self.new }
    {
        let Some(here) = self.table_at(row, Place::Group(index)) else {
            return;
        };
        let group = GroupDraft {
            nid: self.number(here, "nid", MAX_NID, Wanted::Nid),
            line: self.number(here, "line", u32::MAX, Wanted::Line),
            at: self.number(here, "at", u32::MAX, Wanted::At),
            nominal: self.nominal(here),
            name: name_in(here.table),
        };
        if self.groups.push(group).is_err() {
            self.is_cut = true;
        }
    }

    /// Puts the balise groups in order: by line, then by place, then by number.
    pub fn sort_groups(&mut self)
        ensures reordered { IsReordered self.old self.new }
        ensures sorted { self.new.is_cut ≡ false → IsSorted group_order self.new.groups.items }
    {
        if put_in_order(&mut self.groups).is_err() {
            self.is_cut = true;
        }
    }
}

/// Puts balise groups in order: by line, then by place, then by number.
fn put_in_order(groups: &mut Vec<GroupDraft<'_>>) -> Result<(), AllocError>
    ensures permutation { IsPermutation groups.old.items groups.new.items }
    ensures sorted { OnOk result (IsSorted group_order groups.new.items) }
{
    groups.sort_by_key(|group| (group.line, group.at, group.nid))?;
    Ok(())
}

/// Reads a document: horizon, lines and groups, in this order.
pub fn draft_of(alloc: Global, table: &Table) -> Draft<'_>
    ensures range { IsInRange result }
    ensures name { option_copied result.name ≡ shown_name (table_view table.now) }
    ensures horizon { result.misfit ≡ None → horizon_in (table_view table.now) ≡ Some result.horizon }
{
    let document = Here {
        place: Place::Document,
        table,
    };
    let mut draft = Draft {
        name: name_in(table),
        horizon: 0,
        lines: Vec::new(alloc),
        groups: Vec::new(alloc),
        misfit: None,
        is_cut: false,
    };
    draft.read_horizon(document);
    draft.read_lines(document);
    draft.read_groups(document);
    draft
}
