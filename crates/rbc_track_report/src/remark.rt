//! Remarks on a track file: warnings and notes.

ghost use Rattle.std.specs.Prelude.{◌≡◌, ◌-◌, [], true, false};
ghost use Rattle.rbc_track_report.specs.Growth.{IsWarned, IsNoted, IsWrittenOn};

use crate::keys::Kind;
use crate::named_document::Place;
use crate::place::push_place;
use crate::report_text::Sheet;
use std::alloc::Global;

const NO_LINE: &str = "The track has no line: every stop and every restriction is refused.\n";

const NO_GROUP: &str =
    "There is no balise group: no train can have a place, so each stop stops every train
      at once, and no restriction is told to any.
";

const BARE_LINE: &str = " has no balise group: no train can have a place on it.\n";

const FAR_HORIZON: &str = "is not below the longest line: a restriction is told however far
      ahead it begins.
";

const NEAR_HORIZON: &str = "is below 2 km: a fast train may need more than that to brake.\n";

/// What lies between two neighbours on a line.
#[derive(Clone, Copy)]
pub struct Gap {
    pub line: u32,
    pub from: u32,
    pub to: u32,
}

impl Gap {
    /// How wide it is.
    pub fn width(self) -> u32
        ensures { result ≡ self.to - self.from }
    {
        self.to.saturating_sub(self.from)
    }
}

/// What is doubtful about a track file. Lengths and places are in units of 10 cm.
#[derive(Clone, Copy)]
pub enum Remark<'a> {
    /// An unknown key stands in this many tables of a kind, the first of them at this index.
    UnknownKey {
        key: &'a str,
        kind: Kind,
        tables: usize,
        first: usize,
    },
    /// The name of something cannot be shown.
    HiddenName(Place),
    /// There is no line.
    NoLine,
    /// There is no balise group.
    NoGroup,
    /// A line has no balise group.
    BareLine(usize),
    /// Two balise groups are at one place.
    SamePlace {
        nids: (u32, u32),
        line: u32,
        at: u32,
    },
    /// The horizon is not below the longest line.
    FarHorizon(u32),
    /// The horizon is below 2 km.
    NearHorizon(u32),
    /// The horizon is less than the gap between two neighbours.
    WideGap {
        horizon: u32,
        gap: Gap,
    },
}

/// The remarks on a track file.
#[derive(Drop)]
pub struct Remarks<'a> {
    pub warnings: Vec<Remark<'a>>,
    pub notes: Vec<Remark<'a>>,
    /// Whether unknown keys are notes, not warnings.
    other_keys: bool,
    /// Whether memory was refused for a remark.
    pub is_cut: bool,
}

impl<'a> Remarks<'a> {
    /// No remarks.
    pub fn new(alloc: Global, other_keys: bool) -> Self
        ensures warnings { result.warnings.items ≡ [] }
        ensures notes { result.notes.items ≡ [] }
        ensures other_keys { result.other_keys ≡ other_keys }
        ensures whole { result.is_cut ≡ false }
    {
        Remarks {
            warnings: Vec::new(alloc),
            notes: Vec::new(alloc),
            other_keys,
            is_cut: false,
        }
    }

    /// Adds a warning.
    pub fn warn(&mut self, remark: Remark<'a>)
        ensures { IsWarned remark.entry self.old self.new }
    {
        if self.warnings.push(remark).is_err() {
            self.is_cut = true;
        }
    }

    /// Adds a note.
    pub fn note(&mut self, remark: Remark<'a>)
        ensures { IsNoted remark.entry self.old self.new }
    {
        if self.notes.push(remark).is_err() {
            self.is_cut = true;
        }
    }

    /// Adds the remark on an unknown key.
    pub fn unknown_key(&mut self, remark: Remark<'a>)
        ensures allowed { self.old.other_keys ≡ true → IsNoted remark.entry self.old self.new }
        ensures forbidden { self.old.other_keys ≡ false → IsWarned remark.entry self.old self.new }
    {
        if self.other_keys {
            self.note(remark);
        } else {
            self.warn(remark);
        }
    }
}

/// Adds a heading, and below it the remarks, numbered.
pub fn push_remarks(sheet: &mut Sheet, heading: &str, remarks: &[Remark<'_>])
    ensures { IsWrittenOn sheet.old sheet.new }
{
    sheet.words(heading);
    if remarks.is_empty() {
        sheet.words(": none.\n");
        return;
    }
    sheet.words(": ").number(remarks.len()).words(".\n");
    for (index, remark) in remarks.iter().enumerate() {
        sheet.column(4, index.saturating_add(1)).words(". ");
        push_remark(sheet, *remark);
    }
}

fn push_remark(sheet: &mut Sheet, remark: Remark<'_>)
    ensures { IsWrittenOn sheet.old sheet.new }
{
    match remark {
        Remark::UnknownKey {
            key,
            kind,
            tables,
            first,
        } => push_unknown(sheet, key, kind, tables, first),
        Remark::HiddenName(place) => push_hidden(sheet, place),
        Remark::NoLine => {
            sheet.words(NO_LINE);
        }
        Remark::NoGroup => {
            sheet.words(NO_GROUP);
        }
        Remark::BareLine(line) => {
            sheet.words("Line ").number(line).words(BARE_LINE);
        }
        Remark::SamePlace { nids, line, at } => push_same_place(sheet, nids, line, at),
        Remark::FarHorizon(horizon) => push_horizon(sheet, horizon, FAR_HORIZON),
        Remark::NearHorizon(horizon) => push_horizon(sheet, horizon, NEAR_HORIZON),
        Remark::WideGap { horizon, gap } => push_wide_gap(sheet, horizon, gap),
    }
}

fn push_unknown(sheet: &mut Sheet, key: &str, kind: Kind, tables: usize, first: usize)
    ensures { IsWrittenOn sheet.old sheet.new }
{
    sheet.words("Unknown key `").shown(key).words("` ");
    push_where(sheet, kind, tables, first);
    sheet
        .words(".\n      It is ignored. Known there: ")
        .words(known_there(kind))
        .words(".\n");
}

/// The keys that are known in tables of a kind, in words.
fn known_there(kind: Kind) -> &'static str {
    match kind {
        Kind::Document => "group, horizon, line, name",
        Kind::Line => "length, name",
        Kind::Group => "at, line, name, nid, nominal",
    }
}

/// Adds where a key stands: in this many tables of a kind, the first of them at an index.
#[tactic(auto, using(crate::proofs::Written::written_none, crate::proofs::Written::written_then))]
fn push_where(sheet: &mut Sheet, kind: Kind, tables: usize, first: usize)
    ensures { IsWrittenOn sheet.old sheet.new }
{
    match kind {
        Kind::Document => {
            sheet.words("at the top of the document");
        }
        Kind::Line => push_tables(sheet, "line", tables, first),
        Kind::Group => push_tables(sheet, "group", tables, first),
    }
}

fn push_tables(sheet: &mut Sheet, kind: &str, tables: usize, first: usize)
    ensures { IsWrittenOn sheet.old sheet.new }
{
    sheet.words("in ");
    if tables != 1 {
        sheet
            .number(tables)
            .words(" [[")
            .words(kind)
            .words("]] tables, first in ")
            .nth(first);
    } else {
        sheet.words("[[").words(kind).words("]] ").nth(first);
    }
}

fn push_hidden(sheet: &mut Sheet, place: Place)
    ensures { IsWrittenOn sheet.old sheet.new }
{
    sheet.words("The name of ");
    push_named(sheet, place);
    sheet.words(" is not shown: it has to be a text of 1 to 40 plain characters.\n");
}

/// Adds what has a name.
#[tactic(auto, using(crate::proofs::Written::written_none, crate::proofs::Written::written_then))]
fn push_named(sheet: &mut Sheet, place: Place)
    ensures { IsWrittenOn sheet.old sheet.new }
{
    match place {
        Place::Document => {
            sheet.words("the track");
        }
        Place::Line(_) | Place::Group(_) => push_place(sheet, place),
    }
}

fn push_same_place(sheet: &mut Sheet, nids: (u32, u32), line: u32, at: u32)
    ensures { IsWrittenOn sheet.old sheet.new }
{
    sheet
        .words("Balise groups ")
        .number(nids.0 as usize)
        .words(" and ")
        .number(nids.1 as usize)
        .words(" are at the same place: line ")
        .number(line as usize)
        .words(", km ")
        .length(at)
        .words(".\n");
}

fn push_horizon(sheet: &mut Sheet, horizon: u32, words: &str)
    ensures { IsWrittenOn sheet.old sheet.new }
{
    sheet
        .words("The horizon, ")
        .length(horizon)
        .words(" km, ")
        .words(words);
}

fn push_wide_gap(sheet: &mut Sheet, horizon: u32, gap: Gap)
    ensures { IsWrittenOn sheet.old sheet.new }
{
    sheet
        .words("The horizon, ")
        .length(horizon)
        .words(" km, is less than the ")
        .length(gap.width())
        .words(" km between two balise groups of line ")
        .number(gap.line as usize)
        .words(",\n      km ")
        .length(gap.from)
        .words(" and km ")
        .length(gap.to)
        .words(".\n");
}
