//! The track: read from a text once, then looked up in.

ghost use Rattle.std.specs.Prelude.{◌≡◌, ◌⊎◌, ◌≤◌, ◌<◌, true, false, IfOk, IfErr, OnOk, IfSome, All, slice_get};
ghost use Rattle.std.specs.Prelude.{MatchOption};
ghost use Rattle.rbc_track.specs.declared.error.TrackError.TheVariants.{GroupTwice, OutOfMemory};
ghost use Rattle.rbc_track.specs.Plan.{max_group_number, group_of, IsPlan, IsPlaced, IsLength};
ghost use Rattle.rbc_track.specs.Reading.{track_of, plan_of, is_length, is_on, are_apart, numbers_of, by_number};
ghost use Rattle.rbc_track.specs.Document.{written_in};
ghost use Rattle.rbc_track.specs.Reading.{IsTrackOf, FindsItsGroups, RefusesTrack, IsUnlessMemory, plan_or_shape};
ghost use Rattle.toml.specs.View.{table_view};
ghost use Rattle.rbc_track.specs.Behind.{IsNearestBehind, NoneBehind};
ghost use Rattle.std.specs.BTreeMap.{IsOrdered};
ghost use Rattle.std.specs.Ordering.{nat_cmp};
ghost use Rattle.std.specs.List.{list_all};

use crate::behind::nearest_of;
use crate::document;
use crate::document::{Site, document_from};
use crate::error::TrackError;
use crate::group::{Group, Way};
use std::alloc::{AllocError, Global};
use std::collections::BTreeMap;
use std::marker::Model;
use toml::Table;

/// The most lines that a track has.
const MAX_LINES: usize = 64;

/// The most balise groups that a track has.
const MAX_GROUPS: usize = 8_000;

/// The greatest length of a line, in units of 10 cm.
pub const MAX_LENGTH: u32 = 3_000_000;

/// How many hints a track has: one for each balise group of a country or region (NID_BG has 14 bits).
const HINTS: usize = 1 << 14;

/// A track: its lines, its balise groups, and its horizon, which is how far ahead of a train a restriction concerns
/// it.
#[derive(Drop)]
pub struct Track {
    horizon: u32,
    lines: Vec<u32>,
    /// The balise groups with their numbers, in ascending order of the number.
    groups: Vec<(u32, Group)>,
    /// Where in `groups` a number may stand, by its low 14 bits (NID_BG). It is looked at first.
    hints: Vec<u16>,
}

impl Model for Track {
    ghost use Rattle.rbc_track.specs.Plan.{Plan, IsPlan};

    ghost Value = { Plan };

    ghost use Rattle.rbc_track.specs.Inside.{plan_in, IsPlanIn};

    ghost view = { plan_in };

    ghost invariant = { IsPlanIn };
}

impl Track {
    /// Makes a track of what is written in a document.
    ///
    /// # Errors
    ///
    /// The first rule on whole lists that the document breaks, or `OutOfMemory`.
    fn new(
        alloc: Global,
        horizon: u32,
        lines: Vec<u32>,
        sites: &[Site],
    ) -> Result<Track, TrackError>
        requires horizon { IsLength horizon }
        requires numbers { All (λ site. site.nid ≤ max_group_number) sites.now }
        ensures { IsUnlessMemory
            (plan_of (record { horizon = horizon; lengths = lines.items; sites = sites.now }))
            result }
    {
        if lines.len() > MAX_LINES {
            return Err(TrackError::TooManyLines);
        }
        if sites.len() > MAX_GROUPS {
            return Err(TrackError::TooManyGroups);
        }
        if !are_lengths(lines.as_slice()) {
            return Err(TrackError::BadLength);
        }
        if !are_on(lines.as_slice(), sites) {
            return Err(TrackError::GroupOffLine);
        }
        let groups = in_a_row(alloc, by_number(alloc, sites)?)?;
        let hints = hints_of(alloc, groups.as_slice()).map_err(|_| TrackError::OutOfMemory)?;
        Ok(Track {
            horizon,
            lines,
            groups,
            hints,
        })
    }

    /// The balise group with a number, if the track has one.
    pub fn group(&self, nid: u32) -> Option<Group>
        ensures value { result ≡ group_of self.now nid }
        ensures placed { IfSome result (IsPlaced self.now nid) }
    {
        let hint = self.hints.get(nid as usize % HINTS).copied().unwrap_or(0);
        match rbc_maps::value_at(&self.groups, nid, usize::from(hint)) {
            Some(group) => Some(*group),
            None => rbc_maps::value_of(&self.groups, nid).copied(),
        }
    }

    /// The balise group that a train at a place of a line has passed last, with its number: the nearest one at the
    /// place or behind it, as the train faces. Of those at one place it is the one with the least number. None if
    /// there is none; the line need not exist.
    pub fn group_behind(&self, line: u32, place: u32, facing: Way) -> Option<(u32, Group)>
        ensures { MatchOption result (NoneBehind self.now line place facing)
            (IsNearestBehind self.now line place facing) }
    {
        nearest_of(&self.groups, line, place, facing)
    }

    /// The length of a line, in units of 10 cm, if the track has the line. Lines are numbered from 0.
    pub fn line_len(&self, line: u32) -> Option<u32>
        ensures value { result ≡ slice_get self.now.lines line }
        ensures in_range { IfSome result IsLength }
    {
        self.lines.get(line as usize).copied()
    }

    /// The horizon, in units of 10 cm.
    pub fn horizon(&self) -> u32
        ensures value { result ≡ self.now.horizon }
        ensures in_range { IsLength result }
        ensures sound { IsPlan self.now }
    {
        self.horizon
    }
}

/// Whether a line can have this length.
fn is_length(length: u32) -> bool
    ensures { result ≡ is_length length }
{
    (1..=MAX_LENGTH).contains(&length)
}

/// Whether each length is one that a line can have.
fn are_lengths(lines: &[u32]) -> bool
    ensures { result ≡ list_all is_length lines.now }
{
    lines.iter().all(|length| is_length(*length))
}

/// Whether a balise group's line exists, and the group's place is not above the line's length.
fn is_on(lines: &[u32], site: &Site) -> bool
    ensures { result ≡ is_on lines.now site.now }
{
    lines
        .get(site.line as usize)
        .is_some_and(|length| site.at <= *length)
}

/// Whether each balise group is on a line that exists.
fn are_on(lines: &[u32], sites: &[Site]) -> bool
    ensures { result ≡ list_all (is_on lines.now) sites.now }
{
    sites.iter().all(|site| is_on(lines, site))
}

/// The balise groups by their numbers.
///
/// # Errors
///
/// `GroupTwice` if two have the same number, or `OutOfMemory`.
fn by_number(alloc: Global, sites: &[Site]) -> Result<BTreeMap<u32, Group>, TrackError>
    requires { All (λ site. site.line < 256) sites.now }
    ensures apart { OnOk result (are_apart (numbers_of sites.now) ≡ true) }
    ensures groups { IfOk result (λ groups. groups.entries ≡ by_number sites.now) }
    ensures ascending { IfOk result (IsOrdered nat_cmp) }
    ensures twice { IfErr result
        (λ e. (e ≡ OutOfMemory) ⊎ ((e ≡ GroupTwice) × (are_apart (numbers_of sites.now) ≡ false))) }
{
    let mut groups = BTreeMap::new(alloc);
    for site in sites {
        let group = Group {
            line: site.line as u8,
            at: site.at,
            nominal: site.nominal,
        };
        if groups.insert(site.nid, group)?.is_some() {
            return Err(TrackError::GroupTwice);
        }
    }
    Ok(groups)
}

/// The entries of a map in a row, in ascending order of the number. Fails only for lack of memory.
fn in_a_row(alloc: Global, groups: BTreeMap<u32, Group>) -> Result<Vec<(u32, Group)>, TrackError>
    ensures row { IfOk result (λ row. row.items ≡ groups.entries) }
    ensures memory { IfErr result (λ e. e ≡ OutOfMemory) }
{
    groups
        .into_iter()
        .collect(alloc)
        .map_err(|_: AllocError| TrackError::OutOfMemory)
}

/// Where each number stands among the groups, by its low 14 bits. Of two with the same low bits, it is the place of the
/// later one. Fails only for lack of memory.
fn hints_of(alloc: Global, groups: &[(u32, Group)]) -> Result<Vec<u16>, AllocError> {
    let mut hints = vec![in alloc; 0u16; HINTS]?;
    note_hints(groups, &mut hints);
    Ok(hints)
}

/// Notes where the groups stand.
fn note_hints(groups: &[(u32, Group)], hints: &mut [u16]) {
    for (place, group) in groups.iter().enumerate() {
        if let Some(hint) = hints.get_mut(group.0 as usize % HINTS) {
            *hint = (place % 65_536) as u16;
        }
    }
}

/// Reads a track file, which is a TOML document. Lengths and places are in units of 10 cm. Keys other than these
/// are ignored.
///
/// - `horizon`: 1 to 3,000,000.
/// - `line`: at most 64 tables, one for each line. Lines are numbered from 0. `length` is 1 to 3,000,000.
/// - `group`: at most 8,000 tables, one for each balise group, in any order. Without the key there are none. `nid`
///   is its number, 0 to 16,777,214, `line` its line, `at` its place, which is not above the line's length, and
///   `nominal` is `"up"` or `"down"`. No two have the same number.
///
/// # Errors
///
/// The first cause that applies, in the order of the variants of [`TrackError`] (own rule). So a value of the wrong
/// kind is reported before a list that is too long, and so on. `OutOfMemory` can come in place of any result.
pub fn track_from_toml(alloc: Global, text: &str) -> Result<Track, TrackError>
    ensures ok { IfOk result (IsTrackOf text.now) }
    ensures found { IfOk result (FindsItsGroups text.now) }
    ensures refused { IfErr result (λ e. (e ≡ OutOfMemory) ⊎ RefusesTrack text.now e) }
    ensures exact { IsUnlessMemory (track_of text.now) result }
{
    let document = document_from(alloc, text)?;
    track_in(alloc, &document)
}

/// Reads the track that stands in a TOML document, as [`track_from_toml`] does.
///
/// # Errors
///
/// Those of [`track_from_toml`], but not `Text`.
pub fn track_in(alloc: Global, document: &Table) -> Result<Track, TrackError>
    ensures { IsUnlessMemory (plan_or_shape (written_in (table_view document.now))) result }
{
    let horizon = document::horizon_in(document).ok_or(TrackError::Shape)?;
    let lines = document::lengths_under(alloc, document)?;
    let sites = document::sites_under(alloc, document)?;
    Track::new(alloc, horizon, lines, sites.as_slice())
}
