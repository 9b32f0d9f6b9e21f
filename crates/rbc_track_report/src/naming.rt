//! A valid track as people know it: its name, its lines and its balise groups in order, and the number of warnings.

ghost use Rattle.std.specs.Prelude.{◌≡◌, ◌⊎◌, Some, option_map, option_copied, option_and_then, IfOk, IfErr};
ghost use Rattle.std.specs.Prelude.{string_bytes};
ghost use Rattle.toml.specs.Parse.{parse_document};
ghost use Rattle.toml.specs.View.{table_view};
ghost use Rattle.rbc_track.specs.Document.{horizon_in};
ghost use Rattle.rbc_track.specs.Reading.{IsTrackOf, RefusesTrack};
ghost use Rattle.rbc_track.specs.declared.error.TrackError.TheVariants.{OutOfMemory};
ghost use Rattle.rbc_track_report.specs.Shown.{shown_name};

use crate::doubts::{push_bare, push_hidden_names};
use crate::keys::push_unknown;
use crate::line_table::count_on;
use crate::named_document::{Draft, GroupDraft, draft_of};
use crate::remark::Remarks;
use rbc_track::{Track, TrackError, Way, document_from, track_in};
use std::alloc::{AllocError, Global};
use toml::Table;

/// A line of a track.
#[derive(Drop)]
pub struct NamedLine {
    /// Its length, in units of 10 cm.
    pub length: u32,
    /// Its name, if it has one that can be shown.
    pub name: Option<String>,
    /// How many balise groups are on it.
    pub groups: usize,
}

/// A balise group of a track.
#[derive(Clone, Copy, Debug, PartialEq, Eq)]
pub struct NamedGroup {
    /// NID_C and NID_BG as one number.
    pub nid: u32,
    /// The number of its line.
    pub line: u32,
    /// Its place on the line, in units of 10 cm.
    pub at: u32,
    /// Its nominal direction.
    pub nominal: Way,
}

/// A track with its names.
#[derive(Drop)]
pub struct NamedTrack {
    /// The name of the track, if it has one that can be shown.
    pub name: Option<String>,
    /// The horizon, in units of 10 cm.
    pub horizon: u32,
    /// The lines, in their order.
    pub lines: Vec<NamedLine>,
    /// The balise groups by line, then by place, then by number.
    pub groups: Vec<NamedGroup>,
    /// How many warnings a check of the track has.
    pub warnings: usize,
}

/// Reads a track file once: the track, as `track_from_toml` reads it, and the same track with its names. `warnings` is
/// the number of warnings that a check of the file gives.
///
/// # Errors
///
/// Those of `track_from_toml`.
pub fn tracks_from_toml(alloc: Global, text: &str) -> Result<(Track, NamedTrack), TrackError>
    ensures track { IfOk result (λ tracks. IsTrackOf text.now tracks.0) }
    ensures name { IfOk result (λ tracks. option_map (λ name. string_bytes name) tracks.1.name
        ≡ option_and_then shown_name (parse_document text.now)) }
    ensures horizon { IfOk result (λ tracks. option_and_then horizon_in (parse_document text.now)
        ≡ Some tracks.1.horizon) }
    ensures refused { IfErr result (λ e. (e ≡ OutOfMemory) ⊎ RefusesTrack text.now e) }
{
    let document = document_from(alloc, text)?;
    let track = track_in(alloc, &document)?;
    match named_track(alloc, &document) {
        Ok(named) => Ok((track, named)),
        Err(_) => Err(TrackError::OutOfMemory),
    }
}

/// The track in the document of a valid track file. Fails also if a value is missing, or is not what it has to be.
fn named_track(alloc: Global, document: &Table) -> Result<NamedTrack, AllocError>
    ensures name { IfOk result (λ named. option_map (λ name. string_bytes name) named.name
        ≡ shown_name (table_view document.now)) }
    ensures horizon { IfOk result (λ named. horizon_in (table_view document.now) ≡ Some named.horizon) }
{
    let mut draft = draft_of(alloc, document);
    draft.sort_groups();
    if draft.is_cut || draft.misfit.is_some() {
        return Err(AllocError);
    }
    named(alloc, document, &draft)
}

/// How many warnings the document of this draft has.
fn warnings_of(alloc: Global, document: &Table, draft: &Draft<'_>) -> Result<usize, AllocError> {
    let mut remarks = Remarks::new(alloc, false);
    push_unknown(alloc, &mut remarks, document);
    push_hidden_names(&mut remarks, document);
    push_bare(&mut remarks, draft);
    if remarks.is_cut {
        return Err(AllocError);
    }
    Ok(remarks.warnings.len())
}

/// The track of a draft without a misfit.
fn named(alloc: Global, document: &Table, draft: &Draft<'_>) -> Result<NamedTrack, AllocError>
    ensures name { IfOk result (λ named. option_map (λ name. string_bytes name) named.name
        ≡ option_copied draft.now.name) }
    ensures horizon { IfOk result (λ named. named.horizon ≡ draft.now.horizon) }
{
    let warnings = warnings_of(alloc, document, draft)?;
    Ok(NamedTrack {
        name: owned(alloc, draft.name)?,
        horizon: draft.horizon,
        lines: lines_in(alloc, draft)?,
        groups: groups_in(alloc, draft.groups.as_slice())?,
        warnings,
    })
}

/// A copy of a name.
fn owned(alloc: Global, name: Option<&str>) -> Result<Option<String>, AllocError>
    ensures { IfOk result (λ owned. option_map (λ name. string_bytes name) owned ≡ option_copied name.entry) }
{
    match name {
        Some(name) => Ok(Some(String::from_str(alloc, name)?)),
        None => Ok(None),
    }
}

/// The lines of a draft.
fn lines_in(alloc: Global, draft: &Draft<'_>) -> Result<Vec<NamedLine>, AllocError> {
    let mut lines = Vec::new(alloc);
    for (index, line) in draft.lines.iter().enumerate() {
        lines.push(NamedLine {
            length: line.length,
            name: owned(alloc, line.name)?,
            groups: count_on(draft.groups.as_slice(), index),
        })?;
    }
    Ok(lines)
}

/// The balise groups of a draft, in their order.
fn groups_in(alloc: Global, drafts: &[GroupDraft<'_>]) -> Result<Vec<NamedGroup>, AllocError> {
    let mut groups = Vec::new(alloc);
    for draft in drafts {
        groups.push(NamedGroup {
            nid: draft.nid,
            line: draft.line,
            at: draft.at,
            nominal: if draft.nominal == "down" {
                Way::Down
            } else {
                Way::Up
            },
        })?;
    }
    Ok(groups)
}
