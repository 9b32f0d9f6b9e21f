//! The head of a log: what it is, and the track.

use rbc_track_report::{NamedLine, NamedTrack};
use rbc_words::{Count, Km};
use std::alloc::{AllocError, Global};
use std::fmt::Write;

/// The number of the operating rules. It rises whenever a batch can get another output.
pub const RULES: usize = 3;

/// The head of a log that begins at an input.
pub(crate) fn head(alloc: Global, track: &NamedTrack, from: u64) -> Result<String, AllocError> {
    let mut text = String::new(alloc);
    write!(
        text,
        "DISPATCH LOG, rules {RULES}. Places are in km from the beginning of a line; up is towards rising km.\n"
    )?;
    text.push_str("A line after \"= \" is as `dispatch run` writes it.\n")?;
    push_track(&mut text, track)?;
    for (index, line) in track.lines.iter().enumerate() {
        push_track_line(&mut text, index, line)?;
    }
    if track.warnings != 0 {
        let warnings = Count {
            number: track.warnings,
            noun: "warning",
        };
        write!(text, "  {warnings}: see `dispatch check`.\n")?;
    }
    push_skipped(&mut text, from)?;
    Ok(text)
}

/// Adds what the track is as a whole.
fn push_track(text: &mut String, track: &NamedTrack) -> Result<(), AllocError> {
    let lines = Count {
        number: track.lines.len(),
        noun: "line",
    };
    let groups = Count {
        number: track.groups.len(),
        noun: "balise group",
    };
    let horizon = Km(track.horizon);
    text.push_str("Track")?;
    push_name(text, &track.name)?;
    write!(text, ": {lines}, {groups}, horizon {horizon} km.\n")
}

/// Adds a line of the track.
fn push_track_line(text: &mut String, index: usize, line: &NamedLine) -> Result<(), AllocError> {
    let (length, groups) = (
        Km(line.length),
        Count {
            number: line.groups,
            noun: "balise group",
        },
    );
    write!(text, "  line {index}")?;
    push_name(text, &line.name)?;
    write!(text, ": km 0.000 to km {length}, {groups}\n")
}

/// Adds a name between quotation marks, or nothing.
fn push_name(text: &mut String, name: &Option<String>) -> Result<(), AllocError> {
    match name {
        Some(name) => write!(text, " \"{name}\""),
        None => Ok(()),
    }
}

/// Adds which inputs were run before the first one that is told.
fn push_skipped(text: &mut String, from: u64) -> Result<(), AllocError> {
    let last = from.saturating_sub(1);
    match last {
        0 => Ok(()),
        1 => text.push_str("\nRun before this: input 1.\n"),
        _ => write!(text, "\nRun before this: inputs 1 to {last}.\n"),
    }
}
