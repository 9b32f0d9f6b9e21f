//! The report on a track file.

ghost use Rattle.std.specs.Prelude.{IfOk};
ghost use Rattle.rbc_track.specs.Reading.{track_of};
ghost use Rattle.rbc_track_report.specs.Report.{IsVerdictOn};

use crate::findings::{Findings, findings_on};
use crate::line_table::{push_head, push_lines};
use crate::place::{push_breach, sentence_of};
use crate::remark::push_remarks;
use crate::report_text::Sheet;
use rbc_track::{TrackError, track_from_toml};
use std::alloc::{AllocError, Global};

/// What came of a check.
#[derive(Clone, Copy)]
pub enum Verdict {
    /// The track is valid, with this many warnings.
    Good { warnings: usize },
    /// The text breaks this rule before any other. It is never `OutOfMemory`.
    Refused(TrackError),
}

/// What a track file says, and whether it is a track.
#[derive(Drop)]
pub struct Report {
    /// What came of the check.
    pub verdict: Verdict,
    /// The text for the user. In words: lines of at most 100 columns, each ended by a line feed.
    pub text: String,
}

/// How a report on a track file is written.
pub trait ReportForm {
    /// The report on a text that is no TOML document. `start` is the byte of the fault, if it is known, and `message`
    /// says in words what is wrong.
    fn no_document(
        &self,
        alloc: Global,
        text: &str,
        start: Option<usize>,
        message: &str,
    ) -> Result<String, AllocError>;

    /// The report on a document.
    fn report(&self, alloc: Global, found: &Findings<'_>) -> Result<String, AllocError>;
}

/// Checks the text of a track file, and reports in words. With `other_keys`, unknown keys are notes, not warnings.
pub fn check(alloc: Global, text: &str, other_keys: bool) -> Result<Report, AllocError>
    ensures verdict { IfOk result (λ report. IsVerdictOn (track_of text.now) report.verdict) }
{
    check_in(alloc, text, other_keys, &InWords)
}

/// Checks the text of a track file, and reports in a form. With `other_keys`, unknown keys are notes, not warnings.
pub fn check_in<F: ReportForm>(
    alloc: Global,
    text: &str,
    other_keys: bool,
    form: &F,
) -> Result<Report, AllocError>
    ensures verdict { IfOk result (λ report. IsVerdictOn (track_of text.now) report.verdict) }
{
    match track_from_toml(alloc, text) {
        Ok(_track) => {
            let (text, warnings) = text_of(alloc, text, other_keys, None, form)?;
            Ok(Report {
                verdict: Verdict::Good { warnings },
                text,
            })
        }
        Err(TrackError::OutOfMemory) => Err(AllocError),
        Err(rule) => {
            let (text, _warnings) = text_of(alloc, text, other_keys, Some(rule), form)?;
            Ok(Report {
                verdict: Verdict::Refused(rule),
                text,
            })
        }
    }
}

/// The text of a report, and how many warnings it has: of a good track, or of one that breaks a rule.
fn text_of<F: ReportForm>(
    alloc: Global,
    text: &str,
    other_keys: bool,
    rule: Option<TrackError>,
    form: &F,
) -> Result<(String, usize), AllocError> {
    match toml::table_from_str(alloc, text) {
        Ok(document) => {
            let found = findings_on(alloc, &document, other_keys, rule)?;
            Ok((form.report(alloc, &found)?, found.remarks.warnings.len()))
        }
        Err(fault) if fault.is_memory() => Err(AllocError),
        Err(fault) => {
            let start = match fault.span() {
                Some(span) => Some(span.start),
                None => None,
            };
            Ok((form.no_document(alloc, text, start, fault.message())?, 0))
        }
    }
}

/// A report in words.
#[derive(Clone, Copy)]
struct InWords;

impl ReportForm for InWords {
    fn no_document(
        &self,
        alloc: Global,
        text: &str,
        start: Option<usize>,
        message: &str,
    ) -> Result<String, AllocError> {
        let (line, column) = position(text, start.unwrap_or(0));
        let mut sheet = Sheet::new(alloc);
        push_refusal(&mut sheet, TrackError::Text);
        sheet
            .words("  line ")
            .number(line)
            .words(", column ")
            .number(column)
            .words(": ")
            .words(message)
            .words(".\n\nWarnings: none.\n");
        sheet.ended()
    }

    fn report(&self, alloc: Global, found: &Findings<'_>) -> Result<String, AllocError> {
        let mut sheet = Sheet::new(alloc);
        push_report(&mut sheet, found);
        sheet.ended()
    }
}

/// The line and the column of a text, both from 1, of the byte at an index. A column counts characters.
pub fn position(text: &str, start: usize) -> (usize, usize) {
    let mut line = 1usize;
    let mut column = 1usize;
    for byte in text.as_bytes().iter().take(start) {
        if *byte == b'\n' {
            line = line.saturating_add(1);
            column = 1;
        } else if *byte & 0xC0 != 0x80 {
            column = column.saturating_add(1);
        }
    }
    (line, column)
}

/// Adds which rule a track breaks, in a word and in a sentence.
fn push_refusal(sheet: &mut Sheet, rule: TrackError) {
    sheet
        .words("The track is refused: ")
        .words(rule.name())
        .words(".\n  ")
        .words(sentence_of(rule))
        .words("\n");
}

/// Adds the report on what a check found.
fn push_report(sheet: &mut Sheet, found: &Findings<'_>) {
    let Some(rule) = found.rule else {
        return push_good(sheet, found);
    };
    push_refusal(sheet, rule);
    if let Some(breach) = &found.breach {
        push_breach(sheet, breach);
    }
    sheet.words("\n");
    push_remarks(sheet, "Warnings", found.remarks.warnings.as_slice());
    if !found.remarks.notes.is_empty() {
        push_remarks(sheet, "Notes", found.remarks.notes.as_slice());
    }
}

/// Adds the report on a good track.
fn push_good(sheet: &mut Sheet, found: &Findings<'_>) {
    push_head(sheet, &found.draft);
    push_lines(sheet, &found.draft);
    sheet.words("\n");
    push_remarks(sheet, "Warnings", found.remarks.warnings.as_slice());
    push_remarks(sheet, "Notes", found.remarks.notes.as_slice());
    push_end(sheet, found.remarks.warnings.len());
}

/// Adds the last line on a good track.
fn push_end(sheet: &mut Sheet, warnings: usize) {
    if warnings == 0 {
        sheet.words("The track is good.\n");
        return;
    }
    let them = if warnings == 1 { "it" } else { "them" };
    sheet
        .words("The track is good, with ")
        .count(warnings, "warning")
        .words(": read ")
        .words(them)
        .words(" before it is used.\n");
}
