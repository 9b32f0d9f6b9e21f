//! What a track file says, as an object.

ghost use Rattle.std.specs.Prelude.{IfOk};
ghost use Rattle.rbc_track.specs.Reading.{track_of};
ghost use Rattle.rbc_track_report.specs.Report.{IsVerdictOn};

use crate::checked_track::track_text;
use crate::refused_track::{no_document_text, refused_text};
use crate::remark::remarks_text;
use crate::shapes::VERSION;
use crate::text::null_text;
use rbc_track_report::{Findings, Report, ReportForm, check_in};
use std::alloc::{AllocError, Global};

/// Checks the text of a track file. With `other_keys`, unknown keys are notes, not warnings. The text of the report is
/// one object, in a line of its own.
pub fn check_report(alloc: Global, text: &str, other_keys: bool) -> Result<Report, AllocError>
    ensures verdict { IfOk result (λ report. IsVerdictOn (track_of text.now) report.verdict) }
{
    check_in(alloc, text, other_keys, &InObject)
}

/// A report as an object.
#[derive(Clone, Copy)]
struct InObject;

impl ReportForm for InObject {
    fn no_document(
        &self,
        alloc: Global,
        text: &str,
        start: Option<usize>,
        message: &str,
    ) -> Result<String, AllocError> {
        let refused = no_document_text(alloc, text, start, message)?;
        format!(in alloc;
            "{{\"version\":{VERSION},\"type\":\"check\",\"refused\":{refused},\"track\":null,\"warnings\":[],\
             \"notes\":[]}}\n"
        )
    }

    fn report(&self, alloc: Global, found: &Findings<'_>) -> Result<String, AllocError> {
        let (refused, track) = match found.rule {
            Some(rule) => (refused_text(alloc, rule, &found.breach)?, null_text(alloc)?),
            None => (null_text(alloc)?, track_text(alloc, &found.draft)?),
        };
        let warnings = remarks_text(alloc, found.remarks.warnings.as_slice())?;
        let notes = remarks_text(alloc, found.remarks.notes.as_slice())?;
        format!(in alloc;
            "{{\"version\":{VERSION},\"type\":\"check\",\"refused\":{refused},\"track\":{track},\
             \"warnings\":{warnings},\"notes\":{notes}}}\n"
        )
    }
}
