//! What a track file says, in words or as an object.

ghost use Rattle.std.specs.Prelude.{IfOk};
ghost use Rattle.rbc_dispatch.specs.Checking.{ChecksText, IsUnreported};
ghost use Rattle.rbc_track.specs.Reading.{track_of};
ghost use Rattle.rbc_track_report.specs.Report.{IsVerdictOn};

use crate::fault::Fault;
use rbc_json::check_report;
use rbc_text::write_text;
use rbc_track_report::{Report, Verdict, check};
use std::alloc::{AllocError, Global};
use std::io::Write;

/// Writes the report on the text of a track file, in words, or with `json` as an object. With `other_keys`, unknown
/// keys are notes, not warnings.
///
/// # Errors
///
/// `Track` if the text is not a track and `TrackWarnings` if it is one with warnings, both with the report written;
/// `Write`; or `OutOfMemory`, with nothing written.
pub fn check_text<O: Write>(
    alloc: Global,
    text: &str,
    other_keys: bool,
    json: bool,
    output: &mut O,
) -> Result<(), Fault>
    ensures checks { ChecksText text.now result }
    ensures unreported { IsUnreported result output.old output.new }
{
    let report = report_on(alloc, text, other_keys, json)?;
    if let Err(unwritten) = write_text(output, report.text.as_bytes()) {
        let sent = unwritten.sent as u64;
        return Err(Fault::Write { sent });
    }
    match report.verdict {
        Verdict::Good { warnings } if warnings == 0 => Ok(()),
        Verdict::Good { warnings } => Err(Fault::TrackWarnings { count: warnings }),
        Verdict::Refused(rule) => Err(Fault::Track(rule)),
    }
}

/// The report on the text of a track file, in words, or with `json` as an object.
fn report_on(alloc: Global, text: &str, other_keys: bool, json: bool) -> Result<Report, AllocError>
    ensures { IfOk result (λ report. IsVerdictOn (track_of text.now) report.verdict) }
{
    if json {
        check_report(alloc, text, other_keys)
    } else {
        check(alloc, text, other_keys)
    }
}
