//! The report on the text of a track.

ghost use Rattle.std.specs.Prelude.{◌≡◌};
ghost use Rattle.rbc_c.specs.Checks.{Checks, report_of};

use crate::faults::{DONE, MEMORY, NOT_UTF8, code_of};
use crate::given::write_front;
use rbc_track_report::{Verdict, check};
use std::alloc::Global;
use std::str;

/// What came of a check.
#[repr(C)]
#[derive(Clone, Copy, Drop)]
pub struct Report {
    /// Why the text is refused, 10 to 16; or 0, and it is a track.
    pub refused: u32,
    /// How many warnings the report on a track has.
    pub warnings: usize,
    /// How many bytes the report has.
    pub count: usize,
}

/// Checks the text of a track. Answers 0, or the code of a fault.
pub fn check_text(alloc: Global, track: &[u8], out: &mut [u8], report: &mut Report) -> u32
    ensures { Checks track.now out.old report.old result out.new report.new }
{
    let Ok(text) = str::from_utf8(track) else {
        return NOT_UTF8;
    };
    let Ok(checked) = check(alloc, text, false) else {
        return MEMORY;
    };
    let bytes = checked.text.as_bytes();
    write_front(bytes, out);
    *report = report_of(checked.verdict, bytes.len());
    DONE
}

/// What came of a check, as C has it, with a report of this many bytes.
fn report_of(verdict: Verdict, count: usize) -> Report
    ensures { result ≡ report_of verdict count }
{
    match verdict {
        Verdict::Good { warnings } => Report {
            refused: 0,
            warnings,
            count,
        },
        Verdict::Refused(rule) => Report {
            refused: code_of(rule),
            warnings: 0,
            count,
        },
    }
}
