//! Telling lines, from a reader to a writer.

ghost use Rattle.std.specs.Prelude.{◌≡◌, []};
ghost use Rattle.rbc_account.specs.Sums.{no_sums};
ghost use Rattle.rbc_account.specs.Telling.{TellsLines};

use crate::account::Account;
use crate::fault::TellError;
use crate::lines::{LineFault, LineReader};
use crate::log_form::{LogForm, LogWanted};
use crate::run_log::RunLog;
use std::alloc::Global;
use std::io::{Read, Write};

/// Takes lines, one after another, on an account that has taken none, and writes the log of them: the parts that are
/// wanted, in a form. The lines are read to the end of the reader, or until as many are taken as are to be run. The log
/// is written whenever there are 65,536 bytes of it, and at its end. Nothing is written before the first input that is
/// told. The memory is that of the account, of the longest line and of the longest part of the log.
///
/// # Errors
///
/// `Read`, with the log of all lines that had ended written, without its end. `Memory`, with that of some first lines.
/// `OnlyInputs` if the reader ends before the first input that is told; then nothing is written. For no input the first
/// that is told may be 1. `Write` or `ReaderGone`, which end it at once. Never `Track`.
pub fn tell_lines<F: LogForm, R: Read, W: Write>(
    alloc: Global,
    account: Account,
    form: &F,
    wanted: LogWanted,
    reader: &mut R,
    writer: &mut W,
) -> Result<(), TellError>
    requires empty { account.desk.records ≡ [] }
    requires sums { account.sums ≡ no_sums }
    ensures { TellsLines (F.is_text form.now) wanted account (R.remaining reader.old) (R.remaining reader.new)
        (W.contents writer.old) (W.contents writer.new) result }
{
    let mut lines = LineReader::new(alloc);
    let mut log = RunLog::new(alloc, account, wanted);
    while !log.is_full() {
        match lines.advance(reader) {
            Ok(true) => log.take_line(alloc, form, lines.line(), writer)?,
            Ok(false) => {
                log.check_first()?;
                return log.finish(alloc, form, writer);
            }
            Err(LineFault::Read) => return Err(log.stop(writer, TellError::Read)),
            Err(LineFault::Memory) => return Err(log.stop(writer, TellError::Memory)),
        }
    }
    log.finish(alloc, form, writer)
}
