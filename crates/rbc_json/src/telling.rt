//! Telling a run in objects.

ghost use Rattle.rbc_account.specs.Telling.{LeavesUnread};
ghost use Rattle.rbc_json.specs.Log.{ExplainsInObjects};

use crate::form::Objects;
use rbc_account::{Account, LogWanted, TellError, account_law, tell_lines};
use rbc_track_report::tracks_from_toml;
use std::alloc::Global;
use std::io::{Read, Write};

/// Reads lines and takes them, one after another from the empty state, on the track that a text in TOML writes, and
/// tells the run in objects as it goes, each in a line of its own: what came of each input from number `wanted.from`
/// on, and what stands at the end. Earlier inputs are run, but not told. The lines are read to the end of the reader,
/// or until input `wanted.to` is told; if there are fewer inputs, all are run. If `from` is above `to`, no input is
/// told. `wanted.parts` says whether all this is told, only the objects of the refused inputs, or only that of the end.
///
/// The objects are ASCII. They are written whenever there are 65,536 bytes of them, and at the end; nothing is written
/// before the first input that is told.
///
/// # Errors
///
/// `Track` if the text is not a track, as `track_from_toml` says; nothing is read or written then. `Read`, after the
/// objects of all lines that had ended. `Memory`, after those of some first lines. `OnlyInputs` with the number of
/// inputs if it is below `from` and `to` is not reached; nothing is written then. For no input `from` may be 1. `Write`
/// and `ReaderGone` end it at once.
pub fn explain_in_objects<R: Read, W: Write>(
    alloc: Global,
    text: &str,
    wanted: LogWanted,
    input: &mut R,
    output: &mut W,
) -> Result<(), TellError>
    ensures explains { ExplainsInObjects text.now wanted (R.remaining input.old) (R.remaining input.new)
        (W.contents output.old) (W.contents output.new) result }
    ensures unread { LeavesUnread result input.old input.new }
    ensures unwritten { LeavesUnread result output.old output.new }
{
    account_law();
    let (track, named) = tracks_from_toml(alloc, text)?;
    let account = Account::new(alloc, track);
    let objects = Objects { track: named };
    tell_lines(alloc, account, &objects, wanted, input, output)
}
