//! A log, told in words or as objects.

ghost use Rattle.rbc_account.specs.Telling.{LeavesUnread};
ghost use Rattle.rbc_dispatch.specs.Doing.{Announces};
ghost use Rattle.rbc_dispatch.specs.Running.{Keeps};
ghost use Rattle.rbc_dispatch.specs.Showing.{TellsIn, TellsOn};

use crate::fault::Fault;
use crate::terminal::{NOTICE, announce};
use rbc_explain::{LogWanted, TellError, explain};
use rbc_json::explain_in_objects;
use std::alloc::Global;
use std::io::{Read, Write};

/// Tells the log that the reader gives, in words, or with `json` as objects. The text is that of the track file. The
/// track is read before the log. At a terminal, says on `errors` that lines are read from it.
///
/// # Errors
///
/// `Tell`: of a track that is refused with nothing read or written, and of an input that is asked for and lacking with
/// nothing written. Otherwise what was told before stands.
pub fn explain_text<I: Read, O: Write, E: Write>(
    alloc: Global,
    text: &str,
    wanted: LogWanted,
    json: bool,
    at_terminal: bool,
    input: &mut I,
    output: &mut O,
    errors: &mut E,
) -> Result<(), Fault>
    ensures tells { TellsOn text.now wanted json (I.remaining input.old) (I.remaining input.new)
        (O.contents output.old) (O.contents output.new) result }
    ensures keeps { Keeps result input.old input.new output.old output.new }
    ensures errors { Announces at_terminal NOTICE.now errors.old errors.new
        (E.contents errors.old) (E.contents errors.new) }
{
    announce(at_terminal, errors);
    tell_in(alloc, text, wanted, json, input, output)?;
    Ok(())
}

/// Tells the log that the reader gives, in words, or with `json` as objects.
fn tell_in<I: Read, O: Write>(
    alloc: Global,
    text: &str,
    wanted: LogWanted,
    json: bool,
    input: &mut I,
    output: &mut O,
) -> Result<(), TellError>
    ensures tells { TellsIn text.now wanted json (I.remaining input.old) (I.remaining input.new)
        (O.contents output.old) (O.contents output.new) result }
    ensures unread { LeavesUnread result input.old input.new }
    ensures unwritten { LeavesUnread result output.old output.new }
{
    if json {
        explain_in_objects(alloc, text, wanted, input, output)
    } else {
        explain(alloc, text, wanted, input, output)
    }
}
