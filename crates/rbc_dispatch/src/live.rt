//! Lines, answered as they come.

ghost use Rattle.rbc_dispatch.specs.Doing.{Announces};
ghost use Rattle.rbc_dispatch.specs.Living.{LivesOn};
ghost use Rattle.rbc_dispatch.specs.Running.{Keeps};

use crate::fault::Fault;
use crate::terminal::{NOTICE, announce};
use rbc_live::{LiveDesk, Wanted, answer_lines};
use std::alloc::Global;
use std::io::{Read, Write};

/// Answers the lines of a reader as they come. The text is that of the track file; `wanted` says from which number on,
/// and whether with alarms. The track is read before any line. At a terminal, says on `errors` that lines are read from
/// it.
///
/// # Errors
///
/// `Track`, with nothing read or written, or `Live`.
pub fn live_text<I: Read, O: Write, E: Write>(
    alloc: Global,
    text: &str,
    wanted: Wanted,
    at_terminal: bool,
    input: &mut I,
    output: &mut O,
    errors: &mut E,
) -> Result<(), Fault>
    ensures lives { LivesOn text.now wanted (I.remaining input.old) (I.remaining input.new)
        (O.contents output.old) (O.contents output.new) result }
    ensures keeps { Keeps result input.old input.new output.old output.new }
    ensures errors { Announces at_terminal NOTICE.now errors.old errors.new
        (E.contents errors.old) (E.contents errors.new) }
{
    let desk = LiveDesk::open(alloc, text)?;
    announce(at_terminal, errors);
    answer_lines(alloc, desk, input, output, wanted)?;
    Ok(())
}
