//! What stands on the track, as a picture.

ghost use Rattle.rbc_dispatch.specs.Decoding.{IsUntouched};
ghost use Rattle.rbc_dispatch.specs.Running.{Keeps};
ghost use Rattle.rbc_dispatch.specs.Showing.{DrawsOn};

use crate::fault::Fault;
use crate::show::show;
use rbc_picture::{Selection, picture};
use std::alloc::Global;
use std::io::{Read, Write};

/// Writes the picture of the selected part of the track after the first `after` inputs of a log, which the reader
/// gives, or after all of them. The text is that of the track file. The track is read before the log, and nothing is
/// written before the whole picture is known.
///
/// # Errors
///
/// `Draw`, with nothing written, and with nothing read if the track is refused or lacks what is selected; or that the
/// picture was cut short.
pub fn picture_text<I: Read, O: Write>(
    alloc: Global,
    text: &str,
    after: Option<u64>,
    selection: &Selection<'_>,
    input: &mut I,
    output: &mut O,
) -> Result<(), Fault>
    ensures draws { DrawsOn text.now after selection.now (I.remaining input.old) (I.remaining input.new)
        (O.contents output.old) (O.contents output.new) result }
    ensures keeps { Keeps result input.old input.new output.old output.new }
    ensures untouched { IsUntouched result output.old output.new }
{
    let drawing = picture(alloc, text, input, after, selection)?;
    show(output, drawing.as_bytes())
}
