//! A message in lines, one for each variable.

ghost use Rattle.std.specs.Prelude.{◌≡◌, ◌++◌, IfOk, OnOk, string_bytes};
ghost use Rattle.rbc_dispatch.specs.Long.{AllBitsAreShown, line_of, long_text};

use crate::meaning::meaning_in;
use crate::stand::{Row, Stand};
use ertms_bits::BitReader;
use std::alloc::{AllocError, Global};
use std::fmt::Write;

/// The heading above the lines.
const HEADING: &str = "  bit width  variable             value  meaning\n";

/// The bytes of a message, in lines: one for each variable, and one for bits that belong to no variable.
pub fn long_text(alloc: Global, bytes: &[u8]) -> Result<String, AllocError>
    ensures { IfOk result (λ text. string_bytes text ≡ long_text bytes.now) }
{
    let mut text = String::from_str(alloc, HEADING)?;
    let mut bits = BitReader::new(bytes);
    let mut at = Stand::beginning();
    let mut place: u32 = 0;
    while bits.left() > 0 {
        let row = at.row(place, &mut bits);
        push_line(&mut text, row)?;
        // No text that memory holds has this many lines.
        place = place.checked_add(row.width).ok_or(AllocError)?;
        at = at.after(row);
    }
    Ok(text)
}

/// Adds the line of a row.
fn push_line(text: &mut String, row: Row) -> Result<(), AllocError>
    ensures { OnOk result (string_bytes text.new ≡ string_bytes text.old ++ line_of row) }
{
    let (place, width, value) = (row.place, row.width, row.value);
    let (name, meaning) = (row.variable.column(), meaning_in(row));
    write!(
        text,
        "{place:>5} {width:>5}  {name} {value:>10}  {meaning}\n"
    )
}

/// The rows of a message show each of its bits: the values, each in as many bits as its row says, are one after another
/// the bits of the message.
pub fn rows_law()
    ensures { AllBitsAreShown }
{}
