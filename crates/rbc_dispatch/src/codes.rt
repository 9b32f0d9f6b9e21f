//! What each code and each fault means.

ghost use Rattle.std.specs.Prelude.{◌≡◌, IfOk, IsSomeAnd, None, string_bytes};
ghost use Rattle.rbc_rule.specs.Codes.{code_of};
ghost use Rattle.rbc_rule.specs.declared.refuse.Refusal.{Refusal as Refused};
ghost use Rattle.rbc_dispatch.specs.Decoding.{IsUntouched};
ghost use Rattle.rbc_dispatch.specs.Parts.{AreRowsOf, IsPartOn};
ghost use Rattle.rbc_dispatch.specs.Telling.{IsListOf, TellsCodes};

use crate::fault::Fault;
use crate::show::show;
use rbc_rule::Refusal;
use rbc_words::{Row, codes_text, other_row_of, row_of_code};
use std::alloc::{AllocError, Global};
use std::fmt;
use std::io::Write;

/// Writes the objects of all codes and faults.
///
/// # Errors
///
/// `OutOfMemory`, with nothing written, or that the text was cut short.
pub fn write_code_objects<O: Write>(alloc: Global, output: &mut O) -> Result<(), Fault>
    ensures tells { TellsCodes None (O.contents output.old) (O.contents output.new) result }
    ensures untouched { IsUntouched result output.old output.new }
{
    let text = rbc_json::codes_text(alloc)?;
    show(output, text.as_bytes())
}

/// Writes the list of all codes and faults, or its part on one code, 1 to 16.
///
/// # Errors
///
/// `OutOfMemory`, with nothing written, or that the text was cut short.
pub fn write_codes<O: Write>(alloc: Global, code: Option<u32>, output: &mut O) -> Result<(), Fault>
    ensures tells { TellsCodes code (O.contents output.old) (O.contents output.new) result }
    ensures untouched { IsUntouched result output.old output.new }
{
    let text = list_of(alloc, code)?;
    show(output, text.as_bytes())
}

/// The list of all codes and faults, or its part on one code.
fn list_of(alloc: Global, code: Option<u32>) -> Result<String, AllocError>
    ensures { IfOk result (λ text. IsListOf code (string_bytes text)) }
{
    match code {
        Some(code) => part_on(alloc, code),
        None => codes_text(alloc),
    }
}

/// The part of the list on a code: its row, and after it the row for restrictions, which one code has.
fn part_on(alloc: Global, code: u32) -> Result<String, AllocError>
    ensures { IfOk result (λ text. IsPartOn code (string_bytes text)) }
{
    match rows_on(code) {
        Some((row, Some(more))) => format!(in alloc; "{}{}", Lines(row), Lines(more)),
        Some((row, None)) => format!(in alloc; "{}", Lines(row)),
        // Never reached: clap accepts only 1 to 16.
        None => Ok(String::new(alloc)),
    }
}

/// The row of a code, and the row for restrictions, which one code has.
fn rows_on(code: u32) -> Option<(Row, Option<Row>)>
    ensures { (refusal : Refused) → code ≡ code_of refusal → IsSomeAnd result (AreRowsOf refusal) }
{
    let code = u8::try_from(code).unwrap_or(0);
    let row = row_of_code(code)?;
    if code == Refusal::BadArea.code() {
        Some((row, other_row_of(Refusal::BadArea)))
    } else {
        Some((row, None))
    }
}

/// A row as lines of the list.
#[derive(Clone, Copy)]
struct Lines(Row);

impl fmt::Display for Lines {
    ghost use Rattle.std.specs.Prelude.{Some};
    ghost use Rattle.rbc_dispatch.specs.Parts.{row_text};

    ghost output = { λ lines. Some (row_text lines.0) };

    fn fmt<W: fmt::Write>(&self, f: &mut fmt::Formatter<W>) -> fmt::Result {
        let Row {
            code,
            name,
            sentence,
            to_do,
        } = self.0;
        write!(
            f,
            "{code:>4}  {name}\n      {sentence}\n      To do: {to_do}\n"
        )
    }
}
