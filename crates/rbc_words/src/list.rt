//! The text of all codes and faults.

use crate::codes::{Row, other_row_of, row_of_code};
use crate::faults::FAULTS;
use rbc_rule::Refusal;
use std::alloc::{AllocError, Global};
use std::fmt::Write;

const BEGINNING: &str =
    "RESULT CODES. Each line of a batch is answered by `INPUT ok COUNT`, COUNT messages sent, or by
`INPUT refused CODE`. A refused line changes nothing and sends nothing, and the run goes on.

";

const MIDDLE: &str = "
FAULTS. One line on standard error, and exit status 1.

";

const END: &str = "
EXIT STATUS. 0: done. 1: a fault. 2: bad arguments, with a text on standard error.
";

/// Lists each result code and each fault: its number or its line, its name, what it means and what to do. The text has
/// lines of at most 100 columns.
pub fn codes_text(alloc: Global) -> Result<String, AllocError> {
    let mut text = String::from_str(alloc, BEGINNING)?;
    push_codes(&mut text)?;
    text.push_str(MIDDLE)?;
    push_faults(&mut text)?;
    text.push_str(END)?;
    Ok(text)
}

/// Adds the rows of all codes: each possible code is tried, so none is missing.
fn push_codes(text: &mut String) -> Result<(), AllocError> {
    for code in 0..=u8::MAX {
        if let Some(row) = row_of_code(code) {
            push_row(text, row)?;
        }
        if code == Refusal::BadArea.code()
            && let Some(row) = other_row_of(Refusal::BadArea)
        {
            push_row(text, row)?;
        }
    }
    Ok(())
}

fn push_row(text: &mut String, row: Row) -> Result<(), AllocError> {
    let (code, name) = (row.code, row.name);
    write!(text, "{code:>4}  {name}\n")?;
    push_meaning(text, row.sentence, row.to_do)
}

fn push_faults(text: &mut String) -> Result<(), AllocError> {
    for row in FAULTS {
        text.push_str("   ")?;
        text.push_str(row.line)?;
        text.push_str("\n")?;
        push_meaning(text, row.sentence, row.to_do)?;
    }
    Ok(())
}

/// Adds what something means and what to do about it, each with its indentation.
fn push_meaning(text: &mut String, sentence: &str, to_do: &str) -> Result<(), AllocError> {
    text.push_str("      ")?;
    text.push_str(sentence)?;
    text.push_str("\n      To do: ")?;
    text.push_str(to_do)?;
    text.push_str("\n")
}
