//! The result codes and the faults of the program, an object for each.

use crate::shapes::VERSION;
use crate::text::quoted;
use rbc_rule::Refusal;
use rbc_words::{FAULTS, Row, other_row_of, row_of_code};
use std::alloc::{AllocError, Global};
use std::fmt::Write;

/// An object for each result code and each fault, each in a line of its own: what it means and what to do, each text in
/// one line.
pub fn codes_text(alloc: Global) -> Result<String, AllocError> {
    let mut text = String::new(alloc);
    push_codes(alloc, &mut text)?;
    push_faults(alloc, &mut text)?;
    Ok(text)
}

/// Adds the objects of all codes: each possible code is tried, so none is missing.
fn push_codes(alloc: Global, text: &mut String) -> Result<(), AllocError> {
    for code in 0..=u8::MAX {
        if let Some(row) = row_of_code(code) {
            push_row(alloc, text, row)?;
        }
        if code == Refusal::BadArea.code()
            && let Some(row) = other_row_of(Refusal::BadArea)
        {
            push_row(alloc, text, row)?;
        }
    }
    Ok(())
}

/// Adds the object of a code.
fn push_row(alloc: Global, text: &mut String, row: Row) -> Result<(), AllocError> {
    let (code, name) = (row.code, quoted(alloc, row.name)?);
    let (means, to_do) = (one_line(alloc, row.sentence)?, one_line(alloc, row.to_do)?);
    write!(
        text,
        "{{\"version\":{VERSION},\"type\":\"code\",\"code\":{code},\"name\":{name},\"means\":{means},\
         \"to_do\":{to_do}}}\n"
    )
}

/// Adds the objects of all faults.
fn push_faults(alloc: Global, text: &mut String) -> Result<(), AllocError> {
    for row in FAULTS {
        let fault = quoted(alloc, row.line)?;
        let (means, to_do) = (one_line(alloc, row.sentence)?, one_line(alloc, row.to_do)?);
        write!(
            text,
            "{{\"version\":{VERSION},\"type\":\"fault\",\"fault\":{fault},\"means\":{means},\"to_do\":{to_do}}}\n"
        )?;
    }
    Ok(())
}

/// A sentence that may be broken into lines, in one line and between quotation marks.
fn one_line(alloc: Global, sentence: &str) -> Result<String, AllocError> {
    let mut whole = String::new(alloc);
    for (index, line) in sentence.lines().enumerate() {
        if index != 0 {
            whole.push_str(" ")?;
        }
        whole.push_str(line.trim_start())?;
    }
    quoted(alloc, whole.as_str())
}
