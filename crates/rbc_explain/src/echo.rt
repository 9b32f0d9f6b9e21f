//! A line of the batch as the log shows it.

use std::alloc::{AllocError, Global};
use std::fmt::Write;

/// The most columns of a line that is shown whole. A line has at least as many columns as bytes.
const MOST_COLUMNS: usize = 80;

/// How many columns are shown of a longer line.
const FIRST_COLUMNS: usize = 60;

/// Whether a byte is shown as it is: a printable one of ASCII, but no backslash.
fn is_plain(byte: u8) -> bool {
    (32..=126).contains(&byte) && byte != b'\\'
}

/// The columns of bytes: a plain byte as it is, any other as `\xHH`.
fn columns_of(alloc: Global, bytes: &[u8]) -> Result<String, AllocError> {
    let mut columns = String::new(alloc);
    for byte in bytes {
        if is_plain(*byte) {
            columns.push(char::from(*byte))?;
        } else {
            write!(columns, "\\x{byte:02x}")?;
        }
    }
    Ok(columns)
}

/// The text of a line that is shown whole and as it is.
fn as_plain(line: &[u8]) -> Option<&str> {
    if line.len() > MOST_COLUMNS || !line.iter().all(|byte| is_plain(*byte)) {
        return None;
    }
    str::from_utf8(line).ok()
}

/// Adds a line of a batch: all of its columns if they are at most 80, else the first 60 and the number of its bytes.
pub(crate) fn push_echo(alloc: Global, text: &mut String, line: &[u8]) -> Result<(), AllocError> {
    if let Some(plain) = as_plain(line) {
        return text.push_str(plain);
    }
    let shown = &line[..line.len().min(MOST_COLUMNS + 1)];
    let columns = columns_of(alloc, shown)?;
    if columns.len() <= MOST_COLUMNS {
        return text.push_str(columns.as_str());
    }
    for column in columns.chars().take(FIRST_COLUMNS) {
        text.push(column)?;
    }
    let bytes = line.len();
    write!(text, " .. ({bytes} bytes)")
}
