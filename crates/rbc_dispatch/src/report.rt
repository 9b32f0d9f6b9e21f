//! What `run --stats` says on standard error: how the inputs were answered, what the workers did, and what that took.

use crate::figures::Figures;
use crate::replies::{accepted, messages, refused_with};
use rbc_batch::Desk;
use rbc_rule::Refusal;
use std::io::Write;
use std::rt::Files;
use std::time::{Clock, Instant};
use std::{fs, io};

/// Writes the report on a finished run. The time at which it began is given if it is known. An error may leave a part
/// of it written.
pub fn write_report<R: AllocGlobal + Clock + Files, E: Write>(
    rt: &R,
    desk: &Desk,
    figures: &Figures,
    began: Option<Instant>,
    errors: &mut E,
) -> io::Result<()> {
    write_replies(desk, errors)?;
    writeln!(errors, "{figures}")?;
    if let Some(Ok(time)) = began.map(|began| began.elapsed(rt)) {
        writeln!(errors, "time: {} ms", time.as_millis())?;
    }
    if let Some(memory) = peak_memory(rt) {
        writeln!(errors, "memory: {memory} kB")?;
    }
    Ok(())
}

/// Writes how the inputs were answered, and how many messages were sent to how many trains.
fn write_replies<E: Write>(desk: &Desk, errors: &mut E) -> io::Result<()> {
    let results = desk.results();
    let accepted = accepted(results);
    writeln!(errors, "inputs: {}", results.len())?;
    writeln!(errors, "accepted: {accepted}")?;
    writeln!(
        errors,
        "refused: {}",
        results.len().saturating_sub(accepted)
    )?;
    for code in 1..=Refusal::NothingToAcknowledge.code() {
        let count = refused_with(results, code);
        if count > 0 {
            writeln!(errors, "  code {code}: {count}")?;
        }
    }
    writeln!(errors, "messages: {}", messages(desk))?;
    writeln!(errors, "trains with a message: {}", desk.outboxes())
}

/// The most memory that the process has had at once, in kB, as Linux counts it; `None` if that cannot be read.
fn peak_memory<R: AllocGlobal + Files>(rt: &R) -> Option<u64> {
    let status = fs::read_to_string(rt, "/proc/self/status").ok()?;
    let line = status
        .as_str()
        .lines()
        .find(|line| line.starts_with("VmHWM:"))?;
    line.strip_prefix("VmHWM:")?
        .strip_suffix("kB")?
        .trim()
        .parse::<u64>()
        .ok()
}
