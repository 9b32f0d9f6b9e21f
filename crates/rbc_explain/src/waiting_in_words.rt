//! What waits at a train, in words.

use rbc_account::{Cause, Waiting, Waits};
use std::alloc::AllocError;
use std::fmt::Write;

/// Adds that something began to wait at a train.
pub(crate) fn push_waiting_at(
    text: &mut String,
    engine: u32,
    waiting: &Waiting,
) -> Result<(), AllocError> {
    let heading = heading(waiting.what);
    write!(text, "  {heading}: train {engine}, ")?;
    push_what(text, waiting)
}

/// Adds that something waits at the train that the lines before are about.
pub(crate) fn push_waiting(text: &mut String, waiting: &Waiting) -> Result<(), AllocError> {
    let heading = heading(waiting.what);
    write!(text, "    {heading}: ")?;
    push_what(text, waiting)
}

fn heading(what: Waits) -> &'static str {
    match what {
        Waits::Stop(_) | Waits::Restriction(_) => "NOT TOLD",
        Waits::Again(_) => "NOT TOLD AGAIN",
    }
}

/// Adds what waits, and why.
fn push_what(text: &mut String, waiting: &Waiting) -> Result<(), AllocError> {
    let cause = cause_words(waiting);
    match waiting.what {
        Waits::Stop(number) | Waits::Again(number) => write!(
            text,
            "stop {number}, since {cause}.\n"
        ),
        Waits::Restriction(number) => write!(text, "restriction {number}, since {cause}.\n"),
    }
}

/// The words for the cause.
fn cause_words(waiting: &Waiting) -> &'static str {
    match (waiting.cause, waiting.what) {
        (Cause::NoStamp, _) => "it has no stamp left",
        (Cause::NoIdentifier, Waits::Restriction(_)) => "none of its 255 identifiers is free",
        (Cause::NoIdentifier, _) => "none of its 15 identifiers is free",
    }
}
