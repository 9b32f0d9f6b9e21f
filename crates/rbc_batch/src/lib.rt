//! A whole batch, from a reader to a writer: its lines are read as inputs, all of them are run on a new desk, and the
//! results and the messages are written.
//!
//! It stands on rbc_text, which reads a line and renders a desk, on rbc_engine, which runs inputs by several workers,
//! and on rbc_live for alarms. The program `dispatch` calls it; rbc_account takes its way to read a batch.
//!
//! The storey above rests on the contract of `process` (batch.rt), whose clause `answers` (specs/Process.antt) says
//! what is out at `Ok`, the output text of the serial run and nothing else, and at each fault. Begin there.
//!
//! A function that cannot report a lack of memory takes none. `AllocError` means that memory was refused; what the
//! function was changing is then of no further use, unless its docstring says what is left.
#![tactic(auto)]

mod alarms;
mod batch;
mod inputs;
mod rendering;
mod streams;

pub use alarms::process_with_alarms;
pub use batch::{ProcessError, lines_of_batch, process, process_by_train, process_with_desk};
pub use inputs::{first_lines, parse_batch, parse_lines};
pub use rbc_engine::{Desk, Gate, OpenGate, PACE, Pace, Stats, Windows};
pub use rbc_text::{parse_line, render, write_text};
pub use streams::read_batch;
