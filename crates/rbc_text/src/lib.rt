//! The text of a batch: a line read as an input, and the output text of a desk.
//!
//! It stands on ertms_codec for the bytes of messages, and on rbc_rule and rbc_desk for inputs and desks. rbc_batch
//! reads and writes whole batches with it, rbc_live one line at a time, and rbc_caller and rbc_explain the lines of
//! their own.
//!
//! They rest on `parse_line`, which gives the input that the line spells or a refusal with its code, whatever bytes the
//! line has, and on `render`, which gives the output text of a desk.
//!
//! Begin with specs/BatchText.antt (`line_of`) and specs/OutputText.antt (`output_of`), then src/line.rt.
//!
//! A function that cannot report a lack of memory takes none. `AllocError` means that memory was refused; what the
//! function was changing is then of no further use, unless its docstring says what is left.
#![tactic(auto)]

mod calls;
mod digits;
mod line;
mod messages;
mod outlet;
mod output;
mod words;
mod writing;

pub use calls::Calls;
pub use line::parse_line;
pub use outlet::{Outlet, WriteFault};
pub use output::{
    push_decimal, push_result, render, render_answer, render_outboxes, render_results,
};
pub use rbc_desk::{decide, step_law};
pub use words::{decimal, first_line, halves, last_word};
pub use writing::{Unwritten, write_on, write_text};
