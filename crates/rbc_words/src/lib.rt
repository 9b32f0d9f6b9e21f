//! What people read and write in words: places, lengths and counts, what each result code and each fault means, and
//! lines with messages in words.
//!
//! It stands on rbc_rule for the refusals, on ertms_codec for messages, and on rbc_track and rbc_place for reports.
//! rbc_track_report, rbc_explain and rbc_picture write places and counts with it, and rbc_dispatch its faults, the list
//! of `dispatch codes`, and the lines of `dispatch encode` and `dispatch decode`. They rest on `row_of`, which gives
//! each refusal its own code, name, meaning and what to do (specs/Rows.antt), on the texts of [`Km`], [`Metres`] and
//! [`Count`] (specs/Units.antt), and on [`decode_lines`] and [`encode_lines`]: what is out is what the lines become
//! (specs/Filters.antt). `text_law` says that the text of a message and its bytes give each other back.
//!
//! Begin with units.rt and codes.rt; faults.rt has the faults, list.rt the whole list. Of the lines, begin with
//! rule.rt, which says what a filter does to a line; filter.rt goes from a reader to a writer.
//!
//! A function that cannot report a lack of memory takes none. `AllocError` means that memory was refused.
#![tactic(auto)]

mod codes;
mod decode;
mod encode;
mod faults;
mod filter;
mod last_word;
mod law;
mod line;
mod line_fault;
mod list;
mod report;
mod rule;
mod session;
mod units;
mod witnesses;

pub use codes::{Row, other_row_of, row_of, row_of_code};
pub use decode::decode_lines;
pub use encode::encode_lines;
pub use faults::{FAULTS, FaultRow};
pub use filter::{FilterError, filter_lines};
pub use law::text_law;
pub use line_fault::{LineFault, LineWord};
pub use list::codes_text;
pub use rule::{LineRule, Outlook, RuleError};
pub use units::{Count, Km, Metres};
pub use witnesses::text_law_witnesses;
