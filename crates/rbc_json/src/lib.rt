//! A run, a check of a track and the result codes told as JSON, an object in each line, for other programs.
//!
//! What a value of JSON is and how it is written stands in specs/Json.antt (`json_text`); values exist in contracts
//! alone, and the program writes their text. Begin with text.rt, which has texts between quotation marks, and list.rt.
//!
//! It stands on rbc_account, which tells the run as values and writes the log as it goes, and on what rbc_explain reads
//! from a message; rbc_dispatch calls `explain_in_objects`, `check_report` and `codes_text`. What the first rests on is
//! `ExplainsInObjects` (specs/Log.antt), with `IsOfMessage` (specs/Messages.antt) of each message.
//!
//! A function that cannot report a lack of memory takes none. `AllocError` means that memory was refused; what the
//! function was changing is then of no further use, unless its docstring says what is left.
#![tactic(auto)]

mod check;
mod checked_track;
mod codes;
mod counts;
mod effect;
mod end_object;
mod form;
mod identifier;
mod input_object;
mod law;
mod list;
mod message;
mod not_told;
mod packet;
mod placing;
mod refused;
mod refused_track;
mod remark;
mod shapes;
mod telling;
mod text;
mod why;

pub use check::check_report;
pub use codes::codes_text;
pub use law::{json_law, json_law_witnesses};
pub use telling::explain_in_objects;
