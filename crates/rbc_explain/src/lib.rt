//! A run told in words, as a log: each input with what came of it, each message with what it says and why it was sent,
//! and what stands at the end. Each line of the output of a run stands in it, with `= ` before it.
//!
//! It stands on rbc_account, which tells the run as values and writes the log as it goes; rbc_dispatch calls `explain`.
//! What that call rests on is `Explains` (specs/Log.antt), with `Tells` (specs/Telling.antt) of each message. Begin with
//! telling.rt, and words.rt for the parts of a log; then input_block.rt has one input, and message.rt one message.
//!
//! A function that cannot report a lack of memory takes none. `AllocError` means that memory was refused; what the
//! function was changing is then of no further use, unless its docstring says what is left. A docstring names each
//! other cause of an error.
#![tactic(auto)]

mod bad_line;
mod deed_in_words;
mod echo;
mod figures;
mod input_block;
mod log;
mod log_end;
mod log_head;
mod message;
mod packet_reason;
mod refused;
mod restriction;
mod said;
mod sentence;
mod stop_reason;
mod telling;
mod waiting_in_words;
mod words;

pub use bad_line::BadLine;
pub use log_head::RULES;
pub use rbc_account::{LogParts, LogWanted, TellError};
pub use refused::row_for;
pub use said::{Spoken, Spot, spoken_by, spoken_by_packet};
pub use telling::explain;
