//! One input: what a step of the rules is, by definitions over whole states, and [`decide`], which does that step by
//! reading single records.
//!
//! Stands on rbc_records and rbc_settle. rbc_desk, rbc_core, rbc_engine and rbc_live decide each input so. They rest on
//! one contract: the outcome of `decide` is the step of each valid state that has the records that were read (`IsRight`
//! of specs/Right.antt; the step is `step` of specs/Step.antt). Begin with input.rt and rule.rt; then commands.rt for
//! the signaller, and receive.rt for trains.
//!
//! A function that cannot report a lack of memory takes none. `AllocError` means that memory was refused; what the
//! function was changing is then of no further use, unless its docstring says what is left.
#![tactic(auto)]

mod active_lists;
mod begin_and_end;
mod commands;
mod enrol;
mod fetch;
mod in_place;
mod input;
mod lists;
mod maxima;
mod outcome;
pub mod read;
mod receive;
mod refuse;
mod restriction;
mod rule;
mod touched_trains;
mod train_message;
mod withdraw;

pub use in_place::hear_in_place;
pub use input::{Input, Segments};
pub use lists::{engines_record, list_of};
pub use maxima::{
    MAX_ENGINE, MAX_INPUTS, MAX_LENGTH, MAX_LIMITS, MAX_STAMP, MAX_STOPS, MAX_TRAINS,
};
pub use outcome::{Outcome, Reply, RuleFault, SentList};
pub use refuse::{NotChanged, Refusal};
pub use restriction::Restriction;
pub use rule::decide;
pub use touched_trains::{Gathered, settle_trains};
pub use train_message::{UNKNOWN_STAMP, engine_of, heard};
