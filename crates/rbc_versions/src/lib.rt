//! Records that are published once under numbers: a number means one record for good, so numbers are compared in place
//! of records.
//!
//! Stands on rbc_records, and on `boxcar` of the kit for a log that threads share without a lock. rbc_core and
//! rbc_engine rest on this: two tickets of one log and one number show one record ([`VersionLog::agree`]). Begin with
//! log.rt, then published.rt and present.rt.
//!
//! A function that cannot report a lack of memory takes none. `OutOfMemory` and `AllocError` mean that memory was
//! refused; what the function was changing is then of no further use, unless its docstring says what is left. A
//! docstring names each other cause of an error.
#![tactic(auto)]

mod log;
mod noted_numbers;
mod present;
mod published;
mod tickets;

pub use log::{OutOfMemory, Ticket, Version, VersionLog};
pub use noted_numbers::Notes;
pub use present::Present;
pub use published::{Published, publish_all, publish_all_over};
