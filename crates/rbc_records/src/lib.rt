//! The single records in which everything known is kept: how they are read, stored and written, and how a search finds
//! the trains that a command seeks.
//!
//! Stands on rbc_settle for what a record holds. rbc_rule reads through a [`Reader`] and rests on this: what is known
//! never changes, and a search misses no train that the command seeks (specs/Notes.antt, specs/Seeking.antt). rbc_desk
//! keeps a [`PlainStore`]. Begin with record.rt and reader.rt.
//!
//! A function that cannot report a lack of memory takes none. `AllocError` means that memory was refused; what the
//! function was changing is then of no further use, unless its docstring says what is left.
#![tactic(auto)]

mod extent;
mod reader;
mod record;
mod record_table;
mod search;
mod store;
mod told_bits;
mod writes;

pub use rbc_settle::{Limits, Stops};
pub use reader::{ReadFault, Reader};
pub use record::{Key, Rec};
pub use search::Sought;
pub use store::{PlainStore, apply, exchange};
pub use writes::Writes;
