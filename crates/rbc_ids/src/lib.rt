//! The identifiers under which a train is told of stops and restrictions. Each is free, used, or being revoked.
//!
//! It stands on rbc_maps. Each train of rbc_settle has two tables: `IdTable<15>` for stops, `IdTable<255>` for
//! restrictions. They rest on the type, which keeps that a table is a map from identifiers to slots in which no number
//! is told twice (`IsTable` of specs/Table.antt), and on this: a change that is refused changes nothing, `issue` takes
//! the least free identifier and answers `Full` exactly if all are held, and `ack_stamp` answers every slot with a
//! stamp and says how many it freed and marked.
//!
//! Begin with slot.rt, then identifier_table.rt.
//!
//! A function that cannot report a lack of memory takes none. `AllocError` means that memory was refused; what the
//! function was changing is then of no further use, unless its docstring says what is left.
#![tactic(auto)]

mod identifier_table;
mod slot;

pub use identifier_table::IdTable;
pub use slot::{IdAck, IssueError, Kind, Slot, StampAck, UsedSlot};
