//! One train: what is known of it, and how it is told. Settling revokes stops that are not active or are escalated, and
//! restrictions that are not active or are clear of the train, and tells what concerns it.
//!
//! It stands on rbc_zones, rbc_ids and the messages of ertms_codec. rbc_rule settles each train that an input touches.
//! It rests on [`settled`]: train and messages are those of the definition (specs/Settling.antt), at most 36, each with
//! room for its values; a refusal leaves the train as it was. [`settle_law`]: settling twice is settling once.
//!
//! Begin with train.rt and settling.rt. judge.rt judges all changes before the first; carrying_out.rt makes them.
//! `can_follow` (proofs/Follows.antt): each identifier is still free, or still used, at its turn.
//!
//! A function that cannot report a lack of memory takes none. `AllocError` means that memory was refused; what the
//! function was changing is then of no further use, unless its docstring says what is left.
#![tactic(auto)]

mod carrying_out;
mod change;
mod judge;
mod law;
mod needed_changes;
mod numbers;
mod sent;
mod settling;
mod single_change;
mod telling;
mod train;
mod witnesses;

pub use change::{LimitChange, StopChange, ToldEdge, ToldLimit, ToldStop};
pub use law::settle_law;
pub use numbers::Numbers;
pub use rbc_ids::{IdAck, IdTable, Slot, StampAck};
pub use rbc_zones::{Area, Limits, Place, Segment, Stops, Way};
pub use sent::Sent;
pub use settling::{is_settled, settle, settled};
pub use single_change::{Change, settled_after};
pub use telling::{limit_to_tell, stop_to_tell};
pub use train::{LIMIT_IDENTIFIERS, STOP_IDENTIFIERS, TrainRec};
pub use witnesses::settle_law_witnesses;
