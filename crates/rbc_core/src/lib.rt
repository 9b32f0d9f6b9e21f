//! The book in which attempts at the inputs of a desk are committed in the order of the inputs, and what holds after
//! all of its events.
//!
//! Stands on rbc_desk and rbc_versions. The workers of rbc_engine share one [`Book`] under a lock, and rest on this:
//! each call is one event, and the desk is always the serial run of the inputs that are committed (`Happens` of
//! specs/Events.antt; kept by the book's type). Begin with attempt.rt and book.rt; the laws are in law.rt.
//!
//! A function that cannot report a lack of memory takes none. `AllocError` means that memory was refused; what the
//! function was changing is then of no further use, unless its docstring says what is left.
#![tactic(auto)]

mod attempt;
mod book;
mod bounds;
mod law;
mod leavings;
mod run_name;
mod stage;
mod witnesses;

pub use attempt::Attempt;
pub use book::{Book, Commit, Stats};
pub use law::{conflict_law, event_law, forward_law, staying_law};
pub use leavings::Leavings;
pub use rbc_desk::{Desk, MAX_RESULTS, Mail, Outbox, decide, mails_law, mails_law_witnesses};
pub use run_name::RunName;
pub use witnesses::{
    conflict_law_witnesses, event_law_witnesses, event_numbers_witnesses, event_order_witnesses,
    forward_law_witnesses, staying_law_witnesses,
};
