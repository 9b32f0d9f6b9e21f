//! The desk: the records, the results and the outboxes, and what its mails say.
//!
//! Stands on rbc_rule and rbc_rule_laws. rbc_core, rbc_window and rbc_engine run inputs on a [`Desk`] and rest on this:
//! [`Desk::take_in`] leaves the desk that the rules give after the input, or changes nothing (`serial` of
//! specs/Serial.antt). rbc_text writes its output. Begin with desk.rt; `mails_law` says that each mail says what the
//! rules give its train.
//!
//! A function that cannot report a lack of memory takes none. `AllocError` means that memory was refused; what the
//! function was changing is then of no further use, unless its docstring says what is left.
#![tactic(auto)]

mod answer;
mod answers;
mod desk;
mod law;
mod outbox;
mod witnesses;

pub use answer::Answer;
pub use desk::{Desk, MAX_RESULTS};
pub use law::mails_law;
pub use outbox::{Mail, Outbox};
pub use rbc_rule::decide;
pub use rbc_rule_laws::step_law;
pub use witnesses::mails_law_witnesses;
