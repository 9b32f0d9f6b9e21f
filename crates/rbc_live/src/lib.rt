//! Lines that are answered one at a time: a desk that lives as long as its owner and answers each line at once, the
//! alarms of trains that are not told what concerns them, and a session that answers lines as they come from a reader.
//!
//! It stands on rbc_text, which reads a line and decides its input. rbc_batch follows alarms with it; rbc_account, the
//! C library rbc_c, and the program `dispatch` call it.
//!
//! The storey above rests on the contract of `LiveDesk::feed` (desk.rt): the answer, the messages and the records after
//! a line are those of the rule's step, and nothing is changed if there is no answer. `history_law` says what follows
//! for all lines of a desk, and `alarm_law` what alarms promise. Begin with desk.rt; waiting.rt says what waits at a
//! train, and `answer_lines` (prompt.rt) goes from a reader to a writer.
//!
//! A function that cannot report a lack of memory takes none. `AllocError` means that memory was refused; what the
//! function was changing is then of no further use, unless its docstring says what is left.
#![tactic(auto)]

mod alarm;
mod desk;
mod law;
mod line;
mod prompt;
mod record_lookup;
mod session;
mod stand_in;
mod standing;
mod waiting;
mod wanted;
mod watch;
mod witnesses;

pub use alarm::Alarm;
pub use desk::{Answer, LiveDesk, LiveFault};
pub use law::{alarm_law, answers_law, history_law, waiting_law};
pub use prompt::{PromptError, answer_lines};
pub use record_lookup::{
    active_limit, active_limits, active_stop, active_stops, engines_in, last_limit, last_stop,
    train_in,
};
pub use waiting::{
    Cause, Waiting, Waits, all_waiting, lacks_something, limit_waits, stop_waits, waiting_limit,
    waiting_stop,
};
pub use wanted::Wanted;
pub use watch::Watch;
pub use witnesses::{
    alarm_changes_witnesses, alarm_law_witnesses, history_law_witnesses, waiting_law_witnesses,
};
