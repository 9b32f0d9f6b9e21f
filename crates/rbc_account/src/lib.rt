//! A run told as values: what each input did, why each message was sent, what waits at which trains, and the state
//! after the last input. Places and lengths are in units of 10 cm, stamps (T_TRAIN) in units of 10 ms.
//!
//! It stands on the desk of rbc_live, which takes the inputs; rbc_explain and rbc_picture call it. What these rest on
//! is `IsRightBlock` (specs/Blocks.antt), which `Account::step` promises of each input. Begin with account.rt; then
//! block.rt has what came of one input, told.rt why its messages were sent, and state.rt the state.
//!
//! lines.rt reads lines one after another. tell.rt takes them and writes the log as it goes, in a form that the caller
//! gives (`LogForm`, log_form.rt). `tell_lines` promises `TellsLines` (specs/Telling.antt).
//!
//! A function that cannot report a lack of memory takes none. `AllocError` means that memory was refused; what the
//! function was changing is then of no further use, unless its docstring says what is left.
#![tactic(auto)]

mod account;
mod block;
mod coming;
mod counts;
mod deed;
mod detail;
mod distances;
mod fault;
mod law;
mod lines;
mod log_form;
mod placing;
mod reason;
mod record_lookup;
mod run_log;
mod sent_input;
mod state;
mod tell;
mod told;
mod told_place;
mod witnesses;

pub use account::{Account, Sums};
pub use block::Block;
pub use counts::Counts;
pub use deed::{Acked, Deed};
pub use detail::Detail;
pub use distances::{unit_told, way_told};
pub use fault::TellError;
pub use law::account_law;
pub use lines::{LineFault, LineReader};
pub use log_form::{LogForm, LogParts, LogWanted};
pub use placing::{NoPlace, Placing};
pub use rbc_live::{Cause, Waiting, Waits};
pub use sent_input::{SentInput, SentInputs};
pub use state::{Sharing, Standing, TrainStanding};
pub use tell::tell_lines;
pub use told::{RestrictionTold, Told, ToldRestriction, ToldWhat, WhyAtOnce, WhyRevoked, WhyTold};
pub use told_place::{ToldPlace, ToldPlaces};
pub use witnesses::account_law_witnesses;
