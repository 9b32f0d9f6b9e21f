//! Windows: messages that several workers take in at the same time, each for trains of its own. The result is the same
//! as if the messages were taken in one after another.
//!
//! Stands on rbc_desk, and on rbc_rule for what a message makes of its train. rbc_engine calls [`run_window`] with
//! `--by-train`, and rests on this: a window leaves the desk that its messages leave one after another, or the desk is
//! unchanged (`AreTakenIn`). Begin with window.rt, then share.rt.
//!
//! A function that cannot report a lack of memory takes none. `AllocError` means that memory was refused; what the
//! function was changing is then of no further use, unless its docstring says what is left. A docstring names each
//! other cause of an error.
#![tactic(auto)]

mod gathering;
mod hearing;
mod kept;
mod lists;
mod share;
mod shares;
mod trains;
mod window;

pub use hearing::Scene;
pub use kept::Kept;
pub use lists::Lists;
pub use share::{Share, share_of};
pub use shares::{are_done, taken_in, write_trains};
pub use window::{NotRun, run_window};
