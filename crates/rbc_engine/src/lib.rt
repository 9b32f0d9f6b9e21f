//! Workers that attempt many inputs of a run at once. What they leave is as if one had done the inputs one after
//! another.
//!
//! Stands on rbc_core and rbc_window. rbc_batch calls [`run`], in which workers attempt, commit in input order and
//! compute again what went stale, and [`run_by_train`], without attempts. It rests on one contract of both: the desk is
//! that of the rules applied to all inputs in order (`IsRun` of specs/Answers.antt). Begin with workers.rt, then
//! job.rt.
#![tactic(auto)]

mod by_train;
mod chunk;
mod gate;
mod hand;
mod job;
mod locking;
mod recorder;
mod way;
mod workers;

pub use by_train::Windows;
pub use gate::{Gate, OpenGate};
pub use rbc_core::{Desk, Stats};
pub use rbc_rule::MAX_INPUTS;
pub use recorder::Recorder;
pub use way::{PACE, Pace};
pub use workers::{MAX_WORKERS, RunError, run, run_by_train};
