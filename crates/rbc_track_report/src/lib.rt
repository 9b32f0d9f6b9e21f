//! What a track file says, in words: its lines and balise groups in order, what is doubtful about it, and the first
//! rule that it breaks.
//!
//! It stands on rbc_track, whose verdict it repeats, and on rbc_words. `dispatch check` calls [`check`]; rbc_explain
//! and rbc_picture call [`tracks_from_toml`] for a track with its names. They rest on the clause of [`check`] that
//! its verdict is that of `track_from_toml` (`IsVerdictOn`); the words beside it are tested.
//!
//! Begin with report.rt. A [`Sheet`] (report_text.rt) is a text that keeps a lack of memory and reports it at its end;
//! so do remarks and drafts. Any other function that cannot report it takes no memory. `AllocError` means that memory
//! was refused.
#![tactic(auto)]

mod breach;
mod doubts;
mod findings;
mod keys;
mod line_table;
mod named_document;
mod names;
mod naming;
mod place;
mod remark;
mod report;
mod report_text;

pub use breach::Breach;
pub use findings::Findings;
pub use keys::Kind;
pub use named_document::{Draft, GroupDraft, LineDraft, Misfit, Place};
pub use naming::{NamedGroup, NamedLine, NamedTrack, tracks_from_toml};
pub use remark::{Gap, Remark, Remarks};
pub use report::{Report, ReportForm, Verdict, check, check_in, position};
pub use report_text::Sheet;
