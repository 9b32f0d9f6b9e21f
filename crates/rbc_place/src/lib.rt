//! Where a train may stand, according to its position report.
//!
//! It stands on rbc_track and on the reports of ertms_codec. rbc_rule takes a report with it, and rbc_zones judges
//! stops and restrictions by a [`Place`]. They rest on [`place_of`]: it gives the place of the rule, `place_of_report`
//! of specs/Placing.antt, and that lies on its line. [`place_law`] says that its interval is exactly where a part of
//! the train may stand. A [`Place`] does not know its track. [`report_at`] goes the other way: it makes the report of a
//! train at a place.
//!
//! Begin with train_place.rt; report.rt reads the variables, line.rt goes along a line, and reporting.rt makes a
//! report.
#![tactic(auto)]

mod law;
mod line;
mod report;
mod reporting;
mod train_place;
mod witnesses;

pub use law::place_law;
pub use rbc_track::{Track, Way};
pub use reporting::{NoReport, report_at};
pub use train_place::{Place, place_of};
pub use witnesses::{place_law_witnesses, report_witnesses};
