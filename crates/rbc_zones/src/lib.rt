//! What a stop and a temporary speed restriction mean for one train at its place, and what the train is told. Places
//! and lengths are whole units of 10 cm, and places count from the lower end of a line.
//!
//! It stands on rbc_place and rbc_maps. rbc_settle judges a train by it, rbc_rule asks which trains a command touches,
//! and rbc_records searches by the same rules. They rest on [`concern`], [`limit_clear`] and [`limit_concerns`], which
//! follow the rules word for word (specs/Concerns.antt, specs/Limits.antt). [`stop_field`] and [`limit_fields`] give
//! the distances of a message; [`stop_law`] and [`limit_law`] say how exact they are.
//!
//! Begin with stop.rt and limit.rt. area.rt has the segments of a stop, with a mark for the line of each.
//!
//! No function here takes memory.
#![tactic(auto)]

mod area;
mod law;
mod limit;
mod restricted_stretch;
mod segment;
mod stop;
mod stop_distance;
mod stop_meaning;
mod witnesses;

pub use area::{Area, BadArea};
pub use law::{limit_law, stop_law};
pub use limit::{BadLimit, Dirs, Limit, limit_clear, limit_concerns};
use rbc_maps::Numbered;
pub use rbc_place::{Place, Way};
pub use restricted_stretch::limit_fields;
pub use segment::Segment;
pub use stop::concern;
pub use stop_distance::stop_field;
pub use stop_meaning::Concern;
pub use witnesses::{limit_law_witnesses, stop_law_witnesses};

/// The areas of the active stops, by the numbers of the stops. Each has eight marks, which stand for the lines of its
/// segments.
pub type Stops = Numbered<Area, 8>;

/// The active temporary speed restrictions, by their numbers. Each has one mark, which stands for its line.
pub type Limits = Numbered<Limit, 1>;
