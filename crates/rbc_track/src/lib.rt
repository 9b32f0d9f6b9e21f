//! The track of a radio block centre: how long its lines are and where its balise groups stand. A file is read once,
//! into a [`Track`]. Looking something up in it takes no memory.
//!
//! It stands on rbc_maps, and on `toml` of the kit. The program and rbc_live read a track file with it; rbc_place looks
//! up balise groups, and rbc_zones checks segments. They rest on [`track_from_toml`], which gives the track that the
//! text is (`IsTrackOf`), the first rule that it breaks (`RefusesTrack`), or lack of memory; and on the type: each
//! balise group lies on its line, and a line is 1 to 3,000,000 units of 10 cm long (`IsPlan` of specs/Plan.antt).
//!
//! Begin with track.rt, then document.rt, which reads the keys of the file; behind.rt finds the balise group that a
//! train has passed last.
#![tactic(auto)]

mod behind;
mod document;
mod error;
mod group;
mod track;

pub use document::{MAX_NID, document_from};
pub use error::TrackError;
pub use group::{Group, Way};
pub use track::{MAX_LENGTH, Track, track_from_toml, track_in};
