//! The codes that calls answer.

ghost use Rattle.std.specs.Prelude.{◌≡◌, ◌<◌};
ghost use Rattle.rbc_c.specs.Opens.{code_of};

use rbc_track::TrackError;

/// The call succeeded.
pub const DONE: u32 = 0;

/// Memory was refused.
pub const MEMORY: u32 = 1;

/// The handle has no desk or, when a desk is to be opened, already has one.
pub const NOT_NOW: u32 = 2;

/// There are more messages than room for them.
pub const ROOM: u32 = 3;

/// The caller was compiled with another rbc.h.
pub const OTHER_VERSION: u32 = 4;

/// The text of a track is not UTF-8.
pub const NOT_UTF8: u32 = 5;

/// The code of a track that is refused.
pub fn code_of(fault: TrackError) -> u32
    ensures value { result ≡ code_of fault }
    ensures positive { 0 < result }
{
    match fault {
        TrackError::OutOfMemory => MEMORY,
        TrackError::Text => 10,
        TrackError::Shape => 11,
        TrackError::TooManyLines => 12,
        TrackError::TooManyGroups => 13,
        TrackError::BadLength => 14,
        TrackError::GroupOffLine => 15,
        TrackError::GroupTwice => 16,
    }
}
