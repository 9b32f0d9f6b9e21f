//! The limits (own rules, except that of the engine number). An input beyond a limit is refused.

/// The greatest number of enrolled trains.
pub const MAX_TRAINS: usize = 2_000;

/// The greatest number of active emergency stops.
pub const MAX_STOPS: usize = 64;

/// The greatest number of active temporary speed restrictions.
pub const MAX_LIMITS: usize = 300;

/// The greatest number of inputs of one run.
pub const MAX_INPUTS: usize = 100_000;

/// The greatest engine number (NID_ENGINE has 24 bits).
pub const MAX_ENGINE: u32 = 16_777_215;

/// The greatest length of a train, in units of 10 cm.
pub const MAX_LENGTH: u32 = 40_000;

/// The greatest T_TRAIN of a message from a train, in units of 10 ms.
pub const MAX_STAMP: u32 = 4_200_000_000;
