//! Why a run cannot be told.

use crate::lines::LineFault;
use rbc_text::WriteFault;
use rbc_track::TrackError;
use std::alloc::AllocError;

/// Why a run is not told, or not to its end. What was written before stands.
#[derive(Clone, Copy, Debug, PartialEq, Eq)]
pub enum TellError {
    /// The text is not a track, and this is the first rule that it breaks.
    Track(TrackError),
    /// The reader failed, or did not end within 2 ^ 47 calls.
    Read,
    /// Memory was refused.
    Memory,
    /// There are only this many inputs, fewer than are asked for.
    OnlyInputs { count: u64 },
    /// The writer failed, took no bytes, was interrupted 1,000 times over one piece of text, or could not be flushed.
    /// Exactly the first `sent` bytes of the log are out, or at least that many if `sent` is 2 ^ 64 - 1.
    Write { sent: u64 },
    /// The same, because nobody reads the log any more.
    ReaderGone { sent: u64 },
}

impl From<TrackError> for TellError {
    ghost use Rattle.std.specs.Prelude.{◌≡◌};
    ghost use Rattle.rbc_account.specs.declared.fault.TellError.TheVariants.{Track};

    ghost from_gives = { λ error told. told ≡ Track error };

    fn from(error: TrackError) -> TellError {
        TellError::Track(error)
    }
}

impl From<AllocError> for TellError {
    ghost use Rattle.std.specs.Prelude.{◌≡◌};
    ghost use Rattle.rbc_account.specs.declared.fault.TellError.TheVariants.{Memory};

    ghost from_gives = { λ _ told. told ≡ Memory };

    fn from(_refused: AllocError) -> TellError {
        TellError::Memory
    }
}

impl From<WriteFault> for TellError {
    ghost use Rattle.std.specs.Prelude.{◌≡◌};
    ghost use Rattle.rbc_account.specs.Faults.{writing_fault};

    ghost from_gives = { λ fault told. told ≡ writing_fault fault };

    fn from(fault: WriteFault) -> TellError {
        let sent = fault.sent;
        if fault.gone {
            TellError::ReaderGone { sent }
        } else {
            TellError::Write { sent }
        }
    }
}

impl From<LineFault> for TellError {
    ghost use Rattle.std.specs.Prelude.{◌≡◌};
    ghost use Rattle.rbc_account.specs.Faults.{reading_fault};

    ghost from_gives = { λ fault told. told ≡ reading_fault fault };

    fn from(fault: LineFault) -> TellError {
        match fault {
            LineFault::Read => TellError::Read,
            LineFault::Memory => TellError::Memory,
        }
    }
}
