//! Why a picture is not drawn.

use rbc_account::TellError;
use rbc_track::TrackError;
use std::alloc::AllocError;

/// Why a picture is not drawn.
#[derive(Clone, Copy, Debug, PartialEq, Eq)]
pub enum DrawError {
    /// The run is not told.
    Tell(TellError),
    /// The track does not have this line.
    NoLine { line: u32 },
    /// The part of this line does not lie on it: it goes beyond the end of the line, or does not rise.
    BeyondLine { line: u32 },
    /// No train with this engine number is enrolled after the inputs.
    NoTrain { engine: u32 },
}

impl From<TellError> for DrawError {
    ghost use Rattle.std.specs.Prelude.{◌≡◌};
    ghost use Rattle.rbc_picture.specs.declared.fault.DrawError.TheVariants.{Tell};

    ghost from_gives = { λ error fault. fault ≡ Tell error };

    fn from(error: TellError) -> DrawError {
        DrawError::Tell(error)
    }
}

impl From<TrackError> for DrawError {
    ghost use Rattle.std.specs.Prelude.{◌≡◌};
    ghost use Rattle.rbc_account.specs.declared.fault.TellError.TheVariants as telling;
    ghost use Rattle.rbc_picture.specs.declared.fault.DrawError.TheVariants.{Tell};

    ghost from_gives = { λ error fault. fault ≡ Tell (telling.Track error) };

    fn from(error: TrackError) -> DrawError {
        DrawError::Tell(TellError::Track(error))
    }
}

impl From<AllocError> for DrawError {
    ghost use Rattle.std.specs.Prelude.{◌≡◌};
    ghost use Rattle.rbc_account.specs.declared.fault.TellError.TheVariants as telling;
    ghost use Rattle.rbc_picture.specs.declared.fault.DrawError.TheVariants.{Tell};

    ghost from_gives = { λ _ fault. fault ≡ Tell telling.Memory };

    fn from(_refused: AllocError) -> DrawError {
        DrawError::Tell(TellError::Memory)
    }
}
