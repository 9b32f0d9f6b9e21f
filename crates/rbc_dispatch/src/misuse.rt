//! Arguments that are each right, but do not go together.
use std::alloc::AllocError;

/// Why arguments that clap takes give no task.
#[derive(Clone, Copy)]
pub enum Misuse {
    /// They do not go together, as this text says.
    Words(&'static str),
    /// Memory ran out.
    OutOfMemory,
}

impl From<AllocError> for Misuse {
    ghost use Rattle.std.specs.Prelude.{◌≡◌};
    ghost use Rattle.rbc_dispatch.specs.declared.misuse.Misuse.TheVariants.{OutOfMemory};

    ghost from_gives = { λ _ misuse. misuse ≡ OutOfMemory };

    fn from(_refused: AllocError) -> Misuse {
        Misuse::OutOfMemory
    }
}
