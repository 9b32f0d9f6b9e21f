//! Why words ask for no task.
use clap::error::ErrorKind;
use std::alloc::AllocError;

/// Why the words give no task.
#[derive(Drop)]
pub enum NoTask {
    /// The words ask for help, or are not words that the program takes.
    Words(clap::Error),
    /// Memory ran out.
    OutOfMemory,
}

impl From<clap::Error> for NoTask {
    ghost use Rattle.std.specs.Prelude.{◌≡◌};
    ghost use Rattle.rbc_dispatch.specs.NoTask.{no_task_of};

    ghost from_gives = { λ error no_task. no_task ≡ no_task_of error };

    fn from(error: clap::Error) -> NoTask {
        match error.kind() {
            ErrorKind::OutOfMemory => NoTask::OutOfMemory,
            _ => NoTask::Words(error),
        }
    }
}

impl From<AllocError> for NoTask {
    ghost use Rattle.rbc_dispatch.specs.Words.{IsWantOfMemory};

    ghost from_gives = { λ _ no_task. IsWantOfMemory no_task };

    fn from(_refused: AllocError) -> NoTask {
        NoTask::OutOfMemory
    }
}
