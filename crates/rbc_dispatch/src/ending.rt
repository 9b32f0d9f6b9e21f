//! How the program ends if its task was not done.
use crate::fault::Fault;
use crate::no_task::NoTask;
use rbc_explain::TellError;
use std::io;
use std::io::Write;
use std::process::ExitCode;

/// Why the program ends with its task not done, or not all of its text written.
#[derive(Drop)]
pub enum Ending {
    /// The words ask for help, or are not words that the program takes.
    Words(clap::Error),
    /// The task that the arguments name met a fault.
    Fault(Fault),
}

impl Ending {
    ghost use Rattle.std.specs.Prelude.{◌≡◌, OnOk};
    ghost use Rattle.std.specs.Process.{exit_status};
    ghost use Rattle.rbc_dispatch.specs.Ending.{IsNoHelp, PrintsFault, status_of};

    /// The exit status: 0 for help and the version, and if the reader went away; 2 for bad arguments; 1 for any other
    /// fault.
    pub fn exit_code(&self) -> ExitCode
        ensures { exit_status result ≡ status_of self.now }
    {
        match self {
            Ending::Words(error) if !error.use_stderr() => ExitCode::SUCCESS,
            Ending::Words(_) => ExitCode::from(2),
            Ending::Fault(Fault::ReaderGone { .. }) => ExitCode::SUCCESS,
            Ending::Fault(Fault::Tell(TellError::ReaderGone { .. })) => ExitCode::SUCCESS,
            Ending::Fault(_) => ExitCode::FAILURE,
        }
    }

    /// Prints help on `output`, and on `errors` the text on bad arguments or the line of the fault. Prints nothing if
    /// the reader went away. An error may leave a part printed.
    pub fn print<O: Write, E: Write>(&self, output: &mut O, errors: &mut E) -> io::Result<()>
        ensures line { OnOk result
            (PrintsFault self.now (E.contents errors.old) (E.contents errors.new)) }
        ensures output { IsNoHelp self.now → output.new ≡ output.old }
        ensures errors { status_of self.now ≡ 0 → errors.new ≡ errors.old }
    {
        match self {
            Ending::Words(error) if !error.use_stderr() => write!(output, "{error}"),
            Ending::Words(error) => write!(errors, "{error}"),
            Ending::Fault(Fault::ReaderGone { .. }) => Ok(()),
            Ending::Fault(Fault::Tell(TellError::ReaderGone { .. })) => Ok(()),
            Ending::Fault(fault) => writeln!(errors, "{fault}"),
        }
    }
}

impl From<NoTask> for Ending {
    ghost use Rattle.std.specs.Prelude.{◌≡◌};
    ghost use Rattle.rbc_dispatch.specs.Ending.{ending_of};

    ghost from_gives = { λ no_task ending. ending ≡ ending_of no_task };

    fn from(no_task: NoTask) -> Ending {
        match no_task {
            NoTask::Words(error) => Ending::Words(error),
            NoTask::OutOfMemory => Ending::Fault(Fault::OutOfMemory),
        }
    }
}

impl From<Fault> for Ending {
    ghost use Rattle.std.specs.Prelude.{◌≡◌};
    ghost use Rattle.rbc_dispatch.specs.declared.ending.Ending.TheVariants.{Fault as at_fault};

    ghost from_gives = { λ fault ending. ending ≡ at_fault fault };

    fn from(fault: Fault) -> Ending {
        Ending::Fault(fault)
    }
}
