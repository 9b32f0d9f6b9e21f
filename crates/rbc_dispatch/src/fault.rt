//! What can keep the program from its task.
use ertms_codec::{DecodeError, DescribeError, EncodeError, WrongWord};
use hex::FromHexError;
use rbc_batch::ProcessError;
use rbc_explain::TellError;
use rbc_live::PromptError;
use rbc_picture::DrawError;
use rbc_text::Unwritten;
use rbc_track::TrackError;
use rbc_words::{Count, FilterError, LineFault};
use std::alloc::AllocError;
use std::{fmt, io};

/// Why a task that the arguments named was not done. Its `Display` is the line for the user.
#[derive(Clone, Copy)]
pub enum Fault {
    /// The track file could not be read, or is not UTF-8. Nothing was read or written.
    TrackUnreadable,
    /// The text of the track file is not a track. Nothing was read or written.
    Track(TrackError),
    /// The track is valid, and its report, which is written, has this many warnings.
    TrackWarnings { count: usize },
    /// The batch was not processed.
    Batch(ProcessError),
    /// The run was not told, or not to its end. What was written before stands.
    Tell(TellError),
    /// The picture was not drawn. Nothing was written.
    Draw(DrawError),
    /// Not all lines were answered. What was written before stands.
    Live(PromptError),
    /// Not all lines went through `encode` or `decode`. What was written before stands.
    Lines(FilterError<LineFault>),
    /// The text is the text of no message.
    Text(WrongWord),
    /// The word is not hexadecimal text of whole bytes.
    BadHex,
    /// The bytes are not a message.
    Decode(DecodeError),
    /// Standard output took no more than the first `sent` bytes of the text.
    Write { sent: u64 },
    /// The reader of standard output went away after the first `sent` bytes of a text that is written for people. The
    /// program then ends quietly.
    ReaderGone { sent: u64 },
    /// Memory ran out before anything was written.
    OutOfMemory,
}

impl fmt::Display for Fault {
    ghost use Rattle.std.specs.Prelude.{Some};
    ghost use Rattle.rbc_dispatch.specs.Fault.{line_of};

    ghost output = { λ fault. Some (line_of fault) };

    fn fmt<W: fmt::Write>(&self, f: &mut fmt::Formatter<W>) -> fmt::Result {
        match self {
            Fault::TrackUnreadable => write!(f, "track: unreadable"),
            Fault::Track(error) => write!(f, "track: {}", error.name()),
            Fault::TrackWarnings { count } => {
                let warnings = Count {
                    number: *count,
                    noun: "warning",
                };
                write!(f, "track: {warnings}")
            }
            Fault::Batch(error) => write!(f, "{error}"),
            Fault::Tell(error) => write!(f, "{}", TellLine(*error)),
            Fault::Draw(DrawError::Tell(error)) => write!(f, "{}", TellLine(*error)),
            Fault::Draw(DrawError::NoLine { line }) => write!(f, "picture: no line {line}"),
            Fault::Draw(DrawError::BeyondLine { line }) => {
                write!(f, "picture: the part is not on line {line}")
            }
            Fault::Draw(DrawError::NoTrain { engine }) => write!(f, "picture: no train {engine}"),
            Fault::Live(error) => write!(f, "{error}"),
            Fault::Lines(error @ FilterError::Line { .. }) => write!(f, "encode: {error}"),
            Fault::Lines(error) => write!(f, "{error}"),
            Fault::Text(wrong) => write!(f, "encode: {wrong}"),
            Fault::BadHex => write!(f, "bad hex"),
            Fault::Decode(error) => write!(f, "decode: {error}"),
            Fault::Write { sent } => write!(f, "write fault after {sent} bytes"),
            Fault::ReaderGone { sent } => write!(f, "reader gone after {sent} bytes"),
            Fault::OutOfMemory => write!(f, "out of memory"),
        }
    }
}

/// The line for the user if a run is not told.
#[derive(Clone, Copy)]
struct TellLine(TellError);

impl fmt::Display for TellLine {
    ghost use Rattle.std.specs.Prelude.{Some};
    ghost use Rattle.rbc_dispatch.specs.Fault.{telling_text};

    ghost output = { λ line. Some (telling_text line.0) };

    fn fmt<W: fmt::Write>(&self, f: &mut fmt::Formatter<W>) -> fmt::Result {
        match self.0 {
            TellError::Track(error) => write!(f, "track: {}", error.name()),
            TellError::Read => write!(f, "read fault"),
            TellError::Memory => write!(f, "out of memory"),
            TellError::OnlyInputs { count } => {
                let inputs = Count {
                    number: count as usize,
                    noun: "input",
                };
                write!(f, "only {inputs}")
            }
            TellError::Write { sent } => write!(f, "write fault after {sent} bytes"),
            TellError::ReaderGone { sent } => write!(f, "reader gone after {sent} bytes"),
        }
    }
}

impl Fault {
    ghost use Rattle.std.specs.Prelude.{◌≡◌};
    ghost use Rattle.std.specs.IoError.{error_kind};
    ghost use Rattle.rbc_dispatch.specs.Fault.{fault_of_reading};

    /// The fault for an error in reading the track file.
    pub fn of_reading(error: &io::Error) -> Fault
        ensures { result ≡ fault_of_reading (error_kind error.now) }
    {
        match error.kind() {
            io::ErrorKind::OutOfMemory => Fault::OutOfMemory,
            _ => Fault::TrackUnreadable,
        }
    }
}

impl From<TrackError> for Fault {
    ghost use Rattle.std.specs.Prelude.{◌≡◌};
    ghost use Rattle.rbc_dispatch.specs.declared.fault.Fault.TheVariants.{Track};

    ghost from_gives = { λ error fault. fault ≡ Track error };

    fn from(error: TrackError) -> Fault {
        Fault::Track(error)
    }
}

impl From<AllocError> for Fault {
    ghost use Rattle.std.specs.Prelude.{◌≡◌};
    ghost use Rattle.rbc_dispatch.specs.declared.fault.Fault.TheVariants.{OutOfMemory};

    ghost from_gives = { λ _ fault. fault ≡ OutOfMemory };

    fn from(_refused: AllocError) -> Fault {
        Fault::OutOfMemory
    }
}

impl From<ProcessError> for Fault {
    ghost use Rattle.std.specs.Prelude.{◌≡◌};
    ghost use Rattle.rbc_dispatch.specs.declared.fault.Fault.TheVariants.{Batch};

    ghost from_gives = { λ error fault. fault ≡ Batch error };

    fn from(error: ProcessError) -> Fault {
        Fault::Batch(error)
    }
}

impl From<Unwritten> for Fault {
    ghost use Rattle.std.specs.Prelude.{◌≡◌};
    ghost use Rattle.rbc_dispatch.specs.Fault.{fault_of_writing};

    ghost from_gives = { λ unwritten fault. fault ≡ fault_of_writing unwritten.gone unwritten.sent };

    fn from(unwritten: Unwritten) -> Fault {
        let sent = unwritten.sent as u64;
        if unwritten.gone {
            Fault::ReaderGone { sent }
        } else {
            Fault::Write { sent }
        }
    }
}

impl From<TellError> for Fault {
    ghost use Rattle.std.specs.Prelude.{◌≡◌};
    ghost use Rattle.rbc_dispatch.specs.declared.fault.Fault.TheVariants.{Tell};

    ghost from_gives = { λ error fault. fault ≡ Tell error };

    fn from(error: TellError) -> Fault {
        Fault::Tell(error)
    }
}

impl From<DrawError> for Fault {
    ghost use Rattle.std.specs.Prelude.{◌≡◌};
    ghost use Rattle.rbc_dispatch.specs.declared.fault.Fault.TheVariants.{Draw};

    ghost from_gives = { λ error fault. fault ≡ Draw error };

    fn from(error: DrawError) -> Fault {
        Fault::Draw(error)
    }
}

impl From<PromptError> for Fault {
    ghost use Rattle.std.specs.Prelude.{◌≡◌};
    ghost use Rattle.rbc_dispatch.specs.declared.fault.Fault.TheVariants.{Live};

    ghost from_gives = { λ error fault. fault ≡ Live error };

    fn from(error: PromptError) -> Fault {
        Fault::Live(error)
    }
}

impl From<FilterError<LineFault>> for Fault {
    ghost use Rattle.std.specs.Prelude.{◌≡◌};
    ghost use Rattle.rbc_dispatch.specs.declared.fault.Fault.TheVariants.{Lines};

    ghost from_gives = { λ error fault. fault ≡ Lines error };

    fn from(error: FilterError<LineFault>) -> Fault {
        Fault::Lines(error)
    }
}

impl From<EncodeError> for Fault {
    ghost use Rattle.std.specs.Prelude.{◌≡◌};
    ghost use Rattle.rbc_dispatch.specs.Fault.{fault_of_encoding};

    ghost from_gives = { λ error fault. fault ≡ fault_of_encoding error };

    fn from(error: EncodeError) -> Fault {
        match error {
            EncodeError::Word(wrong) => Fault::Text(wrong),
            EncodeError::OutOfMemory => Fault::OutOfMemory,
        }
    }
}

impl From<FromHexError> for Fault {
    ghost use Rattle.std.specs.Prelude.{◌≡◌};
    ghost use Rattle.rbc_dispatch.specs.Fault.{fault_of_hex};

    ghost from_gives = { λ error fault. fault ≡ fault_of_hex error };

    fn from(error: FromHexError) -> Fault {
        match error {
            FromHexError::OutOfMemory => Fault::OutOfMemory,
            _ => Fault::BadHex,
        }
    }
}

impl From<DescribeError> for Fault {
    ghost use Rattle.std.specs.Prelude.{◌≡◌};
    ghost use Rattle.rbc_dispatch.specs.Fault.{fault_of_describing};

    ghost from_gives = { λ error fault. fault ≡ fault_of_describing error };

    fn from(error: DescribeError) -> Fault {
        match error {
            DescribeError::Decode(refusal) => Fault::Decode(refusal),
            DescribeError::OutOfMemory => Fault::OutOfMemory,
        }
    }
}
