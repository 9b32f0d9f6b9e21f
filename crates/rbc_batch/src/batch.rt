//! Processing a batch, from a reader to a writer.

ghost use Rattle.std.specs.Prelude.{◌≡◌, ◌<◌, ◌≤◌, length, IfOk, IfErr, IfSome, IsErrOf};
ghost use Rattle.std.specs.List.{All};
ghost use Rattle.rbc_engine.specs.Answers.{MayWork, max_inputs};
ghost use Rattle.rbc_rule.specs.Inputs.{Fits};
ghost use Rattle.rbc_text.specs.BatchText.{lines_of};
ghost use Rattle.ertms_codec.specs.Pieces.{texts_of};
ghost use Rattle.rbc_batch.specs.Process.{Answers, AnswersWithDesk, AreRead, IsBeforeRun, IsRefused, IsRunOf, IsUntouched, max_batch};

use crate::inputs::{first_lines, parse_lines};
use crate::rendering::texts_of_desk;
use crate::streams::{read_batch, write_texts};
use rbc_engine::{
    Desk, Gate, MAX_INPUTS, MAX_WORKERS, Pace, RunError, Stats, Windows, run, run_by_train,
};
use rbc_rule::Input;
use rbc_track::Track;
use std::alloc::{AllocError, Global};
use std::error::Error;
use std::fmt;
use std::io::{Read, Write};
use std::sync::Wait;
use std::thread::Threads;

/// Why a batch was not processed.
#[derive(Clone, Copy, Debug, PartialEq, Eq)]
pub enum ProcessError {
    /// The reader failed, or did not end within 20,000,000 calls. Nothing was written.
    Read,
    /// The batch has more than 16,777,216 bytes. Nothing was written.
    TooLong,
    /// The run of the inputs was refused, or memory was refused to it. Nothing was written.
    Run(RunError),
    /// There was not enough memory before or after the run. Nothing was written.
    Memory,
    /// The writer failed, took no bytes, or was interrupted 1,000 times in all. Exactly the first `sent` bytes of the
    /// output text are out.
    Write { sent: u64 },
}

impl fmt::Display for ProcessError {
    ghost use Rattle.std.specs.Prelude.{Some};
    ghost use Rattle.rbc_batch.specs.Process.{fault_text};

    ghost output = { λ error. Some (fault_text error) };

    fn fmt<W: fmt::Write>(&self, f: &mut fmt::Formatter<W>) -> fmt::Result {
        match self {
            ProcessError::Read => write!(f, "read fault"),
            ProcessError::TooLong => write!(f, "batch too long"),
            ProcessError::Run(error) => write!(f, "{error}"),
            ProcessError::Memory => write!(f, "out of memory"),
            ProcessError::Write { sent } => write!(f, "write fault after {sent} bytes"),
        }
    }
}

impl Error for ProcessError {}

impl From<AllocError> for ProcessError {
    ghost use Rattle.std.specs.Prelude.{◌≡◌};
    ghost use Rattle.rbc_batch.specs.declared.batch.ProcessError.TheVariants.{Memory};

    ghost from_gives = { λ _ e. e ≡ Memory };

    fn from(_: AllocError) -> ProcessError {
        ProcessError::Memory
    }
}

impl From<RunError> for ProcessError {
    ghost use Rattle.std.specs.Prelude.{◌≡◌};
    ghost use Rattle.rbc_batch.specs.declared.batch.ProcessError.TheVariants.{Run};

    ghost from_gives = { λ error e. e ≡ Run error };

    fn from(error: RunError) -> ProcessError {
        ProcessError::Run(error)
    }
}

/// The lines of a batch, if this number of workers may run them. The number of workers is checked first, then the
/// number of lines.
fn admit(alloc: Global, batch: &[u8], workers: u8) -> Result<Vec<&[u8]>, ProcessError>
    ensures lines { IfOk result (λ lines. texts_of lines.items ≡ lines_of batch.now) }
    ensures few { IfOk result (λ lines. length lines.items ≤ max_inputs) }
    ensures may_work { IfOk result (λ lines. MayWork workers) }
    ensures refused { IfErr result (IsRefused workers batch.now) }
{
    if workers == 0 || workers > MAX_WORKERS {
        return Err(ProcessError::Run(RunError::Workers));
    }
    let lines = first_lines(alloc, batch, MAX_INPUTS + 1)?;
    if lines.len() > MAX_INPUTS {
        return Err(ProcessError::Run(RunError::TooManyInputs));
    }
    Ok(lines)
}

/// The lines of a batch, each without its line feed, for a run that takes one after another.
///
/// # Errors
///
/// `Run(TooManyInputs)` if there are more than 100,000 lines; `Memory`.
pub fn lines_of_batch(alloc: Global, batch: &[u8]) -> Result<Vec<&[u8]>, ProcessError>
    ensures lines { IfOk result (λ lines. texts_of lines.items ≡ lines_of batch.now) }
    ensures few { IfOk result (λ lines. length lines.items ≤ max_inputs) }
    ensures refused { IfErr result (IsRefused 1 batch.now) }
{
    admit(alloc, batch, 1)
}

/// Reads a batch to its end, and returns the inputs of its lines, if this number of workers may run them. A batch that
/// is refused is not parsed. The bytes of the batch are freed.
pub(crate) fn read_inputs<R: Read>(
    rt: &(impl AllocGlobal + Threads + Sync),
    reader: &mut R,
    workers: u8,
) -> Result<Vec<Input>, ProcessError>
    ensures read { IfOk result (λ inputs. AreRead (R.remaining reader.old) (R.remaining reader.new) inputs.items) }
    ensures fit { IfOk result (λ inputs. All Fits inputs.items) }
    ensures few { IfOk result (λ inputs. length inputs.items ≤ max_inputs) }
    ensures may_work { IfOk result (λ inputs. MayWork workers) }
    ensures too_long { IsErrOf result ProcessError.TooLong
        → IfSome (R.remaining reader.old) (λ batch. max_batch < length batch) }
    ensures before { IfErr result (λ e. IsBeforeRun workers (R.remaining reader.old) (R.remaining reader.new) e) }
{
    let batch = read_batch(rt.alloc(), reader)?;
    let lines = admit(rt.alloc(), &batch, workers)?;
    Ok(parse_lines(rt, &lines, workers)?)
}

/// Runs inputs on a track from the empty state, and returns the desk with the counts of the run.
fn run_all<G: Gate + Sync>(
    rt: &(impl AllocGlobal + Threads + Wait + Sync),
    track: &Track,
    inputs: &[Input],
    workers: u8,
    gate: &G,
) -> Result<(Desk, Stats), RunError>
    requires fit { All Fits inputs.now }
    ensures { IsRunOf track.now inputs.now workers result }
{
    let mut desk = Desk::new(rt.alloc());
    match run(rt, track, &mut desk, inputs, workers, gate) {
        Ok(stats) => Ok((desk, stats)),
        Err(error) => Err(error),
    }
}

/// Reads a batch to its end, runs its lines on a track from the empty state with this number of workers (1 to 16), and
/// writes the output text. The text is the same as if the lines were run one after another. Nothing is written before
/// the whole output is known. The workers attempt many inputs at once, and recompute what went stale (`run` of
/// rbc_engine).
///
/// # Errors
///
/// See [`ProcessError`]. If the bytes that the reader has left are known, `TooLong` means that there were more than
/// 16,777,216 of them. Checks run in this order: the length of the batch, the number of workers, the number of lines. A
/// batch that is refused is not parsed.
pub fn process<R: Read, W: Write, G: Gate + Sync>(
    rt: &(impl AllocGlobal + Threads + Wait + Sync),
    track: &Track,
    reader: &mut R,
    writer: &mut W,
    workers: u8,
    gate: &G,
) -> Result<Stats, ProcessError>
    ensures answers { Answers track.now workers (R.remaining reader.old) (R.remaining reader.new)
        (W.contents writer.old) (W.contents writer.new) result }
    ensures too_long { IsErrOf result ProcessError.TooLong
        → IfSome (R.remaining reader.old) (λ batch. max_batch < length batch) }
    ensures untouched { IsUntouched result writer.old writer.new }
{
    match process_with_desk(rt, track, reader, writer, workers, gate) {
        Ok((stats, _)) => Ok(stats),
        Err(error) => Err(error),
    }
}

/// Does what [`process`] does, and returns the desk too, with all results and messages.
///
/// # Errors
///
/// Those of [`process`].
pub fn process_with_desk<R: Read, W: Write, G: Gate + Sync>(
    rt: &(impl AllocGlobal + Threads + Wait + Sync),
    track: &Track,
    reader: &mut R,
    writer: &mut W,
    workers: u8,
    gate: &G,
) -> Result<(Stats, Desk), ProcessError>
    ensures answers { AnswersWithDesk track.now workers (R.remaining reader.old) (R.remaining reader.new)
        (W.contents writer.old) (W.contents writer.new) result }
    ensures too_long { IsErrOf result ProcessError.TooLong
        → IfSome (R.remaining reader.old) (λ batch. max_batch < length batch) }
    ensures untouched { IsUntouched result writer.old writer.new }
{
    let (desk, stats) = {
        let inputs = read_inputs(rt, reader, workers)?;
        run_all(rt, track, &inputs, workers, gate)?
    };
    let texts = texts_of_desk(rt, &desk, workers)?;
    match write_texts(writer, &texts) {
        Ok(()) => Ok((stats, desk)),
        Err(sent) => Err(ProcessError::Write { sent: sent as u64 }),
    }
}

/// Does the same without attempts, with the same output: one worker takes the inputs in order, and all workers share
/// long runs of messages by train, at a pace (`run_by_train` of rbc_engine). Counts the windows of messages, and
/// returns the desk with the counts of the run.
///
/// # Errors
///
/// Those of [`process`].
pub fn process_by_train<R: Read, W: Write>(
    rt: &(impl AllocGlobal + Threads + Wait + Sync),
    track: &Track,
    reader: &mut R,
    writer: &mut W,
    workers: u8,
    pace: Pace,
    windows: &mut Windows,
) -> Result<(Stats, Desk), ProcessError>
    ensures answers { AnswersWithDesk track.now workers (R.remaining reader.old) (R.remaining reader.new)
        (W.contents writer.old) (W.contents writer.new) result }
    ensures too_long { IsErrOf result ProcessError.TooLong
        → IfSome (R.remaining reader.old) (λ batch. max_batch < length batch) }
    ensures untouched { IsUntouched result writer.old writer.new }
{
    let mut desk = Desk::new(rt.alloc());
    let stats = {
        let inputs = read_inputs(rt, reader, workers)?;
        run_by_train(rt, track, &mut desk, &inputs, workers, pace, windows)?
    };
    let texts = texts_of_desk(rt, &desk, workers)?;
    match write_texts(writer, &texts) {
        Ok(()) => Ok((stats, desk)),
        Err(sent) => Err(ProcessError::Write { sent: sent as u64 }),
    }
}
