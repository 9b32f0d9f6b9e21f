//! The program, over any streams.
ghost use Rattle.std.specs.Prelude.{◌≡◌, ◌≤◌, ◌∷◌, ℕ, List, Option, [], IfErr, IfOk, IsErrAnd, OnOk, Some, false, map};
ghost use Rattle.std.specs.Prelude.{◌⊎◌, string_bytes, true};
ghost use Rattle.std.specs.Process.{exit_status};
ghost use Rattle.rbc_dispatch.specs.Checking.{Checks, IsUnreported};
ghost use Rattle.rbc_dispatch.specs.Decoding.{IsUntouched};
ghost use Rattle.rbc_dispatch.specs.Doing.{Announces, Does, IsWholeRun, LeavesErrors};
ghost use Rattle.rbc_dispatch.specs.Ending.{AtTask, IsNoHelp, IsRefusal, status_of};
ghost use Rattle.rbc_dispatch.specs.Filtering.{EncodesLines, EncodesTextOn, IsNoTrackGiven, IsTrackGiven, name_given};
ghost use Rattle.rbc_dispatch.specs.Living.{Lives};
ghost use Rattle.rbc_dispatch.specs.Pages.{topic_in};
ghost use Rattle.rbc_dispatch.specs.Running.{IsUnread, Keeps, Runs, RunsOn};
ghost use Rattle.rbc_dispatch.specs.Showing.{DrawsPicture, TellsLog};
ghost use Rattle.rbc_dispatch.specs.Telling.{TellsPage};
ghost use Rattle.rbc_dispatch.specs.TextWords.{spaced_text};
ghost use Rattle.rbc_dispatch.specs.Words.{Asked, Asks, DoNotFit, IsSelected, Page, asked_of, chosen_of};

use crate::attempts::Attempts;
use crate::check::check_text;
use crate::codes::{write_code_objects, write_codes};
use crate::decode::{decode, decode_input, decode_long};
use crate::encode::{encode_input, encode_text, spaced_text};
use crate::ending::Ending;
use crate::explain::explain_text;
use crate::fault::Fault;
use crate::figures::Figures;
use crate::live::live_text;
use crate::pages::{BATCH_PAGE, TRACK_PAGE, Topic, page_on};
use crate::picture::picture_text;
use crate::report::write_report;
use crate::show::show;
use crate::terminal::{NOTICE, announce};
use crate::words::{Choice, Task};
use rbc_batch::{
    OpenGate, PACE, Windows, process, process_by_train, process_with_alarms, process_with_desk,
};
use rbc_explain::LogWanted;
use rbc_live::Wanted;
use rbc_picture::Selection;
use rbc_track::{Track, track_from_toml};
use std::env::Env;
use std::fs;
use std::io::{Read, Write};
use std::process::ExitCode;
use std::rt::Files;
use std::sync::Wait;
use std::thread::Threads;
use std::time::{Clock, Instant};

/// Does what the arguments of the process ask for, and returns the exit status. `at_terminal` says whether `input` is a
/// terminal. `output` should not be buffered, so that a write fault counts the bytes that went out.
pub fn run<R, I, O, E>(
    rt: &R,
    at_terminal: bool,
    input: &mut I,
    output: &mut O,
    errors: &mut E,
) -> ExitCode
where
    R: AllocGlobal + Clock + Env + Files + Threads + Wait + Sync,
    I: Read,
    O: Write,
    E: Write,
    ensures status { exit_status result ≤ 2 }
    ensures does { IsWholeRun (I.remaining input.old) (I.remaining input.new) (O.contents output.old)
        (O.contents output.new) input.old input.new output.old output.new (exit_status result) }
{
    match crate::words::read(rt) {
        Ok(words) => {
            let outcome = perform(rt, words.as_slice(), at_terminal, input, output, errors);
            conclude(outcome, output, errors)
        }
        Err(no_task) => conclude(Err(Ending::from(no_task)), output, errors),
    }
}

/// Prints the text of an outcome, and returns its exit status, also if the text cannot be printed.
fn conclude<O, E>(outcome: Result<(), Ending>, output: &mut O, errors: &mut E) -> ExitCode
where
    O: Write,
    E: Write,
    ensures done { OnOk outcome (exit_status result ≡ 0) }
    ensures ended { IfErr outcome (λ ending. exit_status result ≡ status_of ending) }
    ensures same_output { OnOk outcome (output.new ≡ output.old) }
    ensures no_help { IfErr outcome (λ ending. IsNoHelp ending → output.new ≡ output.old) }
{
    match outcome {
        Ok(()) => ExitCode::SUCCESS,
        Err(ending) => {
            let _ = ending.print(output, errors);
            ending.exit_code()
        }
    }
}

/// Does the task that the arguments ask for. Arguments that ask for none leave the streams untouched.
fn perform<R, I, O, E>(
    rt: &R,
    words: &[String],
    at_terminal: bool,
    input: &mut I,
    output: &mut O,
    errors: &mut E,
) -> Result<(), Ending>
where
    R: AllocGlobal + Clock + Files + Threads + Wait + Sync,
    I: Read,
    O: Write,
    E: Write,
    ensures does { (asked : Asked) → Asks asked (map string_bytes words.now)
        → AtTask (Does asked (I.remaining input.old) (I.remaining input.new) (O.contents output.old)
        (O.contents output.new) input.old input.new output.old output.new) result }
    ensures errors { (asked : Asked) → Asks asked (map string_bytes words.now)
        → LeavesErrors asked at_terminal NOTICE.now errors.old errors.new
        (E.contents errors.old) (E.contents errors.new) }
    ensures batch_page { topic_in (map string_bytes words.now) ≡ Some Topic.Batch
        → AtTask (TellsPage BATCH_PAGE.now (O.contents output.old) (O.contents output.new)) result }
    ensures track_page { topic_in (map string_bytes words.now) ≡ Some Topic.Track
        → AtTask (TellsPage TRACK_PAGE.now (O.contents output.old) (O.contents output.new)) result }
    ensures only { OnOk result ((asked : Asked) × Asks asked (map string_bytes words.now)) }
    ensures begun { ((asked : Asked) × Asks asked (map string_bytes words.now))
        ⊎ ((input.new ≡ input.old) × (output.new ≡ output.old)) }
    ensures refused { ((asked : Asked) → Asks asked (map string_bytes words.now) → ⊥)
        → (input.new ≡ input.old) × (output.new ≡ output.old) × (errors.new ≡ errors.old) }
    ensures unfit { DoNotFit (map string_bytes words.now) → IsErrAnd result IsRefusal }
{
    let task = crate::words::parse(rt.alloc(), words)?;
    Ok(carry_out(rt, task, at_terminal, input, output, errors)?)
}

/// Does a task.
fn carry_out<R, I, O, E>(
    rt: &R,
    task: Task<'_>,
    at_terminal: bool,
    input: &mut I,
    output: &mut O,
    errors: &mut E,
) -> Result<(), Fault>
where
    R: AllocGlobal + Clock + Files + Threads + Wait + Sync,
    I: Read,
    O: Write,
    E: Write,
    ensures does { Does (asked_of task.entry) (I.remaining input.old) (I.remaining input.new) (O.contents output.old)
        (O.contents output.new) input.old input.new output.old output.new result }
    ensures errors { LeavesErrors (asked_of task.entry) at_terminal NOTICE.now errors.old errors.new
        (E.contents errors.old) (E.contents errors.new) }
    ensures batch_page { asked_of task.entry ≡ Page Topic.Batch
        → TellsPage BATCH_PAGE.now (O.contents output.old) (O.contents output.new) result }
    ensures track_page { asked_of task.entry ≡ Page Topic.Track
        → TellsPage TRACK_PAGE.now (O.contents output.old) (O.contents output.new) result }
{
    let alloc = rt.alloc();
    match task {
        Task::Run {
            track,
            workers,
            by_train,
            stats,
            alarms,
        } => {
            if alarms {
                run_file_with_alarms(rt, track, workers, at_terminal, input, output, errors)
            } else {
                run_file(
                    rt,
                    track,
                    workers,
                    by_train,
                    stats,
                    at_terminal,
                    input,
                    output,
                    errors,
                )
            }
        }
        Task::Live { track, wanted } => {
            live_file(rt, track, wanted, at_terminal, input, output, errors)
        }
        Task::Explain {
            track,
            wanted,
            json,
        } => explain_file(rt, track, wanted, json, at_terminal, input, output, errors),
        Task::Picture {
            track,
            after,
            choice,
        } => picture_file(rt, track, after, &choice, input, output),
        Task::Check {
            track,
            other_keys,
            json,
        } => check_file(rt, track, other_keys, json, output),
        Task::Encode { track, words } => encode_task(rt, track, words, input, output),
        Task::Decode { word, long: true } => decode_long(alloc, word, output),
        Task::Decode { word, long: false } => decode(alloc, word, output),
        Task::DecodeLines => decode_input(alloc, input, output),
        Task::Codes { json: true, .. } => write_code_objects(alloc, output),
        Task::Codes { code, json: false } => write_codes(alloc, code, output),
        Task::Page(topic) => show(output, page_on(topic).as_bytes()),
    }
}

/// Reports on the track in a file, in words or as an object. Nothing is written if the file cannot be read.
fn check_file<R, O>(
    rt: &R,
    file: &str,
    other_keys: bool,
    json: bool,
    output: &mut O,
) -> Result<(), Fault>
where
    R: AllocGlobal + Files,
    O: Write,
    ensures checks { Checks result }
    ensures unreported { IsUnreported result output.old output.new }
{
    let text = track_text(rt, file)?;
    check_text(rt.alloc(), text.as_str(), other_keys, json, output)
}

/// Runs a batch on the track in a file, and writes its alarms too. The track is read before the batch.
fn run_file_with_alarms<R, I, O, E>(
    rt: &R,
    file: &str,
    workers: u8,
    at_terminal: bool,
    input: &mut I,
    output: &mut O,
    errors: &mut E,
) -> Result<(), Fault>
where
    R: AllocGlobal + Files + Threads + Sync,
    I: Read,
    O: Write,
    E: Write,
    ensures runs { Runs workers true (I.remaining input.old) (I.remaining input.new)
        (O.contents output.old) (O.contents output.new) result }
    ensures keeps { Keeps result input.old input.new output.old output.new }
    ensures errors { Announces at_terminal NOTICE.now errors.old errors.new
        (E.contents errors.old) (E.contents errors.new) }
{
    let text = track_text(rt, file)?;
    run_with_alarms_on(
        rt,
        text.as_str(),
        workers,
        at_terminal,
        input,
        output,
        errors,
    )
}

/// Runs a batch on the track in a file, without alarms. One worker takes the inputs in order; several attempt them, or
/// share messages by train. The track is read before the batch. With `stats`, a report on the finished run goes to
/// `errors`. A report that cannot be written does not change the outcome.
fn run_file<R, I, O, E>(
    rt: &R,
    file: &str,
    workers: u8,
    by_train: bool,
    stats: bool,
    at_terminal: bool,
    input: &mut I,
    output: &mut O,
    errors: &mut E,
) -> Result<(), Fault>
where
    R: AllocGlobal + Clock + Files + Threads + Wait + Sync,
    I: Read,
    O: Write,
    E: Write,
    ensures runs { Runs workers false (I.remaining input.old) (I.remaining input.new)
        (O.contents output.old) (O.contents output.new) result }
    ensures keeps { Keeps result input.old input.new output.old output.new }
    ensures errors { stats ≡ false → Announces at_terminal NOTICE.now errors.old errors.new
        (E.contents errors.old) (E.contents errors.new) }
{
    let track = track_in(rt, file)?;
    announce(at_terminal, errors);
    let began = if stats { Instant::now(rt).ok() } else { None };
    if workers < 2 || by_train {
        let mut windows = Windows::none();
        let (counts, desk) = process_by_train(
            rt,
            &track,
            input,
            output,
            workers,
            PACE,
            &mut windows,
        )?;
        if stats {
            let figures = Figures::of_windows(counts, windows, workers);
            let _ = write_report(rt, &desk, &figures, began, errors);
        }
        return Ok(());
    }
    if stats {
        let attempts = Attempts::none();
        let (counts, desk) = process_with_desk(rt, &track, input, output, workers, &attempts)?;
        let figures = Figures::of_attempts(counts, attempts.count(), workers);
        let _ = write_report(rt, &desk, &figures, began, errors);
        return Ok(());
    }
    process(rt, &track, input, output, workers, &OpenGate)?;
    Ok(())
}

/// Answers lines as they come, on the track in a file: `wanted` says from which number on, and whether with alarms. The
/// track is read before any line.
fn live_file<R, I, O, E>(
    rt: &R,
    file: &str,
    wanted: Wanted,
    at_terminal: bool,
    input: &mut I,
    output: &mut O,
    errors: &mut E,
) -> Result<(), Fault>
where
    R: AllocGlobal + Files,
    I: Read,
    O: Write,
    E: Write,
    ensures lives { Lives wanted (I.remaining input.old) (I.remaining input.new)
        (O.contents output.old) (O.contents output.new) result }
    ensures keeps { Keeps result input.old input.new output.old output.new }
    ensures errors { Announces at_terminal NOTICE.now errors.old errors.new
        (E.contents errors.old) (E.contents errors.new) }
{
    let text = track_text(rt, file)?;
    live_text(
        rt.alloc(),
        text.as_str(),
        wanted,
        at_terminal,
        input,
        output,
        errors,
    )
}

/// Tells a log in words or as objects, on the track in a file. The track is read before the log.
fn explain_file<R, I, O, E>(
    rt: &R,
    file: &str,
    wanted: LogWanted,
    json: bool,
    at_terminal: bool,
    input: &mut I,
    output: &mut O,
    errors: &mut E,
) -> Result<(), Fault>
where
    R: AllocGlobal + Files,
    I: Read,
    O: Write,
    E: Write,
    ensures tells { TellsLog wanted json (I.remaining input.old) (I.remaining input.new)
        (O.contents output.old) (O.contents output.new) result }
    ensures keeps { Keeps result input.old input.new output.old output.new }
    ensures errors { Announces at_terminal NOTICE.now errors.old errors.new
        (E.contents errors.old) (E.contents errors.new) }
{
    let text = track_text(rt, file)?;
    explain_text(
        rt.alloc(),
        text.as_str(),
        wanted,
        json,
        at_terminal,
        input,
        output,
        errors,
    )
}

/// Draws the chosen part of the track in a file after the first `after` inputs of a log, or after all of them. The
/// track is read before the log.
fn picture_file<R, I, O>(
    rt: &R,
    file: &str,
    after: Option<u64>,
    choice: &Choice,
    input: &mut I,
    output: &mut O,
) -> Result<(), Fault>
where
    R: AllocGlobal + Files,
    I: Read,
    O: Write,
    ensures draws { IsSelected (chosen_of choice.now) (λ selection. DrawsPicture after selection
        (I.remaining input.old) (I.remaining input.new) (O.contents output.old) (O.contents output.new) result) }
    ensures keeps { Keeps result input.old input.new output.old output.new }
    ensures untouched { IsUntouched result output.old output.new }
{
    match choice {
        Choice::All => draw_file(rt, file, after, &Selection::All, input, output),
        Choice::Busy => draw_file(rt, file, after, &Selection::Busy, input, output),
        Choice::Lines(lines) => {
            draw_file(rt, file, after, &Selection::Lines(lines), input, output)
        }
        Choice::Train(engine) => {
            draw_file(rt, file, after, &Selection::Train(*engine), input, output)
        }
    }
}

/// Draws the selected part of the track in a file.
fn draw_file<R, I, O>(
    rt: &R,
    file: &str,
    after: Option<u64>,
    selection: &Selection<'_>,
    input: &mut I,
    output: &mut O,
) -> Result<(), Fault>
where
    R: AllocGlobal + Files,
    I: Read,
    O: Write,
    ensures draws { DrawsPicture after selection.now (I.remaining input.old) (I.remaining input.new)
        (O.contents output.old) (O.contents output.new) result }
    ensures keeps { Keeps result input.old input.new output.old output.new }
    ensures untouched { IsUntouched result output.old output.new }
{
    let text = track_text(rt, file)?;
    picture_text(rt.alloc(), text.as_str(), after, selection, input, output)
}

/// Writes the bytes of the message whose text stands among the arguments, or, if none stands there, the lines of the
/// input with the bytes of their messages. The track file is read first, if one is named.
fn encode_task<R, I, O>(
    rt: &R,
    file: Option<&str>,
    words: &[String],
    input: &mut I,
    output: &mut O,
) -> Result<(), Fault>
where
    R: AllocGlobal + Files,
    I: Read,
    O: Write,
    ensures lines { spaced_text (map string_bytes words.now) ≡ [] → EncodesLines (name_given file.entry) (I.remaining input.old)
        (I.remaining input.new) (O.contents output.old) (O.contents output.new) result }
    ensures text { (text : List ℕ) → spaced_text (map string_bytes words.now) ≡ 32 ∷ text
        → (input.new ≡ input.old) × EncodesTextOn (name_given file.entry) text (O.contents output.old) (O.contents output.new) result }
    ensures keeps { Keeps result input.old input.new output.old output.new }
{
    let track = track_given(rt, file)?;
    let text = spaced_text(rt.alloc(), words)?;
    match text.split_first() {
        Some((_, text)) => encode_text(rt.alloc(), text, output),
        None => encode_input(rt.alloc(), track.as_ref(), input, output),
    }
}

/// The track in the file of a name, if there is a name.
fn track_given<R: AllocGlobal + Files>(rt: &R, file: Option<&str>) -> Result<Option<Track>, Fault>
    ensures ok { IfOk result (IsTrackGiven (name_given file.entry)) }
    ensures err { IfErr result (IsNoTrackGiven (name_given file.entry)) }
{
    let Some(file) = file else {
        return Ok(None);
    };
    Ok(Some(track_in(rt, file)?))
}

/// The track in the file of a name. The error is `OutOfMemory`, `TrackUnreadable` or `Track`.
fn track_in<R: AllocGlobal + Files>(rt: &R, file: &str) -> Result<Track, Fault>
    ensures ok { IfOk result (λ track. IsTrackGiven (Some file.now) (Some track)) }
    ensures err { IfErr result (IsNoTrackGiven (Some file.now)) }
{
    let text = track_text(rt, file)?;
    Ok(track_from_toml(rt.alloc(), text.as_str())?)
}

/// The text of a track file. The error is `OutOfMemory` or `TrackUnreadable`.
fn track_text<R: AllocGlobal + Files>(rt: &R, file: &str) -> Result<String, Fault>
    ensures { IfErr result IsUnread }
{
    match fs::read_to_string(rt, file) {
        Ok(text) => Ok(text),
        Err(error) => Err(Fault::of_reading(&error)),
    }
}

/// Runs a batch on the track in a text, and writes its alarms too. The track is read before the batch.
fn run_with_alarms_on<R, I, O, E>(
    rt: &R,
    text: &str,
    workers: u8,
    at_terminal: bool,
    input: &mut I,
    output: &mut O,
    errors: &mut E,
) -> Result<(), Fault>
where
    R: AllocGlobal + Threads + Sync,
    I: Read,
    O: Write,
    E: Write,
    ensures runs { RunsOn text.now workers true (I.remaining input.old) (I.remaining input.new)
        (O.contents output.old) (O.contents output.new) result }
    ensures keeps { Keeps result input.old input.new output.old output.new }
    ensures errors { Announces at_terminal NOTICE.now errors.old errors.new
        (E.contents errors.old) (E.contents errors.new) }
{
    let track = track_from_toml(rt.alloc(), text)?;
    announce(at_terminal, errors);
    process_with_alarms(rt, &track, input, output, workers)?;
    Ok(())
}
