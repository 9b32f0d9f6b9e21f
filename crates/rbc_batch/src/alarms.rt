//! Processing a batch whose alarms are written too.

ghost use Rattle.std.specs.Prelude.{◌≡◌, ◌<◌, ◌≤◌, ◌+◌, ◌^◌, ◌++◌, length, IfOk, IfSome, IsErrOf, OnOk};
ghost use Rattle.std.specs.List.{All, flat_map};
ghost use Rattle.rbc_track.specs.Plan.{IsPlan};
ghost use Rattle.rbc_engine.specs.Answers.{max_inputs};
ghost use Rattle.rbc_engine.specs.Held.{Holds, standing};
ghost use Rattle.rbc_engine.specs.Serial as serial;
ghost use Rattle.rbc_rule.specs.Inputs.{Fits};
ghost use Rattle.rbc_text.specs.OutputText.{outbox_lines};
ghost use Rattle.rbc_live.specs.Watching.{IsWatch};
ghost use Rattle.rbc_batch.specs.Parts.{joined};
ghost use Rattle.rbc_batch.specs.Process.{AnswersWithAlarms, IsUntouched, IsWatchedRun, max_batch, watched_result};

use crate::batch::{ProcessError, read_inputs};
use crate::rendering::check_length;
use crate::streams::write_texts;
use rbc_desk::mails_law;
use rbc_engine::Desk;
use rbc_live::Watch;
use rbc_rule::Input;
use rbc_text::{push_result, render_outboxes};
use rbc_track::Track;
use std::alloc::{AllocError, Global};
use std::io::{Read, Write};
use std::thread::Threads;

/// Says in its contract what holds of every track, because a step depends on it.
fn is_plan(track: &Track)
    ensures { IsPlan track.now }
{
    let _ = track.horizon();
}

/// Takes an input on a desk, and appends its result and the alarms that it changes.
fn take_watched(
    alloc: Global,
    track: &Track,
    input: &Input,
    desk: &mut Desk,
    watch: &mut Watch,
    text: &mut Vec<u8>,
) -> Result<(), AllocError>
    requires fits { Fits input.now }
    requires room { length desk.old.results < max_inputs }
    ensures taken { (before : serial.Desk) → Holds track.now (standing desk.old) before
        → OnOk result (Holds track.now (standing desk.new) (serial.step track.now before input.now)) }
    ensures watched { (before : serial.Desk) → Holds track.now (standing desk.old) before
        → IsWatch track.now.horizon desk.old.records watch.old
        → OnOk result (IsWatch track.now.horizon desk.new.records watch.new) }
    ensures written { (before : serial.Desk) → Holds track.now (standing desk.old) before
        → IsWatch track.now.horizon desk.old.records watch.old
        → OnOk result (text.new.items ≡ text.old.items ++ watched_result track.now before input.now) }
    ensures counted { OnOk result (length desk.new.results ≡ length desk.old.results + 1) }
{
    is_plan(track);
    let outcome = match desk.decide(alloc, track, input) {
        Ok(outcome) => outcome,
        // On a desk that follows the rules, the only fault is a lack of memory.
        Err(_) => return Err(AllocError),
    };
    let reply = outcome.result;
    let replaced = desk.take_over(alloc, outcome)?;
    let number = desk.results().len() as u64;
    push_result(text, number, reply)?;
    let alarms = watch.follow(alloc, track.horizon(), desk.store(), &replaced, number)?;
    desk.keep_spare(replaced);
    text.extend_from_slice(&alarms)
}

/// Runs inputs on a track from the empty state, one after another. Returns the desk, and the lines of the results, each
/// followed by the alarms that its input changes.
fn run_watched(
    alloc: Global,
    track: &Track,
    inputs: &[Input],
) -> Result<(Desk, Vec<u8>), AllocError>
    requires fit { All Fits inputs.now }
    requires few { length inputs.now ≤ max_inputs }
    ensures { IfOk result (λ ran. IsWatchedRun track.now inputs.now ran.0 ran.1.items) }
{
    is_plan(track);
    mails_law();
    let mut desk = Desk::new(alloc);
    let mut watch = Watch::new(alloc);
    let mut results = Vec::new(alloc);
    for input in inputs {
        take_watched(alloc, track, input, &mut desk, &mut watch, &mut results)?;
    }
    Ok((desk, results))
}

/// The output text in parts: the results as they were written, and then the outboxes of the desk.
fn texts_with(alloc: Global, results: Vec<u8>, desk: &Desk) -> Result<Vec<Vec<u8>>, AllocError>
    ensures text { IfOk result (λ texts. joined texts.items
        ≡ results.items ++ flat_map outbox_lines desk.now.outboxes) }
    ensures short { IfOk result (λ texts. length (joined texts.items) < 2 ^ 64) }
{
    let mut texts = Vec::new(alloc);
    texts.push(results)?;
    texts.push(render_outboxes(alloc, desk, 0, desk.outboxes())?)?;
    check_length(&texts)?;
    Ok(texts)
}

/// Does what [`process`](crate::process) does, and writes after each result the lines of the alarms that its input
/// changes. One worker takes the inputs, whatever the number of workers: alarms are judged after each input.
///
/// # Errors
///
/// Those of [`process`](crate::process).
pub fn process_with_alarms<R: Read, W: Write>(
    rt: &(impl AllocGlobal + Threads + Sync),
    track: &Track,
    reader: &mut R,
    writer: &mut W,
    workers: u8,
) -> Result<(), ProcessError>
    ensures answers { AnswersWithAlarms track.now workers (R.remaining reader.old) (R.remaining reader.new)
        (W.contents writer.old) (W.contents writer.new) result }
    ensures too_long { IsErrOf result ProcessError.TooLong
        → IfSome (R.remaining reader.old) (λ batch. max_batch < length batch) }
    ensures untouched { IsUntouched result writer.old writer.new }
{
    let alloc = rt.alloc();
    let (desk, results) = {
        let inputs = read_inputs(rt, reader, workers)?;
        run_watched(alloc, track, &inputs)?
    };
    let texts = texts_with(alloc, results, &desk)?;
    match write_texts(writer, &texts) {
        Ok(()) => Ok(()),
        Err(sent) => Err(ProcessError::Write { sent: sent as u64 }),
    }
}
