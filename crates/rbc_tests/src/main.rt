//! Runs golden batches by 1, 2, 3, 4 and 16 workers: on a locked book, of which each takes part, and in windows of 7
//! and of 256 messages, or of as many as its line in cases.txt says. It says of each batch whether every output is that
//! of an independent model, how many windows there were, and how many messages windows lacked the memory for.
//!
//! `rbc_tests RUNS WORKERS MOST` runs each batch this many times, by this many workers, and in windows of this many
//! messages at the most, or on the book alone if MOST is 0. If there are more runs than one, it says on standard error
//! how many inputs of a batch were recomputed. Its tests (tests.rt) show what a batch cannot: a book, with inputs
//! attempted out of turn; runs by several workers, with gates that hold a worker until another one has come by; whole
//! batches over readers and writers that fail; and trains whose stamps end. Their expected values do not come from this
//! program.
#![tactic(auto)]

#[cfg(test)]
mod tests;

use anyhow::{Context, Result};
use rbc_batch::{ProcessError, Stats, process, process_by_train};
use rbc_engine::{OpenGate, Pace, Windows};
use rbc_track::{Track, track_from_toml};
use std::alloc::{AllocError, Global};
use std::env::Env;
use std::io::Write;
use std::rt::Files;
use std::sync::Wait;
use std::thread::Threads;
use std::{env, fs};

/// How many workers run each batch, where no number is named.
const WORKERS: &str = "1 2 3 4 16";

/// The most messages of a window for each way in which a batch is run, unless its line or a word names others. 0 stands
/// for a locked book.
const WAYS: &str = "0 7 256";

/// A batch on a track, and the output that is wanted.
#[derive(Drop)]
struct Case {
    track: Track,
    batch: Vec<u8>,
    wanted: Vec<u8>,
}

/// How often a batch is run, by how many workers, and in which ways: numbers with spaces between them. Where no way is
/// named, the last text is empty.
#[derive(Clone, Copy)]
struct Plan<'a> {
    runs: u32,
    workers: &'a str,
    ways: &'a str,
}

/// What came of several runs: whether every output was right, how many inputs were recomputed, how many windows there
/// were, and how many messages of windows one worker took in order, because memory was refused.
#[derive(Clone, Copy)]
struct Counts {
    is_right: bool,
    recomputed: u64,
    windows: u64,
    left: u64,
}

/// The track in a file.
fn track_of<R: Files + AllocGlobal>(rt: &R, file: &str) -> Result<Track> {
    Ok(track_from_toml(rt.alloc(), &fs::read_to_string(rt, file)?)?)
}

/// The bytes of a file of a case.
fn bytes_of<R: Files + AllocGlobal>(rt: &R, case: &str, kind: &str) -> Result<Vec<u8>> {
    Ok(fs::read(rt, format!(in rt.alloc(); "{case}.{kind}")?)?)
}

/// Reads a case, whose track is in a file of its own.
fn case_of<R: Files + AllocGlobal>(rt: &R, case: &str, track: &str) -> Result<Case> {
    let batch = bytes_of(rt, case, "batch")?;
    let wanted = bytes_of(rt, case, "expected")?;
    Ok(Case {
        track: track_of(rt, track)?,
        batch,
        wanted,
    })
}

/// Runs a case by this many workers, in windows of this many messages at the most, or on a locked book if that is 0.
/// Writes its output, and counts the windows.
fn run_in<R>(
    rt: &R,
    case: &Case,
    workers: u8,
    most: usize,
    written: &mut Vec<u8>,
    windows: &mut Windows,
) -> Result<Stats, ProcessError>
where
    R: AllocGlobal + Threads + Wait + Sync,
{
    let mut reader = case.batch.as_slice();
    if most == 0 {
        return process(rt, &case.track, &mut reader, written, workers, &OpenGate);
    }
    let pace = Pace {
        held: 0,
        least: 1,
        many: usize::MAX,
        most,
    };
    let (stats, _) = process_by_train(
        rt,
        &case.track,
        &mut reader,
        written,
        workers,
        pace,
        windows,
    )?;
    Ok(stats)
}

/// Runs a case by this many workers, in windows of this many messages at the most, or on a locked book if that is 0,
/// and adds what came of it.
fn add_run<R>(rt: &R, case: &Case, workers: u8, most: usize, counts: Counts) -> Result<Counts>
where
    R: AllocGlobal + Threads + Wait + Sync,
{
    let mut written = Vec::new(rt.alloc());
    let mut windows = Windows::none();
    let stats = run_in(rt, case, workers, most, &mut written, &mut windows)?;
    Ok(Counts {
        is_right: counts.is_right && written.as_slice() == case.wanted.as_slice(),
        recomputed: counts
            .recomputed
            .saturating_add(u64::from(stats.recomputed)),
        windows: counts.windows.saturating_add(u64::from(windows.count)),
        left: counts.left.saturating_add(u64::from(windows.refused)),
    })
}

/// Runs a case by this many workers in each way, and adds what came of it.
fn run_ways<R>(rt: &R, case: &Case, workers: &str, ways: &str, counts: Counts) -> Result<Counts>
where
    R: AllocGlobal + Threads + Wait + Sync,
{
    let workers = workers.parse::<u8>().context("a number of workers")?;
    let mut counts = counts;
    for most in ways.split(' ') {
        let most = most.parse::<usize>().context("a number of messages")?;
        counts = add_run(rt, case, workers, most, counts)?;
    }
    Ok(counts)
}

/// Runs a case as a plan says.
fn run_case<R>(rt: &R, case: &Case, plan: Plan<'_>) -> Result<Counts>
where
    R: AllocGlobal + Threads + Wait + Sync,
{
    let mut counts = Counts {
        is_right: true,
        recomputed: 0,
        windows: 0,
        left: 0,
    };
    for _ in 0..plan.runs {
        for workers in plan.workers.split(' ') {
            counts = run_ways(rt, case, workers, plan.ways, counts)?;
        }
    }
    Ok(counts)
}

/// Reads a case, and runs it as a plan says.
fn counts_of<R>(rt: &R, name: &str, track: &str, plan: Plan<'_>) -> Result<Counts>
where
    R: AllocGlobal + Files + Threads + Wait + Sync,
{
    let case = case_of(rt, name, track)?;
    run_case(rt, &case, plan)
}

/// Runs the case in a line of cases.txt: its name, the file of its track, and maybe the ways in which it is run, where
/// the plan names none. Returns what to say of it.
fn answer<R>(rt: &R, line: &str, plan: Plan<'_>) -> Result<(String, Counts)>
where
    R: AllocGlobal + Files + Threads + Wait + Sync,
{
    let (name, rest) = line.split_once(' ').context("a case and its track")?;
    let (track, own) = rest.split_once(' ').unwrap_or((rest, WAYS));
    let Plan {
        runs,
        workers,
        ways,
    } = plan;
    let ways = if ways.is_empty() { own } else { ways };
    let counts = counts_of(
        rt,
        name,
        track,
        Plan {
            runs,
            workers,
            ways,
        },
    )?;
    Ok((said_of(rt.alloc(), name, track, counts)?, counts))
}

/// What is said of a case: whether every output is right, in how many windows it was run, and how many of their
/// messages one worker took in order, if there are some.
fn said_of(alloc: Global, name: &str, track: &str, counts: Counts) -> Result<String, AllocError> {
    let Counts { windows, left, .. } = counts;
    let answer = if counts.is_right { "right" } else { "wrong" };
    if left > 0 {
        return format!(in alloc;
            "{name} on {track} {answer}, {windows} windows, {left} messages not taken over"
        );
    }
    format!(in alloc; "{name} on {track} {answer}, {windows} windows")
}

/// Runs the case in each line of a text, and writes what came of it.
fn answer_each<R, O, E>(
    rt: &R,
    cases: &str,
    plan: Plan<'_>,
    output: &mut O,
    errors: &mut E,
) -> Result<()>
where
    R: AllocGlobal + Files + Threads + Wait + Sync,
    O: Write,
    E: Write,
{
    for line in cases.lines() {
        let (text, counts) = answer(rt, line, plan)?;
        writeln!(output, "{text}")?;
        if plan.runs > 1 {
            writeln!(errors, "{} inputs recomputed", counts.recomputed)?;
        }
    }
    Ok(())
}

/// A word of the arguments, if there are this many.
fn word_at<R: AllocGlobal + Env>(rt: &R, index: usize) -> Result<Option<String>> {
    Ok(env::args(rt)?.nth(index))
}

/// How often each batch is run.
fn runs_named<R: AllocGlobal + Env>(rt: &R) -> Result<u32> {
    match word_at(rt, 1)? {
        Some(word) => word.parse::<u32>().context("a number of runs"),
        None => Ok(1),
    }
}

/// A word, or the text that stands for it where it is not named.
fn text_or<'a>(word: &'a Option<String>, other: &'a str) -> &'a str {
    match word {
        Some(word) => word.as_str(),
        None => other,
    }
}

fn main(rt: HostRuntime) -> Result<()> {
    let workers = word_at(&rt, 2)?;
    let ways = word_at(&rt, 3)?;
    let cases = fs::read_to_string(&rt, "cases.txt")?;
    let plan = Plan {
        runs: runs_named(&rt)?,
        workers: text_or(&workers, WORKERS),
        ways: text_or(&ways, ""),
    };
    answer_each(&rt, &cases, plan, &mut rt.stdout(), &mut rt.stderr())
}
