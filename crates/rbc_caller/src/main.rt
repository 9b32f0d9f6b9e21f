//! A worked caller: a dispatcher that keeps a state of its own (office.rt), and takes one input after another.
//!
//! It reads a batch from standard input and takes the first half of it, sends what comes of each input at once, and
//! then loses everything but its log. It replays the log without sending anything a second time, and goes on with the
//! other half. Each input is answered by its result, as `dispatch run` writes it, and its messages, in the order in
//! which they are sent. It stands on rbc_text and rbc_rule alone, and rests on the contract of `decide`; no crate calls
//! it. Begin with office.rt.
#![tactic(auto)]

ghost use Rattle.std.specs.Prelude.{IfOk};
ghost use Rattle.rbc_rule.specs.Gathered.{AreSendable};

mod office;

use anyhow::{Context, Result, bail};
use office::{Done, Office, sent_line};
use rbc_rule::Reply;
use rbc_text::{first_line, parse_line};
use rbc_track::{Track, track_from_toml};
use std::alloc::{AllocError, Global};
use std::fs;
use std::io::Read;
use std::rt::Files;

/// The track file of this example.
const TRACK: &str = "main_line.toml";

/// The lines of a batch. There are no more lines than bytes.
fn lines_of(alloc: Global, batch: &[u8]) -> Result<Vec<&[u8]>, AllocError> {
    let mut lines = Vec::new(alloc);
    let mut rest = batch;
    for _ in 0..batch.len() {
        if rest.is_empty() {
            break;
        }
        let (line, behind) = first_line(rest);
        lines.push(line)?;
        rest = behind;
    }
    Ok(lines)
}

/// Takes the input of a line.
fn take(alloc: Global, office: &mut Office, number: usize, line: &[u8]) -> Result<Done>
    ensures { IfOk result (λ done. AreSendable done.messages.items) }
{
    match office.take_again(&parse_line(alloc, line)?) {
        Ok(done) => Ok(done),
        Err(_) => bail!("input {number} could not be decided"),
    }
}

/// Prints the result of an input, and sends its messages: here, they are printed.
fn send<R: AllocGlobal + Print>(rt: &R, number: usize, done: &Done) -> Result<()>
    requires { AreSendable done.now.messages.items }
{
    match done.result {
        Reply::Done(count) => println!(rt; "{number} ok {count}")?,
        Reply::Refused(code) => println!(rt; "{number} refused {code}")?,
    }
    for sent in &done.messages {
        let line = sent_line(rt.alloc(), number, sent)?;
        println!(rt; "{line}")?;
    }
    Ok(())
}

/// Takes the inputs of lines that were taken before, after a restart. Their messages went out then.
fn replay(alloc: Global, office: &mut Office, log: &[&[u8]]) -> Result<()> {
    for line in log {
        if office.take_again(&parse_line(alloc, line)?).is_err() {
            bail!("the log could not be replayed");
        }
    }
    Ok(())
}

/// Takes the inputs of lines for the first time, and sends what comes of each; the first of them has this number.
fn go_on<R: AllocGlobal + Print>(
    rt: &R,
    office: &mut Office,
    first: usize,
    lines: &[&[u8]],
) -> Result<()> {
    for (index, line) in lines.iter().enumerate() {
        let number = first.saturating_add(index);
        let done = take(rt.alloc(), office, number, line)?;
        send(rt, number, &done)?;
    }
    Ok(())
}

/// Takes the first lines, and then loses everything but them.
fn begin<R: AllocGlobal + Print>(rt: &R, track: &Track, log: &[&[u8]]) -> Result<()> {
    let mut office = Office::new(rt.alloc(), track);
    go_on(rt, &mut office, 1, log)
}

/// Replays the log, and goes on with the other lines.
fn restart<R: AllocGlobal + Print>(
    rt: &R,
    track: &Track,
    log: &[&[u8]],
    rest: &[&[u8]],
) -> Result<()> {
    let mut office = Office::new(rt.alloc(), track);
    replay(rt.alloc(), &mut office, log)?;
    go_on(rt, &mut office, log.len().saturating_add(1), rest)
}

/// Takes all lines, with a restart in the middle.
fn run<R: AllocGlobal + Print>(rt: &R, track: &Track, lines: &[&[u8]]) -> Result<()> {
    let half = lines.len() / 2;
    let (log, rest) = lines.split_at(half);
    begin(rt, track, log)?;
    println!(rt; "restart after {half} inputs")?;
    restart(rt, track, log, rest)
}

/// The track of this example.
fn example_track<R: AllocGlobal + Files>(rt: &R) -> Result<Track> {
    let text = fs::read_to_string(rt, TRACK).context("reading the track")?;
    Ok(track_from_toml(rt.alloc(), text.as_str())?)
}

fn main(rt: HostRuntime) -> Result<()> {
    let track = example_track(&rt)?;
    let mut batch = Vec::new(rt.alloc());
    rt.stdin().read_to_end(&mut batch)?;
    let lines = lines_of(rt.alloc(), batch.as_slice())?;
    run(&rt, &track, &lines)
}
