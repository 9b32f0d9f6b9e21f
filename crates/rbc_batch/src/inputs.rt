//! The inputs of a batch, one for each line.

ghost use Rattle.std.specs.Prelude.{◌≡◌, ◌≤◌, length, take, IfOk};
ghost use Rattle.std.specs.List.{All};
ghost use Rattle.rbc_rule.specs.Inputs.{Fits};
ghost use Rattle.rbc_text.specs.BatchText.{lines_of, AreInputs, AreInputsOf};
ghost use Rattle.ertms_codec.specs.Pieces.{texts_of};

use rayon::prelude::*;
use rbc_engine::MAX_WORKERS;
use rbc_rule::Input;
use rbc_text::{first_line, parse_line};
use std::alloc::{AllocError, Global};
use std::thread::Threads;

/// A batch of at least this many lines is parsed in threads, if there are several workers. For fewer lines, threads cost
/// more time than they save.
const PARALLEL_FROM: usize = 10_000;

/// The first lines of a text, at most `most` of them.
pub fn first_lines(alloc: Global, text: &[u8], most: usize) -> Result<Vec<&[u8]>, AllocError>
    ensures cut { IfOk result (λ lines. texts_of lines.items ≡ take most (lines_of text.now)) }
    ensures whole { length text.now ≤ most → IfOk result (λ lines. texts_of lines.items ≡ lines_of text.now) }
    ensures few { IfOk result (λ lines. length lines.items ≤ length text.now) }
{
    let mut lines = Vec::new(alloc);
    let mut rest = text;
    while lines.len() < most && !rest.is_empty() {
        let (line, behind) = first_line(rest);
        lines.push(line)?;
        rest = behind;
    }
    Ok(lines)
}

/// The inputs of lines, read one after another.
fn inputs_in_turn(alloc: Global, lines: &[&[u8]]) -> Result<Vec<Input>, AllocError>
    ensures inputs { IfOk result (λ inputs. AreInputs (texts_of lines.now) inputs.items) }
    ensures fit { IfOk result (λ inputs. All Fits inputs.items) }
{
    let mut inputs = Vec::with_capacity(alloc, lines.len())?;
    for line in lines {
        inputs.push(parse_line(alloc, line)?)?;
    }
    Ok(inputs)
}

/// The inputs of lines, read in as many threads as there are workers or processors, whichever are fewer, in the order of
/// the lines.
fn inputs_in_threads(
    rt: &(impl Threads + Sync),
    alloc: Global,
    lines: &[&[u8]],
    workers: u8,
) -> Result<Vec<Input>, AllocError>
    ensures inputs { IfOk result (λ inputs. AreInputs (texts_of lines.now) inputs.items) }
    ensures fit { IfOk result (λ inputs. All Fits inputs.items) }
{
    let share = lines.len().div_ceil(usize::from(workers.max(1)));
    lines
        .par_iter()
        .with_min_len(share)
        .map(|line| parse_line(alloc, line))
        .collect::<Result<Vec<_>, AllocError>>(rt, alloc)?
}

/// The inputs of lines, in their order. Several workers read many lines in threads, each line by itself.
pub fn parse_lines(
    rt: &(impl AllocGlobal + Threads + Sync),
    lines: &[&[u8]],
    workers: u8,
) -> Result<Vec<Input>, AllocError>
    ensures inputs { IfOk result (λ inputs. AreInputs (texts_of lines.now) inputs.items) }
    ensures fit { IfOk result (λ inputs. All Fits inputs.items) }
{
    let alloc = rt.alloc();
    if workers < 2 || lines.len() < PARALLEL_FROM {
        inputs_in_turn(alloc, lines)
    } else {
        inputs_in_threads(rt, alloc, lines, workers)
    }
}

/// Parses a batch into its inputs, one for each line, by as many workers as a run may have. An empty line is an input too,
/// a refusal.
pub fn parse_batch(
    rt: &(impl AllocGlobal + Threads + Sync),
    text: &[u8],
) -> Result<Vec<Input>, AllocError>
    ensures inputs { IfOk result (λ inputs. AreInputsOf text.now inputs.items) }
    ensures fit { IfOk result (λ inputs. All Fits inputs.items) }
    ensures few { IfOk result (λ inputs. length inputs.items ≤ length text.now) }
{
    // A text has no more lines than bytes.
    let lines = first_lines(rt.alloc(), text, text.len())?;
    parse_lines(rt, &lines, MAX_WORKERS)
}
