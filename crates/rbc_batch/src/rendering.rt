//! The output text of a desk, made by several workers if there is much to write.

ghost use Rattle.std.specs.Prelude.{◌≡◌, ◌<◌, ◌≤◌, ◌++◌, ◌^◌, ℕ, length, IfOk, OnOk, slice_index_or};
ghost use Rattle.std.specs.List.{flat_map};
ghost use Rattle.rbc_text.specs.OutputText.{output_of};
ghost use Rattle.rbc_batch.specs.Parts.{AreMade, bytes_of, joined, lines_of_part, part_start};

use rbc_engine::Desk;
use rbc_text::{render, render_outboxes, render_results};
use std::alloc::{AllocError, Global};
use std::thread;
use std::thread::Threads;

/// The text of at least this many messages is made in threads. For fewer messages, threads cost more time than they
/// save.
const SHARED_FROM: usize = 2_000;

/// The text of one part of the outboxes, unless memory was refused.
type Part = Result<Vec<u8>, AllocError>;

/// The output text of a desk, in consecutive parts. If there is much to write, this number of workers makes them.
pub(crate) fn texts_of_desk(
    rt: &(impl AllocGlobal + Threads + Sync),
    desk: &Desk,
    workers: u8,
) -> Result<Vec<Vec<u8>>, AllocError>
    ensures text { IfOk result (λ texts. joined texts.items ≡ output_of desk.now.results desk.now.outboxes) }
    ensures short { IfOk result (λ texts. length (joined texts.items) < 2 ^ 64) }
{
    let alloc = rt.alloc();
    let texts = if workers < 2 || !sends_many(desk) {
        text_in_turn(alloc, desk)?
    } else {
        texts_in_threads(rt, alloc, desk, usize::from(workers))?
    };
    check_length(&texts)?;
    Ok(texts)
}

/// The output text of a desk in one part.
fn text_in_turn(alloc: Global, desk: &Desk) -> Result<Vec<Vec<u8>>, AllocError>
    ensures { IfOk result (λ texts. joined texts.items ≡ output_of desk.now.results desk.now.outboxes) }
{
    let mut texts = Vec::new(alloc);
    texts.push(render(alloc, desk)?)?;
    Ok(texts)
}

/// Whether a desk has enough messages for its text to be made in threads.
fn sends_many(desk: &Desk) -> bool {
    let mut messages = 0usize;
    for index in 0..desk.outboxes() {
        let (_, mails) = desk.outbox_at(index);
        messages = messages.saturating_add(mails.len());
        if messages >= SHARED_FROM {
            return true;
        }
    }
    false
}

/// The output text of a desk: the results, and then the outboxes in as many parts as there are workers.
fn texts_in_threads(
    rt: &(impl Threads + Sync),
    alloc: Global,
    desk: &Desk,
    workers: usize,
) -> Result<Vec<Vec<u8>>, AllocError>
    requires { 0 < workers }
    ensures { IfOk result (λ texts. joined texts.items ≡ output_of desk.now.results desk.now.outboxes) }
{
    let parts = render_parts(rt, alloc, desk, workers)?;
    let mut texts = Vec::new(alloc);
    texts.push(render_results(alloc, desk)?)?;
    append_parts(&mut texts, parts)?;
    Ok(texts)
}

/// The parts of the outboxes, in their order, each rendered in a thread of its own.
fn render_parts(
    rt: &(impl Threads + Sync),
    alloc: Global,
    desk: &Desk,
    parts: usize,
) -> Result<Vec<Part>, AllocError>
    requires { 0 < parts }
    ensures count { IfOk result (λ texts. length texts.items ≡ parts) }
    ensures each { IfOk result (λ texts. (part : ℕ) (d : _) → part < parts
        → IfOk (slice_index_or texts.items part d) (λ text. text.items ≡ lines_of_part desk.now.outboxes parts part)) }
{
    thread::map_indices(
        rt,
        alloc,
        parts,
        &|part| render_part(alloc, desk, part, parts),
    )
}

/// The lines of one part of the outboxes.
fn render_part(alloc: Global, desk: &Desk, part: usize, parts: usize) -> Part
    requires { part < parts }
    ensures { IfOk result (λ text. text.items ≡ lines_of_part desk.now.outboxes parts part) }
{
    let outboxes = desk.outboxes();
    let from = start_of(outboxes, parts, part);
    let to = start_of(outboxes, parts, part + 1);
    render_outboxes(alloc, desk, from, to)
}

/// The index of the first outbox of a part; for the index after the last part, the number of outboxes.
fn start_of(outboxes: usize, parts: usize, part: usize) -> usize
    requires some { 0 < parts }
    requires within { part ≤ parts }
    ensures { result ≡ part_start outboxes parts part }
{
    (outboxes as u128 * part as u128 / parts as u128) as usize
}

/// Fails if the texts together have more bytes than a number can count; no memory holds such texts.
pub(crate) fn check_length(texts: &[Vec<u8>]) -> Result<(), AllocError>
    ensures { OnOk result (length (joined texts.now) < 2 ^ 64) }
{
    let mut length = 0usize;
    for text in texts {
        length = length.checked_add(text.len()).ok_or(AllocError)?;
    }
    Ok(())
}

/// Appends the texts of parts. Fails if memory was refused for one of them.
fn append_parts(texts: &mut Vec<Vec<u8>>, parts: Vec<Part>) -> Result<(), AllocError>
    ensures appended { OnOk result (joined texts.new.items ≡ joined texts.old.items ++ flat_map bytes_of parts.items) }
    ensures made { OnOk result (AreMade parts.items) }
{
    for part in parts {
        texts.push(part?)?;
    }
    Ok(())
}
