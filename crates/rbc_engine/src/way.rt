//! Which way the next inputs of a run go.

ghost use Rattle.std.specs.Prelude.{◌<◌};

use crate::chunk::sender;
use rbc_core::Desk;
use rbc_records::{Key, Rec};
use rbc_rule::Input;

/// The greatest number of inputs of one stretch of a run: a book takes memory for each of its inputs.
const MAX_STRETCH: usize = 16_384;

/// How many of the first messages are examined.
const SAMPLE: usize = 64;

/// How many messages a window has, and from when on workers share them by train.
#[derive(Clone, Copy, Debug, PartialEq, Eq)]
pub struct Pace {
    /// How many identifiers the trains that sent the first messages have to hold, on average.
    pub held: usize,
    /// The least number of messages of a window.
    pub least: usize,
    /// The number of messages from which on a window is run whatever the trains hold.
    pub many: usize,
    /// The greatest number of messages of a window.
    pub most: usize,
}

/// The pace of the program (bench/RESULTS.md). One worker takes fewer messages, and messages of trains that hold less.
pub const PACE: Pace = Pace {
    held: 96,
    least: 1_024,
    many: 16_384,
    most: 100_000,
};

/// Who does some inputs.
#[derive(Clone, Copy, PartialEq, Eq)]
pub(crate) enum Road {
    /// One worker, on the desk itself, one after another.
    Alone,
    /// Several workers, which share the messages of a window by train.
    Window,
    /// All workers, on a locked book.
    Book,
}

/// Who does the next inputs, and how many of them there are at the most.
#[derive(Clone, Copy, PartialEq, Eq)]
pub(crate) struct Way {
    pub(crate) road: Road,
    pub(crate) count: usize,
}

/// The way of the next inputs. Without a pace, all workers share the inputs on a book. With a pace, messages are shared
/// by train in windows, which hold only messages, and as many as the pace says. A window is run if there are many
/// messages, or if the trains that sent the first ones hold many identifiers, since each message then takes long.
/// Otherwise one worker takes a few inputs, and the choice is made again. It affects only speed.
pub(crate) fn next_way(desk: &Desk, inputs: &[Input], workers: u8, pace: Option<Pace>) -> Way
    ensures { 0 < result.count }
{
    let Some(pace) = pace else {
        return some_on(Road::Book, MAX_STRETCH);
    };
    if workers < 2 {
        return some_on(Road::Alone, MAX_STRETCH);
    }
    let before = before_messages(inputs, pace.least);
    if before > 0 {
        return some_on(Road::Alone, before);
    }
    let messages = messages_ahead(inputs, pace.most);
    if messages.len() >= pace.many || are_dear(desk, messages, pace.held) {
        return some_on(Road::Window, messages.len());
    }
    some_on(Road::Alone, messages.len().min(pace.least))
}

/// A road, and how many inputs take it: one at least.
fn some_on(road: Road, count: usize) -> Way
    ensures { 0 < result.count }
{
    Way {
        road,
        count: count.max(1),
    }
}

/// How many inputs stand before the first `least` consecutive messages, or the number of inputs if there are no such
/// messages.
fn before_messages(inputs: &[Input], least: usize) -> usize {
    let mut messages = 0usize;
    for (index, input) in inputs.iter().enumerate() {
        if sender(input).is_none() {
            messages = 0;
            continue;
        }
        messages = messages.saturating_add(1);
        if messages >= least {
            return index.saturating_add(1).saturating_sub(messages);
        }
    }
    inputs.len()
}

/// The messages that come first, at most `most` of them.
fn messages_ahead(inputs: &[Input], most: usize) -> &[Input] {
    let ahead = &inputs[..inputs.len().min(most)];
    match ahead.iter().position(|input| sender(input).is_none()) {
        Some(behind) => &ahead[..behind],
        None => ahead,
    }
}

/// Whether the trains that sent the first of these messages hold at least `least` identifiers on average.
fn are_dear(desk: &Desk, messages: &[Input], least: usize) -> bool {
    let first = &messages[..messages.len().min(SAMPLE)];
    let mut held = 0usize;
    for message in first {
        held = held.saturating_add(identifiers(desk, message));
    }
    held >= least.saturating_mul(first.len())
}

/// How many identifiers the train that sent an input holds; 0 for other inputs.
fn identifiers(desk: &Desk, input: &Input) -> usize {
    let Some(engine) = sender(input) else {
        return 0;
    };
    match desk.store().get(Key::Train(engine)) {
        Some(Rec::Train(train)) => train.stops.held().saturating_add(train.limits.held()),
        _ => 0,
    }
}
