//! How many of the next inputs a worker takes at once, and whether it attempts them. It affects only speed.

ghost use Rattle.std.specs.Prelude.{◌<◌};

use ertms_codec::FromTrain;
use rbc_records::{Key, PlainStore, Rec};
use rbc_rule::Input;

/// With more trains than this, an input that is not a message is given up when it is taken, and computed at its commit.
/// An attempt would read many trains one by one, while the store can search for those concerned, and all attempts made
/// at the same time would read what it writes.
const FEW_TRAINS: usize = 64;

/// Fewer messages than this between two inputs that are given up are given up too. Nothing after the first is taken
/// before it is committed, so few of them could be attempted in parallel.
const SHORT: usize = 32;

/// The most inputs that are given up at once.
const MOST_GIVEN_UP: usize = 512;

/// Limits the inputs that are given up at once: after this many trains searched for them, no more are.
const MOST_SEARCHED: usize = 4_096;

/// How many inputs all workers take at once, together.
const AT_ONCE: usize = 64;

/// The least and the most inputs that one worker takes at once, if many are left.
const LEAST: usize = 8;

const MOST: usize = 64;

/// How many inputs a worker takes at once right after one that was given up, and right before one that will be.
const NEAR: usize = 4;

/// The least number of times that a worker comes back for more inputs.
const ROUNDS: usize = 8;

/// The next inputs that a worker takes, and how many records they may publish.
#[derive(Clone, Copy)]
pub(crate) struct Chunk {
    pub(crate) count: usize,
    pub(crate) is_given_up: bool,
    pub(crate) publishes: usize,
}

/// What a worker takes of these inputs, with the present records. `since` inputs were taken since the last one that was
/// given up.
pub(crate) fn next_chunk(
    records: &PlainStore,
    inputs: &[Input],
    since: usize,
    workers: u8,
) -> Chunk {
    let trains = engines_under(records, Key::Roster);
    let workers = usize::from(workers.max(1));
    let most = (AT_ONCE / workers).clamp(LEAST, MOST);
    if trains <= FEW_TRAINS {
        return attempted(attempted_first(inputs, most, workers));
    }
    let given_up = given_up_first(trains, inputs, since);
    if given_up > 0 {
        return Chunk {
            count: given_up,
            is_given_up: true,
            publishes: published_by(trains, inputs, given_up),
        };
    }
    let most = most.min(most_between(inputs, since, most, workers));
    attempted(attempted_first(inputs, most, workers))
}

/// The first `count` inputs, which are to be attempted.
fn attempted(count: usize) -> Chunk {
    Chunk {
        count,
        is_given_up: false,
        publishes: count,
    }
}

/// How many of the first inputs are given up: those up to an input that is not a message, and on to the next such input
/// if it is near. After messages that were attempted, none is given up unless the first input is not a message.
fn given_up_first(trains: usize, inputs: &[Input], since: usize) -> usize {
    let mut given_up = 0usize;
    let mut messages = if since > 0 { SHORT } else { 0 };
    let mut searched = 0usize;
    for (index, input) in inputs.iter().take(MOST_GIVEN_UP).enumerate() {
        if sender(input).is_some() {
            messages = messages.saturating_add(1);
        } else {
            given_up = index.saturating_add(1);
            messages = 0;
            searched = searched.saturating_add(trains);
        }
        if messages >= SHORT || searched >= MOST_SEARCHED {
            break;
        }
    }
    given_up
}

/// How many records some of the first inputs publish, at the most: each message that of its train, and each other input
/// those of all trains. A move of a train from list to list is not counted.
fn published_by(trains: usize, inputs: &[Input], count: usize) -> usize {
    let mut published = 0usize;
    for input in inputs.iter().take(count) {
        let records = if sender(input).is_some() { 1 } else { trains };
        published = published.saturating_add(records);
    }
    published
}

/// How many inputs a worker takes at once between two that are given up: few after the first, so that the first of them
/// are soon committed, and few before the second, so that all workers end at about the same time.
fn most_between(inputs: &[Input], since: usize, most: usize, workers: usize) -> usize {
    let ahead = inputs
        .iter()
        .take(most.saturating_mul(workers))
        .take_while(|input| sender(input).is_some())
        .count();
    let behind_the_first = (since / 2).saturating_add(NEAR);
    let before_the_second = (ahead / workers.max(1)).max(NEAR);
    behind_the_first.min(before_the_second).min(ahead).max(1)
}

/// How many of the first inputs are attempted: as many as keep all workers busy to the end, and after them the messages
/// of the same trains, so that no other worker attempts one of these at the same time.
fn attempted_first(inputs: &[Input], most: usize, workers: usize) -> usize {
    let share = inputs.len() / workers.max(1).saturating_mul(ROUNDS);
    if share < most {
        return share.max(1);
    }
    for count in most..inputs.len().min(most.saturating_mul(4)) {
        if !has_sender(&inputs[count], &inputs[..count]) {
            return count;
        }
    }
    most
}

/// Whether an input is a message of a train of which one of the others is a message too.
fn has_sender(input: &Input, others: &[Input]) -> bool {
    match sender(input) {
        Some(engine) => others.iter().any(|other| sender(other) == Some(engine)),
        None => false,
    }
}

/// How many engines the list under a key has.
fn engines_under(records: &PlainStore, key: Key) -> usize {
    match records.get(key) {
        Some(Rec::Engines(engines)) => engines.len(),
        _ => 0,
    }
}

/// The engine of the train that sent an input (NID_ENGINE), if it is a message.
pub(crate) fn sender(input: &Input) -> Option<u32> {
    match input {
        Input::Received(
            FromTrain::Report { engine, .. }
            | FromTrain::Ack { engine, .. }
            | FromTrain::StopAck { engine, .. },
        ) => Some(*engine),
        _ => None,
    }
}

/// The key that an input reads first.
pub(crate) fn first_key(input: &Input) -> Key {
    if let Input::Withdraw { engine } = input {
        return Key::Train(*engine);
    }
    match sender(input) {
        Some(engine) => Key::Train(engine),
        None => Key::Roster,
    }
}
