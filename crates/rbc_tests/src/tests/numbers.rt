//! The numbers that stand under keys, and where they come from.

use super::same;
use rbc_records::Key;
use std::alloc::Global;
use std::process::Abort;

/// Where the number comes from that stands under a key.
#[derive(Clone, Copy, PartialEq)]
pub(crate) enum Origin {
    /// Nothing stands there, and the number is 0.
    Nowhere,
    /// It was published for the attempt at an input.
    Attempt(u32),
    /// It is new: it was published for no attempt, and was not asked for before.
    Commit,
    /// It was asked for before, and was published for no attempt.
    Before,
}

/// A number of a record under a key, and what it comes from when it is asked for.
#[derive(Clone, Copy)]
struct Known {
    key: Key,
    number: u64,
    origin: Origin,
}

/// The numbers that were published for attempts, and those that were asked for, each once.
#[derive(Drop)]
pub(crate) struct Numbers {
    known: Vec<Known>,
}

impl Numbers {
    pub(crate) fn new(alloc: Global) -> Self {
        Numbers {
            known: Vec::new(alloc),
        }
    }

    /// Keeps the numbers that were published for the attempt at an input.
    pub(crate) fn publish(&mut self, rt: &impl Abort, input: u32, numbers: &[(Key, u64)]) {
        for (key, number) in numbers {
            let known = Known {
                key: *key,
                number: *number,
                origin: Origin::Attempt(input),
            };
            self.known.push(known).expect(rt, "memory");
        }
    }

    /// Where a number comes from that stands under a key. No number stands under two keys.
    pub(crate) fn origin(&mut self, rt: &impl Abort, key: Key, number: u64) -> Origin {
        if number == 0 {
            return Origin::Nowhere;
        }
        if let Some(known) = self.known.iter().find(|known| known.number == number) {
            same(rt, known.key, key);
            return known.origin;
        }
        let known = Known {
            key,
            number,
            origin: Origin::Before,
        };
        self.known.push(known).expect(rt, "memory");
        Origin::Commit
    }
}
