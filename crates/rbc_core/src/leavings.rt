//! What commits leave, to be freed outside a lock.

ghost use Rattle.std.specs.Prelude.{◌≡◌, []};

use rbc_records::Writes;
use rbc_rule::Outcome;
use rbc_versions::{Notes, Published};
use std::alloc::{AllocError, Global};

/// The memory of at most this many notes, or of a publication with at most this many entries, is reused.
const FEW: usize = 8;

/// What the commit of one input leaves: what was read for its attempt, the rest of an attempt that was stale, and the
/// publication that was taken over with the records that were replaced.
#[derive(Drop)]
pub(crate) struct Leaving {
    notes: Option<Notes>,
    stale: Option<(Outcome, Published)>,
    taken_over: Option<(Published, Writes)>,
}

impl Leaving {
    /// Nothing yet.
    pub fn nothing() -> Self {
        Leaving {
            notes: None,
            stale: None,
            taken_over: None,
        }
    }

    /// Keeps what was read for the attempt.
    pub fn keep_notes(&mut self, notes: Notes) {
        self.notes = Some(notes);
    }

    /// Keeps the rest of an attempt that was stale.
    pub fn keep_stale(&mut self, outcome: Outcome, published: Published) {
        self.stale = Some((outcome, published));
    }

    /// Keeps the publication that was taken over, and the records that were replaced.
    pub fn keep_taken_over(&mut self, published: Published, replaced: Writes) {
        self.taken_over = Some((published, replaced));
    }
}

/// What commits leave. A worker lends leavings with room to the book while it holds the lock, and frees them
/// afterwards, so that no other worker waits while memory is freed.
#[derive(Drop)]
pub struct Leavings {
    all: Vec<Leaving>,
}

impl Leavings {
    /// Makes leavings with no room.
    pub fn new(alloc: Global) -> Self {
        Leavings {
            all: Vec::new(alloc),
        }
    }

    /// Makes room for what this many more commits leave.
    pub fn make_room(&mut self, count: usize) -> Result<(), AllocError> {
        self.all.reserve(count)
    }

    /// How many commits left what is kept.
    pub fn len(&self) -> usize {
        self.all.len()
    }

    /// Frees what this many commits left, or all if there are fewer. The room stays.
    pub fn free(&mut self, count: usize) {
        for _ in 0..count {
            if self.all.pop().is_none() {
                return;
            }
        }
    }

    /// Frees what one commit left, except the memory of its notes and of its publication, which it returns for the next
    /// attempt.
    pub fn reuse(&mut self, alloc: Global) -> (Notes, Option<Published>)
        ensures { result.0 ≡ [] }
    {
        let Some(leaving) = self.all.pop() else {
            return (Notes::new(alloc), None);
        };
        let Leaving {
            notes,
            stale: _,
            taken_over,
        } = leaving;
        (emptied(alloc, notes), small_one(taken_over))
    }

    /// Keeps what one more commit leaves if there is room, and else frees it at once.
    pub(crate) fn keep(&mut self, leaving: Leaving) {
        if self.all.len() < self.all.capacity() {
            self.all.push_reserved(leaving);
        }
    }
}

/// Empty notes, in the memory of these if they are few.
fn emptied(alloc: Global, notes: Option<Notes>) -> Notes
    ensures { result ≡ [] }
{
    match notes {
        Some(mut notes) if notes.len() <= FEW => {
            notes.clear();
            notes
        }
        _many_or_none => Notes::new(alloc),
    }
}

/// The publication that was taken over, if it is small. The records that were replaced are freed.
fn small_one(taken_over: Option<(Published, Writes)>) -> Option<Published> {
    let (published, _replaced) = taken_over?;
    if published.len() <= FEW {
        Some(published)
    } else {
        None
    }
}
