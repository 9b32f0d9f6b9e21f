//! Locking a book.

ghost use Rattle.std.specs.Sync.Mutex.{mutex_guard_value};
ghost use Rattle.rbc_core.specs.Books.{IsBook};

use rbc_core::{Book, RunName};
use std::sync::{Mutex, MutexGuard, Wait};
use std::{hint, thread};

/// How often a worker that waits looks again before it lets other threads run.
pub(crate) const LOOKS: u32 = 30;

/// How often it lets them run before it sleeps: waking a thread takes longer than the lock is mostly held.
const PAUSES: u32 = 80;

/// Locks a book. Whatever others did to it, it is one of the run.
pub(crate) fn lock<'a, 'b, N: RunName, R: Wait>(
    rt: &R,
    book: &'a Mutex<Book<'b, N>>,
) -> MutexGuard<'a, Book<'b, N>>
    ensures { IsBook N.run N.log (mutex_guard_value result) }
{
    let guard = match try_for_some_time(book) {
        Some(guard) => guard,
        None => book.lock(rt),
    };
    keeps(&guard);
    guard
}

/// Locks a book if it becomes free within some time.
fn try_for_some_time<'a, 'b, N: RunName>(
    book: &'a Mutex<Book<'b, N>>,
) -> Option<MutexGuard<'a, Book<'b, N>>> {
    for _ in 0..PAUSES {
        for _ in 0..LOOKS {
            if let Some(guard) = book.try_lock() {
                return Some(guard);
            }
            hint::spin_loop();
        }
        thread::yield_now();
    }
    None
}

/// Takes a book out of its lock, when nobody else can lock it any more. It is one of the run.
pub(crate) fn unlocked<'b, N: RunName>(lock: Mutex<Book<'b, N>>) -> Book<'b, N>
    ensures { IsBook N.run N.log result }
{
    let book = lock.into_inner();
    keeps(&book);
    book
}

/// Says in its contract what every book of a run satisfies, because a lock promises it.
fn keeps<N: RunName>(book: &Book<'_, N>)
    ensures { IsBook N.run N.log book.now }
{
    let _ = book.committed();
}
