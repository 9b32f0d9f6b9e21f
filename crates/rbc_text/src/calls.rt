//! The calls of a reader.

ghost use Rattle.std.specs.Prelude.{◌≡◌, ◌+◌, ◌<◌, ◌&&◌, ◌↔◌, not, nat_lt, false, IsTrue};
ghost use Rattle.std.specs.Io.{ReadsAtMost};
ghost use Rattle.std.specs.Io.KnownBytes.{ReadConsumes};
ghost use Rattle.rbc_text.specs.Calls.{IsFailure, max_calls};

use std::io;
use std::io::{ErrorKind, Read};

/// The greatest number of calls of a reader: 2 ^ 47, after which fewer than 2 ^ 63 lines were read.
const MAX_CALLS: u64 = 1 << 47;

/// How many calls of a reader were made, and whether one failed. After a failure no call is made.
#[derive(Drop)]
pub struct Calls {
    pub made: u64,
    /// Whether a call failed, other than by an interruption.
    pub failed: bool,
}

impl Calls {
    /// No call was made.
    pub fn new() -> Calls
        ensures made { result.made ≡ 0 }
        ensures failed { result.failed ≡ false }
    {
        Calls {
            made: 0,
            failed: false,
        }
    }

    /// Whether one more call may be made: none failed, and fewer than 2 ^ 47 were made.
    pub fn may_go_on(&self) -> bool
        ensures { result ≡ (not self.now.failed && nat_lt self.now.made max_calls) }
    {
        !self.failed && self.made < MAX_CALLS
    }

    /// Calls a reader once, and hands on its answer. A call that was interrupted did not fail.
    pub fn read<R: Read>(&mut self, reader: &mut R, piece: &mut [u8]) -> io::Result<usize>
        requires sound { self.old.failed ≡ false }
        requires few { self.old.made < max_calls }
        ensures made { self.new.made ≡ self.old.made + 1 }
        ensures failed { IsTrue self.new.failed ↔ IsFailure result }
        ensures bound { ReadsAtMost result piece.new }
        ensures bytes { ReadConsumes (R.remaining reader.old) (R.remaining reader.new) result piece.new }
    {
        self.made += 1;
        let answer = reader.read(piece);
        self.failed = is_failure(&answer);
        answer
    }
}

/// Whether an answer of a reader is an error other than an interruption.
fn is_failure(answer: &io::Result<usize>) -> bool
    ensures { IsTrue result ↔ IsFailure answer.now }
{
    match answer {
        Ok(_) => false,
        Err(error) => error.kind() != ErrorKind::Interrupted,
    }
}
