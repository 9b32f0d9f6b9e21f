//! Reading single records.

use crate::record::{Key, Rec};
use crate::search::Sought;
use crate::writes::Writes;
use rbc_settle::Numbers;
use std::alloc::{AllocError, Global};

/// Why a record could not be read.
#[derive(Clone, Copy, Debug, PartialEq, Eq)]
pub enum ReadFault {
    /// There was not enough memory.
    OutOfMemory,
    /// The reader failed.
    Failed,
}

/// A source of single records that remembers what it has read. What is known under a key never changes.
pub trait Reader {
    ghost use Rattle.std.specs.Prelude.{ℕ, ◌≡◌, ◌+◌, ◌<◌, ◌^◌, IsTrue, IfOk, IfSome, OnOk, OnErr, option_copied};
    ghost use Rattle.rbc_records.specs.Seeking.{AreFound};
    ghost use Rattle.rbc_records.specs.Notes.{Notes, Learns, knows, noted, failures_after};

    /// What has been read so far.
    ghost notes: { Self → Notes };

    /// The number of reads that have failed.
    ghost failed: { Self → ℕ };

    /// Reads the record under a key, and so makes the key known. An error leaves what is known unchanged; `Failed`
    /// counts as one more failure.
    fn fetch(&mut self, key: Key) -> Result<(), ReadFault>
        requires { failed self.old + 1 < 2 ^ 64 }
        ensures ok { OnOk result (Learns (notes self.old) key (notes self.new)) }
        ensures err { OnErr result (notes self.new ≡ notes self.old) }
        ensures failed { failed self.new ≡ failures_after result (failed self.old) };

    /// The record that was read under a known key, or `None` if there is none.
    fn seen(&self, key: Key) -> Option<&Rec>
        requires { IsTrue (knows (notes self.now) key) }
        ensures { option_copied result ≡ noted (notes self.now) key };

    /// Writes that are no longer needed, whose memory can be reused; `None` if there are none. What has been read
    /// stays.
    fn spare(&mut self) -> Option<Writes>
        ensures same { notes self.new ≡ notes self.old }
        ensures failed { failed self.new ≡ failed self.old }
    {
        None
    }

    /// The number of reads that have failed.
    fn failures(&self) -> u64
        ensures { result ≡ failed self.now };

    /// The engines of some trains, among them all that a command seeks. `None` from a reader that does not record what
    /// its trains were told, and if there are too many engines for a list to help. A reader that returns engines knows
    /// every key.
    fn search(&self, _alloc: Global, _sought: Sought<'_>) -> Result<Option<Numbers>, AllocError>
        ensures { IfOk result (λ found. IfSome found (AreFound (notes self.now) _sought.entry)) }
    {
        Ok(None)
    }
}
