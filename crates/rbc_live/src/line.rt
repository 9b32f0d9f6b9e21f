//! The line that has not ended yet.

ghost use Rattle.std.specs.Prelude.{◌≡◌, ◌++◌, ◌≤◌, [], List, ℕ, OnOk, true, false, length};
ghost use Rattle.rbc_live.specs.UnderWay.{Shows};

use crate::stand_in::shortened;
use std::alloc::{AllocError, Global};

/// The greatest number of bytes that are kept of a line.
const MAX_KEPT: usize = 65_536;

/// The bytes of a line that has begun, or those of a short line that stands in for it.
#[derive(Drop)]
pub struct UnfinishedLine {
    bytes: Vec<u8>,
}

impl UnfinishedLine {
    /// No byte of a line.
    pub fn new(alloc: Global) -> UnfinishedLine
        ensures { Shows [] result }
    {
        UnfinishedLine {
            bytes: Vec::new(alloc),
        }
    }

    /// Adds bytes of the same line. After an error what is kept is of no use.
    pub fn add(&mut self, alloc: Global, more: &[u8]) -> Result<(), AllocError>
        ensures { (line : List ℕ) → Shows line self.old → OnOk result (Shows (line ++ more.now) self.new) }
    {
        self.bytes.extend_from_slice(more)?;
        if self.bytes.len() > MAX_KEPT {
            self.bytes = shortened(alloc, &self.bytes)?;
        }
        Ok(())
    }

    /// Whether no byte was added.
    pub fn is_empty(&self) -> bool
        ensures none { (line : List ℕ) → Shows line self.now → result ≡ true → line ≡ [] }
        ensures some { (line : List ℕ) → Shows line self.now → result ≡ false → 1 ≤ length line }
    {
        self.bytes.is_empty()
    }

    /// The bytes that are kept.
    pub fn bytes(&self) -> &[u8]
        ensures { result.now ≡ self.now.bytes.items }
    {
        &self.bytes
    }

    /// Begins a new line.
    pub fn clear(&mut self)
        ensures { Shows [] self.new }
    {
        self.bytes.clear();
    }
}
