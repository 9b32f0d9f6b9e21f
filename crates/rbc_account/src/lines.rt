//! The lines of a reader, one after another.

ghost use Rattle.std.specs.Prelude.{◌≡◌, ◌≤◌, ◌<◌, ◌==◌, [], ℕ, List, Option, vec_len, OnOk};
ghost use Rattle.std.specs.List.{position};
ghost use Rattle.rbc_text.specs.Calls.{max_calls};

use memchr::memchr;
use rbc_text::Calls;
use std::alloc::{AllocError, Global};
use std::io::Read;

/// The number of bytes asked for in one call.
const PIECE: usize = 65_536;

/// Why there is no next line.
#[derive(Clone, Copy, Debug, PartialEq, Eq)]
pub enum LineFault {
    /// The reader failed, or did not end within 2 ^ 47 calls. All lines that had ended were given.
    Read,
    /// Memory was refused. The reader of lines is then of no further use.
    Memory,
}

impl From<AllocError> for LineFault {
    ghost use Rattle.std.specs.Prelude.{◌≡◌};
    ghost use Rattle.rbc_account.specs.declared.lines.LineFault.TheVariants.{Memory};

    ghost from_gives = { λ _ fault. fault ≡ Memory };

    fn from(_: AllocError) -> LineFault {
        LineFault::Memory
    }
}

/// The lines of a reader, one after another. Each ends with a line feed, which the last one may lack. The memory is
/// that of the longest line, which is kept whole, and of one piece of 65,536 bytes.
#[derive(Drop)]
pub struct LineReader {
    calls: Calls,
    /// The bytes that the last call of the reader gave.
    piece: Vec<u8>,
    /// How many bytes of the piece belong to lines that were given.
    at: usize,
    /// The current line, without its line feed.
    line: Vec<u8>,
    /// Whether the reader has ended.
    ended: bool,
    ghost within: { at ≤ vec_len piece },
}

/// The place of the first line feed.
fn line_feed_in(text: &[u8]) -> Option<usize>
    ensures { result ≡ position (λ b. b == 10) text.now }
{
    memchr(b'\n', text)
}

impl LineReader {
    ghost use Rattle.rbc_account.specs.Lines.{HasRead, IsMidway, IsNext, IsFilled, IsCut, left_in};

    /// Before the first line of a reader. It takes no memory.
    pub fn new(alloc: Global) -> LineReader
        ensures { (known : Option (List ℕ)) → HasRead known known result [] }
    {
        LineReader {
            calls: Calls::new(),
            piece: Vec::new(alloc),
            at: 0,
            line: Vec::new(alloc),
            ended: false,
        }
    }

    /// The current line, without its line feed.
    pub fn line(&self) -> &[u8]
        ensures { result.now ≡ self.now.line.items }
    {
        &self.line
    }

    /// Goes on to the next line. Returns whether there is one.
    ///
    /// # Errors
    ///
    /// See [`LineFault`].
    pub fn advance<R: Read>(&mut self, reader: &mut R) -> Result<bool, LineFault>
        ensures { (old : Option (List ℕ)) (lines : List (List ℕ)) → HasRead old (R.remaining reader.old) self.old lines
            → IsNext old (R.remaining reader.new) self.new lines result }
    {
        self.line.clear();
        if self.ended {
            return Ok(false);
        }
        while !self.cut_line()? {
            if !self.fill(reader)? {
                self.ended = true;
                return Ok(!self.line().is_empty());
            }
        }
        Ok(true)
    }

    /// Adds the bytes of the piece up to its next line feed to the current line, or all that are left. Returns whether
    /// there was a line feed.
    fn cut_line(&mut self) -> Result<bool, AllocError>
        ensures cut { (old new : Option (List ℕ)) (lines : List (List ℕ)) → IsMidway old new self.old lines
            → IsCut old new self.new lines result }
        ensures calls { self.new.calls ≡ self.old.calls }
    {
        let left = &self.piece[self.at..];
        match line_feed_in(left) {
            Some(length) => {
                self.line.extend_from_slice(&left[..length])?;
                self.at += length + 1;
                Ok(true)
            }
            None => {
                self.line.extend_from_slice(left)?;
                self.at = self.piece.len();
                Ok(false)
            }
        }
    }

    /// Reads a piece, after all of the last one was added to the current line. Returns whether the reader gave bytes.
    ///
    /// # Errors
    ///
    /// Those of `advance`.
    fn fill<R: Read>(&mut self, reader: &mut R) -> Result<bool, LineFault>
        ensures filled { (old : Option (List ℕ)) (lines : List (List ℕ))
            → IsMidway old (R.remaining reader.old) self.old lines → left_in self.old ≡ []
            → IsFilled old (R.remaining reader.new) self.new lines result }
        ensures called { OnOk result ((self.old.calls.made < self.new.calls.made) × (self.new.calls.made ≤ max_calls)) }
    {
        let mut piece = [0u8; PIECE];
        while self.calls.may_go_on() {
            match self.calls.read(reader, &mut piece) {
                Ok(0) => return Ok(false),
                Ok(count) => {
                    self.keep(&piece[..count])?;
                    return Ok(true);
                }
                Err(_) => (),
            }
        }
        Err(LineFault::Read)
    }

    /// Keeps a piece in place of the last one.
    fn keep(&mut self, piece: &[u8]) -> Result<(), AllocError>
        ensures piece { OnOk result (left_in self.new ≡ piece.now) }
        ensures line { self.new.line ≡ self.old.line }
        ensures calls { self.new.calls ≡ self.old.calls }
        ensures ended { self.new.ended ≡ self.old.ended }
    {
        self.at = 0;
        self.piece.clear();
        self.piece.extend_from_slice(piece)
    }
}
