//! The text of a report while it is written.

ghost use Rattle.std.specs.Prelude.{◌≡◌, [], false, IfOk, OnOk, string_bytes};
ghost use Rattle.rbc_track_report.specs.Growth.{IsWrittenOn};

use crate::names::{MAX_SHOWN, is_unruly};
use itoa::Buffer;
use rbc_words::{Count, Km, Metres};
use std::alloc::{AllocError, Global};
use std::fmt::Write;

/// A text that is written piece by piece. If memory is refused, a piece is missing, and `ended` reports it; the methods
/// that add a piece do not.
#[derive(Drop)]
pub struct Sheet {
    text: String,
    is_cut: bool,
}

impl Sheet {
    /// An empty sheet.
    pub fn new(alloc: Global) -> Self
        ensures text { string_bytes result.text ≡ [] }
        ensures whole { result.is_cut ≡ false }
    {
        Sheet {
            text: String::new(alloc),
            is_cut: false,
        }
    }

    /// An empty sheet with room for this many bytes. If memory is refused for them, `ended` reports it.
    pub fn with_room(alloc: Global, bytes: usize) -> Self
        ensures { string_bytes result.text ≡ [] }
    {
        let mut sheet = Sheet::new(alloc);
        if sheet.text.reserve(bytes).is_err() {
            sheet.is_cut = true;
        }
        sheet
    }

    /// The whole text.
    ///
    /// # Errors
    ///
    /// Memory was refused for a piece of it.
    pub fn ended(self) -> Result<String, AllocError>
        ensures { IfOk result (λ text. (text ≡ self.text) × (self.is_cut ≡ false)) }
    {
        if self.is_cut {
            return Err(AllocError);
        }
        Ok(self.text)
    }

    /// Adds words as they are.
    pub fn words(&mut self, words: &str) -> &mut Self
        ensures same { result.ghost_name ≡ self.entry.ghost_name }
        ensures written { IsWrittenOn self.old result.now }
    {
        if self.text.push_str(words).is_err() {
            self.is_cut = true;
        }
        self
    }

    /// Adds a number in decimal.
    pub fn number(&mut self, number: usize) -> &mut Self
        ensures same { result.ghost_name ≡ self.entry.ghost_name }
        ensures written { IsWrittenOn self.old result.now }
    {
        let mut digits = Buffer::new();
        self.words(digits.format(number))
    }

    /// Adds a number in decimal, with its sign if it is below 0.
    pub fn integer(&mut self, number: i64) -> &mut Self
        ensures same { result.ghost_name ≡ self.entry.ghost_name }
        ensures written { IsWrittenOn self.old result.now }
    {
        if write!(self.text, "{number}").is_err() {
            self.is_cut = true;
        }
        self
    }

    /// Adds the number of a table, counted from 1, by its index.
    pub fn nth(&mut self, index: usize) -> &mut Self
        ensures same { result.ghost_name ≡ self.entry.ghost_name }
        ensures written { IsWrittenOn self.old result.now }
    {
        self.number(index.saturating_add(1))
    }

    /// Adds a place or a length in units of 10 cm, in kilometres.
    pub fn length(&mut self, units: u32) -> &mut Self
        ensures same { result.ghost_name ≡ self.entry.ghost_name }
        ensures written { IsWrittenOn self.old result.now }
    {
        let km = Km(units);
        if write!(self.text, "{km}").is_err() {
            self.is_cut = true;
        }
        self
    }

    /// Adds a length in units of 10 cm, in metres.
    pub fn metres(&mut self, units: u32) -> &mut Self
        ensures same { result.ghost_name ≡ self.entry.ghost_name }
        ensures written { IsWrittenOn self.old result.now }
    {
        let metres = Metres(units);
        if write!(self.text, "{metres}").is_err() {
            self.is_cut = true;
        }
        self
    }

    /// Adds a number of things.
    pub fn count(&mut self, number: usize, noun: &str) -> &mut Self
        ensures same { result.ghost_name ≡ self.entry.ghost_name }
        ensures written { IsWrittenOn self.old result.now }
    {
        let count = Count { number, noun };
        if write!(self.text, "{count}").is_err() {
            self.is_cut = true;
        }
        self
    }

    /// Adds a number at the right of a column of this width.
    pub fn column(&mut self, width: usize, number: usize) -> &mut Self
        ensures same { result.ghost_name ≡ self.entry.ghost_name }
        ensures written { IsWrittenOn self.old result.now }
    {
        if write!(self.text, "{number:>width$}").is_err() {
            self.is_cut = true;
        }
        self
    }

    /// Adds a name between quotation marks, with a space before it, or nothing.
    pub fn name(&mut self, name: Option<&str>) -> &mut Self
        ensures same { result.ghost_name ≡ self.entry.ghost_name }
        ensures written { IsWrittenOn self.old result.now }
    {
        match name {
            Some(name) => self.words(" \"").words(name).words("\""),
            None => self,
        }
    }

    /// Adds a character.
    fn letter(&mut self, c: char)
        ensures { IsWrittenOn self.old self.new }
    {
        if self.text.push(c).is_err() {
            self.is_cut = true;
        }
    }

    /// Adds a text from a file: its first 40 characters, with a dot for each one that is unruly, and two dots if it is
    /// longer.
    pub fn shown(&mut self, shown: &str) -> &mut Self
        ensures same { result.ghost_name ≡ self.entry.ghost_name }
        ensures written { IsWrittenOn self.old result.now }
    {
        for (index, c) in shown.chars().enumerate() {
            if index == MAX_SHOWN {
                return self.words(" ..");
            }
            self.letter(if is_unruly(c) { '.' } else { c });
        }
        self
    }
}
