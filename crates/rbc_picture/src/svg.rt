//! A piece of an SVG document while it is drawn.

use crate::escape::push_escaped;
use crate::pixels::Pixels;
use crate::short_words::ShortWord;
use rbc_words::{Count, Km};
use std::alloc::{AllocError, Global};
use std::fmt::Write;

/// A piece of a document. If memory is refused, a part of it is missing, and `ended` reports it; the methods that add
/// to it do not. All lengths and coordinates are in tenths of a pixel.
#[derive(Drop)]
pub(crate) struct Svg {
    text: String,
    is_cut: bool,
}

impl Svg {
    /// An empty piece.
    pub(crate) fn new(alloc: Global) -> Self {
        Svg {
            text: String::new(alloc),
            is_cut: false,
        }
    }

    /// The whole text.
    ///
    /// # Errors
    ///
    /// Memory was refused to a part of it.
    pub(crate) fn ended(self) -> Result<String, AllocError> {
        if self.is_cut {
            return Err(AllocError);
        }
        Ok(self.text)
    }

    /// Adds words as they are.
    pub(crate) fn words(&mut self, words: &str) {
        if self.text.push_str(words).is_err() {
            self.is_cut = true;
        }
    }

    /// Adds a number in decimal.
    pub(crate) fn number(&mut self, number: u64) {
        if write!(self.text, "{number}").is_err() {
            self.is_cut = true;
        }
    }

    /// Adds a place or a length on a line, in units of 10 cm, in kilometres.
    pub(crate) fn km(&mut self, units: u32) {
        let km = Km(units);
        if write!(self.text, "{km}").is_err() {
            self.is_cut = true;
        }
    }

    /// Adds a number of things.
    pub(crate) fn count(&mut self, number: usize, noun: &str) {
        let count = Count { number, noun };
        if write!(self.text, "{count}").is_err() {
            self.is_cut = true;
        }
    }

    /// Adds a stop or a restriction, in short.
    pub(crate) fn short_word(&mut self, word: ShortWord) {
        if write!(self.text, "{word}").is_err() {
            self.is_cut = true;
        }
    }

    /// Adds a name between quotation marks, escaped and with a space before it. Without a name it adds nothing.
    pub(crate) fn name(&mut self, name: &Option<String>) {
        if let Some(name) = name {
            self.words(" \"");
            self.escaped(name.as_str());
            self.words("\"");
        }
    }

    /// Adds a text from a track file, escaped.
    fn escaped(&mut self, text: &str) {
        if push_escaped(&mut self.text, text).is_err() {
            self.is_cut = true;
        }
    }

    /// Adds a length or a coordinate in pixels. One below 0 counts as 0.
    pub(crate) fn pixels(&mut self, tenths: i64) {
        let pixels = Pixels(u32::try_from(tenths.max(0)).unwrap_or(u32::MAX));
        if write!(self.text, "{pixels}").is_err() {
            self.is_cut = true;
        }
    }

    /// Adds an attribute, with a space before it.
    pub(crate) fn attribute(&mut self, key: &str, value: &str) {
        self.words(" ");
        self.words(key);
        self.words("=\"");
        self.words(value);
        self.words("\"");
    }

    /// Adds an attribute that is a length or a coordinate, with a space before it.
    pub(crate) fn length(&mut self, key: &str, tenths: i64) {
        self.words(" ");
        self.words(key);
        self.words("=\"");
        self.pixels(tenths);
        self.words("\"");
    }

    /// Begins a group of elements.
    pub(crate) fn begin_group(&mut self) {
        self.words("<g>\n");
    }

    /// Ends a group of elements.
    pub(crate) fn end_group(&mut self) {
        self.words("</g>\n");
    }

    /// A piece that only has these words.
    pub(crate) fn of(alloc: Global, words: &str) -> Self {
        let mut svg = Svg::new(alloc);
        svg.words(words);
        svg
    }
}
