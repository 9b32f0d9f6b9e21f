//! What of a track is drawn.

ghost use Rattle.std.specs.Prelude.{◌≡◌};
ghost use Rattle.rbc_picture.specs.Selections.{is_whole, lists, meets, whole_line};

/// What of a track is drawn.
#[derive(Clone, Copy)]
pub enum Selection<'a> {
    /// All lines, and all trains without a place.
    All,
    /// The lines with a train, a stop or a restriction, and all trains without a place.
    Busy,
    /// These lines and parts of lines, one below the other. A line may stand more than once.
    Lines(&'a [LinePart]),
    /// The train with this engine number (NID_ENGINE), on the part of its line round it; if the train has no place, the
    /// train alone.
    Train(u32),
}

/// A line, or a part of it.
#[derive(Clone, Copy)]
pub struct LinePart {
    /// The number of the line, from 0.
    pub line: u32,
    /// From a place to a greater one, in units of 10 cm; `None` for the whole line.
    pub part: Option<(u32, u32)>,
}

impl LinePart {
    /// The whole of a line.
    pub(crate) fn whole(line: u32) -> LinePart
        ensures { result ≡ whole_line line }
    {
        LinePart { line, part: None }
    }

    /// Whether what lies from one place to another meets the part, if only in an end.
    pub(crate) fn meets(&self, from: u32, to: u32) -> bool
        ensures { result ≡ meets self.now.part from to }
    {
        match self.part {
            Some((low, high)) => from <= high && low <= to,
            None => true,
        }
    }
}

impl Selection<'_> {
    /// Whether the train with an engine number is listed, if it has no place.
    pub(crate) fn lists(&self, engine: u32) -> bool
        ensures { result ≡ lists self.now engine }
    {
        match self {
            Selection::All | Selection::Busy => true,
            Selection::Lines(_) => false,
            Selection::Train(named) => engine == *named,
        }
    }

    /// Whether it is the train with an engine number.
    pub(crate) fn names(&self, engine: u32) -> bool {
        match self {
            Selection::Train(named) => engine == *named,
            Selection::All | Selection::Busy | Selection::Lines(_) => false,
        }
    }

    /// Whether the whole track is drawn.
    pub(crate) fn is_whole(&self) -> bool
        ensures { result ≡ is_whole self.now }
    {
        match self {
            Selection::All => true,
            Selection::Busy | Selection::Lines(_) | Selection::Train(_) => false,
        }
    }
}
