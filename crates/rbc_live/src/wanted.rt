//! What is written for the lines that are taken.

/// Which answers are written, and whether alarms are.
#[derive(Clone, Copy)]
pub struct Wanted {
    /// The number of the first line whose answer is written; the first line has number 1.
    pub from: u64,
    /// Whether the alarms that a line changes are written after its answer. If so, the alarms that stand before the
    /// first answer are written too, as raised by the line before it.
    pub alarms: bool,
}
