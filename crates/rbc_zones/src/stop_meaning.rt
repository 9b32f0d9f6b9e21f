//! What a stop means for a train.

/// What a stop means for one train.
#[derive(Clone, Copy, Debug, PartialEq, Eq)]
pub enum Concern {
    /// Nothing: no edge of the stop is ahead of the train.
    None,
    /// The train has to stop before this edge, a place on its line ahead of it and not behind its balise group.
    Before(u32),
    /// The train has to stop at once.
    Now,
}
