//! How far an input is.

/// How far an input is.
#[derive(Drop)]
pub enum Stage<A> {
    /// It was not taken yet, or it is committed.
    Free,
    /// It was taken, and is neither attempted nor given up.
    Out,
    /// An attempt at it was deposited.
    Tried(A),
    /// It was given up: it is computed when it is committed.
    Void,
}
