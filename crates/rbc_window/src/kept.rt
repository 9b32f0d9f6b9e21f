//! What is kept of a message until it is committed.

use rbc_desk::Answer;
use rbc_records::Key;

/// The answer to a message, and the lists of trains that its train leaves and comes into: the same list if it stays.
#[derive(Drop)]
pub struct Kept {
    pub answer: Answer,
    pub left: Key,
    pub entered: Key,
}
