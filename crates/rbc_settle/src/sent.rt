//! A message to one train.

use ertms_codec::ToTrain;

/// A message that is sent to a train.
#[derive(Drop)]
pub struct Sent {
    /// NID_ENGINE of the train.
    pub engine: u32,
    /// The message itself.
    pub message: ToTrain,
}
