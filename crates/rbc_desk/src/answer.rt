//! What an input answers and sends.

use rbc_rule::Reply;
use rbc_settle::Sent;

/// The answer to an input, and the messages that it sends.
#[derive(Drop)]
pub struct Answer {
    pub result: Reply,
    pub messages: Vec<Sent>,
}
