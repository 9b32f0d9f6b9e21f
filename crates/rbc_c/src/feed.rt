//! A line, given to a desk.

ghost use Rattle.std.specs.Prelude.{◌≡◌, ◌<◌, ◌⊎◌, length};
ghost use Rattle.rbc_live.specs.History.{AreSame};
ghost use Rattle.rbc_c.specs.Feeds.{IsDone, IsShort, refusal_of};

use crate::faults::{DONE, MEMORY, ROOM};
use crate::message::{Message, write_all};
use rbc_live::{LiveDesk, LiveFault};
use rbc_rule::Reply;
use std::alloc::Global;

/// What a line led to.
#[repr(C)]
#[derive(Clone, Copy, Drop)]
pub struct Answer {
    /// Why it was refused, 1 to 255; or 0.
    pub refused: u32,
    /// How many messages it sent.
    pub count: usize,
}

/// The code with which an input is refused, or 0 if it is accepted.
fn refusal_of(reply: Reply) -> u32
    ensures { result ≡ refusal_of reply }
{
    match reply {
        Reply::Done(_) => 0,
        Reply::Refused(code) => u32::from(code),
    }
}

/// Gives one line to a desk. Answers 0, or the code of a fault.
pub fn feed_desk(
    desk: &mut LiveDesk,
    alloc: Global,
    line: &[u8],
    out: &mut [Message],
    answer: &mut Answer,
) -> u32
    ensures track { desk.new.track ≡ desk.old.track }
    ensures codes { (result ≡ 0) ⊎ (result ≡ 1) ⊎ (result ≡ 3) }
    ensures done { result ≡ 0 → IsDone desk.old line.now out.old desk.new out.new answer.new }
    ensures stays { 0 < result → AreSame desk.old.records desk.new.records × (out.new ≡ out.old) }
    ensures memory { result ≡ 1 → answer.new ≡ answer.old }
    ensures room { result ≡ 3 → IsShort desk.old line.now (length out.old) answer.new }
{
    match desk.feed(alloc, line, out.len()) {
        Ok(done) => {
            write_all(&done.messages, out);
            answer.count = done.messages.len();
            answer.refused = refusal_of(done.reply);
            DONE
        }
        Err(LiveFault::Memory) => MEMORY,
        Err(LiveFault::Room(count)) => {
            *answer = Answer { refused: 0, count };
            ROOM
        }
    }
}
