//! Messages as C has them.

ghost use Rattle.std.specs.Prelude.{◌≡◌, ◌≤◌, length};
ghost use Rattle.ertms_codec.specs.ToTrain.{Fits};
ghost use Rattle.rbc_rule.specs.Gathered.{AreSendable};
ghost use Rattle.rbc_c.specs.Messages.{IsWritten, AreWritten, StaysBehind};

use ertms_codec::write_to_train;
use rbc_rule::SentList;
use rbc_settle::Sent;

/// A message to one train, as its first `length` bytes.
#[repr(C)]
#[derive(Clone, Copy, Drop)]
pub struct Message {
    /// NID_ENGINE.
    pub engine: u32,
    /// How many bytes the message has: 1 to 897.
    pub length: u32,
    pub bytes: [u8; 1024],
}

/// Writes a message.
fn write_one(sent: &Sent, out: &mut Message)
    requires { Fits sent.now.message }
    ensures { IsWritten sent.now out.new }
{
    out.engine = sent.engine;
    out.length = write_to_train(&sent.message, &mut out.bytes) as u32;
}

/// Writes messages to the front of `out`.
pub fn write_all(sent: &SentList, out: &mut [Message])
    requires fit { AreSendable sent.now }
    requires room { length sent.now ≤ length out.old }
    ensures written { AreWritten sent.now out.new }
    ensures behind { StaysBehind (length sent.now) out.old out.new }
{
    for index in 0..sent.len() {
        write_one(sent.at(index), &mut out[index]);
    }
}
