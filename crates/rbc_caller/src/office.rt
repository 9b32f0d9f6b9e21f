//! A dispatcher that keeps a state of its own: records in a plain store.

ghost use Rattle.std.specs.Prelude.{◌≡◌, [], IfOk, string_bytes};
ghost use Rattle.ertms_codec.specs.ToTrain.{Fits as FitsItsVariables};
ghost use Rattle.rbc_rule.specs.Gathered.{AreSendable};
ghost use Rattle.rbc_rule.specs.Inputs.{Fits};
ghost use Rattle.rbc_caller.specs.SentLine.{sent_line};

use ertms_codec::write_to_train;
use rbc_records::{PlainStore, apply};
use rbc_rule::{Input, Reply, RuleFault, decide};
use rbc_settle::Sent;
use rbc_track::Track;
use std::alloc::{AllocError, Global};

/// How often an input is tried if memory is refused.
const TRIES: u32 = 10;

/// The state of a dispatcher on a track.
#[derive(Drop)]
pub struct Office<'a> {
    alloc: Global,
    track: &'a Track,
    store: PlainStore,
}

/// What came of an input: its result, and the messages that are to be sent now, in order.
#[derive(Drop)]
pub struct Done {
    pub result: Reply,
    pub messages: Vec<Sent>,
}

impl<'a> Office<'a> {
    /// Begins with the empty state.
    pub fn new(alloc: Global, track: &'a Track) -> Self
        ensures store { result.store ≡ [] }
        ensures track { result.track.now ≡ track.now }
    {
        Office {
            alloc,
            track,
            store: PlainStore::new(alloc),
        }
    }

    /// Decides an input, and applies what it writes: all of it, or nothing if the call fails. The messages are to be
    /// sent only then. A store that outlives the process would make the writes durable first.
    ///
    /// # Errors
    ///
    /// `OutOfMemory`; nothing is changed then, and the input can be tried again.
    pub fn take(&mut self, input: &Input) -> Result<Done, RuleFault>
        requires { Fits input.now }
        ensures { IfOk result (λ done. AreSendable done.messages.items) }
    {
        let outcome = decide(self.alloc, self.track, input, &mut self.store)?;
        match apply(&mut self.store, outcome.writes) {
            Ok(()) => Ok(Done {
                result: outcome.result,
                messages: outcome.messages.into_vec(),
            }),
            Err(_writes) => Err(RuleFault::OutOfMemory),
        }
    }

    /// Takes an input, and tries again if memory is refused.
    ///
    /// # Errors
    ///
    /// Of the last try.
    pub fn take_again(&mut self, input: &Input) -> Result<Done, RuleFault>
        requires { Fits input.now }
        ensures { IfOk result (λ done. AreSendable done.messages.items) }
    {
        for _ in 1..TRIES {
            match self.take(input) {
                Err(RuleFault::OutOfMemory) => {}
                done => return done,
            }
        }
        self.take(input)
    }
}

/// The line of a message: the train, the input that sent it, and its bytes.
pub fn sent_line(alloc: Global, number: usize, sent: &Sent) -> Result<String, AllocError>
    requires { FitsItsVariables sent.now.message }
    ensures { IfOk result (λ line. string_bytes line ≡ sent_line number sent.now) }
{
    let mut buffer = [0; 1024];
    let length = write_to_train(&sent.message, &mut buffer);
    let engine = sent.engine;
    let bytes = hex::encode_upper(alloc, &buffer[..length])?;
    format!(in alloc; "{engine} {number} {bytes}")
}
