//! The inputs that sent the messages for which identifiers are held.

ghost use Rattle.std.specs.Prelude.{◌≡◌, ℕ, [], OnOk};
ghost use Rattle.rbc_account.specs.SentInputs.{stop_key, limit_key, input_at, noted, noted_message, all_noted};
ghost use Rattle.rbc_account.specs.SentInputs.{inputs_after, input_of_stamp, id_of_packet};

use ertms_codec::{Packets, Part, ToTrain};
use indexmap::IndexMap;
use rbc_rule::SentList;
use rbc_settle::Sent;
use std::alloc::{AllocError, Global};
use std::marker::Model;

/// The input that sent a message, and the stamp of the message.
#[derive(Clone, Copy)]
pub struct SentInput {
    pub stamp: u32,
    /// The number of the input, from 1.
    pub input: u64,
}

/// For each identifier of each train, the input that sent the last message under it. In contracts a list of pairs of a
/// number, which stands for an engine and an identifier, and an input; the first pair with a number counts.
#[derive(Drop)]
pub struct SentInputs {
    last: IndexMap<u64, SentInput>,
}

impl Model for SentInputs {
    ghost use Rattle.std.specs.Prelude.{ℕ, List};
    ghost use Rattle.rbc_account.specs.declared.sent_input.SentInput.{SentInput};

    ghost Value = { List (ℕ × SentInput) };

    ghost view = { λ inputs. inputs.last.entries };
}

impl SentInputs {
    /// Nothing was sent.
    pub(crate) fn new(alloc: Global) -> Self
        ensures { result ≡ [] }
    {
        SentInputs {
            last: IndexMap::new(alloc),
        }
    }

    /// The input that sent the message with a stamp under a stop identifier.
    pub(crate) fn of_stop(&self, engine: u32, id: u8, stamp: u32) -> Option<u64>
        ensures { result ≡ input_of_stamp stamp (input_at self.now (stop_key engine id)) }
    {
        self.of_stamp(stop_key(engine, id), stamp)
    }

    /// The input that sent the message with a stamp under a restriction identifier.
    pub(crate) fn of_limit(&self, engine: u32, id: u8, stamp: u32) -> Option<u64>
        ensures { result ≡ input_of_stamp stamp (input_at self.now (limit_key engine id)) }
    {
        self.of_stamp(limit_key(engine, id), stamp)
    }

    /// The input under a number, if it sent the message with a stamp.
    fn of_stamp(&self, key: u64, stamp: u32) -> Option<u64>
        ensures { result ≡ input_of_stamp stamp (input_at self.now key) }
    {
        let sent = *self.last.get(&key)?;
        if sent.stamp == stamp {
            Some(sent.input)
        } else {
            None
        }
    }

    /// Notes the messages that an input sent.
    pub(crate) fn note(&mut self, input: u64, messages: &SentList) -> Result<(), AllocError>
        ensures { OnOk result ((number : ℕ) → input_at self.new number
            ≡ inputs_after input (input_at self.old) messages.now number) }
    {
        for index in 0..messages.len() {
            self.note_message(input, messages.at(index))?;
        }
        Ok(())
    }

    /// Notes one message that an input sent.
    fn note_message(&mut self, input: u64, sent: &Sent) -> Result<(), AllocError>
        ensures { OnOk result ((number : ℕ) → input_at self.new number
            ≡ noted_message input sent.now.engine sent.now.message (input_at self.old) number) }
    {
        let engine = sent.engine;
        match &sent.message {
            ToTrain::StopAt { head, id, .. } => {
                self.note_under(stop_key(engine, *id), head.stamp, input)
            }
            ToTrain::Stop { head, id } => self.note_under(stop_key(engine, *id), head.stamp, input),
            ToTrain::Revoke { head, id } => self.note_under(
                stop_key(engine, *id),
                head.stamp,
                input,
            ),
            ToTrain::General { head, packets } => {
                self.note_packets(engine, head.stamp, input, packets)
            }
        }
    }

    /// Notes a message with packets.
    fn note_packets(
        &mut self,
        engine: u32,
        stamp: u32,
        input: u64,
        packets: &Packets,
    ) -> Result<(), AllocError>
        ensures { OnOk result ((number : ℕ) → input_at self.new number ≡ all_noted
            (λ packet. noted (record { stamp = stamp; input = input }) (limit_key engine (id_of_packet packet)))
            packets.now (input_at self.old) number) }
    {
        for index in 0..packets.count() {
            self.note_under(limit_key(engine, id_of(packets.at(index))), stamp, input)?;
        }
        Ok(())
    }

    /// Notes an input under a number.
    fn note_under(&mut self, key: u64, stamp: u32, input: u64) -> Result<(), AllocError>
        ensures { OnOk result ((number : ℕ) → input_at self.new number
            ≡ noted (record { stamp = stamp; input = input }) key (input_at self.old) number) }
    {
        self.last.insert(key, SentInput { stamp, input })?;
        Ok(())
    }
}

/// The identifier of a packet.
fn id_of(packet: Part) -> u8
    ensures { result ≡ id_of_packet packet }
{
    match packet {
        Part::Restrict { id, .. } | Part::Lift { id, .. } => id,
    }
}

/// The number that stands for a stop identifier of an engine. No other identifier has it.
fn stop_key(engine: u32, id: u8) -> u64
    ensures { result ≡ stop_key engine id }
{
    u64::from(engine) * 512 + u64::from(id)
}

/// The number that stands for a restriction identifier of an engine. No other identifier has it.
fn limit_key(engine: u32, id: u8) -> u64
    ensures { result ≡ limit_key engine id }
{
    u64::from(engine) * 512 + 256 + u64::from(id)
}
