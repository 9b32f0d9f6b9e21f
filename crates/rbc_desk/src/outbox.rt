//! The messages that were sent to each engine.

ghost use Rattle.std.specs.Prelude.{◌≡◌, ◌-◌, ◌^◌, ◌<◌, ◌≤◌, [], ◌∷◌, ◌++◌, length, take, OnOk, OnErr};
ghost use Rattle.std.specs.List.{flat_map};
ghost use Rattle.std.specs.Int.{w16};
ghost use Rattle.std.specs.Int.RustNames.{FitsSigned};
ghost use Rattle.ertms_codec.specs.ToTrain.{Fits, HoldsReference, Spells, fields_of, spelling_of};
ghost use Rattle.ertms_codec.specs.Layout.{HoldValues};
ghost use Rattle.ertms_codec.specs.PacketsToTrain.{PacketFits, ArePacketsThatFit, fields_of_packet};
ghost use Rattle.rbc_maps.specs.Maps.{with_value, value_or};
ghost use Rattle.rbc_rule.specs.Gathered as gathered;
ghost use Rattle.rbc_desk.specs.Sendable.{AreSendable};
ghost use Rattle.rbc_desk.specs.Held.{AreOutboxes, AreTakenBack, AreToTheEnginesOf, post_one, post_each, taken_back};

use ertms_codec::{Head, Packets, Part, ToTrain};
use rbc_settle::Sent;
use std::alloc::{AllocError, Global};
use std::cell::Cell;
use std::marker::Model;
use std::mem;

/// A message that was sent, and the number of the input, from 1, that caused it.
#[derive(Drop)]
pub struct Mail {
    pub input: u32,
    pub message: ToTrain,
}

/// The messages that were sent to one engine, in order. In contracts a list of mails.
#[derive(Drop)]
pub struct Outbox {
    mails: Vec<Mail>,
}

impl Model for Outbox {
    ghost use Rattle.std.specs.Prelude.{List};
    ghost use Rattle.rbc_desk.specs.declared.outbox.Mail.{Mail};

    ghost Value = { List Mail };

    ghost view = { λ o. o.mails.items };

    ghost use Rattle.rbc_desk.specs.Sendable.{AreSendable};

    // Each message can be written, and is what its bytes encode.
    ghost invariant = { λ o. AreSendable o.mails.items };
}

impl Outbox {
    /// Makes an empty outbox.
    fn new(alloc: Global) -> Self
        ensures { result ≡ [] }
    {
        Outbox {
            mails: Vec::new(alloc),
        }
    }

    /// The messages, in the order in which they were sent.
    pub fn mails(&self) -> &[Mail]
        ensures mails { result.now ≡ self.now }
        ensures sendable { AreSendable self.now }
    {
        self.mails.as_slice()
    }

    /// Takes the last message out, if there is one.
    fn drop_last(&mut self)
        ensures { self.new ≡ take (length self.old - 1) self.old }
    {
        let _ = self.mails.pop();
    }

    /// Adds a message at the end. An error changes nothing.
    fn add(&mut self, mail: Mail) -> Result<(), AllocError>
        requires { Fits mail.message }
        ensures ok { OnOk result (self.new ≡ self.old ++ mail ∷ []) }
        ensures err { OnErr result (self.new ≡ self.old) }
    {
        spells(&mail.message);
        self.mails.push(mail)?;
        Ok(())
    }
}

/// The messages in the outbox of an engine; none if it has no outbox.
pub(crate) fn mails_of(outboxes: &[(u32, Outbox)], engine: u32) -> &[Mail]
    requires { AreOutboxes outboxes.now }
    ensures mails { result.now ≡ value_or [] outboxes.now engine }
    ensures sendable { AreSendable result.now }
{
    match rbc_maps::value_of(outboxes, engine) {
        Some(outbox) => outbox.mails(),
        None => &[],
    }
}

/// Says in its contract that the variables of each message's head have room for their values, but for NID_LRBG.
fn head_has_room(head: Head)
    ensures { head.stamp < 2 ^ 32 }
{}

/// Says in its contract that D_REF has room for its value.
fn reference_has_room(reference: i16)
    ensures { FitsSigned w16 reference }
{}

/// Says in its contract that each variable of a packet that fits has room for its value.
fn packet_has_room(part: Part)
    requires { PacketFits part }
    ensures { HoldValues (fields_of_packet part) }
{}

/// Says in its contract that each variable of packets that fit has room for its value.
fn packets_have_room(packets: &Packets)
    requires { ArePacketsThatFit packets.now }
    ensures { HoldValues (flat_map fields_of_packet packets.now) }
{
    for index in 0..packets.count() {
        packet_has_room(packets.at(index));
    }
}

/// Says in its contract that each variable of a message that fits has room for its value.
fn has_room(message: &ToTrain)
    requires { Fits message.now }
    ensures values { HoldValues (fields_of message.now) }
    ensures reference { HoldsReference message.now }
{
    match message {
        ToTrain::StopAt {
            head,
            reference,
            ..
        } => {
            head_has_room(*head);
            reference_has_room(*reference);
        }
        ToTrain::Stop { head, .. } => head_has_room(*head),
        ToTrain::Revoke { head, .. } => head_has_room(*head),
        ToTrain::General { head, packets } => {
            head_has_room(*head);
            packets_have_room(packets);
        }
    }
}

/// Says in its contract that a message that fits is what its own bytes encode.
fn spells(message: &ToTrain)
    requires { Fits message.now }
    ensures { Spells (spelling_of message.now) message.now }
{
    has_room(message);
}

/// Puts a message into its engine's outbox. An engine gets an outbox with its first message. The index `near` is tried
/// first, and is then set to the index after the outbox. An error changes nothing.
fn post(
    alloc: Global,
    outboxes: &mut Vec<(u32, Outbox)>,
    engine: u32,
    mail: Mail,
    near: &Cell<usize>,
) -> Result<(), AllocError>
    requires outboxes { AreOutboxes outboxes.old.items }
    requires fit { Fits mail.message }
    ensures posted { OnOk result (outboxes.new.items
        ≡ with_value engine (value_or [] outboxes.old.items engine ++ mail ∷ []) outboxes.old.items) }
    ensures outboxes { AreOutboxes outboxes.new.items }
    ensures err { OnErr result (outboxes.new.items ≡ outboxes.old.items) }
{
    let at = rbc_maps::index_near(outboxes, engine, near.get());
    near.set(at.saturating_add(1));
    if at < outboxes.len() && outboxes[at].0 == engine {
        outboxes[at].1.add(mail)?;
    } else {
        let mut outbox = Outbox::new(alloc);
        outbox.add(mail)?;
        outboxes.insert(at, (engine, outbox))?;
    }
    Ok(())
}

/// Takes the last message out of an engine's outbox, and removes the outbox if it has no other.
fn take_back(outboxes: &mut Vec<(u32, Outbox)>, engine: u32)
    requires { AreOutboxes outboxes.old.items }
    ensures taken { outboxes.new.items ≡ taken_back engine outboxes.old.items }
    ensures outboxes { AreOutboxes outboxes.new.items }
{
    if mails_of(outboxes, engine).len() > 1 {
        let at = rbc_maps::index_for(outboxes, engine);
        outboxes[at].1.drop_last();
    } else {
        let _ = rbc_maps::remove(outboxes, engine);
    }
}

/// Takes back the first messages of an input, the last of them first. Only their engines are read, so the messages may
/// have been moved out.
pub(crate) fn take_back_all(outboxes: &mut Vec<(u32, Outbox)>, messages: &[Sent], count: usize)
    requires outboxes { AreOutboxes outboxes.old.items }
    requires within { count ≤ length messages.now }
    ensures back { AreTakenBack messages.now count outboxes.old.items outboxes.new.items }
    ensures outboxes { AreOutboxes outboxes.new.items }
{
    for done in 0..count {
        take_back(outboxes, messages[count - 1 - done].engine);
    }
}

/// The message that is left in place of one that was moved out. It is never sent.
fn moved_out() -> ToTrain {
    ToTrain::Stop {
        head: Head {
            stamp: 0,
            ack: false,
            lrbg: 0,
        },
        id: 0,
    }
}

/// Moves a message into its engine's outbox. An error leaves the outboxes unchanged.
fn post_moved(
    alloc: Global,
    outboxes: &mut Vec<(u32, Outbox)>,
    input: u32,
    sent: &mut Sent,
    near: &Cell<usize>,
) -> Result<(), AllocError>
    requires outboxes { AreOutboxes outboxes.old.items }
    requires fit { Fits sent.old.message }
    ensures posted { OnOk result (outboxes.new.items ≡ post_one input outboxes.old.items sent.old) }
    ensures outboxes { AreOutboxes outboxes.new.items }
    ensures err { OnErr result (outboxes.new.items ≡ outboxes.old.items) }
    ensures engine { sent.new.engine ≡ sent.old.engine }
{
    let message = mem::replace(&mut sent.message, moved_out());
    post(alloc, outboxes, sent.engine, Mail { input, message }, near)
}

/// Moves the messages of an input into the outboxes of their engines, one after another; the messages left in their
/// place keep their engines. An error leaves the outboxes unchanged.
pub(crate) fn post_all(
    alloc: Global,
    outboxes: &mut Vec<(u32, Outbox)>,
    input: u32,
    messages: &mut [Sent],
) -> Result<(), AllocError>
    requires outboxes { AreOutboxes outboxes.old.items }
    requires fit { gathered.AreSendable messages.old }
    ensures posted { OnOk result (outboxes.new.items ≡ post_each input outboxes.old.items messages.old) }
    ensures outboxes { AreOutboxes outboxes.new.items }
    ensures engines { AreToTheEnginesOf messages.old messages.new }
    ensures err { OnErr result (outboxes.new.items ≡ outboxes.old.items) }
{
    let near = Cell::new(0);
    for index in 0..messages.len() {
        if post_moved(alloc, outboxes, input, &mut messages[index], &near).is_err() {
            take_back_all(outboxes, messages, index);
            return Err(AllocError);
        }
    }
    Ok(())
}
