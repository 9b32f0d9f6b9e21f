//! The messages of one share, taken in one after another by trains of the share's own.
//!
//! What a message does to a train depends on that train, the stops and the restrictions alone. So `outcome_of` is the
//! same in every world that has these, and each share can follow the records after all messages (`records_after`),
//! though it sees its own trains alone.

ghost use Rattle.std.specs.Prelude.{◌≡◌, ◌<◌, ◌++◌, ◌∷◌, [], false, OnOk, IfOk, IfSome, IfNone, option_copied};
ghost use Rattle.rbc_records.specs.declared.record.Key.TheVariants as key;
ghost use Rattle.rbc_records.specs.Notes.{record_in};
ghost use Rattle.rbc_maps.specs.Maps.{value_of};
ghost use Rattle.rbc_rule.specs.declared.input.Input.TheVariants.{Received};
ghost use Rattle.rbc_rule.specs.Effect.{engine_of};
ghost use Rattle.rbc_window.specs.Messages.{sender, train_in};
ghost use Rattle.rbc_window.specs.Kept.{share_of, has_engine};
ghost use Rattle.rbc_window.specs.Hearing.{setting};
ghost use Rattle.rbc_window.specs.Shares.{HasTaken, HasTakenIfDone, IsTakenBy, train_or, train_writes};

use crate::hearing::{Scene, hear, refused};
use crate::kept::Kept;
use crate::trains::Trains;
use ertms_codec::FromTrain;
use rbc_records::{Key, PlainStore, Rec, Writes};
use rbc_rule::{Input, NotChanged, Refusal, engine_of};
use rbc_settle::TrainRec;
use std::alloc::{AllocError, Global};
use std::collections::VecDeque;

/// The number of shares into which the trains are divided. There are more shares than workers, so that all workers have
/// about the same amount to do.
pub(crate) const SHARES: u32 = 32;

/// The share of the train of an engine.
pub fn share_of(engine: u32) -> u32
    ensures value { result ≡ share_of engine }
    ensures within { result < SHARES }
{
    engine % SHARES
}

/// A share of the trains, by its number: those of them that messages of the window have changed, what is kept of each
/// message, and whether all messages are taken in.
#[derive(Drop)]
pub struct Share {
    number: u32,
    trains: Trains,
    kept: VecDeque<Kept>,
    is_done: bool,
}

impl Share {
    /// A share that has taken nothing in.
    pub(crate) fn new(alloc: Global, number: u32) -> Self
        ensures { result.is_done ≡ false }
    {
        Share {
            number,
            trains: Trains::new(alloc),
            kept: VecDeque::new(alloc),
            is_done: false,
        }
    }

    /// Its number.
    pub(crate) fn number(&self) -> u32
        ensures { result ≡ self.now.number }
    {
        self.number
    }

    /// Whether all its messages are taken in.
    pub(crate) fn is_done(&self) -> bool
        ensures { result ≡ self.now.is_done }
    {
        self.is_done
    }

    /// Takes its messages in, as far as there is memory. The records do not change meanwhile.
    pub(crate) fn take_in(
        self,
        alloc: Global,
        scene: &Scene<'_>,
        store: &PlainStore,
        inputs: &[Input],
    ) -> Self
        ensures { HasTakenIfDone (setting scene.now) (record_in store.now) inputs.now result }
    {
        let mut trains = Trains::new(alloc);
        let mut kept = VecDeque::new(alloc);
        let done = take_in_each(
            alloc,
            scene,
            store,
            inputs,
            self.number,
            &mut trains,
            &mut kept,
        );
        Share {
            number: self.number,
            trains,
            kept,
            is_done: done.is_ok(),
        }
    }

    /// Takes out what is kept of its next message.
    pub fn next(&mut self) -> Option<Kept>
        ensures some { IfSome result (λ kept. self.old.kept.items ≡ kept ∷ self.new.kept.items) }
        ensures trains { self.new.trains ≡ self.old.trains }
    {
        self.kept.pop_front()
    }

    /// Appends writes of its trains under their keys.
    pub(crate) fn write(self, writes: &mut Writes) -> Result<(), AllocError>
        ensures { OnOk result (writes.new ≡ writes.old ++ train_writes self.trains) }
    {
        self.trains.write(writes)
    }
}

/// Takes the messages of a share in.
fn take_in_each(
    alloc: Global,
    scene: &Scene<'_>,
    store: &PlainStore,
    inputs: &[Input],
    share: u32,
    trains: &mut Trains,
    kept: &mut VecDeque<Kept>,
) -> Result<(), AllocError>
    requires no_trains { trains.old ≡ [] }
    requires none_kept { kept.old.items ≡ [] }
    ensures { OnOk result (HasTaken (setting scene.now) share (record_in store.now) inputs.now trains.new kept.new.items) }
{
    let mut spare = None;
    for input in inputs {
        if let Some(message) = message_of(input, share) {
            let one = taken(alloc, scene, store, message, trains, &mut spare)?;
            kept.push_back(one)?;
        }
    }
    Ok(())
}

/// The message that an input is, if it is one from a train of the share.
fn message_of(input: &Input, share: u32) -> Option<&FromTrain>
    ensures some { IfSome result (λ message. (input.now ≡ Received message.now) × (share_of (engine_of message.now) ≡ share)) }
    ensures none { IfNone result (has_engine share (sender input.now) ≡ false) }
{
    match input {
        Input::Received(message) if share_of(engine_of(message)) == share => Some(message),
        Input::Received(_)
        | Input::Enrol { .. }
        | Input::Withdraw { .. }
        | Input::Stop { .. }
        | Input::Release { .. }
        | Input::Restrict { .. }
        | Input::Lift { .. }
        | Input::Bad(_) => None,
    }
}

/// Takes a message in by its train, and tells what is kept of it. The record that is replaced is then spare: the next
/// one is made in its memory.
fn taken(
    alloc: Global,
    scene: &Scene<'_>,
    store: &PlainStore,
    message: &FromTrain,
    trains: &mut Trains,
    spare: &mut Option<TrainRec>,
) -> Result<Kept, AllocError>
    ensures { IfOk result (λ kept. IsTakenBy (setting scene.now) message.now
        (train_in (train_or (value_of trains.old (engine_of message.now)) (record_in store.now (key.Train (engine_of message.now)))))
        trains.old trains.new kept) }
{
    let engine = engine_of(message);
    let Some(before) = train_now(trains, store, engine) else {
        return Ok(refused(alloc, Refusal::UnknownTrain));
    };
    match hear(alloc, scene, message, before, spare.take()) {
        Ok((train, kept)) => {
            *spare = trains.put(engine, train)?;
            Ok(kept)
        }
        Err(NotChanged::Refused(refusal)) => Ok(refused(alloc, refusal)),
        Err(NotChanged::OutOfMemory) => Err(AllocError),
    }
}

/// The train of an engine as it stands now: as the share has changed it, or else as its record is.
fn train_now<'a>(trains: &'a Trains, store: &'a PlainStore, engine: u32) -> Option<&'a TrainRec>
    ensures { option_copied result ≡ train_in (train_or (value_of trains.now engine) (record_in store.now (key.Train engine))) }
{
    match trains.get(engine) {
        Some(train) => Some(train),
        None => train_of(store.get(Key::Train(engine))),
    }
}

/// The train in a record, if it is one of a train.
fn train_of(rec: Option<&Rec>) -> Option<&TrainRec>
    ensures { option_copied result ≡ train_in (option_copied rec.entry) }
{
    match rec {
        Some(Rec::Train(train)) => Some(train),
        Some(Rec::Engines(_) | Rec::Stops(_) | Rec::Limits(_)) => None,
        None => None,
    }
}
