//! A run under way.

ghost use Rattle.std.specs.Prelude.{◌≡◌, ◌⊎◌, ℕ, false, [], length, IfOk, IfErr, OnOk, option_copied};
ghost use Rattle.rbc_track.specs.Plan.{IsPlan};
ghost use Rattle.rbc_rule.specs.Gathered.{AreSendable};
ghost use Rattle.rbc_rule.specs.Inputs.{Fits};
ghost use Rattle.rbc_text.specs.BatchText.{line_of, IsInput};
ghost use Rattle.rbc_live.specs.History.{IsFed, IsStepOf};
ghost use Rattle.rbc_account.specs.Blocks.{IsRightBlock};
ghost use Rattle.rbc_account.specs.Coming.{sender_in};
ghost use Rattle.rbc_account.specs.Found.{has_unknown};
ghost use Rattle.rbc_account.specs.SentInputs.{stop_key, limit_key, input_at, inputs_after, input_of_stamp};
ghost use Rattle.rbc_account.specs.Standings.{IsStanding};
ghost use Rattle.rbc_account.specs.Sums.{no_sums, counted, input_count};
ghost use Rattle.rbc_account.specs.ToldPlaces.{kept_at, kept_after, number_of, of_stamp};
ghost use Rattle.rbc_live.specs.Known.{train_in, active_stops, active_limits, last_stop, last_limit, engines_in};

use crate::block::{Block, block_of};
use crate::record_lookup::engine_of;
use crate::sent_input::SentInputs;
use crate::state::{Standing, standing_on};
use crate::told_place::{ToldPlace, ToldPlaces};
use rbc_live::{Answer, LiveDesk, LiveFault};
use rbc_rule::{Input, Reply};
use rbc_settle::TrainRec;
use rbc_text::parse_line;
use rbc_track::Track;
use rbc_zones::{Area, Limit};
use std::alloc::{AllocError, Global};

/// How many inputs were taken, and how many messages they sent. A sum that reaches 2^64 - 1 stays there; in a batch
/// none does.
#[derive(Clone, Copy)]
pub struct Sums {
    /// The inputs that were accepted.
    pub accepted: u64,
    /// The inputs that were refused.
    pub refused: u64,
    /// The messages that were sent, to all trains together.
    pub messages: u64,
}

impl Sums {
    /// The sums after one more input with this reply.
    fn with(self, reply: Reply) -> Sums
        ensures { result ≡ counted reply self }
    {
        match reply {
            Reply::Done(sent) => Sums {
                accepted: self.accepted.saturating_add(1),
                refused: self.refused,
                messages: self.messages.saturating_add(u64::from(sent)),
            },
            Reply::Refused(_) => Sums {
                accepted: self.accepted,
                refused: self.refused.saturating_add(1),
                messages: self.messages,
            },
        }
    }
}

/// A run under way, from the empty state. It takes lines one after another: `step` tells what came of a line, `pass`
/// does not.
#[derive(Drop)]
pub struct Account {
    pub desk: LiveDesk,
    pub sums: Sums,
    /// The places before which trains were told to stop.
    pub told_places: ToldPlaces,
    /// The inputs that sent the messages for which identifiers are held.
    pub sent_inputs: SentInputs,
}

/// Says in its contract what holds of every track, because what a message tells depends on it.
fn is_plan(track: &Track)
    ensures { IsPlan track.now }
{
    let _ = track.horizon();
}

impl Account {
    /// Begins a run on a track.
    pub fn new(alloc: Global, track: Track) -> Account
        ensures track { result.desk.track ≡ track }
        ensures empty { result.desk.records ≡ [] }
        ensures sums { result.sums ≡ no_sums }
        ensures untold { result.told_places ≡ [] }
        ensures unsent { result.sent_inputs ≡ [] }
    {
        Account {
            desk: LiveDesk::on(alloc, track),
            sums: Sums {
                accepted: 0,
                refused: 0,
                messages: 0,
            },
            told_places: ToldPlaces::new(alloc),
            sent_inputs: SentInputs::new(alloc),
        }
    }

    /// Takes an input, and returns only the answer of the desk. After an error the account is of no further use.
    fn take(&mut self, alloc: Global, input: &Input) -> Result<Answer, AllocError>
        requires { Fits input.now }
        ensures steps { IfOk result (λ answer. IsStepOf self.old.desk.track input.now self.old.desk.records
            self.new.desk.records answer.reply answer.messages) }
        ensures fit { IfOk result (λ answer. AreSendable answer.messages) }
        ensures sums { IfOk result (λ answer. self.new.sums ≡ counted answer.reply self.old.sums) }
        ensures told { IfOk result (λ answer. (number : ℕ) → kept_at self.new.told_places number
            ≡ kept_after self.old.desk.track (kept_at self.old.told_places) answer.messages number) }
        ensures sent { IfOk result (λ answer. (number : ℕ) → input_at self.new.sent_inputs number
            ≡ inputs_after (input_count self.new.sums) (input_at self.old.sent_inputs) answer.messages number) }
        ensures track { self.new.desk.track ≡ self.old.desk.track }
    {
        let answer = match self.desk.take(alloc, input, usize::MAX) {
            Ok(answer) => answer,
            Err(LiveFault::Memory) => return Err(AllocError),
            // No list of messages is longer than can be counted.
            Err(LiveFault::Room(_)) => unreachable!(),
        };
        self.sums = self.sums.with(answer.reply);
        self.told_places.note(&self.desk.track, &answer.messages)?;
        let number = self.inputs();
        self.sent_inputs.note(number, &answer.messages)?;
        Ok(answer)
    }

    /// Takes a line, without its line feed, and returns only the answer of the desk. After an error the account is of
    /// no further use.
    pub fn pass(&mut self, alloc: Global, line: &[u8]) -> Result<Answer, AllocError>
        ensures fed { IfOk result (λ answer. IsFed self.old.desk.track line.now self.old.desk.records
            self.new.desk.records answer.reply answer.messages) }
        ensures sums { IfOk result (λ answer. self.new.sums ≡ counted answer.reply self.old.sums) }
        ensures told { IfOk result (λ answer. (number : ℕ) → kept_at self.new.told_places number
            ≡ kept_after self.old.desk.track (kept_at self.old.told_places) answer.messages number) }
        ensures sent { IfOk result (λ answer. (number : ℕ) → input_at self.new.sent_inputs number
            ≡ inputs_after (input_count self.new.sums) (input_at self.old.sent_inputs) answer.messages number) }
        ensures track { self.new.desk.track ≡ self.old.desk.track }
    {
        let input = parse_line(alloc, line)?;
        self.take(alloc, &input)
    }

    /// Takes a line, without its line feed, and returns what came of it. After an error the account is of no further
    /// use.
    pub fn step(&mut self, alloc: Global, line: &[u8]) -> Result<Block, AllocError>
        ensures fed { IfOk result (λ block. IsFed self.old.desk.track line.now self.old.desk.records
            self.new.desk.records block.reply block.messages) }
        ensures input { IfOk result (λ block. IsInput (line_of line.now) block.input) }
        ensures fit { IfOk result (λ block. AreSendable block.messages) }
        ensures paired { IfOk result (λ block. length block.told.items ≡ length block.messages) }
        ensures sums { IfOk result (λ block. self.new.sums ≡ counted block.reply self.old.sums) }
        ensures told { IfOk result (λ block. (number : ℕ) → kept_at self.new.told_places number
            ≡ kept_after self.old.desk.track (kept_at self.old.told_places) block.messages number) }
        ensures sent { IfOk result (λ block. (number : ℕ) → input_at self.new.sent_inputs number
            ≡ inputs_after (input_count self.new.sums) (input_at self.old.sent_inputs) block.messages number) }
        ensures number { IfOk result (λ block. block.number ≡ input_count self.new.sums) }
        ensures track { self.new.desk.track ≡ self.old.desk.track }
        ensures right { IfOk result (λ block. IsRightBlock self.new.desk.track self.new.desk.records
            (sender_in self.old.desk.records block.input) block) }
        ensures known { IfOk result (λ block. has_unknown block.told.items ≡ false) }
    {
        is_plan(&self.desk.track);
        let input = parse_line(alloc, line)?;
        let before = self.sender(alloc, &input)?;
        let answer = self.take(alloc, &input)?;
        block_of(
            alloc,
            &self.desk,
            self.inputs(),
            input,
            before.as_ref(),
            answer,
        )
    }

    /// A copy of the train that sent an input, if a train did.
    fn sender(&self, alloc: Global, input: &Input) -> Result<Option<TrainRec>, AllocError>
        ensures { IfOk result (λ sender. sender ≡ sender_in self.now.desk.records input.now) }
    {
        let Input::Received(message) = input else {
            return Ok(None);
        };
        match self.train(engine_of(message)) {
            Some(train) => Ok(Some(train.copy(alloc)?)),
            None => Ok(None),
        }
    }

    /// How many inputs were taken.
    pub fn inputs(&self) -> u64
        ensures { result ≡ input_count self.now.sums }
    {
        self.sums.accepted.saturating_add(self.sums.refused)
    }

    /// The track.
    pub fn track(&self) -> &Track
        ensures { result.now ≡ self.now.desk.track }
    {
        &self.desk.track
    }

    /// The engines of the enrolled trains, ascending.
    pub fn engines(&self) -> &[u32]
        ensures { result.now ≡ engines_in self.now.desk.records }
    {
        rbc_live::engines_in(&self.desk.records)
    }

    /// The train with this engine number, if it is enrolled.
    pub fn train(&self, engine: u32) -> Option<&TrainRec>
        ensures { option_copied result ≡ train_in self.now.desk.records engine }
    {
        rbc_live::train_in(&self.desk.records, engine)
    }

    /// The active stops with their numbers, ascending.
    pub fn stops(&self) -> &[(u32, Area)]
        ensures { result.now ≡ active_stops self.now.desk.records }
    {
        rbc_live::active_stops(&self.desk.records)
    }

    /// The active restrictions with their numbers, ascending.
    pub fn limits(&self) -> &[(u32, Limit)]
        ensures { result.now ≡ active_limits self.now.desk.records }
    {
        rbc_live::active_limits(&self.desk.records)
    }

    /// The last number that was given to a stop, or 0 if none was.
    pub fn last_stop(&self) -> u32
        ensures { result ≡ last_stop self.now.desk.records }
    {
        rbc_live::last_stop(&self.desk.records)
    }

    /// The last number that was given to a restriction, or 0 if none was.
    pub fn last_limit(&self) -> u32
        ensures { result ≡ last_limit self.now.desk.records }
    {
        rbc_live::last_limit(&self.desk.records)
    }

    /// The place before which a train was told to stop under a stop identifier, by the message 15 with this stamp.
    /// `None` if the last message 15 under the identifier had another stamp.
    pub fn told_place(&self, engine: u32, id: u8, stamp: u32) -> Option<ToldPlace>
        ensures { result ≡ of_stamp stamp (kept_at self.now.told_places (number_of engine id)) }
    {
        self.told_places.get(engine, id, stamp)
    }

    /// The number of the input that sent a train the message with this stamp, if it is the last one under a stop
    /// identifier.
    pub fn input_of_stop(&self, engine: u32, id: u8, stamp: u32) -> Option<u64>
        ensures { result ≡ input_of_stamp stamp (input_at self.now.sent_inputs (stop_key engine id)) }
    {
        self.sent_inputs.of_stop(engine, id, stamp)
    }

    /// The number of the input that sent a train the message with this stamp, if it is the last one under a restriction
    /// identifier.
    pub fn input_of_limit(&self, engine: u32, id: u8, stamp: u32) -> Option<u64>
        ensures { result ≡ input_of_stamp stamp (input_at self.now.sent_inputs (limit_key engine id)) }
    {
        self.sent_inputs.of_limit(engine, id, stamp)
    }

    /// The state now.
    pub fn standing(&self, alloc: Global) -> Result<Standing, AllocError>
        ensures { IfOk result (IsStanding self.now.desk.track.horizon self.now.desk.records) }
    {
        standing_on(alloc, &self.desk)
    }
}
