//! The live desk.

ghost use Rattle.std.specs.Prelude.{◌≡◌, ◌≤◌, ◌⊎◌, [], length, IfOk, OnErr, IfErr};
ghost use Rattle.rbc_track.specs.Plan.{IsPlan};
ghost use Rattle.rbc_track.specs.Reading.{IsTrackOf, RefusesTrack};
ghost use Rattle.rbc_rule.specs.Gathered.{AreSendable};
ghost use Rattle.rbc_rule.specs.Inputs.{Fits};
ghost use Rattle.rbc_live.specs.Serial.{IsSerial};
ghost use Rattle.rbc_live.specs.History.{IsFed, IsStepOf, AreSame, IsFaultAt, IsFaultOf};
ghost use Rattle.rbc_live.specs.Watching.{StayBut};

use rbc_records::{PlainStore, Writes, exchange};
use rbc_rule::{Input, Reply, RuleFault, SentList};
use rbc_text::{decide, parse_line, step_law};
use rbc_track::{Track, TrackError, track_from_toml};
use std::alloc::{AllocError, Global};

/// A track, and the records of all that is known: those after the inputs that were taken, one after another, from the
/// empty state. Neither answers nor messages are kept, so the memory of a desk is bounded by its trains, stops and
/// restrictions, however long it lives.
#[derive(Drop)]
pub struct LiveDesk {
    pub track: Track,
    pub records: PlainStore,
    pub ghost serial: { ∥ IsSerial track records ∥₁ },
}

/// Why a line was not taken. The records are then unchanged, and the line may be fed again.
#[derive(Clone, Copy, Debug, PartialEq, Eq)]
pub enum LiveFault {
    /// Memory was refused.
    Memory,
    /// The line sends this many messages, more than the caller allows.
    Room(usize),
}

impl From<AllocError> for LiveFault {
    ghost use Rattle.std.specs.Prelude.{◌≡◌};
    ghost use Rattle.rbc_live.specs.declared.desk.LiveFault.TheVariants.{Memory};

    ghost from_gives = { λ _ fault. fault ≡ Memory };

    fn from(_: AllocError) -> LiveFault {
        LiveFault::Memory
    }
}

/// What a line led to: the answer to it, and the messages that it sent, in the order in which they are sent.
#[derive(Drop)]
pub struct Answer {
    pub reply: Reply,
    pub messages: SentList,
}

/// Says in its contract what holds of every track, because a step depends on it.
fn is_plan(track: &Track)
    ensures { IsPlan track.now }
{
    let _ = track.horizon();
}

impl LiveDesk {
    /// Opens a desk on the track that a text in TOML writes: no train, no stop, no restriction.
    ///
    /// # Errors
    ///
    /// Those of `track_from_toml`.
    pub fn open(alloc: Global, text: &str) -> Result<LiveDesk, TrackError>
        ensures track { IfOk result (λ desk. IsTrackOf text.now desk.track) }
        ensures empty { IfOk result (λ desk. desk.records ≡ []) }
        ensures refused { IfErr result (λ e. (e ≡ TrackError.OutOfMemory) ⊎ RefusesTrack text.now e) }
    {
        let track = track_from_toml(alloc, text)?;
        Ok(LiveDesk::on(alloc, track))
    }

    /// A desk on a track: no train, no stop, no restriction.
    pub fn on(alloc: Global, track: Track) -> LiveDesk
        ensures track { result.track ≡ track }
        ensures empty { result.records ≡ [] }
    {
        let records = PlainStore::new(alloc);
        LiveDesk { track, records }
    }

    /// Takes one line, without its line feed, which may send at most `most` messages. The answer, the messages and the
    /// records after it are those of the rule's step (own rule; see `step` of rbc_rule) for the input of the line.
    ///
    /// # Errors
    ///
    /// `Memory` if memory was refused; `Room` with the number of messages if there are more than `most`. The desk is
    /// then as it was, and the line may be fed again.
    pub fn feed(&mut self, alloc: Global, line: &[u8], most: usize) -> Result<Answer, LiveFault>
        ensures step { IfOk result (λ answer. IsFed self.old.track line.now self.old.records self.new.records
            answer.reply answer.messages) }
        ensures fit { IfOk result (λ answer. AreSendable answer.messages) }
        ensures few { IfOk result (λ answer. length answer.messages ≤ most) }
        ensures track { self.new.track ≡ self.old.track }
        ensures fault { IfErr result (λ fault. IsFaultOf self.old.track line.now self.old.records most fault) }
        ensures stays { OnErr result (AreSame self.old.records self.new.records) }
    {
        let (answer, replaced) = self.feed_replacing(alloc, line, most)?;
        self.keep_spare(replaced);
        Ok(answer)
    }

    /// Takes one line as `feed` does, and returns its writes, with the records that they replaced in place of the new
    /// ones.
    ///
    /// # Errors
    ///
    /// Those of `feed`.
    #[tactic(auto, using(crate::proofs::Counts::faults_of_line))]
    pub fn feed_replacing(
        &mut self,
        alloc: Global,
        line: &[u8],
        most: usize,
    ) -> Result<(Answer, Writes), LiveFault>
        ensures step { IfOk result (λ taken. IsFed self.old.track line.now self.old.records self.new.records
            taken.0.reply taken.0.messages) }
        ensures stay { IfOk result (λ taken. StayBut taken.1 self.old.records self.new.records) }
        ensures fit { IfOk result (λ taken. AreSendable taken.0.messages) }
        ensures few { IfOk result (λ taken. length taken.0.messages ≤ most) }
        ensures track { self.new.track ≡ self.old.track }
        ensures fault { IfErr result (λ fault. IsFaultOf self.old.track line.now self.old.records most fault) }
        ensures stays { OnErr result (AreSame self.old.records self.new.records) }
    {
        let input = parse_line(alloc, line)?;
        self.take_replacing(alloc, &input, most)
    }

    /// Takes one input, which may send at most `most` messages, as `feed` takes its line.
    ///
    /// # Errors
    ///
    /// Those of `feed`.
    pub fn take(&mut self, alloc: Global, input: &Input, most: usize) -> Result<Answer, LiveFault>
        requires { Fits input.now }
        ensures step { IfOk result (λ answer. IsStepOf self.old.track input.now self.old.records self.new.records
            answer.reply answer.messages) }
        ensures fit { IfOk result (λ answer. AreSendable answer.messages) }
        ensures few { IfOk result (λ answer. length answer.messages ≤ most) }
        ensures track { self.new.track ≡ self.old.track }
        ensures fault { IfErr result (λ fault. IsFaultAt self.old.track input.now self.old.records most fault) }
        ensures stays { OnErr result (AreSame self.old.records self.new.records) }
    {
        let (answer, replaced) = self.take_replacing(alloc, input, most)?;
        self.keep_spare(replaced);
        Ok(answer)
    }

    /// Takes one input as `take` does, and returns its writes, with the records that they replaced in place of the new
    /// ones.
    ///
    /// # Errors
    ///
    /// Those of `feed`.
    fn take_replacing(
        &mut self,
        alloc: Global,
        input: &Input,
        most: usize,
    ) -> Result<(Answer, Writes), LiveFault>
        requires { Fits input.now }
        ensures step { IfOk result (λ taken. IsStepOf self.old.track input.now self.old.records self.new.records
            taken.0.reply taken.0.messages) }
        ensures stay { IfOk result (λ taken. StayBut taken.1 self.old.records self.new.records) }
        ensures fit { IfOk result (λ taken. AreSendable taken.0.messages) }
        ensures few { IfOk result (λ taken. length taken.0.messages ≤ most) }
        ensures track { self.new.track ≡ self.old.track }
        ensures fault { IfErr result (λ fault. IsFaultAt self.old.track input.now self.old.records most fault) }
        ensures stays { OnErr result (AreSame self.old.records self.new.records) }
    {
        is_plan(&self.track);
        step_law();
        let outcome = match decide(alloc, &self.track, input, &mut self.records) {
            Ok(outcome) => outcome,
            Err(RuleFault::OutOfMemory) => return Err(LiveFault::Memory),
            // The records of a desk are those of a world, and a store of all records never fails.
            Err(RuleFault::Torn) => unreachable!(),
            Err(RuleFault::Reader) => unreachable!(),
        };
        if outcome.messages.len() > most {
            return Err(LiveFault::Room(outcome.messages.len()));
        }
        let answer = Answer {
            reply: outcome.result,
            messages: outcome.messages,
        };
        match exchange(&mut self.records, outcome.writes) {
            Ok(replaced) => Ok((answer, replaced)),
            Err(_) => Err(LiveFault::Memory),
        }
    }

    /// Keeps the records that an input replaced, so that the next input can reuse their memory.
    pub fn keep_spare(&mut self, replaced: Writes)
        ensures records { self.new.records ≡ self.old.records }
        ensures track { self.new.track ≡ self.old.track }
    {
        self.records.keep_spare(replaced);
    }
}
