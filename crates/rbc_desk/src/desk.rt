//! The desk: everything that is known, every answer given, and every message sent.

ghost use Rattle.std.specs.Prelude.{◌≡◌, ◌+◌, ◌<◌, ◌≤◌, [], length, IfOk, IfErr, OnOk, OnErr, Some, slice_get};
ghost use Rattle.std.specs.Prelude.{IsTrue, IsFalse};
ghost use Rattle.rbc_rule.specs.declared.input.Input.TheVariants.{Received};
ghost use Rattle.std.specs.List.{All};
ghost use Rattle.rbc_track.specs.Plan.{Plan, IsPlan};
ghost use Rattle.rbc_maps.specs.Maps.{value_or};
ghost use Rattle.rbc_records.specs.Notes.{record_in};
ghost use Rattle.rbc_records.specs.Writes.{replaced};
ghost use Rattle.rbc_rule.specs.Inputs.{Fits};
ghost use Rattle.rbc_rule.specs.Gathered.{AreSendable};
ghost use Rattle.rbc_desk.specs.Serial as serial;
ghost use Rattle.rbc_desk.specs.Held.{Holds, IsInOrder, IsTakenIn, standing, IsOutcomeOf, IsMemoryOf, after_outcome};
ghost use Rattle.rbc_desk.specs.Answers.{after_answers};
ghost use Rattle.rbc_desk.specs.Sendable as mails;

use crate::answer::Answer;
use crate::answers::{post_answers, push_results, take_back_answers};
use crate::outbox::{self, Mail, Outbox};
use ertms_codec::FromTrain;
use rbc_records::{PlainStore, Writes, exchange};
use rbc_rule::{Input, Outcome, Reply, RuleFault, decide, hear_in_place};
use rbc_track::Track;
use std::alloc::{AllocError, Global};
use std::marker::Model;

/// The greatest number of results of a desk.
pub const MAX_RESULTS: usize = 4_000_000_000;

/// The outcome of all inputs so far: the records, at most `MAX_RESULTS` results, and the outboxes.
#[derive(Drop)]
pub struct Desk {
    records: PlainStore,
    results: Vec<Reply>,
    /// By engine number, ascending.
    outboxes: Vec<(u32, Outbox)>,
}

impl Model for Desk {
    ghost use Rattle.rbc_desk.specs.Held as held;

    ghost Value = { held.Held };

    ghost view = { λ d. record { records = d.records; results = d.results.items; outboxes = d.outboxes.items } };

    // The outboxes are in order, and the results not too many.
    ghost invariant = { λ d. held.IsInOrder
        (record { records = d.records; results = d.results.items; outboxes = d.outboxes.items }) };
}

impl Desk {
    /// Makes a desk with no records, results or outboxes.
    pub fn new(alloc: Global) -> Self
        ensures new { (track : Plan) → Holds track (standing result) serial.new_desk }
        ensures in_order { IsInOrder result }
    {
        Desk {
            records: PlainStore::new(alloc),
            results: Vec::new(alloc),
            outboxes: Vec::new(alloc),
        }
    }

    /// The records.
    pub fn store(&self) -> &PlainStore
        ensures records { result.now ≡ self.now.records }
        ensures in_order { IsInOrder self.now }
    {
        &self.records
    }

    /// The answers, in the order of the inputs.
    pub fn results(&self) -> &[Reply]
        ensures results { result.now ≡ self.now.results }
        ensures in_order { IsInOrder self.now }
    {
        self.results.as_slice()
    }

    /// The number of outboxes. An engine has one from its first message on.
    pub fn outboxes(&self) -> usize
        ensures count { result ≡ length self.now.outboxes }
        ensures in_order { IsInOrder self.now }
    {
        self.outboxes.len()
    }

    /// The engine (NID_ENGINE) and the messages of the outbox at an index below `outboxes`, in ascending order of the
    /// engine. None is empty. Each message is what its bytes encode.
    pub fn outbox_at(&self, index: usize) -> (u32, &[Mail])
        requires { index < length self.now.outboxes }
        ensures outbox { slice_get self.now.outboxes index ≡ Some (result.0, result.1.now) }
        ensures sendable { mails.AreSendable result.1.now }
    {
        let (engine, outbox) = &self.outboxes[index];
        (*engine, outbox.mails())
    }

    /// The messages that were sent to an engine (NID_ENGINE), in order; none if it has no outbox. Each is what its
    /// bytes encode.
    pub fn outbox(&self, engine: u32) -> &[Mail]
        ensures mails { result.now ≡ value_or [] self.now.outboxes engine }
        ensures sendable { mails.AreSendable result.now }
    {
        outbox::mails_of(&self.outboxes, engine)
    }

    /// Decides an input by the records, and changes nothing. If the desk holds a valid state, this fails only for lack
    /// of memory.
    #[inline(always)]
    pub fn decide(
        &mut self,
        alloc: Global,
        track: &Track,
        input: &Input,
    ) -> Result<Outcome, RuleFault>
        requires fits { Fits input.now }
        ensures right { IfOk result (λ outcome. IsOutcomeOf track.now input.now (record_in self.old.records) outcome) }
        ensures fit { IfOk result (λ outcome. AreSendable outcome.messages) }
        ensures memory { IfErr result (λ fault. IsMemoryOf track.now (record_in self.old.records) fault) }
        ensures same { standing self.new ≡ standing self.old }
        ensures in_order { IsInOrder self.old }
    {
        decide(alloc, track, input, &mut self.records)
    }

    /// Takes an input in: decides it by the records, and takes its messages, its result and its writes over. There has
    /// to be room for one more result. If the desk was reached by the rules, it is then the desk that the rules give
    /// after this input.
    ///
    /// # Errors
    ///
    /// If the desk was reached by the rules, this fails only for lack of memory. An error changes nothing, and the same
    /// input can be taken in again.
    pub fn take_in(&mut self, alloc: Global, track: &Track, input: &Input) -> Result<(), RuleFault>
        requires fits { Fits input.now }
        requires room { length self.old.results < MAX_RESULTS }
        ensures taken { OnOk result (IsTakenIn track.now input.now (standing self.old) (standing self.new)) }
        ensures memory { IfErr result (λ fault. IsMemoryOf track.now (record_in self.old.records) fault) }
        ensures err { OnErr result (standing self.new ≡ standing self.old) }
    {
        keeps(track);
        if let Input::Received(message) = input
            && self.take_in_place(alloc, track, message)?
        {
            return Ok(());
        }
        let outcome = self.decide(alloc, track, input)?;
        self.take_over_alone(alloc, outcome)?;
        Ok(())
    }

    /// Takes a message in without an outcome, if it changes the record of its train alone, or nothing
    /// ([`hear_in_place`]). There has to be room for one more result. Returns whether it did. If not, and after an
    /// error, the desk is as before.
    fn take_in_place(
        &mut self,
        alloc: Global,
        track: &Track,
        message: &FromTrain,
    ) -> Result<bool, AllocError>
        requires track { IsPlan track.now }
        requires room { length self.old.results < MAX_RESULTS }
        ensures taken { IfOk result (λ done. IsTrue done → IsTakenIn track.now (Received message.now)
            (standing self.old) (standing self.new)) }
        ensures same { IfOk result (λ done. IsFalse done → standing self.new ≡ standing self.old) }
        ensures err { OnErr result (standing self.new ≡ standing self.old) }
    {
        self.results.reserve(1)?;
        let Some(reply) = hear_in_place(alloc, track, message, &mut self.records)? else {
            return Ok(false);
        };
        self.results.push_reserved(reply);
        Ok(true)
    }

    /// Takes an outcome over, and keeps the replaced records, so that the next outcome can reuse their memory. An error
    /// changes nothing.
    #[inline(always)]
    fn take_over_alone(&mut self, alloc: Global, outcome: Outcome) -> Result<(), AllocError>
        requires fit { AreSendable outcome.messages }
        requires room { length self.old.results < MAX_RESULTS }
        ensures ok { OnOk result (standing self.new ≡ after_outcome (standing self.old) outcome) }
        ensures err { OnErr result (self.new ≡ self.old) }
    {
        let replaced = self.take_over(alloc, outcome)?;
        self.keep_spare(replaced);
        Ok(())
    }

    /// Keeps the records that an outcome replaced, so that the next outcome can reuse their memory.
    pub fn keep_spare(&mut self, replaced: Writes)
        ensures { self.new ≡ self.old }
    {
        self.records.keep_spare(replaced);
    }

    /// Takes an outcome over: its messages, its result and its writes. There has to be room for one more result.
    /// Returns its writes, with the records that they replaced in place of the new ones. An error changes nothing.
    #[inline(always)]
    pub fn take_over(&mut self, alloc: Global, outcome: Outcome) -> Result<Writes, AllocError>
        requires fit { AreSendable outcome.messages }
        requires room { length self.old.results < MAX_RESULTS }
        ensures ok { OnOk result (standing self.new ≡ after_outcome (standing self.old) outcome) }
        ensures old { IfOk result (λ old. old ≡ replaced outcome.writes (record_in self.old.records)) }
        ensures err { OnErr result (self.new ≡ self.old) }
    {
        self.results.reserve(1)?;
        let number = self.results.len() as u32 + 1;
        let Outcome {
            result,
            writes,
            messages,
        } = outcome;
        let mut messages = messages.into_vec();
        outbox::post_all(alloc, &mut self.outboxes, number, &mut messages)?;
        let Ok(old) = exchange(&mut self.records, writes) else {
            outbox::take_back_all(&mut self.outboxes, &messages, messages.len());
            return Err(AllocError);
        };
        self.results.push_reserved(result);
        Ok(old)
    }

    /// Takes over what several inputs do, one after another: their results and messages, and in one step the records
    /// after the last of them. There has to be room for the results. Returns the writes, with the records that they
    /// replaced in place of the new ones. An error changes nothing.
    pub fn take_over_all(
        &mut self,
        alloc: Global,
        answers: Vec<Answer>,
        writes: Writes,
    ) -> Result<Writes, AllocError>
        requires fit { All (λ answer. AreSendable answer.messages.items) answers.items }
        requires room { length self.old.results + length answers.items ≤ MAX_RESULTS }
        ensures ok { OnOk result (standing self.new ≡ after_answers (standing self.old) answers.items writes) }
        ensures old { IfOk result (λ old. old ≡ replaced writes (record_in self.old.records)) }
        ensures err { OnErr result (self.new ≡ self.old) }
    {
        self.results.reserve(answers.len())?;
        let first = self.results.len() as u32 + 1;
        let mut answers = answers;
        post_answers(alloc, &mut self.outboxes, first, &mut answers)?;
        let Ok(replaced) = exchange(&mut self.records, writes) else {
            take_back_answers(&mut self.outboxes, &answers, answers.len());
            return Err(AllocError);
        };
        push_results(&mut self.results, &answers);
        Ok(replaced)
    }
}

/// Says in its contract what every track satisfies, because a step keeps the records in order only on such a track.
fn keeps(track: &Track)
    ensures { IsPlan track.now }
{
    let _ = track.horizon();
}
