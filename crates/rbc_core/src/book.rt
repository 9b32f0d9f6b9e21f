//! The book of a run: its inputs are taken and attempted in any order, and committed in input order.
//!
//! The definitions speak of what stands under each key, whatever the order in the store (`standing` of rbc_desk). A
//! book is generic over the name of its run and its log, so all that it is handed is of that run and log.

ghost use Rattle.std.specs.Prelude.{◌≡◌, ◌+◌, ◌<◌, ◌≤◌, ◌↔◌, ◌-◌, ℕ, IsTrue, Some, None, length, replicate, set};
ghost use Rattle.std.specs.Prelude.{slice_get, is_ok, IfOk, IfErr, IfSome, OnOk, OnErr};
ghost use Rattle.std.specs.Prelude.{List};
ghost use Rattle.rbc_records.specs.declared.record.Key.{Key};
ghost use Rattle.rbc_records.specs.Notes.{record_in};
ghost use Rattle.rbc_versions.specs.Log.{Shown};
ghost use Rattle.rbc_versions.specs.Entries.{AreKeyedOf, AreOfWrites, StandIn, numbered, ticket_in, tickets_after};
ghost use Rattle.rbc_rule.specs.Gathered.{AreSendable};
ghost use Rattle.rbc_rule.specs.Inputs.{Fits};
ghost use Rattle.rbc_desk.specs.Held.{IsMemoryOf, IsOutcomeOf, standing, after_outcome};
ghost use Rattle.rbc_core.specs.declared.stage.Stage.TheVariants.{Free, Tried, Void};
ghost use Rattle.rbc_core.specs.Runs.{IsGoodRun, IsSerialRun, IsSaidSince};
ghost use Rattle.rbc_core.specs.Core.{Try, opening};
ghost use Rattle.rbc_core.specs.Books.{IsBook, ArePresent, state_of, number_now, IsOutIn, IsJudged, Judges};
ghost use Rattle.rbc_core.specs.Books.{IsOutcomeAt, IsCarriedOut};
ghost use Rattle.rbc_core.specs.Searches.{AreBound, IsLatestIn, NoneWritesIn, number_put};
ghost use Rattle.rbc_core.specs.Forwards.{IsLatest};
ghost use Rattle.rbc_core.specs.Events.{Happens, Commits};
ghost use Rattle.rbc_core.specs.Events.Event.{Takes, Reads, Deposits, Voids};

use crate::attempt::Attempt;
use crate::bounds::Bounds;
use crate::leavings::{Leaving, Leavings};
use crate::run_name::RunName;
use crate::stage::Stage;
use rbc_desk::{Desk, MAX_RESULTS};
use rbc_records::{Key, PlainStore, Writes};
use rbc_rule::{Input, Outcome, RuleFault};
use rbc_track::Track;
use rbc_versions::{Present, Published, VersionLog, publish_all};
use std::alloc::{AllocError, Global};
use std::marker::Model;
use std::mem;
use std::sync::Wait;

/// How many inputs were taken, and how many were recomputed while they were committed.
#[derive(Clone, Copy, Debug, PartialEq, Eq)]
pub struct Stats {
    pub taken: u32,
    pub recomputed: u32,
}

/// What a call of `commit` did.
#[derive(Clone, Copy, Debug, PartialEq, Eq)]
pub enum Commit {
    /// The outcome of the attempt was taken over: every number that was read for it is still the present one.
    Applied,
    /// The input was computed here: it was given up, or a number that was read for it is no longer the present one.
    Recomputed,
    /// The input is neither attempted nor given up. Nothing changed.
    NotReady,
    /// Every input is committed. Nothing changed.
    Done,
    /// Memory was refused now or earlier. No record, result or outbox changed, and no more inputs are taken.
    Failed,
}

/// A desk, for each of its records the ticket under which it is published in the log of the run, and how far each input
/// is. The desk is always that of the rules applied to the inputs that are committed, one after another. Inputs are
/// numbered from 1.
#[derive(Drop)]
pub struct Book<'a, N: RunName> {
    log: &'a VersionLog,
    inputs: &'a [Input],
    desk: Desk,
    present: Present,
    stages: Vec<Stage<Attempt<N>>>,
    bounds: Bounds,
    committed: u32,
    taken: u32,
    recomputed: u32,
    is_closed: bool,
    weight: usize,
    leavings: Leavings,
}

impl<'a, N: RunName> Model for Book<'a, N> {
    ghost use Rattle.std.specs.Prelude.{◌≡◌};
    ghost use Rattle.rbc_core.specs.Books as books;
    ghost use Rattle.rbc_core.specs.Searches as searches;

    ghost Value = { books.BookValue };

    ghost view = { λ b. record {
      desk = b.desk;
      present = b.present.tickets;
      stages = b.stages.items;
      committed = b.committed;
      taken = b.taken;
      recomputed = b.recomputed;
      closed = b.is_closed;
    } };

    // The inputs and the log are those of the run, what is held is the serial run of the inputs that are committed, and
    // no attempt writes a key above the key's bound.
    ghost invariant = { λ b. (b.log.now ≡ N.log) × (b.inputs.now ≡ N.run.inputs)
        × books.IsBook N.run N.log (record {
          desk = b.desk;
          present = b.present.tickets;
          stages = b.stages.items;
          committed = b.committed;
          taken = b.taken;
          recomputed = b.recomputed;
          closed = b.is_closed;
        }) × searches.AreBound b.bounds b.stages.items };
}

impl<'a, N: RunName> Book<'a, N> {
    /// Opens a book on a desk and inputs: publishes copies of the desk's records in the log, and makes the room that
    /// `take`, `deposit` and `void` need.
    ///
    /// # Errors
    ///
    /// Fails only for lack of memory, and then hands the desk back. It may then leave versions in the log that nothing
    /// names.
    pub fn new(
        rt: &impl Wait,
        alloc: Global,
        desk: Desk,
        inputs: &'a [Input],
        log: &'a VersionLog,
    ) -> Result<Self, Desk>
        requires desk { desk ≡ N.run.opening }
        requires inputs { inputs.now ≡ N.run.inputs }
        requires log { log.now ≡ N.log }
        requires good { IsGoodRun N.run }
        ensures ok { IfOk result (λ book. state_of book ≡ opening N.run (number_now book.present)) }
        ensures book { IfOk result (IsBook N.run N.log) }
        ensures err { IfErr result (λ back. back ≡ desk) }
    {
        let Ok(stages) = all_free(alloc, inputs.len()) else {
            return Err(desk);
        };
        let Ok(bounds) = Bounds::new(alloc) else {
            return Err(desk);
        };
        let Ok(present) = Present::of_store(rt, alloc, log, desk.store()) else {
            return Err(desk);
        };
        Ok(Book {
            log,
            inputs,
            desk,
            present,
            stages,
            bounds,
            committed: 0,
            taken: 0,
            recomputed: 0,
            is_closed: false,
            weight: 0,
            leavings: Leavings::new(alloc),
        })
    }

    /// Takes the next input that was not taken yet, and returns its number; `None` if all are taken, or if the book
    /// takes no more inputs.
    pub fn take(&mut self) -> Option<u32>
        ensures event { Happens N.run (state_of self.old) (Takes result) (state_of self.new) }
    {
        if self.is_closed || self.taken as usize >= self.inputs.len() {
            return None;
        }
        set_stage(&mut self.stages, self.taken as usize, Stage::Out);
        self.taken += 1;
        Some(self.taken)
    }

    /// The number of the record under a key as an input is to see it, or 0 if there is none. Among the attempts at
    /// earlier inputs that are deposited, not committed and write the key, the latest one gives it; if there is none,
    /// it is the number that stands there now. If the bound of the key's bucket is not above the number of committed
    /// inputs, nothing is searched.
    pub fn present(&self, input: u32, key: Key) -> u64
        ensures event { Happens N.run (state_of self.now) (Reads input key result) (state_of self.now) }
        ensures latest { IsLatest (state_of self.now) input key result }
        ensures book { IsBook N.run N.log self.now }
    {
        let last = last_before(input, self.taken);
        match latest_put(&self.stages, &self.bounds, self.committed, last, key) {
            Some(number) => number,
            None => self.present.number(key),
        }
    }

    /// Keeps an attempt at an input that was taken, and is neither attempted nor given up. Any other attempt is handed
    /// back, and nothing changes.
    pub fn deposit(&mut self, attempt: Attempt<N>) -> Result<(), Attempt<N>>
        ensures event { Happens N.run (state_of self.old) (Deposits attempt (is_ok result)) (state_of self.new) }
        ensures back { IfErr result (λ back. back ≡ attempt) }
    {
        let number = attempt.number();
        if !is_out(&self.stages, number) {
            return Err(attempt);
        }
        self.weight = self.weight.saturating_add(attempt.weight());
        attempt.raise(&mut self.bounds);
        set_stage(&mut self.stages, number as usize - 1, Stage::Tried(attempt));
        Ok(())
    }

    /// Gives up an input that was taken, and is neither attempted nor given up; it is then computed when it is
    /// committed. `false` for any other number, and then nothing changes.
    pub fn void(&mut self, number: u32) -> bool
        ensures { Happens N.run (state_of self.old) (Voids number result) (state_of self.new) }
    {
        if !is_out(&self.stages, number) {
            return false;
        }
        set_stage(&mut self.stages, number as usize - 1, Stage::Void);
        true
    }

    /// Commits the next input, in input order: by its attempt if every number that was read for it is still the present
    /// one, else by computing it here and publishing what it writes. Only numbers are compared to take over an attempt.
    /// `track` must be the track of the run.
    pub fn commit(&mut self, rt: &impl Wait, alloc: Global, track: &Track) -> Commit
        requires { track.now ≡ N.run.track }
        ensures event { Commits N.run (state_of self.old) result (state_of self.new) }
    {
        let inputs = self.inputs;
        let log = self.log;
        let front = self.committed as usize;
        if front >= inputs.len() {
            return Commit::Done;
        }
        if self.is_closed {
            return Commit::Failed;
        }
        let Some(is_fresh) = judge(&self.stages, front, log, &self.present) else {
            return Commit::NotReady;
        };
        let stage = taken_out(&mut self.stages, front);
        let turn = Turn {
            front,
            stage,
            is_fresh,
        };
        let desk = &mut self.desk;
        let present = &mut self.present;
        let left = &mut self.leavings;
        let Ok(weight) = carry_out(rt, alloc, track, inputs, log, turn, desk, present, left) else {
            self.is_closed = true;
            return Commit::Failed;
        };
        set_stage(&mut self.stages, front, Stage::Free);
        self.committed += 1;
        if is_fresh {
            return Commit::Applied;
        }
        self.recomputed += 1;
        self.weight = self.weight.saturating_add(weight);
        Commit::Recomputed
    }

    /// The records of the desk now.
    pub fn records(&self) -> &PlainStore
        ensures records { result.now ≡ self.now.desk.records }
        ensures book { IsBook N.run N.log self.now }
    {
        self.desk.store()
    }

    /// Swaps the leavings of the book for others. A commit keeps what it leaves in the leavings that the book has then.
    /// A new book has leavings with no room, so its commits free everything at once.
    pub fn exchange_leavings(&mut self, leavings: &mut Leavings)
        ensures { self.new ≡ self.old }
    {
        mem::swap(&mut self.leavings, leavings);
    }

    /// How many inputs are committed.
    pub fn committed(&self) -> u32
        ensures count { result ≡ self.now.committed }
        ensures book { IsBook N.run N.log self.now }
    {
        self.committed
    }

    /// How much was published for attempts and commits: one for each record, and one for each item of its lists. Used
    /// only to bound the memory of the log.
    pub fn weight(&self) -> usize
        ensures book { IsBook N.run N.log self.now }
    {
        self.weight
    }

    /// How many inputs were taken, and how many were recomputed.
    pub fn stats(&self) -> Stats
        ensures counts { result ≡ record { taken = self.now.taken; recomputed = self.now.recomputed } }
        ensures book { IsBook N.run N.log self.now }
    {
        Stats {
            taken: self.taken,
            recomputed: self.recomputed,
        }
    }

    /// Closes the book, and returns the desk: that of the rules applied to the inputs that are committed, one after
    /// another. Each mail that the run added says what the rules give its train.
    pub fn close(self) -> Desk
        ensures desk { result ≡ self.entry.desk }
        ensures serial { IsSerialRun N.run self.entry.committed (standing result) }
        ensures mails { IsSaidSince N.run self.entry.committed result.outboxes }
    {
        let Book {
            log: _,
            inputs: _,
            desk,
            present: _,
            stages: _,
            bounds: _,
            committed: _,
            taken: _,
            recomputed: _,
            is_closed: _,
            weight: _,
            leavings: _,
        } = self;
        desk
    }
}

/// The stages of this many inputs, none of which was taken.
fn all_free<N: RunName>(alloc: Global, count: usize) -> Result<Vec<Stage<Attempt<N>>>, AllocError>
    ensures { IfOk result (λ stages. stages.items ≡ replicate count Free) }
{
    let mut stages = Vec::with_capacity(alloc, count)?;
    for _i in 0..count {
        stages.push_reserved(Stage::Free);
    }
    Ok(stages)
}

/// Sets how far the input at an index is.
#[inline(always)]
fn set_stage<N: RunName>(
    stages: &mut Vec<Stage<Attempt<N>>>,
    index: usize,
    stage: Stage<Attempt<N>>,
)
    requires { index < length stages.old.items }
    ensures { stages.new.items ≡ set stages.old.items index stage }
{
    stages[index] = stage;
}

/// Whether the input of a number was taken, and is neither attempted nor given up.
fn is_out<N: RunName>(stages: &Vec<Stage<Attempt<N>>>, number: u32) -> bool
    ensures { IsTrue result ↔ IsOutIn stages.now.items number }
{
    number > 0 && matches!(stages.get(number as usize - 1), Some(Stage::Out))
}

/// The number of the last of the taken inputs before one, or 0 if there is none.
fn last_before(input: u32, taken: u32) -> u32
    ensures before { result ≤ input - 1 }
    ensures taken { result ≤ taken }
    ensures all { (number : ℕ) → result < number → number < input → number ≤ taken → ⊥ }
{
    let before = input.saturating_sub(1);
    if before < taken { before } else { taken }
}

/// The number that the attempt of a stage puts under a key.
fn put_by<N: RunName>(stage: &Stage<Attempt<N>>, key: Key) -> Option<u64>
    ensures { result ≡ number_put stage.now key }
{
    match stage {
        Stage::Tried(attempt) => attempt.number_for(key),
        Stage::Free | Stage::Out | Stage::Void => None,
    }
}

/// The number that the latest attempt puts under a key, among the inputs after the committed ones, up to the last one.
fn forwarded<N: RunName>(
    stages: &Vec<Stage<Attempt<N>>>,
    committed: u32,
    last: u32,
    key: Key,
) -> Option<u64>
    requires { last ≤ length stages.now.items }
    ensures some { IfSome result (λ number. IsLatestIn stages.now.items committed last key number) }
    ensures none { result ≡ None → NoneWritesIn stages.now.items committed last key }
{
    let mut at = last;
    while at > committed {
        if let Some(number) = put_by(&stages[at as usize - 1], key) {
            return Some(number);
        }
        at -= 1;
    }
    None
}

/// The number that `forwarded` finds. The search begins at the bound of the key, if that is below the last input, since
/// no attempt above the bound writes the key.
fn latest_put<N: RunName>(
    stages: &Vec<Stage<Attempt<N>>>,
    bounds: &Bounds,
    committed: u32,
    last: u32,
    key: Key,
) -> Option<u64>
    requires within { last ≤ length stages.now.items }
    requires bound { AreBound bounds.now stages.now.items }
    ensures some { IfSome result (λ number. IsLatestIn stages.now.items committed last key number) }
    ensures none { result ≡ None → NoneWritesIn stages.now.items committed last key }
{
    let highest = bounds.of(key).min(last);
    forwarded(stages, committed, highest, key)
}

/// Whether the next input is ready to be committed and, if so, whether by its attempt.
fn judge<N: RunName>(
    stages: &Vec<Stage<Attempt<N>>>,
    front: usize,
    log: &VersionLog,
    present: &Present,
) -> Option<bool>
    requires within { front < length stages.now.items }
    requires log { log.now ≡ N.log }
    requires present { StandIn log.now present.now.tickets }
    ensures { IsJudged stages.now.items front present.now.tickets result }
{
    match &stages[front] {
        Stage::Tried(attempt) => Some(attempt.is_fresh(log, present)),
        Stage::Void => Some(false),
        Stage::Free | Stage::Out => None,
    }
}

/// Takes the stage of an input out, which leaves it given up.
#[inline(always)]
fn taken_out<N: RunName>(stages: &mut Vec<Stage<Attempt<N>>>, front: usize) -> Stage<Attempt<N>>
    requires { front < length stages.old.items }
    ensures stage { slice_get stages.old.items front ≡ Some result }
    ensures void { stages.new.items ≡ set stages.old.items front Void }
{
    mem::replace(&mut stages[front], Stage::Void)
}

/// The turn of an input: its index, how far it is, and whether it has an attempt that is fresh.
#[derive(Drop)]
struct Turn<N: RunName> {
    front: usize,
    stage: Stage<Attempt<N>>,
    is_fresh: bool,
}

/// The outcome of the next input and its publication: those of its attempt if it is fresh, else as they are computed
/// here. Keeps what was read for the attempt, and the rest of the attempt if it is stale.
fn outcome_of<N: RunName>(
    rt: &impl Wait,
    alloc: Global,
    track: &Track,
    inputs: &[Input],
    log: &VersionLog,
    turn: Turn<N>,
    desk: &mut Desk,
    leaving: &mut Leaving,
) -> Result<(Outcome, Published), RuleFault>
    requires run { (track.now ≡ N.run.track) × (inputs.now ≡ N.run.inputs) × (log.now ≡ N.log) × IsGoodRun N.run }
    requires within { turn.front < length inputs.now }
    requires judged { (tickets : List (Key × Shown)) × ArePresent log.now tickets (record_in desk.old.records)
        × Judges tickets turn.stage (Some turn.is_fresh) }
    requires number { (a : Try) → turn.stage ≡ Tried a → a.number ≡ turn.front + 1 }
    ensures outcome { IfOk result (λ done. IsOutcomeAt N.run N.log turn.front turn.stage turn.is_fresh
        (record_in desk.old.records) done.0 done.1) }
    ensures fit { IfOk result (λ done. AreSendable done.0.messages) }
    ensures memory { IfErr result (λ fault. IsMemoryOf N.run.track (record_in desk.old.records) fault) }
    ensures same { standing desk.new ≡ standing desk.old }
{
    let Turn {
        front,
        stage,
        is_fresh,
    } = turn;
    if let Stage::Tried(attempt) = stage {
        let (outcome, published, notes) = attempt.into_parts();
        leaving.keep_notes(notes);
        if is_fresh {
            return Ok((outcome, published));
        }
        leaving.keep_stale(outcome, published);
    }
    computed(rt, alloc, track, &inputs[front], log, desk)
}

/// The outcome of an input as it is computed here, and its publication.
fn computed(
    rt: &impl Wait,
    alloc: Global,
    track: &Track,
    input: &Input,
    log: &VersionLog,
    desk: &mut Desk,
) -> Result<(Outcome, Published), RuleFault>
    requires { Fits input.now }
    ensures right { IfOk result (λ done. IsOutcomeOf track.now input.now (record_in desk.old.records) done.0) }
    ensures fit { IfOk result (λ done. AreSendable done.0.messages) }
    ensures here { IfOk result (λ done. AreKeyedOf log.now done.1) }
    ensures writes { IfOk result (λ done. AreOfWrites (numbered done.1) done.0.writes) }
    ensures memory { IfErr result (λ fault. IsMemoryOf track.now (record_in desk.old.records) fault) }
    ensures same { standing desk.new ≡ standing desk.old }
{
    let outcome = desk.decide(alloc, track, input)?;
    match publish_all(rt, alloc, log, &outcome.writes) {
        Ok(published) => Ok((outcome, published)),
        Err(_) => Err(RuleFault::OutOfMemory),
    }
}

/// Does what the next input does, keeps what is left of it, and returns how much is published for it. Fails only for
/// lack of memory, and then changes neither the desk nor the present numbers.
fn carry_out<N: RunName>(
    rt: &impl Wait,
    alloc: Global,
    track: &Track,
    inputs: &[Input],
    log: &VersionLog,
    turn: Turn<N>,
    desk: &mut Desk,
    present: &mut Present,
    leavings: &mut Leavings,
) -> Result<usize, RuleFault>
    requires run { (track.now ≡ N.run.track) × (inputs.now ≡ N.run.inputs) × (log.now ≡ N.log) × IsGoodRun N.run }
    requires within { turn.front < length inputs.now }
    requires judged { Judges present.old.tickets turn.stage (Some turn.is_fresh) }
    requires present { ArePresent log.now present.old.tickets (record_in desk.old.records) }
    requires number { (a : Try) → turn.stage ≡ Tried a → a.number ≡ turn.front + 1 }
    requires room { length desk.old.results < MAX_RESULTS }
    ensures done { OnOk result (IsCarriedOut N.run N.log turn.front turn.stage turn.is_fresh (standing desk.old)
        (standing desk.new) present.old.tickets present.new.tickets) }
    ensures memory { IfErr result (λ fault. IsMemoryOf N.run.track (record_in desk.old.records) fault) }
    ensures err { OnErr result (standing desk.new ≡ standing desk.old) }
    ensures kept { OnErr result (present.new.tickets ≡ present.old.tickets) }
{
    let mut leaving = Leaving::nothing();
    let (outcome, published) = outcome_of(rt, alloc, track, inputs, log, turn, desk, &mut leaving)?;
    let weight = published.weight();
    let replaced = hand_over(alloc, outcome, &published, desk, present)?;
    leaving.keep_taken_over(published, replaced);
    leavings.keep(leaving);
    Ok(weight)
}

/// Takes an outcome and its publication over, and returns the records that it replaced. An error changes nothing.
fn hand_over(
    alloc: Global,
    outcome: Outcome,
    published: &Published,
    desk: &mut Desk,
    present: &mut Present,
) -> Result<Writes, AllocError>
    requires fit { AreSendable outcome.messages }
    requires room { length desk.old.results < MAX_RESULTS }
    ensures desk { OnOk result (standing desk.new ≡ after_outcome (standing desk.old) outcome) }
    ensures tickets { OnOk result ((k : Key)
        → ticket_in present.new.tickets k ≡ tickets_after published.now (ticket_in present.old.tickets) k) }
    ensures err { OnErr result (standing desk.new ≡ standing desk.old) }
    ensures kept { OnErr result (present.new.tickets ≡ present.old.tickets) }
{
    if present.reserve(published.len()).is_err() {
        return Err(AllocError);
    }
    let replaced = desk.take_over(alloc, outcome)?;
    present.take_over(published);
    Ok(replaced)
}
