//! What the shares of a window keep, gathered in the order of the inputs.

ghost use Rattle.std.specs.Prelude.{◌≡◌, [], ◌∷◌, List, All, false, length, IfOk, IfSome, OnOk, IsTrue, Some};
ghost use Rattle.rbc_records.specs.Notes.{record_in};
ghost use Rattle.rbc_records.specs.declared.record.Key.{Key};
ghost use Rattle.rbc_rule.specs.declared.input.Input.{Input};
ghost use Rattle.rbc_rule.specs.Gathered.{AreSendable};
ghost use Rattle.rbc_rule.specs.Lists.{is_list};
ghost use Rattle.rbc_window.specs.Messages.{Records, Setting, sender, outcome_of, next_records, records_after};
ghost use Rattle.rbc_window.specs.Kept.{IsKept};
ghost use Rattle.rbc_window.specs.Moving.{list_or};
ghost use Rattle.rbc_window.specs.Gathering.{IsMessage, AreAnswers, HaveTrains, KeepRest};

use crate::kept::Kept;
use crate::lists::Lists;
use crate::share::{Share, share_of};
use crate::window::NotRun;
use rbc_desk::Answer;
use rbc_records::PlainStore;
use rbc_rule::{Input, engine_of};
use std::alloc::Global;

/// The answers to all messages, in the order of the inputs; the lists are then as they stand after all of them. Fails
/// also if an input is not a message.
pub(crate) fn answers_in_order(
    alloc: Global,
    store: &PlainStore,
    inputs: &[Input],
    all: &mut Vec<Share>,
    lists: &mut Lists,
) -> Result<Vec<Answer>, NotRun>
    requires { lists.old ≡ [] }
    ensures answers { IfOk result (λ answers. (s : Setting) → KeepRest s (record_in store.now) inputs.now all.old.items
        → AreAnswers s (record_in store.now) inputs.now answers.items) }
    ensures lists { OnOk result ((s : Setting) → KeepRest s (record_in store.now) inputs.now all.old.items
        → (k : Key) → IsTrue (is_list k)
        → list_or lists.new (record_in store.now) k ≡ records_after s (record_in store.now) inputs.now k) }
    ensures others { OnOk result ((s : Setting) → KeepRest s (record_in store.now) inputs.now all.old.items
        → (k : Key) → is_list k ≡ false → list_or lists.new (record_in store.now) k ≡ record_in store.now k) }
    ensures fit { IfOk result (λ answers. (s : Setting) → KeepRest s (record_in store.now) inputs.now all.old.items
        → All (λ answer. AreSendable answer.messages.items) answers.items) }
    ensures trains { OnOk result ((s : Setting) → HaveTrains s (record_in store.now) inputs.now all.old.items
        → HaveTrains s (record_in store.now) inputs.now all.new.items) }
    ensures count { length all.new.items ≡ length all.old.items }
    ensures messages { OnOk result (All IsMessage inputs.now) }
{
    let mut answers = Vec::new(alloc);
    for input in inputs {
        let Some(engine) = sender(input) else {
            return Err(NotRun);
        };
        let Some(kept) = next_of(all, engine) else {
            return Err(NotRun);
        };
        lists.move_train(alloc, store, engine, kept.left, kept.entered)?;
        answers.push(kept.answer)?;
    }
    Ok(answers)
}

/// The engine of the train that sent an input, if it is a message.
fn sender(input: &Input) -> Option<u32>
    ensures value { result ≡ sender input.now }
    ensures message { IfSome result (λ _. IsMessage input.now) }
{
    match input {
        Input::Received(message) => Some(engine_of(message)),
        Input::Enrol { .. }
        | Input::Withdraw { .. }
        | Input::Stop { .. }
        | Input::Release { .. }
        | Input::Restrict { .. }
        | Input::Lift { .. }
        | Input::Bad(_) => None,
    }
}

/// What is kept of the next message from the train of an engine.
fn next_of(all: &mut Vec<Share>, engine: u32) -> Option<Kept>
    ensures kept { IfSome result (λ kept. (s : Setting) (records : Records) (input : Input) (inputs : List Input)
        → sender input ≡ Some engine → KeepRest s records (input ∷ inputs) all.old.items
        → IsKept records (outcome_of s records input) engine kept
        × KeepRest s (next_records s records input) inputs all.new.items) }
    ensures trains { (s : Setting) (records : Records) (inputs : List Input)
        → HaveTrains s records inputs all.old.items → HaveTrains s records inputs all.new.items }
    ensures count { length all.new.items ≡ length all.old.items }
{
    let place = share_of(engine) as usize;
    if place >= all.len() {
        return None;
    }
    all[place].next()
}
