//! The answers of several inputs, together: their messages and their results.

ghost use Rattle.std.specs.Prelude.{◌≡◌, ◌+◌, ◌^◌, ◌≤◌, ◌++◌, length, map, vec_len, vec_capacity, OnOk, OnErr};
ghost use Rattle.std.specs.List.{All};
ghost use Rattle.rbc_rule.specs.Gathered.{AreSendable};
ghost use Rattle.rbc_desk.specs.Held.{AreOutboxes, AreTakenBack, post_each};
ghost use Rattle.rbc_desk.specs.Answers.{AreLeftOf, AreUnanswered, left_of, post_answers, result_of};

use crate::answer::Answer;
use crate::outbox::{self, Outbox};
use rbc_rule::Reply;
use std::alloc::{AllocError, Global};

/// Moves the messages of an answer into the outboxes of their engines; the messages left in their place keep their
/// engines. An error leaves the outboxes unchanged.
fn post_answer(
    alloc: Global,
    outboxes: &mut Vec<(u32, Outbox)>,
    input: u32,
    answer: &mut Answer,
) -> Result<(), AllocError>
    requires outboxes { AreOutboxes outboxes.old.items }
    requires fit { AreSendable answer.old.messages.items }
    ensures posted { OnOk result (outboxes.new.items
        ≡ post_each input outboxes.old.items answer.old.messages.items) }
    ensures outboxes { AreOutboxes outboxes.new.items }
    ensures left { left_of answer.new ≡ left_of answer.old }
    ensures err { OnErr result (outboxes.new.items ≡ outboxes.old.items) }
{
    outbox::post_all(alloc, outboxes, input, &mut answer.messages)
}

/// Takes back the messages of an answer. Only their engines are read, so the messages may have been moved out.
fn take_back_answer(outboxes: &mut Vec<(u32, Outbox)>, answer: &Answer)
    requires outboxes { AreOutboxes outboxes.old.items }
    ensures back { AreTakenBack answer.now.messages.items (length answer.now.messages.items)
        outboxes.old.items outboxes.new.items }
    ensures outboxes { AreOutboxes outboxes.new.items }
{
    let messages = answer.messages.as_slice();
    outbox::take_back_all(outboxes, messages, messages.len());
}

/// Takes back the messages of the first answers, beginning with the last of them.
pub(crate) fn take_back_answers(outboxes: &mut Vec<(u32, Outbox)>, answers: &[Answer], count: usize)
    requires outboxes { AreOutboxes outboxes.old.items }
    requires within { count ≤ length answers.now }
    ensures back { AreUnanswered answers.now count outboxes.old.items outboxes.new.items }
{
    for done in 0..count {
        take_back_answer(outboxes, &answers[count - 1 - done]);
    }
}

/// Moves the messages of each answer into the outboxes of their engines, those of the first under the number `first`;
/// the results stay, and the message left in its place keeps its engine. An error leaves the outboxes unchanged.
pub(crate) fn post_answers(
    alloc: Global,
    outboxes: &mut Vec<(u32, Outbox)>,
    first: u32,
    answers: &mut [Answer],
) -> Result<(), AllocError>
    requires outboxes { AreOutboxes outboxes.old.items }
    requires fit { All (λ answer. AreSendable answer.messages.items) answers.old }
    requires numbers { first + length answers.old ≤ 2 ^ 32 }
    ensures posted { OnOk result (outboxes.new.items ≡ post_answers first outboxes.old.items answers.old) }
    ensures outboxes { AreOutboxes outboxes.new.items }
    ensures left { AreLeftOf answers.old answers.new }
    ensures err { OnErr result (outboxes.new.items ≡ outboxes.old.items) }
{
    for index in 0..answers.len() {
        let input = first + index as u32;
        if post_answer(alloc, outboxes, input, &mut answers[index]).is_err() {
            take_back_answers(outboxes, answers, index);
            return Err(AllocError);
        }
    }
    Ok(())
}

/// Adds the result of each answer at the end. There has to be room for them.
pub(crate) fn push_results(results: &mut Vec<Reply>, answers: &[Answer])
    requires room { vec_len results.old + length answers.now ≤ vec_capacity results.old }
    ensures { results.new.items ≡ results.old.items ++ map result_of answers.now }
{
    for index in 0..answers.len() {
        results.push_reserved(answers[index].result);
    }
}
