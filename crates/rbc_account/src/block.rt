//! What came of one input.

ghost use Rattle.std.specs.Prelude.{◌≡◌, length, IfOk, option_copied};
ghost use Rattle.rbc_account.specs.Blocks.{IsRightBlock};
ghost use Rattle.rbc_account.specs.Coming.{come_to_wait};
ghost use Rattle.rbc_account.specs.Counting.{counts_after};
ghost use Rattle.rbc_account.specs.Found.{IsKnown};
ghost use Rattle.rbc_account.specs.Subjects.{ArePaired};

use crate::coming::come_to_wait;
use crate::counts::{Counts, counts_after};
use crate::deed::{Deed, deed_of};
use crate::told::{Told, told_by};
use rbc_live::{Answer, LiveDesk, Waiting};
use rbc_rule::{Input, Reply, SentList};
use rbc_settle::TrainRec;
use std::alloc::{AllocError, Global};

/// What came of one input.
#[derive(Drop)]
pub struct Block {
    /// The number of the input, from 1.
    pub number: u64,
    /// The input.
    pub input: Input,
    /// The answer to it.
    pub reply: Reply,
    /// The messages that it sent, engines ascending.
    pub messages: SentList,
    /// What it did, or why it was refused.
    pub deed: Deed,
    /// What each message tells, in the order of the messages.
    pub told: Vec<Told>,
    /// What a stop or a restriction that began means for the trains.
    pub counts: Option<Counts>,
    /// What began to wait, each entry with the engine of its train. Engines ascend; for one engine the stops come
    /// first, then the restrictions, then the stops that are due, each by number.
    pub waiting: Vec<(u32, Waiting)>,
}

/// What came of an input. `number` is its number, `before` is the train that sent it, as it was before the input, and
/// `desk` is the desk after the input.
pub(crate) fn block_of(
    alloc: Global,
    desk: &LiveDesk,
    number: u64,
    input: Input,
    before: Option<&TrainRec>,
    answer: Answer,
) -> Result<Block, AllocError>
    ensures number { IfOk result (λ block. block.number ≡ number) }
    ensures input { IfOk result (λ block. block.input ≡ input) }
    ensures reply { IfOk result (λ block. block.reply ≡ answer.reply) }
    ensures messages { IfOk result (λ block. block.messages ≡ answer.messages) }
    ensures paired { IfOk result (λ block. length block.told.items ≡ length block.messages) }
    ensures right { IfOk result (IsRightBlock desk.now.track desk.now.records
        (option_copied before.entry)) }
    ensures known { IfOk result (λ block. ArePaired
        (IsKnown desk.now.records input (option_copied before.entry)) block.messages block.told.items) }
{
    let reply = answer.reply;
    let messages = answer.messages;
    let deed = deed_of(alloc, desk, &input, reply, before)?;
    let told = told_by(alloc, desk, &input, before, &messages)?;
    let counts = counts_after(alloc, desk, &input, reply)?;
    let waiting = waiting_after(alloc, desk, &input, reply, before, counts)?;
    Ok(Block {
        number,
        input,
        reply,
        messages,
        deed,
        told,
        counts,
        waiting,
    })
}

/// What began to wait through an input, as `come_to_wait` gives it. If a stop or a restriction began and the counts
/// show that no train lacks it, nothing began to wait.
fn waiting_after(
    alloc: Global,
    desk: &LiveDesk,
    input: &Input,
    reply: Reply,
    before: Option<&TrainRec>,
    counts: Option<Counts>,
) -> Result<Vec<(u32, Waiting)>, AllocError>
    requires { counts ≡ counts_after desk.now.track.horizon desk.now.records input.now reply }
    ensures { IfOk result (λ come. come.items ≡ come_to_wait desk.now.track.horizon
        desk.now.records (option_copied before.entry) input.now reply) }
{
    if let Some(counts) = counts
        && counts.untold == 0
    {
        return Ok(Vec::new(alloc));
    }
    come_to_wait(alloc, desk, input, reply, before)
}
