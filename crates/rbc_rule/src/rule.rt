//! Decides one input by reading single records.
//!
//! Functions over `&mut S` fetch records, and functions over `&S` decide by what was read. A command passes through
//! commands.rt, begin_and_end.rt and touched_trains.rt. What begins touches a train that it concerns and that has a
//! free identifier; what ends touches one that is told it or stops at once for it. Other trains stay as they are
//! (proofs/Untouched.antt; Elsewhere.antt for another line; Seeking.antt: a search finds enough).

ghost use Rattle.std.specs.Prelude.{◌≡◌, ◌+◌, ◌<◌, ◌^◌, IfOk, OnOk};
ghost use Rattle.rbc_records.specs.Notes.{Extends};
ghost use Rattle.rbc_rule.specs.Inputs.{Fits};
ghost use Rattle.rbc_rule.specs.Right.{EachWriteChanges, IsRight, IsSilentIfRefused, FailsAs};
ghost use Rattle.rbc_rule.specs.Gathered.{AreSendable};

use crate::input::Input;
use crate::outcome::{Outcome, RuleFault};
use crate::restriction::Restriction;
use crate::{commands, enrol, receive, withdraw};
use rbc_records::Reader;
use rbc_track::Track;
use std::alloc::Global;

/// Decides an input on a track by the records that it reads (own rule): the answer, the records to write and the
/// messages to send. The outcome is that of a step of each valid state that has the records that were read. An input
/// that is refused writes nothing and sends nothing, whatever was read. Each write changes what stands under its key,
/// except that the train that sent a message is always written. A stop that begins reads the trains without a place and
/// those on the lines of its segments, a restriction that begins those on its line; what ends reads all trains, or
/// those that a search of the reader finds. Nothing is written to the store, and records that were read before stay as
/// they were.
///
/// # Errors
///
/// `OutOfMemory` for lack of memory; `Torn` only if no valid state has the records that were read; `Reader` only if the
/// reader failed in this call. Then nothing was decided.
pub fn decide<S: Reader>(
    alloc: Global,
    track: &Track,
    input: &Input,
    store: &mut S,
) -> Result<Outcome, RuleFault>
    requires room { S.failed store.old + 1 < 2 ^ 64 }
    requires fits { Fits input.now }
    ensures right { IfOk result (λ outcome. IsRight track.now (input.now)
        (S.notes store.new) outcome.result outcome.writes outcome.messages) }
    ensures changes { IfOk result (λ outcome. EachWriteChanges track.now (input.now)
        (S.notes store.new) outcome.writes) }
    ensures refused { IfOk result (λ outcome. IsSilentIfRefused outcome.result outcome.writes outcome.messages) }
    ensures fit { IfOk result (λ outcome. AreSendable outcome.messages) }
    ensures extends { Extends (S.notes store.old) (S.notes store.new) }
    ensures fault { FailsAs track.now (S.notes store.new) (S.failed store.old) (S.failed store.new) result }
    ensures failed { OnOk result (S.failed store.new ≡ S.failed store.old) }
{
    match input {
        Input::Enrol { engine, length } => enrol::enrol(alloc, track, *engine, *length, store),
        Input::Withdraw { engine } => withdraw::withdraw(alloc, track, *engine, store),
        Input::Stop { number, segments } => {
            commands::stop(alloc, track, *number, segments, store)
        }
        Input::Release { number } => commands::release(alloc, track, *number, store),
        Input::Restrict {
            number,
            segment,
            dirs,
            speed,
            front,
        } => {
            let new = Restriction {
                number: *number,
                segment: *segment,
                dirs: *dirs,
                speed: *speed,
                front: *front,
            };
            commands::restrict(alloc, track, &new, store)
        }
        Input::Lift { number } => commands::lift(alloc, track, *number, store),
        Input::Received(message) => receive::receive(alloc, track, message, store),
        Input::Bad(code) => Ok(Outcome::refused_with(alloc, *code)),
    }
}
