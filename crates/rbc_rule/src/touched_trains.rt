//! Settles the trains that a change touches.

ghost use Rattle.std.specs.Prelude.{◌≡◌, ◌+◌, ◌*◌, ◌≤◌, true, false, ◌++◌, Some, None, IsTrue, IfOk, IfErr, IfSome, OnOk};
ghost use Rattle.std.specs.Prelude.{length};
ghost use Rattle.std.specs.List.{flat_map, All};
ghost use Rattle.rbc_maps.specs.Maps.{keys};
ghost use Rattle.rbc_settle.specs.Settling.{Stops, Limits, most_messages};
ghost use Rattle.rbc_settle.specs.Numbers.{has_number};
ghost use Rattle.rbc_records.specs.declared.record.Key.TheVariants as key;
ghost use Rattle.rbc_records.specs.Notes.{knows};
ghost use Rattle.rbc_rule.specs.World.{World};
ghost use Rattle.rbc_rule.specs.Right.{MayBe};
ghost use Rattle.rbc_rule.specs.Faults.{IsFaultOf};
ghost use Rattle.rbc_rule.specs.Touching.{HasChanged, released_by};
ghost use Rattle.rbc_rule.specs.Lists.{AreTrainsKnown};
ghost use Rattle.rbc_rule.specs.Gathered.{write_by, sent_by, write_at, sent_at, is_forced_by, AreSendable};

use crate::outcome::RuleFault;
use crate::read;
use rbc_records::{Key, Reader, Rec, Writes};
use rbc_settle::{Change, Numbers, Sent, TrainRec, settled_after};
use rbc_track::Track;
use std::alloc::{AllocError, Global};

/// The records that settling trains writes, and the messages that it sends.
#[derive(Drop)]
pub struct Gathered {
    pub writes: Writes,
    pub messages: Vec<Sent>,
}

/// The number of the stop that ends, if the train stops at once for it.
fn released(change: Change<'_>, train: &TrainRec) -> Option<u32>
    ensures ends { IfSome result (λ number. released_by change.entry ≡ Some number) }
    ensures forced { IfSome result (λ number. has_number train.now.forced number ≡ true) }
    ensures unforced { result ≡ None → is_forced_by (released_by change.entry) train.now ≡ false }
{
    match change {
        Change::Stop(number, None) if train.forced.has(number) => Some(number),
        _ => None,
    }
}

/// Settles a train that was settled before a change, and collects its message and, if it changes, its record. The train
/// no longer stops at once for a stop that ends.
fn settle_one(
    alloc: Global,
    track: &Track,
    change: Change<'_>,
    train: &TrainRec,
    gathered: &mut Gathered,
) -> Result<(), AllocError>
    requires { AreSendable gathered.old.messages.items }
    ensures writes { OnOk result (gathered.new.writes
        ≡ gathered.old.writes ++ write_by track.now change.entry train.now) }
    ensures messages { OnOk result (gathered.new.messages.items
        ≡ gathered.old.messages.items ++ sent_by track.now change.entry train.now) }
    ensures few { OnOk result (length gathered.new.messages.items ≤ length gathered.old.messages.items + 1) }
    ensures fit { OnOk result (AreSendable gathered.new.messages.items) }
{
    if let Some(number) = released(change, train) {
        return settle_released(alloc, track, change, number, train, gathered);
    }
    if let Some(after) = settled_after(alloc, track, change, train, &mut gathered.messages)? {
        gathered
            .writes
            .set(Key::Train(train.engine), Some(Rec::Train(after)))?;
    }
    Ok(())
}

/// Does what `settle_one` does, for a train that stops at once for the stop that ends.
fn settle_released(
    alloc: Global,
    track: &Track,
    change: Change<'_>,
    number: u32,
    train: &TrainRec,
    gathered: &mut Gathered,
) -> Result<(), AllocError>
    requires fit { AreSendable gathered.old.messages.items }
    requires ends { released_by change ≡ Some number }
    requires forced { has_number train.now.forced number ≡ true }
    ensures writes { OnOk result (gathered.new.writes
        ≡ gathered.old.writes ++ write_by track.now change.entry train.now) }
    ensures messages { OnOk result (gathered.new.messages.items
        ≡ gathered.old.messages.items ++ sent_by track.now change.entry train.now) }
    ensures few { OnOk result (length gathered.new.messages.items ≤ length gathered.old.messages.items + 1) }
    ensures fit { OnOk result (AreSendable gathered.new.messages.items) }
{
    let mut train = train.copy(alloc)?;
    let _ = train.forced.remove(number);
    let engine = train.engine;
    let settled = settled_after(alloc, track, change, &train, &mut gathered.messages)?;
    let after = settled.unwrap_or(train);
    gathered
        .writes
        .set(Key::Train(engine), Some(Rec::Train(after)))
}

/// Settles the trains of some enrolled engines one after another, after a change of the stops or the restrictions.
pub fn settle_trains<S: Reader>(
    alloc: Global,
    track: &Track,
    store: &S,
    engines: &Numbers,
    change: Change<'_>,
) -> Result<Gathered, RuleFault>
    requires known { AreTrainsKnown (S.notes store.now) engines.now }
    requires enrolled { (w : World) → MayBe track.now (S.notes store.now) w
        → All (λ engine. IsTrue (has_number (keys w.trains) engine)) engines.now }
    ensures writes { IfOk result (λ gathered. (w : World) (stops : Stops) (limits : Limits)
        → MayBe track.now (S.notes store.now) w → HasChanged change.entry w stops limits
        → gathered.writes ≡ flat_map (write_at track.now stops limits
        (released_by change.entry) w.trains) engines.now) }
    ensures messages { IfOk result (λ gathered. (w : World) (stops : Stops) (limits : Limits)
        → MayBe track.now (S.notes store.now) w → HasChanged change.entry w stops limits
        → gathered.messages.items ≡ flat_map (sent_at track.now stops limits
        (released_by change.entry) w.trains) engines.now) }
    ensures few { IfOk result (λ gathered. length gathered.messages.items ≤ length engines.now * most_messages) }
    ensures fit { IfOk result (λ gathered. AreSendable gathered.messages.items) }
    ensures fault { IfErr result (λ fault. IsFaultOf track.now fault (S.notes store.now)) }
{
    let mut gathered = Gathered {
        writes: Writes::with_room(alloc, engines.len())?,
        messages: Vec::with_capacity(alloc, engines.len())?,
    };
    for engine in engines.as_slice() {
        let Some(train) = read::train(store, *engine)? else {
            return Err(RuleFault::Torn);
        };
        settle_one(alloc, track, change, train, &mut gathered)?;
    }
    Ok(gathered)
}
