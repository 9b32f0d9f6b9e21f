//! What waits for an answer or an acknowledgement, as C has it.

ghost use Rattle.std.specs.Prelude.{◌≡◌, IfOk};
ghost use Rattle.std.specs.List.{filter_map};
ghost use Rattle.rbc_c.specs.Outstanding.{AreOutstanding, code_of_kind, waits_at, waits_of, waits_under};

use crate::given::Entry;
use rbc_ids::{Kind, Slot};
use rbc_live::{LiveDesk, engines_in, train_in};
use rbc_settle::TrainRec;
use std::alloc::{AllocError, Global};

/// The kind of the revocation of a stop.
const STOP_REVOKED: u32 = 3;

/// The kind of the revocation of a restriction.
const RESTRICTION_REVOKED: u32 = 4;

/// An identifier of a train, whose message the train has not answered or acknowledged.
#[repr(C)]
#[derive(Clone, Copy, Drop)]
pub struct Outstanding {
    /// NID_ENGINE of the train.
    pub engine: u32,
    /// What the message does: 0 tells a stop conditionally, 1 unconditionally, 2 tells a restriction, 3 revokes a stop,
    /// 4 a restriction.
    pub kind: u32,
    /// The number of the stop or the restriction; 0 if it is being revoked.
    pub number: u32,
    /// NID_EM or NID_TSR.
    pub identifier: u32,
    /// T_TRAIN of the message, in units of 10 ms.
    pub stamp: u32,
}

/// The code of the kind of message that told a number.
fn code_of_kind(kind: Kind) -> u32
    ensures { result ≡ code_of_kind kind }
{
    match kind {
        Kind::Conditional => 0,
        Kind::Unconditional => 1,
        Kind::Restriction => 2,
    }
}

/// What waits at a train under an identifier. `revocation` is the kind that a revocation has.
fn waits_under(engine: u32, revocation: u32, id: u8, slot: Slot) -> Option<Outstanding>
    ensures { result ≡ waits_under engine revocation (id, slot) }
{
    let identifier = u32::from(id);
    match slot {
        Slot::Used(used) if used.acked => None,
        Slot::Used(used) => Some(Outstanding {
            engine,
            kind: code_of_kind(used.kind),
            number: used.number,
            identifier,
            stamp: used.stamp,
        }),
        Slot::Revoking { stamp } => Some(Outstanding {
            engine,
            kind: revocation,
            number: 0,
            identifier,
            stamp,
        }),
    }
}

/// What waits at a train under identifiers. `revocation` is the kind that a revocation has.
fn waits_in(
    alloc: Global,
    engine: u32,
    revocation: u32,
    slots: &[(u8, Slot)],
) -> Result<Vec<Outstanding>, AllocError>
    ensures { IfOk result (λ all. all.items ≡ filter_map (waits_under engine revocation) slots.now) }
{
    slots
        .iter()
        .filter_map(|held| waits_under(engine, revocation, held.0, held.1))
        .collect(alloc)
}

/// What waits at a train.
fn waits_at(alloc: Global, engine: u32, train: &TrainRec) -> Result<Vec<Outstanding>, AllocError>
    ensures { IfOk result (λ all. all.items ≡ waits_at engine train.now) }
{
    let mut all = waits_in(alloc, engine, STOP_REVOKED, train.stops.slots())?;
    all.append(&mut waits_in(alloc, engine, RESTRICTION_REVOKED, train.limits.slots())?)?;
    Ok(all)
}

/// What waits at the train with an engine number, if it is enrolled.
fn waits_of(alloc: Global, desk: &LiveDesk, engine: u32) -> Result<Vec<Outstanding>, AllocError>
    ensures { IfOk result (λ all. all.items ≡ waits_of desk.now engine) }
{
    match train_in(&desk.records, engine) {
        Some(train) => waits_at(alloc, engine, train),
        None => Ok(Vec::new(alloc)),
    }
}

/// What waits at all trains.
fn outstanding_on(alloc: Global, desk: &LiveDesk) -> Result<Vec<Outstanding>, AllocError>
    ensures { IfOk result (λ all. AreOutstanding desk.now all.items) }
{
    let mut all = Vec::new(alloc);
    for engine in engines_in(&desk.records) {
        all.append(&mut waits_of(alloc, desk, *engine)?)?;
    }
    Ok(all)
}

impl Entry for Outstanding {
    ghost use Rattle.rbc_c.specs.Outstanding.{AreOutstanding};

    ghost is_of = { AreOutstanding };

    fn list(desk: &LiveDesk, alloc: Global) -> Result<Vec<Outstanding>, AllocError> {
        outstanding_on(alloc, desk)
    }
}
