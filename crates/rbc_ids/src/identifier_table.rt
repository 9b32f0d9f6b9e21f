//! The table of a train's identifiers.

ghost use Rattle.std.specs.Prelude.{◌≡◌, ◌<◌, ◌≤◌, ◌↔◌, ◌==◌, if◌then◌else◌, true, false, not, [], length, Some, None};
ghost use Rattle.std.specs.Prelude.{is_some, IsTrue, IfSome, IfOk, IfErr, OnOk, OnErr};
ghost use Rattle.std.specs.List.{position_or_len, enumerate_from};
ghost use Rattle.rbc_maps.specs.Maps.{has, index_for, value_of, with_value, without};
ghost use Rattle.rbc_ids.specs.declared.slot.IssueError.TheVariants.{Full};
ghost use Rattle.rbc_ids.specs.declared.slot.Slot.TheVariants.{Revoking};
ghost use Rattle.rbc_ids.specs.Table.{IsTable, TellsApart, is_told, is_used_at, least_free, identifier_of, told_now};
ghost use Rattle.rbc_ids.specs.Table.{marked, IsIssued, freed_by, marked_by, stamp_answer, changed_by_stamp};
ghost use Rattle.rbc_ids.specs.Table.{acked_slot, after_stamp_ack, after_id_ack, changed_by_id, number_rejected};
ghost use Rattle.rbc_ids.specs.Table.{rejected};
ghost use Rattle.rbc_ids.specs.Table.{is_ripe_at, reported_slot, after_report};

use crate::slot::{IdAck, IssueError, Kind, MOST_REPORTS, Slot, StampAck, UsedSlot};
use std::alloc::{AllocError, Global};
use std::cell::Cell;
use std::marker::Model;

/// The identifiers 0 to `N - 1` of one train. Each is free, or held by a slot. Takes memory only for those that are
/// held.
#[derive(Drop)]
pub struct IdTable<const N: usize> {
    /// The held identifiers in ascending order, each with its slot.
    held: Vec<(u8, Slot)>,
}

impl<const N: usize> Model for IdTable<N> {
    ghost use Rattle.rbc_ids.specs.Table.{Slots, IsTable};

    ghost Value = { Slots };

    ghost view = { λ t. t.held.items };

    ghost invariant = { λ t. IsTable N t.held.items };
}

impl<const N: usize> IdTable<N> {
    /// Makes a table in which every identifier is free. `N` is at most 255.
    pub fn new(alloc: Global) -> Self
        requires { N ≤ 255 }
        ensures { result ≡ [] }
    {
        IdTable {
            held: Vec::new(alloc),
        }
    }

    /// Copies the table. The copy takes memory only if an identifier is held, and then has room for one more.
    pub fn copy(&self, alloc: Global) -> Result<Self, AllocError>
        ensures { IfOk result (λ copy. copy ≡ self.now) }
    {
        if self.held.is_empty() {
            return Ok(IdTable::new(alloc));
        }
        let mut held = Vec::with_capacity(alloc, self.held.len() + 1)?;
        held.extend_from_slice(self.held.as_slice())?;
        Ok(IdTable { held })
    }

    /// Makes the table a copy of another, with room for one more if an identifier is held. Takes memory only if this
    /// table lacked that room. After an error every identifier is free.
    pub fn copy_from(&mut self, other: &Self) -> Result<(), AllocError>
        ensures ok { OnOk result (self.new ≡ other.now) }
        ensures err { OnErr result (self.new ≡ []) }
    {
        self.held.clear();
        if other.held.is_empty() {
            return Ok(());
        }
        self.held.reserve_exact(other.held.len() + 1)?;
        self.held.extend_from_slice(other.held.as_slice())
    }

    /// Returns the slot of an identifier, or `None` if it is free or not below `N`.
    pub fn slot(&self, id: u8) -> Option<Slot>
        ensures value { result ≡ value_of self.now id }
        ensures sound { IsTable N self.now }
    {
        match self.held.get(self.index_of(id)) {
            Some((held, slot)) if *held == id => Some(*slot),
            _ => None,
        }
    }

    /// Returns the held identifiers in ascending order, each with its slot.
    pub fn slots(&self) -> &[(u8, Slot)]
        ensures value { result.now ≡ self.now }
        ensures sound { IsTable N self.now }
    {
        self.held.as_slice()
    }

    /// Returns how many identifiers are held, at most `N`.
    pub fn held(&self) -> usize
        ensures value { result ≡ length self.now }
        ensures most { result ≤ N }
    {
        self.held.len()
    }

    /// Returns the least free identifier, or `None` if every identifier is held.
    pub fn least_free(&self) -> Option<u8>
        ensures { result ≡ least_free N self.now }
    {
        let gap = self.gap();
        if gap < N { Some(gap as u8) } else { None }
    }

    /// Returns the least identifier that is used by a number. A number whose slot is being revoked is not found.
    pub fn of_number(&self, number: u32) -> Option<u8>
        ensures { result ≡ identifier_of self.now number }
    {
        self.held
            .iter()
            .find(|held| held.1.tells(number))
            .map(|held| held.0)
    }

    /// Whether an identifier is used by a number. A number whose slot is being revoked is not found.
    ///
    /// The search begins at the index `near` among the held identifiers, and goes round. If it finds the number, `near`
    /// is then the index after it. So numbers that are sought in the order of their identifiers are found at once. The
    /// answer is the same wherever the search begins.
    pub fn tells(&self, number: u32, near: &Cell<usize>) -> bool
        ensures { result ≡ is_told self.now number }
    {
        let start = near.get().min(self.held.len());
        let (before, behind) = (&self.held[..start], &self.held[start..]);
        if let Some(at) = index_of_number(behind, number) {
            near.set(start + at + 1);
            return true;
        }
        let Some(at) = index_of_number(before, number) else {
            return false;
        };
        near.set(at + 1);
        true
    }

    /// Whether the slot at the index `near` among the held identifiers is used by a number. If it is, `near` becomes the
    /// index after it. `false` says nothing: another slot may be used by the number. One look is enough for numbers that
    /// are sought in the order of the slots.
    #[inline]
    pub fn tells_at(&self, number: u32, near: &Cell<usize>) -> bool
        ensures { IsTrue result → is_told self.now number ≡ true }
    {
        let at = near.get();
        if at < self.held.len() && self.held[at].1.tells(number) {
            near.set(at + 1);
            return true;
        }
        false
    }

    /// Uses the least free identifier for a number, told by a message of this kind with this stamp (T_TRAIN, 10 ms),
    /// and returns that identifier. The number must not be told already.
    ///
    /// # Errors
    ///
    /// `Full` exactly if every identifier is held, else `OutOfMemory`. Either leaves the table unchanged.
    pub fn issue(&mut self, number: u32, stamp: u32, kind: Kind) -> Result<u8, IssueError>
        requires { is_told self.old number ≡ false }
        ensures issued { IfOk result (λ id. IsIssued N self.old number stamp kind id self.new) }
        ensures err { OnErr result (self.new ≡ self.old) }
        ensures full { IfErr result (λ error. (error ≡ Full) ↔ (length self.old ≡ N)) }
    {
        let gap = self.gap();
        if gap == N {
            return Err(IssueError::Full);
        }
        let id = gap as u8;
        self.held.insert(gap, (id, told_now(number, stamp, kind)))?;
        Ok(id)
    }

    /// Uses an identifier for a number, told by a message of this kind with this stamp (T_TRAIN, 10 ms). The identifier
    /// must be free and below `N`, and the number must not be told already. An error leaves the table unchanged.
    pub fn tell(&mut self, id: u8, number: u32, stamp: u32, kind: Kind) -> Result<(), AllocError>
        requires below { id < N }
        requires free { has self.old id ≡ false }
        requires untold { is_told self.old number ≡ false }
        ensures ok { OnOk result (self.new ≡ with_value id (told_now number stamp kind) self.old) }
        ensures err { OnErr result (self.new ≡ self.old) }
    {
        let at = self.index_of(id);
        self.held.insert(at, (id, told_now(number, stamp, kind)))?;
        Ok(())
    }

    /// Marks a used identifier as being revoked by a message with this stamp (T_TRAIN, 10 ms). It stays held until the
    /// train has acknowledged that message.
    pub fn revoke(&mut self, id: u8, stamp: u32)
        requires { IsTrue (is_used_at self.old id) }
        ensures { self.new ≡ with_value id (Revoking stamp) self.old }
    {
        self.put(id, Slot::Revoking { stamp });
    }

    /// Frees a held identifier.
    pub fn free(&mut self, id: u8)
        requires { IsTrue (has self.old id) }
        ensures { self.new ≡ without id self.old }
    {
        let at = self.index_of(id);
        let _ = self.held.remove(at);
    }

    /// Takes the train's acknowledgement of the message with this stamp (own rule). It frees each identifier that the
    /// message revoked, and marks each restriction that it told as acknowledged. A stop is not acknowledged by its
    /// stamp.
    pub fn ack_stamp(&mut self, stamp: u32) -> StampAck
        ensures answer { result ≡ stamp_answer self.old stamp }
        ensures after { changed_by_stamp result self.new ≡ after_stamp_ack self.old stamp }
        ensures nothing { result ≡ StampAck.Nothing → self.new ≡ self.old }
    {
        let (freed, marked) = answered_by(self.slots(), stamp);
        if freed == 0 && marked == 0 {
            return StampAck::Nothing;
        }
        self.held.retain_mut(|held| stays(&mut held.1, stamp));
        StampAck::Answered {
            freed: freed as u8,
            marked: marked as u8,
        }
    }

    /// Takes the train's answer (Q_EMERGENCYSTOP) to the stop under an identifier (own rule). 0 and 1 accept a
    /// conditional stop, 2 accepts an unconditional one, and 3 rejects a conditional one. Any other answer changes
    /// nothing.
    pub fn ack_id(&mut self, id: u8, answer: u8) -> IdAck
        ensures after { changed_by_id result self.new ≡ after_id_ack self.old id answer }
        ensures rejected { number_rejected result ≡ rejected answer (value_of self.old id) }
        ensures nothing { result ≡ IdAck.Nothing → self.new ≡ self.old }
    {
        let Some(Slot::Used(used)) = self.slot(id) else {
            return IdAck::Nothing;
        };
        match (used.kind, answer) {
            (Kind::Conditional, 0 | 1) | (Kind::Unconditional, 2) => {
                self.put(id, marked(used));
                IdAck::Marked
            }
            (Kind::Conditional, 3) => {
                self.free(id);
                IdAck::Rejected(used.number)
            }
            _ => IdAck::Nothing,
        }
    }

    /// Counts one more report of the train for each stop that it was told conditionally and has not acknowledged, to at
    /// most 3 (own rule).
    pub fn reported(&mut self)
        ensures { self.new ≡ after_report self.old }
    {
        for held in self.held.iter_mut() {
            held.1 = reported(held.1);
        }
    }

    /// Whether an identifier is used by a stop that the train was told conditionally, and has left unanswered in three
    /// reports.
    pub fn ripe(&self, id: u8) -> bool
        ensures { result ≡ is_ripe_at self.now id }
    {
        self.slot(id).is_some_and(|slot| slot.is_ripe())
    }

    /// Replaces the slot of a held identifier. No other slot may tell the number of the new one.
    fn put(&mut self, id: u8, slot: Slot)
        requires held { IsTrue (has self.old id) }
        requires once { TellsApart id slot self.old }
        ensures { self.new ≡ with_value id slot self.old }
    {
        let at = self.index_of(id);
        self.held[at].1 = slot;
    }

    /// Returns the index at which an identifier stands in `held`, or would stand. If no identifier below it is free, it
    /// stands at the index that is its own value, so that index is tried first.
    fn index_of(&self, id: u8) -> usize
        ensures { result ≡ index_for id self.now }
    {
        let own = usize::from(id);
        if own < self.held.len() && self.held[own].0 == id {
            return own;
        }
        self.held.partition_point(|held| held.0 < id)
    }

    /// Returns how many identifiers from 0 on are held without a gap.
    fn gap(&self) -> usize
        ensures value { result ≡ position_or_len (λ entry. not (entry.1.0 == entry.0)) (enumerate_from 0 self.now) }
        ensures sound { IsTable N self.now }
    {
        self.held
            .iter()
            .enumerate()
            .position(|(at, held)| usize::from(held.0) != at)
            .unwrap_or(self.held.len())
    }
}

/// The slot of a number that is told now, which the train has not acknowledged.
fn told_now(number: u32, stamp: u32, kind: Kind) -> Slot
    ensures { result ≡ told_now number stamp kind }
{
    Slot::Used(UsedSlot {
        number,
        stamp,
        kind,
        acked: false,
        count: 0,
    })
}

/// The slot once the train has acknowledged the message that told its number.
fn marked(used: UsedSlot) -> Slot
    ensures { result ≡ marked used }
{
    Slot::Used(UsedSlot {
        acked: true,
        ..used
    })
}

/// Returns how many identifiers the message with this stamp revoked, and how many restrictions it told. Both are counted
/// in one pass, since a table may hold 255 slots.
fn answered_by(held: &[(u8, Slot)], stamp: u32) -> (usize, usize)
    ensures freed { result.0 ≡ freed_by stamp held.now }
    ensures marked { result.1 ≡ marked_by stamp held.now }
{
    let mut freed = 0;
    let mut marked = 0;
    for (_, slot) in held {
        freed += usize::from(slot.is_freed_by(stamp));
        marked += usize::from(slot.is_marked_by(stamp));
    }
    (freed, marked)
}

/// Changes a slot to what it is once the train has acknowledged the message with this stamp, and returns whether its
/// identifier stays held.
fn stays(slot: &mut Slot, stamp: u32) -> bool
    ensures { acked_slot stamp slot.old ≡ if result then Some slot.new else None }
{
    match slot {
        Slot::Revoking { stamp: own } => *own != stamp,
        Slot::Used(used) => {
            used.acked |= used.kind == Kind::Restriction && used.stamp == stamp;
            true
        }
    }
}

/// The slot after one more report of the train.
fn reported(slot: Slot) -> Slot
    ensures { result ≡ reported_slot slot }
{
    match slot {
        Slot::Used(used) if used.is_unanswered() => Slot::Used(UsedSlot {
            count: used.count.saturating_add(1).min(MOST_REPORTS),
            ..used
        }),
        _ => slot,
    }
}

/// Returns the least index of a slot that is used by a number.
fn index_of_number(held: &[(u8, Slot)], number: u32) -> Option<usize>
    ensures told { is_some result ≡ is_told held.now number }
    ensures below { IfSome result (λ at. at < length held.now) }
{
    held.iter().position(|held| held.1.tells(number))
}
