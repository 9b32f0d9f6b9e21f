//! Searches for trains, each by a scan of one column.

ghost use Rattle.std.specs.Prelude.{◌≡◌, ℕ, ◌<◌, ◌≤◌, ◌||◌, Bool, false, length, take, slice_get, Some, IfOk, IfSome};
ghost use Rattle.std.specs.Prelude.{IsTrue};
ghost use Rattle.rbc_settle.specs.Numbers.{has_number};
ghost use Rattle.rbc_records.specs.declared.record.Key.{Key};
ghost use Rattle.rbc_records.specs.declared.record.Rec.{Rec};
ghost use Rattle.rbc_records.specs.Columns.{is_of_train, ArePassing, Denies, Tells};

use crate::record::{Key, Rec};
use indexmap::IndexMap;
use rbc_settle::{Area, Numbers};
use std::alloc::{AllocError, Global};

/// The trains for which a command may have something to do.
#[derive(Clone, Copy)]
pub enum Sought<'a> {
    /// Those that were told of the stop of this number, or that stop at once for it.
    ToldOfStop(u32),
    /// Those that were told of the temporary speed restriction of this number.
    ToldOfLimit(u32),
    /// Those with a free stop identifier (NID_EM) that the stop of this number concerns, which closes this area.
    Stoppable(u32, &'a Area),
}

/// The most trains that a search returns. For more, going through all trains is as fast.
const MAX_FOUND: usize = 256;

/// How many entries a search tests at once.
const BLOCK: usize = 32;

/// The engines of the trains at the indices that pass a test. `None` if there are too many. A block of which `may_pass`
/// denies that any passes, from its first index to before its end, is passed over.
pub fn passing<M: Fn(usize, usize) -> bool, F: Fn(usize) -> bool>(
    alloc: Global,
    entries: &IndexMap<Key, Rec>,
    may_pass: M,
    passes: F,
) -> Result<Option<Numbers>, AllocError>
    requires blocks { (begin end : ℕ) → begin ≤ end → end ≤ length entries.now.entries → M.pre may_pass begin end }
    requires calls { (index : ℕ) → index < length entries.now.entries → F.pre passes index }
    ensures { (test : Rec → Bool) → Denies (M.post may_pass) test entries.now.entries
        → Tells (F.post passes) test entries.now.entries
        → IfOk result (λ found. IfSome found (ArePassing test entries.now.entries)) }
{
    let mut found = Numbers::new(alloc);
    let mut begin = 0;
    while begin < entries.len() {
        let end = begin + BLOCK.min(entries.len() - begin);
        if may_pass(begin, end) && !add_passing(entries, begin, end, &passes, &mut found)? {
            return Ok(None);
        }
        begin = end;
    }
    Ok(Some(found))
}

/// Adds the engines of the trains at the indices from `begin` to before `end` that pass. Returns whether there was room
/// for all of them.
fn add_passing<F: Fn(usize) -> bool>(
    entries: &IndexMap<Key, Rec>,
    begin: usize,
    end: usize,
    passes: &F,
    found: &mut Numbers,
) -> Result<bool, AllocError>
    requires order { begin ≤ end }
    requires within { end ≤ length entries.now.entries }
    requires calls { (index : ℕ) → begin ≤ index → index < end → F.pre passes.now index }
    ensures { (test : Rec → Bool) → Tells (F.post passes.now) test entries.now.entries
        → IfOk result (λ fits. IsTrue fits → ArePassing test (take begin entries.now.entries) found.old
        → ArePassing test (take end entries.now.entries) found.new) }
{
    for index in begin..end {
        if passes(index) && !add_train(entries, index, found)? {
            return Ok(false);
        }
    }
    Ok(true)
}

/// Adds the engine at an index if a train stands there, unless it is among the engines already. Returns whether there
/// was room for it: `false` if there are already as many engines as a search returns.
fn add_train(
    entries: &IndexMap<Key, Rec>,
    index: usize,
    found: &mut Numbers,
) -> Result<bool, AllocError>
    requires { index < length entries.now.entries }
    ensures { IfOk result (λ fits. IsTrue fits → (entry : Key × Rec) (engine : ℕ)
        → slice_get entries.now.entries index ≡ Some entry
        → has_number found.new engine ≡ (has_number found.old engine || is_of_train engine entry.0 entry.1)) }
{
    let (Key::Train(engine), Rec::Train(_)) = entries.get_index(index).unwrap() else {
        return Ok(true);
    };
    if found.has(*engine) {
        return Ok(true);
    }
    if found.len() >= MAX_FOUND {
        return Ok(false);
    }
    found.add(*engine)?;
    Ok(true)
}
