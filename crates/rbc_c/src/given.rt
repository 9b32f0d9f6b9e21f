//! The lists that a caller can ask of a desk.

ghost use Rattle.std.specs.Prelude.{◌≡◌, ◌<◌, ◌⊎◌, List, length, IsOkAnd};
ghost use Rattle.rbc_c.specs.Given.{Gives, fronted};
ghost use Rattle.rbc_c.specs.Versions.{this_version, Versioned};

use crate::faults::{DONE, MEMORY, NOT_NOW, OTHER_VERSION};
use crate::handle::Handle;
use rbc_live::LiveDesk;
use std::alloc::{AllocError, Global};

/// An entry of a list that each desk has, as C has it.
pub trait Entry: Copy + Drop {
    ghost use Rattle.std.specs.Prelude.{List, IfOk};
    ghost use Rattle.rbc_live.specs.declared.desk.LiveDesk as declared;

    // The list that belongs to a desk.
    ghost is_of: { declared.LiveDesk → List Self → Type 0 };

    /// The list of a desk.
    fn list(desk: &LiveDesk, alloc: Global) -> Result<Vec<Self>, AllocError>
        ensures { IfOk result (λ list. is_of desk.now list.items) };
}

/// Writes a list to the front of another, as far as there is room.
pub fn write_front<T: Copy + Drop>(list: &[T], out: &mut [T])
    ensures { out.new ≡ fronted list.now out.old }
{
    let count = list.len().min(out.len());
    out[..count].copy_from_slice(&list[..count]);
}

/// Writes a list to the front of `out`, as far as there is room, and sets `count` to its length. Answers 0; or the code
/// of a fault, with both unchanged, if memory was refused for the list.
pub fn give<T: Copy + Drop>(
    made: Result<Vec<T>, AllocError>,
    out: &mut [T],
    count: &mut usize,
) -> u32
    ensures codes { (result ≡ 0) ⊎ (result ≡ 1) }
    ensures given { result ≡ 0 → IsOkAnd made (λ list. (out.new ≡ fronted list.items out.old)
        × (count.new ≡ length list.items)) }
    ensures stays { 0 < result → (out.new ≡ out.old) × (count.new ≡ count.old) }
{
    let Ok(list) = made else {
        return MEMORY;
    };
    write_front(list.as_slice(), out);
    *count = list.len();
    DONE
}

/// Writes the list of a desk to the front of `out`, as far as there is room, and sets `count` to its length. Answers 0,
/// or the code of a fault.
fn list_of_desk<T: Entry>(desk: &LiveDesk, alloc: Global, out: &mut [T], count: &mut usize) -> u32
    ensures codes { (result ≡ 0) ⊎ (result ≡ 1) }
    ensures given { result ≡ 0 → (list : List T) × T.is_of desk.now list × (out.new ≡ fronted list out.old)
        × (count.new ≡ length list) }
    ensures stays { 0 < result → (out.new ≡ out.old) × (count.new ≡ count.old) }
{
    give(T::list(desk, alloc), out, count)
}

/// Writes the list of a handle's desk, as `list_of_handle` does for a caller of this version.
fn list_of_this_version<T: Entry>(
    handle: &mut Handle,
    alloc: Global,
    out: &mut [T],
    count: &mut usize,
) -> u32
    ensures gives { Gives T.is_of handle.old.memory.live out.old count.old result handle.new.memory.live out.new
        count.new }
    ensures version { handle.new.version ≡ this_version }
{
    let Some(desk) = handle.take(alloc) else {
        return NOT_NOW;
    };
    let code = list_of_desk(&desk, alloc, out, count);
    *handle = Handle::of(desk);
    code
}

/// Writes the list of a handle's desk to the front of `out`, as far as there is room. Answers 0, and `count` says how
/// long it is. At the code of a fault `out` and `count` are as they were. The call is refused if the handle has no
/// desk, or if the caller was compiled with another rbc.h.
pub fn list_of_handle<T: Entry>(
    handle: &mut Handle,
    alloc: Global,
    out: &mut [T],
    count: &mut usize,
) -> u32
    ensures { Versioned handle.old.version handle.new.version result
        (Gives T.is_of handle.old.memory.live out.old count.old result handle.new.memory.live out.new count.new)
        ((handle.new ≡ handle.old) × (out.new ≡ out.old) × (count.new ≡ count.old)) }
{
    if !handle.is_of_this_version() {
        return OTHER_VERSION;
    }
    list_of_this_version(handle, alloc, out, count)
}
