//! What C keeps of a desk.

ghost use Rattle.std.specs.Prelude.{◌≡◌, ◌==◌, Some, None, is_some, MatchOption};
ghost use Rattle.rbc_c.specs.Versions.{this_version};

use crate::desk_pointer::DeskPointer;
use crate::raw_box::RawBox;
use rbc_live::LiveDesk;
use std::alloc::Global;
use std::mem;

/// RBC_VERSION of the rbc.h that belongs to this library.
const VERSION: u8 = 3;

/// A desk that is open, or none. C keeps it, and passes its address.
#[repr(C)]
#[derive(Drop)]
pub struct Handle {
    /// RBC_VERSION of the rbc.h that the caller was compiled with. It stands first, where a caller of an older rbc.h
    /// has 0 or 1.
    pub version: u8,
    is_open: bool,
    pub memory: DeskPointer,
    ghost agrees: { is_open ≡ is_some memory.live },
}

impl Handle {
    /// The handle of no desk.
    fn none() -> Handle
        ensures live { result.memory.live ≡ None }
        ensures version { result.version ≡ this_version }
    {
        Handle {
            version: VERSION,
            is_open: false,
            memory: DeskPointer::none(),
        }
    }

    /// The handle of a desk.
    pub fn of(desk: Box<LiveDesk>) -> Handle
        ensures live { result.memory.live ≡ Some desk.value }
        ensures version { result.version ≡ this_version }
    {
        Handle {
            version: VERSION,
            is_open: true,
            memory: DeskPointer::hold(RawBox::of(desk)),
        }
    }

    /// Whether the caller was compiled with the rbc.h that belongs to this library.
    pub fn is_of_this_version(&self) -> bool
        ensures { result ≡ (self.now.version == this_version) }
    {
        self.version == VERSION
    }

    /// Takes the desk out, if one is open. The handle has no desk afterwards.
    pub fn take(&mut self, alloc: Global) -> Option<Box<LiveDesk>>
        ensures desk { MatchOption result (self.old.memory.live ≡ None)
            (λ desk. self.old.memory.live ≡ Some desk.value) }
        ensures none { self.new.memory.live ≡ None }
        ensures version { self.new.version ≡ this_version }
    {
        let Handle {
            version: _,
            is_open,
            memory,
        } = mem::replace(self, Handle::none());
        if is_open {
            Some(memory.give(alloc).into_box())
        } else {
            None
        }
    }
}
