//! A desk on the heap, behind a pointer that C keeps. Each function here has a proof by hand.

ghost use Rattle.std.specs.Prelude.{◌≡◌, Option, Some, None, IsSome};
ghost use Rattle.rbc_live.specs.declared.desk.LiveDesk as declared;
ghost use Rattle.rbc_c.specs.DeskMemory.{live_at};

use crate::raw_box::RawBox;
use rbc_live::LiveDesk;
use std::alloc::Global;
use std::marker::Model;
use std::ptr;

/// The memory of a desk, which it owns, or none. Dropping the pointer does not free it: `give` hands it back.
#[repr(C)]
#[derive(Drop)]
pub struct DeskPointer {
    at: *mut u8,
    pub ghost live: { Option declared.LiveDesk },
}

impl Model for DeskPointer {
    ghost also_owns = { λ s. live_at s.at s.live };
}

impl DeskPointer {
    /// No desk.
    pub fn none() -> DeskPointer
        ensures { result.live ≡ None }
    {
        DeskPointer {
            at: ptr::null_mut(),
        }
    }

    /// Keeps a desk.
    pub fn hold(live: RawBox<LiveDesk, Global>) -> DeskPointer
        ensures { result.live ≡ Some live.value }
    {
        let RawBox { at, alloc: _ } = live;
        DeskPointer { at: at as *mut u8 }
    }

    /// Hands back the desk that is there.
    pub fn give(self, alloc: Global) -> RawBox<LiveDesk, Global>
        requires { IsSome self.live }
        ensures { self.live ≡ Some result.value }
    {
        let DeskPointer { at } = self;
        RawBox {
            at: at as *mut LiveDesk,
            alloc,
        }
    }
}

unsafe impl Send for DeskPointer {}
