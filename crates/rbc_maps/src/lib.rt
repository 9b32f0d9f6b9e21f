//! Maps from numbers to values, as vectors of pairs in ascending order of the number; and what is active by number
//! ([`Numbered`]), with the lines on which it lies.
//!
//! It stands on nothing but `memchr` of the kit. rbc_track, rbc_ids and rbc_desk keep maps with it, and rbc_zones the
//! active stops and restrictions. They rest on this: looking up and removing do what specs/Maps.antt says; each active
//! number is above 0 and not above the last one given; and `on_line` gives among the active values, in their order,
//! each that lies on a line, by the marks that its type has (`OnLines`), and looks at no other.
//!
//! Begin with lookup.rt, then numbered.rt; chain.rt has the places of the next value with the same mark.
//!
//! A function that cannot report a lack of memory takes none. `AllocError` means that memory was refused; what the
//! function was changing is then of no further use, unless its docstring says what is left.
#![tactic(auto)]

mod chain;
mod lookup;
mod numbered;
mod on_line;

pub use lookup::{has, index_for, index_near, remove, value_at, value_of};
pub use numbered::Numbered;
pub use on_line::{OnLine, OnLines, mark_of};
