//! Bit fields in byte buffers, most significant bit first: the order in which ERTMS/ETCS messages are laid out
//! (SUBSET-026, chapter 7.3: variables are written one after another, each with its most significant bit first).
//!
//! It stands on nothing. ertms_codec reads and writes every variable with it, and rests on two contracts: `put` appends
//! the bits of a number, or refuses and changes nothing; `take` gives the number that the next bits spell. `finish`
//! fills the last byte with 0, and `skip` passes over bits.
//!
//! Begin with specs/Bits.antt (`bits_of`, `number_of`), then writer.rt and reader.rt.
#![tactic(auto)]

mod reader;
mod writer;

pub use reader::{BitReader, ShortBits};
pub use writer::{BitWriter, FullBits};
