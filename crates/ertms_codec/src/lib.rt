//! Messages between a radio block centre and its trains: as values, as bytes and as text.
//!
//! It stands on ertms_bits. rbc_text reads and writes batches with it, rbc_place and rbc_rule take its values, rbc_words
//! turns lines into words and back, and ertms_c offers it to C. They rest on `read_from_train` and `read_to_train`,
//! which answer `Ok(m)` exactly if the bytes encode m (`Spells`) and otherwise the first step that fails (`Refuses`), and
//! on `write_to_train` and `write_from_train`, which write the encoding of a message that fits (`Fits`, `IsInRange`).
//! `describe` gives a message as text. `encode` and `parse_from_train` read that text, and name the first wrong word of
//! any other text (specs/Grammar.antt). Only message 24 takes memory.
//!
//! Begin with to_train.rt, from_train.rt and specs/ToTrain.antt; then write.rt has one line for each variable, and
//! from_train_reader.rt a small function for each message. In proofs/, Fields and FieldLists lead from fields at places
//! to fields in a row.
//!
//! A function that cannot report a lack of memory takes none. `AllocError` means that memory was refused; what the
//! function was changing is then of no further use, unless its docstring says what is left.
#![tactic(auto)]

mod cutting;
mod encoder;
mod error;
mod from_train;
mod from_train_parser;
mod from_train_reader;
mod from_train_writer;
mod name;
mod packets;
mod position_reader;
mod reading;
mod text;
mod to_train;
mod to_train_parser;
mod to_train_reader;
mod variable;
mod words;
mod write;
mod wrong_word;

pub use cutting::cut;
pub use encoder::encode;
pub use error::{DecodeError, ReadError};
pub use from_train::{FromTrain, Position};
pub use from_train_parser::parse_from_train;
pub use from_train_reader::read_from_train;
pub use from_train_writer::write_from_train;
pub use name::Name;
pub use packets::{MOST_PACKETS, Packets, Part};
pub use text::{DescribeError, describe};
pub use to_train::{Head, ToTrain};
pub use to_train_reader::read_to_train;
pub use write::{write_general, write_to_train};
pub use wrong_word::{EncodeError, Expected, WrongWord};
