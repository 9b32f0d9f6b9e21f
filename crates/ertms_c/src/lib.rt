//! The codec for callers in C: one message at a time, in structs of fixed layout. `ertms.h` is the header. It takes
//! memory only while it reads a message of several packets, or encodes a text.
//!
//! It stands on ertms_codec, and no crate stands on it: it is built as a static library. A caller in C rests on the
//! contract of the call: `ertms_3_read_to_train` and `ertms_read_from_train` give the fields of the message that the
//! bytes spell, or the number of the first step that fails; `ertms_3_write_to_train` gives the bytes of the message that
//! has these fields, or 0 if none has, and `ertms_write_from_train` the same with a code; `ertms_encode` gives the bytes
//! of the message that has this text, or the first wrong word.
//!
//! Begin with `fields_of` in specs/ToTrainFields.antt, which says what fields a message has. faults.rt has the codes.
#![tactic(auto)]

ghost use Rattle.std.specs.Prelude.{◌≡◌, ◌<◌, ◌⊎◌, drop};
ghost use Rattle.ertms_codec.specs.ToTrain as to_train;
ghost use Rattle.ertms_codec.specs.FromTrain as from_train;
ghost use Rattle.ertms_codec.specs.declared.to_train.ToTrain.{ToTrain};
ghost use Rattle.ertms_codec.specs.declared.from_train.FromTrain.{FromTrain};
ghost use Rattle.ertms_c.specs.ToTrainFields as to_train_fields;
ghost use Rattle.ertms_c.specs.ToTrainFields.{IsWantOfMemory};
ghost use Rattle.ertms_c.specs.FromTrainFields as from_train_fields;
ghost use Rattle.ertms_c.specs.Encoding.{Leaves};

mod encoded;
mod faults;
mod from_train;
mod given;
mod to_train;

use encoded::{Encoded, encode_text};
use ertms_codec::{
    MOST_PACKETS, Part, read_from_train, read_to_train, write_from_train, write_general,
    write_to_train,
};
use faults::{DONE, NO_MESSAGE, code_of, read_code_of};
use from_train::FromTrainFields;
use given::write_whole;
use std::alloc::Global;
use to_train::ToTrainFields;

/// Decodes the bytes of one message to a train. Answers 0, and `fields` are those of the message; or the number of the
/// first step that fails, 1 to 4, or 5 if memory ran out for message 24, and `fields` stay.
#[unsafe(no_mangle)]
pub extern "C" fn ertms_3_read_to_train(
    alloc: Global,
    bytes: &[u8],
    fields: &mut ToTrainFields,
) -> u32
    ensures read { result ≡ 0 → to_train_fields.AreRead bytes.now fields.new }
    ensures only { (m : ToTrain) → to_train.Spells bytes.now m
        → ((result ≡ 0) × (fields.new ≡ to_train_fields.fields_of m)) ⊎ IsWantOfMemory bytes.now result }
    ensures refused { 0 < result → to_train_fields.IsRefused bytes.now result ⊎ IsWantOfMemory bytes.now result }
    ensures stays { 0 < result → fields.new ≡ fields.old }
{
    match read_to_train(alloc, bytes) {
        Ok(message) => {
            *fields = to_train::fields_of(&message);
            DONE
        }
        Err(fault) => read_code_of(fault),
    }
}

/// Encodes one message to a train. Answers how many bytes it has, at most 897, which stand at the front of `bytes`; or
/// 0 if no message has these fields. The bytes after the message stay.
#[unsafe(no_mangle)]
pub extern "C" fn ertms_3_write_to_train(fields: &ToTrainFields, bytes: &mut [u8; 1024]) -> u32
    ensures written { 0 < result → to_train_fields.AreWritten fields.now result bytes.new }
    ensures none { result ≡ 0 → to_train_fields.AreOfNone fields.now }
    ensures behind { drop result bytes.new ≡ drop result bytes.old }
{
    if fields.kind == 24 {
        return write_packets(fields, bytes);
    }
    match to_train::message_of(fields) {
        Some(message) => write_to_train(&message, bytes) as u32,
        None => 0,
    }
}

/// Encodes a message 24.
fn write_packets(fields: &ToTrainFields, bytes: &mut [u8; 1024]) -> u32
    requires { fields.now.kind ≡ 24 }
    ensures written { 0 < result → to_train_fields.AreWritten fields.now result bytes.new }
    ensures none { result ≡ 0 → to_train_fields.AreOfNone fields.now }
    ensures behind { drop result bytes.new ≡ drop result bytes.old }
{
    if !to_train::is_frame(fields) {
        return 0;
    }
    let count = fields.count as usize;
    let mut packets = [Part::Lift { dir: 0, id: 0 }; MOST_PACKETS];
    if !to_train::packets_of(&fields.packets[..count], &mut packets) {
        return 0;
    }
    write_general(to_train::head_in(fields), &packets[..count], bytes) as u32
}

/// Decodes the bytes of one message from a train. Answers 0, and `fields` are those of the message; or the number of
/// the first step that fails, 1 to 4, and `fields` stay.
#[unsafe(no_mangle)]
pub extern "C" fn ertms_read_from_train(bytes: &[u8], fields: &mut FromTrainFields) -> u32
    ensures read { result ≡ 0 → from_train_fields.AreRead bytes.now fields.new }
    ensures only { (m : FromTrain) → from_train.Spells bytes.now m
        → (result ≡ 0) × (fields.new ≡ from_train_fields.fields_of m) }
    ensures refused { 0 < result → from_train_fields.IsRefused bytes.now result }
    ensures stays { 0 < result → fields.new ≡ fields.old }
{
    match read_from_train(bytes) {
        Ok(message) => {
            *fields = from_train::fields_of(&message);
            DONE
        }
        Err(fault) => code_of(fault),
    }
}

/// Encodes one message from a train. Answers 0: its bytes, at most 28, stand at the front of `out`, and `count` says how
/// many they are. Or the code that says why not, and `out` stays: 6 if no message in range has these fields, and `count`
/// stays; 7 if there is too little room, and `count` says how many bytes there are. The bytes of `out` after the message
/// stay.
#[unsafe(no_mangle)]
pub extern "C" fn ertms_write_from_train(
    fields: &FromTrainFields,
    out: &mut [u8],
    count: &mut usize,
) -> u32
    ensures { from_train_fields.Writes fields.now out.old count.old result out.new count.new }
{
    let Some(message) = from_train::message_of(fields) else {
        return NO_MESSAGE;
    };
    let mut buffer = [0; 1024];
    *count = write_from_train(&message, &mut buffer);
    write_whole(&buffer[..*count], out)
}

/// Encodes the text of one message, to a train or from one. Answers 0: its bytes, at most 897, stand at the front of
/// `out`, and `encoded` says how many they are. Or the code that says why not, and `out` stays: 5 if memory was refused,
/// and all stays; 7 if there is too little room, and `encoded` says how many bytes there are; 8 if a word is wrong:
/// `encoded` has its number, and what can stand there is told in words at the front of `words`, as many bytes as there
/// is room for. At every other answer `words` stays.
#[unsafe(no_mangle)]
pub extern "C" fn ertms_encode(
    alloc: Global,
    text: &[u8],
    out: &mut [u8],
    words: &mut [u8],
    encoded: &mut Encoded,
) -> u32
    ensures { Leaves text.now out.old words.old encoded.old result out.new words.new encoded.new }
{
    encode_text(alloc, text, out, words, encoded)
}
