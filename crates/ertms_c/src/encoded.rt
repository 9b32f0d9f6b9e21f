//! Encoding the text of a message.

ghost use Rattle.std.specs.Prelude.{◌≡◌, ◌⊎◌, IfOk, string_bytes};
ghost use Rattle.ertms_codec.specs.Grammar.{wrong_word_text};
ghost use Rattle.ertms_c.specs.Encoding.{Leaves, bytes_told, wrong_told};
ghost use Rattle.ertms_c.specs.Faults.{memory, wrong_word};
ghost use Rattle.ertms_c.specs.Given.{fronted};

use crate::faults::{MEMORY, WRONG_WORD};
use crate::given::{write_front, write_whole};
use ertms_codec::{EncodeError, WrongWord, encode};
use std::alloc::{AllocError, Global};

/// What came of encoding a text.
#[repr(C)]
#[derive(Clone, Copy, Drop)]
pub struct Encoded {
    /// How many bytes the message has; 0 if a word is wrong.
    pub count: usize,
    /// The number of the first wrong word, from 1; 0 if none is wrong.
    pub word: u64,
    /// How many bytes the words on it have; 0 if none is wrong.
    pub words: usize,
}

/// Encodes the text of a message. Answers 0, or a code, as `ertms_encode` does.
pub fn encode_text(
    alloc: Global,
    text: &[u8],
    out: &mut [u8],
    words: &mut [u8],
    encoded: &mut Encoded,
) -> u32
    ensures { Leaves text.now out.old words.old encoded.old result out.new words.new encoded.new }
{
    match encode(alloc, text) {
        Ok(bytes) => {
            *encoded = bytes_told(bytes.len());
            write_whole(bytes.as_slice(), out)
        }
        Err(EncodeError::Word(wrong)) => tell(alloc, wrong, words, encoded),
        Err(EncodeError::OutOfMemory) => MEMORY,
    }
}

/// What came of encoding a message of so many bytes.
fn bytes_told(count: usize) -> Encoded
    ensures { result ≡ bytes_told count }
{
    Encoded {
        count,
        word: 0,
        words: 0,
    }
}

/// The words on a wrong word.
fn words_on(alloc: Global, wrong: WrongWord) -> Result<String, AllocError>
    ensures { IfOk result (λ line. string_bytes line ≡ wrong_word_text wrong) }
{
    format!(in alloc; "{wrong}")
}

/// Tells a wrong word. Answers its code; or that memory was refused, and all stays.
fn tell(alloc: Global, wrong: WrongWord, words: &mut [u8], encoded: &mut Encoded) -> u32
    ensures codes { (result ≡ memory) ⊎ (result ≡ wrong_word) }
    ensures words { result ≡ wrong_word → words.new ≡ fronted (wrong_word_text wrong) words.old }
    ensures told { result ≡ wrong_word → encoded.new ≡ wrong_told wrong }
    ensures words_stay { result ≡ memory → words.new ≡ words.old }
    ensures stays { result ≡ memory → encoded.new ≡ encoded.old }
{
    let Ok(line) = words_on(alloc, wrong) else {
        return MEMORY;
    };
    let bytes = line.as_bytes();
    write_front(bytes, words);
    *encoded = Encoded {
        count: 0,
        word: wrong.index,
        words: bytes.len(),
    };
    WRONG_WORD
}
