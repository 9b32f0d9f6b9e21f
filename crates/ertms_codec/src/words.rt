//! The words of a text, one after the other.

ghost use Rattle.std.specs.Prelude.{◌≡◌, ◌≢◌, ◌≤◌, ◌∷◌, ◌+◌, [], IfSome, IfNone, IfOk, IfErr, OnOk, Some, ◌↔◌, IsTrue, ℕ, ℤ, List};
ghost use Rattle.std.specs.Prelude.{true, false, ◌==◌, FitsSigned};
ghost use Rattle.std.specs.Int.{w16};
ghost use Rattle.std.specs.Fmt.{decimal, signed_decimal};
ghost use Rattle.std.specs.List.{slice_split};
ghost use Rattle.ertms_codec.specs.Grammar.{Grammar, Ends, FirstWrong, Allows, IsNumber, wrong_at, one, named};
ghost use Rattle.ertms_codec.specs.Names.{name_text};
ghost use Rattle.ertms_codec.specs.Texts.{flag_text};
ghost use Rattle.ertms_codec.specs.Words.{Passes};

use crate::cutting::cut;
use crate::name::Name;
use crate::wrong_word::{Expected, WrongWord};
use std::marker::Model;

/// The words of a text that are not read yet. Between two words stands one space.
#[derive(Drop)]
pub struct Words<'a> {
    /// The text from the next word on; none behind the last word.
    left: Option<&'a [u8]>,
    /// The number of the next word; the first has number 1.
    next: u64,
}

impl<'a> Model for Words<'a> {
    ghost use Rattle.std.specs.Prelude.{◌+◌, ◌≤◌, ◌^◌};
    ghost use Rattle.ertms_codec.specs.Pieces.{length_left};
    ghost use Rattle.ertms_codec.specs.Words.{Unread, words_left};

    ghost Value = { Unread };

    ghost view = { λ w. record { next = w.next; words = words_left w.left } };

    ghost invariant = { λ w. w.next + length_left w.left ≤ 2 ^ 63 + 1 };
}

impl<'a> Words<'a> {
    /// All words of a text.
    pub fn new(text: &'a [u8]) -> Self
        ensures { result ≡ record { next = 1; words = slice_split (λ byte. byte == 32) text.now } }
    {
        Words {
            left: Some(text),
            next: 1,
        }
    }

    /// Whether no word is left.
    pub fn is_empty(&self) -> bool
        ensures none { result ≡ true → self.now.words ≡ [] }
        ensures some { result ≡ false → self.now.words ≢ [] }
    {
        self.left.is_none()
    }

    /// Checks that no word is left.
    ///
    /// # Errors
    ///
    /// That there is one.
    pub fn end(&self) -> Result<(), WrongWord>
        ensures ok { OnOk result (self.now.words ≡ []) }
        ensures err { IfErr result (λ wrong. FirstWrong self.now.next Ends self.now.words wrong) }
    {
        if self.is_empty() {
            Ok(())
        } else {
            Err(WrongWord {
                index: self.next,
                expected: Expected::End,
            })
        }
    }

    /// Reads the next word, whatever it is, and gives it with the fault that it is where it is wrong.
    ///
    /// # Errors
    ///
    /// That there is none.
    fn word(&mut self, expected: Expected) -> Result<(&'a [u8], WrongWord), WrongWord>
        ensures word { IfOk result (λ read. Passes (read.0.now ∷ []) self.old self.new) }
        ensures wrong { IfOk result (λ read. read.1 ≡ wrong_at self.old.next expected) }
        ensures none { IfErr result (λ wrong. (self.old.words ≡ []) × (wrong ≡ wrong_at self.old.next expected)) }
    {
        let wrong = WrongWord {
            index: self.next,
            expected,
        };
        let text = self.left.ok_or(wrong)?;
        let (word, behind) = cut(text, b' ');
        self.left = behind;
        self.next += 1;
        Ok((word, wrong))
    }

    /// Reads the name of a variable.
    ///
    /// # Errors
    ///
    /// That the next word is another, or none.
    pub fn name(&mut self, name: Name) -> Result<(), WrongWord>
        ensures ok { OnOk result (Passes (name_text name ∷ []) self.old self.new) }
        ensures err { IfErr result (λ wrong. (next : List ℕ → Grammar)
            → FirstWrong self.old.next (one (Expected.Name name) next) self.old.words wrong) }
    {
        let (word, wrong) = self.word(Expected::Name(name))?;
        if word == name.text().as_bytes() {
            Ok(())
        } else {
            Err(wrong)
        }
    }

    /// Reads a number that can stand there.
    ///
    /// # Errors
    ///
    /// That the next word is no such number, or none.
    pub fn number(&mut self, expected: Expected) -> Result<u32, WrongWord>
        requires { IsNumber expected }
        ensures ok { IfOk result (λ number. Allows expected number × Passes (decimal number ∷ []) self.old self.new) }
        ensures err { IfErr result (λ wrong. (next : List ℕ → Grammar)
            → FirstWrong self.old.next (one expected next) self.old.words wrong) }
    {
        let (word, wrong) = self.word(expected)?;
        let Some(number) = number_in(word) else {
            return Err(wrong);
        };
        if allows(expected, number) {
            Ok(number)
        } else {
            Err(wrong)
        }
    }

    /// Reads the name of a variable and its value.
    ///
    /// # Errors
    ///
    /// The first of these words that is wrong.
    pub fn named(&mut self, name: Name, most: u32) -> Result<u32, WrongWord>
        ensures ok { IfOk result (λ number. (number ≤ most) × Passes (name_text name ∷ decimal number ∷ []) self.old self.new) }
        ensures err { IfErr result (λ wrong. (next : Grammar)
            → FirstWrong self.old.next (named name most next) self.old.words wrong) }
    {
        self.name(name)?;
        self.number(Expected::Number(most))
    }

    /// Reads the name of a variable and its value, 0 or 1.
    ///
    /// # Errors
    ///
    /// The first of these words that is wrong.
    pub fn flag(&mut self, name: Name) -> Result<bool, WrongWord>
        ensures ok { IfOk result (λ flag. Passes (name_text name ∷ flag_text flag ∷ []) self.old self.new) }
        ensures err { IfErr result (λ wrong. (next : Grammar)
            → FirstWrong self.old.next (named name 1 next) self.old.words wrong) }
    {
        let value = self.named(name, 1)?;
        Ok(value == 1)
    }

    /// Reads D_REF and its value.
    ///
    /// # Errors
    ///
    /// The first of these words that is wrong.
    pub fn reference(&mut self) -> Result<i16, WrongWord>
        ensures ok { IfOk result (λ number. Passes (name_text Name.Ref ∷ signed_decimal number ∷ []) self.old self.new) }
        ensures err { IfErr result (λ wrong. (next : List ℕ → Grammar)
            → FirstWrong self.old.next (one (Expected.Name Name.Ref) (λ _. one Expected.Reference next)) self.old.words wrong) }
    {
        self.name(Name::Ref)?;
        let (word, wrong) = self.word(Expected::Reference)?;
        match reference_in(word) {
            Some(number) => Ok(number),
            None => Err(wrong),
        }
    }
}

/// Whether a number can stand as such a word.
fn allows(expected: Expected, number: u32) -> bool
    ensures { IsTrue result ↔ Allows expected number }
{
    match expected {
        Expected::Number(most) => number <= most,
        Expected::FromTrain => matches!(number, 136 | 146 | 147),
        Expected::Message => matches!(number, 15 | 16 | 18 | 24 | 136 | 146 | 147),
        Expected::PositionPacket => number <= 1,
        Expected::Packet => matches!(number, 65 | 66),
        Expected::Name(_) | Expected::Reference | Expected::End => false,
    }
}

/// The number below 2 ^ 32 that a word is, in decimal digits without leading zeros.
fn number_in(word: &[u8]) -> Option<u32>
    ensures some { IfSome result (λ number. word.now ≡ decimal number) }
    ensures small { IfSome result (λ number. number ≤ 4294967295) }
    ensures none { IfNone result ((number : ℕ) → number ≤ 4294967295 → word.now ≢ decimal number) }
{
    let Ok(text) = std::str::from_utf8(word) else {
        return None;
    };
    let Ok(number) = text.parse::<u32>() else {
        return None;
    };
    let mut digits = itoa::Buffer::new();
    if text == digits.format(number) {
        Some(number)
    } else {
        None
    }
}

/// The number from -32768 to 32767 that a word is, in decimal digits without leading zeros, with a minus sign or without.
fn reference_in(word: &[u8]) -> Option<i16>
    ensures some { IfSome result (λ number. word.now ≡ signed_decimal number) }
    ensures none { IfNone result ((number : ℤ) → FitsSigned w16 number → word.now ≢ signed_decimal number) }
{
    let Ok(text) = std::str::from_utf8(word) else {
        return None;
    };
    let Ok(number) = text.parse::<i16>() else {
        return None;
    };
    let mut digits = itoa::Buffer::new();
    if text == digits.format(number) {
        Some(number)
    } else {
        None
    }
}
