//! Cutting a text at separators.

ghost use Rattle.std.specs.Prelude.{◌≡◌, ◌∷◌, ◌<◌, length, IfSome, IfNone, ◌==◌};
ghost use Rattle.std.specs.List.{position, slice_split, before_first, after_first};
ghost use Rattle.ertms_codec.specs.Pieces.{pieces_behind, text_behind};

use memchr::memchr;

/// The place of the first such byte.
fn find_byte(text: &[u8], byte: u8) -> Option<usize>
    ensures { result ≡ position (λ b. b == byte) text.now }
{
    memchr(byte, text)
}

/// The text before the first separator, and the text after it. Without a separator: the whole text, and `None`.
pub fn cut(text: &[u8], separator: u8) -> (&[u8], Option<&[u8]>)
    ensures pieces { slice_split (λ b. b == separator) text.now ≡ result.0.now ∷ pieces_behind separator result.1 }
    ensures before { result.0.now ≡ before_first (λ b. b == separator) text.now }
    ensures shorter { IfSome result.1 (λ behind. length behind.now < length text.now) }
    ensures whole { IfNone result.1 (result.0.now ≡ text.now) }
    ensures behind { after_first (λ b. b == separator) text.now ≡ text_behind result.1 }
{
    match find_byte(text, separator) {
        Some(at) => (&text[..at], Some(&text[at + 1..])),
        None => (text, None),
    }
}
