//! What holds of the text of each value.

ghost use Rattle.std.specs.Prelude.{◌≡◌, ◌∷◌, ◌++◌, [], true, false, codes};
ghost use Rattle.rbc_json.specs.Json.{Json, Null, Truth, Text, Array, NoValue, Value, json_text};
ghost use Rattle.rbc_json.specs.Plain.{IsInOneLine, IsShort, are_plain};

/// The text of a value whose numbers have at most 63 bits has only bytes from 32 to 126, so it is in one line.
pub fn json_law()
    ensures plain { (value : Json) → IsShort value → are_plain (json_text value) ≡ true }
{}

/// - Values with their texts, each in one line: a list, a text with a line feed, and one with a character above 127.
/// - Texts that the law excludes: a line feed between two values, and a character above 127 as its bytes in UTF-8.
pub fn json_law_witnesses()
    ensures list { IsInOneLine (Array (Value Null (Value (Truth true) NoValue))) (codes "[null,true]") }
    ensures line_feed { IsInOneLine (Text (10 ∷ [])) (34 ∷ 92 ∷ (codes "u000a" ++ 34 ∷ [])) }
    ensures euro { IsInOneLine (Text (8364 ∷ [])) (34 ∷ 92 ∷ (codes "u20ac" ++ 34 ∷ [])) }
    ensures two_lines { are_plain (codes "[1," ++ (10 ∷ codes "2]")) ≡ false }
    ensures bytes_of_euro { are_plain (34 ∷ 226 ∷ 130 ∷ 172 ∷ 34 ∷ []) ≡ false }
{}
