//! Hexadecimal digits, by a table.

ghost use Rattle.std.specs.Prelude.{◌≡◌, ◌*◌, ◌↔◌, length, IsTrue};
ghost use Rattle.std.specs.List.{AllPass};
ghost use Rattle.std.specs.Option.{unwrap_or};
ghost use Rattle.hex.specs.Hex.{decode_of, hex_digit_value, is_hex_digit};

/// For each byte the value of the hexadecimal digit that it is, and 256 if it is none.
#[rattlefmt::skip]
const VALUES: [u16; 256] = [
    256, 256, 256, 256, 256, 256, 256, 256, 256, 256, 256, 256, 256, 256, 256, 256,
    256, 256, 256, 256, 256, 256, 256, 256, 256, 256, 256, 256, 256, 256, 256, 256,
    256, 256, 256, 256, 256, 256, 256, 256, 256, 256, 256, 256, 256, 256, 256, 256,
    0, 1, 2, 3, 4, 5, 6, 7, 8, 9, 256, 256, 256, 256, 256, 256,
    256, 10, 11, 12, 13, 14, 15, 256, 256, 256, 256, 256, 256, 256, 256, 256,
    256, 256, 256, 256, 256, 256, 256, 256, 256, 256, 256, 256, 256, 256, 256, 256,
    256, 10, 11, 12, 13, 14, 15, 256, 256, 256, 256, 256, 256, 256, 256, 256,
    256, 256, 256, 256, 256, 256, 256, 256, 256, 256, 256, 256, 256, 256, 256, 256,
    256, 256, 256, 256, 256, 256, 256, 256, 256, 256, 256, 256, 256, 256, 256, 256,
    256, 256, 256, 256, 256, 256, 256, 256, 256, 256, 256, 256, 256, 256, 256, 256,
    256, 256, 256, 256, 256, 256, 256, 256, 256, 256, 256, 256, 256, 256, 256, 256,
    256, 256, 256, 256, 256, 256, 256, 256, 256, 256, 256, 256, 256, 256, 256, 256,
    256, 256, 256, 256, 256, 256, 256, 256, 256, 256, 256, 256, 256, 256, 256, 256,
    256, 256, 256, 256, 256, 256, 256, 256, 256, 256, 256, 256, 256, 256, 256, 256,
    256, 256, 256, 256, 256, 256, 256, 256, 256, 256, 256, 256, 256, 256, 256, 256,
    256, 256, 256, 256, 256, 256, 256, 256, 256, 256, 256, 256, 256, 256, 256, 256,
];

/// The value of a hexadecimal digit, and 256 for any other byte.
#[inline(always)]
fn value_of(digit: u8) -> u16
    ensures { result ≡ unwrap_or (hex_digit_value digit) 256 }
{
    VALUES[usize::from(digit)]
}

/// Writes the bytes that hexadecimal digits spell, and says whether all were digits. If one was not, what `bytes` then
/// holds is not specified. Takes no memory.
pub fn bytes_of_digits(digits: &[u8], bytes: &mut [u8]) -> bool
    requires { length digits.now ≡ 2 * length bytes.old }
    ensures all { IsTrue result ↔ AllPass is_hex_digit digits.now }
    ensures spelled { IsTrue result → decode_of digits.now ≡ Ok bytes.new }
{
    let mut all = 0;
    for index in 0..bytes.len() {
        let high = value_of(digits[2 * index]);
        let low = value_of(digits[2 * index + 1]);
        let pair = high << 4 | low;
        all |= pair;
        bytes[index] = (pair & 255) as u8;
    }
    all < 256
}
