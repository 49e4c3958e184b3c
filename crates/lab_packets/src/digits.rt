// Bytes as two hexadecimal digits.
ghost use Rattle.std.specs.Prelude.{◌≡◌, ◌++◌, ◌∷◌, [], ◌≤◌, false, length, drop, IfOk, OnOk};
ghost use Rattle.std.specs.Char.{digit_value};
ghost use Rattle.std.specs.Fmt.{digit_glyph};
ghost use Rattle.lab_packets.specs.Digits.{byte_of, bytes_of, byte_digits, bytes_digits};

use hart_words::{Text, WantOfMemory};
use std::alloc::Global;

/// The hexadecimal digits.
const DIGITS: [u8; 16] = *b"0123456789abcdef";

// The value of a digit of either case, and more than 15 where the byte is none.
#[tactic(auto, using(std::proofs::lemmas::Bool::Decides::nat_tests))]
fn digit_value(byte: u8) -> u8
    ensures value { result ≡ digit_value byte }
    ensures small { result ≤ 36 }
{
    match byte {
        b'0'..=b'9' => byte - b'0',
        b'A'..=b'Z' => byte - b'A' + 10,
        b'a'..=b'z' => byte - b'a' + 10,
        _ => 36,
    }
}

/// The byte that two digits spell, of either case.
#[tactic(auto, using(std::proofs::lemmas::Bool::Decides::nat_tests), unfolding(crate::specs::Digits::byte_of))]
pub fn byte_of(high: u8, low: u8) -> Option<u8>
    ensures { result ≡ byte_of high low }
{
    let high = digit_value(high);
    let low = digit_value(low);
    if high < 16 && low < 16 {
        Some(high * 16 + low)
    } else {
        None
    }
}

fn behind_two(digits: &[u8]) -> &[u8]
    requires { 2 ≤ length digits.now }
    ensures { result.now ≡ drop 2 digits.now }
{
    &digits[2..]
}

/// The bytes that a text of digits spells.
#[tactic(auto, using(crate::proofs::Pairs::pair_step), unfolding(crate::specs::Digits::bytes_of))]
pub fn bytes_of(alloc: Global, digits: &[u8]) -> Result<Option<Text>, WantOfMemory>
    ensures { IfOk result (λ bytes. bytes ≡ bytes_of digits.now) }
{
    let mut bytes = Text::new(alloc);
    let mut rest = digits;
    while rest.len() >= 2 {
        let Some(byte) = byte_of(rest[0], rest[1]) else {
            return Ok(None);
        };
        bytes.push_bytes(&[byte])?;
        rest = behind_two(rest);
    }
    if rest.is_empty() {
        Ok(Some(bytes))
    } else {
        Ok(None)
    }
}

// The digit of a number below 16, in lower case.
fn digit(v: u8) -> u8
    requires { v ≤ 15 }
    ensures { result ≡ digit_glyph false v }
{
    DIGITS[usize::from(v)]
}

/// Adds the digit of a number below 16.
pub(crate) fn put_digit(text: &mut Text, v: u8) -> Result<(), WantOfMemory>
    requires { v ≤ 15 }
    ensures { OnOk result (text.new ≡ text.old ++ digit_glyph false v ∷ []) }
{
    text.push_bytes(&[digit(v)])
}

/// Adds two digits for a byte.
#[tactic(auto, unfolding(crate::specs::Digits::byte_digits))]
pub(crate) fn put_byte(text: &mut Text, byte: u8) -> Result<(), WantOfMemory>
    ensures { OnOk result (text.new ≡ text.old ++ byte_digits byte) }
{
    text.push_bytes(&[digit(byte / 16), digit(byte % 16)])
}

/// Adds two digits for each byte.
pub fn put_digits(text: &mut Text, bytes: &[u8]) -> Result<(), WantOfMemory>
    ensures { OnOk result (text.new ≡ text.old ++ bytes_digits bytes.now) }
{
    for byte in bytes {
        put_byte(text, *byte)?;
    }
    Ok(())
}
