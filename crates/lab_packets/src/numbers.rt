// Numbers in packets and in commands.
ghost use Rattle.std.specs.Prelude.{◌≡◌, ◌+◌, ◌<◌, ◌≤◌, length, IfSome};
ghost use Rattle.asm_text.specs.Numbers.{digits_in, is_hexadecimal};
ghost use Rattle.lab_packets.specs.Numbers.{number_of, byte_at, word_from, word_of, is_plain, written_number, written_in};

use crate::digits::byte_of;
use crate::texts::{behind, first_of};

/// How many digits a number has at most.
const MOST_DIGITS: usize = 8;

// The number that digits in a base spell, where it is one of 32 bits.
#[tactic(auto, using(asm_text::proofs::Digits::digit_steps), unfolding(asm_text::specs::Numbers::digits_in))]
fn digits_in(base: u32, digits: &[u8]) -> Option<u32>
    requires low { 2 ≤ base }
    requires high { base ≤ 36 }
    ensures { result ≡ digits_in base digits.now }
{
    if digits.is_empty() {
        return None;
    }
    let mut value = 0u64;
    for byte in digits {
        let Some(digit) = char::from(*byte).to_digit(base) else {
            return None;
        };
        value = value * u64::from(base) + u64::from(digit);
        if value > u64::from(u32::MAX) {
            return None;
        }
    }
    Some(value as u32)
}

/// The number of one to eight hexadecimal digits.
#[tactic(auto, unfolding(crate::specs::Numbers::number_of))]
pub(crate) fn number_of(text: &[u8]) -> Option<u32>
    ensures { result ≡ number_of text.now }
{
    if text.len() <= MOST_DIGITS {
        digits_in(16, text)
    } else {
        None
    }
}

// The byte that two digits at a place spell.
fn byte_at(text: &[u8], place: usize) -> Option<u8>
    requires { place + 1 < length text.now }
    ensures { result ≡ byte_at text.now place }
{
    byte_of(text[place], text[place + 1])
}

// A word of four bytes, the lowest first.
fn word_from(a: Option<u8>, b: Option<u8>, c: Option<u8>, d: Option<u8>) -> Option<u32>
    ensures { result ≡ word_from a b c d }
{
    match (a, b, c, d) {
        (Some(a), Some(b), Some(c), Some(d)) => {
            let low = u32::from(a) + u32::from(b) * 0x100;
            Some(low + u32::from(c) * 0x1_0000 + u32::from(d) * 0x100_0000)
        }
        _ => None,
    }
}

/// The word of eight digits, two for each byte, the lowest first.
#[tactic(auto, unfolding(crate::specs::Numbers::word_of))]
pub(crate) fn word_of(text: &[u8]) -> Option<u32>
    ensures { result ≡ word_of text.now }
{
    if text.len() != MOST_DIGITS {
        return None;
    }
    word_from(
        byte_at(text, 0),
        byte_at(text, 2),
        byte_at(text, 4),
        byte_at(text, 6),
    )
}

// "0x" stands first.
fn is_hexadecimal(text: &[u8]) -> bool
    ensures { result ≡ is_hexadecimal text.now }
{
    text.len() >= 2 && text[0] == b'0' && text[1] == b'x'
}

// One byte or more, and the first of several isn't 0.
fn is_plain(text: &[u8]) -> bool
    ensures { result ≡ is_plain text.now }
{
    text.len() == 1 || text.len() >= 2 && first_of(text) != b'0'
}

/// The number that a text of a command spells.
#[tactic(auto, unfolding(crate::specs::Numbers::written_number))]
pub(crate) fn written_number(text: &[u8]) -> Option<u32>
    ensures { result ≡ written_number text.now }
{
    if is_hexadecimal(text) {
        number_of(behind(text, 2))
    } else if is_plain(text) {
        digits_in(10, text)
    } else {
        None
    }
}

/// The number that a text of a command spells, where it is in the range.
#[tactic(auto, unfolding(crate::specs::Numbers::written_in))]
pub(crate) fn written_in(least: u32, most: u32, text: &[u8]) -> Option<u32>
    ensures number { result ≡ written_in least most text.now }
    ensures least { IfSome result (λ n. least ≤ n) }
    ensures most { IfSome result (λ n. n ≤ most) }
{
    match written_number(text) {
        Some(n) => if least <= n && n <= most {
            Some(n)
        } else {
            None
        },
        None => None,
    }
}
